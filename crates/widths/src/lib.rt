// The width list, judged and turned into a table (document 01, "Widths").
#![tactic(auto)]

ghost use Rattle.std.specs.Prelude.{◌≡◌, ◌+◌, ◌≤◌, length};
ghost use Rattle.rules.specs.Widths.{width_list};
ghost use Rattle.widths_font.specs.Fonts.{Good, Told};
ghost use Rattle.widths.specs.Lines.{turn_says, length_at};
ghost use Rattle.widths.specs.Table.{list_of, Loaded};

use rules::Refusal;
use widths_line::{Due, State};
use widths_table::Table;

// What a sound list answers: the unitwidth, and how many fonts there are.
#[derive(Clone, Copy)]
pub struct Sound {
    pub unitwidth: u32,
    pub fonts: usize,
}

// One line: what is due says which; a font or byte line is `font=NAME`, else `byte=N`.
#[tactic(auto, using(crate::proofs::Turns::turning))]
fn turn(list: &[u8], table: &mut Table, st: State) -> Result<State, Refusal>
    requires { Good list.now st }
    ensures { Told list.now table.old table.new st (st.at + length_at list.now st.at + 1) result (turn_says list.now st.at) }
{
    let at = st.at;
    let end = scan_lex::line_end(list, at);
    if end == list.len() {
        return Err(widths_line::wrong(at));
    }
    let line = &list[at..end];
    let next = end + 1;
    match st.due {
        Due::Unitwidth => widths_line::unit_line(line, at, next),
        Due::Block => match line.strip_prefix(b"font=") {
            Some(name) => widths_font::font_line(list, at + 5, name.len(), table, st, next),
            None => widths_line::byte_line(line, st, next),
        },
        Due::Width { byte } => widths_line::width_line(line, table, st, byte, next),
    }
}

// Judges the list and fills the table: where the list is sound, each font's block stands in its slot. Where it is not, what the table
// holds does not matter.
#[tactic(auto, using(crate::proofs::Loading::loading))]
pub fn load(list: &[u8], table: &mut Table) -> Result<Sound, Refusal>
    requires list_len_bound { length list.now ≤ 65536 }
    ensures { (result ≡ list_of (width_list list.now)) × Loaded list.now table.new (width_list list.now) }
{
    let mut st = State {
        due: Due::Unitwidth,
        unitwidth: 0,
        fonts: 0,
        low: 0,
        at: 0,
    };
    while st.at < list.len() {
        st = turn(list, table, st)?;
    }
    match st.due {
        Due::Block => Ok(Sound {
            unitwidth: st.unitwidth,
            fonts: st.fonts,
        }),
        _ => Err(widths_line::wrong(list.len())),
    }
}
