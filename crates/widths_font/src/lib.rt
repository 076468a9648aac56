// The line `font=NAME` of a width list (document 01, "Widths").
#![tactic(auto)]

ghost use Rattle.std.specs.Prelude.{◌≡◌, ◌+◌, ◌≤◌, length};
ghost use Rattle.name.specs.Part.{part_of};
ghost use Rattle.widths_font.specs.Fonts.{is_taken, Good, Told, font_says};

use rules::Refusal;
use widths_line::{Due, State};
use widths_table::{Block, FontName, Table};

// Whether one of these fonts has a name.
fn is_taken(list: &[u8], fonts: &[Block], name: &[u8]) -> bool
    ensures { result ≡ is_taken list.now fonts.now name.now }
{
    fonts
        .iter()
        .any(|block| widths_slot::is_named(list, block.name, name))
}

// `font=NAME`, the name being the part of the list at a place: the next slot is that font's, with no widths.
#[tactic(auto, using(crate::proofs::Fonts::fonts))]
pub fn font_line(
    list: &[u8],
    place: usize,
    len: usize,
    table: &mut Table,
    st: State,
    next: usize,
) -> Result<State, Refusal>
    requires { Good list.now st × (place + len ≤ length list.now) }
    ensures { Told list.now table.old table.new st next result (font_says (part_of list.now place len)) }
{
    let k = st.fonts;
    let name = name::name_at(list, place, len);
    if k == 32 || !scan_lex::is_list_name(name) || is_taken(list, &table[..k], name) {
        return Err(widths_line::wrong(st.at));
    }
    table[k] = Block {
        name: FontName {
            place: place as u32,
            len: len as u32,
        },
        widths: [0; 256],
    };
    Ok(State {
        due: Due::Block,
        fonts: k + 1,
        low: 0,
        at: next,
        ..st
    })
}
