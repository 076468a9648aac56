// The query, judged, and its glyph lines by number (document 01, "Finding").
#![tactic(auto)]

ghost use Rattle.std.specs.Prelude.{◌≡◌, ◌≤◌, ◌<◌, length};
ghost use Rattle.rules.specs.Answers.{refusal};
ghost use Rattle.rules.specs.Find.{query};
ghost use Rattle.query.specs.Asked.{no_glyph, query_of, LinesOf};
ghost use Rattle.query.specs.Turns.{end_of, Going, LineTurned};
ghost use Rattle.query_line.specs.Kinds.{expected_of};

use query_line::{Due, Gap, Kind};
use rules::Refusal;

// A glyph line: its name's place and length in the query, and what it asks of the gap mark.
#[derive(Clone, Copy)]
pub struct Wanted {
    pub place: u32,
    pub len: u32,
    pub gap: Gap,
}

// What stands where there is no glyph line.
pub fn no_glyph() -> Wanted
    ensures { result ≡ no_glyph }
{
    Wanted {
        place: 0,
        len: 0,
        gap: Gap::Either,
    }
}

// Between two lines: the next line's place, what may stand there, and how many glyph lines were read.
#[derive(Clone, Copy)]
struct QueryState {
    at: usize,
    due: Due,
    glyphs: usize,
}

// The query is wrong there.
fn wrong(offset: usize) -> Refusal
    ensures { result ≡ refusal 12 offset }
{
    Refusal { number: 12, offset }
}

// Reads one line.
#[tactic(auto, using(crate::proofs::Turning::turning))]
fn turn(q: &[u8], glyphs: &mut [Wanted; 64], st: QueryState) -> Result<QueryState, Refusal>
    requires { Going q.now st glyphs.old × (st.at < length q.now) }
    ensures { LineTurned q.now st result glyphs.new }
{
    let at = st.at;
    let end = scan_lex::line_end(q, at);
    if q.len() <= end {
        return Err(wrong(at));
    }
    let kind = query_line::kind_of(&q[at..end], st.due, st.glyphs).ok_or(wrong(at))?;
    match kind {
        Kind::Glyph => {
            let place = at + 6;
            glyphs[st.glyphs] = Wanted {
                place: place as u32,
                len: (end - place) as u32,
                gap: st.due.gap(),
            };
            Ok(QueryState {
                at: end + 1,
                due: Due::Either,
                glyphs: st.glyphs + 1,
            })
        }
        Kind::Gap => Ok(QueryState {
            at: end + 1,
            due: Due::Glyph { gap: at },
            glyphs: st.glyphs,
        }),
    }
}

// What the end of the query says.
fn ended(st: QueryState) -> Result<usize, Refusal>
    ensures { result ≡ end_of st.glyphs (expected_of st.due) }
{
    match st.due {
        Due::First => Err(wrong(0)),
        Due::Glyph { gap } => Err(wrong(gap)),
        Due::Either => Ok(st.glyphs),
    }
}

// Judges the query, and puts its glyph lines into the row; answers how many there are, or refusal 12. The row's content does not matter
// where the query is ill formed.
#[tactic(auto, using(crate::proofs::Turning::turning))]
pub fn load(q: &[u8], glyphs: &mut [Wanted; 64]) -> Result<usize, Refusal>
    requires { length q.now ≤ 8192 }
    ensures { (result ≡ query_of (query q.now)) × LinesOf q.now glyphs.new (query q.now) }
{
    let mut st = QueryState {
        at: 0,
        due: Due::First,
        glyphs: 0,
    };
    // No `for` over the lines is plainer: a refusal names the place of its line.
    while st.at < q.len() {
        st = turn(q, glyphs, st)?;
    }
    ended(st)
}
