// One command in the house spelling (document 01, "House spelling"): its line, `H` and `V` before it, or a word glyph by glyph. What is
// written is defined in respell_model.
#![tactic(auto)]

ghost use Rattle.std.specs.Prelude.{◌≡◌, [], ◌∷◌, ◌++◌, ◌<◌, ◌≤◌, length, IsOk};
ghost use Rattle.read_model.specs.Turns.{did_at};
ghost use Rattle.read_model.specs.Fits.{CommandIn};
ghost use Rattle.read_word.specs.Bounds.{Small};
ghost use Rattle.read_turn.specs.Ready.{Ready};
ghost use Rattle.respell_model.specs.Sheet.{put_all};
ghost use Rattle.respell_bytes.specs.Puts.{Puts};
ghost use Rattle.respell_model.specs.Lines.{line_of};
ghost use Rattle.respell_model.specs.Command.{moves_to, manner_of, pen_h, pen_v, spelled_at};

use read_model::State;
use respell_bytes::Sheet;
use respell_model::{Manner, Mark, Pen};
use scan_command::Command;

// The line of a command, with `H` and `V` before it, to where `to` is.
#[tactic(auto, using(respell_model::proofs::Sheets::one_by_one))]
fn put_anchored(sheet: &mut Sheet, s: &[u8], place: usize, c: Command, from: Pen, to: Pen)
    requires { (place < length s.now) × (length s.now ≤ 16777216) × CommandIn place (length s.now) c }
    ensures { Puts (moves_to from.h from.v to.h to.v ++ (line_of s.now place c ++ 10 ∷ [])) sheet.old sheet.new }
{
    respell_glyph::put_moves(sheet, from, to);
    respell_line::put_line(sheet, s, place, c);
}

// What is written for a command of which nothing is refused, in the manner of it: st is the state before it, pen where a reader is, behind
// the position behind it. Where a reader is then.
#[tactic(auto, using(respell_model::proofs::Sheets::one_by_one, crate::proofs::Spells::spelling), unfolding(respell_model::specs::Command::spelled_at))]
fn put_command(
    sheet: &mut Sheet,
    s: &[u8],
    ws: &[u32],
    st: State,
    c: Command,
    pen: Pen,
    behind: Pen,
) -> Pen
    requires ready { Ready (length s.now) st × Small ws.now × CommandIn st.at (length s.now) c }
    requires done { IsOk (did_at s.now ws.now st.unitwidth st.env st.at c) }
    ensures { Puts (spelled_at s.now ws.now st.unitwidth st.env st.at behind.h behind.v pen.h pen.v c) sheet.old sheet.new × (result.h ≡ pen_h s.now ws.now st.unitwidth st.env behind.h pen.h (manner_of c)) × (result.v ≡ pen_v ws.now st.unitwidth st.env behind.v pen.v (manner_of c)) }
{
    let e = st.env;
    let at = st.at;
    match respell_line::manner(c) {
        Manner::Anchored => {
            put_anchored(sheet, s, at, c, pen, Pen { h: e.h, v: e.v });
            behind
        }
        Manner::Shifted => {
            put_anchored(sheet, s, at, c, pen, behind);
            behind
        }
        Manner::Floating => {
            respell_line::put_line(sheet, s, at, c);
            pen
        }
        Manner::Turning => {
            respell_line::put_line(sheet, s, at, c);
            Pen {
                h: pen.h,
                v: 100_000_000,
            }
        }
        Manner::Moving => pen,
        Manner::Lettered { track, place, end } => {
            respell_word::put_word_from(sheet, s, ws, e, st.unitwidth, track, place, end, pen)
        }
    }
}

// The same in a lent buffer, from one mark to the next: h and v are the position behind the command.
pub fn spell(
    out: &mut [u8],
    s: &[u8],
    ws: &[u32],
    st: State,
    c: Command,
    h: u32,
    v: u32,
    m: Mark,
) -> Mark
    requires ready { Ready (length s.now) st × Small ws.now × CommandIn st.at (length s.now) c }
    requires done { IsOk (did_at s.now ws.now st.unitwidth st.env st.at c) }
    ensures { (record { bytes = out.new; at = result.at } ≡ put_all (spelled_at s.now ws.now st.unitwidth st.env st.at h v m.h m.v c) (record { bytes = out.old; at = m.at })) × (result.h ≡ pen_h s.now ws.now st.unitwidth st.env h m.h (manner_of c)) × (result.v ≡ pen_v ws.now st.unitwidth st.env v m.v (manner_of c)) }
{
    let mut sheet = Sheet {
        bytes: out,
        at: m.at,
    };
    let pen = Pen { h: m.h, v: m.v };
    let then = put_command(&mut sheet, s, ws, st, c, pen, Pen { h, v });
    Mark {
        at: sheet.at,
        h: then.h,
        v: then.v,
    }
}
