// A word in the house spelling (document 01, "House spelling"): glyph by glyph, each with `H` and `V` before it where they differ.
#![tactic(auto)]

ghost use Rattle.std.specs.Prelude.{◌≡◌, [], ◌∷◌, ◌++◌, ◌-◌, ◌≤◌, IsSome};
ghost use Rattle.read_model.specs.Words.{word_end};
ghost use Rattle.read_environment.specs.Bounds.{Fits};
ghost use Rattle.read_word.specs.Bounds.{Small, Tracked, WordFits};
ghost use Rattle.respell_bytes.specs.Puts.{Puts};
ghost use Rattle.respell_model.specs.Command.{moves_to, word_lines, word_pen_h, word_pen_v, word_for};

use read_model::{Environment, Word};
use respell_bytes::Sheet;
use respell_model::Pen;

// A glyph of one byte.
#[tactic(auto, using(respell_model::proofs::Sheets::one_by_one))]
fn put_byte(sheet: &mut Sheet, b: u8)
    ensures { Puts (99 ∷ 32 ∷ b ∷ 10 ∷ []) sheet.old sheet.new }
{
    sheet.put_all(&[b'c', b' ', b, b'\n']);
}

// The same, with `H` and `V` before it.
#[tactic(auto, using(respell_model::proofs::Sheets::one_by_one))]
fn put_letter(sheet: &mut Sheet, from: Pen, to: Pen, b: u8)
    ensures { Puts (moves_to from.h from.v to.h to.v ++ 99 ∷ 32 ∷ b ∷ 10 ∷ []) sheet.old sheet.new }
{
    respell_glyph::put_moves(sheet, from, to);
    put_byte(sheet, b);
}

// A word, glyph by glyph.
#[tactic(auto, using(crate::proofs::Words::words))]
fn put_word(sheet: &mut Sheet, s: &[u8], ws: &[u32], from: Pen, w: Word) -> Pen
    requires { WordFits w × Small ws.now × IsSome (word_end w.left s.now ws.now w) }
    ensures { Puts (word_lines w.left s.now ws.now from.h from.v w) sheet.old sheet.new × (result.h ≡ word_pen_h w.left s.now ws.now from.h w) × (result.v ≡ word_pen_v w.left from.v w) }
{
    let mut d = w;
    let mut pen = from;
    while 0 < d.left {
        let to = Pen { h: d.h, v: d.v };
        put_letter(sheet, pen, to, scan_lex::byte_at(s, d.at));
        pen = to;
        let x = read_word::word_step(s, ws, d);
        d = x.next;
    }
    pen
}

// A word of the stream from place to end, spelt with the environment before it.
#[tactic(auto, using(crate::proofs::Words::beginning))]
pub fn put_word_from(
    sheet: &mut Sheet,
    s: &[u8],
    ws: &[u32],
    e: Environment,
    unitwidth: u32,
    track: u32,
    place: usize,
    end: usize,
    pen: Pen,
) -> Pen
    requires fits { Fits e × Small ws.now × (1 ≤ unitwidth) × (unitwidth ≤ 100_000) × Tracked track place end }
    requires ends { IsSome (word_end (end - place) s.now ws.now (word_for ws.now unitwidth e track place end)) }
    ensures { Puts (word_lines (end - place) s.now ws.now pen.h pen.v (word_for ws.now unitwidth e track place end)) sheet.old sheet.new × (result.h ≡ word_pen_h (end - place) s.now ws.now pen.h (word_for ws.now unitwidth e track place end)) × (result.v ≡ word_pen_v (end - place) pen.v (word_for ws.now unitwidth e track place end)) }
{
    let block = read_word::block_now(ws, e);
    let w = read_word::word_here(e, unitwidth, track, end - place, place, block);
    put_word(sheet, s, ws, pen, w)
}
