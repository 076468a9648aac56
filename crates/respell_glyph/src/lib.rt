// A glyph in the house spelling (document 01, "House spelling"): its line, and `H` and `V` before it.
#![tactic(auto)]

ghost use Rattle.std.specs.Prelude.{◌≡◌, ◌∷◌};
ghost use Rattle.respell_bytes.specs.Puts.{Puts};
ghost use Rattle.respell_model.specs.Lines.{name_arg, glyph_letter_of};
ghost use Rattle.respell_model.specs.Command.{move_to, moves_to};

use respell_bytes::Sheet;
use respell_model::Pen;

// `c` for a name of one byte, else `C`.
fn glyph_letter(len: usize) -> u8
    ensures { result ≡ glyph_letter_of len }
{
    if len == 1 { b'c' } else { b'C' }
}

// A glyph by its name, which stands in the stream.
#[tactic(auto, using(respell_model::proofs::Sheets::one_by_one))]
pub fn put_glyph(sheet: &mut Sheet, s: &[u8], place: usize, len: usize)
    ensures { Puts (glyph_letter_of len ∷ name_arg s.now place len) sheet.old sheet.new }
{
    sheet.put(glyph_letter(len));
    respell_arguments::put_name_arg(sheet, s, place, len);
}

// `H` or `V`, where q is not p.
#[tactic(auto, using(respell_model::proofs::Sheets::one_by_one))]
fn put_move(sheet: &mut Sheet, letter: u8, p: u32, q: u32)
    ensures { Puts (move_to letter p q) sheet.old sheet.new }
{
    if q != p {
        respell_arguments::put_signed_line(sheet, letter, q);
        sheet.put(b'\n');
    }
}

// `H` and then `V`, from where a reader of the spelling so far is.
#[tactic(auto, using(respell_model::proofs::Sheets::one_by_one))]
pub fn put_moves(sheet: &mut Sheet, from: Pen, to: Pen)
    ensures { Puts (moves_to from.h from.v to.h to.v) sheet.old sheet.new }
{
    put_move(sheet, b'H', from.h, to.h);
    put_move(sheet, b'V', from.v, to.v);
}
