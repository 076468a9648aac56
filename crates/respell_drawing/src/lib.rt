// Drawings in the house spelling (document 01, "House spelling", "Drawing"), and the colours that `m` and `DF` set.
#![tactic(auto)]

ghost use Rattle.std.specs.Prelude.{◌≡◌, ◌∷◌, ◌<◌, ◌≤◌, length};
ghost use Rattle.read_model.specs.Fits.{CommandIn};
ghost use Rattle.respell_bytes.specs.Puts.{Puts};
ghost use Rattle.respell_model.specs.Lines.{signed_arg, args_from, three_args, part_args, draw_count, behind_letter, line_of};
ghost use Rattle.scan_letters.specs.Selected.{byte_of, drawing_of, parts_of};
ghost use Rattle.respell_drawing.specs.Drawing.{Drawing};

use respell_bytes::Sheet;
use scan_command::Command;
use scan_letters::Parts;

#[tactic(auto, using(respell_model::proofs::Sheets::one_by_one))]
fn put_three(sheet: &mut Sheet, a: u32, b: u32, c: u32)
    ensures { Puts (three_args a b c) sheet.old sheet.new }
{
    respell_arguments::put_plain_arg(sheet, a);
    respell_arguments::put_plain_arg(sheet, b);
    respell_arguments::put_plain_arg(sheet, c);
}

// As many of the four components as a scheme has.
#[tactic(auto, using(respell_model::proofs::Sheets::one_by_one))]
fn put_parts(sheet: &mut Sheet, parts: Parts, a: u32, b: u32, c: u32, d: u32)
    ensures { Puts (part_args parts a b c d) sheet.old sheet.new }
{
    match parts {
        Parts::Zero | Parts::Unknown => {}
        Parts::One => respell_arguments::put_plain_arg(sheet, a),
        Parts::Three => put_three(sheet, a, b, c),
        Parts::Four => {
            respell_arguments::put_plain_arg(sheet, a);
            put_three(sheet, b, c, d);
        }
    }
}

// `m`, or `DF` behind its `D`.
#[tactic(auto, using(respell_model::proofs::Sheets::one_by_one))]
pub fn put_colour(sheet: &mut Sheet, letter: u8, scheme: u32, a: u32, b: u32, c: u32, d: u32)
    ensures { Puts (letter ∷ byte_of scheme ∷ part_args (parts_of (byte_of scheme)) a b c d) sheet.old sheet.new }
{
    let k = scan_letters::byte_of(scheme);
    sheet.put(letter);
    sheet.put(k);
    put_parts(sheet, scan_letters::parts_of(k), a, b, c, d);
}

// `DF`
#[tactic(auto, using(respell_model::proofs::Sheets::one_by_one))]
fn put_fill(sheet: &mut Sheet, scheme: u32, a: u32, b: u32, c: u32, d: u32)
    ensures { Puts (68 ∷ 70 ∷ byte_of scheme ∷ part_args (parts_of (byte_of scheme)) a b c d) sheet.old sheet.new }
{
    sheet.put(b'D');
    put_colour(sheet, b'F', scheme, a, b, c, d);
}

// `Df`
#[tactic(auto, using(respell_model::proofs::Sheets::one_by_one))]
fn put_gray(sheet: &mut Sheet, n: u32)
    ensures { Puts (68 ∷ 102 ∷ signed_arg n) sheet.old sheet.new }
{
    sheet.put(b'D');
    respell_arguments::put_signed_line(sheet, b'f', n);
}

// How many integers a drawing keeps: the dummy goes.
fn draw_count(drawing: scan_letters::Drawing, terms: u64) -> usize
    requires { terms < 65 }
    ensures { result ≡ draw_count drawing terms }
{
    match drawing {
        scan_letters::Drawing::One(_) => 1,
        scan_letters::Drawing::Dummied(_) => 1,
        scan_letters::Drawing::Two(_) => 2,
        scan_letters::Drawing::Four => 4,
        scan_letters::Drawing::Pairs => 2 * (terms as usize),
        scan_letters::Drawing::Gray => 1,
        scan_letters::Drawing::Scheme => 0,
        scan_letters::Drawing::Unknown => 0,
    }
}

// Behind the letter of a drawing that begins at a place.
#[tactic(auto, using(crate::proofs::Places::places))]
fn behind_letter(s: &[u8], at: usize) -> usize
    requires { (at < length s.now) × (length s.now ≤ 16777216) }
    ensures { result ≡ behind_letter s.now at }
{
    scan_lex::spacer_end(s, at + 1) + 1
}

// `D` and the letter of a shape, with the integers that it keeps.
#[tactic(auto, using(respell_model::proofs::Sheets::one_by_one))]
fn put_shape(sheet: &mut Sheet, s: &[u8], place: usize, letter: u32, terms: u64)
    requires { (place < length s.now) × (length s.now ≤ 16777216) × (terms < 65) }
    ensures { Puts (68 ∷ byte_of letter ∷ args_from (draw_count (drawing_of (byte_of letter)) terms) s.now (behind_letter s.now place)) sheet.old sheet.new }
{
    let k = scan_letters::byte_of(letter);
    sheet.put(b'D');
    sheet.put(k);
    let from = behind_letter(s, place);
    let n = draw_count(scan_letters::drawing_of(k), terms);
    respell_arguments::put_args(sheet, s, from, n);
}

// The line of a drawing at a place of the stream, its newline aside. No other command comes here: the last arm is there for the match alone.
#[tactic(auto, using(respell_model::proofs::Sheets::one_by_one))]
pub fn put_drawing(sheet: &mut Sheet, s: &[u8], place: usize, c: Command)
    requires { (place < length s.now) × (length s.now ≤ 16777216) × CommandIn place (length s.now) c × Drawing c }
    ensures { Puts (line_of s.now place c) sheet.old sheet.new }
{
    match c {
        Command::Draw { letter, terms, .. } => put_shape(sheet, s, place, letter, terms),
        Command::Gray { number, .. } => put_gray(sheet, number),
        Command::Fill {
            scheme,
            a,
            b,
            c,
            d,
            ..
        } => put_fill(sheet, scheme, a, b, c, d),
        _ => {}
    }
}
