// The line of one command in the house spelling (document 01, "House spelling"), made from the command and the stream, and how it is
// written. What is written is defined in respell_model.
#![tactic(auto)]

ghost use Rattle.std.specs.Prelude.{◌≡◌, [], ◌∷◌, ◌++◌, ◌<◌, ◌≤◌, length};
ghost use Rattle.read_model.specs.Fits.{CommandIn};
ghost use Rattle.respell_bytes.specs.Puts.{Puts};
ghost use Rattle.respell_model.specs.Lines.{line_of};
ghost use Rattle.respell_model.specs.Command.{manner_of};

use respell_bytes::Sheet;
use respell_model::Manner;
use scan_command::Command;

// The line of a command at a place of the stream, its newline aside. A motion has none; a word is written glyph by glyph.
#[tactic(auto, using(respell_model::proofs::Sheets::one_by_one, crate::proofs::Lines::kinds))]
fn put_command(sheet: &mut Sheet, s: &[u8], place: usize, c: Command)
    requires { (place < length s.now) × (length s.now ≤ 16777216) × CommandIn place (length s.now) c }
    ensures { Puts (line_of s.now place c) sheet.old sheet.new }
{
    match c {
        Command::Glyph { place: p, len, .. } => respell_glyph::put_glyph(sheet, s, p, len),
        Command::Index { number, .. } => respell_arguments::put_signed_line(sheet, b'N', number),
        Command::Pair { place: p, .. } => respell_glyph::put_glyph(sheet, s, p, 1),
        Command::Page { number, .. } => respell_arguments::put_signed_line(sheet, b'p', number),
        Command::Font { position, .. } => respell_arguments::put_plain_line(sheet, b'f', position),
        Command::Size { size, .. } => respell_arguments::put_plain_line(sheet, b's', size),
        Command::Colour {
            scheme,
            a,
            b,
            c,
            d,
            ..
        } => respell_drawing::put_colour(sheet, b'm', scheme, a, b, c, d),
        Command::Break { .. } => sheet.put_all(b"n 0 0"),
        Command::Space { .. } => sheet.put(b'w'),
        Command::Word { .. } | Command::To { .. } | Command::By { .. } => {}
        Command::Draw { .. } | Command::Gray { .. } | Command::Fill { .. } => {
            respell_drawing::put_drawing(sheet, s, place, c)
        }
        _ => respell_control::put_control(sheet, s, place, c),
    }
}

// The same, with its newline.
#[tactic(auto, using(respell_model::proofs::Sheets::one_by_one))]
pub fn put_line(sheet: &mut Sheet, s: &[u8], place: usize, c: Command)
    requires { (place < length s.now) × (length s.now ≤ 16777216) × CommandIn place (length s.now) c }
    ensures { Puts (line_of s.now place c ++ 10 ∷ []) sheet.old sheet.new }
{
    put_command(sheet, s, place, c);
    sheet.put(b'\n');
}

// How a command is written.
pub fn manner(c: Command) -> Manner
    ensures { result ≡ manner_of c }
{
    match c {
        Command::Glyph { .. } => Manner::Anchored,
        Command::Index { .. } => Manner::Anchored,
        Command::Word {
            track,
            place,
            end,
            ..
        } => Manner::Lettered { track, place, end },
        Command::Pair { .. } => Manner::Shifted,
        Command::To { .. } => Manner::Moving,
        Command::By { .. } => Manner::Moving,
        Command::Page { .. } => Manner::Turning,
        Command::Font { .. } => Manner::Floating,
        Command::Size { .. } => Manner::Floating,
        Command::Colour { .. } => Manner::Floating,
        Command::Break { .. } => Manner::Floating,
        Command::Space { .. } => Manner::Floating,
        Command::Draw { .. } => Manner::Anchored,
        Command::Gray { .. } => Manner::Anchored,
        Command::Fill { .. } => Manner::Anchored,
        Command::Device { .. } => Manner::Floating,
        Command::Resolution { .. } => Manner::Floating,
        Command::Init { .. } => Manner::Floating,
        Command::File { .. } => Manner::Floating,
        Command::Mount { .. } => Manner::Floating,
        Command::Plain { .. } => Manner::Floating,
        Command::Raw { .. } => Manner::Anchored,
        Command::Stop { .. } => Manner::Anchored,
    }
}
