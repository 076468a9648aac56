// Controls in the house spelling (document 01, "House spelling", "Controls"): `x` and its letter, with names and texts written from
// where they stand in the stream.
#![tactic(auto)]

ghost use Rattle.std.specs.Prelude.{◌≡◌, [], ◌∷◌, ◌++◌, ◌<◌, length};
ghost use Rattle.std.specs.Prelude.{if◌then◌else◌};
ghost use Rattle.rules.specs.Bytes.{is};
ghost use Rattle.scan_letters.specs.Selected.{control_of};
ghost use Rattle.respell_bytes.specs.Puts.{Puts};
ghost use Rattle.respell_model.specs.Lines.{plain_arg, name_arg, args_from, control_count, behind_word, text_at, raw_arg, line_of};
ghost use Rattle.respell_control.specs.Control.{Control};

use respell_bytes::Sheet;
use scan_command::Command;

// How many integers alone stand behind the word of a control.
fn control_count(letter: u8) -> usize
    ensures { result ≡ control_count (control_of letter) }
{
    match scan_letters::control_of(letter) {
        scan_letters::Control::Resolution => 3,
        scan_letters::Control::Number { .. } => 1,
        _ => 0,
    }
}

// Behind the word of a control that begins at a place.
fn behind_word(s: &[u8], at: usize) -> usize
    requires { at < length s.now }
    ensures { result ≡ behind_word s.now at }
{
    scan_lex::string_end(s, scan_lex::spacer_end(s, at + 1))
}

// The text of an `x X` that stands from p to e, looked up as a name is, with a space before its first line where that is not empty.
#[tactic(auto, using(respell_model::proofs::Sheets::one_by_one))]
fn put_raw(sheet: &mut Sheet, s: &[u8], p: usize, e: usize)
    ensures { Puts (raw_arg s.now p e) sheet.old sheet.new }
{
    if p < e {
        put_first(sheet, scan_lex::byte_at(s, p));
        sheet.put_all(name::name_at(s, p, e - p));
    }
}

// A space before a line that begins with b, none before an empty one.
#[tactic(auto, using(respell_model::proofs::Sheets::one_by_one))]
fn put_first(sheet: &mut Sheet, b: u8)
    ensures { Puts (if is "\n" b then [] else 32 ∷ []) sheet.old sheet.new }
{
    if b != b'\n' {
        sheet.put(b' ');
    }
}

// `x` and a letter.
#[tactic(auto, using(respell_model::proofs::Sheets::one_by_one))]
fn put_control_letter(sheet: &mut Sheet, letter: u8)
    ensures { Puts (120 ∷ 32 ∷ letter ∷ []) sheet.old sheet.new }
{
    sheet.put_all(&[b'x', b' ', letter]);
}

// `x T`, `x F`
#[tactic(auto, using(respell_model::proofs::Sheets::one_by_one))]
fn put_named(sheet: &mut Sheet, letter: u8, s: &[u8], place: usize, len: usize)
    ensures { Puts (120 ∷ 32 ∷ letter ∷ name_arg s.now place len) sheet.old sheet.new }
{
    put_control_letter(sheet, letter);
    respell_arguments::put_name_arg(sheet, s, place, len);
}

// `x f`
#[tactic(auto, using(respell_model::proofs::Sheets::one_by_one))]
fn put_mount(sheet: &mut Sheet, position: u32, s: &[u8], place: usize, len: usize)
    ensures { Puts (120 ∷ 32 ∷ 102 ∷ (plain_arg position ++ name_arg s.now place len)) sheet.old sheet.new }
{
    put_control_letter(sheet, b'f');
    respell_arguments::put_plain_arg(sheet, position);
    respell_arguments::put_name_arg(sheet, s, place, len);
}

// An `x` with the integers of its letter.
#[tactic(auto, using(respell_model::proofs::Sheets::one_by_one))]
fn put_numbered(sheet: &mut Sheet, letter: u8, s: &[u8], place: usize)
    requires { place < length s.now }
    ensures { Puts (120 ∷ 32 ∷ letter ∷ args_from (control_count (control_of letter)) s.now (behind_word s.now place)) sheet.old sheet.new }
{
    put_control_letter(sheet, letter);
    let from = behind_word(s, place);
    let n = control_count(letter);
    respell_arguments::put_args(sheet, s, from, n);
}

// `x X`, up to end
#[tactic(auto, using(respell_model::proofs::Sheets::one_by_one))]
fn put_text(sheet: &mut Sheet, s: &[u8], place: usize, end: usize)
    requires { place < length s.now }
    ensures { Puts (120 ∷ 32 ∷ 88 ∷ raw_arg s.now (text_at s.now place) end) sheet.old sheet.new }
{
    put_control_letter(sheet, b'X');
    let p = scan_lex::spacer_end(s, behind_word(s, place));
    put_raw(sheet, s, p, end);
}

// The line of a control at a place of the stream, its newline aside. No other command comes here: the last arm is there for the match alone.
#[tactic(auto, using(respell_model::proofs::Sheets::one_by_one))]
pub fn put_control(sheet: &mut Sheet, s: &[u8], place: usize, c: Command)
    requires { (place < length s.now) × Control c }
    ensures { Puts (line_of s.now place c) sheet.old sheet.new }
{
    match c {
        Command::Device { place: p, len, .. } => put_named(sheet, b'T', s, p, len),
        Command::Resolution { .. } => put_numbered(sheet, b'r', s, place),
        Command::Init { .. } => put_control_letter(sheet, b'i'),
        Command::File { place: p, len, .. } => put_named(sheet, b'F', s, p, len),
        Command::Mount {
            position,
            place: p,
            len,
            ..
        } => put_mount(sheet, position, s, p, len),
        Command::Plain { letter, .. } => {
            let b = scan_letters::byte_of(letter);
            put_numbered(sheet, b, s, place)
        }
        Command::Raw { next } => put_text(sheet, s, place, next),
        Command::Stop { .. } => put_control_letter(sheet, b's'),
        _ => {}
    }
}
