// Pieces of lines that several of the programs print. Each is made in a lent line, and what does not fit is left out; or it is written.
#![tactic(auto)]

ghost use Rattle.std.specs.Prelude.{◌≡◌, ◌+◌, ◌≤◌, ◌&&◌, length, set, OnOk, ltb, if◌then◌else◌};
ghost use Rattle.std.specs.Io.KnownBytes.{Appends};
ghost use Rattle.small_text.specs.Letter.{is_letter, letter_of};

use arrayvec::ArrayString;
use rules::Refusal;
use std::fmt::Write as _;
use std::io;
use std::io::Write;

// As long as the longest line about a refusal, whose numbers have 10 and 20 digits at most.
const REFUSAL: usize = 40;

// `refused NUMBER OFFSET` at the start of the line; the place behind it.
pub fn put_refusal(line: &mut [u8], number: u32, offset: usize) -> usize
    ensures { result ≤ length line.new }
{
    let mut refused = ArrayString::<REFUSAL>::new();
    let _ = writeln!(refused, "refused {number} {offset}");
    let text = refused.as_str().as_bytes();
    let n = text.len().min(line.len());
    line[..n].copy_from_slice(&text[..n]);
    n
}

// The same, written.
pub fn write_refusal(out: &mut impl Write, refusal: Refusal) -> io::Result<()> {
    let mut line = [0; REFUSAL];
    let n = put_refusal(&mut line, refusal.number, refusal.offset);
    out.write_all(&line[..n])
}

// A letter by its byte at a place of the line, and the place behind it; 0 is none, and so is what is no byte.
pub fn put_letter(line: &mut [u8], at: usize, byte: u32) -> usize
    ensures place { result ≡ (if is_letter byte && ltb at (length line.old) then at + 1 else at) }
    ensures line { line.new ≡ (if is_letter byte && ltb at (length line.old) then set line.old at byte else line.old) }
{
    match u8::try_from(byte) {
        Ok(letter) if 0 < letter && at < line.len() => {
            line[at] = letter;
            at + 1
        }
        _ => at,
    }
}

// The same, written.
pub fn write_letter<W: Write>(out: &mut W, byte: u32) -> io::Result<()>
    ensures { OnOk result (Appends (W.contents out.old) (W.contents out.new) (letter_of byte)) }
{
    let mut line = [0];
    let n = put_letter(&mut line, 0, byte);
    out.write_all(&line[..n])
}
