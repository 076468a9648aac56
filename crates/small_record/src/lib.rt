// The lines of a record, of an entry and of the end of a stream, each in the order of its fields.
#![tactic(auto)]

use arrayvec::ArrayString;
use name::name_of;
use rules::{Colour, Entry, Reading, Record, Refusal};
use small_text::{write_letter, write_refusal};
use std::fmt::Write as _;
use std::io;
use std::io::Write;

// Longer than what a line has of numbers, ten of at most 11 bytes: they are put together before they are written, since a piece that is
// written by itself costs an `io::Result` of its own.
const NUMBERS: usize = 128;

// What is printed as a line, read of the stream s. No `Display`, since a name is bytes of the stream, which may be no text.
pub trait Line {
    fn put(&self, out: &mut impl Write, s: &[u8]) -> io::Result<()>;
}

// `glyph ORDINAL PAGE H V FONT SIZE GAP INDEX PLACE LENGTH NAME`
impl Line for Record {
    fn put(&self, out: &mut impl Write, s: &[u8]) -> io::Result<()> {
        let Record {
            ordinal,
            page,
            h,
            v,
            font,
            size,
            place,
            len,
            index,
            gap,
        } = *self;
        let mut line = ArrayString::<NUMBERS>::new();
        let _ = write!(
            line,
            "glyph {ordinal} {page} {h} {v} {font} {size} {gap} {index} {place} {len} "
        );
        out.write_all(line.as_str().as_bytes())?;
        out.write_all(name_of(s, *self))?;
        out.write_all(b"\n")
    }
}

// `entry LETTERS ORDINAL PLACE LENGTH H V`: nothing of the stream itself.
impl Line for Entry {
    fn put(&self, out: &mut impl Write, _s: &[u8]) -> io::Result<()> {
        let Entry {
            command,
            letter,
            scheme,
            ordinal,
            place,
            len,
            h,
            v,
        } = *self;
        out.write_all(b"entry ")?;
        for byte in [command, letter, scheme] {
            write_letter(out, byte)?;
        }
        let mut line = ArrayString::<NUMBERS>::new();
        let _ = writeln!(line, " {ordinal} {place} {len} {h} {v}");
        out.write_all(line.as_str().as_bytes())
    }
}

// `end RECORDS ENTRIES PAGES H V GSCHEME G1 G2 G3 G4 FSCHEME F1 F2 F3 F4`, or `refused NUMBER OFFSET`
pub fn last_line(out: &mut impl Write, answer: Result<Reading, Refusal>) -> io::Result<()> {
    match answer {
        Ok(reading) => put_end(out, reading),
        Err(refusal) => write_refusal(out, refusal),
    }
}

fn put_end(out: &mut impl Write, reading: Reading) -> io::Result<()> {
    let Reading {
        records,
        entries,
        pages,
        h,
        v,
        glyph,
        fill,
    } = reading;
    write!(out, "end {records} {entries} {pages} {h} {v}")?;
    put_colour(out, glyph)?;
    put_colour(out, fill)?;
    out.write_all(b"\n")
}

fn put_colour(out: &mut impl Write, colour: Colour) -> io::Result<()> {
    let [a, b, c, d] = colour.parts;
    out.write_all(b" ")?;
    write_letter(out, colour.scheme)?;
    write!(out, " {a} {b} {c} {d}")
}
