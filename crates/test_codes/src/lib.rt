// An answer as numbers, for tests from Rust, and what was scanned.
#![tactic(auto)]

ghost use Rattle.std.specs.Prelude.{◌≡◌, ◌<◌};
ghost use Rattle.test_codes.specs.Codes.{code, axis_number, code_of, scanned_code};

use rules::Refusal;
use scan_command::{Axis, Command};

// Which case it is, counted from 1, and its values in their order (`specs/Codes.antt`). Seven named fields and no array: the C interface
// to `leaves/` has the same struct.
#[repr(C)]
#[derive(Clone, Copy)]
pub struct Code {
    pub tag: u64,
    pub a: u64,
    pub b: u64,
    pub c: u64,
    pub d: u64,
    pub e: u64,
    pub f: u64,
}

pub fn coded(tag: u64, a: u64, b: u64, c: u64, d: u64, e: u64, f: u64) -> Code
    ensures { result ≡ code tag a b c d e f }
{
    Code {
        tag,
        a,
        b,
        c,
        d,
        e,
        f,
    }
}

// A command without numbers.
fn bare(tag: u64, next: usize) -> Code
    ensures { result ≡ code tag 0 0 0 0 0 next }
{
    coded(tag, 0, 0, 0, 0, 0, next as u64)
}

// A command with one number.
fn one(tag: u64, a: u32, next: usize) -> Code
    ensures { result ≡ code tag a 0 0 0 0 next }
{
    coded(tag, a as u64, 0, 0, 0, 0, next as u64)
}

fn axis_number(axis: Axis) -> u64
    ensures { result ≡ axis_number axis }
{
    match axis {
        Axis::Across => 0,
        Axis::Down => 1,
    }
}

// A command with a direction and a number.
fn moving(tag: u64, axis: Axis, a: u32, next: usize) -> Code
    ensures { result ≡ code tag (axis_number axis) a 0 0 0 next }
{
    coded(tag, axis_number(axis), a as u64, 0, 0, 0, next as u64)
}

// A command with a name.
fn named(tag: u64, place: usize, len: usize, next: usize) -> Code
    ensures { result ≡ code tag place len 0 0 0 next }
{
    coded(tag, place as u64, len as u64, 0, 0, 0, next as u64)
}

// A command with a number and a part of the stream.
fn numbered(tag: u64, n: u32, p: usize, q: usize, next: usize) -> Code
    ensures { result ≡ code tag n p q 0 0 next }
{
    coded(tag, n as u64, p as u64, q as u64, 0, 0, next as u64)
}

// A command with a colour.
fn coloured(tag: u64, s: u32, a: u32, b: u32, c: u32, d: u32, next: usize) -> Code
    ensures { result ≡ code tag s a b c d next }
{
    coded(
        tag,
        s as u64,
        a as u64,
        b as u64,
        c as u64,
        d as u64,
        next as u64,
    )
}

// What was scanned as numbers: a command, or else the number of its refusal and the place that it points at.
pub fn scanned_code(scanned: Result<Command, Refusal>) -> Code
    ensures { result ≡ scanned_code scanned }
{
    match scanned {
        Ok(q) => command_code(q),
        Err(r) => numbered(24, r.number, r.offset, 0, 0),
    }
}

// A command as numbers.
fn command_code(q: Command) -> Code
    ensures { result ≡ code_of q }
{
    match q {
        Command::Glyph { place, len, next } => named(1, place, len, next),
        Command::Index { number, next } => one(2, number, next),
        Command::Word {
            track,
            place,
            end,
            next,
        } => numbered(3, track, place, end, next),
        Command::Pair {
            number,
            place,
            next,
        } => numbered(4, number, place, 0, next),
        Command::To { axis, number, next } => moving(5, axis, number, next),
        Command::By { axis, number, next } => moving(6, axis, number, next),
        Command::Page { number, next } => one(7, number, next),
        Command::Font { position, next } => one(8, position, next),
        Command::Size { size, next } => one(9, size, next),
        Command::Colour {
            scheme,
            a,
            b,
            c,
            d,
            next,
        } => coloured(10, scheme, a, b, c, d, next),
        Command::Break { next } => bare(11, next),
        Command::Space { next } => bare(12, next),
        _ => drawing_code(q),
    }
}

// The same of a drawing command, or of one of `control_code`.
fn drawing_code(q: Command) -> Code
    requires { 12 < (code_of q).tag }
    ensures { result ≡ code_of q }
{
    match q {
        Command::Draw {
            letter,
            dh,
            dv,
            terms,
            next,
        } => coded(13, letter as u64, dh, dv, terms, 0, next as u64),
        Command::Gray { number, next } => one(14, number, next),
        Command::Fill {
            scheme,
            a,
            b,
            c,
            d,
            next,
        } => coloured(15, scheme, a, b, c, d, next),
        _ => control_code(q),
    }
}

// The same of a device control.
fn control_code(q: Command) -> Code
    requires { 15 < (code_of q).tag }
    ensures { result ≡ code_of q }
{
    match q {
        Command::Device { place, len, next } => named(16, place, len, next),
        Command::Resolution { quantum, next } => one(17, quantum, next),
        Command::Init { next } => bare(18, next),
        Command::File { place, len, next } => named(19, place, len, next),
        Command::Mount {
            position,
            place,
            len,
            next,
        } => numbered(20, position, place, len, next),
        Command::Plain { letter, next } => one(21, letter, next),
        Command::Raw { next } => bare(22, next),
        Command::Stop { next } => bare(23, next),
        _ => unreachable!(),
    }
}
