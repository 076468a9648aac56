// A drawing's command: its entry, and where it leaves the environment (document 01, "Drawing"; refusals 7 and 10).
#![tactic(auto)]

ghost use Rattle.std.specs.Prelude.{◌≡◌, ◌*◌, ◌≤◌};
ghost use Rattle.rules.specs.Bytes.{origin};
ghost use Rattle.read_model.specs.Environment.{drawing_here, on_page_or, draw_on, gray_colour, gray_on, fill_on};
ghost use Rattle.read_model.specs.Fits.{CommandIn};
ghost use Rattle.read_environment.specs.Bounds.{Fits, Spans};
ghost use Rattle.read_drawing.specs.Drawn.{drawn_at};

use read_environment::{colour_here, doing, gone, on_page, placed, shown};
use read_model::{Did, Emitted, Environment};
use rules::{Colour, Entry, Refusal};
use scan_command::Command;

// The entry of a drawing from at to end, where the environment stands.
fn drawing_here(e: Environment, letter: u32, scheme: u32, at: usize, end: usize) -> Entry
    requires { Fits e × Spans at end }
    ensures { result ≡ drawing_here e letter scheme at end }
{
    Entry {
        command: 68,
        letter,
        scheme,
        ordinal: e.ordinal,
        place: at as u32,
        len: (end - at) as u32,
        h: shown(e.h),
        v: shown(e.v),
    }
}

// The numbers are sums of so many terms, all moved up.
fn draw_on(
    e: Environment,
    letter: u32,
    dh: u64,
    dv: u64,
    terms: u64,
    at: usize,
    end: usize,
) -> Result<Did, Refusal>
    requires fits { Fits e × Spans at end }
    requires dh_bound { (dh ≤ terms * (2 * origin)) × (dv ≤ terms * (2 * origin)) × (terms ≤ 64) }
    ensures { result ≡ on_page_or e at (draw_on e letter dh dv terms at end) }
{
    on_page(e, at)?;
    let base = terms * 100_000_000;
    let h = placed(gone(base, (e.h as u64) + dh), at)?;
    let v = placed(gone(base, (e.v as u64) + dv), at)?;
    let x = drawing_here(e, letter, 0, at, end);
    doing(Environment { h, v, ..e }, Emitted::Entry(x))
}

// The colour of `Df`: 0 to 1000 is white to black, any other number is the glyph colour.
fn gray_colour(ink: Colour, n: u32) -> Colour
    ensures { result ≡ gray_colour ink n }
{
    if n < 100_000_000 {
        return ink;
    }
    if 100_001_000 < n {
        return ink;
    }
    let part = ((1000 - (n - 100_000_000)) * 65536) / 1000;
    colour_here(103, part, 0, 0, 0)
}

// `Df`
fn gray_on(e: Environment, n: u32, at: usize, end: usize) -> Result<Did, Refusal>
    requires { Fits e × Spans at end }
    ensures { result ≡ on_page_or e at (gray_on e n at end) }
{
    on_page(e, at)?;
    let ink = e.ink;
    let gray = gray_colour(ink, n);
    let x = drawing_here(e, 102, 0, at, end);
    doing(Environment { paint: gray, ..e }, Emitted::Entry(x))
}

// `DF`
fn fill_on(
    e: Environment,
    scheme: u32,
    paint: Colour,
    at: usize,
    end: usize,
) -> Result<Did, Refusal>
    requires { Fits e × Spans at end }
    ensures { result ≡ on_page_or e at (fill_on e scheme paint at end) }
{
    on_page(e, at)?;
    let x = drawing_here(e, 70, scheme, at, end);
    doing(Environment { paint, ..e }, Emitted::Entry(x))
}

// A drawing that begins at a place. No other command comes here: the last arm is there for the match alone.
pub fn drawn_on(e: Environment, at: usize, c: Command) -> Result<Did, Refusal>
    requires { Fits e × CommandIn at 16777216 c }
    ensures { result ≡ drawn_at e at c }
{
    match c {
        Command::Draw {
            letter,
            dh,
            dv,
            terms,
            next,
        } => draw_on(e, letter, dh, dv, terms, at, next),
        Command::Gray { number, next } => gray_on(e, number, at, next),
        Command::Fill {
            scheme,
            a,
            b,
            c,
            d,
            next,
        } => fill_on(e, scheme, colour_here(scheme, a, b, c, d), at, next),
        _ => Err(Refusal {
            number: 7,
            offset: at,
        }),
    }
}
