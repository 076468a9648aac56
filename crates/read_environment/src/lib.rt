// What every command's effect rests on: what it asks of the environment, and numbers. The definitions stand in read_model's specs/.
#![tactic(auto)]

ghost use Rattle.std.specs.Prelude.{◌≡◌, ◌*◌, ◌≤◌, ◌<◌, get_or};
ghost use Rattle.rules.specs.Bytes.{origin};
ghost use Rattle.rules.specs.Record.{shown};
ghost use Rattle.rules.specs.Answers.{asked};
ghost use Rattle.read_model.specs.Environment.{doing, in_body, on_page, gone, placed_or, colour_here};
ghost use Rattle.read_environment.specs.Parts.{lack_of};

use read_model::{Did, Emitted, Environment};
use rules::{Colour, Refusal};

pub fn colour_here(scheme: u32, a: u32, b: u32, c: u32, d: u32) -> Colour
    ensures { result ≡ colour_here scheme a b c d }
{
    Colour {
        scheme,
        parts: [a, b, c, d],
    }
}

// ---- what was done

// What a test asks for, or this refusal.
pub fn asked(test: bool, number: u32, at: usize) -> Result<(), Refusal>
    ensures { result ≡ asked test number at }
{
    if test {
        Ok(())
    } else {
        Err(Refusal { number, offset: at })
    }
}

pub fn doing(e: Environment, x: Emitted) -> Result<Did, Refusal>
    ensures { result ≡ doing e x }
{
    Ok(Did { env: e, emitted: x })
}

// The command at a place stands in the body, or it is refused with 7.
pub fn in_body(e: Environment, at: usize) -> Result<(), Refusal>
    ensures { result ≡ asked (in_body e) 7 at }
{
    asked(e.phase == 3, 7, at)
}

// It stands on a page, or 7.
pub fn on_page(e: Environment, at: usize) -> Result<(), Refusal>
    ensures { result ≡ asked (on_page e) 7 at }
{
    asked((e.phase == 3) & (0 < e.ordinal), 7, at)
}

// A glyph's command: 7 off a page, then 8 with no font or size.
pub fn lack(e: Environment, at: usize) -> Result<(), Refusal>
    ensures { result ≡ lack_of e at }
{
    on_page(e, at)?;
    asked((0 < e.font) & (0 < e.size), 8, at)
}

// ---- numbers

// The integer that a number moved up stands for.
pub fn shown(n: u32) -> i32
    requires { n < 2 * origin }
    ensures { result ≡ shown n }
{
    (n as i32) - 100_000_000
}

// How far a sum lies behind base: a position moved up, where it is within the limit.
pub fn gone(base: u64, sum: u64) -> Option<u32>
    requires { base ≤ 6400000000 }
    ensures { result ≡ gone base sum }
{
    if (base < sum) & (sum < base + 200_000_000) {
        Some((sum - base) as u32)
    } else {
        None
    }
}

// A position, or refusal 10 of the command at a place.
pub fn placed(h: Option<u32>, at: usize) -> Result<u32, Refusal>
    ensures { result ≡ placed_or h at }
{
    h.ok_or(Refusal {
        number: 10,
        offset: at,
    })
}

// What a row of numbers holds at a place, 0 behind its end. (`get` with `unwrap_or` says it no plainer.)
pub fn value_at(ws: &[u32], i: usize) -> u32
    ensures { result ≡ get_or ws.now i 0 }
{
    if i < ws.len() { ws[i] } else { 0 }
}
