// Motions, pages and settings: commands that write no row (document 01, "Commands of one letter"; refusals 7, 8 and 10).
#![tactic(auto)]

ghost use Rattle.std.specs.Prelude.{◌≡◌, ◌<◌};
ghost use Rattle.read_model.specs.declared.Emitted.TheVariants as E;
ghost use Rattle.read_model.specs.Environment.{with_size, with_gap, with_ink, doing, on_page_or, in_body_or, along, with_along, to_on, by_on, page_on, font_on};
ghost use Rattle.read_environment.specs.Bounds.{Fits};

use read_environment::{asked, doing, gone, in_body, on_page, placed};
use read_model::{Did, Emitted, Environment};
use rules::{Colour, Refusal};
use scan_command::Axis;

// Where the environment stands along an axis.
fn along(e: Environment, axis: Axis) -> u32
    ensures { result ≡ along e axis }
{
    match axis {
        Axis::Across => e.h,
        Axis::Down => e.v,
    }
}

fn with_along(e: Environment, axis: Axis, n: u32) -> Environment
    ensures { result ≡ with_along e axis n }
{
    match axis {
        Axis::Across => Environment { h: n, ..e },
        Axis::Down => Environment { v: n, ..e },
    }
}

// `H`, `V`
pub fn to_on(e: Environment, at: usize, axis: Axis, n: u32) -> Result<Did, Refusal>
    ensures { result ≡ on_page_or e at (to_on e axis n) }
{
    on_page(e, at)?;
    doing(with_along(e, axis, n), Emitted::Nothing)
}

// `h`, `v`
pub fn by_on(e: Environment, at: usize, axis: Axis, n: u32) -> Result<Did, Refusal>
    ensures { result ≡ on_page_or e at (by_on e at axis n) }
{
    on_page(e, at)?;
    let x = placed(gone(100_000_000, (along(e, axis) as u64) + (n as u64)), at)?;
    doing(with_along(e, axis, x), Emitted::Nothing)
}

// `p`: v goes back to its origin, and a gap stands before the first record.
pub fn page_on(e: Environment, at: usize, n: u32) -> Result<Did, Refusal>
    requires { Fits e }
    ensures { result ≡ in_body_or e at (page_on e n) }
{
    in_body(e, at)?;
    let next = Environment {
        ordinal: e.ordinal + 1,
        number: n,
        v: 100_000_000,
        gap: 1,
        ..e
    };
    doing(next, Emitted::Nothing)
}

// `f`: m is what the mounts hold at the position, 0 for none.
pub fn font_on(e: Environment, at: usize, n: u32, m: u32) -> Result<Did, Refusal>
    requires { n < 256 }
    ensures { result ≡ in_body_or e at (font_on e at n m) }
{
    in_body(e, at)?;
    asked(0 < m, 8, at)?;
    doing(Environment { font: n + 1, ..e }, Emitted::Nothing)
}

// `s`
pub fn size_on(e: Environment, at: usize, n: u32) -> Result<Did, Refusal>
    ensures { result ≡ in_body_or e at (doing (with_size e n) E.Nothing) }
{
    in_body(e, at)?;
    doing(Environment { size: n, ..e }, Emitted::Nothing)
}

// `m`
pub fn ink_on(e: Environment, at: usize, ink: Colour) -> Result<Did, Refusal>
    ensures { result ≡ in_body_or e at (doing (with_ink e ink) E.Nothing) }
{
    in_body(e, at)?;
    doing(Environment { ink, ..e }, Emitted::Nothing)
}

// `n`, `w`
pub fn gap_on(e: Environment, at: usize) -> Result<Did, Refusal>
    ensures { result ≡ in_body_or e at (doing (with_gap e 1) E.Nothing) }
{
    in_body(e, at)?;
    doing(Environment { gap: 1, ..e }, Emitted::Nothing)
}
