// A glyph's command: its record at the environment's place (document 01, "Commands of one letter"; refusals 7, 8 and 10).
#![tactic(auto)]

ghost use Rattle.std.specs.Prelude.{◌≡◌, ◌+◌, ◌≤◌};
ghost use Rattle.read_model.specs.Environment.{record_here, record_on, glyph_on, on_page_or, index_on, pair_on};
ghost use Rattle.read_environment.specs.Bounds.{Fits};

use read_environment::{doing, gone, lack, placed, shown};
use read_model::{Did, Emitted, Environment};
use rules::{Record, Refusal};

// The record of a glyph where the environment stands.
fn record_here(e: Environment, place: u32, len: u32, index: u32) -> Record
    requires { Fits e }
    ensures { result ≡ record_here e place len index }
{
    Record {
        ordinal: e.ordinal,
        page: shown(e.number),
        h: shown(e.h),
        v: shown(e.v),
        font: e.font.saturating_sub(1),
        size: e.size,
        place,
        len,
        index,
        gap: e.gap,
    }
}

// A record, and no gap behind it.
fn record_on(e: Environment, place: u32, len: u32, index: u32) -> Result<Did, Refusal>
    requires { Fits e }
    ensures { result ≡ record_on e place len index }
{
    let x = record_here(e, place, len, index);
    doing(Environment { gap: 0, ..e }, Emitted::Record(x))
}

// `c`, `C`
pub fn glyph_on(e: Environment, at: usize, place: usize, len: usize) -> Result<Did, Refusal>
    requires { Fits e × (place + len ≤ 16777216) }
    ensures { result ≡ on_page_or e at (glyph_on e at place len) }
{
    lack(e, at)?;
    record_on(e, place as u32, len as u32, 0)
}

// `N`: a number below 0 is a space.
pub fn index_on(e: Environment, at: usize, n: u32) -> Result<Did, Refusal>
    requires { Fits e }
    ensures { result ≡ on_page_or e at (index_on e at n) }
{
    lack(e, at)?;
    if n < 100_000_000 {
        doing(Environment { gap: 1, ..e }, Emitted::Nothing)
    } else {
        record_on(e, 0, 0, n - 100_000_000)
    }
}

// Two digits: h moves first.
pub fn pair_on(e: Environment, at: usize, n: u32, place: usize) -> Result<Did, Refusal>
    requires { Fits e × (place ≤ 16777216) }
    ensures { result ≡ on_page_or e at (pair_on e at n place) }
{
    lack(e, at)?;
    let h = placed(gone(100_000_000, (e.h as u64) + (n as u64)), at)?;
    record_on(Environment { h, ..e }, place as u32, 1, 0)
}
