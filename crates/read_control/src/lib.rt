// A control's command: its entry, and the phase that it leads to (document 01, "Controls"; refusal 7).
#![tactic(auto)]

ghost use Rattle.std.specs.Prelude.{◌≡◌};
ghost use Rattle.read_model.specs.declared.Emitted.TheVariants as E;
ghost use Rattle.read_model.specs.Environment.{doing, raw_here, control_here, in_body_or, control_on, onwards};
ghost use Rattle.read_model.specs.Fits.{CommandIn};
ghost use Rattle.read_environment.specs.Bounds.{Fits, Spans};
ghost use Rattle.read_control.specs.Controlled.{controlled_at};

use read_environment::{asked, doing, in_body, shown};
use read_model::{Did, Emitted, Environment};
use rules::{Entry, Refusal};
use scan_command::Command;

// The entry of a control from at to end: h and v are 0.
fn control_here(e: Environment, letter: u32, at: usize, end: usize) -> Entry
    requires { Spans at end }
    ensures { result ≡ control_here e letter at end }
{
    Entry {
        command: 120,
        letter,
        scheme: 0,
        ordinal: e.ordinal,
        place: at as u32,
        len: (end - at) as u32,
        h: 0,
        v: 0,
    }
}

// The entry of `x X`, where the environment stands.
fn raw_here(e: Environment, at: usize, end: usize) -> Entry
    requires { Fits e × Spans at end }
    ensures { result ≡ raw_here e at end }
{
    Entry {
        command: 120,
        letter: 88,
        scheme: 0,
        ordinal: e.ordinal,
        place: at as u32,
        len: (end - at) as u32,
        h: shown(e.h),
        v: shown(e.v),
    }
}

// `x T`, `x r`, `x i`, `x s`: from one phase to the next.
fn phase_on(
    e: Environment,
    from: u32,
    to: u32,
    quantum: u32,
    letter: u32,
    at: usize,
    end: usize,
) -> Result<Did, Refusal>
    requires { Spans at end }
    ensures { result ≡ onwards e from to quantum letter at end }
{
    asked(e.phase == from, 7, at)?;
    let x = control_here(e, letter, at, end);
    let next = Environment {
        phase: to,
        quantum,
        ..e
    };
    doing(next, Emitted::Entry(x))
}

// `x F`, `x f` and the plain ones
fn control_on(e: Environment, letter: u32, at: usize, end: usize) -> Result<Did, Refusal>
    requires { Spans at end }
    ensures { result ≡ in_body_or e at (control_on e letter at end) }
{
    in_body(e, at)?;
    let x = control_here(e, letter, at, end);
    doing(e, Emitted::Entry(x))
}

// `x X`
fn raw_on(e: Environment, at: usize, end: usize) -> Result<Did, Refusal>
    requires { Fits e × Spans at end }
    ensures { result ≡ in_body_or e at (doing e (E.Entry (raw_here e at end))) }
{
    in_body(e, at)?;
    let x = raw_here(e, at, end);
    doing(e, Emitted::Entry(x))
}

// A control that begins at a place. No other command comes here: the last arm is there for the match alone.
pub fn controlled_on(e: Environment, at: usize, c: Command) -> Result<Did, Refusal>
    requires { Fits e × CommandIn at 16777216 c }
    ensures { result ≡ controlled_at e at c }
{
    let q = e.quantum;
    match c {
        Command::Device { next, .. } => phase_on(e, 0, 1, q, 84, at, next),
        Command::Resolution { quantum, next } => phase_on(e, 1, 2, quantum, 114, at, next),
        Command::Init { next } => phase_on(e, 2, 3, q, 105, at, next),
        Command::File { next, .. } => control_on(e, 70, at, next),
        Command::Mount { next, .. } => control_on(e, 102, at, next),
        Command::Plain { letter, next } => control_on(e, letter, at, next),
        Command::Raw { next } => raw_on(e, at, next),
        Command::Stop { next } => phase_on(e, 3, 4, q, 115, at, next),
        _ => Err(Refusal {
            number: 7,
            offset: at,
        }),
    }
}
