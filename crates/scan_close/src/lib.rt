// What closes a command: what is due stands there, an argument is within its limit, the line breaks behind the last one (document 01,
// "Refusals": 4 to 6), and no byte of its name is barred (2026-06: 16).
#![tactic(auto)]

ghost use Rattle.std.specs.Prelude.{◌≡◌, ◌<◌, length};
ghost use Rattle.scan_close.specs.Closed.{due_or, within_or, clear_or, ended_at, argument_at};

use rules::Refusal;
use scan_arguments::Argument;

// What is due of the command at a place stands there.
pub fn due(there: bool, at: usize) -> Result<(), Refusal>
    ensures { result ≡ due_or there at }
{
    if there {
        Ok(())
    } else {
        Err(Refusal {
            number: 4,
            offset: at,
        })
    }
}

// What begins at a place is within its limit.
pub fn within(inside: bool, place: usize) -> Result<(), Refusal>
    ensures { result ≡ within_or inside place }
{
    if inside {
        Ok(())
    } else {
        Err(Refusal {
            number: 6,
            offset: place,
        })
    }
}

// No byte of the name of the command at a place is barred.
pub fn cleared(clear: bool, at: usize) -> Result<(), Refusal>
    ensures { result ≡ clear_or clear at }
{
    if clear {
        Ok(())
    } else {
        Err(Refusal {
            number: 16,
            offset: at,
        })
    }
}

// The line breaks behind the last argument of the command at a place.
pub fn ending(s: &[u8], at: usize, next: usize) -> Result<(), Refusal>
    ensures { result ≡ ended_at s.now at next }
{
    if scan_lex::breaks(s, next) {
        Ok(())
    } else {
        Err(Refusal {
            number: 5,
            offset: at,
        })
    }
}

// The one integer behind the letter at a place, from lo to hi.
pub fn argument_at(s: &[u8], at: usize, lo: u32, hi: u32) -> Result<Argument, Refusal>
    requires { at < length s.now }
    ensures { result ≡ argument_at lo hi s.now at }
{
    let argument = scan_arguments::due_at(s, at, at + 1)?;
    argument.within(lo, hi)?;
    Ok(argument)
}

// The same within the general limit.
pub fn near_at(s: &[u8], at: usize) -> Result<Argument, Refusal>
    requires { at < length s.now }
    ensures { result ≡ argument_at 1 199999999 s.now at }
{
    argument_at(s, at, 1, 199_999_999)
}
