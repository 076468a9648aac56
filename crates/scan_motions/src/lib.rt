// The commands of one letter that move and set: positions, page, font, size, line break, space (document 01, "Commands of one
// letter"). Each function has the place of the letter, and answers the command or its refusal: 4 at that place, 6 at the first argument
// outside its limit.
#![tactic(auto)]

ghost use Rattle.std.specs.Prelude.{◌≡◌, ◌<◌, length};
ghost use Rattle.scan_command.specs.View.{letter_at};
ghost use Rattle.scan_motions.specs.Letters.{to_letter, by_letter};

use rules::Refusal;
use scan_arguments::Argument;
use scan_command::{Axis, Command};

// `H`, `V`
#[tactic(auto, using(crate::proofs::Steps::to_is))]
pub fn to(s: &[u8], at: usize, axis: Axis) -> Result<Command, Refusal>
    requires { at < length s.now }
    ensures { result ≡ letter_at (to_letter axis) s.now at }
{
    let Argument { number, next, .. } = scan_close::near_at(s, at)?;
    Ok(Command::To { axis, number, next })
}

// `h`, `v`
#[tactic(auto, using(crate::proofs::Steps::by_is))]
pub fn by(s: &[u8], at: usize, axis: Axis) -> Result<Command, Refusal>
    requires { at < length s.now }
    ensures { result ≡ letter_at (by_letter axis) s.now at }
{
    let Argument { number, next, .. } = scan_close::near_at(s, at)?;
    Ok(Command::By { axis, number, next })
}

// `p`
#[tactic(auto, using(crate::proofs::Steps::page_is))]
pub fn page(s: &[u8], at: usize) -> Result<Command, Refusal>
    requires { at < length s.now }
    ensures { result ≡ letter_at 112 s.now at }
{
    let Argument { number, next, .. } = scan_close::near_at(s, at)?;
    Ok(Command::Page { number, next })
}

// `f`: a position from 0 to 255
#[tactic(auto, using(crate::proofs::Steps::font_is))]
pub fn font(s: &[u8], at: usize) -> Result<Command, Refusal>
    requires { at < length s.now }
    ensures { result ≡ letter_at 102 s.now at }
{
    let Argument { number, next, .. } = scan_close::argument_at(s, at, 100_000_000, 100_000_255)?;
    let position = scan_integer::unmoved(number);
    Ok(Command::Font { position, next })
}

// `s`: a size of at least 1
#[tactic(auto, using(crate::proofs::Steps::size_is))]
pub fn size(s: &[u8], at: usize) -> Result<Command, Refusal>
    requires { at < length s.now }
    ensures { result ≡ letter_at 115 s.now at }
{
    let Argument { number, next, .. } = scan_close::argument_at(s, at, 100_000_001, 199_999_999)?;
    let size = scan_integer::unmoved(number);
    Ok(Command::Size { size, next })
}

// `n`: two integers that are ignored
#[tactic(auto, using(crate::proofs::Steps::break_is))]
pub fn line_break(s: &[u8], at: usize) -> Result<Command, Refusal>
    requires { at < length s.now }
    ensures { result ≡ letter_at 110 s.now at }
{
    let a = scan_arguments::due_at(s, at, at + 1)?;
    let b = scan_arguments::due_at(s, at, a.next)?;
    a.near()?;
    b.near()?;
    Ok(Command::Break { next: b.next })
}

// `w`
#[tactic(auto, using(crate::proofs::Steps::space_is))]
pub fn space(s: &[u8], at: usize) -> Result<Command, Refusal>
    requires { at < length s.now }
    ensures { result ≡ letter_at 119 s.now at }
{
    Ok(Command::Space { next: at + 1 })
}
