// Colours: the commands `m` and `DF`, a scheme's letter and its components (document 01, "Commands of one letter", "Drawing"). Refusals at
// one command are found in the order 3, 4, 5, 6.
#![tactic(auto)]

ghost use Rattle.std.specs.Prelude.{◌≡◌, ◌<◌, length};
ghost use Rattle.scan_command.specs.View.{letter_at};
ghost use Rattle.scan_colours.specs.Parts.{count_of, part_at, components_at, part_of, parts_of, fill_set};

use rules::Refusal;
use scan_arguments::{Argument, due_at};
use scan_command::Command;
use scan_letters::Parts;

// A scheme's letter, its components, and the place behind the last one. A component that the scheme has not is 0.
#[derive(Clone, Copy)]
struct Components {
    scheme: u8,
    parts: [Argument; 4],
    next: usize,
}

// How many components the scheme of a letter has.
fn count_of(scheme: u8) -> Option<usize>
    ensures { result ≡ count_of scheme }
{
    match scan_letters::parts_of(scheme) {
        Parts::Zero => Some(0),
        Parts::One => Some(1),
        Parts::Three => Some(3),
        Parts::Four => Some(4),
        Parts::Unknown => None,
    }
}

// The component at i, where one is due there.
fn part_at(s: &[u8], at: usize, i: usize, due: bool) -> Result<Argument, Refusal>
    ensures { result ≡ part_at at s.now i due }
{
    if due {
        due_at(s, at, i)
    } else {
        Ok(Argument {
            number: 100_000_000,
            place: i,
            next: i,
        })
    }
}

// The scheme's letter is due at i.
fn components_at(s: &[u8], at: usize, i: usize) -> Result<Components, Refusal>
    ensures { result ≡ components_at at s.now i }
{
    let unknown = Refusal {
        number: 3,
        offset: at,
    };
    let scheme = *s.get(i).ok_or(unknown)?;
    let count = count_of(scheme).ok_or(unknown)?;
    let a = part_at(s, at, i + 1, 0 < count)?;
    let b = part_at(s, at, a.next, 1 < count)?;
    let c = part_at(s, at, b.next, 2 < count)?;
    let d = part_at(s, at, c.next, 3 < count)?;
    Ok(Components {
        scheme,
        parts: [a, b, c, d],
        next: d.next,
    })
}

// A component, within its limit.
fn part_of(a: Argument) -> Result<u32, Refusal>
    ensures { result ≡ part_of a }
{
    a.within(100_000_000, 100_065_536)?;
    Ok(scan_integer::unmoved(a.number))
}

// Four components, each within its limit.
fn parts_of(all: [Argument; 4]) -> Result<[u32; 4], Refusal>
    ensures { result ≡ parts_of all }
{
    let [a, b, c, d] = all;
    Ok([part_of(a)?, part_of(b)?, part_of(c)?, part_of(d)?])
}

// The command `m` at a place.
#[tactic(auto, using(crate::proofs::Colours::colour_is))]
pub fn colour(s: &[u8], at: usize) -> Result<Command, Refusal>
    requires { at < length s.now }
    ensures { result ≡ letter_at 109 s.now at }
{
    let all = components_at(s, at, scan_lex::spacer_end(s, at + 1))?;
    let [a, b, c, d] = parts_of(all.parts)?;
    Ok(Command::Colour {
        scheme: all.scheme as u32,
        a,
        b,
        c,
        d,
        next: all.next,
    })
}

// The command `DF` at a place, its scheme's letter due at i.
#[tactic(auto, unfolding(crate::specs::Parts::fill_set))]
pub fn fill(s: &[u8], at: usize, i: usize) -> Result<Command, Refusal>
    ensures { result ≡ fill_set s.now at i }
{
    let all = components_at(s, at, i)?;
    scan_close::ending(s, at, all.next)?;
    let [a, b, c, d] = parts_of(all.parts)?;
    Ok(Command::Fill {
        scheme: all.scheme as u32,
        a,
        b,
        c,
        d,
        next: all.next,
    })
}
