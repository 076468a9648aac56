// The shapes of a drawing: the arguments of the command `D` by their number, but those of a colour (document 01, "Drawing"). Each function
// has the command's place, the place where its arguments are due, its letter, and the motion that the letter selects. A number that may
// be negative is handed on as itself + 100,000,000. Refusals at one command are found in the order 4, 5, 6.
#![tactic(auto)]

ghost use Rattle.std.specs.Prelude.{◌≡◌};
ghost use Rattle.scan_shapes.specs.Parts.{moved_by, one_drawn, dummied_drawn, two_drawn, four_drawn, pairs_drawn, gray_set};

use rules::Refusal;
use scan_arguments::{due_at, pairs_at, perhaps_at};
use scan_close::ending;
use scan_command::Command;
use scan_letters::Motion;

// A drawing that has the numbers h and v, and how it moves.
fn moving(letter: u8, motion: Motion, h: u32, v: u32, next: usize) -> Command
    ensures { result ≡ moved_by letter motion h v next }
{
    let down = match motion {
        Motion::Both => v,
        Motion::Across => 100_000_000,
    };
    Command::Draw {
        letter: letter as u32,
        dh: h as u64,
        dv: down as u64,
        terms: 1,
        next,
    }
}

// n
#[tactic(auto, unfolding(crate::specs::Parts::one_drawn))]
pub fn by_one(s: &[u8], at: usize, i: usize, letter: u8, motion: Motion) -> Result<Command, Refusal>
    ensures { result ≡ one_drawn letter motion s.now at i }
{
    let n = due_at(s, at, i)?;
    ending(s, at, n.next)?;
    n.near()?;
    Ok(moving(letter, motion, n.number, 100_000_000, n.next))
}

// h v
#[tactic(auto, unfolding(crate::specs::Parts::two_drawn))]
pub fn by_two(s: &[u8], at: usize, i: usize, letter: u8, motion: Motion) -> Result<Command, Refusal>
    ensures { result ≡ two_drawn letter motion s.now at i }
{
    let h = due_at(s, at, i)?;
    let v = due_at(s, at, h.next)?;
    ending(s, at, v.next)?;
    h.near()?;
    v.near()?;
    Ok(moving(letter, motion, h.number, v.number, v.next))
}

// h1 v1 h2 v2: it moves by both pairs.
#[tactic(auto, unfolding(crate::specs::Parts::four_drawn))]
pub fn by_four(s: &[u8], at: usize, i: usize, letter: u8) -> Result<Command, Refusal>
    ensures { result ≡ four_drawn letter s.now at i }
{
    let h1 = due_at(s, at, i)?;
    let v1 = due_at(s, at, h1.next)?;
    let h2 = due_at(s, at, v1.next)?;
    let v2 = due_at(s, at, h2.next)?;
    ending(s, at, v2.next)?;
    h1.near()?;
    v1.near()?;
    h2.near()?;
    v2.near()?;
    Ok(Command::Draw {
        letter: letter as u32,
        dh: h1.number as u64 + h2.number as u64,
        dv: v1.number as u64 + v2.number as u64,
        terms: 2,
        next: v2.next,
    })
}

// d, optional dummy
#[tactic(auto, unfolding(crate::specs::Parts::dummied_drawn))]
pub fn dummied(
    s: &[u8],
    at: usize,
    i: usize,
    letter: u8,
    motion: Motion,
) -> Result<Command, Refusal>
    ensures { result ≡ dummied_drawn letter motion s.now at i }
{
    let d = due_at(s, at, i)?;
    let dummy = perhaps_at(s, at, d.next)?;
    let next = dummy.map_or(d.next, |a| a.next);
    ending(s, at, next)?;
    d.near()?;
    if let Some(a) = dummy {
        a.near()?;
    }
    Ok(moving(letter, motion, d.number, 100_000_000, next))
}

// n, -32767..32767
#[tactic(auto, unfolding(crate::specs::Parts::gray_set))]
pub fn gray(s: &[u8], at: usize, i: usize) -> Result<Command, Refusal>
    ensures { result ≡ gray_set s.now at i }
{
    let level = due_at(s, at, i)?;
    ending(s, at, level.next)?;
    level.within(99_967_233, 100_032_767)?;
    Ok(Command::Gray {
        number: level.number,
        next: level.next,
    })
}

// An even number of integers: it moves by all its pairs.
#[tactic(auto, unfolding(crate::specs::Parts::pairs_drawn))]
pub fn by_pairs(s: &[u8], at: usize, i: usize, letter: u8) -> Result<Command, Refusal>
    ensures { result ≡ pairs_drawn letter s.now at i }
{
    let pairs = pairs_at(s, at, i)?;
    ending(s, at, pairs.next)?;
    let sums = pairs.sums?;
    Ok(Command::Draw {
        letter: letter as u32,
        dh: sums.dh,
        dv: sums.dv,
        terms: sums.terms,
        next: pairs.next,
    })
}
