// Drawings: the command `D`, whose second letter selects its arguments, their limits and the motion (document 01, "Drawing").
#![tactic(auto)]

ghost use Rattle.std.specs.Prelude.{◌≡◌, ◌<◌, length};
ghost use Rattle.scan_command.specs.View.{letter_at};
ghost use Rattle.scan_drawings.specs.Parts.{drawn_at};

use rules::Refusal;
use scan_command::Command;
use scan_letters::Drawing;

// The command `D` at a place, by the letter behind it: its arguments are due from i on.
#[tactic(auto, unfolding(crate::specs::Parts::drawn_at))]
fn drawn(s: &[u8], at: usize, i: usize, letter: u8) -> Result<Command, Refusal>
    ensures { result ≡ drawn_at letter s.now at i }
{
    match scan_letters::drawing_of(letter) {
        Drawing::One(motion) => scan_shapes::by_one(s, at, i, letter, motion),
        Drawing::Dummied(motion) => scan_shapes::dummied(s, at, i, letter, motion),
        Drawing::Two(motion) => scan_shapes::by_two(s, at, i, letter, motion),
        Drawing::Four => scan_shapes::by_four(s, at, i, letter),
        Drawing::Pairs => scan_shapes::by_pairs(s, at, i, letter),
        Drawing::Gray => scan_shapes::gray(s, at, i),
        Drawing::Scheme => scan_colours::fill(s, at, scan_lex::spacer_end(s, i)),
        Drawing::Unknown => Err(Refusal {
            number: 3,
            offset: at,
        }),
    }
}

// The command `D` at a place.
#[tactic(auto, using(crate::proofs::Drawings::drawing_is))]
pub fn drawing(s: &[u8], at: usize) -> Result<Command, Refusal>
    requires { at < length s.now }
    ensures { result ≡ letter_at 68 s.now at }
{
    let i = scan_lex::spacer_end(s, at + 1);
    let letter = *s.get(i).ok_or(Refusal {
        number: 3,
        offset: at,
    })?;
    drawn(s, at, i + 1, letter)
}
