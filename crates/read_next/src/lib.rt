// Where a turn goes on behind a command.
#![tactic(auto)]

ghost use Rattle.std.specs.Prelude.{◌≡◌};
ghost use Rattle.read_model.specs.Turns.{next_of};

use scan_command::Command;

// The place behind a command.
pub fn next_of(c: Command) -> usize
    ensures { result ≡ next_of c }
{
    match c {
        Command::Glyph { next, .. } => next,
        Command::Index { next, .. } => next,
        Command::Word { next, .. } => next,
        Command::Pair { next, .. } => next,
        Command::To { next, .. } => next,
        Command::By { next, .. } => next,
        Command::Page { next, .. } => next,
        Command::Font { next, .. } => next,
        Command::Size { next, .. } => next,
        Command::Colour { next, .. } => next,
        Command::Break { next } => next,
        Command::Space { next } => next,
        Command::Draw { next, .. } => next,
        Command::Gray { next, .. } => next,
        Command::Fill { next, .. } => next,
        Command::Device { next, .. } => next,
        Command::Resolution { next, .. } => next,
        Command::Init { next } => next,
        Command::File { next, .. } => next,
        Command::Mount { next, .. } => next,
        Command::Plain { next, .. } => next,
        Command::Raw { next } => next,
        Command::Stop { next } => next,
    }
}
