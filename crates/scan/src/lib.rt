// One command at a place of a stream: the letter decides (document 01, "Commands of one letter").
#![tactic(auto)]

ghost use Rattle.std.specs.Prelude.{◌≡◌, ◌<◌, length};
ghost use Rattle.scan_command.specs.View.{command_at};

use rules::Refusal;
use scan_command::{Axis, Command};

#[tactic(auto, unfolding(scan_command::specs::View::letter_at, scan_command::specs::View::command_at, rules::specs::Scan::letter))]
pub fn scan(s: &[u8], at: usize) -> Result<Command, Refusal>
    requires { at < length s.now }
    ensures { result ≡ command_at s.now at }
{
    let b = s[at];
    match b {
        b'c' => scan_glyphs::glyph_byte(s, at),
        b'C' => scan_glyphs::glyph_name(s, at),
        b'N' => scan_glyphs::index(s, at),
        b't' => scan_glyphs::word(s, at),
        b'u' => scan_glyphs::tracked(s, at),
        b'H' => scan_motions::to(s, at, Axis::Across),
        b'h' => scan_motions::by(s, at, Axis::Across),
        b'V' => scan_motions::to(s, at, Axis::Down),
        b'v' => scan_motions::by(s, at, Axis::Down),
        b'p' => scan_motions::page(s, at),
        b'f' => scan_motions::font(s, at),
        b's' => scan_motions::size(s, at),
        b'm' => scan_colours::colour(s, at),
        b'n' => scan_motions::line_break(s, at),
        b'w' => scan_motions::space(s, at),
        b'D' => scan_drawings::drawing(s, at),
        b'x' => scan_controls::control(s, at),
        b'0'..=b'9' => scan_glyphs::two_digits(s, at, b),
        _ => Err(Refusal {
            number: 3,
            offset: at,
        }),
    }
}
