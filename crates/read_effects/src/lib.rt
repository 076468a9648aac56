// What a command does to the environment, and what it gives to the rows: here each command goes to the crate that it is about.
#![tactic(auto)]

ghost use Rattle.std.specs.Prelude.{◌≡◌, ◌≤◌, ◌<◌, length};
ghost use Rattle.read_model.specs.Turns.{did_at};
ghost use Rattle.read_model.specs.Fits.{EnvFits, CommandIn};
ghost use Rattle.read_word.specs.Bounds.{Small};

use read_control::controlled_on;
use read_drawing::drawn_on;
use read_environment::{colour_here, value_at};
use read_glyph::{glyph_on, index_on, pair_on};
use read_model::{Did, Environment};
use read_motion::{by_on, font_on, gap_on, ink_on, page_on, size_on, to_on};
use read_word::word_on;
use rules::Refusal;
use scan_command::Command;

// One command that begins at a place: refusal 7 comes first, then 8, 9, 10. u is the unitwidth, ws the scratch row.
pub fn did(
    s: &[u8],
    ws: &[u32],
    u: u32,
    e: Environment,
    at: usize,
    c: Command,
) -> Result<Did, Refusal>
    requires env_fits { EnvFits at e × CommandIn at (length s.now) c × (at < length s.now) }
    requires s_len_bound { (length s.now ≤ 16777216) × (1 ≤ u) × (u ≤ 100000) × Small ws.now }
    ensures { result ≡ did_at s.now ws.now u e at c }
{
    match c {
        Command::Glyph { place, len, .. } => glyph_on(e, at, place, len),
        Command::Index { number, .. } => index_on(e, at, number),
        Command::Word {
            track,
            place,
            end,
            ..
        } => word_on(s, ws, u, e, at, track, place, end),
        Command::Pair { number, place, .. } => pair_on(e, at, number, place),
        Command::To { axis, number, .. } => to_on(e, at, axis, number),
        Command::By { axis, number, .. } => by_on(e, at, axis, number),
        Command::Page { number, .. } => page_on(e, at, number),
        Command::Font { position, .. } => font_on(e, at, position, value_at(ws, position as usize)),
        Command::Size { size, .. } => size_on(e, at, size),
        Command::Colour {
            scheme,
            a,
            b,
            c,
            d,
            ..
        } => ink_on(e, at, colour_here(scheme, a, b, c, d)),
        Command::Break { .. } => gap_on(e, at),
        Command::Space { .. } => gap_on(e, at),
        Command::Draw { .. } | Command::Gray { .. } | Command::Fill { .. } => drawn_on(e, at, c),
        _ => controlled_on(e, at, c),
    }
}
