// `x f` mounts a font: the scratch row tells its block of widths.
#![tactic(auto)]

ghost use Rattle.std.specs.Prelude.{◌≡◌, ◌+◌, ◌≤◌, ◌<◌, length, take, drop, set};
ghost use Rattle.read_model.specs.Fits.{CommandIn};
ghost use Rattle.read_model.specs.Turns.{scratch_after};
ghost use Rattle.read_mount.specs.Mounts.{find_in};

use read_model::Environment;
use scan_command::Command;

// The slot of the font whose name stands at a place of the stream, 32 where the list has none.
fn slot_of(ws: &[u32], s: &[u8], list: &[u8], fonts: usize, place: usize, len: usize) -> usize
    requires { (length ws.now ≡ 8768) × (fonts ≤ 32) }
    ensures { (result ≡ find_in list.now fonts ws.now (take len (drop place s.now))) × (result ≤ 32) }
{
    widths_slot::slot(list, &ws[8704..8736], &ws[8736..8768], fonts, s, place, len)
}

// The name at a place of the stream is mounted at a position.
fn mount(
    ws: &mut [u32],
    s: &[u8],
    list: &[u8],
    fonts: usize,
    position: u32,
    place: usize,
    len: usize,
)
    requires { (length ws.old ≡ 8768) × (fonts ≤ 32) × (position < 256) }
    ensures { ws.new ≡ set ws.old position (find_in list.now fonts ws.old (take len (drop place s.now)) + 1) }
{
    let k = slot_of(ws, s, list, fonts, place, len);
    let i = position as usize;
    ws[i] = (k as u32) + 1;
}

// `x f` in the body mounts its font; other commands leave the scratch row.
pub fn mounting(
    ws: &mut [u32],
    s: &[u8],
    list: &[u8],
    fonts: usize,
    e: Environment,
    at: usize,
    c: Command,
)
    requires { (length ws.old ≡ 8768) × (fonts ≤ 32) × CommandIn at (length s.now) c }
    ensures { ws.new ≡ scratch_after (find_in list.now fonts ws.old) s.now ws.old e c }
{
    let Command::Mount {
        position,
        place,
        len,
        ..
    } = c
    else {
        return;
    };
    if e.phase == 3 {
        mount(ws, s, list, fonts, position, place, len);
    }
}
