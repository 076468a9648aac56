// What a reading does around its passes: the state in which each pass begins, and the answer at the end.
#![tactic(auto)]

ghost use Rattle.std.specs.Prelude.{◌≡◌};
ghost use Rattle.rules.specs.Record.{colour_of};
ghost use Rattle.read_model.specs.Environment.{paint_of};
ghost use Rattle.read_model.specs.Fits.{EnvFits};
ghost use Rattle.read_turn.specs.Ready.{Scratch};
ghost use Rattle.read_scratch.specs.Scratch.{Unmounted};
ghost use Rattle.read_setup.specs.Setup.{no_colour, start_env, begin_of, refused_at, Started, again_of, read_answer_of, AreBytes};

use read_model::{Environment, State};
use rules::{Colour, Reading, Refusal};
use scan_letters::Parts;
use widths::Sound;

// ---- the state in which a pass begins

fn no_colour() -> Colour
    ensures { result ≡ no_colour }
{
    Colour {
        scheme: 100,
        parts: [0u32; 4],
    }
}

fn start_env() -> Environment
    ensures { result ≡ start_env }
{
    Environment {
        phase: 0,
        quantum: 1,
        ordinal: 0,
        number: 100_000_000,
        h: 100_000_000,
        v: 100_000_000,
        font: 0,
        size: 0,
        gap: 0,
        ink: no_colour(),
        paint: no_colour(),
    }
}

fn begin(n: usize, rmax: usize, emax: usize, fonts: usize, unitwidth: u32, fill: u32) -> State
    ensures { result ≡ begin_of n rmax emax fonts unitwidth fill }
{
    State {
        left: n,
        at: 0,
        records: 0,
        rmax,
        entries: 0,
        emax,
        fonts,
        refusal: 0,
        fill,
        unitwidth,
        env: start_env(),
    }
}

pub fn refused(number: u32, offset: usize) -> State
    ensures { result ≡ refused_at number offset }
{
    State {
        left: 0,
        at: offset,
        records: 0,
        rmax: 0,
        entries: 0,
        emax: 0,
        fonts: 0,
        refusal: number,
        fill: 0,
        unitwidth: 1,
        env: start_env(),
    }
}

// The judging pass, with room for any stream of this length; or refusal 1 or 2.
pub fn start(ws: &mut [u32], s: &[u8], list: &[u8]) -> State
    requires { Scratch ws.old }
    ensures { Started s.now list.now result ws.new × AreBytes s.now }
{
    let n = s.len();
    if 16_777_216 < n {
        return refused(1, 0);
    }
    if 65_536 < list.len() {
        return refused(1, 0);
    }
    match read_scratch::load(ws, list) {
        Ok(Sound { unitwidth, fonts }) => begin(n, n, n, fonts, unitwidth, 0),
        Err(r) => refused(r.number, r.offset),
    }
}

// Where the judging pass ended at a: the filling pass, or the refusal. 13 comes last.
fn next_state(a: State, n: usize, rmax: usize, emax: usize, fill: u32) -> State
    ensures { result ≡ again_of a n rmax emax fill }
{
    if a.refusal == 0 {
        let e = a.env;
        if e.phase == 4 {
            if (rmax < a.records) | (emax < a.entries) {
                refused(13, 0)
            } else {
                begin(n, rmax, emax, a.fonts, a.unitwidth, fill)
            }
        } else {
            refused(11, a.at)
        }
    } else {
        refused(a.refusal, a.at)
    }
}

// The same, with the mounts cleared.
pub fn again(ws: &mut [u32], a: State, n: usize, rmax: usize, emax: usize, fill: u32) -> State
    requires { Scratch ws.old }
    ensures { (result ≡ again_of a n rmax emax fill) × Unmounted ws.old ws.new }
{
    read_scratch::clear(ws);
    next_state(a, n, rmax, emax, fill)
}

// ---- the answer

// A colour with one of the five schemes' letters. Every colour of a pass has one; that is known of what the rules reach and not of the
// state, so it is tested here.
fn colour_out(c: Colour) -> Colour
    ensures { result ≡ colour_of (paint_of c) }
{
    let k = scan_letters::byte_of(c.scheme);
    match scan_letters::parts_of(k) {
        Parts::Unknown => Colour { scheme: 100, ..c },
        _ => c,
    }
}

// The answer where the last pass ended.
pub fn answer(st: State) -> Result<Reading, Refusal>
    requires { EnvFits st.at st.env }
    ensures { result ≡ read_answer_of st }
{
    let e = st.env;
    if st.refusal == 0 {
        Ok(Reading {
            records: st.records,
            entries: st.entries,
            pages: e.ordinal,
            h: read_environment::shown(e.h),
            v: read_environment::shown(e.v),
            glyph: colour_out(e.ink),
            fill: colour_out(e.paint),
        })
    } else {
        Err(Refusal {
            number: st.refusal,
            offset: st.at,
        })
    }
}
