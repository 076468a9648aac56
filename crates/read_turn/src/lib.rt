// One turn of a pass: whitespace, a comment or one command; what it does to the state and what it gives to the rows. The
// definitions stand in read_model's specs/.
#![tactic(auto)]

ghost use Rattle.std.specs.Prelude.{◌≡◌, ◌<◌, length};
ghost use Rattle.read_model.specs.Fits.{CommandIn, ScannedIn};
ghost use Rattle.read_model.specs.Turns.{did_at, scratch_on, late, turn_on, turn_of, scratch_of};
ghost use Rattle.scan_command.specs.View.{command_at};
ghost use Rattle.read_word.specs.Bounds.{Small};
ghost use Rattle.read_turn.specs.Ready.{find_in, Scratch, Ready};

use read_model::{Did, Environment, State, Turned};
use rules::Refusal;
use scan_command::Command;
use scan_reader::Reader;

#[tactic(auto, using(crate::proofs::Turning::command_within))]
pub fn command_at(s: &[u8], at: usize) -> Result<Command, Refusal>
    requires { at < length s.now }
    ensures { (result ≡ command_at s.now at) × ScannedIn at (length s.now) result }
{
    scan::scan(s, at)
}

// What a command does to the environment, and what it gives to the rows.
fn did_at(s: &[u8], ws: &[u32], st: State, c: Command) -> Result<Did, Refusal>
    requires { Ready (length s.now) st × Small ws.now × CommandIn st.at (length s.now) c }
    ensures { result ≡ did_at s.now ws.now st.unitwidth st.env st.at c }
{
    let e = st.env;
    read_effects::did(s, ws, st.unitwidth, e, st.at, c)
}

// What it does to the state.
fn done(s: &[u8], ws: &[u32], st: State, c: Command) -> Turned
    requires { Ready (length s.now) st × Small ws.now × CommandIn st.at (length s.now) c }
    ensures { result ≡ turn_on s.now ws.now st (Ok c) }
{
    let d = did_at(s, ws, st, c);
    let next = read_next::next_of(c);
    read_count::done(s.len(), st, next, d)
}

// The refusal of what no rule reads: behind `x s` it is 7, at its place.
fn late(e: Environment, at: usize, r: Refusal) -> Refusal
    ensures { result ≡ late e at r }
{
    if e.phase == 4 {
        Refusal {
            number: 7,
            offset: at,
        }
    } else {
        r
    }
}

// What was scanned does to the state.
pub fn turned(s: &[u8], ws: &[u32], st: State, c: Result<Command, Refusal>) -> Turned
    requires { Ready (length s.now) st × Small ws.now × ScannedIn st.at (length s.now) c }
    ensures { result ≡ turn_on s.now ws.now st c }
{
    match c {
        Ok(c) => done(s, ws, st, c),
        Err(r) => {
            let e = st.env;
            read_count::halted(st, late(e, st.at, r))
        }
    }
}

// One command.
fn command_turn(ws: &mut [u32], s: &[u8], list: &[u8], at: usize, st: State) -> Turned
    requires { (at ≡ st.at) × Scratch ws.old × Ready (length s.now) st }
    ensures { (result ≡ turn_on s.now ws.old st (command_at s.now st.at)) × (ws.new ≡ scratch_on (find_in list.now st.fonts ws.old) s.now ws.old st.env (command_at s.now st.at)) }
{
    let e = st.env;
    let scanned = command_at(s, at);
    let r = turned(s, ws, st, scanned);
    if let Ok(c) = scanned {
        read_mount::mounting(ws, s, list, st.fonts, e, at, c);
    }
    r
}

// Whitespace, a comment, or one command, at the state's place.
#[tactic(auto, using(crate::proofs::Turning::comment_ends), unfolding(read_model::specs::Turns::turn_of, read_model::specs::Turns::scratch_of, scan_lex::specs::At::run_end))]
fn turn_at(ws: &mut [u32], s: &[u8], list: &[u8], at: usize, st: State) -> Turned
    requires { (at ≡ st.at) × Scratch ws.old × Ready (length s.now) st }
    ensures { (result ≡ turn_of s.now ws.old st) × (ws.new ≡ scratch_of (find_in list.now st.fonts ws.old) s.now ws.old st) }
{
    let b = s[at];
    if scan_lex::is_white(b) {
        return read_count::skipped(s.len(), st, at + 1);
    }
    if b == 35 {
        let next = scan_lex::line_end(s, at + 1);
        return read_count::skipped(s.len(), st, next);
    }
    command_turn(ws, s, list, at, st)
}

// A turn where the reader stands: the struct is taken apart.
pub fn turn(ws: &mut [u32], reader: Reader, list: &[u8], st: State) -> Turned
    requires { (reader.at ≡ st.at) × Scratch ws.old × Ready (length reader.stream.now) st }
    ensures { (result ≡ turn_of reader.entry.stream.now ws.old st) × (ws.new ≡ scratch_of (find_in list.now st.fonts ws.old) reader.entry.stream.now ws.old st) }
{
    turn_at(ws, reader.stream, list, reader.at, st)
}
