// One pass of the rewriter over the stream, run twice: it measures the spelling, or writes it.
#![tactic(auto)]

ghost use Rattle.std.specs.Prelude.{◌≡◌, ◌≤◌, length};
ghost use Rattle.read_model.specs.Turns.{skipped as skipped_to};
ghost use Rattle.read_turn.specs.Ready.{find_in, Scratch, Ready};
ghost use Rattle.read_pass.specs.Ready.{PassReady};
ghost use Rattle.respell_model.specs.Passes.{respell_step_of, respell_pass_of};

use read_model::State;
use respell_model::{Mark, Writing};
use scan_reader::Reader;

// Whitespace and comments leave the writing as it is.
fn skipped(n: usize, st: State, next: usize, mark: Mark) -> Writing
    requires { next ≤ n }
    ensures { (result.state ≡ (skipped_to n st next).state) × (result.mark ≡ mark) }
{
    let x = read_count::skipped(n, st, next);
    let state = x.state;
    Writing { state, mark }
}

// Whitespace, a comment, or one command, at the state's place.
#[inline(always)]
fn turn_at(
    out: &mut [u8],
    ws: &mut [u32],
    s: &[u8],
    list: &[u8],
    at: usize,
    st: State,
    m: Mark,
) -> Writing
    requires { (at ≡ st.at) × Scratch ws.old × Ready (length s.now) st }
    ensures { record { state = result.state; mark = result.mark; scratch = ws.new; bytes = out.new } ≡ respell_step_of (find_in list.now st.fonts ws.old) s.now (record { state = st; mark = m; scratch = ws.old; bytes = out.old }) }
{
    let next = scan_lex::blank_end(s, at);
    if at < next {
        return skipped(s.len(), st, next, m);
    }
    respell_turn::command_turn(out, ws, s, list, at, st, m)
}

// A turn where the reader stands: the struct is taken apart.
#[inline(always)]
fn turn(out: &mut [u8], ws: &mut [u32], reader: Reader, list: &[u8], st: State, m: Mark) -> Writing
    requires { (reader.at ≡ st.at) × Scratch ws.old × Ready (length reader.stream.now) st }
    ensures { record { state = result.state; mark = result.mark; scratch = ws.new; bytes = out.new } ≡ respell_step_of (find_in list.now st.fonts ws.old) reader.entry.stream.now (record { state = st; mark = m; scratch = ws.old; bytes = out.old }) }
{
    turn_at(out, ws, reader.stream, list, reader.at, st, m)
}

// Turn by turn to the end or a refusal.
pub fn pass(out: &mut [u8], ws: &mut [u32], s: &[u8], list: &[u8], from: Writing) -> Writing
    requires { PassReady (length s.now) ws.old 0 0 from.state }
    ensures { record { state = result.state; mark = result.mark; scratch = ws.new; bytes = out.new } ≡ respell_pass_of (find_in list.now from.state.fonts ws.old) s.now (record { state = from.state; mark = from.mark; scratch = ws.old; bytes = out.old }) }
{
    let mut reader = Reader::new(s);
    let mut state = from.state;
    let mut mark = from.mark;
    while 0 < state.left {
        reader.at = state.at;
        let x = turn(out, ws, reader, list, state, mark);
        state = x.state;
        mark = x.mark;
    }
    Writing { state, mark }
}
