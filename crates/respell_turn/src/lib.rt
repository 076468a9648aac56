// One command of the rewriter: its effect, as the reader has it, and what is written for it.
#![tactic(auto)]

ghost use Rattle.std.specs.Prelude.{◌≡◌, length, Ok};
ghost use Rattle.read_model.specs.Turns.{scratch_on, turn_on};
ghost use Rattle.read_model.specs.Fits.{CommandIn};
ghost use Rattle.scan_command.specs.View.{command_at};
ghost use Rattle.read_word.specs.Bounds.{Small};
ghost use Rattle.read_turn.specs.Ready.{find_in, Scratch, Ready};
ghost use Rattle.respell_model.specs.Passes.{sheet_on, mark_on, bytes_on, mark_after};

use read_model::State;
use respell_model::{Mark, Writing};
use scan_command::Command;

// What a command of which nothing is refused has in the spelling: st is the state before it, next the one behind it.
#[tactic(auto, using(crate::proofs::Refusing::none_refused))]
fn written(
    out: &mut [u8],
    s: &[u8],
    ws: &[u32],
    st: State,
    next: State,
    c: Command,
    m: Mark,
) -> Mark
    requires ready { Ready (length s.now) st × Small ws.now × CommandIn st.at (length s.now) c }
    requires next_value { next ≡ (turn_on s.now ws.now st (Ok c)).state }
    ensures { (result ≡ mark_on s.now ws.now st next c out.old m) × (out.new ≡ (sheet_on s.now ws.now st next c out.old m).bytes) }
{
    if next.refusal == 0 {
        let f = next.env;
        respell_command::spell(out, s, ws, st, c, f.h, f.v, m)
    } else {
        m
    }
}

// What was scanned: what it does, what is written for it, and the font that it mounts.
// It is put into the loop of the pass: called there, it takes the whole state through memory, and a spelling half as long again.
#[inline(always)]
pub fn command_turn(
    out: &mut [u8],
    ws: &mut [u32],
    s: &[u8],
    list: &[u8],
    at: usize,
    st: State,
    m: Mark,
) -> Writing
    requires { (at ≡ st.at) × Scratch ws.old × Ready (length s.now) st }
    ensures { (result.state ≡ (turn_on s.now ws.old st (command_at s.now st.at)).state) × (result.mark ≡ mark_after s.now ws.old st (command_at s.now st.at) out.old m) × (out.new ≡ bytes_on s.now ws.old st (command_at s.now st.at) out.old m) × (ws.new ≡ scratch_on (find_in list.now st.fonts ws.old) s.now ws.old st.env (command_at s.now st.at)) }
{
    let e = st.env;
    let scanned = read_turn::command_at(s, at);
    let x = read_turn::turned(s, ws, st, scanned);
    let next = x.state;
    match scanned {
        Ok(c) => {
            let mark = written(out, s, ws, st, next, c, m);
            read_mount::mounting(ws, s, list, st.fonts, e, at, c);
            Writing { state: next, mark }
        }
        Err(_) => Writing {
            state: next,
            mark: m,
        },
    }
}
