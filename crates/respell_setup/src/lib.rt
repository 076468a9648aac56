// Around the passes of the rewriter: where the writing begins, whether a second pass is to write, and the answer.
#![tactic(auto)]

ghost use Rattle.std.specs.Prelude.{◌≡◌};
ghost use Rattle.read_turn.specs.Ready.{Scratch};
ghost use Rattle.read_setup.specs.Setup.{Unmounted};
ghost use Rattle.respell_twice.specs.Respell.{begin_at, held_back, next_of, respell_answer_of};

use read_model::State;
use respell_model::{Mark, Writing};
use rules::Refusal;

// At the start of the buffer, and of the page.
pub fn begin(state: State) -> Writing
    ensures { result ≡ begin_at state }
{
    Writing {
        state,
        mark: Mark {
            at: 0,
            h: 100_000_000,
            v: 100_000_000,
        },
    }
}

// 13 comes last: "spelling need more room than lent, or the spelling is over 16,777,216 bytes".
fn held_back(a: State, len: usize, room: usize) -> State
    ensures { result ≡ held_back a len room }
{
    if (a.refusal == 0) & ((16_777_216 < len) | (room < len)) {
        read_setup::refused(13, 0)
    } else {
        a
    }
}

// Where the first pass ended at w: the second one, with the mounts cleared, or the refusal. What was counted has room.
pub fn again(ws: &mut [u32], w: Writing, n: usize, room: usize) -> Writing
    requires { Scratch ws.old }
    ensures { (result ≡ begin_at (next_of w n room)) × Unmounted ws.old ws.new }
{
    let a = w.state;
    let m = w.mark;
    let c = read_setup::again(ws, a, n, a.records, a.entries, 0);
    begin(held_back(c, m.at, room))
}

// The answer where the last pass ended at w.
pub fn answer(w: Writing) -> Result<usize, Refusal>
    ensures { result ≡ respell_answer_of w }
{
    let st = w.state;
    let m = w.mark;
    if st.refusal != 0 {
        return Err(Refusal {
            number: st.refusal,
            offset: st.at,
        });
    }
    Ok(m.at)
}
