// Judging: a stream with its width list, room aside. The rewriter's first pass alone, whose bytes nobody reads: whether a stream is
// accepted, and then how large the rows and the buffer of the other routines have to be.
#![tactic(auto)]

ghost use Rattle.rules.specs.Calls.{JudgeCall};
ghost use Rattle.read_turn.specs.Ready.{Scratch};

use rules::{Judging, Refusal};

// The pass, with a buffer and a scratch row; its bytes go to none.
fn judged(none: &mut [u8], ws: &mut [u32], s: &[u8], list: &[u8]) -> Result<Judging, Refusal>
    requires { Scratch ws.old }
    ensures { JudgeCall s.now list.now result }
{
    let w = respell_measure::measure(none, ws, s, list);
    judge_answer::answer(w)
}

// The numbers of records, entries and pages, and the spelling's length; or a refusal, 1 to 11 or 16.
pub fn judge(s: &[u8], list: &[u8]) -> Result<Judging, Refusal>
    ensures { JudgeCall s.now list.now result }
{
    let mut ws = read_scratch::room();
    let mut none = respell_measure::no_bytes();
    judged(&mut none, &mut ws, s, list)
}
