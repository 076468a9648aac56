// The judging as a C function: slices cross as a pointer and a length, the answer as a flat struct. The header is include/mrkvandel.h.
#![tactic(auto)]

ghost use Rattle.std.specs.Prelude.{◌≡◌, Result};
ghost use Rattle.rules.specs.declared.Judging.{Judging};
ghost use Rattle.rules.specs.declared.Refusal.{Refusal};
ghost use Rattle.rules.specs.Calls.{JudgeCall};
ghost use Rattle.capi_answers.specs.Flat.{flat_judging};

use capi_answers::JudgeResult;

// Judging, `judge::judge`.
#[unsafe(no_mangle)]
pub extern "C" fn mrkvandel_judge(stream: &[u8], widths: &[u8]) -> JudgeResult
    ensures { (a : Result Judging Refusal) × JudgeCall stream.now widths.now a × (result ≡ flat_judging a) }
{
    JudgeResult::from(judge::judge(stream, widths))
}
