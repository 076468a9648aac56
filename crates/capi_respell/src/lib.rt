// The rewriter as a C function: slices cross as a pointer and a length, the answer as a flat struct. The header is include/mrkvandel.h.
#![tactic(auto)]

ghost use Rattle.std.specs.Prelude.{◌≡◌, ℕ, Result};
ghost use Rattle.rules.specs.declared.Refusal.{Refusal};
ghost use Rattle.rules.specs.Calls.{RespellCall};
ghost use Rattle.capi_answers.specs.Flat.{flat_respelling};

use capi_answers::RespellResult;

// The rewriter, `respell::respell`.
#[unsafe(no_mangle)]
pub extern "C" fn mrkvandel_respell(stream: &[u8], widths: &[u8], out: &mut [u8]) -> RespellResult
    ensures { (a : Result ℕ Refusal) × RespellCall stream.now widths.now out.old a out.new × (result ≡ flat_respelling a) }
{
    RespellResult::from(respell::respell(stream, widths, out))
}
