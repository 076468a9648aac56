// The finder as a C function: slices cross as a pointer and a length, the answer as a flat struct. The header is include/mrkvandel.h.
#![tactic(auto)]

ghost use Rattle.std.specs.Prelude.{◌≡◌, Result};
ghost use Rattle.rules.specs.declared.Finding.{Finding};
ghost use Rattle.rules.specs.declared.Refusal.{Refusal};
ghost use Rattle.rules.specs.Calls.{FindCall};
ghost use Rattle.capi_answers.specs.Flat.{flat_finding};

use capi_answers::FindResult;
use rules::Record;

// The finder, `find::find`.
#[unsafe(no_mangle)]
pub extern "C" fn mrkvandel_find(
    stream: &[u8],
    widths: &[u8],
    families: &[u8],
    query: &[u8],
    records: &mut [Record],
    hits: &mut [u32],
) -> FindResult
    ensures { (a : Result Finding Refusal) × FindCall stream.now widths.now families.now query.now records.old hits.old a records.new hits.new × (result ≡ flat_finding a) }
{
    FindResult::from(find::find(stream, widths, families, query, records, hits))
}
