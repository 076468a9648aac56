// The reader as a C function: slices cross as a pointer and a length, the answer as a flat struct. The header is include/mrkvandel.h.
#![tactic(auto)]

ghost use Rattle.std.specs.Prelude.{◌≡◌, Result};
ghost use Rattle.rules.specs.declared.Reading.{Reading};
ghost use Rattle.rules.specs.declared.Refusal.{Refusal};
ghost use Rattle.rules.specs.Calls.{ReadCall};
ghost use Rattle.capi_answers.specs.Flat.{flat_reading};

use capi_answers::ReadResult;
use rules::{Entry, Record};

// The reader, `read::read`.
#[unsafe(no_mangle)]
pub extern "C" fn mrkvandel_read(
    stream: &[u8],
    widths: &[u8],
    records: &mut [Record],
    entries: &mut [Entry],
) -> ReadResult
    ensures { (a : Result Reading Refusal) × ReadCall stream.now widths.now records.old entries.old a records.new entries.new × (result ≡ flat_reading a) }
{
    ReadResult::from(read::read(stream, widths, records, entries))
}
