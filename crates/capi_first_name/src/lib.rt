// The first name for a record as a C function: slices cross as a pointer and a length, the answer as a flat struct. The header is
// include/mrkvandel.h.
#![tactic(auto)]

ghost use Rattle.std.specs.Prelude.{◌≡◌};
ghost use Rattle.rules.specs.declared.NamePart.{NamePart};
ghost use Rattle.rules.specs.Calls.{NamePartCall};
ghost use Rattle.capi_answers.specs.Flat.{flat_part};

use capi_answers::FirstNameResult;

// Where the first name stands, `first_name::name_part`.
#[unsafe(no_mangle)]
pub extern "C" fn mrkvandel_first_name(
    stream: &[u8],
    families: &[u8],
    place: usize,
    len: usize,
) -> FirstNameResult
    ensures { (a : NamePart) × NamePartCall stream.now families.now place len a × (result ≡ flat_part a) }
{
    FirstNameResult::from(first_name::name_part(stream, families, place, len))
}
