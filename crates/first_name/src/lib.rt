// The first name for a record (request 2026-01): its family's first name, a part of the family list, or its own name, a part of the
// stream. Nothing is copied.
#![tactic(auto)]

ghost use Rattle.std.specs.Prelude.{◌≡◌, length};
ghost use Rattle.rules.specs.Families.{family_of};
ghost use Rattle.rules.specs.Answers.{listed};
ghost use Rattle.rules.specs.Calls.{NamePartCall, FirstNameCall};
ghost use Rattle.families_table.specs.Table.{families_at, Sized};
ghost use Rattle.first_name.specs.First.{first_of, lies_in};

use families_table::{FamilyName, Table};
use rules::{NamePart, Record};

// Where the first name of the family that a name is in stands, of so many families in the table.
#[tactic(auto, using(crate::proofs::Steps::in_table))]
fn first_in(fl: &[u8], table: &Table, families: usize, own: &[u8]) -> Option<NamePart>
    requires { Sized table.now families }
    ensures { result ≡ first_of (family_of own.now (families_at fl.now table.now families)) }
{
    let family = families_table::owner(fl, table, families, own)?;
    let first = table.names[family * 8];
    Some(NamePart::InFamilies {
        place: first.place as usize,
        len: first.bytes(fl).len(),
    })
}

// The same, of the families in the list; a wrong or too long list counts as an empty one.
#[tactic(auto, using(crate::proofs::Steps::in_list))]
fn first_of(fl: &[u8], own: &[u8]) -> Option<NamePart>
    ensures { result ≡ first_of (family_of own.now (listed fl.now)) }
{
    if 65_536 < fl.len() {
        return None;
    }
    let mut table = Table {
        names: [FamilyName { place: 0, len: 0 }; 2048],
        sizes: [0; 256],
    };
    let mut seen = [false; 16384];
    let families = families::load(fl, &mut table, &mut seen).ok()?;
    first_in(fl, &table, families, own)
}

// Whether a name of this place and length, which is not 0, lies in a stream of n bytes.
fn lies_in(n: usize, place: usize, len: usize) -> bool
    ensures { result ≡ lies_in n place len }
{
    0 < len && place <= n && len <= n - place
}

// Where the first name for a record stands whose name has this place and length in s.
#[tactic(auto, using(crate::proofs::Steps::parts))]
pub fn name_part(s: &[u8], fl: &[u8], place: usize, len: usize) -> NamePart
    ensures { NamePartCall s.now fl.now place len result }
{
    if lies_in(s.len(), place, len) {
        let own = name::name_at(s, place, len);
        return first_of(fl, own).unwrap_or(NamePart::InStream { place, len });
    }
    NamePart::Nowhere
}

// The first name for a record of the stream s, with the family list fl.
pub fn first_name<'a>(s: &'a [u8], fl: &'a [u8], r: Record) -> &'a [u8]
    ensures { FirstNameCall s.now fl.now r.place r.len result.now }
{
    match name_part(s, fl, r.place as usize, r.len as usize) {
        NamePart::Nowhere => name::name_at(s, 0, 0),
        NamePart::InStream { place, len } => name::name_at(s, place, len),
        NamePart::InFamilies { place, len } => name::name_at(fl, place, len),
    }
}
