// The family table (request 2026-01): the names of each family by their places in the family list, and the family of a name.
#![tactic(auto)]

ghost use Rattle.std.specs.Prelude.{◌≡◌, ◌+◌, ◌≤◌, ◌<◌, IfSome};
ghost use Rattle.name.specs.Part.{part_of};
ghost use Rattle.rules.specs.Families.{is_in};
ghost use Rattle.families_table.specs.Table.{names_at, kin_of, families_at, owner_of, Sized};

// A name of a family: its place and length in the family list.
#[derive(Clone, Copy)]
pub struct FamilyName {
    pub place: u32,
    pub len: u32,
}

impl FamilyName {
    pub fn bytes<'a>(self, fl: &'a [u8]) -> &'a [u8]
        ensures { result.now ≡ part_of fl.now self.place self.len }
    {
        name::name_at(fl, self.place as usize, self.len as usize)
    }
}

// The names of up to 256 families, up to 8 each, and how many each has. The family j, counted from 0, has its names from 8 * j on.
#[derive(Clone, Copy)]
pub struct Table {
    pub names: [FamilyName; 2048],
    pub sizes: [u32; 256],
}

// Whether a name is one of so many in the table from a place on.
fn among(fl: &[u8], table: &Table, from: usize, count: usize, name: &[u8]) -> bool
    requires { from + count ≤ 2048 }
    ensures { result ≡ is_in name.now (names_at fl.now table.now from count) }
{
    table.names[from..from + count]
        .iter()
        .any(|other| scan_lex::same_bytes(name, other.bytes(fl)))
}

// Whether a name is in a family.
#[tactic(auto, using(crate::proofs::Steps::steps))]
pub fn is_kin(fl: &[u8], table: &Table, family: usize, name: &[u8]) -> bool
    ensures { result ≡ is_in name.now (kin_of fl.now table.now family) }
{
    if 256 <= family {
        return false;
    }
    let size = table.sizes[family] as usize;
    size <= 8 && among(fl, table, family * 8, size, name)
}

// The family that a name is in, of so many.
#[tactic(auto, using(crate::proofs::Steps::steps))]
pub fn owner(fl: &[u8], table: &Table, families: usize, name: &[u8]) -> Option<usize>
    requires { Sized table.now families }
    ensures { (result ≡ owner_of name.now (families_at fl.now table.now families)) × IfSome result (λ j. j < families) }
{
    for family in (0..families).rev() {
        if is_kin(fl, table, family, name) {
            return Some(family);
        }
    }
    None
}
