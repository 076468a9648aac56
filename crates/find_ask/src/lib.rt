// The family list and the query of a finding, judged: the families in their table, and the glyphs of the query with the families of their
// names.
#![tactic(auto)]

ghost use Rattle.std.specs.Prelude.{◌≡◌, ◌≤◌, length};
ghost use Rattle.families_table.specs.Table.{families_at, Sized};
ghost use Rattle.rules.specs.Find.{sought, query};
ghost use Rattle.find_match.specs.Match.{sought_by};
ghost use Rattle.find_ask.specs.Ask.{wanted_by, sizes_of, AsksWith, AsksFor};

use families_table::Table;
use find_match::Sought;
use query::Wanted;
use rules::Refusal;

// A glyph line, with the family of its name, of so many.
fn sought(q: &[u8], fl: &[u8], table: &Table, families: usize, wanted: Wanted) -> Sought
    requires { Sized table.now families }
    ensures { sought_by q.now fl.now table.now result ≡ sought (families_at fl.now table.now families) (wanted_by q.now wanted) }
{
    let name = name::name_at(q, wanted.place as usize, wanted.len as usize);
    Sought {
        place: wanted.place,
        len: wanted.len,
        gap: wanted.gap,
        family: families_table::owner(fl, table, families, name),
    }
}

// The query, judged; where it is in order its glyphs are put into the row, and how many they are is answered.
#[tactic(auto, using(crate::proofs::Asking::asking))]
fn ask_query(
    glyphs: &mut [Sought; 64],
    q: &[u8],
    fl: &[u8],
    table: &Table,
    families: usize,
) -> Result<usize, Refusal>
    requires { Sized table.now families × (length q.now ≤ 8192) }
    ensures { AsksWith (families_at fl.now table.now families) q.now fl.now table.now result glyphs.new (query q.now) }
{
    let mut wanted = [query::no_glyph(); 64];
    let count = query::load(q, &mut wanted)?;
    for j in 0..count {
        glyphs[j] = sought(q, fl, table, families, wanted[j]);
    }
    Ok(count)
}

// Whether the family list and the query are no longer than they may be: refusal 1.
pub fn in_size(fl: &[u8], q: &[u8]) -> Result<(), Refusal>
    ensures { result ≡ sizes_of fl.now q.now }
{
    if 65_536 < fl.len() || 8_192 < q.len() {
        return Err(Refusal {
            number: 1,
            offset: 0,
        });
    }
    Ok(())
}

// The family list and the query, judged: refusal 1, 14, 12; or, where both are in order, how many glyphs there are.
#[tactic(auto, using(crate::proofs::Asking::grouping))]
pub fn ask(
    glyphs: &mut [Sought; 64],
    table: &mut Table,
    fl: &[u8],
    q: &[u8],
) -> Result<usize, Refusal>
    ensures { AsksFor fl.now q.now result table.new glyphs.new }
{
    in_size(fl, q)?;
    let mut seen = [false; 16384];
    let families = families::load(fl, table, &mut seen)?;
    ask_query(glyphs, q, fl, table, families)
}
