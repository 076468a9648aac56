// The finder (document 01, "Finding"): a stream with its width list, a family list, a query, and two lent rows. One pass judges the stream, and
// where nothing is against it a second one fills the records, and the search lists the hits.
#![tactic(auto)]

ghost use Rattle.std.specs.Prelude.{◌≡◌};
ghost use Rattle.rules.specs.Calls.{FindCall};

use families_table::{FamilyName, Table};
use find_match::{Question, Sought};
use query_line::Gap;
use rules::{Entry, Finding, Record, Refusal};

// What stands in the table of families, in the row of glyphs, and in the row of entries that a finding does not fill.
const NO_NAME: FamilyName = FamilyName { place: 0, len: 0 };

const NO_GLYPH: Sought = Sought {
    place: 0,
    len: 0,
    gap: Gap::Either,
    family: None,
};

const NO_ENTRY: Entry = Entry {
    command: 0,
    letter: 0,
    scheme: 0,
    ordinal: 0,
    place: 0,
    len: 0,
    h: 0,
    v: 0,
};

// The question that was judged.
fn posed<'a>(
    query: &'a [u8],
    families: &'a [u8],
    table: &'a Table,
    glyphs: &'a [Sought],
) -> Question<'a>
    ensures query { result.query.now ≡ query.now }
    ensures families { result.families.now ≡ families.now }
    ensures table { result.table.now ≡ table.now }
    ensures glyphs { result.glyphs.now ≡ glyphs.now }
{
    Question {
        query,
        families,
        table,
        glyphs,
    }
}

// How many records and hits; or a refusal, which leaves both rows as they were. Refusals in their order: 1, 2, 14, 12, the stream's, 13.
pub fn find(
    s: &[u8],
    list: &[u8],
    fl: &[u8],
    q: &[u8],
    records: &mut [Record],
    hits: &mut [u32],
) -> Result<Finding, Refusal>
    ensures { FindCall s.now list.now fl.now q.now records.old hits.old result records.new hits.new }
{
    find_ask::in_size(fl, q)?;
    let mut ws = read_scratch::room();
    let a = find_setup::start(&mut ws, s, list)?;
    let mut table = Table {
        names: [NO_NAME; 2048],
        sizes: [0; 256],
    };
    let mut glyphs = [NO_GLYPH; 64];
    let count = find_ask::ask(&mut glyphs, &mut table, fl, q)?;
    let question = posed(q, fl, &table, &glyphs[..count]);
    let mut none = [NO_ENTRY; 1];
    let b = read_pass::pass(records, &mut none, &mut ws, s, list, a);
    find_room::room(s, &question, b, hits.len())?;
    let c = find_setup::again(&mut ws, b, s.len(), records.len())?;
    let d = read_pass::pass(records, &mut none, &mut ws, s, list, c);
    let from = find_setup::progress(d, count, hits.len());
    let e = find_search::search(hits, records, s, &question, from);
    Ok(Finding {
        records: d.records,
        hits: e.hits,
    })
}
