// The reader: a stream with its width list, and two lent rows (document 01). One pass judges the stream, and where nothing
// is against it a second one fills the rows.
#![tactic(auto)]

ghost use Rattle.rules.specs.Calls.{ReadCall};

use rules::{Entry, Reading, Record, Refusal};

// The numbers of records, entries and pages, the end position and both colours; or a refusal, which leaves both rows as they were.
pub fn read(
    s: &[u8],
    list: &[u8],
    records: &mut [Record],
    entries: &mut [Entry],
) -> Result<Reading, Refusal>
    ensures { ReadCall s.now list.now records.old entries.old result records.new entries.new }
{
    let mut ws = read_scratch::room();
    let a = read_setup::start(&mut ws, s, list);
    let b = read_pass::pass(records, entries, &mut ws, s, list, a);
    let c = read_setup::again(&mut ws, b, s.len(), records.len(), entries.len(), 1);
    let d = read_pass::pass(records, entries, &mut ws, s, list, c);
    read_setup::answer(d)
}
