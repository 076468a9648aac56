// What the reader writes to the lent rows for a word: its records, one by one.
#![tactic(auto)]

ghost use Rattle.std.specs.Prelude.{◌≡◌, length};
ghost use Rattle.read_model.specs.Passes.{word_fill};
ghost use Rattle.read_rows.specs.Words.{WordIn};

use read_model::Word;
use rules::Record;

// The records of a word go to the row from k on.
pub fn fill_word(row: &mut [Record], s: &[u8], ws: &[u32], k: usize, w: Word)
    requires { WordIn s.now ws.now (length row.old) k w }
    ensures { row.new ≡ word_fill w.left s.now ws.now k w row.old }
{
    let mut d = w;
    for i in k..k + w.left {
        let x = read_word::word_step(s, ws, d);
        rowkit::put(row, i, x.row);
        d = x.next;
    }
}
