// The rows, in locals: filled by the finder, and the hits printed one by one.
#![tactic(auto)]

ghost use Rattle.std.specs.Prelude.{[], ◌≡◌, length};
ghost use Rattle.rules.specs.Answers.{find_into, finding_of, hits_over};

use rules::{Finding, Refusal};
use small_hits::{last_line, print_hits};
use small_out::Printing;
use small_program::Shown;
use small_row::no_record;
use std::io;
use std::io::Write;

// Prints the answer to a stream, its width list and a query, with no families: every hit and how many there are, or the refusal.
pub fn show(to: &impl Print, s: &[u8], list: &[u8], q: &[u8]) -> Shown<Finding>
    ensures { result.answer ≡ finding_of (find_into 65536 65536 s.now list.now [] q.now) }
{
    let mut hits = [0u32; 65536];
    let answer = fill(s, list, b"", q, &mut hits);
    let good = print(to, &hits, answer);
    Shown { answer, good }
}

fn print(to: &impl Print, hits: &[u32], answer: Result<Finding, Refusal>) -> io::Result<()> {
    let mut out = Printing::new(to);
    if let Ok(found) = answer {
        print_hits(&mut out, hits, found.hits)?;
    }
    last_line(&mut out, answer)?;
    out.flush()
}

// The finder, with a row of 65,536 records of its own.
fn fill(s: &[u8], list: &[u8], fl: &[u8], q: &[u8], hits: &mut [u32]) -> Result<Finding, Refusal>
    ensures answer { result ≡ finding_of (find_into 65536 (length hits.old) s.now list.now fl.now q.now) }
    ensures hits { hits.new ≡ hits_over hits.old (find_into 65536 (length hits.old) s.now list.now fl.now q.now) }
{
    let mut records = [no_record(); 65536];
    find::find(s, list, fl, q, &mut records, hits)
}
