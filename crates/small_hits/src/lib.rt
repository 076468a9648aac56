// The lines about the hits of a query, and the row of hits printed.
#![tactic(auto)]

use rules::{Finding, Refusal};
use small_text::write_refusal;
use std::io;
use std::io::Write;

// `hit NUMBER` for each of the first n hits of the row, as far as it has them.
pub fn print_hits(out: &mut impl Write, row: &[u32], n: usize) -> io::Result<()> {
    for hit in row.iter().take(n) {
        writeln!(out, "hit {hit}")?;
    }
    Ok(())
}

// `found RECORDS HITS`, or `refused NUMBER OFFSET`
pub fn last_line(out: &mut impl Write, answer: Result<Finding, Refusal>) -> io::Result<()> {
    match answer {
        Ok(Finding { records, hits }) => writeln!(out, "found {records} {hits}"),
        Err(refusal) => write_refusal(out, refusal),
    }
}
