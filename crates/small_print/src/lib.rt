// A row printed, a line for each place that is filled.
#![tactic(auto)]

use small_record::Line;
use std::io;
use std::io::Write;

// The first n of the row, as far as it has them, read of s.
pub fn print_row<L: Line>(out: &mut impl Write, row: &[L], s: &[u8], n: usize) -> io::Result<()> {
    for line in row.iter().take(n) {
        line.put(out, s)?;
    }
    Ok(())
}
