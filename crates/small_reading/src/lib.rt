// The rows, in locals: read into, and printed row by row.
#![tactic(auto)]

use rules::{Entry, Reading, Record, Refusal};
use small_out::Printing;
use small_print::print_row;
use small_program::Shown;
use small_record::last_line;
use small_row::{no_entry, no_record};
use std::io;
use std::io::Write;

// Prints the answer to a stream and its width list: every record, every entry and the end, or the refusal.
pub fn show(to: &impl Print, s: &[u8], list: &[u8]) -> Shown<Reading> {
    let mut records = [no_record(); 65536];
    let mut entries = [no_entry(); 65536];
    let answer = read::read(s, list, &mut records, &mut entries);
    let good = print(to, s, &records, &entries, answer);
    Shown { answer, good }
}

fn print(
    to: &impl Print,
    s: &[u8],
    records: &[Record],
    entries: &[Entry],
    answer: Result<Reading, Refusal>,
) -> io::Result<()> {
    let mut out = Printing::new(to);
    if let Ok(reading) = answer {
        print_row(&mut out, records, s, reading.records)?;
        print_row(&mut out, entries, s, reading.entries)?;
    }
    last_line(&mut out, answer)?;
    out.flush()
}
