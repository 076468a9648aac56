// The line for people about a refusal, on standard error.
#![tactic(auto)]

use rules::Refusal;
use small_files::LIST_ROOM;
use small_out::say;

// A file that was read: its path and its bytes.
#[derive(Clone, Copy)]
pub struct Source<'a> {
    pub path: &'a [u8],
    pub bytes: &'a [u8],
}

// A refusal of a stream with its width list: the line is about the list where that is wrong or too long.
pub fn refused_either(err: &impl Print, stream: Source, widths: Source, refusal: Refusal) {
    let is_of_list = match refusal.number {
        1 => widths.bytes.len() == LIST_ROOM,
        2 => true,
        _ => false,
    };
    refused(err, if is_of_list { widths } else { stream }, refusal);
}

// `PATH: line L, column C: REASON`, of an offset in the file's bytes.
pub fn refused(err: &impl Print, file: Source, refusal: Refusal) {
    let end = refusal.offset.min(file.bytes.len());
    let before = &file.bytes[..end];
    let (line, column) = (line_behind(before), column_behind(before));
    say(err, file.path);
    let _ = println!(err;
        ": line {line}, column {column}: {}",
        reason(refusal.number)
    );
}

// The line of the place behind these bytes, counted from 1.
fn line_behind(before: &[u8]) -> usize {
    1 + before.iter().filter(|byte| **byte == b'\n').count()
}

// The column of that place within its line, counted from 1.
fn column_behind(before: &[u8]) -> usize {
    1 + before
        .iter()
        .rev()
        .take_while(|byte| **byte != b'\n')
        .count()
}

// The reason in words, after the table of document 01, and document 02 for 16.
fn reason(number: u32) -> &'static str {
    match number {
        1 => "the stream is over 16,777,216 bytes, the list over 65,536 or the query over 8,192",
        2 => "wrong or missing line in the width list",
        3 => "unknown command, `D`, `DF`, `m` or `x` letter, or none",
        4 => "argument missing or malformed, or none or an odd number for `Dp`, `DP`, `D~`",
        5 => "other bytes before the line break of `D` or `x`",
        6 => "number, count, name or text outside its limit",
        7 => "out of order: prologue, first `p` or `x s`",
        8 => "`f` to an unmounted position, or a glyph or `N` without current font and size",
        9 => "no width for a byte of `t` or `u`",
        10 => "h or v beyond 99,999,999",
        11 => "no `x s`",
        12 => "wrong line in the query, or an empty query",
        13 =>
            "records, entries, hits or spelling need more room than lent, or the spelling is over 16,777,216 bytes",
        16 => "byte 0 to 8, 11 to 31 or 127 in a name, a glyph or a word",
        _ => "unknown refusal",
    }
}
