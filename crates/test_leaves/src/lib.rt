// The leaves, exported for tests from Rust: one command of a stream, the width list and the query, judged. Not for the department:
// its routines are the reader, the rewriter and the finder.
#![tactic(auto)]

ghost use Rattle.std.specs.Prelude.{◌≡◌};
ghost use Rattle.test_codes.specs.Codes.{code};
ghost use Rattle.test_leaves.specs.Codes.{code_at, list_code, query_code};

use test_codes::{Code, coded, scanned_code};
use widths_table::Block;

// Nothing was judged.
fn nothing() -> Code
    ensures { result ≡ code 0 0 0 0 0 0 0 }
{
    coded(0, 0, 0, 0, 0, 0, 0)
}

// The command at a place; case 0 where no byte stands there.
#[unsafe(no_mangle)]
pub extern "C" fn mrkvandel_command(s: &[u8], at: usize) -> Code
    ensures { result ≡ code_at s.now at }
{
    if at < s.len() {
        scanned_code(scan::scan(s, at))
    } else {
        nothing()
    }
}

// The width list, judged; case 0 where it is over 65,536 bytes.
#[unsafe(no_mangle)]
pub extern "C" fn mrkvandel_list(list: &[u8]) -> Code
    ensures { result ≡ list_code list.now }
{
    if 65536 < list.len() {
        return nothing();
    }
    let mut table = [Block::EMPTY; 32];
    match widths::load(list, &mut table) {
        Err(r) => coded(1, r.offset as u64, 0, 0, 0, 0, 0),
        Ok(sound) => coded(2, sound.unitwidth as u64, sound.fonts as u64, 0, 0, 0, 0),
    }
}

// The query, judged; case 0 where it is over 8,192 bytes.
#[unsafe(no_mangle)]
pub extern "C" fn mrkvandel_query(q: &[u8]) -> Code
    ensures { result ≡ query_code q.now }
{
    if 8192 < q.len() {
        return nothing();
    }
    let mut glyphs = [query::no_glyph(); 64];
    match query::load(q, &mut glyphs) {
        Err(r) => coded(1, r.offset as u64, 0, 0, 0, 0, 0),
        Ok(count) => coded(2, count as u64, 0, 0, 0, 0, 0),
    }
}
