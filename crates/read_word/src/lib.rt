// A word's command: the widths of its bytes, where it ends, and its records one by one (document 01, "Commands of one letter"; refusals 7
// to 10).
#![tactic(auto)]

ghost use Rattle.std.specs.Prelude.{◌≡◌, ◌+◌, ◌-◌, ◌*◌, ◌≤◌, ◌<◌, get_or};
ghost use Rattle.rules.specs.Bytes.{origin};
ghost use Rattle.read_model.specs.Environment.{on_page_or};
ghost use Rattle.read_model.specs.Words.{entry_at, all_wide, word_end, word_record, word_here, word_to, word_set, word_on};
ghost use Rattle.read_model.specs.Turns.{block_now};
ghost use Rattle.read_environment.specs.Bounds.{Fits};
ghost use Rattle.read_word.specs.Bounds.{Small, Tracked, WordFits, Goes};
ghost use Rattle.read_word.specs.Parts.{step_to, next_word, spelt_of};

use read_environment::{asked, doing, gone, lack, placed, shown, value_at};
use read_model::{Did, Emitted, Environment, Word};
use rules::{Record, Refusal};

// What a word gives for its next byte: the record, and what is left of the word.
#[derive(Clone, Copy)]
pub struct Spelt {
    pub row: Record,
    pub next: Word,
}

// What the block holds for the byte at a place: 0 for no width, else the width + 1.
fn entry_at(s: &[u8], ws: &[u32], block: usize, at: usize) -> u32
    requires { block ≤ 100001 }
    ensures { result ≡ entry_at ws.now block (get_or s.now at 0) }
{
    let b = scan_lex::byte_at(s, at);
    value_at(ws, block * 256 + (b as usize))
}

// Whether n bytes from a place on have widths.
fn all_wide(s: &[u8], ws: &[u32], n: usize, block: usize, at: usize) -> bool
    requires { (block ≤ 100001) × (at + n ≤ 16777216) }
    ensures { result ≡ all_wide n s.now ws.now block at }
{
    for i in at..at + n {
        if entry_at(s, ws, block, i) == 0 {
            return false;
        }
    }
    true
}

// h behind the next byte, where it stays within the limit.
fn step_h(s: &[u8], ws: &[u32], d: Word) -> Option<u32>
    requires { WordFits d × Small ws.now }
    ensures { result ≡ step_to s.now ws.now d }
{
    let w = entry_at(s, ws, d.block, d.at).saturating_sub(1);
    let a = widths_advance::advance(w, d.size, d.unitwidth, d.quantum);
    gone(100_000_000, (d.h as u64) + (a + (d.track as u64)))
}

// The word behind its next byte.
fn next_word(d: Word, h: u32) -> Word
    requires { WordFits d × (0 < d.left) }
    ensures { result ≡ next_word d h }
{
    Word {
        left: d.left - 1,
        at: d.at + 1,
        h,
        gap: 0,
        ..d
    }
}

// h behind the word, where it stays within the limit. What is left of the word is what counts: a `for` would count beside it.
fn word_end(s: &[u8], ws: &[u32], w: Word) -> Option<u32>
    requires { WordFits w × Small ws.now }
    ensures { result ≡ word_end w.left s.now ws.now w }
{
    let mut d = w;
    while 0 < d.left {
        let h = step_h(s, ws, d)?;
        d = next_word(d, h);
    }
    Some(d.h)
}

fn word_record(d: Word) -> Record
    requires { WordFits d }
    ensures { result ≡ word_record d }
{
    Record {
        ordinal: d.ordinal,
        page: shown(d.number),
        h: shown(d.h),
        v: shown(d.v),
        font: d.font,
        size: d.size,
        place: d.at as u32,
        len: 1,
        index: 0,
        gap: d.gap,
    }
}

// The record of the next byte, and what is left behind it, where that stays within the limit.
pub fn word_step(s: &[u8], ws: &[u32], d: Word) -> Spelt
    requires { WordFits d × Small ws.now × Goes s.now ws.now d }
    ensures { result ≡ spelt_of s.now ws.now d }
{
    let row = word_record(d);
    let h = step_h(s, ws, d).unwrap();
    let next = next_word(d, h);
    Spelt { row, next }
}

pub fn word_here(
    e: Environment,
    unitwidth: u32,
    track: u32,
    n: usize,
    at: usize,
    block: usize,
) -> Word
    requires fits { Fits e × (1 ≤ unitwidth) × (unitwidth ≤ 100000) × (track < 2 * origin) }
    requires n_bound { (at + n ≤ 16777216) × (block ≤ 100001) }
    ensures { (result ≡ word_here e unitwidth track n at block) × WordFits result }
{
    Word {
        left: n,
        at,
        block,
        h: e.h,
        v: e.v,
        ordinal: e.ordinal,
        number: e.number,
        font: e.font.saturating_sub(1),
        size: e.size,
        gap: e.gap,
        track,
        unitwidth,
        quantum: e.quantum,
    }
}

// Behind a word that ends at h.
fn word_to(e: Environment, at: usize, d: Word, h: Option<u32>) -> Result<Did, Refusal>
    ensures { result ≡ word_to e at d h }
{
    let x = placed(h, at)?;
    doing(Environment { h: x, gap: 0, ..e }, Emitted::Word(d))
}

// The block of the font mounted at the current position.
pub fn block_now(ws: &[u32], e: Environment) -> usize
    ensures { result ≡ block_now ws.now e }
{
    let i = e.font.saturating_sub(1);
    value_at(ws, i as usize) as usize
}

// A word where a font and a size are there: 9 where a byte has no width, 10 where it goes beyond the limit.
fn word_set(
    s: &[u8],
    ws: &[u32],
    u: u32,
    e: Environment,
    at: usize,
    track: u32,
    place: usize,
    end: usize,
) -> Result<Did, Refusal>
    requires fits { Fits e × Tracked track place end × Small ws.now }
    requires le_u { (1 ≤ u) × (u ≤ 100000) }
    ensures { result ≡ word_set s.now ws.now e at u track (end - place) place (block_now ws.now e) }
{
    let n = end - place;
    let block = block_now(ws, e);
    asked(all_wide(s, ws, n, block, place), 9, at)?;
    let d = word_here(e, u, track, n, place, block);
    let h = word_end(s, ws, d);
    word_to(e, at, d, h)
}

// `t`, `u`: the command begins at a place, its word at another.
pub fn word_on(
    s: &[u8],
    ws: &[u32],
    u: u32,
    e: Environment,
    at: usize,
    track: u32,
    place: usize,
    end: usize,
) -> Result<Did, Refusal>
    requires fits { Fits e × Tracked track place end × Small ws.now }
    requires le_u { (1 ≤ u) × (u ≤ 100000) }
    ensures { result ≡ on_page_or e at (word_on s.now ws.now e at u track (end - place) place (block_now ws.now e)) }
{
    lack(e, at)?;
    word_set(s, ws, u, e, at, track, place, end)
}
