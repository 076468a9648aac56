// How many hits a query has in a stream that was judged: what must be known before a row is written, where the row of hits may be too
// small. The records are read off the stream's commands, with no environment.
#![tactic(auto)]

ghost use Rattle.std.specs.Prelude.{◌≡◌, ◌<◌, ◌≤◌, length, map, Some};
ghost use Rattle.rules.specs.Find.{occurs, hits_from};
ghost use Rattle.find_match.specs.Match.{key_in, glyphs_of};
ghost use Rattle.find_outline.specs.Move.{standing, move_of};
ghost use Rattle.find_keys.specs.Keys.{keys_at, Fair};
ghost use Rattle.find_count.specs.Count.{seen_from, GoesOn, Nearer};

use find_match::{Key, Question};
use find_outline::{Moved, Outline};

// A record of the stream: its key, and where the outline goes on.
#[derive(Clone, Copy)]
struct Found {
    key: Key,
    on: Outline,
}

// One byte of a word, whitespace, a comment or a command. Behind a command that is refused nothing stands.
#[tactic(auto, using(crate::proofs::Steps::step_laws))]
fn step(s: &[u8], o: Outline) -> Moved
    requires { Fair (length s.now) o × (o.at < length s.now) }
    ensures { result ≡ move_of s.now o }
{
    if let Some(word) = o.word {
        return o.word_move(word);
    }
    let next = scan_lex::blank_end(s, o.at);
    if o.at < next {
        return o.passed(next);
    }
    match scan::scan(s, o.at) {
        Ok(c) => o.command_move(c),
        Err(_) => o.passed(s.len()),
    }
}

// The next record from there on, if there is one.
#[tactic(auto, using(crate::proofs::Counting::nexting))]
fn next_record(s: &[u8], o: Outline) -> Option<Found>
    requires { Fair (length s.now) o }
    ensures seen { seen_from s.now result ≡ map (key_in s.now) (keys_at s.now o) }
    ensures goes_on { GoesOn s.now result }
    ensures nearer { Nearer s.now o result }
{
    let mut on = o;
    while on.at < s.len() {
        let m = step(s, on);
        if let Some(key) = m.key {
            return Some(Found { key, on: m.on });
        }
        on = m.on;
    }
    None
}

// Whether the glyphs of the query stand at a record, on its page.
#[tactic(auto, using(crate::proofs::Counting::goings))]
fn occurs_at(s: &[u8], question: &Question<'_>, first: Found) -> bool
    requires { Fair (length s.now) first.on }
    ensures { result ≡ occurs (glyphs_of question.now) (seen_from s.now (Some first)) }
{
    let page = first.key.ordinal;
    let mut found = Some(first);
    for j in 0..question.glyphs.len() {
        match found {
            Some(r) if question.fits(s, j, page, r.key) => found = next_record(s, r.on),
            _ => return false,
        }
    }
    true
}

// How many hits there are.
#[tactic(auto, using(crate::proofs::Counting::countings))]
pub fn count(s: &[u8], question: &Question<'_>) -> usize
    requires { length s.now ≤ 16777216 }
    ensures { result ≡ length (hits_from (glyphs_of question.now) 0 (map (key_in s.now) (keys_at s.now (standing 0 0 0)))) }
{
    let mut n = 0;
    let mut on = find_outline::standing(0, 0, 0);
    while let Some(r) = next_record(s, on) {
        n += usize::from(occurs_at(s, question, r));
        on = r.on;
    }
    n
}
