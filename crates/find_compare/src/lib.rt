// One comparison of a search: a record with a glyph of the query, and where the search stands behind it.
#![tactic(auto)]

ghost use Rattle.std.specs.Prelude.{◌≡◌, ◌<◌, ◌≤◌, length};
ghost use Rattle.find_compare.specs.Compare.{next_record, next_glyph, page_of, fits_at, passed, hit_at, fitted, feed_of, SearchGood};

use find_match::{Key, Question};
use rules::Record;

// Where the search stands. `left` is 0 once it is done; the record that is asked, how many glyphs of the query were found at it, and
// the page of the first one; how many hits there are, and the room for them.
#[derive(Clone, Copy)]
pub struct Progress {
    pub left: usize,
    pub at: usize,
    pub glyph: usize,
    pub hits: usize,
    pub hmax: usize,
    pub records: usize,
    pub glyphs: usize,
    pub page: u32,
}

// What a turn gives to the row of hits, the number of a record or nothing, and where the search stands behind it.
#[derive(Clone, Copy)]
pub struct Fed {
    pub hit: Option<u32>,
    pub state: Progress,
}

impl Progress {
    fn next_record(self, hits: usize) -> Progress
        requires { (self.at < self.records) × (self.records ≤ 16777216) }
        ensures { result ≡ next_record self hits }
    {
        let at = self.at + 1;
        Progress {
            left: (self.records - at) * 64,
            at,
            glyph: 0,
            hits,
            ..self
        }
    }

    fn next_glyph(self, page: u32) -> Progress
        requires { (self.at < self.records) × (self.records ≤ 16777216) × (self.glyph < 64) }
        ensures { result ≡ next_glyph self page }
    {
        let glyph = self.glyph + 1;
        let all = (self.records - self.at) * 64;
        Progress {
            left: all - glyph,
            glyph,
            page,
            ..self
        }
    }

    fn passed(self) -> Fed
        requires { (self.at < self.records) × (self.records ≤ 16777216) }
        ensures { result ≡ passed self }
    {
        Fed {
            hit: None,
            state: self.next_record(self.hits),
        }
    }

    // A hit at the record. The row has room for every hit, since they were counted before; that is not known here, so it is tested.
    fn hit(self) -> Fed
        requires { (self.at < self.records) × (self.records ≤ 16777216) }
        ensures { result ≡ hit_at self }
    {
        if self.hits < self.hmax {
            Fed {
                hit: Some(self.at as u32),
                state: self.next_record(self.hits + 1),
            }
        } else {
            self.passed()
        }
    }

    // Behind a glyph that fits: the last one, another one, or the records end.
    fn fitted(self, page: u32) -> Fed
        requires { SearchGood self }
        ensures { result ≡ fitted self page }
    {
        if self.glyph + 1 == self.glyphs {
            return self.hit();
        }
        if self.at + self.glyph + 1 < self.records {
            return Fed {
                hit: None,
                state: self.next_glyph(page),
            };
        }
        self.passed()
    }

    fn page_of(self, r: Record) -> u32
        ensures { result ≡ page_of self r }
    {
        if self.glyph == 0 {
            r.ordinal
        } else {
            self.page
        }
    }

    // Whether the record is the glyph that is wanted.
    fn fits(self, s: &[u8], question: &Question<'_>, r: Record) -> bool
        requires { self.glyph < length question.now.glyphs.now }
        ensures { result ≡ fits_at s.now question.now self r }
    {
        question.fits(s, self.glyph, self.page_of(r), Key::from(r))
    }

    // One comparison.
    #[tactic(auto, unfolding(crate::specs::Compare::feed_of))]
    pub fn feed(self, s: &[u8], question: &Question<'_>, r: Record) -> Fed
        requires { (self.glyphs ≤ length question.now.glyphs.now) × SearchGood self }
        ensures { result ≡ feed_of s.now question.now self r }
    {
        let fit = self.fits(s, question, r);
        if fit {
            self.fitted(self.page_of(r))
        } else {
            self.passed()
        }
    }
}
