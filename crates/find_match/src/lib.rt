// Whether a record is the glyph that the query wants, and why not (document 01, "Finding").
#![tactic(auto)]

ghost use Rattle.std.specs.Prelude.{◌≡◌, ◌<◌, length};
ghost use Rattle.rules.specs.Find.{same_name, passes, gap_test, glyph_test};
ghost use Rattle.query_line.specs.Kinds.{gap_asked};
ghost use Rattle.find_match.specs.Match.{key_in, record_key, sought_in, sought_at, tested};

use families_table::Table;
use query_line::Gap;
use rules::Record;

// What finding looks at in a record, its name by its place.
#[derive(Clone, Copy)]
pub struct Key {
    pub ordinal: u32,
    pub gap: u32,
    pub place: usize,
    pub len: usize,
}

impl From<Record> for Key {
    ghost from_gives = { λ r k. k ≡ record_key r };

    fn from(r: Record) -> Key {
        Key {
            ordinal: r.ordinal,
            gap: r.gap,
            place: r.place as usize,
            len: r.len as usize,
        }
    }
}

// A glyph of the query: its name by its place in the query, what it asks of the gap mark, and its name's family by its number.
#[derive(Clone, Copy)]
pub struct Sought {
    pub place: u32,
    pub len: u32,
    pub gap: Gap,
    pub family: Option<usize>,
}

// A query that was judged, with the family list: its glyphs, and the families in their table.
#[derive(Clone, Copy)]
pub struct Question<'a> {
    pub query: &'a [u8],
    pub families: &'a [u8],
    pub table: &'a Table,
    pub glyphs: &'a [Sought],
}

// The first test that a record fails.
#[derive(Clone, Copy)]
pub enum Mismatch {
    OtherPage,
    OtherName,
    GapPresent,
    GapAbsent,
}

// The gap mark against what the glyph asks of it.
fn gap_test(asked: Gap, gap: u32) -> Result<(), Mismatch>
    ensures { result ≡ tested (gap_test (gap_asked asked) gap) }
{
    match asked {
        Gap::Absent if gap != 0 => Err(Mismatch::GapPresent),
        Gap::Present if gap == 0 => Err(Mismatch::GapAbsent),
        _ => Ok(()),
    }
}

impl Question<'_> {
    // Whether a record's own name, a part of the stream, matches the name of a glyph: it is that name, or one of its family.
    #[tactic(auto, unfolding(rules::specs::Families::is_in))]
    fn is_named(&self, own: &[u8], glyph: &Sought) -> bool
        ensures { result ≡ same_name own.now (sought_in self.now glyph.now) }
    {
        let wanted = name::name_at(self.query, glyph.place as usize, glyph.len as usize);
        if scan_lex::same_bytes(own, wanted) {
            return true;
        }
        match glyph.family {
            Some(k) => families_table::is_kin(self.families, self.table, k, own),
            None => false,
        }
    }

    // The test of the glyph numbered j, the first glyph's record being on a page: page, name, gap.
    pub fn test(&self, s: &[u8], j: usize, page: u32, key: Key) -> Result<(), Mismatch>
        requires { j < length self.now.glyphs.now }
        ensures { result ≡ tested (glyph_test page (sought_at self.now j) (key_in s.now key)) }
    {
        if key.ordinal != page {
            return Err(Mismatch::OtherPage);
        }
        let glyph = &self.glyphs[j];
        if self.is_named(name::name_at(s, key.place, key.len), glyph) {
            gap_test(glyph.gap, key.gap)
        } else {
            Err(Mismatch::OtherName)
        }
    }

    // Whether a record is the glyph numbered j, the first one being on a page.
    pub fn fits(&self, s: &[u8], j: usize, page: u32, key: Key) -> bool
        requires { j < length self.now.glyphs.now }
        ensures { result ≡ passes (glyph_test page (sought_at self.now j) (key_in s.now key)) }
    {
        self.test(s, j, page, key).is_ok()
    }
}
