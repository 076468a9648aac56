// What one line of the query is, by what may stand there: a glyph or a gap, or it is wrong (document 01, "Finding").
#![tactic(auto)]

ghost use Rattle.std.specs.Prelude.{◌≡◌};
ghost use Rattle.rules.specs.Find.{gap_of};
ghost use Rattle.query_line.specs.Kinds.{gap_asked, expected_of, glyph_kind, gap_kind, kind_of};

// What a glyph of the query asks of the gap mark: nothing, that it is not set, that it is.
#[derive(Clone, Copy)]
pub enum Gap {
    Either,
    Absent,
    Present,
}

// What may stand next: the first glyph line; a glyph line, the gap line before it standing at a place; either of them.
#[derive(Clone, Copy)]
pub enum Due {
    First,
    Glyph { gap: usize },
    Either,
}

impl Due {
    // What a glyph line there asks of the gap mark.
    pub fn gap(self) -> Gap
        ensures { gap_asked result ≡ gap_of (expected_of self) }
    {
        match self {
            Due::First => Gap::Either,
            Due::Glyph { .. } => Gap::Present,
            Due::Either => Gap::Absent,
        }
    }
}

// What a line of the query is.
#[derive(Clone, Copy)]
pub enum Kind {
    Glyph,
    Gap,
}

// A line with the key `glyph=` and this name, behind so many glyph lines.
fn glyph_kind(name: &[u8], glyphs: usize) -> Option<Kind>
    ensures { result ≡ glyph_kind glyphs name.now }
{
    (glyphs < 64 && scan_lex::is_list_name(name)).then_some(Kind::Glyph)
}

// A line without that key.
fn gap_kind(t: &[u8], due: Due) -> Option<Kind>
    ensures { result ≡ gap_kind (expected_of due) t.now }
{
    (matches!(due, Due::Either) && scan_lex::same_bytes(t, b"gap=any")).then_some(Kind::Gap)
}

// What the line with the bytes t is; none where it is wrong.
#[tactic(auto, using(crate::proofs::Keys::behind_by))]
pub fn kind_of(t: &[u8], due: Due, glyphs: usize) -> Option<Kind>
    ensures { result ≡ kind_of glyphs (expected_of due) t.now }
{
    match t.strip_prefix(b"glyph=") {
        Some(name) => glyph_kind(name, glyphs),
        None => gap_kind(t, due),
    }
}
