// What the reader, the finder, the rewriter, the judging and the first name answer to C, as flat structs, each made `From` the routine's
// answer. C has no `Result` and no enum with fields, and each struct's fields stand in the header's order (include/mrkvandel.h), so they
// share none.
#![tactic(auto)]

ghost use Rattle.std.specs.Prelude.{◌≡◌};
ghost use Rattle.capi_answers.specs.Flat.{flat_reading, flat_finding, flat_respelling, flat_judging, flat_part};

use rules::{Colour, Finding, Judging, NamePart, Reading, Refusal};

// The default scheme, `d`: both colours of a refused stream.
const DEFAULT: Colour = Colour {
    scheme: b'd' as u32,
    parts: [0; 4],
};

// The reader's answer. `refusal` is 0 where nothing is refused, else its number, with the offset; 80 bytes.
#[repr(C)]
#[derive(Clone, Copy)]
pub struct ReadResult {
    pub offset: usize,
    pub records: usize,
    pub entries: usize,
    pub refusal: u32,
    pub pages: u32,
    pub h: i32,
    pub v: i32,
    pub glyph: Colour,
    pub fill: Colour,
}

impl From<Result<Reading, Refusal>> for ReadResult {
    ghost from_gives = { λ a r. r ≡ flat_reading a };

    fn from(answer: Result<Reading, Refusal>) -> ReadResult {
        match answer {
            Ok(r) => ReadResult {
                offset: 0,
                records: r.records,
                entries: r.entries,
                refusal: 0,
                pages: r.pages,
                h: r.h,
                v: r.v,
                glyph: r.glyph,
                fill: r.fill,
            },
            Err(r) => ReadResult {
                offset: r.offset,
                records: 0,
                entries: 0,
                refusal: r.number,
                pages: 0,
                h: 0,
                v: 0,
                glyph: DEFAULT,
                fill: DEFAULT,
            },
        }
    }
}

// The finder's answer. `refusal` is 0 where nothing is refused, else its number, with the offset; 32 bytes.
#[repr(C)]
#[derive(Clone, Copy)]
pub struct FindResult {
    pub offset: usize,
    pub records: usize,
    pub hits: usize,
    pub refusal: u32,
}

impl From<Result<Finding, Refusal>> for FindResult {
    ghost from_gives = { λ a r. r ≡ flat_finding a };

    fn from(answer: Result<Finding, Refusal>) -> FindResult {
        match answer {
            Ok(Finding { records, hits }) => FindResult {
                offset: 0,
                records,
                hits,
                refusal: 0,
            },
            Err(Refusal { number, offset }) => FindResult {
                offset,
                records: 0,
                hits: 0,
                refusal: number,
            },
        }
    }
}

// The rewriter's answer. `refusal` is 0 where nothing is refused, else its number, with the offset; 24 bytes.
#[repr(C)]
#[derive(Clone, Copy)]
pub struct RespellResult {
    pub offset: usize,
    pub len: usize,
    pub refusal: u32,
}

impl From<Result<usize, Refusal>> for RespellResult {
    ghost from_gives = { λ a r. r ≡ flat_respelling a };

    fn from(answer: Result<usize, Refusal>) -> RespellResult {
        match answer {
            Ok(len) => RespellResult {
                offset: 0,
                len,
                refusal: 0,
            },
            Err(Refusal { number, offset }) => RespellResult {
                offset,
                len: 0,
                refusal: number,
            },
        }
    }
}

// What a judging answers. `refusal` is 0 where nothing is refused, else its number, with the offset; 40 bytes.
#[repr(C)]
#[derive(Clone, Copy)]
pub struct JudgeResult {
    pub offset: usize,
    pub records: usize,
    pub entries: usize,
    pub spelling: usize,
    pub refusal: u32,
    pub pages: u32,
}

impl From<Result<Judging, Refusal>> for JudgeResult {
    ghost from_gives = { λ a r. r ≡ flat_judging a };

    fn from(answer: Result<Judging, Refusal>) -> JudgeResult {
        match answer {
            Ok(
                Judging {
                    records,
                    entries,
                    pages,
                    spelling,
                },
            ) => JudgeResult {
                offset: 0,
                records,
                entries,
                spelling,
                refusal: 0,
                pages,
            },
            Err(Refusal { number, offset }) => JudgeResult {
                offset,
                records: 0,
                entries: 0,
                spelling: 0,
                refusal: number,
                pages: 0,
            },
        }
    }
}

// Where a first name stands. `source` is 0 for nowhere, with place and length 0, 1 for the stream, 2 for the family list; 24 bytes.
#[repr(C)]
#[derive(Clone, Copy)]
pub struct FirstNameResult {
    pub place: usize,
    pub len: usize,
    pub source: u32,
}

impl From<NamePart> for FirstNameResult {
    ghost from_gives = { λ p r. r ≡ flat_part p };

    fn from(part: NamePart) -> FirstNameResult {
        match part {
            NamePart::Nowhere => FirstNameResult {
                place: 0,
                len: 0,
                source: 0,
            },
            NamePart::InStream { place, len } => FirstNameResult {
                place,
                len,
                source: 1,
            },
            NamePart::InFamilies { place, len } => FirstNameResult {
                place,
                len,
                source: 2,
            },
        }
    }
}
