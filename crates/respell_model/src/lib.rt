// The rewriter: one pass over the stream, run twice, first to measure the spelling and then to write it. Here stand its types; what
// is written for a command, and what a turn and a pass do, is defined in specs/, and proofs/ shows that it is the house spelling. The
// code stands in the crates above, from respell_bytes to respell.
#![tactic(auto)]

use read_model::State;

// Where the writing stands: the place of the next byte, and where a reader of the spelling so far is, moved up.
#[derive(Clone, Copy)]
pub struct Mark {
    pub at: usize,
    pub h: u32,
    pub v: u32,
}

// Where a reader of the spelling is, moved up.
#[derive(Clone, Copy)]
pub struct Pen {
    pub h: u32,
    pub v: u32,
}

// How a command is written: behind `H` and `V` to the position before it, or to the one behind it (two digits); as it stands; as it
// stands, and v is 0 behind it; not at all; or as a word, glyph by glyph.
#[derive(Clone, Copy)]
pub enum Manner {
    Anchored,
    Shifted,
    Floating,
    Turning,
    Moving,
    Lettered {
        track: u32,
        place: usize,
        end: usize,
    },
}

// Where a pass stands, and where the writing stands.
#[derive(Clone, Copy)]
pub struct Writing {
    pub state: State,
    pub mark: Mark,
}
