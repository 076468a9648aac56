// The table of widths: the fonts of a width list, with their names and widths, as the code holds them, and what such a table, or the
// reader's scratch row, says of the rules' fonts. No functions.
#![tactic(auto)]

// The name of a font: its place and length in the list.
#[derive(Clone, Copy)]
pub struct FontName {
    pub place: u32,
    pub len: u32,
}

// A font: its name, and of each byte the width + 1, 0 for none (an `Option<u32>` for each would take twice the memory).
#[derive(Clone, Copy)]
pub struct Block {
    pub name: FontName,
    pub widths: [u32; 256],
}

impl Block {
    pub const EMPTY: Block = Block {
        name: FontName { place: 0, len: 0 },
        widths: [0; 256],
    };
}

// The fonts by their slots, the numbers in the list.
pub type Table = [Block; 32];
