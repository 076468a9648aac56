// The scratch row: made from the width list, and cleared. It stays one row of numbers, as the definitions of a reading's state speak of it.
#![tactic(auto)]

ghost use Rattle.std.specs.Prelude.{◌≡◌, ◌≤◌, length};
ghost use Rattle.rules.specs.Widths.{width_list};
ghost use Rattle.widths.specs.Table.{list_of};
ghost use Rattle.read_turn.specs.Ready.{Scratch};
ghost use Rattle.read_scratch.specs.Scratch.{IsEmpty, Gathered, Holding, Unmounted};

use rules::Refusal;
use widths::Sound;
use widths_table::{Block, Table};

// The scratch row before anything is known.
pub fn room() -> [u32; 8768]
    ensures { Scratch result }
{
    [0u32; 8768]
}

// A font's widths into its part of the row, where nothing stands yet. Those that there are alone: a plain copy is made by the C
// library's `memcpy`, which the archives for C would need from outside.
#[tactic(auto, using(crate::proofs::Gathering::copying))]
fn put_widths(part: &mut [u32], widths: &[u32; 256])
    requires size { length part.old ≡ 256 }
    requires empty { IsEmpty part.old }
    ensures long { length part.new ≡ 256 }
    ensures copied { part.new ≡ widths.now }
{
    for (b, width) in widths.iter().enumerate() {
        if *width != 0 {
            part[b] = *width;
        }
    }
}

// The mounts, the fonts' widths, an empty block, the names' places, their lengths. Only the fonts that there are have widths and names:
// what the table holds behind them is not known.
fn gather(ws: &mut [u32], table: &Table, fonts: usize)
    requires { (length ws.old ≡ 8768) × (fonts ≤ 32) }
    ensures { Gathered table.now fonts ws.new }
{
    ws.fill(0);
    for (k, block) in table[..fonts].iter().enumerate() {
        let start = 256 + k * 256;
        put_widths(&mut ws[start..start + 256], &block.widths);
        ws[8704 + k] = block.name.place;
        ws[8736 + k] = block.name.len;
    }
}

// The width list, judged, and where it is sound in the scratch row.
pub fn load(ws: &mut [u32], list: &[u8]) -> Result<Sound, Refusal>
    requires { (length list.now ≤ 65536) × Scratch ws.old }
    ensures { (result ≡ list_of (width_list list.now)) × Holding list.now ws.new (width_list list.now) }
{
    let mut table = [Block::EMPTY; 32];
    let sound = widths::load(list, &mut table)?;
    gather(ws, &table, sound.fonts);
    Ok(sound)
}

// Nothing is mounted any more.
pub fn clear(ws: &mut [u32])
    requires { Scratch ws.old }
    ensures { Unmounted ws.old ws.new }
{
    ws[..256].fill(0);
}
