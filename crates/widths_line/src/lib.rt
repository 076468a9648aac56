// The lines `unitwidth=N`, `byte=N` and `width=N` of a width list (document 01, "Widths").
#![tactic(auto)]

ghost use Rattle.std.specs.Prelude.{◌≡◌, ◌≤◌};
ghost use Rattle.rules.specs.Answers.{refusal};
ghost use Rattle.rules.specs.Widths.{behind, numbered, plain_number, is_byte};
ghost use Rattle.widths_line.specs.Reading.{listed, digit_number, can_follow, reached, unit_says, ByteJudged, Stored};

use rules::Refusal;
use widths_table::Table;

// What is due: a unitwidth line; a font or byte line; the width line of a byte.
#[derive(Clone, Copy)]
pub enum Due {
    Unitwidth,
    Block,
    Width { byte: u8 },
}

// What has been reached in the list: what is due, the unitwidth, how many fonts there are, the least byte that may stand next in the
// block, and the place.
#[derive(Clone, Copy)]
pub struct State {
    pub due: Due,
    pub unitwidth: u32,
    pub fonts: usize,
    pub low: u32,
    pub at: usize,
}

// The number of a text of digits alone, where it is at most 100000.
#[tactic(auto, using(crate::proofs::Texts::digits))]
fn digits(t: &[u8]) -> Option<u32>
    ensures { result ≡ listed (digit_number t.now) }
{
    let d = scan_integer::digits(t, 0);
    if d.next == t.len() && d.value <= 100_000 {
        Some(d.value)
    } else {
        None
    }
}

// The number that a text is, without leading zeros and at most 100000.
#[tactic(auto, using(crate::proofs::Texts::digits_plain, crate::proofs::Texts::zero_plain))]
fn number(t: &[u8]) -> Option<u32>
    ensures { result ≡ listed (plain_number t.now) }
{
    match t {
        [] | [b'0', _, ..] => None,
        _ => digits(t),
    }
}

// The number behind a key, as `number`.
#[tactic(auto, using(crate::proofs::Texts::stripped, crate::proofs::Texts::unstripped))]
fn keyed_number(t: &[u8], key: &[u8]) -> Option<u32>
    ensures { result ≡ listed (numbered (behind key.now t.now)) }
{
    number(t.strip_prefix(key)?)
}

// The refusal of a list, at its wrong line.
pub fn wrong(at: usize) -> Refusal
    ensures { result ≡ refusal 2 at }
{
    Refusal {
        number: 2,
        offset: at,
    }
}

// `unitwidth=N`
pub fn unit_line(t: &[u8], at: usize, next: usize) -> Result<State, Refusal>
    ensures { result ≡ reached at next (unit_says t.now) }
{
    let unitwidth = keyed_number(t, b"unitwidth=").ok_or(wrong(at))?;
    if unitwidth < 1 {
        return Err(wrong(at));
    }
    Ok(State {
        due: Due::Block,
        unitwidth,
        fonts: 0,
        low: 0,
        at: next,
    })
}

fn is_byte(b: u32) -> bool
    ensures { result ≡ is_byte b }
{
    b <= 255 && !matches!(b, 9 | 10 | 32)
}

// Whether a byte may stand next: in a block only, and from low on.
fn can_follow(b: u32, fonts: usize, low: u32) -> bool
    ensures { result ≡ can_follow b fonts low }
{
    0 < fonts && is_byte(b) && low <= b
}

// `byte=N`
pub fn byte_line(t: &[u8], st: State, next: usize) -> Result<State, Refusal>
    ensures { ByteJudged t.now st next result }
{
    let byte = keyed_number(t, b"byte=").ok_or(wrong(st.at))?;
    if !can_follow(byte, st.fonts, st.low) {
        return Err(wrong(st.at));
    }
    Ok(State {
        due: Due::Width { byte: byte as u8 },
        at: next,
        ..st
    })
}

// `width=N`, of a byte: the width + 1 goes into the newest font's block.
#[tactic(auto, using(crate::proofs::Lines::lines))]
pub fn width_line(
    t: &[u8],
    table: &mut Table,
    st: State,
    byte: u8,
    next: usize,
) -> Result<State, Refusal>
    requires { st.fonts ≤ 32 }
    ensures { Stored t.now table.old table.new st byte next result }
{
    let width = keyed_number(t, b"width=").ok_or(wrong(st.at))?;
    table[st.fonts.saturating_sub(1)].widths[byte as usize] = width + 1;
    Ok(State {
        due: Due::Block,
        low: byte as u32 + 1,
        at: next,
        ..st
    })
}
