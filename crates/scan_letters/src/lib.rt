// What a letter selects (document 01, "its first byte decides and the rest is ignored"): one match for the letters of `D`, one for those
// of a scheme, one for those of `x`. Scanner and rewriter ask here, so a letter's arguments, their limits and its motion are said once.
// Limits are of numbers that are moved up by 100,000,000.
#![tactic(auto)]

ghost use Rattle.std.specs.Prelude.{◌≡◌};
ghost use Rattle.scan_letters.specs.Selected.{byte_of, drawing_of, parts_of, control_of};

// The column "motion" of a drawing that has one number or two: +h, +v; +h, 0.
#[derive(Clone, Copy)]
pub enum Motion {
    Both,
    Across,
}

// The column "arguments" of a drawing, with the motion where it is not that of all its pairs.
#[derive(Clone, Copy)]
pub enum Drawing {
    // n
    One(Motion),
    // d, optional dummy
    Dummied(Motion),
    // h v
    Two(Motion),
    // h1 v1 h2 v2: +h1+h2, +v1+v2
    Four,
    // 2 to 64 integers, an even number: + sum of the odd-placed, + sum of the even-placed
    Pairs,
    // n, -32767..32767: none
    Gray,
    // as for `m`: none
    Scheme,
    // no letter of the table
    Unknown,
}

// How many components a scheme has.
#[derive(Clone, Copy)]
pub enum Parts {
    Zero,
    One,
    Three,
    Four,
    // no scheme's letter
    Unknown,
}

// What stands behind the word of an `x`.
#[derive(Clone, Copy)]
pub enum Control {
    // `T` name
    Device,
    // `r` n h v
    Resolution,
    // `i`
    Init,
    // `F` name
    File,
    // `f` n name
    Mount,
    // `p`, `t`: nothing, and it changes nothing
    Bare,
    // `H` n, `S` n, `u` n: an integer within limits, and it changes nothing
    Number { lo: u32, hi: u32 },
    // `s`
    Stop,
    // `X` text
    Text,
    // no letter of a control
    Unknown,
}

// A letter that is held as a number, as a byte.
pub fn byte_of(k: u32) -> u8
    ensures { result ≡ byte_of k }
{
    u8::try_from(k).unwrap_or(0)
}

// The letters of `D`.
pub fn drawing_of(letter: u8) -> Drawing
    ensures { result ≡ drawing_of letter }
{
    match letter {
        b'l' => Drawing::Two(Motion::Both),
        b'a' => Drawing::Four,
        b'c' | b'C' => Drawing::Dummied(Motion::Across),
        b'e' | b'E' => Drawing::Two(Motion::Across),
        b'p' | b'P' | b'~' => Drawing::Pairs,
        b't' => Drawing::One(Motion::Across),
        b'f' => Drawing::Gray,
        b'F' => Drawing::Scheme,
        _ => Drawing::Unknown,
    }
}

// The letters of a scheme, behind `m` and `DF`.
pub fn parts_of(scheme: u8) -> Parts
    ensures { result ≡ parts_of scheme }
{
    match scheme {
        b'c' | b'r' => Parts::Three,
        b'd' => Parts::Zero,
        b'g' => Parts::One,
        b'k' => Parts::Four,
        _ => Parts::Unknown,
    }
}

// The letters of `x`.
pub fn control_of(letter: u8) -> Control
    ensures { result ≡ control_of letter }
{
    match letter {
        b'T' => Control::Device,
        b'r' => Control::Resolution,
        b'i' => Control::Init,
        b'F' => Control::File,
        b'f' => Control::Mount,
        b'H' | b'S' => Control::Number {
            lo: 1,
            hi: 199_999_999,
        },
        b'p' | b't' => Control::Bare,
        b'u' => Control::Number {
            lo: 100_000_000,
            hi: 100_000_001,
        },
        b's' => Control::Stop,
        b'X' => Control::Text,
        _ => Control::Unknown,
    }
}
