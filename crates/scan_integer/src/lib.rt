// The integer at a place, and the limits of numbers (document 01, "Bytes, spaces, numbers"). A number is handed on as itself +
// 100,000,000, cut at 200,000,000, which is beyond every limit.
#![tactic(auto)]

ghost use Rattle.std.specs.Prelude.{◌≡◌, ◌+◌, ◌-◌, ◌*◌, min};
ghost use Rattle.rules.specs.Bytes.{within, near};
ghost use Rattle.scan_integer.specs.At.{integer_at};
ghost use Rattle.scan_integer.specs.Parts.{digits_at, signed_at};

// A number, and the place behind its last digit.
#[derive(Clone, Copy)]
pub struct Number {
    pub value: u32,
    pub next: usize,
}

pub fn digit_of(b: u8) -> u32
    ensures { result ≡ b - 48 }
{
    b.saturating_sub(48) as u32
}

// The number with one more digit, cut at 100,000,000.
fn with_digit(value: u32, b: u8) -> u32
    ensures { result ≡ min (value * 10 + (b - 48)) 100000000 }
{
    if 10_000_000 <= value {
        return 100_000_000;
    }
    (value * 10 + digit_of(b)).min(100_000_000)
}

// The number that the digits at a place say, cut at 100,000,000, and the place behind them. The place is answered, so it is counted:
// an iterator would come beside that count.
#[tactic(auto, using(crate::proofs::Numbers::reading, scan_lex::proofs::Runs::run_off, scan_lex::proofs::Runs::run_out))]
pub fn digits(s: &[u8], at: usize) -> Number
    ensures { result ≡ digits_at s.now at }
{
    let mut value: u32 = 0;
    let mut i = at;
    while i < s.len() && scan_lex::is_digit(s[i]) {
        value = with_digit(value, s[i]);
        i += 1;
    }
    Number { value, next: i }
}

// The digits at a place as a number, negative or not.
#[tactic(auto, using(crate::proofs::Numbers::numbers))]
fn signed(s: &[u8], at: usize, negative: bool) -> Option<Number>
    ensures { result ≡ signed_at negative s.now at }
{
    let Number { value, next } = digits(s, at);
    if next <= at {
        return None;
    }
    let value = if negative {
        100_000_000 - value
    } else {
        100_000_000 + value
    };
    Some(Number { value, next })
}

// The integer at a place.
#[tactic(auto, using(crate::proofs::Numbers::numbers))]
pub fn integer(s: &[u8], at: usize) -> Option<Number>
    ensures { result ≡ integer_at s.now at }
{
    if scan_lex::byte_at(s, at) == 45 {
        signed(s, at + 1, true)
    } else {
        signed(s, at, false)
    }
}

// Whether a number is within a limit.
pub fn is_within(lo: u32, hi: u32, n: u32) -> bool
    ensures { result ≡ within lo hi n }
{
    (lo..=hi).contains(&n)
}

// The same for the general limit.
pub fn is_near(n: u32) -> bool
    ensures { result ≡ near n }
{
    is_within(1, 199_999_999, n)
}

// A number as itself, 0 where it is negative.
pub fn unmoved(n: u32) -> u32
    ensures { result ≡ n - 100000000 }
{
    n.saturating_sub(100_000_000)
}
