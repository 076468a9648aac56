// Bytes written to a lent buffer, one after the other. Behind the buffer nothing is written and the place is counted all the same, so
// that one code measures a spelling and writes it. The count goes no further than one past the longest spelling.
#![tactic(auto)]

ghost use Rattle.std.specs.Prelude.{◌≡◌, ◌<◌, length};
ghost use Rattle.rules.specs.House.{decimal};
ghost use Rattle.respell_model.specs.Sheet.{further, small, signed_small};
ghost use Rattle.respell_bytes.specs.Onward.{onward};
ghost use Rattle.respell_bytes.specs.Puts.{PutsByte, Puts};

// A lent buffer, and the place of the next byte.
#[derive(Drop)]
pub struct Sheet<'a> {
    pub bytes: &'a mut [u8],
    pub at: usize,
}

fn further(at: usize) -> usize
    ensures { result ≡ further at }
{
    if at < 16_777_217 { at + 1 } else { at }
}

// The place behind n bytes that are not written.
fn onward(at: usize, n: usize) -> usize
    ensures { result ≡ onward n at }
{
    if at < 16_777_217 {
        at + n.min(16_777_217 - at)
    } else {
        at
    }
}

fn small(n: u32) -> u32
    ensures { result ≡ small n }
{
    if n < 100_000_000 { n } else { 0 }
}

// How many digits it has.
#[tactic(auto, using(crate::proofs::Digits::counting))]
fn digit_count(n: u32) -> usize
    ensures { result ≡ length (decimal (small n)) }
{
    match small(n) {
        0..=9 => 1,
        10..=99 => 2,
        100..=999 => 3,
        1_000..=9_999 => 4,
        10_000..=99_999 => 5,
        100_000..=999_999 => 6,
        1_000_000..=9_999_999 => 7,
        _ => 8,
    }
}

impl<'a> Sheet<'a> {
    pub fn put(&mut self, b: u8)
        ensures { PutsByte b self.old self.new }
    {
        if self.at < self.bytes.len() {
            self.bytes[self.at] = b;
        }
        self.at = further(self.at);
    }

    // A text, such as a name that stands in the stream. Behind the buffer its length is all that counts.
    #[tactic(auto, using(crate::proofs::Putting::texts))]
    pub fn put_all(&mut self, text: &[u8])
        ensures { Puts text.now self.old self.new }
    {
        if self.bytes.len() <= self.at {
            self.at = onward(self.at, text.len());
            return;
        }
        for b in text {
            self.put(*b);
        }
    }

    // Its digits, as few as can be. Behind the buffer their number is all that counts.
    pub fn put_decimal(&mut self, n: u32)
        ensures { Puts (decimal (small n)) self.old self.new }
    {
        if self.bytes.len() <= self.at {
            self.at = onward(self.at, digit_count(n));
            return;
        }
        let mut digits = [0u8; 8];
        let mut i = 7;
        let mut m = small(n);
        while 9 < m {
            digits[i] = b'0' + ((m % 10) as u8);
            m /= 10;
            i -= 1;
        }
        digits[i] = b'0' + (m as u8);
        self.put_all(&digits[i..]);
    }

    // A number that is moved up by 100,000,000.
    #[tactic(auto, using(respell_model::proofs::Sheets::one_by_one), unfolding(respell_model::specs::Sheet::signed_small))]
    pub fn put_signed(&mut self, n: u32)
        ensures { Puts (signed_small n) self.old self.new }
    {
        if n < 100_000_000 {
            self.put(b'-');
            self.put_decimal(100_000_000 - n);
        } else {
            self.put_decimal(n - 100_000_000);
        }
    }
}
