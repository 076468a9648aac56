// The integers that are a command's arguments, each perhaps behind a spacer: one that is due, one that may be absent, as many as are
// present (document 01, "Bytes, spaces, numbers", "Drawing"). Each number is handed on with the place where it begins.
#![tactic(auto)]

ghost use Rattle.std.specs.Prelude.{◌≡◌, ◌*◌, ◌≤◌, ◌<◌};
ghost use Rattle.scan_arguments.specs.At.{one_at, due_at, within_of, near_of, perhaps_at, pairs_at};
ghost use Rattle.scan_arguments.specs.Parts.{allowed_of, present_at, added_to, Fine};

use rules::Refusal;
use scan_integer::Number;

// An integer argument, where it begins, and the place behind it.
#[derive(Clone, Copy)]
pub struct Argument {
    pub number: u32,
    pub place: usize,
    pub next: usize,
}

// The sums of pairs, and how many pairs there are.
#[derive(Clone, Copy)]
pub struct Sums {
    pub dh: u64,
    pub dv: u64,
    pub terms: u64,
}

// Pairs, and the place behind them. Their sums are refused where a number is outside its limit, or more than 32 pairs stand.
#[derive(Clone, Copy)]
pub struct Pairs {
    pub sums: Result<Sums, Refusal>,
    pub next: usize,
}

impl Argument {
    fn allowed(self, inside: bool) -> Result<(), Refusal>
        ensures { result ≡ allowed_of inside self }
    {
        if inside {
            Ok(())
        } else {
            Err(Refusal {
                number: 6,
                offset: self.place,
            })
        }
    }

    // Its number is within a limit.
    pub fn within(self, lo: u32, hi: u32) -> Result<(), Refusal>
        ensures { result ≡ within_of lo hi self }
    {
        self.allowed(scan_integer::is_within(lo, hi, self.number))
    }

    // The same for the general limit.
    pub fn near(self) -> Result<(), Refusal>
        ensures { result ≡ near_of self }
    {
        self.allowed(scan_integer::is_near(self.number))
    }
}

// One integer, perhaps behind a spacer.
#[tactic(auto, using(crate::proofs::Chains::one_is))]
pub fn one_at(s: &[u8], i: usize) -> Option<Argument>
    ensures { result ≡ one_at s.now i }
{
    let place = scan_lex::spacer_end(s, i);
    let Number { value, next } = scan_integer::integer(s, place)?;
    Some(Argument {
        number: value,
        place,
        next,
    })
}

// The integer that is due at i, of the command at a place.
pub fn due_at(s: &[u8], at: usize, i: usize) -> Result<Argument, Refusal>
    ensures { result ≡ due_at at s.now i }
{
    one_at(s, i).ok_or(Refusal {
        number: 4,
        offset: at,
    })
}

// Whether a digit or a minus sign stands at a place, perhaps behind a spacer.
#[tactic(auto, using(crate::proofs::Chains::present_is))]
fn present(s: &[u8], i: usize) -> bool
    ensures { result ≡ present_at s.now i }
{
    let b = scan_lex::byte_at(s, scan_lex::spacer_end(s, i));
    (b == 45) | scan_lex::is_digit(b)
}

// One integer, where one is present.
#[tactic(auto, using(crate::proofs::Chains::perhaps_is))]
pub fn perhaps_at(s: &[u8], at: usize, i: usize) -> Result<Option<Argument>, Refusal>
    ensures { result ≡ perhaps_at at s.now i }
{
    if !present(s, i) {
        return Ok(None);
    }
    Ok(Some(due_at(s, at, i)?))
}

// One more pair onto the sums so far: at most 32 may stand.
fn with_pair(sums: Result<Sums, Refusal>, a: Argument, b: Argument) -> Result<Sums, Refusal>
    requires { Fine sums }
    ensures { result ≡ added_to sums a b }
{
    let t = sums?;
    a.allowed(t.terms < 32)?;
    a.near()?;
    b.near()?;
    Ok(Sums {
        dh: t.dh + a.number as u64,
        dv: t.dv + b.number as u64,
        terms: t.terms + 1,
    })
}

// As many integers as are present, in pairs.
#[tactic(auto, using(crate::proofs::Many::pairs))]
pub fn pairs_at(s: &[u8], at: usize, i: usize) -> Result<Pairs, Refusal>
    ensures { result ≡ pairs_at at s.now i }
{
    let mut sums = Ok(Sums {
        dh: 0,
        dv: 0,
        terms: 0,
    });
    let mut next = i;
    while present(s, next) {
        let a = due_at(s, at, next)?;
        let b = due_at(s, at, a.next)?;
        sums = with_pair(sums, a, b);
        next = b.next;
    }
    if next == i {
        return Err(Refusal {
            number: 4,
            offset: at,
        });
    }
    Ok(Pairs { sums, next })
}
