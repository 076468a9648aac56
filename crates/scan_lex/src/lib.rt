// Bytes and runs of bytes over a slice and a place: spaces, strings, lines, what stands between commands, line breaks (document 01,
// "Bytes, spaces, numbers").
#![tactic(auto)]

ghost use Rattle.std.specs.Prelude.{◌≡◌, ◌<◌, ℕ, Bool, get_or};
ghost use Rattle.rules.specs.Bytes.{same, is_space, is_white, is_not_white, is_not_newline, is_digit};
ghost use Rattle.rules.specs.Widths.{is_list_name};
ghost use Rattle.scan_lex.specs.At.{run_end, is_name_byte, blank_at, breaks_at};

fn is_space(b: u8) -> bool
    ensures { result ≡ is_space b }
{
    matches!(b, b' ' | b'\t')
}

pub fn is_white(b: u8) -> bool
    ensures { result ≡ is_white b }
{
    matches!(b, b' ' | b'\t' | b'\n')
}

pub fn is_digit(b: u8) -> bool
    ensures { result ≡ is_digit b }
{
    b.is_ascii_digit()
}

// The byte at a place, 0 past the end.
pub fn byte_at(s: &[u8], at: usize) -> u8
    ensures { result ≡ get_or s.now at 0 }
{
    s.get(at).copied().unwrap_or(0)
}

// The end of the bytes from a place on that pass a test. The reader spends its time here, so this counts the place: by `get` and
// `take_while` each call took six machine instructions more.
#[inline(always)]
fn run_end<P: Fn(u8) -> bool>(s: &[u8], at: usize, passes: P) -> usize
    requires { P.IsAlwaysCallable passes }
    ensures { (p : ℕ → Bool) → ((b : ℕ) (t : Bool) → b < 256 → P.post passes b t → t ≡ p b) → result ≡ run_end p s.now at }
{
    let mut i = at;
    while i < s.len() && passes(s[i]) {
        i += 1;
    }
    i
}

pub fn spacer_end(s: &[u8], at: usize) -> usize
    ensures { result ≡ run_end is_space s.now at }
{
    run_end(s, at, is_space)
}

fn is_not_white(b: u8) -> bool
    ensures { result ≡ is_not_white b }
{
    !is_white(b)
}

fn is_not_newline(b: u8) -> bool
    ensures { result ≡ is_not_newline b }
{
    b != b'\n'
}

pub fn string_end(s: &[u8], at: usize) -> usize
    ensures { result ≡ run_end is_not_white s.now at }
{
    run_end(s, at, is_not_white)
}

// Whether a byte may stand in a name. Bytes below 32 are barred or whitespace.
pub fn is_name_byte(b: u8) -> bool
    ensures { result ≡ is_name_byte b }
{
    (b' ' < b) & (b != 127)
}

// The end of the bytes that may stand in a name: where a string has no barred byte, it is the string's end.
pub fn name_end(s: &[u8], at: usize) -> usize
    ensures { result ≡ run_end is_name_byte s.now at }
{
    run_end(s, at, is_name_byte)
}

pub fn line_end(s: &[u8], at: usize) -> usize
    ensures { result ≡ run_end is_not_newline s.now at }
{
    run_end(s, at, is_not_newline)
}

// The place behind a byte of whitespace or a comment, the place itself where neither stands.
#[tactic(auto, using(crate::proofs::Texts::blank_is))]
pub fn blank_end(s: &[u8], at: usize) -> usize
    ensures { result ≡ blank_at s.now at }
{
    let b = byte_at(s, at);
    if is_white(b) {
        return at + 1;
    }
    if b == b'#' {
        return line_end(s, at + 1);
    }
    at
}

// Whether two runs of bytes are equal.
#[tactic(auto, using(crate::proofs::Texts::same_is))]
pub fn same_bytes(a: &[u8], b: &[u8]) -> bool
    ensures { result ≡ same a.now b.now }
{
    a == b
}

// Whether a text is a name of a list: 1 to 64 bytes, none of them whitespace or barred.
#[tactic(auto, using(crate::proofs::Texts::list_name_is))]
pub fn is_list_name(t: &[u8]) -> bool
    ensures { result ≡ is_list_name t.now }
{
    !t.is_empty() && t.len() <= 64 && name_end(t, 0) == t.len()
}

#[tactic(auto, using(crate::proofs::Runs::breaks_is))]
pub fn breaks(s: &[u8], at: usize) -> bool
    ensures { result ≡ breaks_at s.now at }
{
    let i = spacer_end(s, at);
    s.get(i).map_or(true, |b| matches!(*b, b'\n' | b'#'))
}
