// The text of the control `x X`, which may go on in further lines (document 01, "Controls").
#![tactic(auto)]

ghost use Rattle.std.specs.Prelude.{◌≡◌};
ghost use Rattle.scan_raw.specs.Parts.{step_at, text_at, raw_at};

use rules::Refusal;
use scan_command::Command;

// A text: its length, with the newlines that are added, and the place behind its last line.
#[derive(Clone, Copy)]
struct Text {
    len: usize,
    next: usize,
}

// How many bytes the text's next byte takes, where it does not end: a newline and the `+` behind it are one.
#[tactic(auto, using(crate::proofs::Texts::texts))]
fn text_step(s: &[u8], i: usize) -> Option<usize>
    ensures { result ≡ step_at s.now i }
{
    if s.len() <= i {
        None
    } else if s[i] != b'\n' {
        Some(1)
    } else if scan_lex::byte_at(s, i + 1) == b'+' {
        Some(2)
    } else {
        None
    }
}

// The text from a place on.
#[tactic(auto, using(crate::proofs::Texts::texts))]
fn text_at(s: &[u8], at: usize) -> Text
    ensures { result ≡ text_at s.now at }
{
    let mut len = 0;
    let mut i = at;
    while let Some(step) = text_step(s, i) {
        i += step;
        len += 1;
    }
    Text { len, next: i }
}

// The control `X`, its text due from i on; the rule on line breaks does not hold for it.
pub fn raw(s: &[u8], i: usize) -> Result<Command, Refusal>
    ensures { result ≡ raw_at s.now i }
{
    let place = scan_lex::spacer_end(s, i);
    let t = text_at(s, place);
    scan_close::within(t.len <= 4096, place)?;
    Ok(Command::Raw { next: t.next })
}
