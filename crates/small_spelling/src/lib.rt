// The spelling, in a local: filled by the rewriter, and printed as a whole.
#![tactic(auto)]

ghost use Rattle.std.specs.Prelude.{◌≡◌, length};
ghost use Rattle.rules.specs.Answers.{respell_into, respelling_of, buffer_over};

use rules::Refusal;
use small_out::Printing;
use small_program::Shown;
use small_text::write_refusal;
use std::io;
use std::io::Write;

// Prints the answer to a stream and its width list: the spelling and nothing else, or the refusal.
pub fn show(to: &impl Print, s: &[u8], list: &[u8]) -> Shown<usize>
    ensures { result.answer ≡ respelling_of (respell_into 4194304 s.now list.now) }
{
    let mut text = [0u8; 4194304];
    show_in(to, s, list, &mut text)
}

// The same, with the spelling in a lent buffer.
fn show_in(to: &impl Print, s: &[u8], list: &[u8], text: &mut [u8]) -> Shown<usize>
    ensures answer { result.answer ≡ respelling_of (respell_into (length text.old) s.now list.now) }
    ensures buffer { text.new ≡ buffer_over text.old (respell_into (length text.old) s.now list.now) }
{
    let answer = respell::respell(s, list, text);
    let good = print(to, answer, text);
    Shown { answer, good }
}

fn print(to: &impl Print, answer: Result<usize, Refusal>, text: &[u8]) -> io::Result<()> {
    match answer {
        Ok(len) => small_out::print(to, text, len),
        Err(refusal) => print_refusal(to, refusal),
    }
}

fn print_refusal(to: &impl Print, refusal: Refusal) -> io::Result<()> {
    let mut out = Printing::new(to);
    write_refusal(&mut out, refusal)?;
    out.flush()
}
