// Controls: the command `x` (document 01, "Controls"). A number is handed on by the leaf scanners as itself + 100,000,000. Refusals at
// one command are found in the order 3, 4, 5, 6, 16; a refusal 6 is at the first argument outside its limit.
#![tactic(auto)]

ghost use Rattle.std.specs.Prelude.{◌≡◌, ◌<◌, length};
ghost use Rattle.scan_command.specs.View.{letter_at};
ghost use Rattle.scan_controls.specs.Parts.{name_due, name_fits, named_at, mount_at, bare_at, plain_at, resolution_at, control_at};

use rules::Refusal;
use scan_arguments::due_at;
use scan_close::ending;
use scan_command::Command;
use scan_letters::Control;

// A string: where it begins, how long it is, whether none of its bytes is barred, and the place behind it.
#[derive(Clone, Copy)]
struct Name {
    place: usize,
    len: usize,
    clear: bool,
    next: usize,
}

impl Name {
    // It has at most 64 bytes, and none of them is barred.
    fn fits(self, at: usize) -> Result<(), Refusal>
        ensures { result ≡ name_fits at self }
    {
        scan_close::within(self.len <= 64, self.place)?;
        scan_close::cleared(self.clear, at)
    }
}

// The string that is due from i on, of the command at a place, as its last argument.
#[tactic(auto, unfolding(crate::specs::Parts::name_due))]
fn name_due(s: &[u8], at: usize, i: usize) -> Result<Name, Refusal>
    ensures { result ≡ name_due at s.now i }
{
    let place = scan_lex::spacer_end(s, i);
    let clear_end = scan_lex::name_end(s, place);
    let next = scan_lex::string_end(s, clear_end);
    if next <= place {
        return Err(Refusal {
            number: 4,
            offset: at,
        });
    }
    ending(s, at, next)?;
    Ok(Name {
        place,
        len: next - place,
        clear: next <= clear_end,
        next,
    })
}

// `T`, `F`: the string alone. Here and below, the command's place is `at`, and its arguments stand from i on.
fn named(s: &[u8], at: usize, i: usize) -> Result<Name, Refusal>
    ensures { result ≡ named_at at s.now i }
{
    let name = name_due(s, at, i)?;
    name.fits(at)?;
    Ok(name)
}

// `f`
#[tactic(auto, unfolding(crate::specs::Parts::mount_at))]
fn mount(s: &[u8], at: usize, i: usize) -> Result<Command, Refusal>
    ensures { result ≡ mount_at s.now at i }
{
    let position = due_at(s, at, i)?;
    let name = name_due(s, at, position.next)?;
    position.within(100_000_000, 100_000_255)?;
    name.fits(at)?;
    Ok(Command::Mount {
        position: scan_integer::unmoved(position.number),
        place: name.place,
        len: name.len,
        next: name.next,
    })
}

// A control that changes nothing and has no argument.
#[tactic(auto, unfolding(crate::specs::Parts::bare_at))]
fn bare(s: &[u8], at: usize, i: usize, letter: u8) -> Result<Command, Refusal>
    ensures { result ≡ bare_at letter s.now at i }
{
    ending(s, at, i)?;
    Ok(Command::Plain {
        letter: letter as u32,
        next: i,
    })
}

// A control that changes nothing and has one integer from lo to hi.
#[tactic(auto, unfolding(crate::specs::Parts::plain_at))]
fn plain(s: &[u8], at: usize, i: usize, letter: u8, lo: u32, hi: u32) -> Result<Command, Refusal>
    ensures { result ≡ plain_at letter lo hi s.now at i }
{
    let n = due_at(s, at, i)?;
    ending(s, at, n.next)?;
    n.within(lo, hi)?;
    Ok(Command::Plain {
        letter: letter as u32,
        next: n.next,
    })
}

// `r`: three integers of at least 1
#[tactic(auto, unfolding(crate::specs::Parts::resolution_at))]
fn resolution(s: &[u8], at: usize, i: usize) -> Result<Command, Refusal>
    ensures { result ≡ resolution_at s.now at i }
{
    let n = due_at(s, at, i)?;
    let h = due_at(s, at, n.next)?;
    let v = due_at(s, at, h.next)?;
    ending(s, at, v.next)?;
    n.within(100_000_001, 199_999_999)?;
    h.within(100_000_001, 199_999_999)?;
    v.within(100_000_001, 199_999_999)?;
    Ok(Command::Resolution {
        quantum: scan_integer::unmoved(h.number),
        next: v.next,
    })
}

// The control of a letter: its word ends at i.
#[tactic(auto, unfolding(crate::specs::Parts::control_at))]
fn lettered(s: &[u8], at: usize, i: usize, letter: u8) -> Result<Command, Refusal>
    ensures { result ≡ control_at letter s.now at i }
{
    match scan_letters::control_of(letter) {
        Control::Device => {
            let Name {
                place,
                len,
                next,
                ..
            } = named(s, at, i)?;
            Ok(Command::Device { place, len, next })
        }
        Control::Resolution => resolution(s, at, i),
        Control::Init => ending(s, at, i).map(|()| Command::Init { next: i }),
        Control::File => {
            let Name {
                place,
                len,
                next,
                ..
            } = named(s, at, i)?;
            Ok(Command::File { place, len, next })
        }
        Control::Mount => mount(s, at, i),
        Control::Bare => bare(s, at, i, letter),
        Control::Number { lo, hi } => plain(s, at, i, letter, lo, hi),
        Control::Stop => ending(s, at, i).map(|()| Command::Stop { next: i }),
        Control::Text => scan_raw::raw(s, i),
        Control::Unknown => Err(Refusal {
            number: 3,
            offset: at,
        }),
    }
}

// The command `x` at a place.
#[tactic(auto, using(crate::proofs::Forms::letter_is))]
pub fn control(s: &[u8], at: usize) -> Result<Command, Refusal>
    requires { at < length s.now }
    ensures { result ≡ letter_at 120 s.now at }
{
    let i = scan_lex::spacer_end(s, at + 1);
    let letter = *s.get(i).ok_or(Refusal {
        number: 3,
        offset: at,
    })?;
    lettered(s, at, scan_lex::string_end(s, i + 1), letter)
}
