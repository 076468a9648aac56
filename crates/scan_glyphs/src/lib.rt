// The commands that draw glyphs: by byte, name and index, words, and the two-digit command (document 01, "Commands of one letter").
// Each function has the place of the letter, and answers the command or its refusal: 4 and 16 at that place, 6 at the first argument
// outside its limit.
#![tactic(auto)]

ghost use Rattle.std.specs.Prelude.{◌≡◌, true, ◌<◌, length, drop, IfOk};
ghost use Rattle.rules.specs.Bytes.{is_digit};
ghost use Rattle.rules.specs.Letters.{white_next};
ghost use Rattle.scan_command.specs.View.{letter_at};
ghost use Rattle.scan_glyphs.specs.Parts.{no_glyph, glyph_at, dummy_at, word_from};

use rules::Refusal;
use scan_arguments::Argument;
use scan_command::Command;

// Whether whitespace or the end is at a place.
#[tactic(auto, using(crate::proofs::Strings::white_is))]
fn white_next(s: &[u8], at: usize) -> bool
    ensures { result ≡ white_next (drop at s.now) }
{
    s.get(at).map_or(true, |b| scan_lex::is_white(*b))
}

// `N`
#[tactic(auto, using(crate::proofs::Strings::index_is))]
pub fn index(s: &[u8], at: usize) -> Result<Command, Refusal>
    requires { at < length s.now }
    ensures { result ≡ letter_at 78 s.now at }
{
    let Argument { number, next, .. } = scan_close::near_at(s, at)?;
    Ok(Command::Index { number, next })
}

// No glyph's byte stands at a place: whitespace or the end, or a barred byte.
fn no_glyph(s: &[u8], at: usize, place: usize) -> Refusal
    ensures { result ≡ no_glyph at s.now place }
{
    let number = if white_next(s, place) { 4 } else { 16 };
    Refusal { number, offset: at }
}

// Where the byte of a glyph stands, perhaps behind a spacer.
#[tactic(auto, using(crate::proofs::Strings::glyph_inside))]
fn glyph_at(s: &[u8], at: usize, i: usize) -> Result<usize, Refusal>
    ensures found { result ≡ glyph_at at s.now i }
    ensures inside { IfOk result (λ place. place < length s.now) }
{
    let place = scan_lex::spacer_end(s, i);
    if scan_lex::is_name_byte(scan_lex::byte_at(s, place)) {
        Ok(place)
    } else {
        Err(no_glyph(s, at, place))
    }
}

// `c`: a glyph of one byte
#[tactic(auto, using(crate::proofs::Strings::byte_is))]
pub fn glyph_byte(s: &[u8], at: usize) -> Result<Command, Refusal>
    requires { at < length s.now }
    ensures { result ≡ letter_at 99 s.now at }
{
    let place = glyph_at(s, at, at + 1)?;
    Ok(Command::Glyph {
        place,
        len: 1,
        next: place + 1,
    })
}

// `C`: a glyph's name, of at most 64 bytes, none of them barred
#[tactic(auto, using(crate::proofs::Strings::name_is))]
pub fn glyph_name(s: &[u8], at: usize) -> Result<Command, Refusal>
    requires { at < length s.now }
    ensures { result ≡ letter_at 67 s.now at }
{
    let place = scan_lex::spacer_end(s, at + 1);
    let clear_end = scan_lex::name_end(s, place);
    let next = scan_lex::string_end(s, clear_end);
    scan_close::due(place < next, at)?;
    let len = next - place;
    scan_close::within(len <= 64, place)?;
    scan_close::cleared(next <= clear_end, at)?;
    Ok(Command::Glyph { place, len, next })
}

// The dummy integer behind a word that ends at a place, where one stands: whitespace or the end is due behind it.
fn dummy_at(s: &[u8], at: usize, end: usize) -> Result<Option<Argument>, Refusal>
    ensures { result ≡ dummy_at at s.now end }
{
    let dummy = scan_arguments::perhaps_at(s, at, end)?;
    if let Some(d) = dummy {
        scan_close::due(white_next(s, d.next), at)?;
    }
    Ok(dummy)
}

// The word from a place on, whose bytes up to clear are those of a name, with its number, and its dummy.
fn word_from(
    s: &[u8],
    at: usize,
    place: usize,
    clear: usize,
    track: Argument,
) -> Result<Command, Refusal>
    ensures { result ≡ word_from at s.now place clear track }
{
    let end = scan_lex::string_end(s, clear);
    scan_close::due(place < end, at)?;
    let dummy = dummy_at(s, at, end)?;
    track.near()?;
    if let Some(d) = dummy {
        d.near()?;
    }
    scan_close::cleared(end <= clear, at)?;
    Ok(Command::Word {
        track: track.number,
        place,
        end,
        next: dummy.map_or(end, |d| d.next),
    })
}

// `t`. Most words end their line, and have neither a barred byte nor a dummy: those are answered here, as word_from would, to save time.
#[tactic(auto, using(crate::proofs::Words::word_is, crate::proofs::Words::word_line))]
pub fn word(s: &[u8], at: usize) -> Result<Command, Refusal>
    requires { at < length s.now }
    ensures { result ≡ letter_at 116 s.now at }
{
    let place = scan_lex::spacer_end(s, at + 1);
    let clear_end = scan_lex::name_end(s, place);
    let b = scan_lex::byte_at(s, clear_end);
    if b == b'\n' && place < clear_end {
        return Ok(Command::Word {
            track: 100_000_000,
            place,
            end: clear_end,
            next: clear_end,
        });
    }
    let zero = Argument {
        number: 100_000_000,
        place: at + 1,
        next: at + 1,
    };
    word_from(s, at, place, clear_end, zero)
}

// `u`: a number before the word
#[tactic(auto, using(crate::proofs::Words::tracked_is))]
pub fn tracked(s: &[u8], at: usize) -> Result<Command, Refusal>
    requires { at < length s.now }
    ensures { result ≡ letter_at 117 s.now at }
{
    let track = scan_arguments::due_at(s, at, at + 1)?;
    let place = scan_lex::spacer_end(s, track.next);
    let clear_end = scan_lex::name_end(s, place);
    word_from(s, at, place, clear_end, track)
}

// Two digits, of which b is the first, and a glyph of one byte
#[tactic(auto, using(crate::proofs::Strings::pair_is, crate::proofs::Strings::digit_inside))]
pub fn two_digits(s: &[u8], at: usize, b: u8) -> Result<Command, Refusal>
    requires { (at < length s.now) × (is_digit b ≡ true) }
    ensures { result ≡ letter_at b s.now at }
{
    let second = scan_lex::spacer_end(s, at + 1);
    let c = scan_lex::byte_at(s, second);
    scan_close::due(scan_lex::is_digit(c), at)?;
    let place = glyph_at(s, at, second + 1)?;
    Ok(Command::Pair {
        number: 100_000_000 + (scan_integer::digit_of(b) * 10 + scan_integer::digit_of(c)),
        place,
        next: place + 1,
    })
}
