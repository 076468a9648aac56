// The records of a stream as finding sees them, read off its commands with no environment: one move, by a byte of a word, a command
// or what lies between two commands.
#![tactic(auto)]

ghost use Rattle.std.specs.Prelude.{◌≡◌, ◌+◌, ◌<◌, ◌≤◌};
ghost use Rattle.find_outline.specs.Move.{passing, standing, naming, in_word, word_move, index_move, command_move};

use find_match::Key;
use scan_command::Command;

// A word of the stream: where it ends, and the place behind its command.
#[derive(Clone, Copy)]
pub struct Word {
    pub end: usize,
    pub next: usize,
}

// Where the outline is read: the next place; the word that it is in, if it is in one; the gap mark of the next record; the page's ordinal.
#[derive(Clone, Copy)]
pub struct Outline {
    pub at: usize,
    pub word: Option<Word>,
    pub gap: u32,
    pub ordinal: u32,
}

// One move: the key of the record that stands there, if one does, and where it goes on.
#[derive(Clone, Copy)]
pub struct Moved {
    pub key: Option<Key>,
    pub on: Outline,
}

// Between two commands.
pub fn standing(at: usize, gap: u32, ordinal: u32) -> Outline
    ensures { result ≡ standing at gap ordinal }
{
    Outline {
        at,
        word: None,
        gap,
        ordinal,
    }
}

fn passing(on: Outline) -> Moved
    ensures { result ≡ passing on }
{
    Moved { key: None, on }
}

impl Outline {
    fn naming(self, place: usize, len: usize, on: Outline) -> Moved
        ensures { result ≡ naming self place len on }
    {
        Moved {
            key: Some(Key {
                ordinal: self.ordinal,
                gap: self.gap,
                place,
                len,
            }),
            on,
        }
    }

    // A record, and what follows the command.
    fn named(self, place: usize, len: usize, next: usize) -> Moved
        ensures { result ≡ naming self place len (standing next 0 self.ordinal) }
    {
        let on = standing(next, 0, self.ordinal);
        self.naming(place, len, on)
    }

    // A gap mark, and what follows.
    fn parted(self, next: usize) -> Moved
        ensures { result ≡ passing (standing next 1 self.ordinal) }
    {
        passing(standing(next, 1, self.ordinal))
    }

    // Neither, and what follows.
    pub fn passed(self, next: usize) -> Moved
        ensures { result ≡ passing (standing next self.gap self.ordinal) }
    {
        passing(standing(next, self.gap, self.ordinal))
    }

    fn paged(self, next: usize) -> Moved
        requires { self.ordinal ≤ 16777216 }
        ensures { result ≡ passing (standing next 1 (self.ordinal + 1)) }
    {
        passing(standing(next, 1, self.ordinal + 1))
    }

    fn in_word(self, at: usize, word: Word) -> Moved
        ensures { result ≡ passing (in_word self at word) }
    {
        passing(Outline {
            at,
            word: Some(word),
            ..self
        })
    }

    // One byte of a word.
    pub fn word_move(self, word: Word) -> Moved
        requires { self.at < word.end }
        ensures { result ≡ word_move self word }
    {
        let at = self.at + 1;
        if at < word.end {
            let on = Outline {
                at,
                word: Some(word),
                gap: 0,
                ..self
            };
            self.naming(self.at, 1, on)
        } else {
            self.named(self.at, 1, word.next)
        }
    }

    // `N`: a gap where its number is negative.
    fn index_move(self, number: u32, next: usize) -> Moved
        ensures { result ≡ index_move self number next }
    {
        if number < 100_000_000 {
            self.parted(next)
        } else {
            self.named(0, 0, next)
        }
    }

    // One command.
    pub fn command_move(self, c: Command) -> Moved
        requires { self.ordinal ≤ 16777216 }
        ensures { result ≡ command_move self c }
    {
        match c {
            Command::Glyph { place, len, next } => self.named(place, len, next),
            Command::Index { number, next } => self.index_move(number, next),
            Command::Word {
                place,
                end,
                next,
                ..
            } => self.in_word(place, Word { end, next }),
            Command::Pair { place, next, .. } => self.named(place, 1, next),
            Command::Page { next, .. } => self.paged(next),
            Command::Break { next } | Command::Space { next } => self.parted(next),
            Command::To { next, .. }
            | Command::By { next, .. }
            | Command::Font { next, .. }
            | Command::Size { next, .. }
            | Command::Colour { next, .. }
            | Command::Draw { next, .. }
            | Command::Gray { next, .. }
            | Command::Fill { next, .. }
            | Command::Device { next, .. }
            | Command::Resolution { next, .. }
            | Command::Init { next }
            | Command::File { next, .. }
            | Command::Mount { next, .. }
            | Command::Plain { next, .. }
            | Command::Raw { next }
            | Command::Stop { next } => self.passed(next),
        }
    }
}
