// What the programs write: standard output in blocks, and lines for people on standard error. After a write that failed nothing more is
// written to standard output: it is told as an error, with which the printing ends.
#![tactic(auto)]

ghost use Rattle.std.specs.Prelude.{◌≡◌, None, OnOk, OnErr};
ghost use Rattle.std.specs.Io.KnownBytes.{Keeps};
ghost use Rattle.small_out.specs.Prefix.{IsPrefixLen};

use arrayvec::ArrayString;
use std::fmt::Write as _;
use std::io;
use std::io::Write as _;

pub const BLOCK: usize = 1024;

// What waits to be written: the first bytes of the block, all of them at most.
#[derive(Clone, Copy)]
pub struct Out {
    pub used: usize,
    pub block: [u8; BLOCK],
}

impl Out {
    fn bytes(&self) -> &[u8] {
        &self.block[..self.used.min(BLOCK)]
    }

    // As many bytes of the line as the block has room for, behind what waits.
    fn take(&mut self, line: &[u8]) -> usize
        ensures { IsPrefixLen result line.now }
    {
        let at = self.used.min(BLOCK);
        let n = line.len().min(BLOCK - at);
        self.block[at..at + n].copy_from_slice(&line[..n]);
        self.used = at + n;
        n
    }
}

// Standard output, and what waits to be written to it.
#[derive(Drop)]
pub struct Printing<'a, P: Print> {
    to: &'a P,
    waiting: Out,
}

impl<'a, P: Print> Printing<'a, P> {
    // Nothing waits at first.
    pub fn new(to: &'a P) -> Self
        ensures { result.waiting.used ≡ 0 }
    {
        Printing {
            to,
            waiting: Out {
                used: 0,
                block: [0; BLOCK],
            },
        }
    }
}

impl<P: Print> io::Write for Printing<'_, P> {
    // As many bytes as the block has room for; a full block is written first.
    fn write(&mut self, line: &[u8]) -> io::Result<usize> {
        if BLOCK <= self.waiting.used {
            self.flush()?;
        }
        Ok(self.waiting.take(line))
    }

    // Writes what waits; an error where not all of it was taken, and all of it waits still.
    fn flush(&mut self) -> io::Result<()>
        ensures bytes { Keeps None None }
        ensures written { OnOk result (self.new.waiting.used ≡ 0) }
        ensures kept { OnErr result (self.new.waiting ≡ self.old.waiting) }
    {
        self.to.write_all(self.waiting.bytes())?;
        self.waiting.used = 0;
        Ok(())
    }
}

// Writes the first n bytes of the text, as far as it has them; an error where not all of them were taken.
pub fn print(to: &impl Print, text: &[u8], n: usize) -> io::Result<()> {
    let k = n.min(text.len());
    to.write_all(&text[..k])
}

// Writes for people, where no write that fails is told.
pub fn say(to: &impl Print, text: &[u8]) {
    let _ = to.write_all(text);
}

// Longer than the system's text of any error with its number.
const ERROR: usize = 320;

// Says a line: what failed, as the caller names it, a colon and the error's text without its number. Each piece is a write of its own, so
// that one which fails leaves out itself alone.
pub fn fail(to: &impl Print, what: &[u8], error: io::Error) {
    let mut text = ArrayString::<ERROR>::new();
    let _ = write!(text, "{error}");
    say(to, what);
    say(to, b": ");
    say(to, words(text.as_str()).as_bytes());
    say(to, b"\n");
}

fn words(text: &str) -> &str {
    match text.split_once(" (os error ") {
        Some((words, _)) => words,
        None => text,
    }
}
