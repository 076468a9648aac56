// The words of the command line, and whole files. No contract can say what is read, so these say only that there is no more than the
// buffer has.
#![tactic(auto)]

ghost use Rattle.std.specs.Prelude.{IfSome, IfOk};
ghost use Rattle.small_out.specs.Prefix.{IsPrefixLen};

use small_out::{fail, say};
use std::env::FillError;
use std::io::Read;
use std::rt::{Env, Files};
use std::{fs, io, str};

// The longest stream that the programs take, which fits a stack of 8 MiB, and the room to see a longer one.
pub const STREAM_MOST: usize = 1048576;

pub const STREAM_ROOM: usize = 1048577;

// Room for any path.
pub const PATH_ROOM: usize = 4096;

// One byte more than a width list may have.
pub const LIST_ROOM: usize = 65537;

// Linux's numbers for what std tells in its own words: a word that is not there, one that is too long, and bytes that are no text.
const INVALID: i32 = 22;

const TOO_LONG: i32 = 36;

const NOT_TEXT: i32 = 84;

// The first two words of a command line of `count`, its program's name among them: how long the paths of a stream and of its width list
// are. Where there are more or fewer, the usage is said.
pub fn paths(
    rt: &impl Env,
    err: &impl Print,
    count: usize,
    usage: &[u8],
    stream: &mut [u8],
    widths: &mut [u8],
) -> Option<(usize, usize)>
    ensures { IfSome result (λ n. IsPrefixLen n.0 stream.new × IsPrefixLen n.1 widths.new) }
{
    if !has_words(rt, count) {
        say(err, usage);
        return None;
    }
    let n = word(rt, err, 1, stream, b"STREAM")?;
    let m = word(rt, err, 2, widths, b"WIDTHS")?;
    Some((n, m))
}

// Whether the command line is of `count` words.
fn has_words(rt: &impl Env, count: usize) -> bool {
    (count == 0 || has_word(rt, count - 1)) && !has_word(rt, count)
}

// A word that is there is longer than the buffer, or as long, or empty.
fn has_word(rt: &impl Env, i: usize) -> bool {
    !matches!(rt.arg(i, &mut [0]), Err(FillError::NotPresent))
}

// How long word i of the command line is, which stands at the start of the buffer then; where there is none, or a longer one, that is
// said under the given name.
pub fn word(rt: &impl Env, err: &impl Print, i: usize, buf: &mut [u8], name: &[u8]) -> Option<usize>
    ensures { IfSome result (λ n. IsPrefixLen n buf.new) }
{
    match rt.arg(i, buf) {
        Ok(n) => Some(n),
        Err(why) => {
            fail(err, name, no_word(why));
            None
        }
    }
}

fn no_word(why: FillError) -> io::Error {
    io::Error::from_raw_os_error(match why {
        FillError::NotPresent => INVALID,
        FillError::TooLong => TOO_LONG,
    })
}

// How long the stream and the width list at their paths are, which stand at the start of the buffers then. What fails is said on standard
// error.
pub fn load_both(
    rt: &impl Files,
    err: &impl Print,
    stream: &[u8],
    widths: &[u8],
    s: &mut [u8],
    list: &mut [u8],
) -> Option<(usize, usize)>
    ensures { IfSome result (λ n. IsPrefixLen n.0 s.new × IsPrefixLen n.1 list.new) }
{
    let n = load_stream(rt, err, stream, s)?;
    let m = load(rt, err, widths, list)?;
    Some((n, m))
}

// A stream, as `load`; a longer one than the programs take is none.
fn load_stream(rt: &impl Files, err: &impl Print, path: &[u8], buf: &mut [u8]) -> Option<usize>
    ensures { IfSome result (λ n. IsPrefixLen n buf.new) }
{
    let n = load(rt, err, path, buf)?;
    if n <= STREAM_MOST {
        return Some(n);
    }
    say(err, path);
    say(
        err,
        b": over 1,048,576 bytes, more than this program takes\n",
    );
    None
}

// Reads the file into the buffer until either ends: how many bytes. What fails is said on standard error.
pub fn load(rt: &impl Files, err: &impl Print, path: &[u8], buf: &mut [u8]) -> Option<usize>
    ensures { IfSome result (λ n. IsPrefixLen n buf.new) }
{
    match read_file(rt, path, buf) {
        Ok(n) => Some(n),
        Err(error) => {
            fail(err, path, error);
            None
        }
    }
}

fn read_file(rt: &impl Files, path: &[u8], buf: &mut [u8]) -> io::Result<usize>
    ensures { IfOk result (λ n. IsPrefixLen n buf.new) }
{
    let mut file = open(rt, path)?;
    read_all(&mut file, buf)
}

// A path is text here, so one of other bytes names no file.
fn open<R: Files>(rt: &R, path: &[u8]) -> io::Result<R::File> {
    match str::from_utf8(path) {
        Ok(path) => fs::open(rt, path),
        Err(_) => Err(io::Error::from_raw_os_error(NOT_TEXT)),
    }
}

// std reads a whole file only into what grows, so here it is read part by part.
fn read_all(file: &mut impl Read, buf: &mut [u8]) -> io::Result<usize>
    ensures { IfOk result (λ n. IsPrefixLen n buf.new) }
{
    let mut at = 0;
    while at < buf.len() {
        let n = file.read(&mut buf[at..])?;
        if n == 0 {
            break;
        }
        at += n;
    }
    Ok(at)
}
