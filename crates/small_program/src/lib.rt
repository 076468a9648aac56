// A program over a stream, its width list and perhaps a query: the words of its command line are read, then the files that they name; the
// answer is printed, and what fails is said on standard error.
#![tactic(auto)]

ghost use Rattle.std.specs.Prelude.{IfSome};
ghost use Rattle.small_out.specs.Prefix.{IsPrefixLen};

use rules::Refusal;
use small_files::{LIST_ROOM, PATH_ROOM, STREAM_ROOM, load, load_both, paths, word};
use small_out::fail;
use small_people::{Source, refused, refused_either};
use std::io;
use std::rt::{Env, Files};

// One byte more than a query may have.
const QUERY_ROOM: usize = 8193;

// The words of a command line with a query, the program's name among them.
const WITH_QUERY: usize = 4;

// The files of a program; not every one takes a query.
#[derive(Clone, Copy)]
pub struct Inputs<'a> {
    pub stream: Source<'a>,
    pub widths: Source<'a>,
    pub query: Option<Source<'a>>,
}

// Their paths.
#[derive(Clone, Copy)]
struct Paths<'a> {
    stream: &'a [u8],
    widths: &'a [u8],
    query: Option<&'a [u8]>,
}

// What was answered and printed, and the error where not all of it could be written.
#[derive(Drop)]
pub struct Shown<T> {
    pub answer: Result<T, Refusal>,
    pub good: io::Result<()>,
}

// Runs a program whose command line has `count` words, and whose answer `show` prints.
pub fn run<T: Drop, F: Fn(&HostRuntime, Inputs) -> Shown<T>>(
    rt: &HostRuntime,
    count: usize,
    usage: &[u8],
    show: F,
)
    requires { F.IsAlwaysCallable show }
{
    let err = rt.stderr();
    let mut stream = [0u8; PATH_ROOM];
    let mut widths = [0u8; PATH_ROOM];
    let mut query = [0u8; PATH_ROOM];
    let Some((n, m)) = paths(rt, &err, count, usage, &mut stream, &mut widths) else {
        return;
    };
    let Some(query) = query_path(rt, &err, count, &mut query) else {
        return;
    };
    let paths = Paths {
        stream: &stream[..n],
        widths: &widths[..m],
        query,
    };
    with_room(rt, paths, show);
}

// The path of the query, of a program that takes one; nothing where it can't be had, which is said.
fn query_path<'a>(
    rt: &impl Env,
    err: &impl Print,
    count: usize,
    buf: &'a mut [u8],
) -> Option<Option<&'a [u8]>> {
    if count < WITH_QUERY {
        return Some(None);
    }
    let k = word(rt, err, WITH_QUERY - 1, buf, b"QUERY")?;
    Some(Some(&buf[..k]))
}

// Room for the files at these paths.
fn with_room<T: Drop, F: Fn(&HostRuntime, Inputs) -> Shown<T>>(
    rt: &HostRuntime,
    paths: Paths,
    show: F,
)
    requires { F.IsAlwaysCallable show }
{
    let mut s = [0u8; STREAM_ROOM];
    let mut list = [0u8; LIST_ROOM];
    let mut q = [0u8; QUERY_ROOM];
    let err = rt.stderr();
    if let Some(inputs) = load_all(rt, &err, paths, &mut s, &mut list, &mut q) {
        answer(rt, inputs, show);
    }
}

// Reads the files at these paths into the buffers. What fails is said on standard error.
fn load_all<'a>(
    rt: &impl Files,
    err: &impl Print,
    paths: Paths<'a>,
    s: &'a mut [u8],
    list: &'a mut [u8],
    q: &'a mut [u8],
) -> Option<Inputs<'a>> {
    let (n, m) = load_both(rt, err, paths.stream, paths.widths, s, list)?;
    let query = load_query(rt, err, paths.query, q)?;
    Some(Inputs {
        stream: Source {
            path: paths.stream,
            bytes: &s[..n],
        },
        widths: Source {
            path: paths.widths,
            bytes: &list[..m],
        },
        query,
    })
}

// The query at its path, of a program that takes one; nothing where it can't be read, which is said.
fn load_query<'a>(
    rt: &impl Files,
    err: &impl Print,
    path: Option<&'a [u8]>,
    buf: &'a mut [u8],
) -> Option<Option<Source<'a>>> {
    let Some(path) = path else {
        return Some(None);
    };
    let k = load(rt, err, path, buf)?;
    Some(Some(Source {
        path,
        bytes: &buf[..k],
    }))
}

fn answer<T: Drop, F: Fn(&HostRuntime, Inputs) -> Shown<T>>(
    rt: &HostRuntime,
    inputs: Inputs,
    show: F,
)
    requires { F.IsAlwaysCallable show }
{
    let err = rt.stderr();
    let shown = show(rt, inputs);
    match shown.good {
        Err(error) => fail(&err, b"standard output", error),
        Ok(()) => {
            if let Err(refusal) = shown.answer {
                say_refusal(&err, inputs, refusal);
            }
        }
    }
}

// The line is about the query where that is wrong or too long.
fn say_refusal(err: &impl Print, inputs: Inputs, refusal: Refusal) {
    match (inputs.query, refusal.number) {
        (Some(query), 12) => refused(err, query, refusal),
        (Some(query), 1) if inputs.widths.bytes.len() < LIST_ROOM => refused(err, query, refusal),
        _ => refused_either(err, inputs.stream, inputs.widths, refusal),
    }
}
