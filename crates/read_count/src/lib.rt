// The state behind a command, and behind what is skipped: what the command gives is counted and goes to its row, where there is room.
#![tactic(auto)]

ghost use Rattle.std.specs.Prelude.{true, ◌≡◌, ◌-◌, ◌≤◌, ◌<◌};
ghost use Rattle.read_model.specs.declared.Emitted.TheVariants as E;
ghost use Rattle.read_model.specs.Turns.{halted_by, gone_to, filling, emitted, done_of, skipped};
ghost use Rattle.read_count.specs.Room.{has_room};

use read_model::{Did, Effect, Emitted, Environment, State, Turned, Word};
use rules::{Entry, Record, Refusal};

// The state that stops with a refusal, at the place that it points at.
pub fn halted(st: State, r: Refusal) -> Turned
    ensures { result ≡ halted_by st r }
{
    Turned {
        effect: Effect::Nothing,
        state: State {
            left: 0,
            at: r.offset,
            refusal: r.number,
            ..st
        },
    }
}

// The state at the place next of a stream of n bytes.
fn gone_to(
    n: usize,
    st: State,
    next: usize,
    records: usize,
    entries: usize,
    e: Environment,
) -> State
    requires { next ≤ n }
    ensures { result ≡ gone_to n st next records entries e }
{
    State {
        left: n - next,
        at: next,
        records,
        entries,
        env: e,
        ..st
    }
}

pub fn skipped(n: usize, st: State, next: usize) -> Turned
    requires { next ≤ n }
    ensures { result ≡ skipped n st next }
{
    let e = st.env;
    Turned {
        effect: Effect::Nothing,
        state: gone_to(n, st, next, st.records, st.entries, e),
    }
}

// Only where the row is filled.
fn filling(fills: bool, f: Effect) -> Effect
    ensures { result ≡ filling fills f }
{
    if fills { f } else { Effect::Nothing }
}

fn record_out(n: usize, st: State, next: usize, e: Environment, x: Record) -> Turned
    requires { (next ≤ n) × (st.records < st.rmax) }
    ensures { result ≡ emitted n st next e (E.Record x) }
{
    let k = st.records;
    Turned {
        effect: filling(0 < st.fill, Effect::Record(k, x)),
        state: gone_to(n, st, next, k + 1, st.entries, e),
    }
}

fn entry_out(n: usize, st: State, next: usize, e: Environment, x: Entry) -> Turned
    requires { (next ≤ n) × (st.entries < st.emax) }
    ensures { result ≡ emitted n st next e (E.Entry x) }
{
    let k = st.entries;
    Turned {
        effect: filling(st.fill == 1, Effect::Entry(k, x)),
        state: gone_to(n, st, next, st.records, k + 1, e),
    }
}

fn word_out(n: usize, st: State, next: usize, e: Environment, w: Word) -> Turned
    requires { (next ≤ n) × (st.records ≤ st.rmax) × (w.left ≤ st.rmax - st.records) }
    ensures { result ≡ emitted n st next e (E.Word w) }
{
    let k = st.records;
    Turned {
        effect: filling(0 < st.fill, Effect::Word(k, w)),
        state: gone_to(n, st, next, k + w.left, st.entries, e),
    }
}

// Whether the rows have room for what a command gives.
fn has_room(st: State, x: Emitted) -> bool
    requires { st.records ≤ st.rmax }
    ensures { result ≡ has_room st x }
{
    match x {
        Emitted::Nothing => true,
        Emitted::Record(_) => st.records < st.rmax,
        Emitted::Entry(_) => st.entries < st.emax,
        Emitted::Word(w) => {
            let room = st.rmax - st.records;
            w.left <= room
        }
    }
}

// What a command gives goes to the rows, which have room for it.
fn put_out(n: usize, st: State, next: usize, e: Environment, x: Emitted) -> Turned
    requires { (next ≤ n) × (st.records ≤ st.rmax) × (has_room st x ≡ true) }
    ensures { result ≡ emitted n st next e x }
{
    match x {
        Emitted::Nothing => Turned {
            effect: Effect::Nothing,
            state: gone_to(n, st, next, st.records, st.entries, e),
        },
        Emitted::Record(y) => record_out(n, st, next, e, y),
        Emitted::Entry(y) => entry_out(n, st, next, e, y),
        Emitted::Word(w) => word_out(n, st, next, e, w),
    }
}

// The state behind a command, at next; or 13 where a row has no room. Room is asked for before the new state is made: a function that
// copies the environment from one of two places in the same way keeps the whole state in memory, at a great cost in time.
fn given(n: usize, st: State, next: usize, d: Did) -> Turned
    requires { (next ≤ n) × (st.records ≤ st.rmax) }
    ensures { result ≡ emitted n st next d.env d.emitted }
{
    if has_room(st, d.emitted) {
        put_out(n, st, next, d.env, d.emitted)
    } else {
        halted(
            st,
            Refusal {
                number: 13,
                offset: st.at,
            },
        )
    }
}

// The state behind a command, or its refusal.
pub fn done(n: usize, st: State, next: usize, d: Result<Did, Refusal>) -> Turned
    requires { (next ≤ n) × (st.records ≤ st.rmax) }
    ensures { result ≡ done_of n st next d }
{
    match d {
        Ok(did) => given(n, st, next, did),
        Err(r) => halted(st, r),
    }
}
