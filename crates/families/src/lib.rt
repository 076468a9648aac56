// The family list (request 2026-01), judged, and its families in the table.
#![tactic(auto)]

ghost use Rattle.std.specs.Prelude.{◌≡◌, ◌+◌, ◌≤◌, ◌<◌, length};
ghost use Rattle.rules.specs.Answers.{refusal};
ghost use Rattle.rules.specs.Families.{is_new_name, family_list};
ghost use Rattle.families_table.specs.Table.{families_at, Sized};
ghost use Rattle.families.specs.Loading.{Marked, line_key, next_of, Slot, Put, Going, Turned, answer_of, Loaded};

use families_line::Key;
use families_table::{FamilyName, Table};
use rules::Refusal;

// Between two lines: the next line's place, how many families were read, and how many names the newest of them has.
#[derive(Clone, Copy)]
struct FamilyState {
    at: usize,
    families: usize,
    size: usize,
}

// The list is wrong there.
fn wrong(offset: usize) -> Refusal
    ensures { result ≡ refusal 14 offset }
{
    Refusal { number: 14, offset }
}

// Whether a name of a line is a name of a list, and not among the families so far. Where no earlier name has its mark, it is not.
#[tactic(auto, using(crate::proofs::Steps::steps))]
fn is_new(fl: &[u8], table: &Table, seen: &[bool; 16384], families: usize, name: &[u8]) -> bool
    requires { Sized table.now families × Marked seen.now (families_at fl.now table.now families) }
    ensures { result ≡ is_new_name name.now (families_at fl.now table.now families) }
{
    scan_lex::is_list_name(name)
        && (!seen[families_line::mark_of(name)]
            || families_table::owner(fl, table, families, name).is_none())
}

// The key of the line from the state's place to its end; none where the line is wrong.
#[tactic(auto, using(crate::proofs::Steps::steps))]
fn line_key(
    fl: &[u8],
    table: &Table,
    seen: &[bool; 16384],
    st: FamilyState,
    end: usize,
) -> Option<Key>
    requires { Going fl.now st table.now seen.now × (st.at ≤ end) × (end ≤ length fl.now) }
    ensures { result ≡ line_key fl.now table.now st end }
{
    let key = families_line::key_of(&fl[st.at..end]);
    if families_line::may_stand(key, st.families, st.size) {
        let place = st.at + 5;
        if is_new(fl, table, seen, st.families, &fl[place..end]) {
            return key;
        }
    }
    None
}

// The state behind a line with this key.
fn next(key: Key, at: usize, st: FamilyState) -> FamilyState
    requires { (st.families ≤ 256) × (st.size ≤ 8) }
    ensures { result ≡ next_of key at st }
{
    match key {
        Key::Name => FamilyState {
            at,
            families: st.families + 1,
            size: 1,
        },
        Key::Same => FamilyState {
            at,
            families: st.families,
            size: st.size + 1,
        },
    }
}

// Puts the newest name of the family j, which then has so many, into the table.
fn put(table: &mut Table, j: usize, size: usize, name: FamilyName)
    requires { Slot j size }
    ensures { Put table.old j size name table.new }
{
    table.names[j * 8 + size - 1] = name;
    table.sizes[j] = size as u32;
}

// Reads one line.
#[tactic(auto, using(crate::proofs::Turning::turning))]
fn turn(
    fl: &[u8],
    table: &mut Table,
    seen: &mut [bool; 16384],
    st: FamilyState,
) -> Result<FamilyState, Refusal>
    requires { Going fl.now st table.old seen.old × (st.at < length fl.now) }
    ensures { Turned fl.now st result table.new seen.new }
{
    let at = st.at;
    let end = scan_lex::line_end(fl, at);
    if fl.len() <= end {
        return Err(wrong(at));
    }
    let key = line_key(fl, table, seen, st, end).ok_or(wrong(at))?;
    let place = at + 5;
    let name = FamilyName {
        place: place as u32,
        len: (end - place) as u32,
    };
    let mark = families_line::mark_of(&fl[place..end]);
    let u = next(key, end + 1, st);
    put(table, u.families - 1, u.size, name);
    seen[mark] = true;
    Ok(u)
}

// Judges the list, and puts its families into the table; answers how many there are, or refusal 14. `seen` is for the marks of its names.
// Their content does not matter where the list is wrong.
#[tactic(auto, using(crate::proofs::Turning::turning))]
pub fn load(fl: &[u8], table: &mut Table, seen: &mut [bool; 16384]) -> Result<usize, Refusal>
    requires { length fl.now ≤ 65536 }
    ensures { (result ≡ answer_of (family_list fl.now)) × Loaded fl.now table.new (family_list fl.now) }
{
    let mut st = FamilyState {
        at: 0,
        families: 0,
        size: 0,
    };
    // No `for` over the lines is plainer: a refusal names the place of its line.
    while st.at < fl.len() {
        st = turn(fl, table, seen, st)?;
    }
    if st.size == 1 {
        return Err(wrong(fl.len()));
    }
    Ok(st.families)
}
