// What a finding does around its passes and its search: the state in which each pass begins, and where the search begins.
#![tactic(auto)]

ghost use Rattle.std.specs.Prelude.{◌≡◌, ◌≤◌};
ghost use Rattle.read_turn.specs.Ready.{Scratch};
ghost use Rattle.read_setup.specs.Setup.{Unmounted};
ghost use Rattle.find_setup.specs.Setup.{begun_of, Begun, find_next_of, FewRecords, searched, progress_of};

use find_compare::Progress;
use read_model::State;
use rules::Refusal;

// ---- the state in which a pass begins

// A state in which a pass begins, or what refuses it.
fn begun(a: State) -> Result<State, Refusal>
    ensures { result ≡ begun_of a }
{
    if a.refusal == 0 {
        Ok(a)
    } else {
        Err(Refusal {
            number: a.refusal,
            offset: a.at,
        })
    }
}

// The judging pass; or refusal 1 or 2.
pub fn start(ws: &mut [u32], s: &[u8], list: &[u8]) -> Result<State, Refusal>
    requires { Scratch ws.old }
    ensures { Begun s.now list.now result ws.new }
{
    begun(read_setup::start(ws, s, list))
}

// Where the judging pass ended at b: the pass that fills the records, or the refusal.
pub fn again(ws: &mut [u32], b: State, n: usize, rmax: usize) -> Result<State, Refusal>
    requires { Scratch ws.old }
    ensures { (result ≡ find_next_of b n rmax) × Unmounted ws.old ws.new }
{
    begun(read_setup::again(ws, b, n, rmax, b.entries, 2))
}

// ---- the search

// How many records are searched: none in a refusal.
fn searched(d: State) -> usize
    requires { FewRecords d }
    ensures { (result ≡ searched d) × (result ≤ 16777216) }
{
    if d.refusal == 0 { d.records } else { 0 }
}

// Where the search begins, the last pass having ended at d, for so many glyphs.
pub fn progress(d: State, glyphs: usize, hmax: usize) -> Progress
    requires { FewRecords d }
    ensures { result ≡ progress_of d glyphs hmax }
{
    let records = searched(d);
    Progress {
        left: records * 64,
        at: 0,
        glyph: 0,
        hits: 0,
        hmax,
        records,
        glyphs,
        page: 0,
    }
}
