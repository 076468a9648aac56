// One pass over the stream, run twice: it judges, or fills the lent rows.
#![tactic(auto)]

ghost use Rattle.std.specs.Prelude.{◌≡◌, length};
ghost use Rattle.read_model.specs.Passes.{read_pass_of};
ghost use Rattle.read_turn.specs.Ready.{find_in};
ghost use Rattle.read_pass.specs.Ready.{PassReady};

use read_model::{Effect, State};
use rules::{Entry, Record};
use scan_reader::Reader;

// Turn by turn to the end or a refusal; what each turn gives goes to the rows.
pub fn pass(
    records: &mut [Record],
    entries: &mut [Entry],
    ws: &mut [u32],
    s: &[u8],
    list: &[u8],
    from: State,
) -> State
    requires { PassReady (length s.now) ws.old (length records.old) (length entries.old) from }
    ensures { record { state = result; scratch = ws.new; records = records.new; entries = entries.new } ≡ read_pass_of (find_in list.now from.fonts ws.old) s.now (record { state = from; scratch = ws.old; records = records.old; entries = entries.old }) }
{
    let mut reader = Reader::new(s);
    let mut st = from;
    while 0 < st.left {
        reader.at = st.at;
        let x = read_turn::turn(ws, reader, list, st);
        let effect = x.effect;
        match effect {
            Effect::Nothing => {}
            Effect::Record(i, r) => rowkit::put(records, i, r),
            Effect::Entry(i, y) => rowkit::put(entries, i, y),
            Effect::Word(k, w) => read_rows::fill_word(records, s, ws, k, w),
        }
        st = x.state;
    }
    st
}
