// What a judging answers where the rewriter's first pass ended.
#![tactic(auto)]

ghost use Rattle.std.specs.Prelude.{◌≡◌};
ghost use Rattle.judge_answer.specs.Answer.{judge_answer_of};

use respell_model::Writing;
use rules::{Judging, Refusal};

// The answer where the pass ended: its own refusal; 11, "no `x s`"; or what it counted.
pub fn answer(w: Writing) -> Result<Judging, Refusal>
    ensures { result ≡ judge_answer_of w }
{
    let st = w.state;
    let e = st.env;
    let m = w.mark;
    if st.refusal != 0 {
        return Err(Refusal {
            number: st.refusal,
            offset: st.at,
        });
    }
    if e.phase != 4 {
        return Err(Refusal {
            number: 11,
            offset: st.at,
        });
    }
    Ok(Judging {
        records: st.records,
        entries: st.entries,
        pages: e.ordinal,
        spelling: m.at,
    })
}
