// The search over the records that were filled, one comparison of a record with a glyph of the query a turn.
#![tactic(auto)]

ghost use Rattle.std.specs.Prelude.{◌≡◌, length};
ghost use Rattle.find_search.specs.Search.{search_of, SearchReadyOrDone};

use find_compare::Progress;
use find_match::Question;
use rules::Record;

// Record by record, glyph by glyph; each hit goes to the row.
pub fn search(
    hits: &mut [u32],
    row: &[Record],
    s: &[u8],
    question: &Question<'_>,
    from: Progress,
) -> Progress
    requires { SearchReadyOrDone (length row.now) (length hits.old) question.now from }
    ensures { record { state = result; hits = hits.new } ≡ search_of s.now question.now row.now (record { state = from; hits = hits.old }) }
{
    let mut st = from;
    while 0 < st.left {
        let r = rowkit::get(row, st.at + st.glyph);
        let fed = st.feed(s, question, r);
        if let Some(i) = fed.hit {
            rowkit::put(hits, st.hits, i);
        }
        st = fed.state;
    }
    st
}
