// The rewriter (document 01, "House spelling"): a stream with its width list, and a lent buffer. One pass judges the stream and
// measures its spelling, and where nothing is against them a second one writes it.
#![tactic(auto)]

ghost use Rattle.rules.specs.Calls.{RespellCall};
ghost use Rattle.read_turn.specs.Ready.{Scratch};

use rules::Refusal;

// Both passes; the first one's bytes go to none.
fn both(
    none: &mut [u8],
    ws: &mut [u32],
    s: &[u8],
    list: &[u8],
    out: &mut [u8],
) -> Result<usize, Refusal>
    requires { Scratch ws.old }
    ensures { RespellCall s.now list.now out.old result out.new }
{
    let a = respell_measure::measure(none, ws, s, list);
    let b = respell_setup::again(ws, a, s.len(), out.len());
    let c = respell_pass::pass(out, ws, s, list, b);
    respell_setup::answer(c)
}

// The length of the spelling, which stands at the start of the buffer; or a refusal, which leaves the buffer as it was.
pub fn respell(s: &[u8], list: &[u8], out: &mut [u8]) -> Result<usize, Refusal>
    ensures { RespellCall s.now list.now out.old result out.new }
{
    let mut ws = read_scratch::room();
    let mut none = respell_measure::no_bytes();
    both(&mut none, &mut ws, s, list, out)
}
