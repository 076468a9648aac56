// The rewriter's first pass, which judges a stream and measures its spelling. What it writes nobody reads.
#![tactic(auto)]

ghost use Rattle.read_turn.specs.Ready.{Scratch};
ghost use Rattle.respell_twice.specs.Respell.{Measured};

use respell_model::Writing;

// A buffer whose bytes are not wanted.
pub fn no_bytes() -> [u8; 1] {
    [0u8; 1]
}

// Where the pass ended, with what it counted.
pub fn measure(none: &mut [u8], ws: &mut [u32], s: &[u8], list: &[u8]) -> Writing
    requires { Scratch ws.old }
    ensures { Measured s.now list.now result ws.new }
{
    let a = read_setup::start(ws, s, list);
    respell_pass::pass(none, ws, s, list, respell_setup::begin(a))
}
