// `small_respell STREAM WIDTHS`: prints the house spelling of a stream, or the refusal.
#![tactic(auto)]

use small_program::run;
use small_spelling::show;

fn main(rt: HostRuntime) {
    run(
        &rt,
        3,
        b"usage: small_respell STREAM WIDTHS\n",
        |to, files| show(to, files.stream.bytes, files.widths.bytes),
    );
}
