// `small_glyphs STREAM WIDTHS`: prints the records, the entries and the end of a stream, or its refusal.
#![tactic(auto)]

use small_program::run;
use small_reading::show;

fn main(rt: HostRuntime) {
    run(
        &rt,
        3,
        b"usage: small_glyphs STREAM WIDTHS\n",
        |to, files| show(to, files.stream.bytes, files.widths.bytes),
    );
}
