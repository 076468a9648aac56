// `small_find STREAM WIDTHS QUERY`: prints where a query occurs in a stream, or the refusal.
#![tactic(auto)]

use small_finding::show;
use small_program::run;

fn main(rt: HostRuntime) {
    run(
        &rt,
        4,
        b"usage: small_find STREAM WIDTHS QUERY\n",
        |to, files| show(
            to,
            files.stream.bytes,
            files.widths.bytes,
            files.query.map_or(&[], |query| query.bytes),
        ),
    );
}
