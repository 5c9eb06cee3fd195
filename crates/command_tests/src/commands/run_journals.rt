//! Journals of runs, as `--journals` writes them.

use super::{LEGAL, ZEROS, assembled, compare, compare_file, done};
use std::alloc::Global;
use std::process::Abort;
use std::sync::Wait;
use std::thread::Threads;
use test_support::programs::COUNTS_TO_THREE;

const THREE: &str = "XLBJ 1 8 1 65536
0 w2 enter ok
0 w2 update 07000000 0200000000000000 0 answer 0
0 w2 lookup 07000000 cell 0
0 w2 atomic 0 0 8 1 1 0 word 2
0 w2 load 0 0 8 word 3
0 w2 leave ok
";

const NO_CALLS: &str = "version 1
map hash 4 8 1
mov r0, 3
exit
";

/// What a row shows, a program, and the journals of its run as worker 2.
#[rattlefmt::skip]
const ROWS: [(&str, &str, &str); 2] = [
    ("calls on one map", COUNTS_TO_THREE, THREE),
    ("no call",          NO_CALLS,        "XLBJ 1 8 1 65536\n"),
];

/// Holds the journals that a run of a program writes against the wanted ones, which an audit finds legal.
fn compare_journals<R: Abort + Threads + Wait + Sync>(
    rt: &R,
    alloc: Global,
    name: &str,
    text: &str,
    wanted: &str,
) {
    let folder = assembled(rt, alloc, name, text, ("frame", ZEROS));
    let line = "xlb run image frame --worker 2 --journals j";
    let folder = done(rt, alloc, name, folder, line);
    let folder = compare_file(rt, alloc, name, folder, "j", wanted.as_bytes());
    compare(rt, alloc, name, folder, "xlb audit image j", LEGAL);
}

#[test]
fn runs_write_their_journals(rt: HostRuntime) {
    for row in &ROWS {
        compare_journals(&rt, rt.alloc(), row.0, row.1, row.2);
    }
}
