//! Scripts and journals that tests of several crates read, write and compare.

/// A service, the tunnel and a backend.
pub const SERVICE: &str = "0 gateway 10.0.0.9 02:00:00:00:00:0a 02:00:00:00:00:0b
0 vip 203.0.113.1 80 udp
0 up 0 192.0.2.1
";

/// The journals of one run of `COUNTS_TO_THREE`, by worker 0 with a journal of 16 entries, and of the reclaimer's round after it.
pub const COUNTED_TO_THREE: &str = "XLBJ 1 1 1 16
0 w0 enter ok
0 w0 update 07000000 0200000000000000 0 answer 0
0 w0 lookup 07000000 cell 0
0 w0 atomic 0 0 8 1 1 0 word 2
0 w0 load 0 0 8 word 3
0 w0 leave ok
0 r reclaim freed 0
";
