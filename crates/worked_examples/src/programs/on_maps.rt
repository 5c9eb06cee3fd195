//! Programs that use maps, and the journals that their runs leave.

use super::{FOUND_AND_READ, is_accepted, is_refused};
use crate::commands::{ZEROS, runs_and_leaves};
use test_support::programs::{COUNTS_TO_THREE, READS_ONE};
use verifier::Reject;

/// Reads element 0 without a test whether it was found.
const READS_UNTESTED: &str = "version 1
map array 4 8 1
stw [r10-4], 0
mov r2, r10
add r2, -4
ldmap r1, 0
call 1
ldxdw r3, [r0+0]
mov r0, 2
exit
";

#[test]
fn a_value_is_read_behind_its_null_test(rt: HostRuntime) {
    let alloc = rt.alloc();
    let reject = Reject::WrongKind {
        slot: 6,
        register: 0,
    };
    is_refused(&rt, alloc, READS_UNTESTED, reject);
    is_accepted(&rt, alloc, READS_ONE);
    let ended = "verdict pass\ninstructions 9";
    runs_and_leaves(&rt, alloc, READS_ONE, ZEROS, ended, FOUND_AND_READ);
}

/// Reads element 0 on the edge on which it was not found.
const READS_WHERE_NULL: &str = "version 1
map array 4 8 1
stw [r10-4], 0
mov r2, r10
add r2, -4
ldmap r1, 0
call 1
jne r0, 0, +1
ldxdw r3, [r0+0]
mov r0, 2
exit
";

#[test]
fn a_value_is_not_read_where_it_is_null(rt: HostRuntime) {
    let reject = Reject::WrongKind {
        slot: 7,
        register: 0,
    };
    is_refused(&rt, rt.alloc(), READS_WHERE_NULL, reject);
}

/// Reads element 0 by a copy that was made before the test.
const READS_BY_A_COPY: &str = "version 1
map array 4 8 1
stw [r10-4], 0
mov r2, r10
add r2, -4
ldmap r1, 0
call 1
mov r6, r0
jeq r0, 0, +1
ldxdw r3, [r6+0]
mov r0, 2
exit
";

#[test]
fn a_null_test_counts_for_all_copies(rt: HostRuntime) {
    is_accepted(&rt, rt.alloc(), READS_BY_A_COPY);
}

#[test]
fn a_lookup_needs_a_map(rt: HostRuntime) {
    let text = "version 1\nstw [r10-4], 0\nmov r2, r10\nadd r2, -4\ncall 1\nexit\n";
    let reject = Reject::BadArgument {
        slot: 3,
        register: 1,
    };
    is_refused(&rt, rt.alloc(), text, reject);
}

#[test]
fn a_key_is_set_found_and_counted(rt: HostRuntime) {
    let ended = "verdict tx\ninstructions 18";
    let journals = "XLBJ 1 8 1 65536
0 w0 enter ok
0 w0 update 07000000 0200000000000000 0 answer 0
0 w0 lookup 07000000 cell 0
0 w0 atomic 0 0 8 1 1 0 word 2
0 w0 load 0 0 8 word 3
0 w0 leave ok
";
    runs_and_leaves(&rt, rt.alloc(), COUNTS_TO_THREE, ZEROS, ended, journals);
}

/// Adds 3 at an address that the program names itself.
const COUNTS_AT_AN_ADDRESS: &str = "version 2
map array 4 8 1
ldval r1, 0, 0
mov r2, 3
aadddw [r1+0], r2
ldxdw r0, [r1+0]
exit
";

#[test]
fn a_program_names_an_address_in_a_value(rt: HostRuntime) {
    let ended = "verdict tx\ninstructions 5";
    let journals = "XLBJ 1 8 1 65536
0 w0 enter ok
0 w0 lookup 00000000 cell 0
0 w0 atomic 0 0 8 0 3 0 word 0
0 w0 load 0 0 8 word 3
0 w0 leave ok
";
    let text = COUNTS_AT_AN_ADDRESS;
    runs_and_leaves(&rt, rt.alloc(), text, ZEROS, ended, journals);
}

#[test]
fn an_address_is_within_its_value(rt: HostRuntime) {
    let alloc = rt.alloc();
    let text = "version 2\nmap array 4 8 1\nldval r1, 0, 8\nldxdw r0, [r1+0]\nexit\n";
    is_refused(&rt, alloc, text, Reject::ValueBounds { slot: 2 });
    let text = "version 2\nmap array 4 8 1\nldval r1, 0, 9\nldxdw r0, [r1+0]\nexit\n";
    is_refused(&rt, alloc, text, Reject::ValueBounds { slot: 0 });
}

#[test]
fn an_address_is_of_an_array(rt: HostRuntime) {
    let alloc = rt.alloc();
    let text = "version 2\nmap array 4 8 1\nldval r1, 1, 0\nldxdw r0, [r1+0]\nexit\n";
    is_refused(&rt, alloc, text, Reject::UnknownMap { slot: 0 });
    let text = "version 2\nmap hash 4 8 1\nldval r1, 0, 0\nldxdw r0, [r1+0]\nexit\n";
    is_refused(&rt, alloc, text, Reject::NotArrayMap { slot: 0 });
}

/// Stores a byte as far into a value of 256 bytes as the packet's byte 13 says, and reads it back.
const STORES_A_BYTE: &str = "version 2
map array 4 256 1
ldval r6, 0, 0
ldxw r2, [r1+0]
ldxw r3, [r1+4]
mov r4, r2
add r4, 14
mov r0, 2
jgt r4, r3, +4
ldxb r5, [r2+13]
add r6, r5
stb [r6+0], 3
ldxb r0, [r6+0]
exit
";

#[test]
fn a_byte_goes_where_the_packet_says(rt: HostRuntime) {
    let frame = "00000000000000000000000000ff";
    let ended = "verdict tx\ninstructions 12";
    let journals = "XLBJ 1 8 1 65536
0 w0 enter ok
0 w0 lookup 00000000 cell 0
0 w0 store 0 255 1 3 ok
0 w0 load 0 255 1 word 3
0 w0 leave ok
";
    runs_and_leaves(&rt, rt.alloc(), STORES_A_BYTE, frame, ended, journals);
}

/// The same with a store of two bytes.
const STORES_TWO_BYTES: &str = "version 2
map array 4 256 1
ldval r6, 0, 0
ldxw r2, [r1+0]
ldxw r3, [r1+4]
mov r4, r2
add r4, 14
mov r0, 2
jgt r4, r3, +4
ldxb r5, [r2+13]
add r6, r5
sth [r6+0], 3
ldxb r0, [r6+0]
exit
";

#[test]
fn two_bytes_may_lead_past_a_value(rt: HostRuntime) {
    let reject = Reject::ValueBounds { slot: 10 };
    is_refused(&rt, rt.alloc(), STORES_TWO_BYTES, reject);
}

/// The same with an even number up to 254.
const STORES_TWO_BYTES_AT_254: &str = "version 2
map array 4 256 1
ldval r6, 0, 0
ldxw r2, [r1+0]
ldxw r3, [r1+4]
mov r4, r2
add r4, 14
mov r0, 2
jgt r4, r3, +5
ldxb r5, [r2+13]
and r5, 254
add r6, r5
sth [r6+0], 3
ldxb r0, [r6+0]
exit
";

#[test]
fn two_bytes_at_most_at_254_are_within(rt: HostRuntime) {
    is_accepted(&rt, rt.alloc(), STORES_TWO_BYTES_AT_254);
}

/// The first of these programs with an atomic addition in place of the store.
const ADDS_ANYWHERE: &str = "version 2
map array 4 256 1
ldval r6, 0, 0
ldxw r2, [r1+0]
ldxw r3, [r1+4]
mov r4, r2
add r4, 14
mov r0, 2
jgt r4, r3, +4
ldxb r5, [r2+13]
add r6, r5
aaddw [r6+0], r5
ldxb r0, [r6+0]
exit
";

const ADDS_UP_TO_254: &str = "version 2
map array 4 256 1
ldval r6, 0, 0
ldxw r2, [r1+0]
ldxw r3, [r1+4]
mov r4, r2
add r4, 14
mov r0, 2
jgt r4, r3, +5
ldxb r5, [r2+13]
and r5, 254
add r6, r5
aaddw [r6+0], r5
ldxb r0, [r6+0]
exit
";

const ADDS_UP_TO_252: &str = "version 2
map array 4 256 1
ldval r6, 0, 0
ldxw r2, [r1+0]
ldxw r3, [r1+4]
mov r4, r2
add r4, 14
mov r0, 2
jgt r4, r3, +5
ldxb r5, [r2+13]
and r5, 252
add r6, r5
aaddw [r6+0], r5
ldxb r0, [r6+0]
exit
";

#[test]
fn an_atomic_needs_one_aligned_place(rt: HostRuntime) {
    let alloc = rt.alloc();
    let reject = Reject::ValueBounds { slot: 10 };
    is_refused(&rt, alloc, ADDS_ANYWHERE, reject);
    let reject = Reject::ValueBounds { slot: 11 };
    is_refused(&rt, alloc, ADDS_UP_TO_254, reject);
    let reject = Reject::Misaligned { slot: 11 };
    is_refused(&rt, alloc, ADDS_UP_TO_252, reject);
}
