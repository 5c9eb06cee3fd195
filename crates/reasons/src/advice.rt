//! The rule that is broken and the usual remedy, in words: one row for each cause.

ghost use Rattle.std.specs.Prelude.{◌≡◌, ◌++◌, string_bytes, OnOk};
ghost use Rattle.reasons.specs.Advices.{unit_text, count_text, base_text, standing_text, bytes_text, known_text, size_text, access_text};
ghost use Rattle.reasons.specs.Advices.{slot_text};
ghost use Rattle.reasons.specs.Advices.{from_text, brought_text, meeting_text, need_text, advice_text, IsAdvised};

use crate::cause::Cause;
use crate::wording::put_kind;
use abstract_state::Kind;
use std::alloc::{AllocError, Global};

impl Cause {
    /// Writes the rule that is broken, with the numbers that it is about, and what mostly helps.
    pub(crate) fn put(self, alloc: Global, out: &mut String) -> Result<(), AllocError>
        ensures { OnOk result (IsAdvised (string_bytes out.old) self (string_bytes out.new)) }
    {
        let (rule, remedy) = words_of(self);
        put_words(alloc, out, self, rule, remedy)
    }
}

/// Writes a rule, with the numbers that it is about, and a remedy.
#[tactic(auto, unfolding(crate::specs::Advices::advice_text))]
fn put_words(
    alloc: Global,
    out: &mut String,
    cause: Cause,
    rule: &str,
    remedy: &str,
) -> Result<(), AllocError>
    ensures { OnOk result (string_bytes out.new ≡ string_bytes out.old ++ advice_text cause rule.now remedy.now) }
{
    out.push_str("  ")?;
    put_need(alloc, out, cause)?;
    out.push_str(&format!(in alloc; "{rule}\n  remedy: {remedy}\n")?)
}

/// The numbers that a rule is about.
#[tactic(auto, unfolding(crate::specs::Advices::need_text))]
fn put_need(alloc: Global, out: &mut String, cause: Cause) -> Result<(), AllocError>
    ensures { OnOk result (string_bytes out.new ≡ string_bytes out.old ++ need_text cause) }
{
    match cause {
        Cause::NoTestShows {
            base,
            stands,
            bytes,
        } => {
            put_bytes(alloc, out, base, stands, bytes)?;
            out.push_str(": ")
        }
        Cause::ComparedForFewer {
            base,
            stands,
            bytes,
            known,
        } => {
            put_bytes(alloc, out, base, stands, bytes)?;
            put_known(alloc, out, known)
        }
        Cause::PacketOffsetUnknown { high } => {
            out.push_str(&format!(in alloc; "the number may be up to {high}: ")?)
        }
        Cause::OutsideValue { size } => put_size(alloc, out, size),
        Cause::ValuePointerLeaves { size } => put_size(alloc, out, size),
        Cause::AddressPastValue { size } => put_size(alloc, out, size),
        Cause::StackMisaligned { size } => put_access(alloc, out, size),
        Cause::ValueMisaligned { size } => put_access(alloc, out, size),
        Cause::ClearedByCall { slot } => put_slot(alloc, out, slot),
        Cause::LeftUnset { slot } => put_slot(alloc, out, slot),
        Cause::PathsDisagree {
            slot,
            first,
            one,
            second,
            other,
        } => {
            put_brought(alloc, out, first, one)?;
            put_brought(alloc, out, second, other)?;
            put_meeting(alloc, out, slot)
        }
        Cause::NoMap { count } => {
            out.push_str(&format!(in alloc; "the image has {count} maps: ")?)
        }
        _ => Ok(()),
    }
}

fn unit(bytes: u64) -> &'static str
    ensures { result.now ≡ unit_text bytes }
{
    if bytes == 1 { "byte" } else { "bytes" }
}

#[tactic(auto, unfolding(crate::specs::Advices::count_text))]
fn put_count(alloc: Global, out: &mut String, bytes: u64) -> Result<(), AllocError>
    ensures { OnOk result (string_bytes out.new ≡ string_bytes out.old ++ count_text bytes) }
{
    let unit = unit(bytes);
    out.push_str(&format!(in alloc; "needs {bytes} {unit}")?)
}

/// What the bytes of the packet count from.
#[tactic(auto, unfolding(crate::specs::Advices::base_text))]
fn put_base(alloc: Global, out: &mut String, base: u16) -> Result<(), AllocError>
    ensures { OnOk result (string_bytes out.new ≡ string_bytes out.old ++ base_text base) }
{
    if base == 0 {
        return out.push_str(" from the packet's start");
    }
    out.push_str(&format!(in alloc; " from the sum of slot {base}")?)
}

/// Where the register is.
#[tactic(auto, unfolding(crate::specs::Advices::standing_text))]
fn put_standing(alloc: Global, out: &mut String, stands: u16) -> Result<(), AllocError>
    ensures { OnOk result (string_bytes out.new ≡ string_bytes out.old ++ standing_text stands) }
{
    if stands == 0 {
        return Ok(());
    }
    out.push_str(&format!(in alloc; " (the register is at +{stands})")?)
}

/// How many bytes of the packet an access needs, and from where.
#[tactic(auto, unfolding(crate::specs::Advices::bytes_text))]
fn put_bytes(
    alloc: Global,
    out: &mut String,
    base: u16,
    stands: u16,
    bytes: u64,
) -> Result<(), AllocError>
    ensures { OnOk result (string_bytes out.new ≡ string_bytes out.old ++ bytes_text base stands bytes) }
{
    put_count(alloc, out, bytes)?;
    put_base(alloc, out, base)?;
    put_standing(alloc, out, stands)
}

#[tactic(auto, unfolding(crate::specs::Advices::known_text))]
fn put_known(alloc: Global, out: &mut String, known: u32) -> Result<(), AllocError>
    ensures { OnOk result (string_bytes out.new ≡ string_bytes out.old ++ known_text known) }
{
    out.push_str(&format!(in alloc; ", known {known}: ")?)
}

fn put_slot(alloc: Global, out: &mut String, slot: u32) -> Result<(), AllocError>
    ensures { OnOk result (string_bytes out.new ≡ string_bytes out.old ++ slot_text slot) }
{
    out.push_str(&format!(in alloc; "slot {slot}: ")?)
}

/// Where an edge comes from.
#[tactic(auto, unfolding(crate::specs::Advices::from_text))]
fn put_from(alloc: Global, out: &mut String, from: u32) -> Result<(), AllocError>
    ensures { OnOk result (string_bytes out.new ≡ string_bytes out.old ++ from_text from) }
{
    out.push_str(&format!(in alloc; "slot {from} brings ")?)
}

/// What an instruction brings of a register.
#[tactic(auto, unfolding(crate::specs::Advices::brought_text))]
fn put_brought(alloc: Global, out: &mut String, from: u32, kind: Kind) -> Result<(), AllocError>
    ensures { OnOk result (string_bytes out.new ≡ string_bytes out.old ++ brought_text from kind) }
{
    put_from(alloc, out, from)?;
    put_kind(alloc, out, kind)?;
    out.push_str(", ")
}

#[tactic(auto, unfolding(crate::specs::Advices::meeting_text))]
fn put_meeting(alloc: Global, out: &mut String, slot: u32) -> Result<(), AllocError>
    ensures { OnOk result (string_bytes out.new ≡ string_bytes out.old ++ meeting_text slot) }
{
    out.push_str(&format!(in alloc; "they meet at slot {slot}: ")?)
}

fn put_size(alloc: Global, out: &mut String, size: u32) -> Result<(), AllocError>
    ensures { OnOk result (string_bytes out.new ≡ string_bytes out.old ++ size_text size) }
{
    out.push_str(&format!(in alloc; "the value has {size} bytes: ")?)
}

fn put_access(alloc: Global, out: &mut String, size: u32) -> Result<(), AllocError>
    ensures { OnOk result (string_bytes out.new ≡ string_bytes out.old ++ access_text size) }
{
    out.push_str(&format!(in alloc; "{size} bytes wide: ")?)
}

/// The rule and the remedy of a cause.
fn words_of(cause: Cause) -> (&'static str, &'static str) {
    match cause {
        Cause::JumpsBack
        | Cause::JumpsOutside
        | Cause::JumpsIntoWide
        | Cause::RunsPastEnd
        | Cause::NoPathLeads => structure(cause),
        Cause::NotWritten
        | Cause::NeverWritten
        | Cause::ClearedByCall { .. }
        | Cause::LeftUnset { .. }
        | Cause::PathsDisagree { .. } => unset(cause),
        Cause::NullNotTested
        | Cause::NotAnAddress
        | Cause::PointerArithmetic
        | Cause::UnknownDelta
        | Cause::TestOfKinds
        | Cause::AtomicElsewhere
        | Cause::ExpectedPointer => kinds(cause),
        Cause::BeforeBase
        | Cause::NoTestShows { .. }
        | Cause::ComparedForFewer { .. }
        | Cause::PacketOffsetLeaves
        | Cause::PacketOffsetUnknown { .. } => packet(cause),
        Cause::WantsMap
        | Cause::WantsContext
        | Cause::WantsStack
        | Cause::WantsNumber
        | Cause::VerdictPointer
        | Cause::PartOfPointer
        | Cause::PointerStored
        | Cause::NoMap { .. }
        | Cause::NoArray
        | Cause::NoHelper
        | Cause::FramePointerWritten => calls(cause),
        Cause::OutsideStack
        | Cause::StackPointerLeaves
        | Cause::ArgumentOutsideStack
        | Cause::LoadUnwritten
        | Cause::ArgumentUnwritten
        | Cause::OutsideValue { .. }
        | Cause::ValuePointerLeaves { .. }
        | Cause::AddressPastValue { .. }
        | Cause::StackMisaligned { .. }
        | Cause::ValueMisaligned { .. }
        | Cause::AtomicOffsetUnknown
        | Cause::ContextStore
        | Cause::NoContextField => memory(cause),
    }
}

/// 30 to 34.
fn structure(cause: Cause) -> (&'static str, &'static str) {
    match cause {
        Cause::JumpsBack => (
            "the jump goes back; no program has loops",
            "write the body of a loop as often as it may run, each time with a jump forward to the end",
        ),
        Cause::JumpsOutside => (
            "the jump goes past the last slot",
            "count the distance from the slot after the jump; a wide instruction (lddw, ldmap, ldval) takes two slots",
        ),
        Cause::JumpsIntoWide => (
            "the jump goes to the second slot of a wide instruction",
            "count the distance from the slot after the jump; a wide instruction (lddw, ldmap, ldval) takes two slots",
        ),
        Cause::RunsPastEnd => (
            "the program goes on past its end",
            "end each path with exit",
        ),
        _ => (
            "no path leads here from slot 0",
            "take the instruction out, or correct the jump that goes over it",
        ),
    }
}

/// 35.
fn unset(cause: Cause) -> (&'static str, &'static str) {
    match cause {
        Cause::NeverWritten => (
            "nothing is written to the register on a path that leads here from slot 0",
            "write it first, on each path",
        ),
        Cause::ClearedByCall { .. } => (
            "a call leaves r1 to r5 unset, and helper 44 every pointer into the packet",
            "keep what is needed later in r6 to r9 or on the stack; after helper 44 load the packet and its end again, and test anew",
        ),
        Cause::LeftUnset { .. } => (
            "both edges of this jump lead to one slot, with different kinds in the register, so it may not be read",
            "let the jump go further than to the next slot, or use the register before it",
        ),
        Cause::PathsDisagree { .. } => (
            "the paths that meet there leave different kinds in the register, so it may not be read",
            "leave the same kind on each path, or use the register before they meet",
        ),
        _ => (
            "nothing was written to the register on some path that leads here, or the paths leave different kinds in it",
            "write it on each path, with the same kind",
        ),
    }
}

/// 36.
fn kinds(cause: Cause) -> (&'static str, &'static str) {
    match cause {
        Cause::NullNotTested => (
            "what a lookup gave may be null",
            "leave where it is null first (jeq r0, 0, +n)",
        ),
        Cause::NotAnAddress => (
            "memory is reached only from the context, the stack, the packet or a map's value",
            "load the packet's start ([r1+0]) or look a value up, and work from that register",
        ),
        Cause::PointerArithmetic => (
            "the only arithmetic with a pointer is to add a number to it or to subtract one, in 64 bits, with the pointer as destination; only the \
                stack, the packet and values can be moved this way",
            "compute the number first, in another register, and add it to a copy of the pointer",
        ),
        Cause::UnknownDelta => (
            "such a pointer moves only by a single known number (the packet's also by adding one with a known upper bound, a value's too from \
                image version 2 on)",
            "use a constant offset, or choose between constants by jumps",
        ),
        Cause::TestOfKinds => (
            "a test compares two numbers, what a lookup gave with 0 (jeq, jne), or a packet pointer with the packet's end (jgt, jge, jlt, jle), in 64 bits",
            "compare the packet pointer itself with the end ([r1+4]), and what a lookup gave with the immediate 0",
        ),
        Cause::AtomicElsewhere => (
            "atomic operations work on values of maps alone",
            "load, compute and store, since no one else sees the stack and the packet",
        ),
        _ => (
            "compare-and-exchange takes a number to expect in r0",
            "put the number into r0 and the address into another register",
        ),
    }
}

/// 37.
fn packet(cause: Cause) -> (&'static str, &'static str) {
    match cause {
        Cause::BeforeBase => (
            "the access begins before the place that the pointer counts from",
            "work from the packet's start ([r1+0]) with an offset that is not negative",
        ),
        Cause::NoTestShows { .. } => (
            "no comparison with the packet's end shows, on every path to here, that the packet reaches so far",
            "load the end ([r1+4]), add that number of bytes to a copy of the pointer, and leave where that is greater (jgt copy, end, +n); if there is \
                such a test, look at which way it jumps",
        ),
        Cause::ComparedForFewer { .. } => (
            "the packet was compared with its end for fewer bytes",
            "compare again with the larger offset, or for the longest access first",
        ),
        Cause::PacketOffsetLeaves => (
            "a packet pointer's offset stays from 0 to 65535",
            "add a smaller number, and subtract none that is larger than what was added",
        ),
        _ => (
            "a number that is added to a packet pointer is at most 65535",
            "bound it first: and it with a mask up to 65535, or leave where it is greater (jgt)",
        ),
    }
}

/// 38 to 42.
fn memory(cause: Cause) -> (&'static str, &'static str) {
    match cause {
        Cause::OutsideStack => (
            "the stack has the 512 bytes from r10-512 up to r10",
            "use an offset from -512 to -1 that leaves room for the access",
        ),
        Cause::StackPointerLeaves => (
            "a stack pointer stays from r10-512 to r10",
            "add a smaller number",
        ),
        Cause::ArgumentOutsideStack => (
            "the key or the value leaves the stack",
            "begin it so far below r10 that its whole size fits",
        ),
        Cause::LoadUnwritten => (
            "a byte that is loaded was not written on some path that leads here",
            "store to all bytes of the load first, on each path",
        ),
        Cause::ArgumentUnwritten => (
            "a byte of the key or the value was not written, or is part of a pointer",
            "store to all bytes of the key and the value first, with numbers",
        ),
        Cause::OutsideValue { .. } => (
            "the access leaves the map's value",
            "use an offset that leaves room for the access, or a map with larger values",
        ),
        Cause::ValuePointerLeaves { .. } => (
            "an address in a value stays from its first byte to its end",
            "add a smaller number; bound one that is not known (and, or jgt)",
        ),
        Cause::AddressPastValue { .. } => (
            "the offset is above the size of the map's values",
            "use an offset up to the size",
        ),
        Cause::StackMisaligned { .. } => (
            "an access of the stack is at a multiple of its size",
            "use an offset that is such a multiple, or smaller accesses",
        ),
        Cause::ValueMisaligned { .. } => (
            "an access at a known offset of a value is at a multiple of its size",
            "use an offset that is such a multiple, or smaller accesses",
        ),
        Cause::AtomicOffsetUnknown => (
            "an atomic operation wants a single known offset in the value",
            "use a constant offset, or choose between constants by jumps",
        ),
        Cause::ContextStore => (
            "the context is only read",
            "keep the number in a register or on the stack",
        ),
        _ => (
            "the context has words of four bytes at 0 (packet), 4 (its end), 12 (interface) and 16 (queue), and no others",
            "load one of these with ldxw",
        ),
    }
}

/// 43 to 49.
fn calls(cause: Cause) -> (&'static str, &'static str) {
    match cause {
        Cause::FramePointerWritten => (
            "r10 is read-only",
            "copy it to another register (mov r2, r10) and change the copy",
        ),
        Cause::NoHelper => (
            "there is no helper of this number",
            "the helpers are 1 (lookup), 2 (update), 3 (deletion), 5 (time), 8 (worker) and 44 (moves the packet's start)",
        ),
        Cause::WantsMap => (
            "r1 of this helper is a map",
            "load it with ldmap r1, m right before the call, since a call leaves r1 unset",
        ),
        Cause::WantsContext => (
            "r1 of this helper is the context",
            "keep the context from slot 0 in r6 to r9, and move it to r1 before the call",
        ),
        Cause::WantsStack => (
            "keys and values are passed on the stack",
            "store the bytes below r10 and pass a pointer to them (mov r2, r10 and add r2, -n)",
        ),
        Cause::WantsNumber => (
            "this argument is a number",
            "put a number into the register (flags: 0 any, 1 new key, 2 old key)",
        ),
        Cause::VerdictPointer => (
            "the verdict in r0 is a number",
            "put the verdict into r0 before exit (0 aborted, 1 drop, 2 pass, 3 transmit)",
        ),
        Cause::PartOfPointer => (
            "a pointer is stored and loaded only as a whole, in eight bytes of the stack",
            "use stxdw and ldxdw at the same place",
        ),
        Cause::PointerStored => (
            "no pointer is written to the packet or to a map's value",
            "store a number",
        ),
        Cause::NoMap { .. } => (
            "there is no map at this place of the image's list, which begins with 0",
            "use a smaller number, or add a map line",
        ),
        _ => (
            "an address in a value is loaded from arrays alone",
            "look the key up (call 1), or make the map an array",
        ),
    }
}
