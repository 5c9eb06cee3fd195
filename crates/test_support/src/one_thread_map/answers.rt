//! What each call replies, by a shard's state.

ghost use Rattle.std.specs.Prelude.{◌≡◌, ◌<◌, ◌≤◌, ◌+◌, ◌*◌, ◌^◌, ℤ, IsTrue, Option, length, reverse};
ghost use Rattle.semantics.specs.Linux.{errno_code, success, update_flags_of};
ghost use Rattle.semantics.specs.PlanLimits.{IsWithinLimits, IsIndexSize};
ghost use Rattle.test_support.specs.OneThread.{state_of_lists, IsSized};
ghost use Rattle.semantics.specs.History.{is_atomic_size};
ghost use Rattle.semantics.specs.SequentialShard.{cell_of_key, number_in_cell, changed_by, has_free_cell, is_full_of_keys};
ghost use Rattle.semantics.specs.SequentialShard.{present_key_answer, array_update_answer, new_key_answer, absent_key_answer};
ghost use Rattle.semantics.specs.SequentialShard.{keyed_update_answer, update_answer_of_kind, update_answer_by, update_answer};
ghost use Rattle.semantics.specs.SequentialShard.{delete_answer_of_kind, delete_answer, lookup_reply, reply_of};

use super::state::{ShardState, cell_bytes, cell_of_index, cell_of_present, reclaimable_count};
use ebpf_decode::MapKind;
use isa::{AtomicOp, Width, atomic};
use map_rules::answers::{Occupancy, delete_answer_of_kind, lookup_reply, update_answer_of_kind};
use semantics::little_endian::{number_of_bytes, part_at};
use semantics::{Call, Entry, Errno, Key, Reply, ShardPlan, UpdateFlags};

/// The cell that has a key's value.
pub fn cell_of_key(plan: &ShardPlan, state: &ShardState, key: &Key) -> Option<u64>
    requires limits { IsWithinLimits plan.now }
    requires size { length key.now ≡ plan.now.definition.key_size }
    ensures { result ≡ cell_of_key plan.now (state_of_lists state.now) key.now }
{
    match plan.definition.kind {
        MapKind::Array => cell_of_index(plan, number_of_bytes(key.as_slice())),
        MapKind::Hash => cell_of_present(&state.present, key),
        MapKind::LruHash => cell_of_present(&state.present, key),
    }
}

/// The number that some bytes of a cell make.
pub fn number_in_cell(state: &ShardState, cell: u64, offset: u64, size: u64) -> u64
    requires { size ≤ 8 }
    ensures number { result ≡ number_in_cell (state_of_lists state.now) cell offset size }
    ensures below { result < 256 ^ size }
{
    let bytes = cell_bytes(&state.cells, cell);
    number_of_bytes(part_at(bytes.as_slice(), offset as usize, size as usize))
}

/// What an atomic operation makes of a number; without an operation it stays.
pub fn changed_by(op: Option<AtomicOp>, size: u64, old: u64, value: u64, expected: u64) -> u64
    requires size { IsTrue (is_atomic_size size) }
    requires old { old < 256 ^ size }
    requires value { value < 256 ^ size }
    requires expected { expected < 256 ^ size }
    ensures { result ≡ changed_by op size old value expected }
{
    match op {
        Some(op) => if size == 4 {
            atomic(op, Width::Bits32, old, value, expected)
        } else {
            atomic(op, Width::Bits64, old, value, expected)
        },
        None => old,
    }
}

/// How many keys a shard in this state has, and how many retired cells.
pub fn counts_of(state: &ShardState) -> Occupancy
    ensures present { result.present ≡ length state.now.present.items }
    ensures waiting { result.waiting ≡ length state.now.retired.items }
{
    Occupancy {
        present: state.present.len(),
        waiting: state.retired.len(),
    }
}

/// What an Update answers: unknown flags are invalid, and then as the map's kind has it.
pub fn update_answer(plan: &ShardPlan, state: &ShardState, key: &Key, flags: u64) -> i32
    requires limits { IsWithinLimits plan.now }
    requires size { length key.now ≡ plan.now.definition.key_size }
    ensures { result ≡ update_answer plan.now (state_of_lists state.now) key.now flags }
{
    match UpdateFlags::of(flags) {
        None => Errno::Invalid.code(),
        Some(flags) => update_answer_of_kind(
            plan,
            counts_of(state),
            flags,
            cell_of_key(plan, state, key),
        ),
    }
}

/// What a Delete answers: nothing can be deleted from an array, nor an absent key.
pub fn delete_answer(plan: &ShardPlan, state: &ShardState, key: &Key) -> i32
    requires limits { IsWithinLimits plan.now }
    requires size { length key.now ≡ plan.now.definition.key_size }
    ensures { result ≡ delete_answer plan.now (state_of_lists state.now) key.now }
{
    delete_answer_of_kind(plan.definition.kind, cell_of_key(plan, state, key))
}

/// What a call replies.
pub fn reply_of(plan: &ShardPlan, journal: &[Entry], state: &ShardState, call: &Call) -> Reply
    requires limits { IsWithinLimits plan.now }
    requires sized { IsSized plan.now call.now }
    ensures { result ≡ reply_of plan.now (reverse journal.now) (state_of_lists state.now) call.now }
{
    match call {
        Call::Enter { .. } => Reply::Entered,
        Call::Leave { .. } => Reply::Left,
        Call::Lookup { key, .. } => lookup_reply(plan, cell_of_key(plan, state, key)),
        Call::Load { cell, offset, size } => Reply::Word {
            value: number_in_cell(state, cell.id, *offset, *size),
        },
        Call::Store { .. } => Reply::Done,
        Call::Atomic {
            cell,
            offset,
            size,
            ..
        } => Reply::Word {
            value: number_in_cell(state, cell.id, *offset, *size),
        },
        Call::Update { key, flags, .. } => Reply::Answer {
            code: update_answer(plan, state, key, *flags),
        },
        Call::Delete { key, .. } => Reply::Answer {
            code: delete_answer(plan, state, key),
        },
        Call::Reclaim { .. } => Reply::Freed {
            count: reclaimable_count(journal, &state.retired) as u64,
        },
    }
}
