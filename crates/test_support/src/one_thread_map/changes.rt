//! What each call leaves of a shard's state.

ghost use Rattle.std.specs.Prelude.{◌≡◌, ◌<◌, ◌≤◌, ◌+◌, ◌^◌, ◌==◌, ℤ, IsTrue, Option, Some, None, OnOk, OnErr, length, reverse, vec_len};
ghost use Rattle.std.specs.Prelude.{vec_capacity};
ghost use Rattle.semantics.specs.PlanLimits.{IsWithinLimits, IsIndexSize};
ghost use Rattle.semantics.specs.declared.call.Call.TheVariants.{Update, Delete};
ghost use Rattle.test_support.specs.OneThread.{state_of_lists, IsSized};
ghost use Rattle.semantics.specs.History.{is_atomic_size};
ghost use Rattle.semantics.specs.SequentialShard.{with_cell, with_number_in_cell, number_in_cell, changed_by, without_key, without_found};
ghost use Rattle.semantics.specs.SequentialShard.{after_eviction, with_new_key, cell_of_key, with_value, updated_where, update_answer};
ghost use Rattle.semantics.specs.SequentialShard.{delete_answer, present_key, shard_after_call};

use super::answers::{
    cell_of_key, changed_by, counts_of, delete_answer, number_in_cell, update_answer,
};
use super::state::{
    ShardState, cell_bytes, least_recently_used, present_key, put_cell, put_present, put_retired,
    remove_present, remove_reclaimable, set_cell,
};
use isa::AtomicOp;
use map_rules::answers::is_full_of_keys;
use semantics::little_endian::bytes_of_number;
use semantics::{Call, Entry, Key, PresentKey, RetiredCell, ShardPlan, Value};
use std::alloc::AllocError;

/// Writes a number into a cell.
fn write_number(state: &mut ShardState, cell: u64, offset: u64, size: u64, value: u64)
    requires size { size ≤ 8 }
    requires inside { offset + size ≤ 256 }
    ensures { state_of_lists state.new ≡ with_number_in_cell (state_of_lists state.old) cell offset size value }
{
    let number = bytes_of_number(size, value);
    let bytes = cell_bytes(&state.cells, cell).overwritten(offset as usize, number.as_slice());
    set_cell(&mut state.cells, cell, bytes);
}

/// Takes a present key out, and retires its cell at this place. There is room for one more retired cell.
fn retire(state: &mut ShardState, gone: PresentKey, place: u64)
    requires { vec_len state.old.retired < vec_capacity state.old.retired }
    ensures state { state_of_lists state.new ≡ without_key (state_of_lists state.old) place gone }
    ensures cells { state.new.cells ≡ state.old.cells }
    ensures present_len { vec_len state.new.present ≤ vec_len state.old.present }
    ensures present_room { vec_capacity state.new.present ≡ vec_capacity state.old.present }
{
    remove_present(&mut state.present, gone.cell);
    put_retired(
        &mut state.retired,
        RetiredCell {
            cell: gone.cell,
            since: place,
        },
    );
}

/// Takes out the key that a full LRU shard evicts.
fn evict(plan: &ShardPlan, journal: &[Entry], state: &mut ShardState)
    requires limits { IsWithinLimits plan.now }
    requires room { vec_len state.old.retired < vec_capacity state.old.retired }
    ensures state { state_of_lists state.new ≡ after_eviction plan.now (reverse journal.now) (state_of_lists state.old) }
    ensures cells { state.new.cells ≡ state.old.cells }
    ensures present_len { vec_len state.new.present ≤ vec_len state.old.present }
    ensures present_room { vec_capacity state.new.present ≡ vec_capacity state.old.present }
{
    if is_full_of_keys(plan, counts_of(state)) {
        if let Some(gone) = least_recently_used(journal, &state.present) {
            retire(state, gone, journal.len() as u64);
        }
    }
}

/// Puts a new key in, with the next cell. There is room for one more key and one more cell.
fn put_new(state: &mut ShardState, key: Key, value: Value)
    requires present { vec_len state.old.present < vec_capacity state.old.present }
    requires cells { vec_len state.old.cells < vec_capacity state.old.cells }
    ensures { state_of_lists state.new ≡ with_new_key (state_of_lists state.old) key value }
{
    let cell = state.cells.len() as u64;
    put_cell(&mut state.cells, value);
    put_present(&mut state.present, PresentKey { key, cell });
}

/// Takes the memory that a new key needs.
fn make_room(state: &mut ShardState) -> Result<(), AllocError>
    ensures same { state_of_lists state.new ≡ state_of_lists state.old }
    ensures present { OnOk result (vec_len state.new.present < vec_capacity state.new.present) }
    ensures cells { OnOk result (vec_len state.new.cells < vec_capacity state.new.cells) }
    ensures retired { OnOk result (vec_len state.new.retired < vec_capacity state.new.retired) }
{
    state.present.try_reserve(1)?;
    state.cells.try_reserve(1)?;
    state.retired.try_reserve(1)?;
    Ok(())
}

/// Gives a key a value: its cell a new one, or a new key the next cell.
fn put_value(
    plan: &ShardPlan,
    journal: &[Entry],
    state: &mut ShardState,
    key: &Key,
    value: &Value,
) -> Result<(), AllocError>
    requires limits { IsWithinLimits plan.now }
    requires size { length key.now ≡ plan.now.definition.key_size }
    ensures ok { OnOk result (state_of_lists state.new ≡ with_value plan.now (reverse journal.now) (state_of_lists state.old) key.now value.now
        (cell_of_key plan.now (state_of_lists state.old) key.now)) }
    ensures err { OnErr result (state_of_lists state.new ≡ state_of_lists state.old) }
{
    match cell_of_key(plan, state, key) {
        Some(cell) => {
            set_cell(&mut state.cells, cell, *value);
            Ok(())
        }
        None => {
            make_room(state)?;
            evict(plan, journal, state);
            put_new(state, *key, *value);
            Ok(())
        }
    }
}

/// What an Update leaves.
fn update(
    plan: &ShardPlan,
    journal: &[Entry],
    state: &mut ShardState,
    key: &Key,
    value: &Value,
    flags: u64,
) -> Result<(), AllocError>
    requires limits { IsWithinLimits plan.now }
    requires size { length key.now ≡ plan.now.definition.key_size }
    ensures ok { OnOk result (state_of_lists state.new ≡ shard_after_call plan.now (reverse journal.now) (state_of_lists state.old)
        (Update plan.now.number key.now value.now flags)) }
    ensures err { OnErr result (state_of_lists state.new ≡ state_of_lists state.old) }
{
    if update_answer(plan, state, key, flags) == 0 {
        put_value(plan, journal, state, key, value)
    } else {
        Ok(())
    }
}

/// Takes a key out, if it is there.
fn remove(journal: &[Entry], state: &mut ShardState, key: &Key) -> Result<(), AllocError>
    ensures ok { OnOk result (state_of_lists state.new ≡ without_found (state_of_lists state.old) (length (reverse journal.now))
        (present_key (state_of_lists state.old) key.now)) }
    ensures err { OnErr result (state_of_lists state.new ≡ state_of_lists state.old) }
{
    match present_key(&state.present, key) {
        Some(gone) => {
            make_room(state)?;
            retire(state, gone, journal.len() as u64);
            Ok(())
        }
        None => Ok(()),
    }
}

/// What a Delete leaves.
fn delete(
    plan: &ShardPlan,
    journal: &[Entry],
    state: &mut ShardState,
    key: &Key,
) -> Result<(), AllocError>
    requires limits { IsWithinLimits plan.now }
    requires size { length key.now ≡ plan.now.definition.key_size }
    ensures ok { OnOk result (state_of_lists state.new ≡ shard_after_call plan.now (reverse journal.now) (state_of_lists state.old)
        (Delete plan.now.number key.now)) }
    ensures err { OnErr result (state_of_lists state.new ≡ state_of_lists state.old) }
{
    if delete_answer(plan, state, key) == 0 {
        remove(journal, state, key)
    } else {
        Ok(())
    }
}

/// Makes the change of a call. Without memory for it the state stays as it was.
pub fn apply(
    plan: &ShardPlan,
    journal: &[Entry],
    state: &mut ShardState,
    call: &Call,
) -> Result<(), AllocError>
    requires limits { IsWithinLimits plan.now }
    requires sized { IsSized plan.now call.now }
    ensures ok { OnOk result (state_of_lists state.new ≡ shard_after_call plan.now (reverse journal.now) (state_of_lists state.old) call.now) }
    ensures err { OnErr result (state_of_lists state.new ≡ state_of_lists state.old) }
{
    match call {
        Call::Enter { .. } => Ok(()),
        Call::Leave { .. } => Ok(()),
        Call::Lookup { .. } => Ok(()),
        Call::Load { .. } => Ok(()),
        Call::Store {
            cell,
            offset,
            size,
            value,
        } => {
            write_number(state, cell.id, *offset, *size, *value);
            Ok(())
        }
        Call::Atomic {
            cell,
            offset,
            size,
            op,
            value,
            expected,
        } => {
            let old = number_in_cell(state, cell.id, *offset, *size);
            let new = changed_by(AtomicOp::of(*op), *size, old, *value, *expected);
            write_number(state, cell.id, *offset, *size, new);
            Ok(())
        }
        Call::Update {
            key,
            value,
            flags,
            ..
        } => update(plan, journal, state, key, value, *flags),
        Call::Delete { key, .. } => delete(plan, journal, state, key),
        Call::Reclaim { .. } => {
            remove_reclaimable(journal, &mut state.retired);
            Ok(())
        }
    }
}
