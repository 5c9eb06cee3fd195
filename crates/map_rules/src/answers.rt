//! What an Update, a Delete and a Lookup are answered, by the map's kind, by what was found and by how much room is left.

ghost use Rattle.std.specs.Prelude.{◌≡◌};
ghost use Rattle.ebpf_decode.specs.declared.map.MapKind.TheVariants.{Hash};
ghost use Rattle.semantics.specs.Linux.{errno_code, success, update_flags_of};
ghost use Rattle.semantics.specs.PlanLimits.{IsWithinLimits};
ghost use Rattle.map_rules.specs.Counted.{AsCounted};
ghost use Rattle.semantics.specs.SequentialShard.{has_free_cell, is_full_of_keys};
ghost use Rattle.semantics.specs.SequentialShard.{present_key_answer, array_update_answer, new_key_answer, absent_key_answer};
ghost use Rattle.semantics.specs.SequentialShard.{keyed_update_answer, update_answer_of_kind, delete_answer_of_kind, lookup_reply};

use ebpf_decode::MapKind;
use semantics::{CellRef, Errno, Reply, ShardPlan, UpdateFlags};

/// How many keys a shard has, and how many of its retired cells wait for their readers.
#[derive(Clone, Copy, Debug, PartialEq, Eq)]
pub struct Occupancy {
    pub present: usize,
    pub waiting: usize,
}

/// Whether a cell is free for a new key: each key has two, so that a retired one may wait for its readers.
fn has_free_cell(plan: &ShardPlan, counts: Occupancy) -> bool
    requires { IsWithinLimits plan.now }
    ensures { AsCounted counts (λ state. result ≡ has_free_cell plan.now state) }
{
    counts.present as u128 + (counts.waiting as u128) < 2 * u128::from(plan.capacity())
}

/// Whether the shard has as many keys as it may have.
pub fn is_full_of_keys(plan: &ShardPlan, counts: Occupancy) -> bool
    requires { IsWithinLimits plan.now }
    ensures { AsCounted counts (λ state. result ≡ is_full_of_keys plan.now state) }
{
    u64::from(plan.capacity()) <= counts.present as u64
}

/// What an Update of a key that is there answers: that it exists, where it may not.
pub fn present_key_answer(flags: UpdateFlags) -> i32
    ensures { result ≡ present_key_answer flags }
{
    match flags {
        UpdateFlags::Any => 0,
        UpdateFlags::NoExist => Errno::Exists.code(),
        UpdateFlags::Exist => 0,
    }
}

/// What an Update of an array answers: an index out of range is too big, and every other is there.
pub fn array_update_answer(flags: UpdateFlags, cell: Option<u64>) -> i32
    ensures { result ≡ array_update_answer flags cell }
{
    match cell {
        None => Errno::TooBig.code(),
        Some(_) => present_key_answer(flags),
    }
}

/// What an Update of a new key answers: a hash shard may be full of keys, and any may have no free cell.
fn new_key_answer(plan: &ShardPlan, counts: Occupancy) -> i32
    requires { IsWithinLimits plan.now }
    ensures { AsCounted counts (λ state. result ≡ new_key_answer plan.now state) }
{
    if plan.definition.kind == MapKind::Hash && is_full_of_keys(plan, counts) {
        Errno::TooBig.code()
    } else if has_free_cell(plan, counts) {
        0
    } else {
        Errno::NoMemory.code()
    }
}

/// What an Update of an absent key answers: that there is no entry, where it must be present, else as a new key.
fn absent_key_answer(plan: &ShardPlan, counts: Occupancy, flags: UpdateFlags) -> i32
    requires { IsWithinLimits plan.now }
    ensures { AsCounted counts (λ state. result ≡ absent_key_answer plan.now state flags) }
{
    match flags {
        UpdateFlags::Any => new_key_answer(plan, counts),
        UpdateFlags::NoExist => new_key_answer(plan, counts),
        UpdateFlags::Exist => Errno::NoEntry.code(),
    }
}

/// What an Update of a map with keys answers.
fn keyed_update_answer(
    plan: &ShardPlan,
    counts: Occupancy,
    flags: UpdateFlags,
    cell: Option<u64>,
) -> i32
    requires { IsWithinLimits plan.now }
    ensures { AsCounted counts (λ state. result ≡ keyed_update_answer plan.now state flags cell) }
{
    match cell {
        Some(_) => present_key_answer(flags),
        None => absent_key_answer(plan, counts, flags),
    }
}

/// What an Update with known flags answers of a key that has this cell or none, as the map's kind has it.
pub fn update_answer_of_kind(
    plan: &ShardPlan,
    counts: Occupancy,
    flags: UpdateFlags,
    cell: Option<u64>,
) -> i32
    requires { IsWithinLimits plan.now }
    ensures { AsCounted counts (λ state. result ≡ update_answer_of_kind plan.now.definition.kind plan.now state flags cell) }
{
    match plan.definition.kind {
        MapKind::Array => array_update_answer(flags, cell),
        MapKind::Hash => keyed_update_answer(plan, counts, flags, cell),
        MapKind::LruHash => keyed_update_answer(plan, counts, flags, cell),
    }
}

/// What a Delete of a map with keys answers: that there is no entry, where the key is absent.
fn found_answer(cell: Option<u64>) -> i32
    ensures { result ≡ delete_answer_of_kind Hash cell }
{
    match cell {
        Some(_) => 0,
        None => Errno::NoEntry.code(),
    }
}

/// What a Delete answers of a key that has this cell or none: -22 for an array, -2 for an absent key.
pub fn delete_answer_of_kind(kind: MapKind, cell: Option<u64>) -> i32
    ensures { result ≡ delete_answer_of_kind kind cell }
{
    match kind {
        MapKind::Array => Errno::Invalid.code(),
        MapKind::Hash => found_answer(cell),
        MapKind::LruHash => found_answer(cell),
    }
}

/// The reply to a Lookup.
pub fn lookup_reply(plan: &ShardPlan, cell: Option<u64>) -> Reply
    ensures { result ≡ lookup_reply plan.now cell }
{
    match cell {
        Some(id) => Reply::Cell {
            cell: CellRef {
                shard: plan.number,
                id,
            },
        },
        None => Reply::Null,
    }
}
