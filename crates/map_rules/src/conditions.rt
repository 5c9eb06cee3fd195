//! Which calls a shard serves, and when its journal is full.

ghost use Rattle.std.specs.Prelude.{◌≡◌, ◌<◌, ◌≤◌, ◌==◌, ◌+◌, ◌%◌, ◌^◌, ◌&&◌, ℕ, Bool, List, Some, IfSome, IsTrue, length, reverse};
ghost use Rattle.std.specs.Prelude.{not, nat_lt, is_some, slice_get};
ghost use Rattle.ebpf_decode.specs.declared.map.MapDef.{MapDef};
ghost use Rattle.semantics.specs.declared.call.Entry.{Entry};
ghost use Rattle.semantics.specs.declared.plan.ShardPlan.{ShardPlan};
ghost use Rattle.map_rules.specs.Standings.{is_worker_with, is_atomic, IsStanding};
ghost use Rattle.semantics.specs.PlanLimits.{IsWithinLimits, IsIndexSize};
ghost use Rattle.semantics.specs.Reclamation.{is_inside, holds, inside_count};
ghost use Rattle.semantics.specs.Program.{shard_number_of_key, part_of_key, shard_of_key, shard_in_map};
ghost use Rattle.semantics.specs.History.{is_outside_worker, is_inside_worker, is_holder, may_change_keys, are_bytes};
ghost use Rattle.semantics.specs.History.{is_own_key, is_value, are_flags, is_load_size, is_atomic_size, is_in_cell, is_aligned};
ghost use Rattle.semantics.specs.History.{fits_size, is_expected, meets_part, meets, room_for_leave, room_needed, lacks_room};
ghost use Rattle.semantics.specs.History.{journal_is_full};

use ebpf_decode::{MapDef, MapKind};
use isa::AtomicOp;
use semantics::little_endian::number_of_bytes;
use semantics::{Call, Caller, Entry, Key, SectionChange, ShardPlan, Value};
use wire::fnv1a64;

/// What a shard knows of a caller before its call.
#[derive(Clone, Copy, Debug, PartialEq, Eq)]
pub struct Standing {
    /// Whether it is a worker of the plan that is inside.
    pub is_inside: bool,
    /// Whether it is a worker of the plan that holds the cell that the call names.
    pub is_holder: bool,
}

/// The number of a caller that is a worker of the plan.
pub(crate) fn worker_of(plan: &ShardPlan, who: &Caller) -> Option<u8>
    ensures below { IfSome result (λ worker. worker < plan.now.workers) }
    ensures inside { (history : List Entry) →
        is_inside_worker plan.now history who.now ≡ is_worker_with (λ worker. is_inside worker history) result }
    ensures holder { (history : List Entry) (cell : ℕ) → is_holder plan.now history who.now cell ≡
        is_worker_with (λ worker. holds worker cell history) result }
    ensures outside { (history : List Entry) → is_outside_worker plan.now history who.now ≡
        is_worker_with (λ worker. not (is_inside worker history)) result }
{
    who.worker()
        .filter(|number| u32::from(*number) < plan.workers)
}

/// Whether the caller is a worker of the plan that is not inside.
fn is_outside_worker(plan: &ShardPlan, who: &Caller, inside: bool) -> bool
    ensures { (history : List Entry) → inside ≡ is_inside_worker plan.now history who.now →
        result ≡ is_outside_worker plan.now history who.now }
{
    worker_of(plan, who).is_some() && !inside
}

/// Whether the caller may change keys: a worker inside, and the controller always.
fn may_change_keys(who: &Caller, inside: bool) -> bool
    ensures { (plan : ShardPlan) (history : List Entry) → inside ≡ is_inside_worker plan history who.now →
        result ≡ may_change_keys plan history who.now }
{
    *who == Caller::Controller || inside
}

/// The number that chooses a key's shard: an array's index, else the key's hash.
pub fn shard_number_of_key(kind: MapKind, key: &[u8]) -> u64
    requires { IsIndexSize kind (length key.now) }
    ensures { result ≡ shard_number_of_key kind key.now }
{
    match kind {
        MapKind::Array => number_of_bytes(key),
        MapKind::Hash => fnv1a64(key),
        MapKind::LruHash => fnv1a64(key),
    }
}

/// What is left of a number after a division by a number of parts. Those that maps are opened with have a case each, since a division by a
/// variable takes longer than the rest of a look-up.
fn part_of_number(number: u64, parts: u32) -> u32
    requires { 0 < parts }
    ensures { result ≡ number % parts }
{
    match parts {
        2 => (number % 2) as u32,
        4 => (number % 4) as u32,
        8 => (number % 8) as u32,
        _ => (number % u64::from(parts)) as u32,
    }
}

/// The number of the shard of a key, in a map of this place and kind with this many shards. Of one shard the key is not read.
pub fn shard_of_kind(map: u32, kind: MapKind, parts: u32, key: &Key) -> u32
    requires map { map ≤ 16 }
    requires parts { 0 < parts }
    requires few { parts ≤ 8 }
    requires size { IsIndexSize kind (length key.now) }
    ensures { result ≡ shard_of_key map kind parts key.now }
{
    if parts == 1 {
        map
    } else {
        shard_among(map, kind, parts, key)
    }
}

/// The same by the key's number.
fn shard_among(map: u32, kind: MapKind, parts: u32, key: &Key) -> u32
    requires map { map ≤ 16 }
    requires parts { 0 < parts }
    requires few { parts ≤ 8 }
    requires size { IsIndexSize kind (length key.now) }
    ensures { result ≡ shard_of_key map kind parts key.now }
{
    let number = shard_number_of_key(kind, key.as_slice());
    map * parts + part_of_number(number, parts)
}

/// The number of the shard of a key of the map at a place, with this many shards for each map.
pub fn shard_of_map(maps: &[MapDef], parts: u32, map: u32, key: &Key) -> u32
    requires map { map < length maps.now }
    requires maps { length maps.now ≤ 16 }
    requires parts { 0 < parts }
    requires few { parts ≤ 8 }
    requires size { (definition : MapDef) → slice_get maps.now map ≡ Some definition → IsIndexSize definition.kind (length key.now) }
    ensures { result ≡ shard_in_map (slice_get maps.now map) parts map key.now }
{
    shard_of_kind(map, maps[map as usize].kind, parts, key)
}

/// Whether the key has the map's length and belongs to the shard.
fn is_own_key(plan: &ShardPlan, key: &Key) -> bool
    requires { IsWithinLimits plan.now }
    ensures { result ≡ is_own_key plan.now key.now }
{
    let bytes = key.as_slice();
    bytes.len() == plan.definition.key_size as usize
        && (shard_number_of_key(plan.definition.kind, bytes) % u64::from(plan.parts)
            == u64::from(plan.part)
            && are_bytes(bytes))
}

/// Whether these are bytes, as a slice of `u8` always is.
fn are_bytes(bytes: &[u8]) -> bool
    ensures { result ≡ are_bytes bytes.now }
{
    let _ = bytes;
    true
}

/// Whether a Load or a Store may have this size.
fn is_load_size(size: u64) -> bool
    ensures { result ≡ is_load_size size }
{
    size == 1 || size == 2 || size == 4 || size == 8
}

/// Whether an atomic operation may have this size.
fn is_atomic_size(size: u64) -> bool
    ensures { result ≡ is_atomic_size size }
{
    size == 4 || size == 8
}

/// Whether the bytes lie inside the value.
fn is_in_cell(plan: &ShardPlan, offset: u64, size: u64) -> bool
    ensures { result ≡ is_in_cell plan.now offset size }
{
    u128::from(offset) + u128::from(size) <= u128::from(plan.definition.value_size)
}

/// Whether the offset is a multiple of the size.
fn is_aligned(offset: u64, size: u64) -> bool
    requires { 0 < size }
    ensures { result ≡ is_aligned offset size }
{
    offset % size == 0
}

/// Whether this many bytes hold the number.
fn fits_size(value: u64, size: u64) -> bool
    requires { IsTrue (is_load_size size) }
    ensures { result ≡ fits_size value size }
{
    match size {
        1 => value < 0x100,
        2 => value < 0x1_0000,
        4 => value < 0x1_0000_0000,
        _ => true,
    }
}

/// Whether an operation may have this number to compare with: only compare-and-exchange has one.
fn is_expected(op: u64, expected: u64) -> bool
    ensures { result ≡ is_expected op expected }
{
    expected == 0 || op == u64::from(AtomicOp::CompareExchange.code())
}

/// Whether a Load of this size may be made at this offset.
fn is_load(plan: &ShardPlan, offset: u64, size: u64) -> bool
    ensures { result ≡ (is_load_size size && is_in_cell plan.now offset size) }
{
    is_load_size(size) && is_in_cell(plan, offset, size)
}

/// Whether an atomic operation of this size may be made at this offset with these numbers.
fn is_atomic(plan: &ShardPlan, offset: u64, size: u64, op: u64, value: u64, expected: u64) -> bool
    ensures { result ≡ is_atomic plan.now offset size op value expected }
{
    is_atomic_size(size)
        && (is_in_cell(plan, offset, size) && is_aligned(offset, size))
        && AtomicOp::of(op).is_some()
        && fits_size(value, size)
        && fits_size(expected, size)
        && is_expected(op, expected)
}

/// Whether the caller may make this call on this shard, apart from the shard's number.
fn meets_part(plan: &ShardPlan, standing: Standing, who: &Caller, call: &Call) -> bool
    requires { IsWithinLimits plan.now }
    ensures { (history : List Entry) → IsStanding plan.now history who.now call.now standing →
        result ≡ meets_part plan.now history who.now call.now }
{
    let Standing {
        is_inside,
        is_holder,
    } = standing;
    match call {
        Call::Enter { .. } => is_outside_worker(plan, who, is_inside),
        Call::Leave { .. } => is_inside,
        Call::Lookup { key, .. } => is_inside && is_own_key(plan, key),
        Call::Load { offset, size, .. } => is_holder && is_load(plan, *offset, *size),
        Call::Store {
            offset,
            size,
            value,
            ..
        } => is_holder && is_load(plan, *offset, *size) && fits_size(*value, *size),
        Call::Atomic {
            offset,
            size,
            op,
            value,
            expected,
            ..
        } => is_holder && is_atomic(plan, *offset, *size, *op, *value, *expected),
        Call::Update {
            key,
            value,
            flags,
            ..
        } => may_change_keys(who, is_inside)
            && is_own_key(plan, key)
            && (is_value(plan, value) && are_flags(*flags)),
        Call::Delete { key, .. } => may_change_keys(who, is_inside) && is_own_key(plan, key),
        Call::Reclaim { .. } => who.is_reclaimer(),
    }
}

/// Whether the value has the map's length.
fn is_value(plan: &ShardPlan, value: &Value) -> bool
    ensures { result ≡ is_value plan.now value.now }
{
    let bytes = value.as_slice();
    bytes.len() == plan.definition.value_size as usize && are_bytes(bytes)
}

/// Whether the flags are a number of 64 bits, as a `u64` always is.
fn are_flags(flags: u64) -> bool
    ensures { result ≡ are_flags flags }
{
    let _ = flags;
    true
}

/// Whether a caller of this standing may make this call on this shard: the journal is not read.
pub(crate) fn meets_with(plan: &ShardPlan, standing: Standing, who: &Caller, call: &Call) -> bool
    requires { IsWithinLimits plan.now }
    ensures { (history : List Entry) → IsStanding plan.now history who.now call.now standing →
        result ≡ meets plan.now history who.now call.now }
{
    call.shard() == plan.number && meets_part(plan, standing, who, call)
}

/// Whether a journal of this many entries, with this many runs inside, has no room for a call that is no Leave: for its entry, one more for each
/// run inside, and one more for the run that it lets in.
pub fn lacks_room(plan: &ShardPlan, entries: usize, inside: usize, entering: u8) -> bool
    ensures { result ≡ nat_lt plan.now.reserve (entries + inside + entering + 1) }
{
    let needed = entries as u128 + inside as u128 + u128::from(entering) + 1;
    u128::from(plan.reserve) < needed
}

/// Whether a journal of this many entries, with this many runs inside, is full for this call: the entries, one more for each run inside, one for a
/// run that would enter, and one for the call itself are more than it has room for. For a Leave it never is, since its Enter left it room.
pub fn is_full_with(plan: &ShardPlan, entries: usize, inside: usize, call: &Call) -> bool
    ensures { (history : List Entry) → entries ≡ length history → inside ≡ inside_count history →
        result ≡ journal_is_full plan.now history call.now }
{
    match call.section_change() {
        SectionChange::Ends => false,
        SectionChange::Begins => lacks_room(plan, entries, inside, 1),
        SectionChange::Stays => lacks_room(plan, entries, inside, 0),
    }
}
