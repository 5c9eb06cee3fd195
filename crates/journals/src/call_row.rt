//! A call as a list of entries keeps it.

ghost use Rattle.std.specs.Prelude.{◌≡◌, ◌+◌, ◌≤◌, ◌++◌, [], length, unwrap_or, vec_len, vec_capacity};
ghost use Rattle.semantics.specs.Cells.{key_of_call, value_of_call};
ghost use Rattle.journals.specs.EntryRows.{bytes_of, call_row, listed_call, FitsRow, IsWithin};

use journal::{key_at, put_bytes, value_at};
use semantics::{Call, CellRef, Key, Value};

/// A call whose key, and behind it its value, are among the list's bytes from `at` on.
#[derive(Clone, Copy, Debug, PartialEq, Eq)]
pub enum CallRow {
    Enter {
        shard: u32,
    },
    Leave {
        shard: u32,
    },
    Lookup {
        shard: u32,
        key_size: u32,
        at: u64,
    },
    Load {
        cell: CellRef,
        offset: u64,
        size: u64,
    },
    Store {
        cell: CellRef,
        offset: u64,
        size: u64,
        value: u64,
    },
    Atomic {
        cell: CellRef,
        offset: u64,
        size: u64,
        op: u64,
        value: u64,
        expected: u64,
    },
    Update {
        shard: u32,
        key_size: u32,
        value_size: u32,
        at: u64,
        flags: u64,
    },
    Delete {
        shard: u32,
        key_size: u32,
        at: u64,
    },
    Reclaim {
        shard: u32,
    },
}

impl CallRow {
    /// The row of a call whose key and value are from this place on.
    #[rattlefmt::skip]
    pub(crate) fn of(call: &Call, at: u64) -> CallRow
        ensures row { result ≡ call_row at call.now }
        ensures fits { FitsRow call.now }
    {
        match call {
            Call::Enter { shard } => CallRow::Enter { shard: *shard },
            Call::Leave { shard } => CallRow::Leave { shard: *shard },
            Call::Lookup { shard, key } => CallRow::Lookup { shard: *shard, key_size: key_size(key), at },
            Call::Load { cell, offset, size } => CallRow::Load { cell: *cell, offset: *offset, size: *size },
            Call::Store { cell, offset, size, value } => CallRow::Store {
                cell: *cell, offset: *offset, size: *size, value: *value,
            },
            Call::Atomic { cell, offset, size, op, value, expected } => CallRow::Atomic {
                cell: *cell, offset: *offset, size: *size, op: *op, value: *value, expected: *expected,
            },
            Call::Update { shard, key, value, flags } => CallRow::Update {
                shard: *shard, key_size: key_size(key), value_size: value_size(value), at, flags: *flags,
            },
            Call::Delete { shard, key } => CallRow::Delete { shard: *shard, key_size: key_size(key), at },
            Call::Reclaim { shard } => CallRow::Reclaim { shard: *shard },
        }
    }

    /// The call, with its key and its value from the list's bytes.
    #[rattlefmt::skip]
    pub(crate) fn call(&self, bytes: &[u8]) -> Call
        requires { IsWithin (length bytes.now) self.now }
        ensures { result ≡ listed_call bytes.now self.now }
    {
        match self {
            CallRow::Enter { shard } => Call::Enter { shard: *shard },
            CallRow::Leave { shard } => Call::Leave { shard: *shard },
            CallRow::Lookup { shard, key_size, at } => Call::Lookup { shard: *shard, key: key_at(bytes, *at, *key_size) },
            CallRow::Load { cell, offset, size } => Call::Load { cell: *cell, offset: *offset, size: *size },
            CallRow::Store { cell, offset, size, value } => Call::Store {
                cell: *cell, offset: *offset, size: *size, value: *value,
            },
            CallRow::Atomic { cell, offset, size, op, value, expected } => Call::Atomic {
                cell: *cell, offset: *offset, size: *size, op: *op, value: *value, expected: *expected,
            },
            CallRow::Update { shard, key_size, value_size, at, flags } => Call::Update {
                shard: *shard, key: key_at(bytes, *at, *key_size), value: value_at(bytes, *at + u64::from(*key_size), *value_size),
                flags: *flags,
            },
            CallRow::Delete { shard, key_size, at } => Call::Delete { shard: *shard, key: key_at(bytes, *at, *key_size) },
            CallRow::Reclaim { shard } => Call::Reclaim { shard: *shard },
        }
    }
}

/// How many bytes the key and the value of a call have.
pub(crate) fn byte_count(call: &Call) -> usize
    ensures { result ≡ length (bytes_of call.now) }
{
    key_bytes(call).len() + value_bytes(call).len()
}

/// Puts the key and the value of a call behind the bytes, for which there is room.
pub(crate) fn put_bytes_of(bytes: &mut Vec<u8>, call: &Call)
    requires { vec_len bytes.old + length (bytes_of call.now) ≤ vec_capacity bytes.old }
    ensures { bytes.new.items ≡ bytes.old.items ++ bytes_of call.now }
{
    put_bytes(bytes, key_bytes(call));
    put_bytes(bytes, value_bytes(call));
}

// The bytes of the key that the call names, none where it names no key.
fn key_bytes(call: &Call) -> &[u8]
    ensures bytes { result.now ≡ unwrap_or (key_of_call call.now) [] }
    ensures at_most { length result.now ≤ 32 }
{
    match call.key() {
        Some(key) => key.as_slice(),
        None => &[],
    }
}

// The bytes of the value that an Update sets for its key, none of another call.
fn value_bytes(call: &Call) -> &[u8]
    ensures bytes { result.now ≡ unwrap_or (value_of_call call.now) [] }
    ensures at_most { length result.now ≤ 256 }
{
    match call.value() {
        Some(value) => value.as_slice(),
        None => &[],
    }
}

fn key_size(key: &Key) -> u32
    ensures size { result ≡ length key.now }
    ensures at_most { length key.now ≤ 32 }
{
    key.as_slice().len() as u32
}

fn value_size(value: &Value) -> u32
    ensures size { result ≡ length value.now }
    ensures at_most { length value.now ≤ 256 }
{
    value.as_slice().len() as u32
}
