//! A list of any entries, in little room.

ghost use Rattle.std.specs.Prelude.{◌≡◌, ◌<◌, ◌≤◌, ◌+◌, [], ◌∷◌, ◌++◌, Some, OnOk, OnErr, length, slice_get, vec_len, vec_capacity};
ghost use Rattle.journals.specs.EntryRows.{bytes_of, FitsRow, IsWithin, listed_entry, entry_row};

use crate::call_row::{CallRow, byte_count, put_bytes_of};
use semantics::{Caller, Entry, Reply};
use std::alloc::{AllocError, Global};
use std::marker::Model;

/// An entry whose key and value are among the list's bytes.
#[derive(Clone, Copy, Debug, PartialEq, Eq)]
pub struct EntryRow {
    pub who: Caller,
    pub call: CallRow,
    pub reply: Reply,
}

impl EntryRow {
    /// The entry, with its key and its value from the list's bytes.
    fn entry(&self, bytes: &[u8]) -> Entry
        requires { IsWithin (length bytes.now) self.now.call }
        ensures { result ≡ listed_entry bytes.now self.now }
    {
        Entry {
            who: self.who,
            call: self.call.call(bytes),
            reply: self.reply,
        }
    }
}

/// Entries of any calls, also of ones that no map serves. An entry takes 96 bytes, and those of its key and value. Contracts see the list
/// of entries, in the order in which they came.
#[derive(Drop)]
pub struct EntryList {
    rows: Vec<EntryRow>,
    /// The keys and values of the rows, one after another.
    bytes: Vec<u8>,
}

impl Model for EntryList {
    ghost use Rattle.std.specs.Prelude.{List, length};
    ghost use Rattle.semantics.specs.declared.call.Entry.{Entry};
    ghost use Rattle.journals.specs.EntryRows.{listed_entries, AreWithin};

    ghost Value = { List Entry };

    ghost view = { λ list. listed_entries list.bytes.items list.rows.items };

    ghost invariant = { λ list. AreWithin (length list.bytes.items) list.rows.items };
}

impl EntryList {
    /// No entries. It takes no memory.
    pub fn new(alloc: Global) -> Self
        ensures { result ≡ [] }
    {
        EntryList {
            rows: Vec::new(alloc),
            bytes: Vec::new(alloc),
        }
    }

    /// How many entries there are.
    pub fn len(&self) -> usize
        ensures { result ≡ length self.now }
    {
        self.rows.len()
    }

    /// The entry at a place, counted from 0.
    pub fn entry(&self, place: usize) -> Entry
        requires { place < length self.now }
        ensures { slice_get self.now place ≡ Some result }
    {
        let row = &self.rows[place];
        row.entry(self.bytes.as_slice())
    }

    /// Puts an entry behind the others. Fails only for lack of memory, and then the list is as it was.
    pub fn push(&mut self, entry: &Entry) -> Result<(), AllocError>
        ensures pushed { OnOk result (self.new ≡ self.old ++ entry.now ∷ []) }
        ensures kept { OnErr result (self.new ≡ self.old) }
    {
        self.rows.reserve(1)?;
        self.bytes.reserve(byte_count(&entry.call))?;
        put(&mut self.rows, &mut self.bytes, entry);
        Ok(())
    }
}

// Puts an entry behind the others, for which there is room: its row, and the bytes of its key and value.
fn put(rows: &mut Vec<EntryRow>, bytes: &mut Vec<u8>, entry: &Entry)
    requires rows { vec_len rows.old < vec_capacity rows.old }
    requires bytes { vec_len bytes.old + length (bytes_of entry.now.call) ≤ vec_capacity bytes.old }
    ensures rows { rows.new.items ≡ rows.old.items ++ entry_row (length bytes.old.items) entry.now ∷ [] }
    ensures bytes { bytes.new.items ≡ bytes.old.items ++ bytes_of entry.now.call }
    ensures fits { FitsRow entry.now.call }
{
    let row = EntryRow {
        who: entry.who,
        call: CallRow::of(&entry.call, bytes.len() as u64),
        reply: entry.reply,
    };
    put_bytes_of(bytes, &entry.call);
    put_row(rows, row);
}

// Puts a row behind the others, for which there is room.
fn put_row(rows: &mut Vec<EntryRow>, row: EntryRow)
    requires { vec_len rows.old < vec_capacity rows.old }
    ensures { rows.new.items ≡ rows.old.items ++ row ∷ [] }
{
    rows.push_reserved(row);
}
