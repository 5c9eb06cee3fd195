//! An entry as a journal keeps it.

ghost use Rattle.std.specs.Prelude.{◌≡◌, ◌+◌, ◌<◌, ◌≤◌, length};
ghost use Rattle.journal.specs.Rows.{part, word, who_of, call_of_row, reply_of_row, entry_of_row, IsRowWithin, AreWordsWithin};

use semantics::{Call, Caller, CellRef, Entry, Key, Reply, Value};

/// The head of an entry: kind, caller and small fields. Its numbers are among the journal's words from `start` on, and its key, with its value behind it,
/// is among the journal's bytes from `at` on; the shard is the journal's. Small fields come first, so that no variant has more than 12 bytes.
#[derive(Clone, Copy, Debug, PartialEq, Eq)]
pub(crate) enum Row {
    Entered {
        who: Caller,
    },
    Left {
        who: Caller,
    },
    /// A Lookup that found the key. Word: the cell.
    Found {
        who: Caller,
        at: u32,
        start: u32,
    },
    /// A Lookup that did not.
    Missed {
        who: Caller,
        at: u32,
    },
    /// Words: the cell, and what was read.
    Loaded {
        who: Caller,
        size: u8,
        offset: u16,
        start: u32,
    },
    /// Words: the cell, and what was written.
    Stored {
        who: Caller,
        size: u8,
        offset: u16,
        start: u32,
    },
    /// Words: the cell, the operand, the expected number, and what was there before.
    Changed {
        who: Caller,
        size: u8,
        op: u8,
        offset: u16,
        start: u32,
    },
    /// Words: where the key is among the bytes, and the flags.
    Updated {
        who: Caller,
        code: i32,
        start: u32,
    },
    Deleted {
        who: Caller,
        code: i32,
        at: u32,
    },
    /// Word: how many cells were freed.
    Reclaimed {
        who: Caller,
        start: u32,
    },
}

/// What the entries of a journal have in common: the shard, and how many bytes its keys and values have.
#[derive(Clone, Copy, Debug, PartialEq, Eq)]
pub(crate) struct Shape {
    pub shard: u32,
    pub key_size: u32,
    pub value_size: u32,
}

/// This many bytes from a place on.
fn part(bytes: &[u8], at: u64, size: u32) -> &[u8]
    requires { at + size ≤ length bytes.now }
    ensures bytes { result.now ≡ part at size bytes.now }
    ensures size { length result.now ≡ size }
{
    let at = at as usize;
    &bytes[at..at + size as usize]
}

/// The key of this many bytes from a place on.
pub fn key_at(bytes: &[u8], at: u64, size: u32) -> Key
    requires within { at + size ≤ length bytes.now }
    requires size { size ≤ 32 }
    ensures { result ≡ part at size bytes.now }
{
    let mut key = Key::empty();
    key.append(part(bytes, at, size));
    key
}

/// The value of this many bytes from a place on.
pub fn value_at(bytes: &[u8], at: u64, size: u32) -> Value
    requires within { at + size ≤ length bytes.now }
    requires size { size ≤ 256 }
    ensures { result ≡ part at size bytes.now }
{
    let mut value = Value::empty();
    value.append(part(bytes, at, size));
    value
}

/// The word at a place.
fn word(words: &[u64], at: u32, more: u32) -> u64
    requires { at + more < length words.now }
    ensures { result ≡ word words.now (at + more) }
{
    words[at as usize + more as usize]
}

impl Row {
    /// The entry that the row, the journal's bytes and its words make.
    pub(crate) fn entry(&self, shape: &Shape, bytes: &[u8], words: &[u64]) -> Entry
        requires within { IsRowWithin shape.now.key_size shape.now.value_size (length bytes.now) words.now self.now }
        requires key { shape.now.key_size ≤ 32 }
        requires value { shape.now.value_size ≤ 256 }
        ensures { result ≡ entry_of_row shape.now.shard shape.now.key_size shape.now.value_size bytes.now words.now self.now }
    {
        Entry {
            who: self.who(),
            call: self.call(shape, bytes, words),
            reply: self.reply(shape.shard, words),
        }
    }

    #[rattlefmt::skip]
    fn who(&self) -> Caller
        ensures { result ≡ who_of self.now }
    {
        match self {
            Row::Entered { who } => *who,
            Row::Left { who } => *who,
            Row::Found { who, .. } => *who,
            Row::Missed { who, .. } => *who,
            Row::Loaded { who, .. } => *who,
            Row::Stored { who, .. } => *who,
            Row::Changed { who, .. } => *who,
            Row::Updated { who, .. } => *who,
            Row::Deleted { who, .. } => *who,
            Row::Reclaimed { who, .. } => *who,
        }
    }

    #[rattlefmt::skip]
    fn reply(&self, shard: u32, words: &[u64]) -> Reply
        requires { AreWordsWithin words.now self.now }
        ensures { result ≡ reply_of_row shard words.now self.now }
    {
        match self {
            Row::Entered { .. } => Reply::Entered,
            Row::Left { .. } => Reply::Left,
            Row::Found { start, .. } => Reply::Cell { cell: CellRef { shard, id: word(words, *start, 0) } },
            Row::Missed { .. } => Reply::Null,
            Row::Loaded { start, .. } => Reply::Word { value: word(words, *start, 1) },
            Row::Stored { .. } => Reply::Done,
            Row::Changed { start, .. } => Reply::Word { value: word(words, *start, 3) },
            Row::Updated { code, .. } => Reply::Answer { code: *code },
            Row::Deleted { code, .. } => Reply::Answer { code: *code },
            Row::Reclaimed { start, .. } => Reply::Freed { count: word(words, *start, 0) },
        }
    }

    #[rattlefmt::skip]
    fn call(&self, shape: &Shape, bytes: &[u8], words: &[u64]) -> Call
        requires within { IsRowWithin shape.now.key_size shape.now.value_size (length bytes.now) words.now self.now }
        requires key { shape.now.key_size ≤ 32 }
        requires value { shape.now.value_size ≤ 256 }
        ensures { result ≡ call_of_row shape.now.shard shape.now.key_size shape.now.value_size bytes.now words.now self.now }
    {
        let Shape { shard, key_size, value_size } = *shape;
        match self {
            Row::Entered { .. } => Call::Enter { shard },
            Row::Left { .. } => Call::Leave { shard },
            Row::Found { at, .. } => Call::Lookup { shard, key: key_at(bytes, u64::from(*at), key_size) },
            Row::Missed { at, .. } => Call::Lookup { shard, key: key_at(bytes, u64::from(*at), key_size) },
            Row::Loaded { size, offset, start, .. } => Call::Load {
                cell: CellRef { shard, id: word(words, *start, 0) }, offset: u64::from(*offset), size: u64::from(*size),
            },
            Row::Stored { size, offset, start, .. } => Call::Store {
                cell: CellRef { shard, id: word(words, *start, 0) }, offset: u64::from(*offset), size: u64::from(*size),
                value: word(words, *start, 1),
            },
            Row::Changed { size, op, offset, start, .. } => Call::Atomic {
                cell: CellRef { shard, id: word(words, *start, 0) }, offset: u64::from(*offset), size: u64::from(*size), op: u64::from(*op),
                value: word(words, *start, 1), expected: word(words, *start, 2),
            },
            Row::Updated { start, .. } => {
                let at = word(words, *start, 0);
                Call::Update {
                    shard, key: key_at(bytes, at, key_size), value: value_at(bytes, at + u64::from(key_size), value_size),
                    flags: word(words, *start, 1),
                }
            }
            Row::Deleted { at, .. } => Call::Delete { shard, key: key_at(bytes, u64::from(*at), key_size) },
            Row::Reclaimed { .. } => Call::Reclaim { shard },
        }
    }
}
