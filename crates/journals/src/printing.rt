//! The lines of a file of journals.

ghost use Rattle.std.specs.Prelude.{◌≡◌, ◌++◌, ◌∷◌, ◌≤◌, [], length, OnOk, IfOk};
ghost use Rattle.std.specs.Fmt.{decimal, signed_decimal};
ghost use Rattle.hex.specs.Hex.{encode_lower};
ghost use Rattle.semantics.specs.ShardPlan.{KeepsRows};
ghost use Rattle.journals.specs.JournalText.{who_text, reply_text, told_text, line_of_entry, header_text, entries_text, journals_text};

use crate::all::Journals;
use crate::shard_journal::ShardJournal;
use crate::verb::Verb;
use itoa::Buffer;
use semantics::{Call, Caller, Entry, Options, Reply};
use std::alloc::{AllocError, Global};

/// Writes a word.
fn put_word(out: &mut Vec<u8>, word: &str) -> Result<(), AllocError>
    ensures { OnOk result (out.new.items ≡ out.old.items ++ word.now) }
{
    out.extend_from_slice(word.as_bytes())
}

/// Writes a number in decimal.
fn put_number(out: &mut Vec<u8>, number: u64) -> Result<(), AllocError>
    ensures { OnOk result (out.new.items ≡ out.old.items ++ decimal number) }
{
    let mut buffer = Buffer::new();
    out.extend_from_slice(buffer.format(number).as_bytes())
}

/// Writes a number in decimal, with a minus where it is negative.
fn put_signed(out: &mut Vec<u8>, number: i32) -> Result<(), AllocError>
    ensures { OnOk result (out.new.items ≡ out.old.items ++ signed_decimal number) }
{
    let mut buffer = Buffer::new();
    out.extend_from_slice(buffer.format(number).as_bytes())
}

/// Writes a number and a space.
fn put_field(out: &mut Vec<u8>, number: u64) -> Result<(), AllocError>
    ensures { OnOk result (out.new.items ≡ out.old.items ++ (decimal number ++ 32 ∷ [])) }
{
    put_number(out, number)?;
    put_word(out, " ")
}

/// Writes a key in hexadecimal, and a space.
fn put_key(out: &mut Vec<u8>, key: &[u8]) -> Result<(), AllocError>
    requires { length key.now ≤ 32 }
    ensures { OnOk result (out.new.items ≡ out.old.items ++ (encode_lower key.now ++ 32 ∷ [])) }
{
    let mut digits = [0; 64];
    let digits = &mut digits[..2 * key.len()];
    if hex::encode_to_slice(key, digits).is_err() {
        unreachable!()
    }
    out.extend_from_slice(digits)?;
    put_word(out, " ")
}

/// Writes bytes in hexadecimal, and a space.
fn put_bytes(out: &mut Vec<u8>, bytes: &[u8]) -> Result<(), AllocError>
    requires { length bytes.now ≤ 256 }
    ensures { OnOk result (out.new.items ≡ out.old.items ++ (encode_lower bytes.now ++ 32 ∷ [])) }
{
    let mut digits = [0; 512];
    let digits = &mut digits[..2 * bytes.len()];
    if hex::encode_to_slice(bytes, digits).is_err() {
        unreachable!()
    }
    out.extend_from_slice(digits)?;
    put_word(out, " ")
}

/// Writes who called.
fn put_who(out: &mut Vec<u8>, who: Caller) -> Result<(), AllocError>
    ensures { OnOk result (out.new.items ≡ out.old.items ++ who_text who) }
{
    match who {
        Caller::Worker { number } => {
            put_word(out, "w")?;
            put_number(out, u64::from(number))
        }
        Caller::Controller => put_word(out, "c"),
        Caller::Reclaimer => put_word(out, "r"),
    }
}

/// Writes a reply.
fn put_reply(out: &mut Vec<u8>, reply: &Reply) -> Result<(), AllocError>
    ensures { OnOk result (out.new.items ≡ out.old.items ++ reply_text reply.now) }
{
    match reply {
        Reply::Entered => put_word(out, "ok"),
        Reply::Left => put_word(out, "ok"),
        Reply::Cell { cell } => {
            put_word(out, "cell ")?;
            put_number(out, cell.id)
        }
        Reply::Null => put_word(out, "null"),
        Reply::Word { value } => {
            put_word(out, "word ")?;
            put_number(out, *value)
        }
        Reply::Done => put_word(out, "ok"),
        Reply::Answer { code } => {
            put_word(out, "answer ")?;
            put_signed(out, *code)
        }
        Reply::Freed { count } => {
            put_word(out, "freed ")?;
            put_number(out, *count)
        }
    }
}

/// Writes what comes after the verb: the call's other words, and then the reply's.
#[tactic(auto, unfolding(crate::specs::JournalText::told_text))]
fn put_told(out: &mut Vec<u8>, call: &Call, reply: &Reply) -> Result<(), AllocError>
    ensures { OnOk result (out.new.items ≡ out.old.items ++ told_text call.now (reply_text reply.now)) }
{
    match call {
        Call::Enter { .. } => {}
        Call::Leave { .. } => {}
        Call::Lookup { key, .. } => put_key(out, key.as_slice())?,
        Call::Load { cell, offset, size } => {
            put_field(out, cell.id)?;
            put_field(out, *offset)?;
            put_field(out, *size)?;
        }
        Call::Store {
            cell,
            offset,
            size,
            value,
        } => {
            put_field(out, cell.id)?;
            put_field(out, *offset)?;
            put_field(out, *size)?;
            put_field(out, *value)?;
        }
        Call::Atomic {
            cell,
            offset,
            size,
            op,
            value,
            expected,
        } => {
            put_field(out, cell.id)?;
            put_field(out, *offset)?;
            put_field(out, *size)?;
            put_field(out, *op)?;
            put_field(out, *value)?;
            put_field(out, *expected)?;
        }
        Call::Update {
            key,
            value,
            flags,
            ..
        } => {
            put_key(out, key.as_slice())?;
            put_bytes(out, value.as_slice())?;
            put_field(out, *flags)?;
        }
        Call::Delete { key, .. } => put_key(out, key.as_slice())?,
        Call::Reclaim { .. } => {}
    }
    put_reply(out, reply)
}

/// Writes the line of an entry, without a line feed.
#[tactic(auto, unfolding(crate::specs::JournalText::line_of_entry))]
pub(crate) fn put_line(out: &mut Vec<u8>, entry: &Entry) -> Result<(), AllocError>
    ensures { OnOk result (out.new.items ≡ out.old.items ++ line_of_entry entry.now) }
{
    put_field(out, u64::from(entry.call.shard()))?;
    put_who(out, entry.who)?;
    put_word(out, " ")?;
    put_word(out, Verb::of(&entry.call).text())?;
    put_word(out, " ")?;
    put_told(out, &entry.call, &entry.reply)
}

/// Writes the first line, without a line feed.
#[tactic(auto, unfolding(crate::specs::JournalText::header_text))]
pub(crate) fn put_header(out: &mut Vec<u8>, options: &Options) -> Result<(), AllocError>
    ensures { OnOk result (out.new.items ≡ out.old.items ++ header_text options.now) }
{
    put_word(out, "XLBJ 1 ")?;
    put_field(out, u64::from(options.workers))?;
    put_field(out, u64::from(options.shards))?;
    put_number(out, u64::from(options.journal))
}

/// Writes a line for each entry from a place on.
fn put_entries(out: &mut Vec<u8>, journal: &ShardJournal<'_>) -> Result<(), AllocError>
    ensures { OnOk result (out.new.items ≡ out.old.items ++ entries_text journal.now) }
{
    'entries: for place in 0..journal.len() {
        put_line(out, &journal.entry(place))?;
        put_word(out, "\n")?;
    }
    Ok(())
}

/// The file of journals.
pub(crate) fn text_of_journals(alloc: Global, journals: &Journals) -> Result<Vec<u8>, AllocError>
    requires { KeepsRows journals.now.options.journal }
    ensures { IfOk result (λ text. text.items ≡ journals_text journals.now) }
{
    let mut out = Vec::new(alloc);
    put_header(&mut out, &journals.options())?;
    put_word(&mut out, "\n")?;
    'shards: for number in 0..journals.count() {
        put_entries(&mut out, &journals.journal(number))?;
    }
    Ok(out)
}
