//! Lines read leniently: what is misspelled is read as anything. The caller prints the result again and compares.

ghost use Rattle.std.specs.Prelude.{◌≡◌, ◌++◌, ◌∷◌, [], ◌+◌, ◌<◌, ◌≤◌, ◌^◌, ℕ, ℤ, List, length, FitsSigned};
ghost use Rattle.std.specs.Int.{w32};
ghost use Rattle.std.specs.Fmt.{decimal, signed_decimal};
ghost use Rattle.hex.specs.Hex.{encode_lower, IsBytes};
ghost use Rattle.semantics.specs.declared.call.Caller.{Caller as Who};
ghost use Rattle.semantics.specs.declared.call.Reply.{Reply as Answered};
ghost use Rattle.semantics.specs.declared.call.Entry.{Entry as Told};
ghost use Rattle.semantics.specs.declared.options.Options.{Options as Opened};
ghost use Rattle.journals.specs.JournalText.{who_text, reply_text, line_of_entry, header_text};
ghost use Rattle.journals.specs.EntryForm.{IsKey, IsValue, CallerFits, IsFinding, IsWord, IsAnswerReply, IsFreed, EntryFits};
ghost use Rattle.journals.specs.ToldReading.{Reads};
ghost use Rattle.journals.specs.declared.verb.Verb.TheVariants as verbs;

use crate::verb::Verb;
use semantics::{Call, Caller, CellRef, Entry, Key, Options, Reply, Value};
use text_lines::{after, count_of, cut};

fn number_of(text: &str) -> u64
    ensures { (number : ℕ) → number < 2 ^ 64 → text.now ≡ decimal number → result ≡ number }
{
    match text.parse::<u64>() {
        Ok(value) => value,
        Err(_) => 0,
    }
}

fn signed_of(text: &str) -> i32
    ensures { (number : ℤ) → FitsSigned w32 number → text.now ≡ signed_decimal number → result ≡ number }
{
    match text.parse::<i32>() {
        Ok(value) => value,
        Err(_) => 0,
    }
}

/// The number at the front, and what comes after its space.
fn field(text: &str) -> (u64, &str)
    ensures { (number : ℕ) (rest : List ℕ) → number < 2 ^ 64 → text.now ≡ decimal number ++ 32 ∷ rest → (result.0 ≡ number) ×
        (result.1.now ≡ rest) }
{
    let (number, rest) = cut(text, ' ');
    (number_of(number), rest)
}

/// Puts the bytes of a text of hexadecimal digits into as many places.
fn decode(text: &str, places: &mut [u8])
    ensures { (bytes : List ℕ) → length bytes ≡ length places.old → IsBytes bytes → text.now ≡ encode_lower bytes → places.new ≡ bytes }
{
    let _ = hex::decode_to_slice(text, places);
}

/// The bytes of a text of hexadecimal digits, at most 256.
fn value_of(text: &str) -> Value
    ensures fits { IsValue result }
    ensures found { (bytes : List ℕ) → IsValue bytes → text.now ≡ encode_lower bytes → result ≡ bytes }
{
    let count = text.len() / 2;
    if count > 256 {
        return Value::empty();
    }
    let mut places = [0; 256];
    let bytes = &mut places[..count];
    decode(text, bytes);
    value_with(bytes)
}

/// These bytes, unless there are more than 256.
fn value_with(bytes: &[u8]) -> Value
    ensures fits { IsValue result }
    ensures same { length bytes.now ≤ 256 → result ≡ bytes.now }
{
    match Value::of(bytes) {
        Some(value) => value,
        None => Value::empty(),
    }
}

/// These bytes, unless there are more than 32.
fn key_with(bytes: &[u8]) -> Key
    ensures fits { IsKey result }
    ensures same { length bytes.now ≤ 32 → result ≡ bytes.now }
{
    match Key::of(bytes) {
        Some(key) => key,
        None => Key::empty(),
    }
}

/// The bytes of a text of hexadecimal digits, at most 32.
fn key_of(text: &str) -> Key
    ensures fits { IsKey result }
    ensures found { (bytes : List ℕ) → IsKey bytes → text.now ≡ encode_lower bytes → result ≡ bytes }
{
    let count = text.len() / 2;
    if count > 32 {
        return Key::empty();
    }
    let mut places = [0; 32];
    let bytes = &mut places[..count];
    decode(text, bytes);
    key_with(bytes)
}

/// Who called. A worker's number is below 8.
fn who_of(text: &str) -> Caller
    ensures fits { CallerFits result }
    ensures found { (who : Who) → CallerFits who → text.now ≡ who_text who → result ≡ who }
{
    match text {
        "c" => Caller::Controller,
        "r" => Caller::Reclaimer,
        "w0" => Caller::Worker { number: 0 },
        "w1" => Caller::Worker { number: 1 },
        "w2" => Caller::Worker { number: 2 },
        "w3" => Caller::Worker { number: 3 },
        "w4" => Caller::Worker { number: 4 },
        "w5" => Caller::Worker { number: 5 },
        "w6" => Caller::Worker { number: 6 },
        _ => Caller::Worker { number: 7 },
    }
}

/// The reply to a Lookup.
fn finding_of(shard: u32, text: &str) -> Reply
    ensures fits { IsFinding shard result }
    ensures found { (reply : Answered) → IsFinding shard reply → text.now ≡ reply_text reply → result ≡ reply }
{
    if text == "null" {
        return Reply::Null;
    }
    Reply::Cell {
        cell: CellRef {
            shard,
            id: number_of(after(text, "cell ")),
        },
    }
}

/// The reply to a Load or an Atomic.
fn word_of(text: &str) -> Reply
    ensures fits { IsWord result }
    ensures found { (reply : Answered) → IsWord reply → text.now ≡ reply_text reply → result ≡ reply }
{
    Reply::Word {
        value: number_of(after(text, "word ")),
    }
}

/// The reply to an Update or a Delete.
fn answer_of(text: &str) -> Reply
    ensures fits { IsAnswerReply result }
    ensures found { (reply : Answered) → IsAnswerReply reply → text.now ≡ reply_text reply → result ≡ reply }
{
    Reply::Answer {
        code: signed_of(after(text, "answer ")),
    }
}

/// The reply to a Reclaim.
fn freed_of(text: &str) -> Reply
    ensures fits { IsFreed result }
    ensures found { (reply : Answered) → IsFreed reply → text.now ≡ reply_text reply → result ≡ reply }
{
    Reply::Freed {
        count: number_of(after(text, "freed ")),
    }
}

#[tactic(auto, unfolding(crate::specs::EntryForm::CallFits, crate::specs::EntryForm::ReplyFits))]
fn lookup_of(who: Caller, shard: u32, text: &str) -> Entry
    requires { CallerFits who }
    ensures fits { EntryFits result }
    ensures found { Reads verbs.Lookup who shard text.now result }
{
    let (key, reply) = cut(text, ' ');
    Entry {
        who,
        call: Call::Lookup {
            shard,
            key: key_of(key),
        },
        reply: finding_of(shard, reply),
    }
}

#[tactic(auto, unfolding(crate::specs::EntryForm::CallFits, crate::specs::EntryForm::ReplyFits))]
fn load_of(who: Caller, shard: u32, text: &str) -> Entry
    requires { CallerFits who }
    ensures fits { EntryFits result }
    ensures found { Reads verbs.Load who shard text.now result }
{
    let (id, text) = field(text);
    let (offset, text) = field(text);
    let (size, text) = field(text);
    Entry {
        who,
        call: Call::Load {
            cell: CellRef { shard, id },
            offset,
            size,
        },
        reply: word_of(text),
    }
}

#[tactic(auto, unfolding(crate::specs::EntryForm::CallFits, crate::specs::EntryForm::ReplyFits))]
fn store_of(who: Caller, shard: u32, text: &str) -> Entry
    requires { CallerFits who }
    ensures fits { EntryFits result }
    ensures found { Reads verbs.Store who shard text.now result }
{
    let (id, text) = field(text);
    let (offset, text) = field(text);
    let (size, text) = field(text);
    let (value, _) = field(text);
    Entry {
        who,
        call: Call::Store {
            cell: CellRef { shard, id },
            offset,
            size,
            value,
        },
        reply: Reply::Done,
    }
}

#[tactic(auto, unfolding(crate::specs::EntryForm::CallFits, crate::specs::EntryForm::ReplyFits))]
fn atomic_of(who: Caller, shard: u32, text: &str) -> Entry
    requires { CallerFits who }
    ensures fits { EntryFits result }
    ensures found { Reads verbs.Atomic who shard text.now result }
{
    let (id, text) = field(text);
    let (offset, text) = field(text);
    let (size, text) = field(text);
    let (op, text) = field(text);
    let (value, text) = field(text);
    let (expected, text) = field(text);
    Entry {
        who,
        call: Call::Atomic {
            cell: CellRef { shard, id },
            offset,
            size,
            op,
            value,
            expected,
        },
        reply: word_of(text),
    }
}

#[tactic(auto, unfolding(crate::specs::EntryForm::CallFits, crate::specs::EntryForm::ReplyFits))]
fn update_of(who: Caller, shard: u32, text: &str) -> Entry
    requires { CallerFits who }
    ensures fits { EntryFits result }
    ensures found { Reads verbs.Update who shard text.now result }
{
    let (key, text) = cut(text, ' ');
    let (value, text) = cut(text, ' ');
    let (flags, text) = field(text);
    Entry {
        who,
        call: Call::Update {
            shard,
            key: key_of(key),
            value: value_of(value),
            flags,
        },
        reply: answer_of(text),
    }
}

#[tactic(auto, unfolding(crate::specs::EntryForm::CallFits, crate::specs::EntryForm::ReplyFits))]
fn delete_of(who: Caller, shard: u32, text: &str) -> Entry
    requires { CallerFits who }
    ensures fits { EntryFits result }
    ensures found { Reads verbs.Delete who shard text.now result }
{
    let (key, reply) = cut(text, ' ');
    Entry {
        who,
        call: Call::Delete {
            shard,
            key: key_of(key),
        },
        reply: answer_of(reply),
    }
}

/// A call without words of its own, with its reply.
fn plain(who: Caller, call: Call, reply: Reply) -> Entry
    ensures { result ≡ record { who = who; call = call; reply = reply } }
{
    Entry { who, call, reply }
}

/// The entry of a verb, by the words that come after it.
#[tactic(auto, unfolding(crate::specs::ToldReading::Reads, crate::specs::EntryForm::CallFits, crate::specs::EntryForm::ReplyFits))]
fn told_of(verb: Verb, who: Caller, shard: u32, text: &str) -> Entry
    requires { CallerFits who }
    ensures fits { EntryFits result }
    ensures found { Reads verb who shard text.now result }
{
    match verb {
        Verb::Enter => plain(who, Call::Enter { shard }, Reply::Entered),
        Verb::Leave => plain(who, Call::Leave { shard }, Reply::Left),
        Verb::Lookup => lookup_of(who, shard, text),
        Verb::Load => load_of(who, shard, text),
        Verb::Store => store_of(who, shard, text),
        Verb::Atomic => atomic_of(who, shard, text),
        Verb::Update => update_of(who, shard, text),
        Verb::Delete => delete_of(who, shard, text),
        Verb::Reclaim => plain(who, Call::Reclaim { shard }, freed_of(text)),
    }
}

/// The entry of the line, if it is spelled exactly so. It fits in any case.
pub(crate) fn entry_read(line: &str) -> Entry
    ensures fits { EntryFits result }
    ensures found { (entry : Told) → EntryFits entry → line.now ≡ line_of_entry entry → result ≡ entry }
{
    let (shard, rest) = cut(line, ' ');
    let (who, rest) = cut(rest, ' ');
    let (verb, rest) = cut(rest, ' ');
    told_of(Verb::read(verb), who_of(who), count_of(shard), rest)
}

/// The options of the first line, if it is spelled exactly so.
pub(crate) fn header_read(line: &str) -> Options
    ensures { (options : Opened) → options.workers < 2 ^ 32 → options.shards < 2 ^ 32 → options.journal < 2 ^ 32
        → line.now ≡ header_text options → result ≡ options }
{
    let (workers, rest) = cut(after(line, "XLBJ 1 "), ' ');
    let (shards, journal) = cut(rest, ' ');
    Options {
        workers: count_of(workers),
        shards: count_of(shards),
        journal: count_of(journal),
    }
}
