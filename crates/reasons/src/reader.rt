//! Why a program is no reader: which instructions do more than read.

ghost use Rattle.std.specs.Prelude.{◌≡◌, ◌++◌, string_bytes, OnOk};
ghost use Rattle.reasons.specs.Readers.{reason_called, reason_stored, reason_read, reason_loaded, reason_of, HasReasons};
ghost use Rattle.reasons.specs.Readers.{words_of_reason, line_of_words, reason_line};

use abstract_state::{Kind, State};
use ebpf_decode::Insn;
use semantics::{ContextField, Helper};
use std::alloc::{AllocError, Global};

/// What an instruction does that a reader's don't.
#[derive(Clone, Copy, Debug, PartialEq, Eq)]
pub enum Reason {
    /// It updates a map or deletes a key.
    ChangesMap,
    /// It asks for the worker's number.
    AsksWorker,
    /// It stores to a value of a map.
    StoresValue,
    /// It reads the number of the receive queue.
    ReadsQueue,
}

fn reason_called(helper: Option<Helper>) -> Option<Reason>
    ensures { result ≡ reason_called helper }
{
    match helper {
        Some(helper) => {
            if helper.changes_map() {
                Some(Reason::ChangesMap)
            } else if helper.asks_worker() {
                Some(Reason::AsksWorker)
            } else {
                None
            }
        }
        None => None,
    }
}

fn reason_stored(kind: Kind) -> Option<Reason>
    ensures { result ≡ reason_stored kind }
{
    match kind {
        Kind::Value { .. } => Some(Reason::StoresValue),
        _ => None,
    }
}

fn reason_read(field: Option<ContextField>) -> Option<Reason>
    ensures { result ≡ reason_read field }
{
    match field {
        Some(field) => {
            if field.asks_worker() {
                Some(Reason::ReadsQueue)
            } else {
                None
            }
        }
        None => None,
    }
}

fn reason_loaded(kind: Kind, offset: i16) -> Option<Reason>
    ensures { result ≡ reason_loaded kind offset }
{
    match kind {
        Kind::Ctx => reason_read(ContextField::of(offset)),
        _ => None,
    }
}

impl Reason {
    /// What the instruction does more than to read, in this state.
    pub fn of(state: &State, insn: Insn) -> Option<Reason>
        ensures { result ≡ reason_of state.now insn }
    {
        match insn {
            Insn::CallHelper { helper } => reason_called(Helper::of(helper)),
            Insn::St { dst, .. } | Insn::Stx { dst, .. } | Insn::AtomicUpdate { dst, .. } => {
                reason_stored(state.kind(dst))
            }
            Insn::Ldx { src, offset, .. } => reason_loaded(state.kind(src), offset),
            _ => None,
        }
    }

    /// The same in words.
    #[tactic(auto, unfolding(crate::specs::Readers::words_of_reason))]
    fn words(self) -> &'static str
        ensures { result.now ≡ words_of_reason self }
    {
        match self {
            Reason::ChangesMap => "it changes a map",
            Reason::AsksWorker => "it asks for the worker's number",
            Reason::StoresValue => "it stores to a value of a map",
            Reason::ReadsQueue => "it reads the number of the receive queue",
        }
    }
}

/// The law that these are the instructions for which a program is no reader.
pub fn reasons_are_those()
    ensures { HasReasons }
{}

fn put_words(alloc: Global, out: &mut String, words: &str) -> Result<(), AllocError>
    ensures { OnOk result (string_bytes out.new ≡ string_bytes out.old ++ line_of_words words.now) }
{
    out.push_str(&format!(in alloc; "    no reader: {words}\n")?)
}

/// The line of a reason, if there is one.
pub(crate) fn put_reason(
    alloc: Global,
    out: &mut String,
    reason: Option<Reason>,
) -> Result<(), AllocError>
    ensures { OnOk result (string_bytes out.new ≡ string_bytes out.old ++ reason_line reason) }
{
    match reason {
        Some(reason) => put_words(alloc, out, reason.words()),
        None => Ok(()),
    }
}
