//! Programs that only read.

ghost use Rattle.std.specs.Prelude.{◌≡◌};
ghost use Rattle.verifier.specs.Pending.{known_entry};
ghost use Rattle.verifier.specs.Readers.{is_worker_helper, is_value_kind, is_worker_field, is_queue_field, only_reads, reads_known};

use crate::pending::KnownHere;
use abstract_state::{Kind, State};
use ebpf_decode::Insn;
use semantics::{ContextField, Helper};

/// An update, a deletion, or the worker's number.
fn is_worker_helper(helper: Option<Helper>) -> bool
    ensures { result ≡ is_worker_helper helper }
{
    match helper {
        Some(helper) => helper.changes_map() || helper.asks_worker(),
        None => false,
    }
}

fn is_value(kind: Kind) -> bool
    ensures { result ≡ is_value_kind kind }
{
    matches!(kind, Kind::Value { .. })
}

/// The number of the receive queue.
fn is_worker_field(field: Option<ContextField>) -> bool
    ensures { result ≡ is_worker_field field }
{
    match field {
        Some(field) => field.asks_worker(),
        None => false,
    }
}

/// The same, as a field of the context.
fn is_queue_field(kind: Kind, offset: i16) -> bool
    ensures { result ≡ is_queue_field kind offset }
{
    match kind {
        Kind::Ctx => is_worker_field(ContextField::of(offset)),
        _ => false,
    }
}

/// Whether the instruction only reads, in this state.
fn only_reads(state: &State, insn: Insn) -> bool
    ensures { result ≡ only_reads state.now insn }
{
    match insn {
        Insn::CallHelper { helper } => !is_worker_helper(Helper::of(helper)),
        Insn::St { dst, .. } | Insn::Stx { dst, .. } | Insn::AtomicUpdate { dst, .. } => {
            !is_value(state.kind(dst))
        }
        Insn::Ldx { src, offset, .. } => !is_queue_field(state.kind(src), offset),
        _ => true,
    }
}

impl KnownHere {
    /// The same in what is known at a slot.
    pub(crate) fn only_reads(&self, insn: Insn) -> bool
        ensures { result ≡ reads_known insn (known_entry self.now) }
    {
        if self.is_reached {
            only_reads(&self.state, insn)
        } else {
            true
        }
    }
}
