//! What a run calls maps through.

ghost use Rattle.std.specs.Prelude.{◌≡◌, ℕ, ◌<◌, ◌≤◌, Bool, IfOk, IfErr, OnOk, OnErr};
ghost use Rattle.semantics.specs.declared.call.CellRef.{CellRef};
ghost use Rattle.semantics.specs.declared.call.Call.{Call};
ghost use Rattle.semantics.specs.declared.call.Call.TheVariants.{Load, Store};
ghost use Rattle.semantics.specs.declared.call.Reply.{Reply};
ghost use Rattle.semantics.specs.declared.call.Reply.TheVariants.{Word, Done, Answer};
ghost use Rattle.semantics.specs.History.{shard_of_call};
ghost use Rattle.semantics.specs.RunTrace.{IsReplyTo};
ghost use Rattle.semantics.specs.ServedCalls.{IsHandedOut, IsKeyOf, IsPairOf};
ghost use Rattle.map_port.specs.Served.{Maps, program_over, lookup_call, update_call, delete_call, atomic_call};
ghost use Rattle.map_port.specs.Served.{IsReadable, IsStorable, IsAtomic, handle_limit, reply_of_handle, Keeps};

use isa::AtomicOp;
use semantics::{JournalFull, Key, Value};

/// The maps that a run calls. What a call returns is a relation of the port before, the call, its reply and the port after.
///
/// A cell that a lookup found goes by a handle: a number of the port's own, which is never 0 and below 2^55. What replies mean beyond
/// their form is the port's to say, by `gives`.
pub trait MapPort {
    /// The maps that it has, and how many shards each of them has.
    ghost serves: { Self → Maps };

    /// What a call returns: the port before, the call, its reply, and the port after.
    ghost gives: { Self → Call → Reply → Self → Type 0 };

    /// What a refusal leaves: the port before, the call, and the port after, which may have entered the call's shard.
    ghost refuses: { Self → Call → Self → Type 0 };

    /// Which cells it has handed out, by map, shard and id.
    ghost has_handed_out: { Self → ℕ → ℕ → ℕ → Bool };

    /// The cell that a handle represents.
    ghost cell_of: { Self → ℕ → CellRef };

    /// Looks a key up: the handle of its cell, or 0 where the key is absent. A refusal names the shard; what it leaves is
    /// `refuses`, which for a port over shards is that the journal has no room.
    fn lookup(&mut self, map: u32, key: &Key) -> Result<u64, JournalFull>
        requires { IsKeyOf (serves self.old).maps map key.now }
        ensures gives { IfOk result (λ handle. gives self.old (lookup_call (serves self.old) map key.now)
            (reply_of_handle (cell_of self.new) handle) self.new) }
        ensures limit { IfOk result (λ handle. handle < handle_limit) }
        ensures refuses { OnErr result (refuses self.old (lookup_call (serves self.old) map key.now) self.new) }
        ensures names_the_shard { IfErr result (λ fault. fault.shard ≡ shard_of_call (lookup_call (serves self.old) map key.now)) };

    /// Reads a number of this many bytes from a cell that this port handed out. Refused as `lookup` is.
    fn load(&mut self, handle: u64, offset: u64, size: u64) -> Result<u64, JournalFull>
        requires { IsReadable (serves self.old) (has_handed_out self.old) (cell_of self.old handle) offset size }
        ensures gives { IfOk result (λ number. gives self.old (Load (cell_of self.old handle) offset size) (Word number) self.new) }
        ensures refuses { OnErr result (refuses self.old (Load (cell_of self.old handle) offset size) self.new) }
        ensures names_the_shard { IfErr result (λ fault. fault.shard ≡ (cell_of self.old handle).shard) };

    /// Writes a number of this many bytes into a cell that this port handed out. Refused as `lookup` is.
    fn store(&mut self, handle: u64, offset: u64, size: u64, value: u64) -> Result<(), JournalFull>
        requires { IsStorable (serves self.old) (has_handed_out self.old) (cell_of self.old handle) offset size value }
        ensures gives { OnOk result (gives self.old (Store (cell_of self.old handle) offset size value) Done self.new) }
        ensures refuses { OnErr result (refuses self.old (Store (cell_of self.old handle) offset size value) self.new) }
        ensures names_the_shard { IfErr result (λ fault. fault.shard ≡ (cell_of self.old handle).shard) };

    /// Asks for an atomic operation on a number in a cell that this port handed out, and returns the number before. Refused as
    /// `lookup` is.
    fn atomic(
        &mut self,
        handle: u64,
        offset: u64,
        size: u64,
        op: AtomicOp,
        value: u64,
        expected: u64,
    ) -> Result<u64, JournalFull>
        requires { IsAtomic (serves self.old) (has_handed_out self.old) (cell_of self.old handle) offset size op value expected }
        ensures gives { IfOk result
            (λ number. gives self.old (atomic_call (cell_of self.old handle) offset size op value expected) (Word number) self.new) }
        ensures refuses { OnErr result (refuses self.old (atomic_call (cell_of self.old handle) offset size op value expected) self.new) }
        ensures names_the_shard { IfErr result (λ fault. fault.shard ≡ (cell_of self.old handle).shard) };

    /// Asks for the value of a key to be set, and returns the answer. Refused as `lookup` is.
    fn update(&mut self, map: u32, key: &Key, value: &Value, flags: u64) -> Result<i32, JournalFull>
        requires { IsPairOf (serves self.old).maps map key.now value.now }
        ensures gives { IfOk result
            (λ code. gives self.old (update_call (serves self.old) map key.now value.now flags) (Answer code) self.new) }
        ensures refuses { OnErr result (refuses self.old (update_call (serves self.old) map key.now value.now flags) self.new) }
        ensures names_the_shard { IfErr result
            (λ fault. fault.shard ≡ shard_of_call (update_call (serves self.old) map key.now value.now flags)) };

    /// Asks for a key to be removed, and returns the answer. Refused as `lookup` is.
    fn delete(&mut self, map: u32, key: &Key) -> Result<i32, JournalFull>
        requires { IsKeyOf (serves self.old).maps map key.now }
        ensures gives { IfOk result (λ code. gives self.old (delete_call (serves self.old) map key.now) (Answer code) self.new) }
        ensures refuses { OnErr result (refuses self.old (delete_call (serves self.old) map key.now) self.new) }
        ensures names_the_shard { IfErr result (λ fault. fault.shard ≡ shard_of_call (delete_call (serves self.old) map key.now)) };

    /// A refusal leaves the maps as they are, so that the next run can be made of the same port.
    ghost stays: { (before after : Self) (call : Call) → refuses before call after → serves after ≡ serves before };

    /// A call leaves the maps as they are, and what was handed out stays so, under the same handle.
    ghost keeps: { (before after : Self) (call : Call) (reply : Reply) → gives before call reply after
        → Keeps (serves before) (serves after) (has_handed_out before) (has_handed_out after) (cell_of before) (cell_of after) };

    /// A cell that a lookup finds is handed out.
    ghost hands_out: { (before after : Self) (call : Call) (reply : Reply) → gives before call reply after
        → IsHandedOut (program_over (serves before)) (has_handed_out after) call reply };

    /// Each reply has its call's form and size.
    ghost replies: { (before after : Self) (call : Call) (reply : Reply) → gives before call reply after →
        IsReplyTo (program_over (serves before)) call reply };
}
