//! What breaks a rule: the causes of each number, distinguished.

ghost use Rattle.std.specs.Prelude.{◌≡◌, slice_get};
ghost use Rattle.semantics.specs.Program.{value_size_of};
ghost use Rattle.reasons.specs.Causes.{role_of, access_of, base_of, source_interval, computed, updated, addressed, wrong_kind};
ghost use Rattle.reasons.specs.Causes.{beyond, packet_cause, moved_packet, packet_bounds, stack_bounds, stack_unset};
ghost use Rattle.reasons.specs.Causes.{value_size_at, named_size, value_bounds, misaligned, misaligned_at, context_access};
ghost use Rattle.reasons.specs.Causes.{helper_called, bad_argument, pointer_stored, pointer_leak, cause_of, cause_of_structure};

use abstract_scalar::Interval;
use abstract_state::{BrokenRule, Kind, State};
use ebpf_decode::{Insn, MapDef};
use isa::{Register, SourceOperand};
use semantics::Helper;
use verifier::Reject;

/// What an instruction does with its operands, as far as the rules distinguish instructions.
#[derive(Clone, Copy, Debug, PartialEq, Eq)]
pub enum Role {
    Computes,
    Tests,
    Loads,
    Stores,
    /// An atomic operation.
    Updates,
    Calls,
    /// An unconditional jump, an exit, or a wide instruction.
    Others,
}

/// A place in memory that an instruction touches: an offset from what a register holds, and this many bytes.
#[derive(Clone, Copy)]
pub struct Access {
    pub base: Kind,
    pub offset: i16,
    pub count: u32,
}

/// Why an instruction breaks a rule.
///
/// Of an access to the packet `base` is what its bytes count from: 0 is the packet's start, another number the base that the addition at
/// this slot made. `stands` is how far past it the register is, `bytes` how far past it the access ends, and `known` how many bytes from it
/// are known to lie in the packet.
#[derive(Clone, Copy, Debug, PartialEq, Eq)]
pub enum Cause {
    // 30 to 34: the structure.
    JumpsBack,
    JumpsOutside,
    JumpsIntoWide,
    RunsPastEnd,
    NoPathLeads,
    // 35: an unset register.
    /// Not distinguished.
    NotWritten,
    /// On some path from slot 0 nothing was written to it.
    NeverWritten,
    /// The call at a slot left it unset.
    ClearedByCall {
        slot: u32,
    },
    /// The instruction at a slot, which is no call, left it unset: a jump whose two edges lead to one slot with different kinds.
    LeftUnset {
        slot: u32,
    },
    /// The instructions at two slots bring different kinds of it to a slot.
    PathsDisagree {
        slot: u32,
        first: u32,
        one: Kind,
        second: u32,
        other: Kind,
    },
    // 36: a kind that the instruction does not take.
    /// What a lookup gave was not tested for null.
    NullNotTested,
    NotAnAddress,
    PointerArithmetic,
    /// A pointer is moved by a number that is no single one.
    UnknownDelta,
    TestOfKinds,
    AtomicElsewhere,
    ExpectedPointer,
    // 37: the packet.
    BeforeBase,
    /// No comparison with the packet's end shows any byte: some path has none, or its other edge leads here.
    NoTestShows {
        base: u16,
        stands: u16,
        bytes: u64,
    },
    ComparedForFewer {
        base: u16,
        stands: u16,
        bytes: u64,
        known: u32,
    },
    PacketOffsetLeaves,
    PacketOffsetUnknown {
        high: u64,
    },
    // 38 and 39: the stack.
    OutsideStack,
    StackPointerLeaves,
    ArgumentOutsideStack,
    LoadUnwritten,
    ArgumentUnwritten,
    // 40: a map's value.
    OutsideValue {
        size: u32,
    },
    ValuePointerLeaves {
        size: u32,
    },
    AddressPastValue {
        size: u32,
    },
    // 41: no multiple of the size.
    StackMisaligned {
        size: u32,
    },
    ValueMisaligned {
        size: u32,
    },
    AtomicOffsetUnknown,
    // 42: the context.
    ContextStore,
    NoContextField,
    // 43, 44.
    FramePointerWritten,
    NoHelper,
    // 45: an argument.
    WantsMap,
    WantsContext,
    WantsStack,
    WantsNumber,
    // 46: a pointer that could be read as a number.
    VerdictPointer,
    PartOfPointer,
    PointerStored,
    // 47, 49.
    NoMap {
        count: u64,
    },
    NoArray,
}

/// What the instruction does.
fn role_of(insn: Insn) -> Role
    ensures { result ≡ role_of insn }
{
    match insn {
        Insn::Alu { .. }
        | Insn::Neg { .. }
        | Insn::Movsx { .. }
        | Insn::Movsx32 { .. }
        | Insn::End { .. } => Role::Computes,
        Insn::JumpIf { .. } => Role::Tests,
        Insn::Ldx { .. } | Insn::Ldxs { .. } => Role::Loads,
        Insn::St { .. } | Insn::Stx { .. } => Role::Stores,
        Insn::AtomicUpdate { .. } => Role::Updates,
        Insn::CallHelper { .. } => Role::Calls,
        _ => Role::Others,
    }
}

/// The place in memory that the instruction touches.
#[rattlefmt::skip]
pub(crate) fn access_of(state: &State, insn: Insn) -> Option<Access>
    ensures { result ≡ access_of state.now insn }
{
    match insn {
        Insn::Ldx { size, src, offset, .. } => Some(Access { base: state.kind(src), offset, count: size.bytes() }),
        Insn::Ldxs { extension, src, offset, .. } => Some(Access { base: state.kind(src), offset, count: extension.size().bytes() }),
        Insn::St { size, dst, offset, .. } => Some(Access { base: state.kind(dst), offset, count: size.bytes() }),
        Insn::Stx { size, dst, offset, .. } => Some(Access { base: state.kind(dst), offset, count: size.bytes() }),
        Insn::AtomicUpdate { width, dst, offset, .. } => Some(Access { base: state.kind(dst), offset, count: width.size().bytes() }),
        _ => None,
    }
}

/// The interval of the number by which an addition or a subtraction moves a pointer, if it is in a register.
fn source_interval(state: &State, insn: Insn) -> Option<Interval>
    ensures { result ≡ source_interval state.now insn }
{
    match insn {
        Insn::Alu {
            source: SourceOperand::Reg(register),
            ..
        } => match state.kind(register) {
            Kind::Scalar(i) => Some(i),
            _ => None,
        },
        _ => None,
    }
}

/// 36 of arithmetic.
fn computed(blamed: Kind) -> Cause
    ensures { result ≡ computed blamed }
{
    match blamed {
        Kind::ValueOrNull { .. } => Cause::NullNotTested,
        Kind::Scalar(_) => Cause::UnknownDelta,
        _ => Cause::PointerArithmetic,
    }
}

/// 36 of an atomic operation.
fn updated(base: Kind) -> Cause
    ensures { result ≡ updated base }
{
    match base {
        Kind::ValueOrNull { .. } => Cause::NullNotTested,
        Kind::Value { .. } => Cause::ExpectedPointer,
        _ => Cause::AtomicElsewhere,
    }
}

/// 36 of a load or a store.
fn addressed(blamed: Kind) -> Cause
    ensures { result ≡ addressed blamed }
{
    match blamed {
        Kind::ValueOrNull { .. } => Cause::NullNotTested,
        _ => Cause::NotAnAddress,
    }
}

/// What the place that the instruction touches is an offset from.
fn base_of(state: &State, insn: Insn) -> Kind
    ensures { result ≡ base_of state.now insn }
{
    match access_of(state, insn) {
        Some(access) => access.base,
        None => Kind::Unset,
    }
}

/// 36, of the register that is blamed.
fn wrong_kind(role: Role, blamed: Kind, base: Kind) -> Cause
    ensures { result ≡ wrong_kind role blamed base }
{
    match role {
        Role::Tests => Cause::TestOfKinds,
        Role::Computes => computed(blamed),
        Role::Updates => updated(base),
        _ => addressed(blamed),
    }
}

/// 37 of an access from this place on, through a register that is so far past its base.
fn beyond(base: u16, stands: u16, from: i64, count: u32, known: u32) -> Cause
    ensures { result ≡ beyond base stands from count known }
{
    if from < 0 {
        return Cause::BeforeBase;
    }
    let bytes = from as u64 + u64::from(count);
    if known == 0 {
        Cause::NoTestShows {
            base,
            stands,
            bytes,
        }
    } else {
        Cause::ComparedForFewer {
            base,
            stands,
            bytes,
            known,
        }
    }
}

/// 37 of an access.
fn packet_cause(access: Access) -> Cause
    ensures { result ≡ packet_cause access }
{
    match access.base {
        Kind::Packet { id, off, range } => beyond(
            id,
            off,
            i64::from(off) + i64::from(access.offset),
            access.count,
            range,
        ),
        _ => Cause::PacketOffsetLeaves,
    }
}

/// 37 of a packet pointer that is moved.
fn moved_packet(by: Option<Interval>) -> Cause
    ensures { result ≡ moved_packet by }
{
    match by {
        Some(i) => {
            if i.is_constant() {
                Cause::PacketOffsetLeaves
            } else {
                Cause::PacketOffsetUnknown { high: i.high }
            }
        }
        None => Cause::PacketOffsetLeaves,
    }
}

/// 37.
fn packet_bounds(state: &State, insn: Insn) -> Cause
    ensures { result ≡ packet_bounds state.now insn }
{
    match access_of(state, insn) {
        Some(access) => packet_cause(access),
        None => moved_packet(source_interval(state, insn)),
    }
}

/// 38.
fn stack_bounds(role: Role) -> Cause
    ensures { result ≡ stack_bounds role }
{
    match role {
        Role::Computes => Cause::StackPointerLeaves,
        Role::Calls => Cause::ArgumentOutsideStack,
        _ => Cause::OutsideStack,
    }
}

/// 39.
fn stack_unset(role: Role) -> Cause
    ensures { result ≡ stack_unset role }
{
    match role {
        Role::Calls => Cause::ArgumentUnwritten,
        _ => Cause::LoadUnwritten,
    }
}

/// How many bytes the value has that a register points to.
fn value_size_at(maps: &[MapDef], kind: Kind) -> u32
    ensures { result ≡ value_size_at maps.now kind }
{
    match kind {
        Kind::Value { map, .. } => value_size(maps, map as usize),
        _ => 0,
    }
}

/// How many bytes the values of a map have.
fn value_size(maps: &[MapDef], map: usize) -> u32
    ensures { result ≡ value_size_of (slice_get maps.now map) }
{
    match maps.get(map) {
        Some(definition) => definition.value_size,
        None => 0,
    }
}

/// 40.
fn value_bounds(maps: &[MapDef], state: &State, insn: Insn) -> Cause
    ensures { result ≡ value_bounds maps.now state.now insn }
{
    match insn {
        Insn::Ldval { map, .. } => Cause::AddressPastValue {
            size: named_size(maps, map),
        },
        Insn::Alu { dst, .. } => Cause::ValuePointerLeaves {
            size: value_size_at(maps, state.kind(dst)),
        },
        _ => Cause::OutsideValue {
            size: value_size_at(maps, base_of(state, insn)),
        },
    }
}

/// How many bytes the values of the map have that a wide instruction names.
fn named_size(maps: &[MapDef], map: i32) -> u32
    ensures { result ≡ named_size maps.now map }
{
    if map < 0 {
        0
    } else {
        value_size(maps, map as usize)
    }
}

/// 41 of an access.
fn misaligned(access: Access) -> Cause
    ensures { result ≡ misaligned access }
{
    match access.base {
        Kind::Value { off, .. } => {
            if off.low == off.high {
                Cause::ValueMisaligned { size: access.count }
            } else {
                Cause::AtomicOffsetUnknown
            }
        }
        _ => Cause::StackMisaligned { size: access.count },
    }
}

/// 41.
fn misaligned_at(access: Option<Access>) -> Cause
    ensures { result ≡ misaligned_at access }
{
    match access {
        Some(access) => misaligned(access),
        None => Cause::AtomicOffsetUnknown,
    }
}

/// 42.
fn context_access(role: Role) -> Cause
    ensures { result ≡ context_access role }
{
    match role {
        Role::Loads => Cause::NoContextField,
        _ => Cause::ContextStore,
    }
}

/// Which helper the instruction calls.
fn helper_called(insn: Insn) -> Option<Helper>
    ensures { result ≡ helper_called insn }
{
    match insn {
        Insn::CallHelper { helper } => Helper::of(helper),
        _ => None,
    }
}

/// 45: what the helper takes in the register.
fn bad_argument(helper: Option<Helper>, register: Register) -> Cause
    ensures { result ≡ bad_argument helper register }
{
    match helper {
        Some(Helper::XdpAdjustHead) => match register {
            Register::R1 => Cause::WantsContext,
            _ => Cause::WantsNumber,
        },
        _ => match register {
            Register::R1 => Cause::WantsMap,
            Register::R4 => Cause::WantsNumber,
            _ => Cause::WantsStack,
        },
    }
}

/// 46 of a store: on the stack only a part of a pointer is refused, so a new rule there needs a cause of its own.
fn pointer_stored(base: Kind) -> Cause
    ensures { result ≡ pointer_stored base }
{
    match base {
        Kind::Stack(_) => Cause::PartOfPointer,
        _ => Cause::PointerStored,
    }
}

/// 46.
fn pointer_leak(role: Role, base: Kind) -> Cause
    ensures { result ≡ pointer_leak role base }
{
    match role {
        Role::Loads => Cause::PartOfPointer,
        Role::Stores | Role::Updates => pointer_stored(base),
        _ => Cause::VerdictPointer,
    }
}

impl Cause {
    /// Why an instruction breaks this rule in a state.
    pub fn of(maps: &[MapDef], state: &State, insn: Insn, why: BrokenRule) -> Cause
        ensures { result ≡ cause_of maps.now state.now insn why }
    {
        let role = role_of(insn);
        match why {
            BrokenRule::UnsetRegister(_) => Cause::NotWritten,
            BrokenRule::WrongKind(register) => {
                wrong_kind(role, state.kind(register), base_of(state, insn))
            }
            BrokenRule::PacketBounds => packet_bounds(state, insn),
            BrokenRule::StackBounds => stack_bounds(role),
            BrokenRule::StackUnset => stack_unset(role),
            BrokenRule::ValueBounds => value_bounds(maps, state, insn),
            BrokenRule::Misaligned => misaligned_at(access_of(state, insn)),
            BrokenRule::ContextAccess => context_access(role),
            BrokenRule::ReadOnlyFp => Cause::FramePointerWritten,
            BrokenRule::UnknownHelper => Cause::NoHelper,
            BrokenRule::BadArgument(register) => bad_argument(helper_called(insn), register),
            BrokenRule::PointerLeak => pointer_leak(role, base_of(state, insn)),
            BrokenRule::UnknownMap => Cause::NoMap {
                count: maps.len() as u64,
            },
            BrokenRule::NotArrayMap => Cause::NoArray,
        }
    }

    /// Why a program has no structure.
    pub(crate) fn of_structure(reject: Reject) -> Cause
        ensures { result ≡ cause_of_structure reject }
    {
        match reject {
            Reject::JumpBackward { .. } => Cause::JumpsBack,
            Reject::JumpOutside { .. } => Cause::JumpsOutside,
            Reject::JumpIntoWide { .. } => Cause::JumpsIntoWide,
            Reject::FallsOff { .. } => Cause::RunsPastEnd,
            _ => Cause::NoPathLeads,
        }
    }
}
