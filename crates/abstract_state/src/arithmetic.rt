//! What arithmetic makes of kinds.

ghost use Rattle.std.specs.Prelude.{◌≡◌, ◌^◌, pos, neg_ℤ, true};
ghost use Rattle.std.specs.Int.RustNames.{int_le};
ghost use Rattle.isa.specs.Words.{signed_value};
ghost use Rattle.abstract_scalar.specs.Transfer.{transfer_of};
ghost use Rattle.abstract_state.specs.InPlace.{kept};
ghost use Rattle.abstract_state.specs.Arithmetic.{source_kind, blamed, number_kind, moved_kind, delta_of, moves_pointers, moved_pointer};
ghost use Rattle.abstract_state.specs.Arithmetic.{moved_address, moved_far, pointer_sum, is_movable, combined_pointer, combined_kind};
ghost use Rattle.abstract_state.specs.Arithmetic.{alu_kind, after_alu_of};

use crate::broken_rule::BrokenRule;
use crate::kind::{Kind, Offsets};
use crate::places::{STACK_SIZE, offsets_within, place_within};
use crate::site::{AluOperands, Site};
use crate::state::State;
use abstract_scalar::Interval;
use ebpf_decode::{MapDef, Version};
use isa::{AluOp, Register, SourceOperand, Width};

/// The register that a source of a wrong kind is blamed on; with an immediate that is the destination.
pub(crate) fn blamed(dst: Register, source: SourceOperand) -> Register
    ensures { result ≡ blamed dst source }
{
    match source {
        SourceOperand::Imm(_) => dst,
        SourceOperand::Reg(register) => register,
    }
}

/// A move of 64 bits copies any kind, one of 32 bits a number.
fn moved(width: Width, kind: Kind, source: Register) -> Result<Kind, BrokenRule>
    ensures { result ≡ moved_kind width kind source }
{
    match (kind, width) {
        (Kind::Scalar(i), _) => Ok(Kind::Scalar(abstract_scalar::transfer(
            width,
            AluOp::Mov,
            i,
            i,
        ))),
        (_, Width::Bits64) => Ok(kind),
        (_, Width::Bits32) => Err(BrokenRule::WrongKind(source)),
    }
}

/// How far a number moves a pointer: read as signed.
fn delta(op: AluOp, n: u64) -> i128
    ensures { result ≡ delta_of op n }
{
    match op {
        AluOp::Sub => -i128::from(n.cast_signed()),
        _ => i128::from(n.cast_signed()),
    }
}

/// Whether the operation moves pointers.
fn moves_pointers(width: Width, op: AluOp) -> bool
    ensures { result ≡ moves_pointers width op }
{
    matches!(
        (width, op),
        (Width::Bits64, AluOp::Add) | (Width::Bits64, AluOp::Sub)
    )
}

/// A pointer moved by a single number.
fn moved_pointer(
    maps: &[MapDef],
    pointer: Kind,
    delta: i128,
    dst: Register,
) -> Result<Kind, BrokenRule>
    requires { (int_le (neg_ℤ (pos (2 ^ 64))) delta ≡ true) × (int_le delta (pos (2 ^ 64)) ≡ true) }
    ensures { result ≡ moved_pointer maps.now pointer delta dst }
{
    match pointer {
        Kind::Stack(place) => {
            let to = place_within(
                i128::from(place) + delta,
                u32::from(STACK_SIZE),
                BrokenRule::StackBounds,
            )?;
            Ok(Kind::Stack(to as u16))
        }
        Kind::Packet { id, off, range } => {
            let to = place_within(i128::from(off) + delta, 65535, BrokenRule::PacketBounds)?;
            Ok(Kind::Packet {
                id,
                off: to as u16,
                range,
            })
        }
        Kind::Value { map, id, off } => {
            let low = i128::from(off.low) + delta;
            let high = i128::from(off.high) + delta;
            let off = offsets_within(maps, map, low, high)?;
            Ok(Kind::Value { map, id, off })
        }
        _ => Err(BrokenRule::WrongKind(dst)),
    }
}

/// An address in a value moved by a number that is known only as an interval, in version 2 alone: by each end of it.
fn moved_value(
    maps: &[MapDef],
    version: Version,
    map: u32,
    id: u16,
    off: Offsets,
    i: Interval,
    source: Register,
) -> Result<Kind, BrokenRule>
    ensures { result ≡ moved_address maps.now version map id off i source }
{
    match version {
        Version::V1 => Err(BrokenRule::WrongKind(source)),
        Version::V2 => {
            let low = i128::from(off.low) + i128::from(i.low);
            let high = i128::from(off.high) + i128::from(i.high);
            let off = offsets_within(maps, map, low, high)?;
            Ok(Kind::Value { map, id, off })
        }
    }
}

/// A pointer moved by a number that is known only as an interval: a packet pointer gets a base of its own, with no known range,
/// and an address in a value an interval of offsets.
fn moved_far(site: Site<'_>, op: AluOp, on: AluOperands, i: Interval) -> Result<Kind, BrokenRule>
    ensures { result ≡ moved_far site.entry.maps.now on.version site.entry.slot op on.first i on.source }
{
    match (op, on.first) {
        (AluOp::Add, Kind::Packet { .. }) => {
            if i.high <= 65535 {
                Ok(Kind::Packet {
                    id: site.slot,
                    off: 0,
                    range: 0,
                })
            } else {
                Err(BrokenRule::PacketBounds)
            }
        }
        (AluOp::Add, Kind::Value { map, id, off }) => {
            moved_value(site.maps, on.version, map, id, off, i, on.source)
        }
        _ => Err(BrokenRule::WrongKind(on.source)),
    }
}

/// A pointer moved by what another register holds.
fn pointer_sum(site: Site<'_>, op: AluOp, on: AluOperands) -> Result<Kind, BrokenRule>
    ensures { result ≡ pointer_sum site.entry.maps.now on.version site.entry.slot op on.first on.second on.dst on.source }
{
    match on.second {
        Kind::Scalar(i) => {
            if i.is_constant() {
                moved_pointer(site.maps, on.first, delta(op, i.low), on.dst)
            } else {
                moved_far(site, op, on, i)
            }
        }
        _ => Err(BrokenRule::WrongKind(on.source)),
    }
}

/// Whether a pointer of the kind can be moved.
fn is_movable(kind: Kind) -> bool
    ensures { result ≡ is_movable kind }
{
    matches!(
        kind,
        Kind::Stack(_) | Kind::Packet { .. } | Kind::Value { .. }
    )
}

/// An operation whose first operand is a pointer.
fn combined_pointer(
    site: Site<'_>,
    width: Width,
    op: AluOp,
    on: AluOperands,
) -> Result<Kind, BrokenRule>
    ensures { result ≡ combined_pointer site.entry.maps.now on.version site.entry.slot width op on.first on.second on.dst on.source }
{
    if moves_pointers(width, op) && is_movable(on.first) {
        pointer_sum(site, op, on)
    } else {
        Err(BrokenRule::WrongKind(on.dst))
    }
}

/// An operation that reads its destination.
fn combined(site: Site<'_>, width: Width, op: AluOp, on: AluOperands) -> Result<Kind, BrokenRule>
    ensures { result ≡ combined_kind site.entry.maps.now on.version site.entry.slot width op on.first on.second on.dst on.source }
{
    match on.first {
        Kind::Scalar(i) => match on.second {
            Kind::Scalar(j) => Ok(Kind::Scalar(abstract_scalar::transfer(width, op, i, j))),
            _ => Err(BrokenRule::WrongKind(on.source)),
        },
        _ => combined_pointer(site, width, op, on),
    }
}

/// The kind of what an arithmetic operation leaves in its destination.
fn alu_kind(site: Site<'_>, width: Width, op: AluOp, on: AluOperands) -> Result<Kind, BrokenRule>
    ensures { result ≡ alu_kind site.entry.maps.now on.version site.entry.slot width op on.first on.second on.dst on.source }
{
    match op {
        AluOp::Mov => moved(width, on.second, on.source),
        _ => combined(site, width, op, on),
    }
}

impl State {
    /// What is known of a second operand: an immediate is a single number, sign-extended to 64 bits.
    pub(crate) fn source(&self, source: SourceOperand) -> Kind
        ensures { result ≡ source_kind self.now source }
    {
        match source {
            SourceOperand::Imm(immediate) => Kind::Scalar(Interval::constant(i64::from(
                immediate,
            ).cast_unsigned())),
            SourceOperand::Reg(register) => self.kind(register),
        }
    }

    /// The state after an arithmetic instruction whose operands are set (RFC 9669, section 4.1). A pointer to the stack, the packet
    /// or a value moves by a single number, and one to the packet, in version 2 also one to a value, by an interval; otherwise 36,
    /// and 37, 38 or 40 where the pointer would leave what it points to.
    pub fn after_alu(
        mut self,
        site: Site<'_>,
        width: Width,
        op: AluOp,
        dst: Register,
        source: SourceOperand,
    ) -> Result<State, BrokenRule>
        ensures { result ≡ after_alu_of site.entry.maps.now self site.entry.slot width op dst source }
    {
        self.compute(site, width, op, dst, source)?;
        Ok(self)
    }

    /// The same in place.
    pub(crate) fn compute(
        &mut self,
        site: Site<'_>,
        width: Width,
        op: AluOp,
        dst: Register,
        source: SourceOperand,
    ) -> Result<(), BrokenRule>
        ensures { kept result self.new ≡ after_alu_of site.entry.maps.now self.old site.entry.slot width op dst source }
    {
        let on = AluOperands {
            first: self.kind(dst),
            second: self.source(source),
            dst,
            source: blamed(dst, source),
            version: self.version,
        };
        let kind = alu_kind(site, width, op, on)?;
        self.set(dst, kind);
        Ok(())
    }
}
