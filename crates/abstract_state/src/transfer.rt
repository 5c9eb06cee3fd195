//! What a program may do, instruction by instruction.
//!
//! The checker goes over a program once, by rising slot. Every jump goes forward, so when it comes to an instruction, it has seen all
//! paths that lead there. It then has a `State`, which holds for every run that reaches the instruction:
//!
//! - for each of the eleven registers (RFC 9669, section 3.1) its `Kind`: unset, a number in an interval, or a pointer to the context,
//!   the stack, the packet or its end, a map, a value of a map, or the result of a lookup, which may be null;
//! - for each eight bytes of the stack the kind of the register that was spilled there, or which of the bytes were written;
//! - how many bytes from the packet's start are known to lie in the packet.
//!
//! `State::step` takes the state over one instruction. It rejects the instruction if a run in such a state could do one of these (with
//! the fault's number):
//!
//! - read a register (35) or a byte of the stack (39) that was never written, or write the frame pointer R10 (43);
//! - compute with a pointer, or take a number for one (36), except moving a pointer within what it points to; make a pointer
//!   readable as a number, in the packet, in a part of a stack word or as the verdict (46);
//! - touch memory past what a test showed to be in the packet (37), outside the stack (38) or outside a map's value (40), on the stack
//!   and in values not at a multiple of the size (41), or a part of the context that is not a field (42);
//! - call an unknown helper (44) or with arguments that it does not take (45), name a map that the image does not have (47), or load
//!   an address in a value of a map that is not an array (49).
//!
//! Where two paths meet, `State::join` keeps what both know. A conditional jump has two edges, and `State::follow` takes the state along
//! one of them, with what its test says there: a number's interval is cut to the part that passes; the result of a lookup is null, or
//! it is a value; this many bytes of the packet are there. Every pointer into the packet or to a value carries an id: 0 for the
//! packet's start, else the slot of the instruction that made it. No slot is reached twice in a run, so an id stands for one address;
//! and a test of one copy tells about all copies, spilled ones too.
//!
//! Why that is enough: a state holds for every run that reaches it, so an instruction that breaks no rule in it traps in none of
//! them, and what flows along its edges holds where they lead. This is proved, in the words of `specs/Soundness`, as the laws
//! `flow_is_sound`, `join_is_sound` and `opening_is_sound`. The verifier carries it by induction over all that workers, controller and
//! reclaimer do. Every run ends, because each step goes to a higher slot. A safe program may be rejected: of numbers only an unsigned
//! interval is followed, no single bits, no signed bounds, and no relation between two registers.
//!
//! The order of rules within an instruction is part of the promise, since the first that is broken is returned: a write of R10; then an
//! unknown helper or map; then an unset register, the destination before the source; then the rule of the instruction's class.

ghost use Rattle.std.specs.Prelude.{◌≡◌, Some};
ghost use Rattle.abstract_state.specs.Access.{load_of, signed_load_of, with_fetched_kind, expects, checked_atomic};
ghost use Rattle.abstract_state.specs.States.{kind_of};
ghost use Rattle.abstract_state.specs.Unary.{unary_change};
ghost use Rattle.abstract_state.specs.InPlace.{kept, flow_kept, edge_state};
ghost use Rattle.abstract_state.specs.Flow.{writable, fetch_writable, check_set, reads, reads_source, reads_both, reads_operands};
ghost use Rattle.abstract_state.specs.Flow.{reads_expected, reads_atomic, reads_arguments, alu_flow, checked_number, operand_of, unary_flow};
ghost use Rattle.abstract_state.specs.Flow.{load_flow, store_flow, store_register_flow, atomic_flow, known_map, map_flow, array_size};
ghost use Rattle.abstract_state.specs.Flow.{address_in, checked_value_address, address_flow, number_flow, call_flow, verdict_kind, flow_of};

use crate::access::storable_number;
use crate::broken_rule::BrokenRule;
use crate::calls::helper_at;
use crate::flow::Way;
use crate::kind::{Kind, Offsets};
use crate::places::{atomic_access, place_within};
use crate::refinement::allowed_test;
use crate::site::{Address, Site};
use crate::state::State;
use abstract_scalar::Interval;
use ebpf_decode::{Insn, MapDef, MapKind};
use isa::{
    AluOp, AtomicOp, ByteOrder, Extension, Register, ShortExtension, Size, SourceOperand,
    SwapWidth, Test, Width,
};
use semantics::Helper;

/// R10 is read-only.
fn writable(register: Register) -> Result<(), BrokenRule>
    ensures { result ≡ writable register }
{
    match register {
        Register::R10 => Err(BrokenRule::ReadOnlyFp),
        _ => Ok(()),
    }
}

/// An atomic operation may not fetch into R10.
fn fetch_writable(register: Option<Register>) -> Result<(), BrokenRule>
    ensures { result ≡ fetch_writable register }
{
    match register {
        None => Ok(()),
        Some(register) => writable(register),
    }
}

/// A kind that may be read.
fn check_set(kind: Kind, register: Register) -> Result<(), BrokenRule>
    ensures { result ≡ check_set kind register }
{
    match kind {
        Kind::Unset => Err(BrokenRule::UnsetRegister(register)),
        _ => Ok(()),
    }
}

/// Compare-and-exchange reads a number from R0.
fn expects(op: AtomicOp, kind: Kind) -> Result<(), BrokenRule>
    ensures { result ≡ expects op kind }
{
    if !op.compares() {
        return Ok(());
    }
    match kind {
        Kind::Scalar(_) => Ok(()),
        _ => Err(BrokenRule::WrongKind(Register::R0)),
    }
}

/// A map by its place in the image's list.
fn known_map(maps: &[MapDef], map: i32) -> Result<Kind, BrokenRule>
    ensures { result ≡ known_map maps.now map }
{
    if map < 0 {
        return Err(BrokenRule::UnknownMap);
    }
    match maps.get(map as usize) {
        Some(_) => Ok(Kind::Map(map as u32)),
        None => Err(BrokenRule::UnknownMap),
    }
}

/// The size of an array's values: the element 0 of an array alone is always there.
fn array_size(kind: MapKind, size: u32) -> Result<u32, BrokenRule>
    ensures { result ≡ array_size kind size }
{
    match kind {
        MapKind::Array => Ok(size),
        _ => Err(BrokenRule::NotArrayMap),
    }
}

/// An address in the value of an array's element 0.
fn address_in(definition: &MapDef, map: u32, slot: u16, offset: u32) -> Result<Kind, BrokenRule>
    ensures { result ≡ address_in (Some definition.now) map slot offset }
{
    let size = array_size(definition.kind, definition.value_size)?;
    let off = place_within(i128::from(offset), size, BrokenRule::ValueBounds)?;
    Ok(Kind::Value {
        map,
        id: slot,
        off: Offsets::at(off),
    })
}

/// An address in the value of the map at this index of the image's list.
fn value_address(site: Site<'_>, map: i32, offset: u32) -> Result<Kind, BrokenRule>
    ensures { result ≡ checked_value_address site.entry.maps.now site.entry.slot map offset }
{
    if map < 0 {
        return Err(BrokenRule::UnknownMap);
    }
    match site.maps.get(map as usize) {
        Some(definition) => address_in(definition, map as u32, site.slot, offset),
        None => Err(BrokenRule::UnknownMap),
    }
}

impl State {
    /// A register is read: 35 where it is unset.
    fn reads(&self, register: Register) -> Result<(), BrokenRule>
        ensures { result ≡ reads self.now register }
    {
        check_set(self.kind(register), register)
    }

    /// A source is read.
    fn reads_source(&self, source: SourceOperand) -> Result<(), BrokenRule>
        ensures { result ≡ reads_source self.now source }
    {
        match source {
            SourceOperand::Imm(_) => Ok(()),
            SourceOperand::Reg(register) => self.reads(register),
        }
    }

    /// Destination and source are read.
    fn reads_both(&self, dst: Register, source: SourceOperand) -> Result<(), BrokenRule>
        ensures { result ≡ reads_both self.now dst source }
    {
        self.reads(dst)?;
        self.reads_source(source)
    }

    /// What an arithmetic operation reads: a move does not read what it overwrites.
    fn reads_operands(
        &self,
        op: AluOp,
        dst: Register,
        source: SourceOperand,
    ) -> Result<(), BrokenRule>
        ensures { result ≡ reads_operands self.now op dst source }
    {
        match op {
            AluOp::Mov => self.reads_source(source),
            _ => self.reads_both(dst, source),
        }
    }

    /// Compare-and-exchange also reads R0.
    fn reads_expected(&self, op: AtomicOp) -> Result<(), BrokenRule>
        ensures { result ≡ reads_expected self.now op }
    {
        if op.compares() {
            self.reads(Register::R0)
        } else {
            Ok(())
        }
    }

    /// What an atomic operation reads.
    fn reads_atomic(&self, op: AtomicOp, dst: Register, src: Register) -> Result<(), BrokenRule>
        ensures { result ≡ reads_atomic self.now op dst src }
    {
        self.reads(dst)?;
        self.reads(src)?;
        self.reads_expected(op)
    }

    /// What a call reads: its arguments upward.
    fn reads_arguments(&self, helper: Helper) -> Result<(), BrokenRule>
        ensures { result ≡ reads_arguments self.now helper }
    {
        match helper {
            Helper::MapLookupElem | Helper::MapDeleteElem | Helper::XdpAdjustHead => {
                self.reads_both(Register::R1, SourceOperand::Reg(Register::R2))
            }
            Helper::MapUpdateElem => {
                self.reads_both(Register::R1, SourceOperand::Reg(Register::R2))?;
                self.reads_both(Register::R3, SourceOperand::Reg(Register::R4))
            }
            Helper::KtimeGetNs | Helper::GetSmpProcessorId => Ok(()),
        }
    }

    /// Arithmetic.
    #[inline(never)]
    fn alu(
        &mut self,
        site: Site<'_>,
        width: Width,
        op: AluOp,
        dst: Register,
        source: SourceOperand,
    ) -> Result<(), BrokenRule>
        ensures { kept result self.new ≡ alu_flow site.entry.maps.now self.old site.entry.slot width op dst source }
    {
        writable(dst)?;
        self.reads_operands(op, dst, source)?;
        self.compute(site, width, op, dst, source)
    }

    /// The number in a register that an operation with one operand reads and another that it writes.
    fn operand(&self, dst: Register, operand: Register) -> Result<Interval, BrokenRule>
        ensures { result ≡ operand_of self.now dst operand }
    {
        writable(dst)?;
        self.reads(operand)?;
        checked_number(self.kind(operand), operand)
    }

    /// An offset from what a register holds.
    fn address(&self, register: Register, offset: i16) -> Address
        ensures { result ≡ record { base = kind_of self.now register; offset = offset; register = register } }
    {
        Address {
            base: self.kind(register),
            offset,
            register,
        }
    }

    /// A zero-extending load.
    #[inline(never)]
    fn load(
        &mut self,
        site: Site<'_>,
        size: Size,
        dst: Register,
        src: Register,
        offset: i16,
    ) -> Result<(), BrokenRule>
        ensures { kept result self.new ≡ load_flow self.old dst src (load_of site.entry.maps.now self.old size dst src offset) }
    {
        writable(dst)?;
        self.reads(src)?;
        let kind = self.loaded(site, size, self.address(src, offset))?;
        self.set(dst, kind);
        Ok(())
    }

    /// A sign-extending load.
    #[inline(never)]
    fn signed_load(
        &mut self,
        site: Site<'_>,
        extension: Extension,
        dst: Register,
        src: Register,
        offset: i16,
    ) -> Result<(), BrokenRule>
        ensures { kept result self.new ≡ load_flow self.old dst src (signed_load_of site.entry.maps.now self.old extension dst src offset) }
    {
        writable(dst)?;
        self.reads(src)?;
        let kind = self.signed_loaded(site, extension, self.address(src, offset))?;
        self.set(dst, kind);
        Ok(())
    }

    /// A store of an immediate.
    #[inline(never)]
    fn store(
        &mut self,
        site: Site<'_>,
        size: Size,
        dst: Register,
        offset: i16,
        immediate: i32,
    ) -> Result<(), BrokenRule>
        ensures { kept result self.new ≡ store_flow site.entry.maps.now self.old size dst offset immediate }
    {
        self.reads(dst)?;
        let to = self.address(dst, offset);
        let stored = self.source(SourceOperand::Imm(immediate));
        self.store_at(site, size, to, stored)
    }

    /// A store of a register.
    #[inline(never)]
    fn store_register(
        &mut self,
        site: Site<'_>,
        size: Size,
        dst: Register,
        src: Register,
        offset: i16,
    ) -> Result<(), BrokenRule>
        ensures { kept result self.new ≡ store_register_flow site.entry.maps.now self.old size dst src offset }
    {
        self.reads_both(dst, SourceOperand::Reg(src))?;
        let to = self.address(dst, offset);
        let stored = self.kind(src);
        self.store_at(site, size, to, stored)
    }

    /// Puts what an atomic operation fetches into its register.
    fn fetch(&mut self, register: Option<Register>, width: Width)
        ensures { self.new ≡ with_fetched_kind self.old register width }
    {
        match register {
            None => {}
            Some(register) => self.set(register, Kind::Scalar(Interval::full(width))),
        }
    }

    /// An atomic operation: only values of maps may be worked on so.
    fn atomic_at(
        &mut self,
        site: Site<'_>,
        width: Width,
        op: AtomicOp,
        at: Address,
        src: Register,
    ) -> Result<(), BrokenRule>
        ensures { kept result self.new ≡ checked_atomic site.entry.maps.now self.old width op at.base at.offset at.register src }
    {
        match at.base {
            Kind::Value { map, off, .. } => {
                atomic_access(site.maps, map, off, at.offset, width.size().bytes())?;
                storable_number(self.kind(src))?;
                expects(op, self.kind(Register::R0))?;
                self.fetch(op.fetched(src), width);
                Ok(())
            }
            _ => Err(BrokenRule::WrongKind(at.register)),
        }
    }

    /// An atomic operation, whose operands have to be set.
    #[inline(never)]
    fn atomic(
        &mut self,
        site: Site<'_>,
        width: Width,
        op: AtomicOp,
        dst: Register,
        src: Register,
        offset: i16,
    ) -> Result<(), BrokenRule>
        ensures { kept result self.new ≡ atomic_flow site.entry.maps.now self.old width op dst src offset }
    {
        fetch_writable(op.fetched(src))?;
        self.reads_atomic(op, dst, src)?;
        let at = self.address(dst, offset);
        self.atomic_at(site, width, op, at, src)
    }

    /// A wide load of a map's address.
    fn load_map(&mut self, site: Site<'_>, dst: Register, map: i32) -> Result<(), BrokenRule>
        ensures { kept result self.new ≡ map_flow site.entry.maps.now self.old dst map }
    {
        writable(dst)?;
        let kind = known_map(site.maps, map)?;
        self.set(dst, kind);
        Ok(())
    }

    /// A wide load of an address in a map's value.
    fn load_address(
        &mut self,
        site: Site<'_>,
        dst: Register,
        map: i32,
        offset: u32,
    ) -> Result<(), BrokenRule>
        ensures { kept result self.new ≡ address_flow site.entry.maps.now self.old site.entry.slot dst map offset }
    {
        writable(dst)?;
        let kind = value_address(site, map, offset)?;
        self.set(dst, kind);
        Ok(())
    }

    /// A wide load of a number.
    fn load_number(&mut self, dst: Register, value: u64) -> Result<(), BrokenRule>
        ensures { kept result self.new ≡ number_flow self.old dst value }
    {
        writable(dst)?;
        self.set(dst, Kind::Scalar(Interval::constant(value)));
        Ok(())
    }

    /// An operation with one operand.
    #[inline(never)]
    fn unary(&mut self, dst: Register, operand: Register, change: Unary) -> Result<(), BrokenRule>
        ensures { kept result self.new ≡ unary_flow self.old dst operand (unary_change change) }
    {
        let i = self.operand(dst, operand)?;
        self.set(dst, Kind::Scalar(change.apply(i)));
        Ok(())
    }

    /// The call of a helper by its number.
    #[inline(never)]
    fn call(&mut self, site: Site<'_>, number: i32) -> Result<(), BrokenRule>
        ensures { kept result self.new ≡ call_flow site.entry.maps.now self.old site.entry.slot number }
    {
        let helper = helper_at(number)?;
        self.reads_arguments(helper)?;
        self.call_helper(site, helper)
    }

    /// Takes the state over the instruction that begins in it. Says where a run goes on, or returns the first rule that the
    /// instruction breaks (a write of R10; then an unknown helper or map; then an unset register; then the rule of its
    /// class). After a conditional jump the state is as it was: `follow` takes it along an edge. After an error the state is
    /// unspecified.
    #[rattlefmt::skip]
    pub fn step(&mut self, site: Site<'_>, insn: Insn) -> Result<Way, BrokenRule>
        ensures { flow_kept insn result self.new ≡ flow_of site.entry.maps.now self.old site.entry.slot insn }
    {
        match insn {
            Insn::Alu { width, op, dst, source } => self.alu(site, width, op, dst, source)?,
            Insn::Neg { width, dst } => self.unary(dst, dst, Unary::Neg(width))?,
            Insn::Movsx { extension, dst, src } => self.unary(dst, src, Unary::Movsx(extension))?,
            Insn::Movsx32 { extension, dst, src } => self.unary(dst, src, Unary::Movsx32(extension))?,
            Insn::End { order, swap_width, dst } => self.unary(dst, dst, Unary::Swap(order, swap_width))?,
            Insn::Lddw { dst, value } => self.load_number(dst, value)?,
            Insn::Ldmap { dst, map } => self.load_map(site, dst, map)?,
            Insn::Ldval { dst, map, offset } => self.load_address(site, dst, map, offset)?,
            Insn::Ldx { size, dst, src, offset } => self.load(site, size, dst, src, offset)?,
            Insn::Ldxs { extension, dst, src, offset } => self.signed_load(site, extension, dst, src, offset)?,
            Insn::St { size, dst, offset, immediate } => self.store(site, size, dst, offset, immediate)?,
            Insn::Stx { size, dst, src, offset } => self.store_register(site, size, dst, src, offset)?,
            Insn::AtomicUpdate { width, op, dst, src, offset } => self.atomic(site, width, op, dst, src, offset)?,
            Insn::CallHelper { helper } => self.call(site, helper)?,
            Insn::Ja { .. } | Insn::Ja32 { .. } => return Ok(Way::Jumps),
            Insn::JumpIf { width, test, dst, source, .. } => {
                self.reads_both(dst, source)?;
                allowed_test(width, test, self.kind(dst), self.source(source), dst, source)?;
                return Ok(Way::Splits);
            }
            Insn::Exit => {
                self.reads(Register::R0)?;
                verdict_kind(self.kind(Register::R0))?;
                return Ok(Way::Ends);
            }
        }
        Ok(Way::Falls)
    }

    /// Takes the state along one edge of an allowed conditional jump: the one where it is taken, or where it isn't. Of another
    /// instruction both edges leave the state as it is.
    #[inline(never)]
    #[rattlefmt::skip]
    pub fn follow(&mut self, insn: Insn, taken: bool)
        ensures { self.new ≡ edge_state insn self.old taken }
    {
        match insn {
            Insn::JumpIf { width, test, dst, source, .. } => self.learn(width, test, dst, source, taken),
            Insn::Ja { .. } | Insn::Ja32 { .. } | Insn::Exit | Insn::CallHelper { .. } => {}
            Insn::Alu { .. } | Insn::Neg { .. } | Insn::Movsx { .. } | Insn::Movsx32 { .. } | Insn::End { .. } => {}
            Insn::Lddw { .. } | Insn::Ldmap { .. } | Insn::Ldval { .. } => {}
            Insn::Ldx { .. } | Insn::Ldxs { .. } | Insn::St { .. } | Insn::Stx { .. } | Insn::AtomicUpdate { .. } => {}
        }
    }
}

/// An operation with one operand.
#[derive(Clone, Copy)]
enum Unary {
    Neg(Width),
    Movsx(Extension),
    Movsx32(ShortExtension),
    Swap(ByteOrder, SwapWidth),
}

impl Unary {
    /// The interval of its results over this interval.
    fn apply(self, i: Interval) -> Interval
        ensures { result ≡ unary_change self i }
    {
        match self {
            Unary::Neg(width) => abstract_scalar::neg(width, i),
            Unary::Movsx(extension) => abstract_scalar::movsx64(extension, i),
            Unary::Movsx32(extension) => abstract_scalar::movsx32(extension, i),
            Unary::Swap(order, width) => abstract_scalar::swap(order, width, i),
        }
    }
}

/// The number that an operation with one operand reads.
fn checked_number(kind: Kind, register: Register) -> Result<Interval, BrokenRule>
    ensures { result ≡ checked_number kind register }
{
    match kind {
        Kind::Scalar(i) => Ok(i),
        _ => Err(BrokenRule::WrongKind(register)),
    }
}

/// The verdict has to be a number.
fn verdict_kind(kind: Kind) -> Result<(), BrokenRule>
    ensures { result ≡ verdict_kind kind }
{
    match kind {
        Kind::Scalar(_) => Ok(()),
        _ => Err(BrokenRule::PointerLeak),
    }
}
