//! Loads, stores and atomic operations.

ghost use Rattle.std.specs.Prelude.{◌≡◌, ◌<◌, ◌≤◌, ◌+◌, ◌%◌};
ghost use Rattle.isa.specs.InstructionCodes.{size_bytes};
ghost use Rattle.abstract_scalar.specs.Intervals.{full_of};
ghost use Rattle.abstract_state.specs.Words.{loaded_number, is_byte_set, are_bytes_set, bytes_loaded, narrow_loaded, spilled_loaded};
ghost use Rattle.abstract_state.specs.Words.{word_loaded, storable_number, storable};
ghost use Rattle.abstract_state.specs.InPlace.{kept};
ghost use Rattle.abstract_state.specs.Access.{context_kind, context_loaded, loaded_kind, signed_loaded, stack_stored, stored};

use crate::broken_rule::BrokenRule;
use crate::kind::{Kind, StackWord};
use crate::places::{packet_access, stack_access, value_access};
use crate::site::{Address, Site};
use crate::state::State;
use abstract_scalar::Interval;
use isa::{Extension, Size, Width};
use semantics::ContextField;

/// Every number that a zero-extending load returns.
fn loaded_number(size: Size) -> Kind
    ensures { result ≡ loaded_number size }
{
    Kind::Scalar(Interval::loaded(size))
}

/// What a narrower load of a spilled register returns.
fn narrow_loaded(size: Size, kind: Kind) -> Result<Kind, BrokenRule>
    ensures { result ≡ narrow_loaded size kind }
{
    match kind {
        Kind::Scalar(_) => Ok(loaded_number(size)),
        _ => Err(BrokenRule::PointerLeak),
    }
}

/// What a load of a spilled register returns.
fn spilled_loaded(size: Size, kind: Kind) -> Result<Kind, BrokenRule>
    ensures { result ≡ spilled_loaded size kind }
{
    match size {
        Size::U64 => Ok(kind),
        _ => narrow_loaded(size, kind),
    }
}

/// 46 unless what is stored is a number: asked of every store but a whole one to the stack, and of atomic operations.
pub(crate) fn storable_number(kind: Kind) -> Result<(), BrokenRule>
    ensures { result ≡ storable_number kind }
{
    match kind {
        Kind::Scalar(_) => Ok(()),
        _ => Err(BrokenRule::PointerLeak),
    }
}

/// Whether a store of the size may put this on the stack: any register whole, and a part of a number.
fn storable(size: Size, kind: Kind) -> Result<(), BrokenRule>
    ensures { result ≡ storable size kind }
{
    match size {
        Size::U64 => Ok(()),
        _ => storable_number(kind),
    }
}

impl State {
    /// Whether a byte of the stack was written, and is no part of a pointer.
    fn is_byte_set(&self, place: usize) -> bool
        requires { place < 512 }
        ensures { result ≡ is_byte_set self.now place }
    {
        let set = self.stack[place / 8].bytes();
        set[place % 8]
    }

    /// Whether this many bytes of the stack were written, from a place on.
    #[tactic(auto, using(crate::proofs::BytesLemmas::after_set_byte, crate::proofs::BytesLemmas::unset_byte, crate::proofs::BytesLemmas::no_byte_left))]
    pub(crate) fn are_bytes_set(&self, place: usize, count: usize) -> bool
        requires { place + count ≤ 512 }
        ensures { result ≡ are_bytes_set self.now place count }
    {
        'bytes: for i in 0..count {
            if !self.is_byte_set(place + i) {
                return false;
            }
        }
        true
    }

    /// A field of the context.
    fn context_kind(&self, place: i16) -> Result<Kind, BrokenRule>
        ensures { result ≡ context_kind self.now place }
    {
        match ContextField::of(place) {
            Some(ContextField::Data) => Ok(Kind::Packet {
                id: 0,
                off: 0,
                range: self.start_range,
            }),
            Some(ContextField::DataEnd) => Ok(Kind::PacketEnd),
            Some(ContextField::IngressIfindex) => Ok(Kind::Scalar(Interval::constant(1))),
            Some(ContextField::RxQueueIndex) => Ok(Kind::Scalar(Interval::up_to(7))),
            None => Err(BrokenRule::ContextAccess),
        }
    }

    /// What a load from the context returns: only words of four bytes can be read.
    fn context_loaded(&self, size: Size, place: i16) -> Result<Kind, BrokenRule>
        ensures { result ≡ context_loaded self.now size place }
    {
        match size {
            Size::U32 => self.context_kind(place),
            _ => Err(BrokenRule::ContextAccess),
        }
    }

    /// What a load from a word of the stack returns.
    fn word_loaded(&self, size: Size, from: usize, word: StackWord) -> Result<Kind, BrokenRule>
        requires { from + size_bytes size ≤ 512 }
        ensures { result ≡ word_loaded self.now size from word }
    {
        match word {
            StackWord::Spilled(kind) => spilled_loaded(size, kind),
            StackWord::Bytes(_) => {
                if self.are_bytes_set(from, size.bytes() as usize) {
                    Ok(loaded_number(size))
                } else {
                    Err(BrokenRule::StackUnset)
                }
            }
        }
    }

    /// What a zero-extending load returns (RFC 9669, section 5.1).
    pub(crate) fn loaded(
        &self,
        site: Site<'_>,
        size: Size,
        from: Address,
    ) -> Result<Kind, BrokenRule>
        ensures { result ≡ loaded_kind site.entry.maps.now self.now size from.base from.offset from.register }
    {
        let count = size.bytes();
        match from.base {
            Kind::Ctx => self.context_loaded(size, from.offset),
            Kind::Stack(place) => {
                let at = stack_access(place, from.offset, count)? as usize;
                self.word_loaded(size, at, self.stack[at / 8])
            }
            Kind::Packet { off, range, .. } => {
                packet_access(off, range, from.offset, count)?;
                Ok(loaded_number(size))
            }
            Kind::Value { map, off, .. } => {
                value_access(site.maps, map, off, from.offset, count)?;
                Ok(loaded_number(size))
            }
            _ => Err(BrokenRule::WrongKind(from.register)),
        }
    }

    /// What a sign-extending load returns (RFC 9669, section 5.2): no field of the context is read so.
    pub(crate) fn signed_loaded(
        &self,
        site: Site<'_>,
        extension: Extension,
        from: Address,
    ) -> Result<Kind, BrokenRule>
        ensures { result ≡ signed_loaded site.entry.maps.now self.now extension from.base from.offset from.register }
    {
        match from.base {
            Kind::Ctx => Err(BrokenRule::ContextAccess),
            _ => {
                self.loaded(site, extension.size(), from)?;
                Ok(Kind::Scalar(Interval::full(Width::Bits64)))
            }
        }
    }

    /// Stores to the stack.
    fn store_to_stack(&mut self, size: Size, from: usize, kind: Kind)
        requires within { (from % 8) + size_bytes size ≤ 8 }
        requires inside { from < 512 }
        ensures { self.new ≡ stack_stored self.old size from kind }
    {
        self.stack[from / 8] = self.stack[from / 8].stored(size, from % 8, kind);
    }

    /// Stores what is known of a register or an immediate (RFC 9669, section 5.1): the place is tested first, and then what is
    /// stored.
    pub(crate) fn store_at(
        &mut self,
        site: Site<'_>,
        size: Size,
        to: Address,
        kind: Kind,
    ) -> Result<(), BrokenRule>
        ensures { kept result self.new ≡ stored site.entry.maps.now self.old size to.base to.offset to.register kind }
    {
        let count = size.bytes();
        match to.base {
            Kind::Ctx => Err(BrokenRule::ContextAccess),
            Kind::Stack(place) => {
                let at = stack_access(place, to.offset, count)? as usize;
                storable(size, kind)?;
                self.store_to_stack(size, at, kind);
                Ok(())
            }
            Kind::Packet { off, range, .. } => {
                packet_access(off, range, to.offset, count)?;
                storable_number(kind)
            }
            Kind::Value { map, off, .. } => {
                value_access(site.maps, map, off, to.offset, count)?;
                storable_number(kind)
            }
            _ => Err(BrokenRule::WrongKind(to.register)),
        }
    }
}
