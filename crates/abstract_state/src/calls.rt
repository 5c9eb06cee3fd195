//! Calls of helpers.

ghost use Rattle.std.specs.Prelude.{◌≡◌};
ghost use Rattle.abstract_state.specs.InPlace.{kept};
ghost use Rattle.abstract_state.specs.Calls.{helper_at, checked_map_argument, stack_argument, checked_number_argument, checked_context_argument};
ghost use Rattle.abstract_state.specs.Calls.{is_inside_stack};
ghost use Rattle.abstract_state.specs.Calls.{key_arguments, update_arguments, head_arguments, after_return, any_number, checked_call};

use crate::broken_rule::BrokenRule;
use crate::fact::Fact;
use crate::kind::Kind;
use crate::places::{STACK_SIZE, key_size, value_size};
use crate::site::Site;
use crate::state::State;
use abstract_scalar::Interval;
use ebpf_decode::MapDef;
use isa::{Register, Width};
use semantics::Helper;

/// The helper of a number: 44 where there is none.
pub(crate) fn helper_at(number: i32) -> Result<Helper, BrokenRule>
    ensures { result ≡ helper_at number }
{
    match Helper::of(number) {
        Some(helper) => Ok(helper),
        None => Err(BrokenRule::UnknownHelper),
    }
}

/// The map that an argument names.
fn map_argument(kind: Kind, register: Register) -> Result<u32, BrokenRule>
    ensures { result ≡ checked_map_argument kind register }
{
    match kind {
        Kind::Map(map) => Ok(map),
        _ => Err(BrokenRule::BadArgument(register)),
    }
}

/// The place of the stack that an argument points to.
fn stack_argument(kind: Kind, register: Register) -> Result<u16, BrokenRule>
    ensures { result ≡ stack_argument kind register }
{
    match kind {
        Kind::Stack(place) => Ok(place),
        _ => Err(BrokenRule::BadArgument(register)),
    }
}

/// An argument that is a number.
fn number_argument(kind: Kind, register: Register) -> Result<(), BrokenRule>
    ensures { result ≡ checked_number_argument kind register }
{
    match kind {
        Kind::Scalar(_) => Ok(()),
        _ => Err(BrokenRule::BadArgument(register)),
    }
}

/// An argument that is the context.
fn context_argument(kind: Kind, register: Register) -> Result<(), BrokenRule>
    ensures { result ≡ checked_context_argument kind register }
{
    match kind {
        Kind::Ctx => Ok(()),
        _ => Err(BrokenRule::BadArgument(register)),
    }
}

/// Whether this many bytes of the stack lie inside it.
fn is_inside_stack(place: u16, count: u32) -> bool
    ensures { result ≡ is_inside_stack place count }
{
    u64::from(place) + u64::from(count) <= u64::from(STACK_SIZE)
}

impl State {
    /// The arguments of a lookup or a deletion: a map, and a key on the stack.
    fn key_arguments(&self, maps: &[MapDef]) -> Result<u32, BrokenRule>
        ensures { result ≡ key_arguments maps.now self.now }
    {
        let map = map_argument(self.kind(Register::R1), Register::R1)?;
        let key = stack_argument(self.kind(Register::R2), Register::R2)?;
        let count = key_size(maps, map);
        if !is_inside_stack(key, count) {
            return Err(BrokenRule::StackBounds);
        }
        if !self.are_bytes_set(key as usize, count as usize) {
            return Err(BrokenRule::StackUnset);
        }
        Ok(map)
    }

    /// The arguments of an update: a map, a key and a value on the stack, and flags. Both lie inside the stack before the
    /// bytes of either are looked at.
    fn update_arguments(&self, maps: &[MapDef]) -> Result<u32, BrokenRule>
        ensures { result ≡ update_arguments maps.now self.now }
    {
        let map = map_argument(self.kind(Register::R1), Register::R1)?;
        let key = stack_argument(self.kind(Register::R2), Register::R2)?;
        let value = stack_argument(self.kind(Register::R3), Register::R3)?;
        number_argument(self.kind(Register::R4), Register::R4)?;
        let key_count = key_size(maps, map);
        let value_count = value_size(maps, map);
        if !(is_inside_stack(key, key_count) && is_inside_stack(value, value_count)) {
            return Err(BrokenRule::StackBounds);
        }
        if !(self.are_bytes_set(key as usize, key_count as usize)
            && self.are_bytes_set(value as usize, value_count as usize))
        {
            return Err(BrokenRule::StackUnset);
        }
        Ok(map)
    }

    /// The arguments of a move of the packet's start: the context, and a number.
    fn head_arguments(&self) -> Result<(), BrokenRule>
        ensures { result ≡ head_arguments self.now }
    {
        context_argument(self.kind(Register::R1), Register::R1)?;
        number_argument(self.kind(Register::R2), Register::R2)
    }

    /// After a call R0 has the answer, and R1 to R5 nothing.
    fn return_with(&mut self, answer: Kind)
        ensures { self.new ≡ after_return answer self.old }
    {
        let unset = Kind::Unset;
        self.registers = [
            answer,
            unset,
            unset,
            unset,
            unset,
            unset,
            self.registers[6],
            self.registers[7],
            self.registers[8],
            self.registers[9],
            self.registers[10],
        ];
    }

    /// Calls a helper whose arguments are set (RFC 9669, section 4.3.1).
    pub(crate) fn call_helper(&mut self, site: Site<'_>, helper: Helper) -> Result<(), BrokenRule>
        ensures { kept result self.new ≡ checked_call site.entry.maps.now self.old site.entry.slot helper }
    {
        let any_number = Kind::Scalar(Interval::full(Width::Bits64));
        let answer = match helper {
            Helper::MapLookupElem => Kind::ValueOrNull {
                map: self.key_arguments(site.maps)?,
                id: site.slot,
            },
            Helper::MapUpdateElem => {
                self.update_arguments(site.maps)?;
                any_number
            }
            Helper::MapDeleteElem => {
                self.key_arguments(site.maps)?;
                any_number
            }
            Helper::KtimeGetNs => any_number,
            Helper::GetSmpProcessorId => Kind::Scalar(Interval::up_to(7)),
            Helper::XdpAdjustHead => {
                self.head_arguments()?;
                self.tell(Fact::HeadMoved);
                any_number
            }
        };
        self.return_with(answer);
        Ok(())
    }
}
