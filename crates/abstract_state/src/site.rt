//! Where an instruction is judged, and what it works on.

use crate::kind::Kind;
use ebpf_decode::{MapDef, Version};
use isa::Register;

/// Where an instruction is judged: the maps of its image, and its slot.
#[derive(Clone, Copy)]
pub struct Site<'a> {
    pub maps: &'a [MapDef],
    pub slot: u16,
}

/// Two operands, with the registers that a refusal names, and the version whose rules hold.
#[derive(Clone, Copy)]
pub(crate) struct AluOperands {
    pub(crate) first: Kind,
    pub(crate) second: Kind,
    pub(crate) dst: Register,
    pub(crate) source: Register,
    pub(crate) version: Version,
}

/// Where a load, a store or an atomic operation goes: an offset from what a register holds.
#[derive(Clone, Copy)]
pub(crate) struct Address {
    pub(crate) base: Kind,
    pub(crate) offset: i16,
    pub(crate) register: Register,
}
