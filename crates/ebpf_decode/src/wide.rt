//! Wide instructions, which take two slots (RFC 9669, section 5.4), and the rest of class LD.

ghost use Rattle.std.specs.Prelude.{◌≡◌, ◌+◌, ◌*◌, ◌^◌, IsTrue};
ghost use Rattle.std.specs.Int.{w32, cast_unsigned};
ghost use Rattle.ebpf_decode.specs.InstructionReading.{is_legacy_mode, is_legacy, exact_head, number_head_at, map_head_at, value_head_at};
ghost use Rattle.ebpf_decode.specs.InstructionReading.{head_at, wide_insn, second_slot, second_at};

use crate::fault::SlotFault;
use crate::insn::Insn;
use crate::slot::CodeSlot;
use crate::version::Version;
use crate::{codes, encoding};
use isa::{Mode, Register, Size};

/// What the first slot of a wide instruction says.
#[derive(Clone, Copy, Debug, PartialEq, Eq)]
pub enum WideHead {
    /// A number, by its lower half.
    Number { dst: Register, low: i32 },
    /// A map, by its place in the image's list.
    Map { dst: Register, map: i32 },
    /// An address in a value of a map, the map by its place.
    Value { dst: Register, map: i32 },
}

/// What one slot returns.
#[derive(Clone, Copy, Debug, PartialEq, Eq)]
pub enum SlotReading {
    /// An instruction that ends with this slot.
    Whole(Insn),
    /// The first slot of a wide instruction.
    Head(WideHead),
}

impl WideHead {
    /// The instruction that this head and a second slot make, or fault 18.
    #[tactic(auto, unfolding(crate::specs::InstructionReading::second_at))]
    pub(crate) fn with_second(self, slot: CodeSlot) -> Result<Insn, SlotFault>
        ensures { result ≡ second_at self slot }
    {
        if slot.is_same(self.second_slot(slot)) {
            Ok(self.insn(slot))
        } else {
            Err(SlotFault::FieldNotZero)
        }
    }

    /// The second slot, with zero in each field that is not used.
    #[tactic(auto, unfolding(crate::specs::InstructionReading::second_slot))]
    fn second_slot(self, slot: CodeSlot) -> CodeSlot
        ensures { result ≡ second_slot self slot }
    {
        let immediate = match self {
            WideHead::Number { .. } | WideHead::Value { .. } => slot.immediate,
            WideHead::Map { .. } => 0,
        };
        CodeSlot {
            opcode: 0,
            dst: 0,
            src: 0,
            offset: 0,
            immediate,
        }
    }

    #[tactic(auto, unfolding(crate::specs::InstructionReading::wide_insn))]
    fn insn(self, slot: CodeSlot) -> Insn
        ensures { result ≡ wide_insn self slot }
    {
        match self {
            WideHead::Number { dst, low } => Insn::Lddw {
                dst,
                value: joined(slot.immediate, low),
            },
            WideHead::Map { dst, map } => Insn::Ldmap { dst, map },
            WideHead::Value { dst, map } => Insn::Ldval {
                dst,
                map,
                offset: slot.immediate.cast_unsigned(),
            },
        }
    }
}

/// The number of these halves.
fn joined(high: i32, low: i32) -> u64
    ensures { result ≡ cast_unsigned w32 high * 2 ^ 32 + cast_unsigned w32 low }
{
    u64::from(high.cast_unsigned()) * 0x1_0000_0000 + u64::from(low.cast_unsigned())
}

/// Whether loads of this mode are legacy packet loads (section 5.5).
fn is_legacy_mode(mode: Option<Mode>) -> bool
    ensures { result ≡ is_legacy_mode mode }
{
    match mode {
        Some(Mode::Abs) | Some(Mode::Ind) => true,
        _ => false,
    }
}

impl CodeSlot {
    /// The head of a wide instruction in a slot of class LD, or its first fault. The sources 3 to 6, in version 1 also 2, and
    /// the legacy loads are not in the profile.
    #[tactic(auto, unfolding(crate::specs::InstructionReading::head_at))]
    pub(crate) fn head(self, version: Version) -> Result<WideHead, SlotFault>
        ensures { result ≡ head_at version self }
    {
        if self.opcode == encoding::wide_opcode() {
            match self.src {
                0 => self.number_head(),
                1 => self.map_head(),
                2 => self.value_head(version),
                3..=6 => Err(SlotFault::NotInProfile),
                _ => Err(SlotFault::UnknownOpcode),
            }
        } else if self.is_legacy() {
            Err(SlotFault::NotInProfile)
        } else {
            Err(SlotFault::UnknownOpcode)
        }
    }

    fn is_legacy(self) -> bool
        ensures { result ≡ is_legacy self }
    {
        is_legacy_mode(self.mode()) && self.size() != Size::U64.code()
    }

    #[tactic(auto, unfolding(crate::specs::InstructionReading::number_head_at))]
    fn number_head(self) -> Result<WideHead, SlotFault>
        ensures { result ≡ number_head_at self }
    {
        let dst = codes::register_at(self.dst)?;
        self.exact_head(WideHead::Number {
            dst,
            low: self.immediate,
        })
    }

    #[tactic(auto, unfolding(crate::specs::InstructionReading::map_head_at))]
    fn map_head(self) -> Result<WideHead, SlotFault>
        ensures { result ≡ map_head_at self }
    {
        let dst = codes::register_at(self.dst)?;
        self.exact_head(WideHead::Map {
            dst,
            map: self.immediate,
        })
    }

    #[tactic(auto, unfolding(crate::specs::InstructionReading::value_head_at))]
    fn value_head(self, version: Version) -> Result<WideHead, SlotFault>
        ensures { result ≡ value_head_at version self }
    {
        match version {
            Version::V1 => Err(SlotFault::NotInProfile),
            Version::V2 => self.value_head_of_version_2(),
        }
    }

    #[tactic(auto, unfolding(crate::specs::InstructionReading::value_head_at))]
    fn value_head_of_version_2(self) -> Result<WideHead, SlotFault>
        ensures { result ≡ value_head_at Version.V2 self }
    {
        let dst = codes::register_at(self.dst)?;
        self.exact_head(WideHead::Value {
            dst,
            map: self.immediate,
        })
    }

    #[tactic(auto, unfolding(crate::specs::InstructionReading::exact_head))]
    fn exact_head(self, head: WideHead) -> Result<WideHead, SlotFault>
        ensures { result ≡ exact_head self head }
    {
        if self.is_same(encoding::head_slot(head)) {
            Ok(head)
        } else {
            Err(SlotFault::FieldNotZero)
        }
    }
}
