//! Images: maps and instructions that the image format encodes.

ghost use Rattle.std.specs.Prelude.{◌≡◌, ◌≤◌, ◌↔◌, length, IfOk, IfNone, IsNone};
ghost use Rattle.std.specs.Option.{option_or};
ghost use Rattle.std.specs.List.{AllByRecursion};
ghost use Rattle.ebpf_decode.specs.InstructionEncoding.{FieldsFit, slot_count, total_slots};
ghost use Rattle.ebpf_decode.specs.ImageContents.{IsEncodable};
ghost use Rattle.ebpf_decode.specs.ImageFormat.{fault_of, first_part_fault, first_bad_map, version_fault, code_fault};

use crate::fault::DecodeFault;
use crate::insn::Insn;
use crate::map::MapDef;
use crate::version::Version;
use std::marker::Model;

/// The bytes with which an image begins: `XLBP`.
pub const MAGIC: [u8; 4] = [0x58, 0x4c, 0x42, 0x50];

/// The bytes of an image's head.
pub const HEAD_LEN: usize = 8;

/// The bytes of each map behind the head.
pub const MAP_LEN: usize = 16;

/// The bytes of a slot.
pub const SLOT_LEN: usize = 8;

/// How many maps an image may have.
pub const MAX_MAPS: usize = 16;

/// How many slots an image may have.
pub const MAX_SLOTS: usize = 4096;

/// The bytes of the longest image.
pub const MAX_LEN: usize = HEAD_LEN + MAP_LEN * MAX_MAPS + SLOT_LEN * MAX_SLOTS;

/// The version, the maps and the program of an image, such that the image format encodes them: at most 16 maps, each one that
/// an image of the version may have, and 1 to 4096 slots of instructions that it may have.
#[derive(Debug, Drop)]
pub struct Image {
    version: Version,
    maps: Vec<MapDef>,
    code: Vec<Insn>,
}

impl Model for Image {
    ghost use Rattle.ebpf_decode.specs.ImageContents.{Contents, IsEncodable};

    ghost Value = { Contents };

    ghost view = { λ image. record { version = image.version; maps = image.maps.items; code = image.code.items } };

    ghost invariant = { λ image. IsEncodable image.version image.maps.items image.code.items };
}

impl Image {
    /// An image of parts that the format encodes.
    pub(crate) fn new(version: Version, maps: Vec<MapDef>, code: Vec<Insn>) -> Image
        requires { IsEncodable version maps.items code.items }
        ensures { result ≡ record { version = version; maps = maps.items; code = code.items } }
    {
        Image {
            version,
            maps,
            code,
        }
    }

    /// The image of these maps and instructions, or the fault that their encoding has: 10 for more than 16 maps, 11 for the
    /// first map that an image of the version may not have, 12 for no instruction, 14 for more than 4096 slots, 16 for the
    /// first instruction that the version doesn't have, the lower number first. It takes no memory.
    pub fn of(version: Version, maps: Vec<MapDef>, code: Vec<Insn>) -> Result<Image, DecodeFault>
        ensures made { IfOk result (λ image. image ≡ record { version = version; maps = maps.items; code = code.items }) }
        ensures fault { fault_of result ≡ first_part_fault version maps.items code.items }
    {
        code_fields_fit(&code);
        match part_fault(version, &maps, &code) {
            Some(fault) => Err(fault),
            None => Ok(Image::new(version, maps, code)),
        }
    }

    /// The version of the image format.
    pub fn version(&self) -> Version
        ensures version { result ≡ self.now.version }
        ensures encodable { IsEncodable self.now.version self.now.maps self.now.code }
    {
        self.version
    }

    /// The maps, by their places.
    pub fn maps(&self) -> &[MapDef]
        ensures maps { result.now ≡ self.now.maps }
        ensures encodable { IsEncodable self.now.version self.now.maps self.now.code }
    {
        &self.maps
    }

    /// The instructions in order, a wide one once.
    pub fn code(&self) -> &[Insn]
        ensures code { result.now ≡ self.now.code }
        ensures encodable { IsEncodable self.now.version self.now.maps self.now.code }
    {
        &self.code
    }

    /// How many slots the program takes: 1 to 4096.
    pub fn slots(&self) -> usize
        ensures slots { result ≡ total_slots self.now.code }
        ensures some { 1 ≤ result }
        ensures most { result ≤ 4096 }
    {
        total_slots(self.code())
    }
}

/// The numbers of the instructions are in their types' ranges.
fn code_fields_fit(code: &[Insn])
    ensures { AllByRecursion FieldsFit code.now }
{
    for insn in code {
        insn.fields_fit();
    }
}

/// The first fault of an image of these parts.
#[tactic(auto, unfolding(crate::specs::ImageFormat::first_part_fault))]
fn part_fault(version: Version, maps: &[MapDef], code: &[Insn]) -> Option<DecodeFault>
    ensures { result ≡ first_part_fault version maps.now code.now }
{
    if maps.len() > MAX_MAPS {
        return Some(DecodeFault::BadHead);
    }
    match first_bad_map(version, maps) {
        Some(fault) => Some(fault),
        None => program_fault(version, code),
    }
}

/// The fault of the first map that an image may not have.
fn first_bad_map(version: Version, maps: &[MapDef]) -> Option<DecodeFault>
    requires { length maps.now ≤ 16 }
    ensures { result ≡ first_bad_map version 0 maps.now }
{
    for place in 0..maps.len() {
        if !maps[place].is_allowed(version) {
            return Some(DecodeFault::BadMap { map: place as u32 });
        }
    }
    None
}

/// The first fault of a program.
fn program_fault(version: Version, code: &[Insn]) -> Option<DecodeFault>
    ensures { result ≡ option_or (code_fault code.now) (version_fault version 0 code.now) }
{
    match code_fault(code) {
        Some(fault) => Some(fault),
        None => version_fault(version, code),
    }
}

/// The fault of the first instruction that images of this version may not have.
fn version_fault(version: Version, code: &[Insn]) -> Option<DecodeFault>
    requires { length code.now ≤ 4096 }
    ensures { result ≡ version_fault version 0 code.now }
{
    let mut slot = 0;
    for insn in code {
        if !insn.is_in_version(version) {
            return Some(DecodeFault::NotInProfile { slot });
        }
        slot += insn.slot_count();
    }
    None
}

/// The fault of a program's size.
fn code_fault(code: &[Insn]) -> Option<DecodeFault>
    ensures fault { result ≡ code_fault code.now }
    ensures few { IfNone result (length code.now ≤ 4096) }
{
    if code.is_empty() {
        Some(DecodeFault::Empty)
    } else if code.len() > MAX_SLOTS {
        Some(DecodeFault::TooLong)
    } else if total_slots(code) > MAX_SLOTS {
        Some(DecodeFault::TooLong)
    } else {
        None
    }
}

/// How many slots the instructions take.
pub fn total_slots(code: &[Insn]) -> usize
    requires { length code.now ≤ 4096 }
    ensures { result ≡ total_slots code.now }
{
    let mut total = 0;
    for insn in code {
        total += insn.slot_count() as usize;
    }
    total
}
