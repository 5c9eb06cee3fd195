//! The image format read.

ghost use Rattle.std.specs.Prelude.{◌≡◌, ◌≢◌, ◌++◌, ◌*◌, ◌≤◌, ◌<◌, length, OnOk, IfOk, IfErr, IsTrue, None, Some, Ok, Err};
ghost use Rattle.ebpf_decode.specs.SlotForm.{slots_at};
ghost use Rattle.ebpf_decode.specs.InstructionReading.{at_slot, step_at, pending_of, finished_by, code_from};
ghost use Rattle.ebpf_decode.specs.ImageContents.{Contents};
ghost use Rattle.ebpf_decode.specs.ImageFormat.{Gives, map_count, version_at, has_head, maps_at, code_at, image_at, has_code_size};
ghost use Rattle.ebpf_decode.specs.ImageFormat.{may_ask_memory, first_decode_fault, IsImageEncoding};

use crate::fault::{DecodeFault, SlotFault};
use crate::image::{Image, MAGIC, MAX_SLOTS};
use crate::insn::Insn;
use crate::map::MapDef;
use crate::slot::CodeSlot;
use crate::version::Version;
use crate::wide::{SlotReading, WideHead};
use std::alloc::{AllocError, Global};

/// Whether the bytes begin with a whole head and as many maps as it says.
fn has_head(bytes: &[u8]) -> bool
    ensures { result ≡ has_head bytes.now }
{
    8 <= bytes.len()
        && bytes[0] == MAGIC[0]
        && bytes[1] == MAGIC[1]
        && bytes[2] == MAGIC[2]
        && bytes[3] == MAGIC[3]
        && Version::of(bytes[4]).is_some()
        && bytes[5] <= 16
        && bytes[6] == 0
        && bytes[7] == 0
        && 8 + 16 * bytes[5] as usize <= bytes.len()
}

/// The version of an image with a whole head.
fn version_of(bytes: &[u8]) -> Version
    requires { 8 ≤ length bytes.now }
    ensures { result ≡ version_at bytes.now }
{
    Version::of(bytes[4]).unwrap_or(Version::V1)
}

/// This many maps from the front of the bytes, and the bytes after them.
fn maps_of(
    alloc: Global,
    version: Version,
    count: u32,
    bytes: &[u8],
) -> Result<(Vec<MapDef>, &[u8]), DecodeFault>
    requires { 16 * count ≤ length bytes.now }
    ensures given { Gives (λ x. (x.0.items, x.1.now)) result (maps_at version 0 count bytes.now) }
    ensures asked { IfErr result (λ fault. fault ≡ DecodeFault.Memory → 0 < count) }
{
    let mut maps = Vec::new(alloc);
    let mut rest = bytes;
    for place in 0..count {
        let (_, after) = rest.split_at(16);
        match MapDef::of(version, rest) {
            None => return Err(DecodeFault::BadMap { map: place }),
            Some(map) => maps.push(map)?,
        }
        rest = after;
    }
    Ok((maps, rest))
}

/// An instruction that ends with the slot at this place, or a wide instruction's head, after a head or nothing.
#[tactic(auto, unfolding(crate::specs::InstructionReading::step_at))]
fn step(
    version: Version,
    place: u32,
    pending: Option<WideHead>,
    slot: CodeSlot,
) -> Result<SlotReading, DecodeFault>
    ensures { result ≡ step_at version place pending slot }
{
    match pending {
        None => first_step(version, place, slot),
        Some(head) => match head.with_second(slot) {
            Ok(insn) => Ok(SlotReading::Whole(insn)),
            Err(fault) => Err(fault.at(place.saturating_sub(1))),
        },
    }
}

#[tactic(auto, unfolding(crate::specs::InstructionReading::step_at))]
fn first_step(version: Version, place: u32, slot: CodeSlot) -> Result<SlotReading, DecodeFault>
    ensures { result ≡ step_at version place None slot }
{
    match slot.reading(version) {
        Ok(reading) => Ok(reading),
        Err(fault) => Err(fault.at(place)),
    }
}

/// The head that waits for its second slot.
fn pending_of(reading: SlotReading) -> Option<WideHead>
    ensures { result ≡ pending_of reading }
{
    match reading {
        SlotReading::Whole(_) => None,
        SlotReading::Head(head) => Some(head),
    }
}

/// Puts the instruction that ends with a slot after the others.
fn keep(code: &mut Vec<Insn>, reading: SlotReading) -> Result<(), AllocError>
    ensures { OnOk result (code.new.items ≡ code.old.items ++ finished_by reading) }
{
    if let SlotReading::Whole(insn) = reading {
        code.push(insn)?;
    }
    Ok(())
}

/// The instructions of this many slots, from the front of the bytes.
fn slots_code(
    alloc: Global,
    version: Version,
    count: u32,
    bytes: &[u8],
) -> Result<Vec<Insn>, DecodeFault>
    requires { 8 * count ≤ length bytes.now }
    ensures { Gives (λ code. code.items) result (code_from version 0 None (slots_at count bytes.now)) }
{
    let mut code = Vec::with_capacity(alloc, count as usize)?;
    let mut pending = None;
    let mut rest = bytes;
    for place in 0..count {
        let (_, after) = rest.split_at(8);
        let reading = step(version, place, pending, CodeSlot::of(rest))?;
        pending = pending_of(reading);
        keep(&mut code, reading)?;
        rest = after;
    }
    match pending {
        None => Ok(code),
        Some(_) => Err(SlotFault::WideCut.at(count.saturating_sub(1))),
    }
}

/// The program, of all the bytes after the maps.
#[tactic(auto, unfolding(crate::specs::ImageFormat::code_at))]
fn code_of(alloc: Global, version: Version, bytes: &[u8]) -> Result<Vec<Insn>, DecodeFault>
    ensures given { Gives (λ code. code.items) result (code_at version bytes.now) }
    ensures asked { IfErr result (λ fault. fault ≡ DecodeFault.Memory → IsTrue (has_code_size bytes.now)) }
{
    if bytes.is_empty() {
        return Err(DecodeFault::Empty);
    }
    if bytes.len() % 8 != 0 {
        return Err(DecodeFault::NotWhole);
    }
    let count = bytes.len() / 8;
    if count > MAX_SLOTS {
        return Err(DecodeFault::TooLong);
    }
    slots_code(alloc, version, count as u32, bytes)
}

/// The version, the maps and the program of the bytes.
#[tactic(auto, unfolding(crate::specs::ImageFormat::image_at))]
fn parts(alloc: Global, bytes: &[u8]) -> Result<(Version, Vec<MapDef>, Vec<Insn>), DecodeFault>
    ensures given { Gives (λ x. record { version = x.0; maps = x.1.items; code = x.2.items }) result (image_at bytes.now) }
    ensures asked { IfErr result (λ fault. fault ≡ DecodeFault.Memory → IsTrue (may_ask_memory bytes.now)) }
{
    if !has_head(bytes) {
        return Err(DecodeFault::BadHead);
    }
    let version = version_of(bytes);
    let (maps, rest) = maps_of(alloc, version, bytes[5] as u32, &bytes[8..])?;
    let code = code_of(alloc, version, rest)?;
    Ok((version, maps, code))
}

/// The image that the bytes encode, or their first fault in the order of docs/FAULTS.md.
pub fn decode(alloc: Global, bytes: &[u8]) -> Result<Image, DecodeFault>
    // The bytes are the encoding of the image.
    ensures found { IfOk result (λ image. IsImageEncoding bytes.now image) }
    // Whatever image the bytes encode is the one, unless memory is refused.
    ensures only { (image : Contents) → IsImageEncoding bytes.now image → result ≢ Err DecodeFault.Memory → result ≡ Ok image }
    // It is the first fault.
    ensures fault { IfErr result (λ fault. fault ≢ DecodeFault.Memory → first_decode_fault bytes.now ≡ Some fault) }
    // A 20 comes only where docs/FAULTS.md says that it may.
    ensures asked { IfErr result (λ fault. fault ≡ DecodeFault.Memory → IsTrue (may_ask_memory bytes.now)) }
{
    let (version, maps, code) = parts(alloc, bytes)?;
    Ok(Image::new(version, maps, code))
}
