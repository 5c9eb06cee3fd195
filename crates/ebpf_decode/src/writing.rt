//! The image format written.

ghost use Rattle.std.specs.Prelude.{◌≡◌, ◌<◌, ◌++◌, ℕ, List, None, OnOk, IfOk};
ghost use Rattle.std.specs.List.{flat_map};
ghost use Rattle.std.specs.Int.{w32, to_le_bytes};
ghost use Rattle.ebpf_decode.specs.SlotForm.{slot_bytes};
ghost use Rattle.ebpf_decode.specs.InstructionEncoding.{instruction_bytes, IsInstructionEncoding};
ghost use Rattle.ebpf_decode.specs.MapForm.{map_bytes};
ghost use Rattle.ebpf_decode.specs.ImageContents.{Contents};
ghost use Rattle.ebpf_decode.specs.ImageFormat.{head_bytes, first_decode_fault, IsImageEncoding};

use crate::encoding;
use crate::image::{Image, MAGIC};
use crate::insn::Insn;
use crate::map::MapDef;
use crate::slot::CodeSlot;
use crate::version::Version;
use std::alloc::{AllocError, Global};

fn put_word(out: &mut Vec<u8>, number: u32) -> Result<(), AllocError>
    ensures { OnOk result (out.new.items ≡ out.old.items ++ to_le_bytes w32 number) }
{
    out.extend_from_slice(&number.to_le_bytes())?;
    Ok(())
}

fn put_map(out: &mut Vec<u8>, map: MapDef) -> Result<(), AllocError>
    ensures { OnOk result (out.new.items ≡ out.old.items ++ map_bytes map) }
{
    put_word(out, map.kind.map_type())?;
    put_word(out, map.key_size)?;
    put_word(out, map.value_size)?;
    put_word(out, map.max_entries)?;
    Ok(())
}

fn put_maps(out: &mut Vec<u8>, maps: &[MapDef]) -> Result<(), AllocError>
    ensures { OnOk result (out.new.items ≡ out.old.items ++ flat_map map_bytes maps.now) }
{
    for map in maps {
        put_map(out, *map)?;
    }
    Ok(())
}

fn put_slot(out: &mut Vec<u8>, slot: CodeSlot) -> Result<(), AllocError>
    requires dst { slot.dst < 16 }
    requires src { slot.src < 16 }
    ensures { OnOk result (out.new.items ≡ out.old.items ++ slot_bytes slot) }
{
    out.push(slot.opcode)?;
    out.push(slot.dst + 16 * slot.src)?;
    out.extend_from_slice(&slot.offset.to_le_bytes())?;
    out.extend_from_slice(&slot.immediate.to_le_bytes())?;
    Ok(())
}

fn put_instruction(out: &mut Vec<u8>, insn: Insn) -> Result<(), AllocError>
    ensures { OnOk result (out.new.items ≡ out.old.items ++ instruction_bytes insn) }
{
    put_slot(out, encoding::slot_of(insn))?;
    if let Some(second) = encoding::second_slot_of(insn) {
        put_slot(out, second)?;
    }
    Ok(())
}

fn put_code(out: &mut Vec<u8>, code: &[Insn]) -> Result<(), AllocError>
    ensures { OnOk result (out.new.items ≡ out.old.items ++ flat_map instruction_bytes code.now) }
{
    for insn in code {
        put_instruction(out, *insn)?;
    }
    Ok(())
}

/// The first eight bytes of an image of this version with this many maps.
fn head(version: Version, count: u8) -> [u8; 8]
    ensures { result ≡ head_bytes version count }
{
    [
        MAGIC[0],
        MAGIC[1],
        MAGIC[2],
        MAGIC[3],
        version.number(),
        count,
        0,
        0,
    ]
}

/// The one encoding of an image. It fails only where memory is refused.
pub fn encode(alloc: Global, image: &Image) -> Result<Vec<u8>, AllocError>
    ensures { IfOk result (λ bytes. IsImageEncoding bytes.items image.now) }
{
    let maps = image.maps();
    let mut out = Vec::new(alloc);
    out.extend_from_slice(&head(image.version(), maps.len() as u8))?;
    put_maps(&mut out, maps)?;
    put_code(&mut out, image.code())?;
    Ok(out)
}

/// An image has one encoding, no bytes encode two images or two instructions, and what encodes an image has no fault: so what
/// `encode` returns, `decode` reads back, unless memory is refused.
pub fn one_encoding()
    ensures one_encoding { (a b : List ℕ) (image : Contents) → IsImageEncoding a image → IsImageEncoding b image → a ≡ b }
    ensures one_image { (bytes : List ℕ) (a b : Contents) → IsImageEncoding bytes a → IsImageEncoding bytes b → a ≡ b }
    ensures one_instruction { (bytes : List ℕ) (a b : Insn) → IsInstructionEncoding bytes a → IsInstructionEncoding bytes b → a ≡ b }
    ensures no_fault { (bytes : List ℕ) (image : Contents) → IsImageEncoding bytes image → first_decode_fault bytes ≡ None }
{}
