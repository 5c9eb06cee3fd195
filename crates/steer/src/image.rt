//! The image that is shipped.

ghost use Rattle.std.specs.Prelude.{◌≡◌, ◌↔◌, IfOk, IsErrOf};
ghost use Rattle.maglev.specs.RingSize.{IsRingSize};
ghost use Rattle.conntrack.specs.SteeringMaps.{IsNoteCount};
ghost use Rattle.conntrack.specs.declared.fault.SteerFault.TheVariants.{BadSize};
ghost use Rattle.steer.specs.ShippedProgram.{shipped_image, sized_image, code_of, shipped_blocks};

use crate::blocks;
use crate::layout::{Block, put};
use conntrack::{NOTES, SteerFault, is_note_count, maps_with};
use ebpf_decode::{Image, Insn, Version};
use maglev::is_ring_size;
use std::alloc::Global;

/// The shipped program for a lookup table of `size` slots, over the six maps of steering with a flow table of 4096 notes. Refused with 73
/// exactly where the size is none of Maglev's here (7, 251, 4093, 65537), and with 74 without memory.
pub fn shipped(alloc: Global, size: u32) -> Result<Image, SteerFault>
    ensures image { IfOk result (λ image. image ≡ shipped_image size) }
    ensures bad_size { IsErrOf result BadSize ↔ ¬ IsRingSize size }
{
    shipped_with(alloc, NOTES, size)
}

/// The same program over a flow table of `notes` notes. Refused with 73 exactly where the size is none of Maglev's here, or the notes are
/// not 4096, 8192, 16384, 32768, 65536 or 131072; and with 74 without memory.
#[tactic(auto, using(crate::proofs::Encodable::no_fault))]
pub fn shipped_with(alloc: Global, notes: u32, size: u32) -> Result<Image, SteerFault>
    ensures image { IfOk result (λ image. image ≡ sized_image notes size) }
    ensures bad_size { IsErrOf result BadSize ↔ ¬ (IsNoteCount notes × IsRingSize size) }
{
    if !is_note_count(notes) {
        return Err(SteerFault::BadSize);
    }
    if !is_ring_size(size) {
        return Err(SteerFault::BadSize);
    }
    let maps = maps_with(alloc, notes, size)?;
    let code = code(alloc, size)?;
    match Image::of(Version::V1, maps, code) {
        Ok(image) => Ok(image),
        Err(_) => unreachable!(),
    }
}

// The program's instructions.
fn code(alloc: Global, size: u32) -> Result<Vec<Insn>, SteerFault>
    requires { IsRingSize size }
    ensures code { IfOk result (λ code. code.items ≡ code_of (shipped_blocks size)) }
    ensures memory_alone { ¬ IsErrOf result BadSize }
{
    let mut code = Vec::new(alloc);
    put(&mut code, Block::Flow, &blocks::flow_lines())?;
    put(&mut code, Block::Key, &blocks::key_lines())?;
    put(&mut code, Block::Vip, &blocks::vip_lines())?;
    put(&mut code, Block::Guards, &blocks::guards_lines())?;
    put(&mut code, Block::Tracking, &blocks::tracking_lines())?;
    blocks::put_hash(&mut code)?;
    put(&mut code, Block::Ring, &blocks::ring_lines(size))?;
    put(&mut code, Block::Tunnel, &blocks::tunnel_lines())?;
    put(&mut code, Block::Checksum, &blocks::checksum_lines())?;
    put(&mut code, Block::Pass, &blocks::pass_lines())?;
    put(&mut code, Block::Drop, &blocks::drop_lines())?;
    put(&mut code, Block::Count, &blocks::count_lines())?;
    put(&mut code, Block::End, &blocks::end_lines())?;
    Ok(code)
}
