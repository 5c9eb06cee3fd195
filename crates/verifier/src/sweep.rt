//! One sweep by rising slot, since no edge goes back: what is known on entry to each instruction, and whether it breaks a rule there.
//! Only what is known at one slot is held at a time, and what jumps brought to later ones; a `Keeper` may keep more.

ghost use Rattle.std.specs.Prelude.{◌≤◌, [], IfOk, IfErr};
ghost use Rattle.ebpf_decode.specs.InstructionEncoding.{total_slots};
ghost use Rattle.image_shape.specs.Structure.{HasShape};
ghost use Rattle.semantics.specs.Safety.{IsSafeImage};
ghost use Rattle.verifier.specs.Swept.{PassesSweep, FailsSweep};

use crate::advance::advance;
use crate::keeping::Keeper;
use crate::pending::{KnownHere, Pending};
use crate::reject::Reject;
use crate::resolved::Memory;
use ebpf_decode::image::MAX_SLOTS;
use ebpf_decode::{Image, Insn, MapDef, Version};
use image_shape::check_shape;
use std::alloc::Global;

/// Whether a program only reads; and notes by slot the memory that each instruction touches; or names the first rule that an
/// instruction breaks. What is known on entry to each instruction is kept. Memory is asked for only at a jump that breaks no rule, and to
/// keep what is known.
fn sweep<K: Keeper>(
    alloc: Global,
    version: Version,
    maps: &[MapDef],
    code: &[Insn],
    memories: &mut [Memory; MAX_SLOTS],
    keeper: &mut K,
) -> Result<bool, Reject>
    requires few { total_slots code.now ≤ 4096 }
    requires shape { HasShape code.now }
    requires fresh { K.keeps keeper.old [] }
    ensures passed { IfOk result (PassesSweep (K.keeps keeper.new) version maps.now code.now memories.new) }
    ensures refused { IfErr result (FailsSweep (K.keeps keeper.new) version maps.now code.now) }
{
    let mut pending = Pending::new(alloc);
    let mut entry = KnownHere::opening(version);
    let mut reads = true;
    let mut slot = 0;
    'slots: for insn in code {
        keeper.keep(&entry);
        memories[slot] = entry.memory_of(*insn);
        reads = reads & entry.only_reads(*insn);
        advance(alloc, maps, slot, *insn, &mut pending, &mut entry)?;
        slot += insn.slot_count() as usize;
    }
    Ok(reads)
}

/// Judges a program, its structure first: whether it only reads, or the first rule that it breaks. The memory that each instruction
/// touches is noted by slot, and what is known on entry to each is kept.
pub(crate) fn judge<K: Keeper>(
    alloc: Global,
    image: &Image,
    memories: &mut [Memory; MAX_SLOTS],
    keeper: &mut K,
) -> Result<bool, Reject>
    requires fresh { K.keeps keeper.old [] }
    ensures passed { IfOk result (PassesSweep (K.keeps keeper.new) image.now.version image.now.maps image.now.code memories.new) }
    ensures safe { IfOk result (λ _. IsSafeImage image.now.maps image.now.code) }
    ensures refused { IfErr result (FailsSweep (K.keeps keeper.new) image.now.version image.now.maps image.now.code) }
{
    match check_shape(image) {
        Ok(()) => {}
        Err(fault) => return Err(Reject::of_shape(fault)),
    }
    sweep(
        alloc,
        image.version(),
        image.maps(),
        image.code(),
        memories,
        keeper,
    )
}
