//! Images of programs that the rows of several modules name.

use ebpf_decode::{Image, Insn, MapDef, Version};
use std::alloc::Global;
use std::process::Abort;

/// An image of these maps and this program.
pub(crate) fn image_of(
    rt: &impl Abort,
    alloc: Global,
    version: Version,
    maps: &[MapDef],
    code: &[Insn],
) -> Image {
    let maps = Vec::from_slice(alloc, maps).expect(rt, "maps");
    let code = Vec::from_slice(alloc, code).expect(rt, "code");
    Image::of(version, maps, code).expect(rt, "an image")
}

/// This many times an instruction, and an exit.
pub(crate) fn repeated(rt: &impl Abort, alloc: Global, insn: Insn, count: u32) -> Vec<Insn> {
    let mut code = Vec::new(alloc);
    for _ in 0..count {
        code.push(insn).expect(rt, "room");
    }
    code.push(Insn::Exit).expect(rt, "room");
    code
}
