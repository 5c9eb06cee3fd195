//! Programs and the runs of them.

ghost use Rattle.std.specs.Prelude.{◌<◌, IfOk};

use super::nothing::NothingPort;
use crate::asserting::same_fact;
use ebpf_decode::{Image, Insn, MapDef, Version};
use machine::{Exit, Moment, run};
use std::alloc::Global;
use std::process::Abort;
use verifier::{Verified, verify};
use wire::{Frame, FrameFault};

/// A run of worker 2 at the time 3.
pub(super) const MOMENT: Moment = Moment {
    now_ns: 3,
    worker: 2,
};

/// An accepted image of version 1, of the maps and a program in two parts.
pub(super) fn accepted(
    rt: &impl Abort,
    alloc: Global,
    maps: &[MapDef],
    head: &[Insn],
    tail: &[Insn],
) -> Verified {
    accepted_in(rt, alloc, Version::V1, maps, head, tail)
}

/// The same of a version.
pub(super) fn accepted_in(
    rt: &impl Abort,
    alloc: Global,
    version: Version,
    maps: &[MapDef],
    head: &[Insn],
    tail: &[Insn],
) -> Verified {
    let maps = Vec::from_slice(alloc, maps).expect(rt, "maps");
    let code = code_of(rt, alloc, head, tail);
    let image = Image::of(version, maps, code).expect(rt, "an image");
    verify(alloc, image).expect(rt, "an accepted program")
}

/// A program in two parts.
fn code_of(rt: &impl Abort, alloc: Global, head: &[Insn], tail: &[Insn]) -> Vec<Insn> {
    let mut code = Vec::new(alloc);
    code.extend_from_slice(head).expect(rt, "code");
    code.extend_from_slice(tail).expect(rt, "code");
    code
}

/// How a run ended, and the frame that it left.
#[derive(Drop)]
pub(super) struct EndedRun {
    pub(super) exit: Exit,
    pub(super) frame: Frame,
}

/// A run over a port of the image's maps that refuses lookups, on a frame of these bytes.
pub(super) fn ran(
    rt: &impl Abort,
    alloc: Global,
    verified: &Verified,
    moment: &Moment,
    bytes: &[u8],
) -> Result<EndedRun, FrameFault>
    requires { moment.now.worker < 8 }
{
    let mut port = NothingPort::over(verified.image());
    let mut frame = Frame::of(alloc, bytes)?;
    let exit = run(verified, &mut frame, moment, &mut port).expect(rt, "an exit");
    Ok(EndedRun { exit, frame })
}

/// The frame has 14 bytes: the number, the lowest byte first, and zeros.
pub(super) fn has_number(rt: &impl Abort, frame: &Frame, number: u64, name: &str) {
    let [a, b, c, d, e, f, g, h] = number.to_le_bytes();
    let bytes = [a, b, c, d, e, f, g, h, 0, 0, 0, 0, 0, 0];
    same_fact(rt, name, "the frame", &frame.bytes(), &bytes.as_slice());
}
