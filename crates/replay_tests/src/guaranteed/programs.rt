//! Programs, and the runs of them.

ghost use Rattle.std.specs.Prelude.{IfOk};

use ebpf_decode::{Image, Insn, MapDef, Version};
use isa::Register::{R1, R2, R10};
use isa::Size;
use machine::Moment;
use semantics::Options;
use std::alloc::Global;
use std::process::Abort;
use test_support::{add, call, mov, store};
use verifier::{Verified, verify};

pub(super) const OPTIONS: Options = Options {
    workers: 8,
    shards: 1,
    journal: 65_536,
};

pub(super) const SMALL: Options = Options {
    workers: 8,
    shards: 1,
    journal: 16,
};

/// A run of worker 2 at the time 3.
pub(super) const MOMENT: Moment = Moment {
    now_ns: 3,
    worker: 2,
};

pub(super) const EXIT: Insn = Insn::Exit;

/// The value of a key of map 0, or null, in R0: five instructions.
pub(super) fn look_up(key: i32) -> [Insn; 5] {
    [
        store!(Size::U32, R10, -4, key),
        mov!(R2, R10),
        add!(R2, -4),
        Insn::Ldmap { dst: R1, map: 0 },
        call!(1),
    ]
}

/// An image: its version, its maps, and its program in two parts.
#[derive(Clone, Copy)]
pub(super) struct Program<'a> {
    pub(super) version: Version,
    pub(super) maps: &'a [MapDef],
    pub(super) head: &'a [Insn],
    pub(super) tail: &'a [Insn],
}

fn code_of(rt: &impl Abort, alloc: Global, program: &Program<'_>) -> Vec<Insn> {
    let mut code = Vec::new(alloc);
    code.extend_from_slice(program.head).expect(rt, "code");
    code.extend_from_slice(program.tail).expect(rt, "code");
    code
}

/// The accepted image.
pub(super) fn accepted(rt: &impl Abort, alloc: Global, program: &Program<'_>) -> Verified {
    let maps = Vec::from_slice(alloc, program.maps).expect(rt, "maps");
    let code = code_of(rt, alloc, program);
    let image = Image::of(program.version, maps, code).expect(rt, "an image");
    verify(alloc, image).expect(rt, "an accepted program")
}
