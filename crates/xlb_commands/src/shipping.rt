//! The shipped program: made for a replay, or written to a file.

ghost use Rattle.std.specs.Prelude.{◌≡◌, ◌-◌, ◌<◌, ◌^◌, [], IfErr, IfOk, OnOk, string_bytes};
ghost use Rattle.semantics.specs.Safety.{IsSafeImage};
ghost use Rattle.steer.specs.ShippedProgram.{sized_image};
ghost use Rattle.xlb_commands.specs.Files.{AreOthersKept};
ghost use Rattle.xlb_commands.specs.Refused.{HasFailed, IsNotMade, IsShippedRefusal, IsShippedFileRefusal};
ghost use Rattle.xlb_commands.specs.Replays.{AreServedSizes};
ghost use Rattle.xlb_commands.specs.Results.{IsShippedFile};

use crate::commands::write_image;
use crate::fault::{Fault, Refusal};
use crate::hints;
use ebpf_decode::Image;
use folders::Folder;
use std::alloc::Global;
use steer::shipped_with;
use verifier::{Verified, verify};

/// The image of the shipped program.
fn made(alloc: Global, flows: u32, ring: u32) -> Result<Image, Refusal>
    ensures image { IfOk result (λ image. image ≡ sized_image flows ring) }
    ensures size { OnOk result (AreServedSizes flows ring) }
    ensures refused { IfErr result (λ refusal. IsNotMade flows ring refusal.fault) }
{
    match shipped_with(alloc, flows, ring) {
        Ok(image) => Ok(image),
        Err(fault) => {
            Err(Refusal::hinted(Fault::Steering(fault), hints::of_sizes(alloc, flows, ring)))
        }
    }
}

/// The shipped program, which the verifier has to accept as any other.
pub(crate) fn shipped_program(alloc: Global, flows: u32, ring: u32) -> Result<Verified, Refusal>
    ensures image { IfOk result
        (λ verified. record { version = verified.version; maps = verified.maps; code = verified.code } ≡ sized_image flows ring) }
    ensures safe { IfOk result (λ verified. IsSafeImage verified.maps verified.code) }
    ensures size { OnOk result (AreServedSizes flows ring) }
    ensures refused { IfErr result (λ refusal. IsShippedRefusal flows ring refusal.fault) }
{
    let image = made(alloc, flows, ring)?;
    match verify(alloc, image) {
        Ok(verified) => Ok(verified),
        Err(reject) => Err(Refusal::from(Fault::Program(reject))),
    }
}

/// Writes the image of the shipped program to a file. Refused with 73 where no lookup table has `ring` slots or no flow table has `flows`
/// notes, and with 74 where memory is refused for the program: then no file changes. Refused with 7 or 8 where the image is not written;
/// then no other file changes.
pub fn write_shipped<D: Folder>(
    alloc: Global,
    folder: &mut D,
    flows: u32,
    ring: u32,
    out: &str,
) -> Result<String, Refusal>
    requires { D.failure_count folder.old < 2 ^ 64 - 1 }
    ensures done { OnOk result (IsShippedFile (D.holds folder.new) out.now flows ring) }
    ensures silent { IfOk result (λ printed. string_bytes printed ≡ []) }
    ensures others { AreOthersKept (D.holds folder.old) (D.holds folder.new) out.now }
    ensures refused { IfErr result (λ refusal. IsShippedFileRefusal (D.holds folder.old) (D.holds folder.new)
        (HasFailed (D.failure_count folder.old) (D.failure_count folder.new)) flows ring refusal.fault) }
{
    let image = made(alloc, flows, ring)?;
    write_image(alloc, folder, &image, out)
}
