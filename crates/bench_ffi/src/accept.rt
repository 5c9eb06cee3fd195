//! An image's bytes made ready to run.

ghost use Rattle.std.specs.Prelude.{◌≡◌, IfOk};
ghost use Rattle.ebpf_decode.specs.ImageContents.{Contents};
ghost use Rattle.ebpf_decode.specs.ImageFormat.{IsImageEncoding};
ghost use Rattle.semantics.specs.Safety.{IsSafeImage};

use ebpf_decode::{DecodeFault, Image, decode};
use std::alloc::Global;
use verifier::{Reject, Verified, verify};

/// Why there is no program to run.
#[derive(Clone, Copy, Debug)]
pub enum Refusal {
    /// The bytes are no image.
    Image(DecodeFault),
    /// The program breaks a rule.
    Program(Reject),
}

impl Refusal {
    /// The fault's number.
    pub fn number(self) -> u8 {
        match self {
            Refusal::Image(fault) => fault.number(),
            Refusal::Program(reject) => reject.number(),
        }
    }
}

/// The image that the bytes encode.
pub fn decode_image(alloc: Global, bytes: &[u8]) -> Result<Image, Refusal>
    ensures read { IfOk result (IsImageEncoding bytes.now) }
{
    match decode(alloc, bytes) {
        Ok(image) => Ok(image),
        Err(fault) => Err(Refusal::Image(fault)),
    }
}

/// The image that the bytes encode, accepted.
pub fn verify_image(alloc: Global, bytes: &[u8]) -> Result<Verified, Refusal>
    ensures read { IfOk result (λ v. IsImageEncoding bytes.now (record { version = v.version; maps = v.maps; code = v.code })) }
    ensures safe { IfOk result (λ v. IsSafeImage v.maps v.code) }
{
    let image = decode_image(alloc, bytes)?;
    match verify(alloc, image) {
        Ok(verified) => Ok(verified),
        Err(reject) => Err(Refusal::Program(reject)),
    }
}
