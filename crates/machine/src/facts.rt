//! Facts of types, each brought into a proof by a function that does nothing and is named after the fact.

ghost use Rattle.std.specs.Prelude.{◌≡◌, ◌≤◌, ◌<◌, ◌^◌, length, All};
ghost use Rattle.ebpf_decode.specs.ImageContents.{IsEncodable};
ghost use Rattle.verifier.specs.Dataflow.{Accepts};
ghost use Rattle.machine.specs.Meaning.{IsWhole};
ghost use Rattle.machine.specs.Acting.{machine_at};

use crate::words::STACK_SIZE;
use semantics::facts::bytes_have_8_bits;
use verifier::Verified;
use wire::Frame;

/// A verified image's program is let through by its entry states, and is one that the image format encodes.
pub(crate) fn program_is_accepted(verified: &Verified)
    ensures accepted { Accepts verified.now.version verified.now.maps verified.now.code verified.now.states }
    ensures encodable { IsEncodable verified.now.version verified.now.maps verified.now.code }
{
    let _ = verified.image();
    verified.encodable();
}

/// A frame has at most 2304 bytes.
pub(crate) fn frame_is_short(frame: &Frame)
    ensures { length frame.now.bytes ≤ 2304 }
{
    let _ = frame.len();
}

/// Words have 64 bits.
fn words_have_64_bits(words: &[u64])
    ensures { All (λ word. word < 2 ^ 64) words.now }
{
    let _ = words;
}

/// Registers and stack have their lengths, and their parts their widths.
pub(crate) fn machine_is_whole(
    slot: usize,
    steps: u32,
    registers: &[u64; 11],
    stack: &[u8; STACK_SIZE],
)
    ensures { IsWhole (machine_at slot steps registers.now stack.now) }
{
    let _ = slot;
    let _ = steps;
    words_have_64_bits(registers);
    bytes_have_8_bits(stack);
}
