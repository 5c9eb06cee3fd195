//! Facts of types, each brought into a proof by a function that does nothing and is named after the fact.

ghost use Rattle.std.specs.Prelude.{◌≡◌, ◌<◌, ◌^◌, All};
ghost use Rattle.semantics.specs.System.{IsInputFrame};

use wire::Frame;

/// Bytes have 8 bits.
pub fn bytes_have_8_bits(bytes: &[u8])
    ensures { All (λ byte. byte < 256) bytes.now }
{
    let _ = bytes;
}

/// A frame with all its headroom free is one that may come in.
pub fn frame_may_come_in(frame: &Frame)
    requires { frame.now.headroom ≡ 256 }
    ensures { IsInputFrame frame.now.bytes }
{
    let _ = frame.bytes();
    let _ = frame.len();
}

/// A time in nanoseconds has 64 bits.
pub fn time_has_64_bits(now_ns: u64)
    ensures { now_ns < 2 ^ 64 }
{
    let _ = now_ns;
}
