//! The value with which a cell is opened.

ghost use Rattle.std.specs.Prelude.{◌≡◌, ◌≤◌, replicate};

use semantics::Value;

/// This many bytes of zeros.
pub fn zeros(size: u32) -> Value
    requires { size ≤ 256 }
    ensures { result ≡ replicate size 0 }
{
    let mut value = Value::empty();
    for _ in 0..size {
        value.append(&[0]);
    }
    value
}
