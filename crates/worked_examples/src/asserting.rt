//! What ends a test: comparisons that are proved once for all tests. The message says what is compared.

ghost use Rattle.std.specs.Prelude.{◌≡◌, true};

use std::fmt::Debug;
use std::process::Abort;

/// Ends the test where a value is not the wanted one.
pub(crate) fn same<T: PartialEq + Debug>(rt: &impl Abort, name: &str, found: &T, wanted: &T) {
    assert_eq!(rt; *found, *wanted, "{name}");
}

/// The same of bytes.
pub(crate) fn same_bytes(rt: &impl Abort, name: &str, found: &[u8], wanted: &[u8]) {
    assert_eq!(rt; found, wanted, "{name}");
}

/// The same of texts.
pub(crate) fn same_text(rt: &impl Abort, name: &str, found: &str, wanted: &str) {
    assert_eq!(rt; found, wanted, "{name}");
}

/// The same of one of many numbers, which the message names.
pub(crate) fn same_at<T: PartialEq + Debug>(
    rt: &impl Abort,
    what: &str,
    at: u64,
    found: &T,
    wanted: &T,
) {
    assert_eq!(rt; *found, *wanted, "{what} {at}");
}

/// Ends the test where something does not hold.
pub(crate) fn holds(rt: &impl Abort, name: &str, is_so: bool)
    ensures { is_so ≡ true }
{
    assert!(rt; is_so, "{name}");
}
