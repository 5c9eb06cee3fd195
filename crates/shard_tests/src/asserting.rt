//! What ends a test: comparisons that are proved once for all tests. The message names the row.

ghost use Rattle.std.specs.Prelude.{◌≡◌, true};

use std::fmt::Debug;
use std::process::Abort;

/// Ends the test where a value is not the wanted one.
pub(crate) fn same<T: PartialEq + Debug>(rt: &impl Abort, name: &str, found: &T, wanted: &T) {
    assert_eq!(rt; *found, *wanted, "{name}");
}

/// Ends the test where something does not hold.
pub(crate) fn holds(rt: &impl Abort, name: &str, is_so: bool)
    ensures { is_so ≡ true }
{
    assert!(rt; is_so, "{name}");
}
