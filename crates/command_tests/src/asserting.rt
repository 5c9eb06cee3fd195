//! What ends a test: comparisons that are proved once for all tests. The message names the row, and what is compared.

ghost use Rattle.std.specs.Prelude.{◌≡◌, true};

use std::process::Abort;

/// Ends the test where one of several facts of a row does not hold.
pub fn holds_of(rt: &impl Abort, name: &str, fact: &str, is_so: bool)
    ensures { is_so ≡ true }
{
    assert!(rt; is_so, "{name}: {fact}");
}

/// Ends the test where bytes, which are one of several facts of a row, are not the wanted ones.
pub fn same_bytes_of(rt: &impl Abort, name: &str, fact: &str, found: &[u8], wanted: &[u8]) {
    assert_eq!(rt; found, wanted, "{name}: {fact}");
}

/// Ends the test where a text is not the wanted one.
pub fn same_text(rt: &impl Abort, name: &str, found: &str, wanted: &str) {
    assert_eq!(rt; found, wanted, "{name}");
}

/// Ends the test where a status is not the wanted one.
pub fn same_status(rt: &impl Abort, name: &str, found: u8, wanted: u8) {
    assert_eq!(rt; found, wanted, "{name}: status");
}
