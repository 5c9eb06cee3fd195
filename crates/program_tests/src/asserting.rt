//! What ends a test: comparisons that are proved once for all tests. The message names the row, and what is compared.

ghost use Rattle.std.specs.Prelude.{◌≡◌, true};

use std::alloc::Global;
use std::fmt::{Debug, Display};
use std::process::Abort;

/// Ends the test where a value is not the wanted one; the message names the row.
pub(crate) fn same<T: PartialEq + Debug>(rt: &impl Abort, name: &str, found: &T, wanted: &T) {
    assert_eq!(rt; *found, *wanted, "{name}");
}

/// The same of one of several facts of a row, which the message names too.
pub(crate) fn same_fact<T: PartialEq + Debug>(
    rt: &impl Abort,
    name: &str,
    fact: &str,
    found: &T,
    wanted: &T,
) {
    assert_eq!(rt; *found, *wanted, "{name}: {fact}");
}

/// The same of one of many numbers, which the message names.
pub(crate) fn same_at<T: PartialEq + Debug>(
    rt: &impl Abort,
    what: &str,
    at: u64,
    found: &T,
    wanted: &T,
) {
    assert_eq!(rt; *found, *wanted, "{what} {at}");
}

/// The same of a byte of a frame; the message names its place.
pub(crate) fn same_byte(rt: &impl Abort, name: &str, place: usize, found: u8, wanted: u8) {
    assert_eq!(rt; found, wanted, "{name}: byte {place}");
}

/// The same of texts.
pub(crate) fn same_text(rt: &impl Abort, name: &str, found: &str, wanted: &str) {
    assert_eq!(rt; found, wanted, "{name}");
}

/// The same of bytes.
pub(crate) fn same_bytes(rt: &impl Abort, name: &str, found: &[u8], wanted: &[u8]) {
    assert_eq!(rt; found, wanted, "{name}");
}

/// Ends the test where a fact does not hold; the message names it.
pub(crate) fn holds(rt: &impl Abort, name: &str, is_so: bool)
    ensures { is_so ≡ true }
{
    assert!(rt; is_so, "{name}");
}

/// The same of one of several facts of a row.
pub(crate) fn holds_of(rt: &impl Abort, name: &str, fact: &str, is_so: bool)
    ensures { is_so ≡ true }
{
    assert!(rt; is_so, "{name}: {fact}");
}

/// Ends the test where a value is not printed so.
pub(crate) fn prints<T: Display>(rt: &impl Abort, alloc: Global, value: &T, wanted: &str) {
    let text = format!(in alloc; "{value}").expect(rt, "memory");
    assert_eq!(rt; text.as_str(), wanted);
}
