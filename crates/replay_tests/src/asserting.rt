//! What ends a test: comparisons that are proved once for all tests. The message names the row, and what is compared.

ghost use Rattle.std.specs.Prelude.{◌≡◌, true};

use std::alloc::Global;
use std::fmt::{Debug, Display};
use std::process::Abort;
use std::test::Fail;

/// Ends the test where a value is not the wanted one.
pub(crate) fn same<T: PartialEq + Debug>(rt: &impl Abort, name: &str, found: &T, wanted: &T) {
    assert_eq!(rt; *found, *wanted, "{name}");
}

/// The same of one of several facts of a row.
pub(crate) fn same_fact<T: PartialEq + Debug>(
    rt: &impl Abort,
    name: &str,
    fact: &str,
    found: &T,
    wanted: &T,
) {
    assert_eq!(rt; *found, *wanted, "{name}: {fact}");
}

/// The same of bytes.
pub(crate) fn same_bytes_of(rt: &impl Abort, name: &str, fact: &str, found: &[u8], wanted: &[u8]) {
    assert_eq!(rt; found, wanted, "{name}: {fact}");
}

/// The same of one of many numbers.
pub(crate) fn same_at<T: PartialEq + Debug>(
    rt: &impl Abort,
    what: &str,
    at: u64,
    found: &T,
    wanted: &T,
) {
    assert_eq!(rt; *found, *wanted, "{what} {at}");
}

/// The same of bytes.
pub(crate) fn same_bytes(rt: &impl Abort, name: &str, found: &[u8], wanted: &[u8]) {
    assert_eq!(rt; found, wanted, "{name}");
}

/// Ends the test where something does not hold.
pub(crate) fn holds(rt: &impl Abort, name: &str, is_so: bool)
    ensures { is_so ≡ true }
{
    assert!(rt; is_so, "{name}");
}

/// The same of one of several facts of a row.
pub(crate) fn holds_of(rt: &impl Abort, name: &str, fact: &str, is_so: bool)
    ensures { is_so ≡ true }
{
    assert!(rt; is_so, "{name}: {fact}");
}

/// The same of one of many numbers.
pub(crate) fn holds_at(rt: &impl Abort, what: &str, at: u64, is_so: bool)
    ensures { is_so ≡ true }
{
    assert!(rt; is_so, "{what} {at}");
}

/// Ends the test where a value is not printed so.
pub(crate) fn prints<T: Display>(
    rt: &impl Abort,
    alloc: Global,
    value: &T,
    wanted: &str,
) -> Result<(), Fail> {
    let printed = format!(in alloc; "{value}")?;
    assert_eq!(rt; printed.as_str(), wanted);
    Ok(())
}
