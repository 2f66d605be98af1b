//! The comparisons of tests.

use std::fmt::{Debug, Display};
use std::process::Abort;

/// Compares the result of a named case.
pub(crate) fn same<T: PartialEq + Debug, P: Display + Copy>(
    rt: &impl Abort,
    came: &T,
    expected: &T,
    name: P,
) {
    assert_eq!(rt; came, expected, "{name}");
}
