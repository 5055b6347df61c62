//! What tests compare: a call costs the check far less than the macro that stands in it.
use std::alloc::Global;
use std::fmt::{Debug, Display};
use std::process::Abort;

/// Both are the same; else the test ends and tells both.
pub(crate) fn same<T: PartialEq + Debug + Drop>(rt: &impl Abort, found: T, wanted: T) {
    assert_eq!(rt; found, wanted);
}

/// The same, for one of several cases: the test tells which.
pub(crate) fn same_at<T: PartialEq + Debug + Drop, A: Debug + Drop>(
    rt: &impl Abort,
    found: T,
    wanted: T,
    at: A,
) {
    assert_eq!(rt; found, wanted, "at {at:?}");
}

/// It is printed as this text.
pub(crate) fn prints(rt: &impl Abort, alloc: Global, told: &impl Display, text: &str) {
    let printed = told.to_string(alloc).expect(rt, "memory");
    same(rt, printed.as_str(), text);
}
