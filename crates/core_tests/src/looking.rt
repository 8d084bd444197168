//! Looking at values.

use std::alloc::Global;
use std::fmt::{Debug, Display};
use std::process::Abort;

/// Looks at what an input gives. One function for every type, so that each look is proved once.
pub(crate) fn gives<I: Debug, T: Debug + PartialEq>(
    rt: &impl Abort,
    input: &I,
    found: &T,
    want: &T,
) {
    assert_eq!(rt; *found, *want, "at {input:?}");
}

/// Looks at the text that is printed for a value.
pub(crate) fn prints<I: Debug, T: Display>(
    rt: &impl Abort,
    alloc: Global,
    input: &I,
    printed: &T,
    want: &str,
) {
    let text = printed.to_string(alloc).expect(rt, "memory");
    gives(rt, input, &text.as_str(), &want);
}
