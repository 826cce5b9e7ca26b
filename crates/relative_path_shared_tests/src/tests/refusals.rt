//! Each call that takes memory, between two marks, on a short text and on one of a MiB.
//! tools/refusals runs each of these tests again and again, and makes one request between its marks fail
//! after another. So a test accepts a failed allocation as well as the result; without that script it
//! accepts only the result.
use std::alloc::{AllocError, Global};
use std::test::Fail;

mod json;
mod marks;
mod shared;

// A text of 1,048,576 bytes.
fn long_text(alloc: Global) -> Result<String, AllocError> {
    "a/".repeat(alloc, 524_288)
}

// A call on a path's text.
#[derive(Clone, Copy)]
enum Call {
    BoxedFromText,
    BoxedClone,
    BoxedFromBuf,
    IntoBoxedRelativePath,
    RcFromPathText,
    RcFromBuf,
    RcShare,
    AsksForNothing,
    ToValue,
    FromValue,
    BoxedFromValue,
}

// Makes a call on a text.
fn check_text(alloc: Global, call: Call, text: &str) -> Result<(), Fail> {
    match call {
        Call::BoxedFromText => shared::boxed_from_text_of(alloc, text),
        Call::BoxedClone => shared::boxed_clone_of(alloc, text),
        Call::BoxedFromBuf => shared::boxed_from_buf_of(alloc, text),
        Call::IntoBoxedRelativePath => shared::into_boxed_relative_path_of(alloc, text),
        Call::RcFromPathText => shared::rc_from_path_text_of(alloc, text),
        Call::RcFromBuf => shared::rc_from_buf_of(alloc, text),
        Call::RcShare => shared::rc_share_of(alloc, text),
        Call::AsksForNothing => shared::asks_for_nothing_of(alloc, text),
        Call::ToValue => json::to_value_of_a_path_of(alloc, text),
        Call::FromValue => json::from_value_of_a_string_of(alloc, text),
        Call::BoxedFromValue => json::boxed_from_value_of_a_string_of(alloc, text),
    }
}

// Makes a call on a short text, on the empty one and on the long one.
fn check_texts(alloc: Global, call: Call) -> Result<(), Fail> {
    check_text(alloc, call, "a//b")?;
    check_text(alloc, call, "")?;
    check_text(alloc, call, long_text(alloc)?.as_str())
}
