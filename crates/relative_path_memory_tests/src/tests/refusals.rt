//! Each call that allocates, between two marks, on a short text and on one of a MiB. tools/refusals runs
//! each of these tests again and again, and makes one request between its marks fail after another. So
//! a test accepts a failed allocation as well as the result; without that script it accepts only the
//! result.
use super::{same, text_of};
use marks::{end, end_answered};
use relative_path::RelativePathBuf;
use std::alloc::{AllocError, Global};
use std::test::Fail;

mod editing;
mod marks;
mod naming;
mod normalizing;
mod platform;
mod relating;
mod rows;
mod wrong;

// A normal text of 524,288 components and 1,048,576 bytes.
fn long_text(alloc: Global) -> Result<String, AllocError> {
    let mut text = "a/".repeat(alloc, 524_287)?;
    text.push_str("aa")?;
    Ok(text)
}

// The mark after a call. Fails if the result has another text, or more room than the text needs.
fn gives(
    alloc: Global,
    answer: Result<RelativePathBuf, AllocError>,
    text: &str,
) -> Result<(), Fail> {
    match answer {
        Ok(buf) => {
            end_answered(alloc);
            same("text and room", (text_of(&buf), buf.spare()), (text, 0))
        }
        Err(_) => end(alloc, true),
    }
}
