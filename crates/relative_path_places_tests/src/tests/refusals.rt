//! Each call that allocates, between two marks, on short texts and on one of a MiB. tools/refusals runs
//! each of these tests again and again, and makes one request between its marks fail after another. So
//! a test accepts a failed allocation as well as the result; without that script it accepts only the
//! result.
use super::same;
use marks::end;
use relative_path_places::NormalPath;
use std::alloc::{AllocError, Global};
use std::fmt::Debug;
use std::test::Fail;

mod index;
mod marks;

// A normal text of 524,288 components and 1,048,576 bytes.
fn long_text(alloc: Global) -> Result<String, AllocError> {
    let mut text = "a/".repeat(alloc, 524_287)?;
    text.push_str("aa")?;
    Ok(text)
}

// The mark after a call that found memory. Fails where it found another value than is expected.
fn end_with<T: PartialEq + Debug + Drop>(
    alloc: Global,
    case: &str,
    found: T,
    expected: T,
) -> Result<(), Fail> {
    end(alloc, false)?;
    same(case, found, expected)
}

// The mark after a call. Fails if no allocation failed and the normal path has another text.
fn end_with_normal(
    alloc: Global,
    case: &str,
    answer: Result<NormalPath, AllocError>,
    text: &str,
) -> Result<(), Fail> {
    match answer {
        Ok(normal) => end_with(alloc, case, normal.as_relative_path().as_str(), text),
        Err(_) => end(alloc, true),
    }
}
