//! Each call, between two marks. tools/refusals runs each of these tests again and again, and makes one
//! request between its marks fail after another. So a test accepts a failed allocation as well as the
//! result; without that script it accepts only the result.
use std::alloc::{AllocError, Global};

mod marks;
mod rewriter;
mod site_map;
mod site_root;

// A normal text of 524,288 components and 1,048,576 bytes.
fn long_text(alloc: Global) -> Result<String, AllocError> {
    let mut text = "a/".repeat(alloc, 524_287)?;
    text.push_str("aa")?;
    Ok(text)
}
