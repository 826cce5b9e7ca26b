//! Tests of what no contract says.
mod places;
mod refusals;
mod views;

use relative_path::{RelativePath, RelativePathBuf};
use relative_path_places::{NormalPath, PlaceIndex};
use std::alloc::{AllocError, Global};
use std::fmt::Debug;
use std::test::Fail;

fn text_of(buf: &RelativePathBuf) -> &str {
    buf.as_relative_path().as_str()
}

fn normal(alloc: Global, text: &str) -> Result<NormalPath, AllocError> {
    NormalPath::of(alloc, RelativePath::new(text))
}

// Fails in the words of this case where another value was found than is expected. A call of it costs
// a proof a fourth of what `assert_eq!` with a message does.
fn same<T: PartialEq + Debug + Drop>(case: &str, found: T, expected: T) -> Result<(), Fail> {
    if found == expected {
        Ok(())
    } else {
        Err(Fail::new(format_args!("{case:?}: {found:?}, not {expected:?}")))
    }
}

// Fails where a call made another text than is expected, or found no memory.
fn gives_text(case: &str, answer: Result<String, AllocError>, expected: &str) -> Result<(), Fail> {
    let made = answer?;
    same(case, made.as_str(), expected)
}

// Fails where an index finds another number by this path than is expected.
fn finds(
    alloc: Global,
    index: &PlaceIndex,
    path: &str,
    expected: Option<usize>,
) -> Result<(), Fail> {
    let place = normal(alloc, path)?;
    same(path, index.get(&place), expected)
}
