//! What no clause says: outside vectors in tables, and the callers that pages show.
use relative_path::RelativePathBuf;
use std::alloc::AllocError;
use std::fmt::Debug;
use std::test::Fail;

mod awkward;
mod bytes;
mod calling;
mod comparing;
mod copying;
mod normalizing;
mod platform;
mod printing;
mod readme;
mod relating;
mod short_texts;
mod walking;

fn text_of(buf: &RelativePathBuf) -> &str {
    buf.as_relative_path().as_str()
}

// Fails in the words of this case where another value was found than is expected. A call of it costs
// a proof a fourth of what `assert_eq!` with a message does.
fn same<T: PartialEq + Debug + Drop>(case: &str, found: T, expected: T) -> Result<(), Fail> {
    if found == expected {
        Ok(())
    } else {
        Err(Fail::new(format_args!("{case:?}: {found:?}, not {expected:?}")))
    }
}

// Fails where a call made another path than is expected, or found no memory.
fn gives(
    case: &str,
    answer: Result<RelativePathBuf, AllocError>,
    expected: &str,
) -> Result<(), Fail> {
    let made = answer?;
    same(case, text_of(&made), expected)
}

// The same of a call that may make none.
fn may_give(
    case: &str,
    answer: Result<Option<RelativePathBuf>, AllocError>,
    expected: Option<&str>,
) -> Result<(), Fail> {
    let made = answer?;
    same(case, made.as_ref().map(text_of), expected)
}

// The same of a text.
fn gives_text(case: &str, answer: Result<String, AllocError>, expected: &str) -> Result<(), Fail> {
    let made = answer?;
    same(case, made.as_str(), expected)
}
