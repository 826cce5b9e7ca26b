//! What no clause says: outside vectors in tables, and each call that takes memory once with enough of it.
use relative_path::RelativePath;
use std::fmt::Debug;
use std::test::Fail;

mod calling;
mod comparing;
mod json;
mod refusals;
mod shared;

// Fails in the words of this case where another value was found than is expected. A call of it costs
// a proof a fourth of what `assert_eq!` with a message does.
fn same<T: PartialEq + Debug>(case: &str, found: &T, expected: &T) -> Result<(), Fail> {
    if found == expected {
        Ok(())
    } else {
        Err(Fail::new(format_args!("{case:?}: {found:?}, not {expected:?}")))
    }
}

// Whether a path shows this text.
fn shows(case: &str, path: RelativePath<'_>, text: &str) -> Result<(), Fail> {
    same(case, &path.as_str(), &text)
}
