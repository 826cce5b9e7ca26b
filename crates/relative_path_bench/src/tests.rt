//! What no clause says: each law once, those that take memory also where it runs out.
use relative_path::RelativePathBuf;
use std::fmt::Debug;
use std::test::Fail;

mod naming;
mod refusals;

fn text_of(buf: &RelativePathBuf) -> &str {
    buf.as_relative_path().as_str()
}

// Fails in the words of this case where another value was found than is expected. A call of it costs
// a proof a fourth of what `assert_eq!` with a message does.
fn same<T: PartialEq + Debug + Drop>(case: &str, found: T, expected: T) -> Result<(), Fail> {
    if found == expected {
        Ok(())
    } else {
        Err(Fail::new(format_args!("{case:?}: {found:?}, not {expected:?}")))
    }
}
