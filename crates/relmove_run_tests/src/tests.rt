//! Tests of what no contract says: what is printed, and how often two runs of other sizes ask for a directory, over a file
//! system in memory.
use std::fmt::Debug;
use std::test::Fail;

mod depth;
mod printing;

// Fails in the words of this case where another value was found than is expected. A call of it costs
// a proof a fourth of what `assert_eq!` with a message does.
fn same<T: PartialEq + Debug>(case: &str, found: &T, expected: &T) -> Result<(), Fail> {
    if found == expected {
        Ok(())
    } else {
        Err(Fail::new(format_args!("{case:?}: {found:?}, not {expected:?}")))
    }
}
