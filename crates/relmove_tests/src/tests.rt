//! Tests of what no contract says: what calls do if memory runs out.
use std::fmt::Debug;
use std::test::Fail;

mod refusals;

// Fails in the words of this case if the value that was found isn't the one that is expected.
fn same<T: PartialEq + Debug>(case: &str, found: &T, expected: &T) -> Result<(), Fail> {
    if found == expected {
        Ok(())
    } else {
        Err(Fail::new(format_args!("{case:?}: {found:?}, not {expected:?}")))
    }
}
