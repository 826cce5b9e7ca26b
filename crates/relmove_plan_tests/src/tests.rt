//! Vectors of `relmove_plan`.
use std::fmt::Debug;
use std::test::Fail;

mod draw;
mod model;
mod moved;
mod planned;
mod random;
mod refusals;
mod refused;
mod runs;

// Fails in the words of this case where another value was found than is expected.
fn same<T: PartialEq + Debug>(case: &str, found: &T, expected: &T) -> Result<(), Fail> {
    if found == expected {
        Ok(())
    } else {
        Err(Fail::new(format_args!("{case:?}: {found:?}, not {expected:?}")))
    }
}
