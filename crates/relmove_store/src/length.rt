//! How long a path may be.
use crate::fault::RunFault;
use relmove_journal::join;
use std::alloc::Global;

/// How many bytes a path may have. The system counts a NUL at its end.
pub const LONGEST_PATH: usize = 4095;

/// Fails if a path below a root is too long for the system.
///
/// Allocates the path with the root's path before it.
pub fn need_short(alloc: Global, root: &str, path: &str) -> Result<(), RunFault> {
    if join(alloc, root, path)?.len() > LONGEST_PATH {
        return Err(RunFault::TooLong(String::from_str(alloc, path)?));
    }
    Ok(())
}
