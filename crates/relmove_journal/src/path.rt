//! Paths below a root.
ghost use Rattle.std.specs.Prelude.{◌≡◌, IfOk, string_bytes};
ghost use Rattle.relmove_journal.specs.Paths.{IsDirectoryOf, IsNameOf, path_below};

use std::alloc::{AllocError, Global};

/// A path below a directory: the directory's path, a slash and the path.
///
/// Allocates it.
pub fn join(alloc: Global, directory: &str, path: &str) -> Result<String, AllocError>
    // the directory, a slash where one is needed, and the path
    ensures path { IfOk result (λ full. string_bytes full ≡ path_below directory.now path.now) }
{
    let mut full = String::from_str(alloc, directory)?;
    if !directory.is_empty() && !directory.ends_with('/') && !path.is_empty() {
        full.push('/')?;
    }
    full.push_str(path)?;
    Ok(full)
}

/// The directory in which a path is. The root is the empty path.
pub fn directory_of(path: &str) -> &str
    // what is before the last slash, or nothing
    ensures directory { IsDirectoryOf result.now path.now }
{
    match path.rsplit_once('/') {
        Some((directory, _)) => directory,
        None => "",
    }
}

/// The name at the end of a path.
pub fn name_of(path: &str) -> &str
    // what is after the last slash, or all
    ensures name { IsNameOf result.now path.now }
{
    match path.rsplit_once('/') {
        Some((_, name)) => name,
        None => path,
    }
}
