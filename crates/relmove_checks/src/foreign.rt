//! Directories that hold a name that isn't UTF-8.
ghost use Rattle.std.specs.Prelude.{◌≡◌, All, Any, IfOk, MatchBool};
ghost use Rattle.relative_path.specs.Prefixing.{StartsWith};
ghost use Rattle.relative_path.specs.RelativePath.{path_components};
ghost use Rattle.relmove_checks.specs.Trees.{AreForeignPaths, AreInOrder, holds_foreign_name};

use crate::entry::{Entry, Kind};
use relative_path::RelativePath;
use std::alloc::{AllocError, Global};

// Returns the paths of the directories that hold a name that isn't UTF-8, in order.
pub(crate) fn foreign_paths<'a>(
    alloc: Global,
    entries: &'a [Entry<'_>],
) -> Result<Vec<RelativePath<'a>>, AllocError>
    ensures paths { IfOk result (λ paths. AreForeignPaths entries.now paths.items) }
    ensures order { IfOk result (λ paths. AreInOrder paths.items) }
{
    let mut paths = Vec::new(alloc);
    for entry in entries {
        if holds_foreign_name(entry.kind) {
            paths.push(entry.path.as_relative_path())?;
        }
    }
    paths.sort()?;
    Ok(paths)
}

// Returns whether an entry is a directory that holds a name that isn't UTF-8.
fn holds_foreign_name(kind: Kind<'_>) -> bool
    ensures { result ≡ holds_foreign_name kind.entry }
{
    match kind {
        Kind::Directory {
            has_foreign_name,
            ..
        } => has_foreign_name,
        Kind::File => false,
        Kind::Symlink { .. } => false,
    }
}

// Returns whether one of some paths in order begins with the components of a path.
pub(crate) fn has_path_below(paths: &[RelativePath<'_>], path: RelativePath<'_>) -> bool
    requires { AreInOrder paths.now }
    ensures { MatchBool result
        (Any (λ longer. StartsWith (path_components longer) (path_components path.entry)) paths.now)
        (All (λ longer. ¬ StartsWith (path_components longer) (path_components path.entry)) paths.now) }
{
    // All paths that begin with it are next to each other, and the first of them is the first that isn't before it.
    match paths.binary_search(&path) {
        Ok(_) => true,
        Err(at) => match paths.get(at) {
            Some(first) => first.starts_with(path),
            None => false,
        },
    }
}
