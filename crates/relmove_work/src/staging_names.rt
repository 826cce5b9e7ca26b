//! The paths that a run has for those of a plan.
//!
//! The actions of a plan name what moves by labels: `.relmove-1`, `.relmove-2` and so on, and a new text by one next to its
//! page. The number of a label is the staging name's: `.relmove-run/1` stands for `.relmove-1`. A new text is written at its
//! staging name at once.
ghost use Rattle.std.specs.Prelude.{◌≡◌, IfOk, string_bytes};
ghost use Rattle.relmove_work.specs.StagingPaths as paths;

use relmove_actions::{Rename, STAGING};
use relmove_journal::{RUN_DIRECTORY, join, name_of};
use std::alloc::{AllocError, Global};

/// The path that a run has for one of a plan that may begin with a label.
///
/// Allocates it.
///
/// ```
/// assert_eq!(rt; staging_path(alloc, ".relmove-1/guide")?.as_str(), ".relmove-run/1/guide");
/// ```
pub fn staging_path(alloc: Global, path: &str) -> Result<String, AllocError>
    // the staging name in the place of the label
    ensures path { IfOk result (λ full. string_bytes full ≡ paths.staging_path path.now) }
{
    match path.strip_prefix(STAGING) {
        Some(below) => join(alloc, RUN_DIRECTORY, below),
        None => String::from_str(alloc, path),
    }
}

/// The staging name of a new text, for which a plan has this file.
///
/// Allocates it.
///
/// ```
/// assert_eq!(rt; text_path(alloc, "guide/.relmove-2")?.as_str(), ".relmove-run/2");
/// ```
pub fn text_path(alloc: Global, file: &str) -> Result<String, AllocError>
    // the staging name with the number of the file
    ensures path { IfOk result (λ full. string_bytes full ≡ paths.text_path file.now) }
{
    staging_path(alloc, name_of(file))
}

/// Whether a plan gives a new text a label by this rename. Allocates nothing.
pub fn is_of_text(rename: &Rename) -> bool
    // whether the rename's old path ends in the name of a new text
    ensures text { result ≡ paths.is_text_file (string_bytes rename.now.from) }
{
    begins_as_label(name_of(rename.from.as_str()))
}

// Whether a name begins as a label.
fn begins_as_label(name: &str) -> bool
    ensures { result ≡ paths.begins_as_label name.now }
{
    name.starts_with(STAGING)
}
