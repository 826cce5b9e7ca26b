//! The plan of a run of `relmove`: which files and directories move, what becomes of the pages, and the actions that
//! take the files of a tree there. It touches no file. Proved from the public contracts of the crates that it uses, and
//! from the theorems that these crates show to callers.
//!
//! ```text
//! the plan     plan
//! its parts    symlinks
//! ```
#![tactic(auto)]

pub use self::plan::{Plan, SiteTree, make_plan};
pub use self::symlinks::SymlinkNotice;
pub use relmove_checks::{Entry, Kind, NameRule, Refusal};

mod plan;
mod symlinks;
