//! Reads the files that a manifest in JSON lists. Proved from the public contracts of the crates that it
//! uses, and from the theorems that these crates show to callers.
#![tactic(auto)]

pub use self::clash::manifest_clash;
pub use self::manifest::{ManifestError, manifest_base, manifest_files, manifest_files_on_unix};

mod clash;
mod manifest;
