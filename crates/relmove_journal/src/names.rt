//! The names of a run's own, below its root.

/// The journal's path from the root.
pub const JOURNAL: &str = ".relmove";

/// The path of a run's own directory from the root.
pub const RUN_DIRECTORY: &str = ".relmove-run";

/// What a staging name begins with, before its number: the run's own directory and a slash.
pub const STAGING_NAME: &str = ".relmove-run/";
