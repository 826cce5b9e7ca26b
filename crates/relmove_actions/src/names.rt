//! What names of `relmove`'s own begin with.

/// What the names of `relmove`'s own begin with: those of a run's own files, staging names, and the names of new texts.
///
/// A move is refused if its old or its new path has such a name.
pub const RESERVED: &str = ".relmove";

/// What staging names and the names of new texts begin with, before their number.
pub const STAGING: &str = ".relmove-";
