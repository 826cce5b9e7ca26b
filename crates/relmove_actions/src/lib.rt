//! What a run of `relmove` does to the files below its root, and what the names begin with that a run gives. The plan
//! returns what is to be done, and the run carries it out.
#![tactic(auto)]

pub use self::actions::{Actions, NewText, Rename};
pub use self::names::{RESERVED, STAGING};

mod actions;
mod names;
