//! The actions of a run of `relmove`: what leaves to a staging name, what comes from there, and which directories are made
//! and removed, so that each file, each directory and each new text of a page comes to where the moves take it. It touches
//! no file. Proved from the public contracts of the crates that it uses, and from the theorems that these crates show to
//! callers.
//!
//! ```text
//! the actions       actions
//! their parts       renames  directories  order
//! what they need    changed  staging  number
//! ```
#![tactic(auto)]

pub use self::actions::{After, actions_of};

mod actions;
mod changed;
mod directories;
mod number;
mod order;
mod renames;
mod staging;
