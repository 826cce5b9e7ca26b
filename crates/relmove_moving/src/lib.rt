//! What moves do to a folder of Markdown pages, for `relmove`: the plan, and the links that no longer lead to their file after
//! it. Nothing is changed.
//!
//! A module uses modules of the layers below, and those to its left in its own layer.
//!
//! ```text
//! a plan                  moving
//! what a plan has lost    losses
//! questions               emptied  writable  destinations
//! where paths lead        layout  walk
//! ```
#![tactic(auto)]

pub use self::destinations::{NewKind, whole_moves};
pub use self::moving::{moving_of, parts_of};
pub use self::writable::need_writable;

mod destinations;
mod emptied;
mod layout;
mod losses;
mod moving;
mod walk;
mod writable;
