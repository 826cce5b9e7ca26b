//! The targets of links as a reader takes them: which path a target spells, and how a path is written.
//!
//! A module uses those to the right of it in its row, and those of the rows below.
//!
//! ```text
//! reading     reading - source, character_reference
//! writing     writing - path_position - mark
//! both        url - piece - target
//! ```
#![tactic(auto)]

pub use self::reading::path_of_target;
pub use self::target::{TargetReading, TargetSyntax, WhyUnknown};
pub use self::writing::{push_target_of_path, target_of_path};

mod character_reference;
mod mark;
mod path_position;
mod piece;
mod reading;
mod source;
mod target;
mod url;
mod writing;
