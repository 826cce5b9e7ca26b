//! The checks of moves of files and directories, before a run of `relmove` is planned: whether the moves may be done in a
//! tree, and if not, why. They touch no file. Proved from the public contracts of the crates that it uses, and from the
//! theorems that these crates show to callers.
//!
//! ```text
//! both checks           allowed
//! what moves may not    after  refused
//! what they need        foreign  above
//! what all share        entry  name_rule  refusal
//! ```
#![tactic(auto)]

pub use self::above::directory_above;
pub use self::after::entry_index;
pub use self::allowed::{coming_index, leaving_table};
pub use self::entry::{Entry, Kind};
pub use self::name_rule::NameRule;
pub use self::refusal::Refusal;
pub use self::refused::has_reserved_name;

mod above;
mod after;
mod allowed;
mod entry;
mod foreign;
mod name_rule;
mod refusal;
mod refused;
