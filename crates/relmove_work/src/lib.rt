//! The work that a run has of a plan's actions, and that it can be carried out where the actions can be done.
#![tactic(auto)]

pub use self::staging_names::{is_of_text, staging_path, text_path};
pub use self::works::work_of;

mod staging_names;
mod works;
