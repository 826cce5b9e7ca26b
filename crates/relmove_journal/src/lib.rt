//! The journal of a run of `relmove`: what it says, how that is written and read, and which work a run can have.
//!
//! Nothing here reads or changes a file. A module uses modules of the layers below, and those to its left in its own layer.
//!
//! ```text
//! the text       journal
//! its meaning    shape
//! its parts      text_digest  work
//! paths          names  path
//! failures       error
//! ```
#![tactic(auto)]

pub use self::error::JournalError;
pub use self::journal::{
    HEAD_LENGTH, Journal, Origin, begins_as_journal, journal_of, journal_text,
};
pub use self::names::{JOURNAL, RUN_DIRECTORY, STAGING_NAME};
pub use self::path::{directory_of, join, name_of};
pub use self::shape::is_of_run;
pub use self::text_digest::TextDigest;
pub use self::work::{Leftover, Stage, TextFile, Work};

mod error;
mod journal;
mod names;
mod path;
mod shape;
mod text_digest;
mod work;
