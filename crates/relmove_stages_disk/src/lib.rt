//! A disk in memory that does the actions of a run, as [`relmove_stages::Executor`] asks. So the contract of that trait can be
//! met, and what is proved over it isn't empty.
//!
//! A module uses modules of the layers below.
//!
//! ```text
//! the disk           disk
//! one action         actions    texts
//! what is where      entries    moment
//! one path           entry      fault
//! ```
#![tactic(auto)]

pub use self::disk::MemoryDisk;
pub use self::entry::{Entry, Node};
pub use self::fault::{Failing, Failure, Fault};
pub use self::moment::{Journal, Moment};

mod actions;
mod disk;
mod entries;
mod entry;
mod fault;
mod moment;
mod texts;
