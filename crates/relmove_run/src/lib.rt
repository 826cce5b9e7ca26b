//! A run of `relmove`: it carries out the actions of a plan on the files below a root, keeps a journal of it, and ends or
//! takes back a run that stopped.
//!
//! A module uses modules of the layers below, and those to its left in its own layer.
//!
//! ```text
//! a call              run
//! the work            worker  ending
//! parts of it         run_files  near  possible  synced  above
//! a stage             stages  machine
//! single calls        disk
//! ```
#![tactic(auto)]

pub use self::ending::Direction;
pub use self::near::{need_no_journal_below, need_no_journal_near};
pub use self::possible::need_possible;
pub use self::run::{Ended, Locked, PageText, StoppedRun, carry_out, need_rest, resume, undo};
pub use self::run_files::{Trust, need_no_run_files};
pub use relmove_actions::STAGING;
pub use relmove_journal::{
    JOURNAL, Journal, Leftover, Origin, RUN_DIRECTORY, Stage, TextDigest, TextFile, Work,
    directory_of, is_of_run, join, journal_of, journal_text, name_of,
};
pub use relmove_store::{
    Change, FileStore, Found, FoundKind, LONGEST_PATH, Machine, Names, PageFile, Printable,
    ROOT_USER, Remark, RunFault, Store, SystemCall, at, fault_of, is_absence, need_short,
};

mod above;
mod disk;
mod ending;
mod machine;
mod near;
mod possible;
mod run;
mod run_files;
mod stages;
mod synced;
mod worker;
