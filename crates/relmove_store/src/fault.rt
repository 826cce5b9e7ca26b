//! Why a call fails.
ghost use Rattle.std.specs.Prelude.{◌≡◌};
ghost use Rattle.relmove_store.specs.declared.fault.RunFault.TheVariants.{OutOfMemory};
ghost use Rattle.relmove_store.specs.Faults.{fault_of_error};

use crate::printable::Printable;
use httpdate::{HttpDate, fmt_http_date};
use relmove_journal::{JournalError, Stage};
use std::alloc::{AllocError, AllocFailed, Global};
use std::error::Error;
use std::fmt;
use std::io::{self, ErrorKind};
use std::time::SystemTime;

/// A call of the file system.
#[derive(Clone, Copy, Debug, PartialEq, Eq)]
pub enum SystemCall {
    /// Asks for what is at a path.
    Ask,
    /// Locks a directory.
    Lock,
    /// Lists a directory.
    List,
    /// Reads a file.
    Read,
    /// Reads where a symbolic link leads.
    ReadSymlink,
    /// Makes a file.
    Create,
    /// Writes a file.
    Write,
    /// Syncs a file or directory.
    Sync,
    /// Sets a file's permissions.
    SetPermissions,
    /// Renames a file or directory.
    Rename,
    /// Gives a file a second name.
    HardLink,
    /// Makes a directory.
    MakeDirectory,
    /// Removes a file.
    RemoveFile,
    /// Removes a directory.
    RemoveDirectory,
}

impl SystemCall {
    // What the call does, in words.
    fn words(self) -> &'static str {
        match self {
            SystemCall::Ask => "look up",
            SystemCall::Lock => "lock",
            SystemCall::List => "list",
            SystemCall::Read | SystemCall::ReadSymlink => "read",
            SystemCall::Create | SystemCall::MakeDirectory => "make",
            SystemCall::Write => "write",
            SystemCall::Sync => "sync",
            SystemCall::SetPermissions => "set the permissions of",
            SystemCall::Rename => "rename",
            SystemCall::HardLink => "link",
            SystemCall::RemoveFile | SystemCall::RemoveDirectory => "remove",
        }
    }
}

/// Why a call fails. Paths are relative to the root.
#[derive(Debug, Drop)]
pub enum RunFault {
    /// An allocation failed.
    OutOfMemory,
    /// A call of the file system failed.
    System {
        /// Which call.
        call: SystemCall,
        /// The path.
        path: String,
        /// What the system says.
        why: String,
    },
    /// Something is at both paths of a rename.
    Both {
        /// The path before.
        from: String,
        /// The path after.
        to: String,
    },
    /// Nothing is at a path that the run needs.
    Missing(String),
    /// A path on the way to another one is no directory, but a symbolic link or a file.
    NotADirectory(String),
    /// A path is too long, or has a name that is.
    TooLong(String),
    /// A path is on another file system than the root.
    OtherDevice(String),
    /// The text of a page changed after it was read.
    Changed(String),
    /// The file of a new text doesn't have the text that the run wrote.
    OtherText(String),
    /// The run's own directory isn't there, or another directory has its name.
    Exchanged(String),
    /// Another process works on the root.
    AtWork,
    /// The root has the journal of a run that didn't end.
    HasJournal {
        /// When the journal was written, if this is known.
        written: Option<SystemTime>,
        /// The stage that the journal says, if it can be read.
        stage: Option<Stage>,
    },
    /// A directory below the root or above it has the journal of a run that didn't end.
    JournalNear(String),
    /// The root has no journal.
    NoJournal,
    /// What has the journal's name isn't a journal.
    NotAJournal,
    /// The journal is of an older version, which this program no longer reads.
    OldJournal,
    /// The journal wasn't written in this folder: it came with a copy, a clone or an archive.
    ForeignJournal,
    /// The journal's file has another name too.
    LinkedJournal,
    /// The journal is of a run of another user, the one of this number.
    OthersJournal(u32),
    /// Something has a name of the run's own, and no run left it.
    ReservedName(String),
    /// A run that was killed before it changed anything left a file of its own.
    LeftOver(String),
    /// The actions aren't those of a plan.
    NotAPlan,
    /// Everything is at its new path already, so the run can't be taken back.
    TooLate,
}

impl fmt::Display for RunFault {
    fn fmt<W: fmt::Write>(&self, f: &mut fmt::Formatter<W>) -> fmt::Result {
        match self {
            RunFault::System { call, path, why } => {
                let words = call.words();
                let path = Printable(path_or_root(path.as_str()));
                write!(f, "can't {words} {path}: {why}")
            }
            RunFault::Both { from, to } => {
                let (from, to) = (Printable(from.as_str()), Printable(to.as_str()));
                write!(
                    f,
                    "can't rename {from} to {to}: something is at both paths. Rename or remove the one that isn't the run's"
                )
            }
            RunFault::HasJournal { written, stage } => write_has_journal(f, *written, *stage),
            RunFault::OthersJournal(owner) => write!(
                f,
                "the journal .relmove is of a run of another user, of the number {owner}: only this user ends it, or root with --trust-journal"
            ),
            other => match words_with_path(other) {
                Some((path, words)) => {
                    let path = Printable(path_or_root(path));
                    write!(f, "{path} {words}")
                }
                None => f.write_str(words_alone(other)),
            },
        }
    }
}

// A path as it is printed. The root has the empty path.
fn path_or_root(path: &str) -> &str {
    if path.is_empty() { "ROOT" } else { path }
}

// Writes that the root has a journal.
fn write_has_journal<W: fmt::Write>(
    f: &mut fmt::Formatter<W>,
    written: Option<SystemTime>,
    stage: Option<Stage>,
) -> fmt::Result {
    f.write_str("a run before this one didn't end")?;
    if let Some(written) = written
        && let Ok(date) = HttpDate::try_from(written)
    {
        write!(f, "; its journal .relmove was written on {date}")?;
    }
    let commands = commands_at(stage);
    write!(
        f,
        ". If it was your run, call {commands}. If the folder came from elsewhere, the journal may have come with it: then remove it"
    )
}

// The calls that end a run, if its journal says this stage.
fn commands_at(stage: Option<Stage>) -> &'static str {
    match stage {
        Some(Stage::Cleaning) => "relmove --resume ROOT",
        _ => "relmove --resume ROOT or relmove --undo ROOT",
    }
}

// The path of a fault, and the words that follow it.
fn words_with_path(fault: &RunFault) -> Option<(&str, &'static str)> {
    match fault {
        RunFault::Missing(path) => Some((path.as_str(), "isn't there")),
        RunFault::NotADirectory(path) => Some((
            path.as_str(),
            "is no directory: a symbolic link or a file is there",
        )),
        RunFault::TooLong(path) => Some((path.as_str(), "is too long, or a name in it is")),
        RunFault::OtherDevice(path) => Some((path.as_str(), "is on another file system than ROOT")),
        RunFault::Changed(path) => Some((
            path.as_str(),
            "was changed while the run worked, so the run was taken back",
        )),
        RunFault::OtherText(path) => Some((
            path.as_str(),
            "isn't the text that the run wrote: another program changed it, or put it there",
        )),
        RunFault::Exchanged(path) => Some((
            path.as_str(),
            "isn't the directory that the run made: another program removed or exchanged it",
        )),
        RunFault::JournalNear(path) => Some((
            path.as_str(),
            "is the journal of a run that didn't end. If it was your run, end it first. If the folder came from elsewhere, the journal may have come with it: then remove it",
        )),
        RunFault::ReservedName(path) => Some((
            path.as_str(),
            "has a name of relmove's own, and relmove didn't leave it: remove or rename it",
        )),
        RunFault::LeftOver(path) => Some((
            path.as_str(),
            "was left by a run that was killed: call relmove --undo ROOT to remove it",
        )),
        _ => None,
    }
}

// The words of a fault without a path.
fn words_alone(fault: &RunFault) -> &'static str {
    match fault {
        RunFault::OutOfMemory => "memory ran out",
        RunFault::AtWork => "another call of relmove is at work here",
        RunFault::NoJournal => "there is no run that didn't end",
        RunFault::NotAJournal => {
            ".relmove isn't a journal that relmove wrote: another program made or changed it"
        }
        RunFault::OldJournal => {
            "the journal .relmove is of an older relmove. Rename by hand what it lists: from the names that begin with .relmove- to the old paths (lines apart or staged) or to the new ones (lines together or placed), and remove it then"
        }
        RunFault::ForeignJournal => {
            "the journal .relmove wasn't written in this folder: it came with a copy or from elsewhere. Add --trust-journal to see what it asks for. If you remove it, what is in .relmove-run stays there, and nothing says where it belongs"
        }
        RunFault::LinkedJournal => {
            "the journal .relmove has another name too, as cp -al and some backups give to a file. Add --trust-journal to see what it asks for"
        }
        RunFault::NotAPlan => "the steps aren't those of a plan",
        RunFault::TooLate => {
            "everything is at its new path already: call relmove --resume ROOT to end the run"
        }
        _ => "",
    }
}

impl Error for RunFault {}

impl From<JournalError> for RunFault {
    // the fault of the same name
    ghost from_gives = { λ error fault. fault ≡ fault_of_error error };

    fn from(error: JournalError) -> RunFault {
        match error {
            JournalError::OutOfMemory => RunFault::OutOfMemory,
            JournalError::NotAJournal => RunFault::NotAJournal,
            JournalError::OldJournal => RunFault::OldJournal,
        }
    }
}

impl From<AllocError> for RunFault {
    // a failed allocation becomes `OutOfMemory`
    ghost from_gives = { λ _ fault. fault ≡ OutOfMemory };

    fn from(_: AllocError) -> RunFault {
        RunFault::OutOfMemory
    }
}

impl<T: Drop> From<AllocFailed<T>> for RunFault {
    // a failed allocation becomes `OutOfMemory`
    ghost from_gives = { λ _ fault. fault ≡ OutOfMemory };

    fn from(_: AllocFailed<T>) -> RunFault {
        RunFault::OutOfMemory
    }
}

/// The outcome of a call of the file system, with the call and the path if it failed.
pub fn at<T>(
    alloc: Global,
    call: SystemCall,
    path: &str,
    outcome: io::Result<T>,
) -> Result<T, RunFault> {
    match outcome {
        Ok(value) => Ok(value),
        Err(error) => Err(fault_of(alloc, call, path, &error)),
    }
}

/// The fault that a call failed: [`RunFault::OutOfMemory`] if it failed for lack of memory.
pub fn fault_of(alloc: Global, call: SystemCall, path: &str, error: &io::Error) -> RunFault {
    if error.kind() == ErrorKind::OutOfMemory {
        return RunFault::OutOfMemory;
    }
    match (String::from_str(alloc, path), error.to_string(alloc)) {
        (Ok(path), Ok(why)) => RunFault::System { call, path, why },
        _ => RunFault::OutOfMemory,
    }
}
