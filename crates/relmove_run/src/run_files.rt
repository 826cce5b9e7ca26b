//! What a run has of its own: its journal, the next journal, a spare one, and the directory of staging names. Who ends a run
//! makes a file besides, whose owner tells who calls.
//!
//! A journal is written whole to a new file and synced, and then put in its place. So it is never seen half written. The
//! first one is put where nothing is, and each later one replaces the one before. The spare one is there for its room: on
//! a disk that is full, it makes way for the next journal.
//!
//! The directory is there before the first journal, which has its inode, and goes before the last one.
use crate::disk::{
    Above, OWNER_PERMISSIONS, RunFile, copy_of, create, find, find_to_remove, remove_file, sync,
    sync_directory, write_whole,
};
use relmove_journal::{
    HEAD_LENGTH, JOURNAL, Journal, Origin, RUN_DIRECTORY, Stage, Work, begins_as_journal,
    journal_of, journal_text,
};
use relmove_store::{
    Found, FoundKind, ROOT_USER, Remark, RunFault, Store, SystemCall, at, fault_of,
};
use std::io::{self, ErrorKind};

// A journal is written under this name.
const NEW_JOURNAL: &str = ".relmove-journal";

// A file that is removed if a journal finds no room.
const SPARE: &str = ".relmove-spare";

// A file that tells who calls: the user who owns it. It is removed at once.
const CALLER: &str = ".relmove-caller";

// How many bytes a journal may have: a GiB. A run with a longer one doesn't begin, and nothing longer is read.
const LONGEST_JOURNAL: u64 = 1 << 30;

// Who ends a run that stopped puts this file into the run's own directory, where no other run puts one. Where the lock of the
// root does nothing, the run that is ended sees it, and stops.
const END: &str = ".relmove-run/end";

// The permissions of a run's own files.
const PRIVATE: u32 = 0o600;

/// Which journals a call believes.
#[derive(Clone, Copy, Debug, PartialEq, Eq)]
pub enum Trust {
    /// Those that were written in this folder.
    ThisFolder,
    /// Also those that came with a copy of another folder, and those that have other names too.
    AnyFolder,
}

// Which of its own files a run has, as far as it knows.
#[derive(Clone, Copy)]
pub(crate) struct RunFiles {
    // The inode of the root.
    root: u64,
    directory: RunFile,
    // Whether this call made the directory, or found it in its place.
    has_directory: bool,
    // The user who owns the directory.
    owner: u32,
    // The journal in its place is the first or the second of these, once one was put there.
    journal: RunFile,
    next: RunFile,
    spare: RunFile,
    // The file of who ends the run.
    end: RunFile,
    // Whether the journal may be in its place.
    may_have_journal: bool,
}

impl RunFiles {
    // Whether the root may have the run's journal. If it hasn't, the run has changed nothing.
    pub(crate) fn may_have_journal(&self) -> bool {
        self.may_have_journal
    }

    // The user whose run this is.
    pub(crate) fn owner(&self) -> u32 {
        self.owner
    }

    // The inode of the run's own directory, if the run knows it.
    pub(crate) fn directory(&self) -> Option<u64> {
        match self.directory {
            RunFile::Inode(inode) => Some(inode),
            _ => None,
        }
    }

    // Where the run's journals are, without what is known of their own files.
    fn place(&self) -> Origin {
        Origin {
            root: self.root,
            file: 0,
            run: self.directory().unwrap_or(0),
            owner: 0,
            time: 0,
        }
    }

    // Whether what is found is the run's journal, or the next one.
    fn has(&self, found: &Found) -> bool {
        self.journal.is(found) || self.next.is(found)
    }

    // Whether a journal was written to the file of the run's journal, or to that of the next one.
    fn has_written(&self, journal: &Journal) -> bool {
        let file = RunFile::Inode(journal.origin.file);
        self.journal == file || self.next == file
    }
}

// The own files of a run that begins: none.
pub(crate) fn none_yet<S: Store>(store: &mut S) -> Result<RunFiles, RunFault> {
    need_no_run_files(store)?;
    Ok(RunFiles {
        root: inode_of_root(store)?,
        directory: RunFile::None,
        has_directory: false,
        owner: 0,
        journal: RunFile::None,
        next: RunFile::None,
        spare: RunFile::None,
        end: RunFile::None,
        may_have_journal: false,
    })
}

/// Fails if the root has a journal, or if something has another name of a run's own files.
pub fn need_no_run_files<S: Store>(store: &mut S) -> Result<(), RunFault> {
    need_no_journal(store)?;
    need_no_other(store, NEW_JOURNAL)?;
    need_no_other(store, SPARE)?;
    need_no_other(store, CALLER)?;
    need_no_run_directory(store)
}

// Fails if something has the name of a run's own directory. A run that was killed before it had a journal may have left it
// empty.
fn need_no_run_directory<S: Store>(store: &mut S) -> Result<(), RunFault> {
    let Some(found) = find(store, RUN_DIRECTORY)? else {
        return Ok(());
    };
    let path = copy_of(store, RUN_DIRECTORY)?;
    if found.kind == FoundKind::Directory && is_empty(store, RUN_DIRECTORY)? {
        return Err(RunFault::LeftOver(path));
    }
    Err(RunFault::ReservedName(path))
}

// Whether nothing is in a directory. One that can't be listed may be empty: it may not have its permissions yet.
fn is_empty<S: Store>(store: &mut S, path: &str) -> Result<bool, RunFault> {
    match store.list(path) {
        Err(error) if error.kind() == ErrorKind::PermissionDenied => Ok(true),
        listed => {
            let names = at(store.alloc(), SystemCall::List, path, listed)?;
            Ok(names.texts.is_empty() && !names.has_other)
        }
    }
}

// Fails if the root has a journal.
fn need_no_journal<S: Store>(store: &mut S) -> Result<(), RunFault> {
    match find(store, JOURNAL)? {
        Some(found) if found.kind == FoundKind::File => Err(RunFault::HasJournal {
            written: found.modified,
            stage: stage_of_journal(store, &found)?,
        }),
        Some(_) => Err(RunFault::ReservedName(copy_of(store, JOURNAL)?)),
        None => Ok(()),
    }
}

// The stage that the journal that was found says, if it can be read.
fn stage_of_journal<S: Store>(store: &mut S, found: &Found) -> Result<Option<Stage>, RunFault> {
    match &read_journal(store, found) {
        Ok(journal) => Ok(Some(journal.stage)),
        Err(RunFault::OutOfMemory) => Err(RunFault::OutOfMemory),
        Err(_) => Ok(None),
    }
}

// Fails if something is at a path of a run's other files.
fn need_no_other<S: Store>(store: &mut S, path: &str) -> Result<(), RunFault> {
    let Some(found) = find(store, path)? else {
        return Ok(());
    };
    let path = copy_of(store, path)?;
    if is_beginning(store, path.as_str(), &found)? {
        return Err(RunFault::LeftOver(path));
    }
    Err(RunFault::ReservedName(path))
}

// The inode of the root.
fn inode_of_root<S: Store>(store: &mut S) -> Result<u64, RunFault> {
    match find(store, "")? {
        Some(found) => Ok(found.inode),
        None => Err(RunFault::Missing(copy_of(store, store.root())?)),
    }
}

// Finds the journal of a run that didn't end, and reads it.
pub(crate) fn find_journal<S: Store>(
    store: &mut S,
    trust: Trust,
) -> Result<(Found, Journal), RunFault> {
    let Some(found) = find(store, JOURNAL)? else {
        return Err(RunFault::NoJournal);
    };
    let journal = read_journal(store, &found)?;
    if trust == Trust::ThisFolder {
        need_one_name(store, &found)?;
        if !is_from_here(journal.origin, inode_of_root(store)?, &found) {
            return Err(RunFault::ForeignJournal);
        }
    }
    Ok((found, journal))
}

// Whether a journal that was found was written in this root, to this very file.
fn is_from_here(origin: Origin, root: u64, found: &Found) -> bool {
    origin.root == root
        && origin.file == found.inode
        && origin.owner == u64::from(found.owner)
        && origin.time == found.made
}

// Takes over the own files of a run whose journal was found. Removes what a kill left of the others, once it is known that
// who calls may end the run.
pub(crate) fn run_files_of<S: Store>(
    store: &mut S,
    found: &Found,
    origin: Origin,
    trust: Trust,
) -> Result<RunFiles, RunFault> {
    let root = inode_of_root(store)?;
    let directory = run_directory_of(store, origin, trust)?;
    need_right_to_end(store, found.owner, trust)?;
    remove_leftover(store, NEW_JOURNAL, Some(found))?;
    remove_leftover(store, SPARE, None)?;
    Ok(RunFiles {
        root,
        directory: RunFile::Inode(directory),
        has_directory: false,
        owner: found.owner,
        journal: RunFile::Inode(found.inode),
        next: RunFile::None,
        spare: RunFile::None,
        end: RunFile::None,
        may_have_journal: true,
    })
}

// The inode of the own directory of a run. A copy of the directory has another one than the journal says.
fn run_directory_of<S: Store>(
    store: &mut S,
    origin: Origin,
    trust: Trust,
) -> Result<u64, RunFault> {
    if trust == Trust::AnyFolder
        && let Some(found) = find(store, RUN_DIRECTORY)?
    {
        return Ok(found.inode);
    }
    Ok(origin.run)
}

// Fails unless who calls owns the journal of a run, or is root and trusts it.
fn need_right_to_end<S: Store>(store: &mut S, owner: u32, trust: Trust) -> Result<(), RunFault> {
    let may_end = match caller_of(store)? {
        Some(caller) => caller == owner || caller == ROOT_USER && trust == Trust::AnyFolder,
        None => is_alone_in_root(store, owner)?,
    };
    if may_end {
        return Ok(());
    }
    Err(RunFault::OthersJournal(owner))
}

// The user who calls. On a disk that has no room for a file the spare journal makes way for it. `None` if there is no room
// then either.
fn caller_of<S: Store>(store: &mut S) -> Result<Option<u32>, RunFault> {
    remove_leftover(store, CALLER, None)?;
    if let Some(caller) = owner_of_new_file(store)? {
        return Ok(Some(caller));
    }
    remove_leftover(store, SPARE, None)?;
    owner_of_new_file(store)
}

// The owner of a file that the call makes, and removes again. `None` if the disk has no room for it.
fn owner_of_new_file<S: Store>(store: &mut S) -> Result<Option<u32>, RunFault> {
    let file = match store.create(CALLER, PRIVATE) {
        Err(error) if says_no_room(&error) => return Ok(None),
        created => at(store.alloc(), SystemCall::Create, CALLER, created)?,
    };
    let found = store.find_new(&file);
    let found = at(store.alloc(), SystemCall::Ask, CALLER, found)?;
    let mut run_file = RunFile::Inode(found.inode);
    remove_run_file(store, CALLER, &mut run_file)?;
    Ok(Some(found.owner))
}

// Whether an error says that the disk has no room, or that its user may have no more of it.
fn says_no_room(error: &io::Error) -> bool {
    error.kind() == ErrorKind::StorageFull || error.kind() == ErrorKind::QuotaExceeded
}

// Whether a user owns the root, and nobody else may change the names in it.
fn is_alone_in_root<S: Store>(store: &mut S, user: u32) -> Result<bool, RunFault> {
    Ok(match find(store, "")? {
        Some(root) => root.owner == user && root.mode & OTHERS_WRITE == 0,
        None => false,
    })
}

// The permissions of a group and of others to change the names in a directory.
const OTHERS_WRITE: u32 = 0o022;

// Removes what a kill left of a run's own files, without a journal.
pub(crate) fn remove_leftovers<S: Store>(store: &mut S) -> Result<(), RunFault> {
    remove_leftover(store, NEW_JOURNAL, None)?;
    remove_leftover(store, SPARE, None)?;
    remove_leftover(store, CALLER, None)?;
    remove_empty_directory(store)
}

// Removes the own directory that a run left which was killed before it had a journal. Fails if something is in it, or if
// something else has its name.
fn remove_empty_directory<S: Store>(store: &mut S) -> Result<(), RunFault> {
    match find_to_remove(store, RUN_DIRECTORY)? {
        None => Ok(()),
        Some(found) if found.kind == FoundKind::Directory => {
            match store.remove_directory(RUN_DIRECTORY) {
                Err(error) if error.kind() == ErrorKind::DirectoryNotEmpty => {
                    Err(RunFault::ReservedName(copy_of(store, RUN_DIRECTORY)?))
                }
                removed => at(
                    store.alloc(),
                    SystemCall::RemoveDirectory,
                    RUN_DIRECTORY,
                    removed,
                ),
            }
        }
        Some(_) => Err(RunFault::ReservedName(copy_of(store, RUN_DIRECTORY)?)),
    }
}

// Fails if a journal has a name outside the root. A run that is killed may leave it the name of the next journal too.
fn need_one_name<S: Store>(store: &mut S, found: &Found) -> Result<(), RunFault> {
    if found.names == 1 {
        return Ok(());
    }
    if found.names == 2
        && let Some(next) = find(store, NEW_JOURNAL)?
        && next.is_same(found)
    {
        return Ok(());
    }
    Err(RunFault::LinkedJournal)
}

// Reads the journal that was found.
fn read_journal<S: Store>(store: &mut S, found: &Found) -> Result<Journal, RunFault> {
    if found.kind != FoundKind::File || found.length > LONGEST_JOURNAL {
        return Err(RunFault::NotAJournal);
    }
    let read = store.read_start(JOURNAL, LONGEST_JOURNAL);
    let bytes = at(store.alloc(), SystemCall::Read, JOURNAL, read)?;
    match std::str::from_utf8(bytes.as_slice()) {
        Ok(text) => Ok(journal_of(store.alloc(), text)?),
        Err(_) => Err(RunFault::NotAJournal),
    }
}

// Removes what a killed run left at a path of its own: a second name of the journal, or the beginning of one. Fails if
// anything else is there.
fn remove_leftover<S: Store>(
    store: &mut S,
    path: &str,
    journal: Option<&Found>,
) -> Result<(), RunFault> {
    let Some(found) = find_to_remove(store, path)? else {
        return Ok(());
    };
    let is_journal = match journal {
        Some(journal) => found.is_same(journal),
        None => false,
    };
    if is_journal || is_beginning(store, path, &found)? {
        let mut above = Above::new(store.alloc());
        return remove_file(store, &mut above, path);
    }
    Err(RunFault::ReservedName(copy_of(store, path)?))
}

// Whether a regular file with one name begins as a journal.
fn is_beginning<S: Store>(store: &mut S, path: &str, found: &Found) -> Result<bool, RunFault> {
    if found.kind != FoundKind::File || found.names != 1 {
        return Ok(false);
    }
    // It may not have its permissions yet.
    if found.length == 0 {
        return Ok(true);
    }
    let read = store.read_start(path, HEAD_LENGTH);
    let bytes = at(store.alloc(), SystemCall::Read, path, read)?;
    Ok(begins_as_journal(bytes.as_slice()))
}

// Makes the run's own directory, for its owner alone. Returns its inode.
pub(crate) fn make_run_directory<S: Store>(
    store: &mut S,
    files: &mut RunFiles,
) -> Result<u64, RunFault> {
    let made = store.make_directory(RUN_DIRECTORY, OWNER_PERMISSIONS);
    files.directory = match &made {
        Err(error) if error.kind() == ErrorKind::AlreadyExists => RunFile::None,
        _ => RunFile::Unknown,
    };
    at(
        store.alloc(),
        SystemCall::MakeDirectory,
        RUN_DIRECTORY,
        made,
    )?;
    match find(store, RUN_DIRECTORY)? {
        Some(found) if found.kind == FoundKind::Directory => {
            files.directory = RunFile::Inode(found.inode);
            files.has_directory = true;
            files.owner = found.owner;
            Ok(found.inode)
        }
        _ => Err(RunFault::Exchanged(copy_of(store, RUN_DIRECTORY)?)),
    }
}

// Puts the first journal where nothing is, and makes the spare one.
pub(crate) fn put_first<S: Store>(
    store: &mut S,
    files: &mut RunFiles,
    work: &Work,
) -> Result<(), RunFault> {
    let origin = write_next(store, files, Stage::Writing, work)?;
    if origin.owner != u64::from(files.owner) {
        return Err(RunFault::Exchanged(copy_of(store, RUN_DIRECTORY)?));
    }
    let linked = hard_link_next(store);
    if let Err(error) = &linked
        && error.kind() == ErrorKind::AlreadyExists
    {
        need_no_journal(store)?;
    }
    files.may_have_journal = match &linked {
        Ok(()) => true,
        Err(error) => error.kind() != ErrorKind::OutOfMemory,
    };
    at(store.alloc(), SystemCall::HardLink, JOURNAL, linked)?;
    files.journal = files.next;
    remove_run_file(store, NEW_JOURNAL, &mut files.next)?;
    make_spare(store, files, work)?;
    // Without its own inode the directory would lose what gets a name in it.
    sync_directory(store, RUN_DIRECTORY)?;
    sync_directory(store, "")
}

// Gives the next journal the journal's name, where nothing is. A file system without second names gets a rename.
fn hard_link_next<S: Store>(store: &mut S) -> io::Result<()> {
    match store.hard_link(NEW_JOURNAL, JOURNAL) {
        Err(error) if has_no_hard_links(error.kind()) => match store.find(JOURNAL)? {
            Some(_) => Err(io::Error::from(ErrorKind::AlreadyExists)),
            None => store.rename(NEW_JOURNAL, JOURNAL),
        },
        linked => linked,
    }
}

// Whether an error says that a file system has no second names, or not here.
fn has_no_hard_links(kind: ErrorKind) -> bool {
    matches!(
        kind,
        ErrorKind::PermissionDenied
            | ErrorKind::Unsupported
            | ErrorKind::CrossesDevices
            | ErrorKind::TooManyLinks
            | ErrorKind::InvalidInput
    )
}

// Makes the spare journal. Without room there is none.
fn make_spare<S: Store>(store: &mut S, files: &mut RunFiles, work: &Work) -> Result<(), RunFault> {
    match write_spare(store, &mut files.spare, work) {
        Err(RunFault::OutOfMemory) => Err(RunFault::OutOfMemory),
        Err(_) => remove_run_file(store, SPARE, &mut files.spare),
        Ok(()) => Ok(()),
    }
}

// No journal is longer than one with these numbers, at the stage with the longest name.
const LONGEST: Origin = Origin {
    root: u64::MAX,
    file: u64::MAX,
    run: u64::MAX,
    owner: u64::MAX,
    time: u64::MAX,
};

// Writes the spare journal, which no later one exceeds.
fn write_spare<S: Store>(
    store: &mut S,
    run_file: &mut RunFile,
    work: &Work,
) -> Result<(), RunFault> {
    let mut above = Above::new(store.alloc());
    let (mut file, _) = create(store, &mut above, SPARE, PRIVATE, run_file)?;
    let text = journal_text(store.alloc(), LONGEST, Stage::Unstaging, work)?;
    write_private(store, &mut file, SPARE, text.as_str())
}

// Removes a file that the run made. Fails if something else is there.
fn remove_run_file<S: Store>(
    store: &mut S,
    path: &str,
    run_file: &mut RunFile,
) -> Result<(), RunFault> {
    if *run_file == RunFile::None {
        return Ok(());
    }
    if let Some(found) = find_to_remove(store, path)? {
        let is_run_file = match run_file {
            RunFile::Unknown => is_beginning(store, path, &found)?,
            _ => run_file.is(&found),
        };
        if !is_run_file {
            return Err(RunFault::ReservedName(copy_of(store, path)?));
        }
        let mut above = Above::new(store.alloc());
        remove_file(store, &mut above, path)?;
    }
    *run_file = RunFile::None;
    Ok(())
}

// Puts a journal of a stage in the place of the one before.
pub(crate) fn put_next<S: Store>(
    store: &mut S,
    files: &mut RunFiles,
    stage: Stage,
    work: &Work,
) -> Result<(), RunFault> {
    need_run_journal(store, files)?;
    if let Err(fault) = write_next(store, files, stage, work) {
        if files.spare == RunFile::None {
            return Err(fault);
        }
        remove_run_file(store, SPARE, &mut files.spare)?;
        write_next(store, files, stage, work)?;
    }
    need_run_journal(store, files)?;
    need_next(store, files)?;
    let renamed = store.rename(NEW_JOURNAL, JOURNAL);
    at(store.alloc(), SystemCall::Rename, NEW_JOURNAL, renamed)?;
    files.journal = files.next;
    files.next = RunFile::None;
    sync_directory(store, "")
}

// Fails unless the run's journal is in its place, and notes which one that is.
fn need_run_journal<S: Store>(store: &mut S, files: &mut RunFiles) -> Result<(), RunFault> {
    match find(store, JOURNAL)? {
        Some(found) if is_run_journal(store, files, &found)? => {
            files.journal = RunFile::Inode(found.inode);
            Ok(())
        }
        _ => Err(RunFault::NotAJournal),
    }
}

// Whether what is found in the journal's place is the run's journal. Where a file system has an inode for each path, it has
// another one there than under the name under which it was written: then its text tells.
fn is_run_journal<S: Store>(
    store: &mut S,
    files: &RunFiles,
    found: &Found,
) -> Result<bool, RunFault> {
    if files.has(found) {
        return Ok(true);
    }
    match &read_journal(store, found) {
        Ok(journal) => Ok(files.has_written(journal)),
        Err(RunFault::OutOfMemory) => Err(RunFault::OutOfMemory),
        Err(_) => Ok(false),
    }
}

// Fails unless the next journal is the one that the run wrote.
fn need_next<S: Store>(store: &mut S, files: &RunFiles) -> Result<(), RunFault> {
    match find(store, NEW_JOURNAL)? {
        Some(found) if files.next.is(&found) => Ok(()),
        Some(_) => Err(RunFault::ReservedName(copy_of(store, NEW_JOURNAL)?)),
        None => Err(RunFault::Missing(copy_of(store, NEW_JOURNAL)?)),
    }
}

// Writes the next journal whole. Notes which file it is, and returns what the journal says of it.
fn write_next<S: Store>(
    store: &mut S,
    files: &mut RunFiles,
    stage: Stage,
    work: &Work,
) -> Result<Origin, RunFault> {
    remove_run_file(store, NEW_JOURNAL, &mut files.next)?;
    let place = files.place();
    let mut above = Above::new(store.alloc());
    let (mut file, found) = create(store, &mut above, NEW_JOURNAL, PRIVATE, &mut files.next)?;
    let origin = Origin {
        file: found.inode,
        owner: u64::from(found.owner),
        time: found.made,
        ..place
    };
    let text = journal_text(store.alloc(), origin, stage, work)?;
    if text.len() as u64 > LONGEST_JOURNAL {
        return Err(RunFault::TooLong(copy_of(store, JOURNAL)?));
    }
    write_private(store, &mut file, NEW_JOURNAL, text.as_str())?;
    Ok(origin)
}

// Writes a text to a new file that only its owner can read, and syncs it.
fn write_private<S: Store>(
    store: &mut S,
    file: &mut S::NewFile,
    path: &str,
    text: &str,
) -> Result<(), RunFault> {
    let set = store.set_mode(file, PRIVATE);
    at(store.alloc(), SystemCall::SetPermissions, path, set)?;
    write_whole(store, file, path, text.as_bytes())?;
    sync(store, file, path)
}

// Takes the run's own directory, if it is there: from now on another call that works on the run stops. On a disk without room
// the directory isn't taken.
pub(crate) fn take_directory<S: Store>(
    store: &mut S,
    above: &mut Above,
    files: &mut RunFiles,
) -> Result<(), RunFault> {
    match find(store, RUN_DIRECTORY)? {
        Some(found) if files.directory.may_be_directory(&found) => files.has_directory = true,
        _ => return Ok(()),
    }
    if find(store, END)?.is_some() {
        remove_file(store, above, END)?;
    }
    match create(store, above, END, PRIVATE, &mut files.end) {
        Err(RunFault::OutOfMemory) => return Err(RunFault::OutOfMemory),
        Err(RunFault::Exchanged(path)) => return Err(RunFault::Exchanged(path)),
        _ => {}
    }
    if files.end == RunFile::Unknown {
        files.end = made_file(store, END)?;
    }
    Ok(())
}

// The file that a call made which reported a failure, if it made one.
fn made_file<S: Store>(store: &mut S, path: &str) -> Result<RunFile, RunFault> {
    match find(store, path)? {
        Some(found) => Ok(RunFile::Inode(found.inode)),
        None => Ok(RunFile::None),
    }
}

// Fails if another call took the run's own directory.
pub(crate) fn need_untaken<S: Store>(store: &mut S, files: &RunFiles) -> Result<(), RunFault> {
    match find(store, END)? {
        None => Ok(()),
        Some(found) if files.end.is(&found) => Ok(()),
        Some(_) => Err(RunFault::AtWork),
    }
}

// Removes the file of who ends the run, if it is still there.
fn remove_end<S: Store>(store: &mut S, files: &mut RunFiles) -> Result<(), RunFault> {
    if let Some(found) = find_to_remove(store, END)?
        && files.end.is(&found)
    {
        let removed = store.remove_file(END);
        at(store.alloc(), SystemCall::RemoveFile, END, removed)?;
    }
    files.end = RunFile::None;
    Ok(())
}

// Removes the run's own files. The journal is the last one. Notes what is left of the run's own directory.
pub(crate) fn remove_all<S: Store>(
    store: &mut S,
    files: &mut RunFiles,
    remarks: &mut Vec<Remark>,
) -> Result<(), RunFault> {
    remove_run_file(store, NEW_JOURNAL, &mut files.next)?;
    remove_run_file(store, SPARE, &mut files.spare)?;
    if files.end != RunFile::None {
        remove_end(store, files)?;
    }
    remove_run_directory(store, files, remarks)?;
    if !files.may_have_journal {
        return Ok(());
    }
    match find_to_remove(store, JOURNAL)? {
        None => Ok(()),
        Some(found) if is_run_journal(store, files, &found)? => remove_journal(store),
        Some(_) => Err(RunFault::NotAJournal),
    }
}

// Removes the run's own directory. If something is in it, or if something else has its name, it stays, and this is noted. So
// is one that went away during this call. A call that reports a failure after it removed the directory has done its work.
fn remove_run_directory<S: Store>(
    store: &mut S,
    files: &RunFiles,
    remarks: &mut Vec<Remark>,
) -> Result<(), RunFault> {
    if files.directory == RunFile::None {
        return Ok(());
    }
    let Some(found) = find_to_remove(store, RUN_DIRECTORY)? else {
        return note_away(store, files, remarks);
    };
    if !files.directory.may_be_directory(&found) {
        return Ok(remarks.push(Remark::Kept(copy_of(store, RUN_DIRECTORY)?))?);
    }
    let removed = store.remove_directory(RUN_DIRECTORY);
    match &removed {
        Err(error) if error.kind() == ErrorKind::DirectoryNotEmpty => {
            let why = fault_of(
                store.alloc(),
                SystemCall::RemoveDirectory,
                RUN_DIRECTORY,
                error,
            );
            return Ok(remarks.push(Remark::Stays(why))?);
        }
        Err(error) if error.kind() == ErrorKind::NotFound => {
            return note_away(store, files, remarks);
        }
        _ => {}
    }
    if removed.is_err() && find(store, RUN_DIRECTORY)?.is_none() {
        return Ok(());
    }
    at(
        store.alloc(),
        SystemCall::RemoveDirectory,
        RUN_DIRECTORY,
        removed,
    )
}

// Notes that nothing has the name of the run's own directory, if this call had it.
fn note_away<S: Store>(
    store: &mut S,
    files: &RunFiles,
    remarks: &mut Vec<Remark>,
) -> Result<(), RunFault> {
    if files.has_directory {
        remarks.push(Remark::Away(copy_of(store, RUN_DIRECTORY)?))?;
    }
    Ok(())
}

// Removes the journal. A call that reports a failure after it removed the journal has done its work.
fn remove_journal<S: Store>(store: &mut S) -> Result<(), RunFault> {
    let removed = store.remove_file(JOURNAL);
    if removed.is_err() && find(store, JOURNAL)?.is_none() {
        return Ok(());
    }
    at(store.alloc(), SystemCall::RemoveFile, JOURNAL, removed)
}
