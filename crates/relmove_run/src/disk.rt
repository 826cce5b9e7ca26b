//! The calls of a run on the files below a root. Each asks before it changes something.
use relmove_actions::NewText;
use relmove_journal::{RUN_DIRECTORY, STAGING_NAME, TextDigest};
use relmove_store::{
    Found, FoundKind, PageFile, RunFault, Store, SystemCall, at, fault_of, is_absence,
};
use std::alloc::{AllocError, Global};
use std::collections::BTreeMap;
use std::io::ErrorKind;

// A copy of a path.
pub(crate) fn copy_of<S: Store>(store: &S, path: &str) -> Result<String, AllocError> {
    String::from_str(store.alloc(), path)
}

// What is at a path. Nothing is at a path that is too long.
pub(crate) fn find<S: Store>(store: &mut S, path: &str) -> Result<Option<Found>, RunFault> {
    match store.find(path) {
        Err(error) if error.kind() == ErrorKind::InvalidFilename => Ok(None),
        asked => at(store.alloc(), SystemCall::Ask, path, asked),
    }
}

// What is at a path from which something is to be removed. That nothing is there is asked twice: a file system that says so
// wrongly once would leave the thing there, and nobody would know.
pub(crate) fn find_to_remove<S: Store>(
    store: &mut S,
    path: &str,
) -> Result<Option<Found>, RunFault> {
    match find(store, path)? {
        Some(found) => Ok(Some(found)),
        None => find(store, path),
    }
}

// Whether something is at a path. A symbolic link is there, wherever it leads.
pub(crate) fn is_there<S: Store>(store: &mut S, path: &str) -> Result<bool, RunFault> {
    Ok(find(store, path)?.is_some())
}

// The directories above paths that were asked for: no symbolic link leads to them.
#[derive(Drop)]
pub(crate) struct Above {
    known: BTreeMap<String, Found>,
    // The inode of the run's own directory, once the run has one.
    run_directory: Option<u64>,
}

impl Above {
    // None. Allocates nothing.
    pub(crate) fn new(alloc: Global) -> Above {
        Above {
            known: BTreeMap::new(alloc),
            run_directory: None,
        }
    }

    // Notes which one the run's own directory is.
    pub(crate) fn set_run_directory(&mut self, inode: u64) {
        self.run_directory = Some(inode);
    }

    // The longest directory above a path that was asked for, and how many bytes its path has.
    fn nearest(&self, path: &str) -> Option<(usize, Found)> {
        for (slash, _) in path.rmatch_indices('/') {
            if let Some(directory) = path.get(..slash)
                && let Some(found) = self.known.get(directory)
            {
                return Some((slash, *found));
            }
        }
        None
    }
}

// Fails unless whatever is on the way to a path is a directory, and the run's own directory is the one that the run made. If
// the longest directory on the way that was asked for before is still the same one, the directories above that one aren't
// asked for again.
pub(crate) fn need_directories_above<S: Store>(
    store: &mut S,
    above: &mut Above,
    path: &str,
) -> Result<(), RunFault> {
    let run = length_of_run_directory(store, above, path)?;
    let known = length_of_known(store, above, path)?.max(run);
    for (slash, _) in path.match_indices('/') {
        if slash > known
            && let Some(directory) = path.get(..slash)
        {
            let found = need_directory(store, directory)?;
            above.known.insert(copy_of(store, directory)?, found)?;
        }
    }
    Ok(())
}

// How many bytes of a path lead to the run's own directory. Fails if that isn't the one that the run made.
fn length_of_run_directory<S: Store>(
    store: &mut S,
    above: &Above,
    path: &str,
) -> Result<usize, RunFault> {
    if !path.starts_with(STAGING_NAME) {
        return Ok(0);
    }
    need_run_directory(store, above)?;
    Ok(RUN_DIRECTORY.len())
}

// Fails unless the run's own directory is there, and is the one that the run made.
pub(crate) fn need_run_directory<S: Store>(store: &mut S, above: &Above) -> Result<(), RunFault> {
    match find(store, RUN_DIRECTORY)? {
        Some(found)
            if found.kind == FoundKind::Directory && above.run_directory == Some(found.inode) => {
            Ok(())
        }
        _ => Err(RunFault::Exchanged(copy_of(store, RUN_DIRECTORY)?)),
    }
}

// How many bytes of a path lead to a directory to which no symbolic link leads.
fn length_of_known<S: Store>(store: &mut S, above: &Above, path: &str) -> Result<usize, RunFault> {
    let Some((length, known)) = above.nearest(path) else {
        return Ok(0);
    };
    match find(store, path.get(..length).unwrap_or(""))? {
        Some(found) if found.kind == FoundKind::Directory && found.is_same(&known) => Ok(length),
        _ => Ok(0),
    }
}

// What is at a path. Fails unless that is a directory.
fn need_directory<S: Store>(store: &mut S, path: &str) -> Result<Found, RunFault> {
    match find(store, path)? {
        Some(found) if found.kind == FoundKind::Directory => Ok(found),
        Some(_) => Err(RunFault::NotADirectory(copy_of(store, path)?)),
        None => Err(RunFault::Missing(copy_of(store, path)?)),
    }
}

// Renames what was found to a path that is free. If both paths are names of one file, the old one is removed.
fn rename<S: Store>(
    store: &mut S,
    above: &mut Above,
    from: &str,
    to: &str,
    found: &Found,
) -> Result<(), RunFault> {
    need_directories_above(store, above, from)?;
    need_directories_above(store, above, to)?;
    match find(store, to)? {
        None => {
            let renamed = store.rename(from, to);
            at(store.alloc(), SystemCall::Rename, from, renamed)
        }
        Some(other) if are_names_of_one_file(found, &other) => remove_name(store, from, &other),
        Some(_) => {
            let (from, to) = (copy_of(store, from)?, copy_of(store, to)?);
            Err(RunFault::Both { from, to })
        }
    }
}

// Whether two paths are names of one file. A loss of power can keep both names of a file that was renamed. Where everything
// has the same inode, what else the system says of two files is compared too.
pub(crate) fn are_names_of_one_file(one: &Found, other: &Found) -> bool {
    one.is_same(other)
        && one.kind != FoundKind::Directory
        && one.names > 1
        && one.names == other.names
        && one.length == other.length
        && one.made == other.made
}

// Removes a path, if it is a name of the file that was found at another path.
fn remove_name<S: Store>(store: &mut S, path: &str, other: &Found) -> Result<(), RunFault> {
    match find(store, path)? {
        Some(found) if are_names_of_one_file(&found, other) => {
            let removed = store.remove_file(path);
            at(store.alloc(), SystemCall::RemoveFile, path, removed)
        }
        _ => Ok(()),
    }
}

// Removes a path, if it is a second name of what is at another path.
pub(crate) fn remove_second_name<S: Store>(
    store: &mut S,
    above: &mut Above,
    path: &str,
    kept: &str,
) -> Result<(), RunFault> {
    if let Some(other) = find(store, kept)?
        && other.names > 1
        && let Some(found) = find(store, path)?
        && are_names_of_one_file(&found, &other)
    {
        need_directories_above(store, above, path)?;
        return remove_name(store, path, &other);
    }
    Ok(())
}

// Renames a file or directory, unless that is done.
pub(crate) fn carry<S: Store>(
    store: &mut S,
    above: &mut Above,
    from: &str,
    to: &str,
) -> Result<(), RunFault> {
    if let Some(found) = find(store, from)? {
        return rename(store, above, from, to, &found);
    }
    if is_there(store, to)? {
        return Ok(());
    }
    Err(RunFault::Missing(copy_of(store, from)?))
}

// Makes a directory, unless something is there. A directory that is there without its owner's permissions, and empty, is
// made anew: the run may have been killed before it had them.
pub(crate) fn make_directory<S: Store>(
    store: &mut S,
    above: &mut Above,
    path: &str,
) -> Result<(), RunFault> {
    if let Some(found) = find(store, path)? {
        if has_owner_permissions(&found) {
            return Ok(());
        }
        remove_directory(store, above, path)?;
        if is_there(store, path)? {
            return Ok(());
        }
    }
    need_directories_above(store, above, path)?;
    let made = store.make_directory(path, ALL_PERMISSIONS);
    at(store.alloc(), SystemCall::MakeDirectory, path, made)
}

// Whether something is no directory, or one whose owner may list it, change it and use its names.
fn has_owner_permissions(found: &Found) -> bool {
    found.kind != FoundKind::Directory || found.mode & OWNER_PERMISSIONS == OWNER_PERMISSIONS
}

// Removes a directory, unless it isn't empty or nothing is there.
pub(crate) fn remove_directory<S: Store>(
    store: &mut S,
    above: &mut Above,
    path: &str,
) -> Result<(), RunFault> {
    if find_to_remove(store, path)?.is_none() {
        return Ok(());
    }
    need_directories_above(store, above, path)?;
    match store.remove_directory(path) {
        Err(error) if error.kind() == ErrorKind::DirectoryNotEmpty => Ok(()),
        removed => at(store.alloc(), SystemCall::RemoveDirectory, path, removed),
    }
}

// Removes a directory that a run made, unless it isn't empty or nothing is there. What its directory forbids to look up was
// never made: the run may have been killed before that directory had its permissions.
pub(crate) fn unmake_directory<S: Store>(
    store: &mut S,
    above: &mut Above,
    path: &str,
) -> Result<(), RunFault> {
    match store.find(path) {
        Err(error) if error.kind() == ErrorKind::PermissionDenied => Ok(()),
        _ => remove_directory(store, above, path),
    }
}

// Removes a file, unless nothing is there.
pub(crate) fn remove_file<S: Store>(
    store: &mut S,
    above: &mut Above,
    path: &str,
) -> Result<(), RunFault> {
    if find_to_remove(store, path)?.is_none() {
        return Ok(());
    }
    need_directories_above(store, above, path)?;
    let removed = store.remove_file(path);
    at(store.alloc(), SystemCall::RemoveFile, path, removed)
}

// The digest of the file at a path, or `None` if no regular file is there.
pub(crate) fn digest_at<S: Store>(
    store: &mut S,
    path: &str,
) -> Result<Option<TextDigest>, RunFault> {
    match find(store, path)? {
        Some(found) => digest_of_found(store, path, &found),
        None => Ok(None),
    }
}

// The digest of what was found at a path, or `None` if that is no regular file.
pub(crate) fn digest_of_found<S: Store>(
    store: &mut S,
    path: &str,
    found: &Found,
) -> Result<Option<TextDigest>, RunFault> {
    if found.kind != FoundKind::File {
        return Ok(None);
    }
    let read = store.read(path);
    let text = at(store.alloc(), SystemCall::Read, path, read)?;
    Ok(Some(TextDigest::of(text.as_slice())))
}

// Fails unless a page is the file from which its text was read.
pub(crate) fn need_page<S: Store>(
    store: &mut S,
    page: &str,
    file: &PageFile,
) -> Result<(), RunFault> {
    match find(store, page)? {
        Some(found) if found.kind == FoundKind::File && file.is(&found) => Ok(()),
        Some(_) => Err(RunFault::Changed(copy_of(store, page)?)),
        None => Err(RunFault::Missing(copy_of(store, page)?)),
    }
}

// Makes a file with at most these permissions, and notes which one it is. Returns what it is too.
pub(crate) fn create<S: Store>(
    store: &mut S,
    above: &mut Above,
    path: &str,
    mode: u32,
    run_file: &mut RunFile,
) -> Result<(S::NewFile, Found), RunFault> {
    need_directories_above(store, above, path)?;
    let created = store.create(path, mode);
    *run_file = match &created {
        Err(error) if error.kind() == ErrorKind::AlreadyExists => RunFile::None,
        _ => RunFile::Unknown,
    };
    let file = at(store.alloc(), SystemCall::Create, path, created)?;
    let found = store.find_new(&file);
    let found = at(store.alloc(), SystemCall::Ask, path, found)?;
    *run_file = RunFile::Inode(found.inode);
    Ok((file, found))
}

// A file or a directory that a run may have made.
#[derive(Clone, Copy, PartialEq, Eq)]
pub(crate) enum RunFile {
    // The run made none.
    None,
    // The run may have made one, and doesn't know which.
    Unknown,
    // The run made the one with this inode.
    Inode(u64),
}

impl RunFile {
    // Whether what is found is the file, if the run knows that.
    pub(crate) fn is(self, found: &Found) -> bool {
        found.kind == FoundKind::File && self == RunFile::Inode(found.inode)
    }

    // Whether what is found can be the directory.
    pub(crate) fn may_be_directory(self, found: &Found) -> bool {
        found.kind == FoundKind::Directory
            && (self == RunFile::Unknown || self == RunFile::Inode(found.inode))
    }
}

// The file of a new text.
#[derive(Clone, Copy)]
pub(crate) struct Written {
    // Which file it is.
    pub(crate) file: RunFile,
    // Whether the whole text was written to it.
    pub(crate) is_whole: bool,
}

impl Written {
    // No file.
    pub(crate) const NONE: Written = Written {
        file: RunFile::None,
        is_whole: false,
    };

    // A file that a killed run may have made.
    pub(crate) const UNKNOWN: Written = Written {
        file: RunFile::Unknown,
        is_whole: false,
    };
}

// A page's new text, and the file from which the old text was read.
#[derive(Drop)]
pub(crate) struct PageChange {
    // The new text.
    pub(crate) new: NewText,
    // The page's file.
    pub(crate) old: PageFile,
}

// Writes the new text of a page whole to a new file, and syncs it. Fails if the page isn't the file any more from which its
// text was read. The file gets the permissions that the page had when it was read, and its owner, if the system allows that.
// Only its owner can read it before it has its group. Notes which file it is, and when it is whole.
pub(crate) fn write_text<S: Store>(
    store: &mut S,
    above: &mut Above,
    change: &PageChange,
    written: &mut Written,
) -> Result<(), RunFault> {
    let PageChange { new, old } = change;
    need_page(store, new.page.as_str(), old)?;
    let path = new.file.as_str();
    let mode = old.mode & OWNER_PERMISSIONS;
    let (mut file, _) = create(store, above, path, mode, &mut written.file)?;
    write_whole(store, &mut file, path, new.text.as_bytes())?;
    written.is_whole = true;
    let mode = give_to_owner(store, &file, path, old)?;
    let set = store.set_mode(&file, mode);
    at(store.alloc(), SystemCall::SetPermissions, path, set)?;
    sync(store, &file, path)
}

// Writes a text to a new file.
pub(crate) fn write_whole<S: Store>(
    store: &mut S,
    file: &mut S::NewFile,
    path: &str,
    text: &[u8],
) -> Result<(), RunFault> {
    let written = store.write(file, text);
    at(store.alloc(), SystemCall::Write, path, written)
}

// Waits until a new file is on the disk.
pub(crate) fn sync<S: Store>(store: &mut S, file: &S::NewFile, path: &str) -> Result<(), RunFault> {
    let synced = store.sync(file);
    at(store.alloc(), SystemCall::Sync, path, synced)
}

// The permissions of a file's owner.
pub(crate) const OWNER_PERMISSIONS: u32 = 0o700;

// The permissions of everybody.
const ALL_PERMISSIONS: u32 = 0o777;

// Gives a new file to the owner and the group of the old one, if the system allows it. Returns the permissions that the
// new file may have.
fn give_to_owner<S: Store>(
    store: &mut S,
    file: &S::NewFile,
    path: &str,
    old: &PageFile,
) -> Result<u32, RunFault> {
    let found = store.find_new(file);
    let new = at(store.alloc(), SystemCall::Ask, path, found)?;
    if new.owner == old.owner && new.group == old.group {
        return Ok(old.mode);
    }
    // The system may not allow it: then the file has fewer permissions.
    let _ = store.set_owner(file, old.owner, old.group);
    let found = store.find_new(file);
    let new = at(store.alloc(), SystemCall::Ask, path, found)?;
    Ok(old.allowed_mode(&new))
}

// Waits until the names in a directory are on the disk. A directory that can't be opened, or whose file system can't
// wait, is left out. Nothing but a directory is opened: a FIFO would make the call wait.
pub(crate) fn sync_directory<S: Store>(store: &mut S, path: &str) -> Result<(), RunFault> {
    match store.find(path) {
        Ok(Some(found)) if found.kind == FoundKind::Directory => {}
        Ok(_) => return Ok(()),
        Err(error) if cannot_sync(error.kind()) => return Ok(()),
        Err(error) => return Err(fault_of(store.alloc(), SystemCall::Ask, path, &error)),
    }
    match store.sync_directory(path) {
        Err(error) if cannot_sync(error.kind()) => Ok(()),
        synced => at(store.alloc(), SystemCall::Sync, path, synced),
    }
}

// Whether an error says that a directory isn't there, can't be opened or can't be synced.
fn cannot_sync(kind: ErrorKind) -> bool {
    is_absence(kind)
        || matches!(
            kind,
            ErrorKind::PermissionDenied
                | ErrorKind::InvalidFilename
                | ErrorKind::InvalidInput
                | ErrorKind::Unsupported
        )
}
