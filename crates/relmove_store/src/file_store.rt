//! The files of the system below a root.
//!
//! Nothing is proved of what they hold. This module is thin: each call is a call of the system or two.
ghost use Rattle.std.specs.Prelude.{◌≡◌, ◌↔◌, ◌⊎◌, IsTrue};
ghost use Rattle.std.specs.declared.io.ErrorKind.TheVariants.{NotADirectory, NotFound};

use crate::store::{Found, FoundKind, Machine, Names, PageFile, Store};
use relmove_journal::join;
use std::alloc::{AllocError, Global};
use std::fs::{
    self, DirBuilder, File, FileType, Metadata, OpenFile, OpenOptions, Permissions, TryLockError,
};
use std::io::{self, ErrorKind, Read, Write};
use std::os::fd::AsFd;
use std::os::unix::fs::{DirBuilderExt, MetadataExt, OpenOptionsExt, PermissionsExt, fchown};
use std::thread;
use std::time::{Duration, SystemTime};

// The bits of a mode that are permissions.
const PERMISSIONS: u32 = 0o7777;

// What the owner of a directory that a run made may do there, whatever the process takes from new files.
const OWNER_PERMISSIONS: u32 = 0o700;

/// The files of the system below a root.
#[derive(Drop)]
pub struct FileStore {
    runtime: HostRuntime,
    root: String,
    lock: Option<File>,
}

impl FileStore {
    /// The files below the directory at a path. Allocates the path.
    pub fn new(runtime: HostRuntime, root: &str) -> Result<FileStore, AllocError> {
        Ok(FileStore {
            runtime,
            root: String::from_str(runtime.alloc(), root)?,
            lock: None,
        })
    }

    // Opens the root for reading.
    fn open_root(&self) -> io::Result<File> {
        let path = self.full("")?;
        if !fs::metadata(&self.runtime, path.as_str())?.is_dir() {
            return Err(io::Error::from(ErrorKind::NotADirectory));
        }
        fs::open(&self.runtime, path.as_str())
    }

    // The path of a file below the root, as the system takes it.
    fn full(&self, path: &str) -> Result<String, AllocError> {
        join(self.runtime.alloc(), self.root.as_str(), path)
    }
}

impl Store for FileStore {
    type NewFile = File;

    fn alloc(&self) -> Global {
        self.runtime.alloc()
    }

    fn root(&self) -> &str {
        self.root.as_str()
    }

    fn find(&mut self, path: &str) -> io::Result<Option<Found>> {
        // The root itself may be a symbolic link.
        let path = if path.is_empty() { "." } else { path };
        match fs::symlink_metadata(&self.runtime, self.full(path)?.as_str()) {
            Ok(metadata) => Ok(Some(found_of(&metadata))),
            Err(error) if is_absence(error.kind()) => Ok(None),
            Err(error) => Err(error),
        }
    }

    fn follow(&mut self, path: &str) -> io::Result<Option<Found>> {
        match fs::metadata(&self.runtime, self.full(path)?.as_str()) {
            Ok(metadata) => Ok(Some(found_of(&metadata))),
            Err(error) if is_absence(error.kind()) => Ok(None),
            Err(error) => Err(error),
        }
    }

    fn list(&mut self, path: &str) -> io::Result<Names> {
        let mut names = Names {
            texts: Vec::new(self.runtime.alloc()),
            has_other: false,
        };
        for entry in fs::read_dir(&self.runtime, self.full(path)?.as_str())? {
            match entry {
                Ok(entry) => {
                    let name = String::from_str(self.runtime.alloc(), entry.file_name())?;
                    names.texts.push(name)?;
                }
                Err(error) if error.kind() == ErrorKind::InvalidFilename => names.has_other = true,
                Err(error) => return Err(error),
            }
        }
        Ok(names)
    }

    fn read_symlink(&mut self, path: &str) -> io::Result<Option<String>> {
        match fs::read_link(&self.runtime, self.full(path)?.as_str()) {
            Ok(target) => Ok(Some(String::from_str(self.runtime.alloc(), target.as_str())?)),
            Err(error) if error.kind() == ErrorKind::InvalidFilename => Ok(None),
            Err(error) => Err(error),
        }
    }

    fn read(&mut self, path: &str) -> io::Result<Vec<u8>> {
        let (_, bytes) = self.read_page(path)?;
        Ok(bytes)
    }

    fn read_start(&mut self, path: &str, most: u64) -> io::Result<Vec<u8>> {
        let (_, bytes) = read_regular(&self.runtime, self.full(path)?.as_str(), most)?;
        Ok(bytes)
    }

    fn read_page(&mut self, path: &str) -> io::Result<(PageFile, Vec<u8>)> {
        read_regular(&self.runtime, self.full(path)?.as_str(), u64::MAX)
    }

    fn create(&mut self, path: &str, mode: u32) -> io::Result<File> {
        let mut options = OpenOptions::new();
        options.write(true).create_new(true).mode(mode);
        options.open(&self.runtime, self.full(path)?.as_str())
    }

    fn find_new(&mut self, file: &File) -> io::Result<Found> {
        Ok(found_of(&file.metadata()?))
    }

    fn write(&mut self, file: &mut File, bytes: &[u8]) -> io::Result<()> {
        file.write_all(bytes)
    }

    fn set_owner(&mut self, file: &File, owner: u32, group: u32) -> io::Result<()> {
        fchown(file.as_fd(), Some(owner), Some(group))
    }

    fn set_mode(&mut self, file: &File, mode: u32) -> io::Result<()> {
        file.set_permissions(Permissions::from_mode(mode))
    }

    fn sync(&mut self, file: &File) -> io::Result<()> {
        file.sync_all()
    }

    fn sync_directory(&mut self, path: &str) -> io::Result<()> {
        fs::open(&self.runtime, self.full(path)?.as_str())?.sync_all()
    }

    fn rename(&mut self, from: &str, to: &str) -> io::Result<()> {
        let (from, to) = (self.full(from)?, self.full(to)?);
        fs::rename(&self.runtime, from.as_str(), to.as_str())
    }

    fn hard_link(&mut self, from: &str, to: &str) -> io::Result<()> {
        let (from, to) = (self.full(from)?, self.full(to)?);
        fs::hard_link(&self.runtime, from.as_str(), to.as_str())
    }

    fn make_directory(&mut self, path: &str, mode: u32) -> io::Result<()> {
        let path = self.full(path)?;
        let mut builder = DirBuilder::new();
        builder.mode(mode);
        builder.create(&self.runtime, path.as_str())?;
        let mode = fs::symlink_metadata(&self.runtime, path.as_str())?.mode() & PERMISSIONS;
        if mode & OWNER_PERMISSIONS == OWNER_PERMISSIONS {
            return Ok(());
        }
        let permissions = Permissions::from_mode(mode | OWNER_PERMISSIONS);
        fs::set_permissions(&self.runtime, path.as_str(), permissions)
    }

    fn remove_file(&mut self, path: &str) -> io::Result<()> {
        fs::remove_file(&self.runtime, self.full(path)?.as_str())
    }

    fn remove_directory(&mut self, path: &str) -> io::Result<()> {
        fs::remove_dir(&self.runtime, self.full(path)?.as_str())
    }

    fn lock(&mut self) -> io::Result<bool> {
        let root = self.open_root()?;
        for _ in 0..MOST_TRIES {
            match root.try_lock() {
                Ok(()) => {
                    self.lock = Some(root);
                    return Ok(true);
                }
                Err(TryLockError::WouldBlock) if is_locked(&root)? => return Ok(false),
                Err(TryLockError::WouldBlock) => {
                    thread::sleep(&self.runtime, Duration::from_millis(PAUSE))
                }
                Err(TryLockError::Error(error)) => return Err(error),
            }
        }
        Ok(false)
    }

    fn is_locked(&mut self) -> io::Result<bool> {
        let root = self.open_root()?;
        // Where the system has no locks, nobody has one.
        Ok(is_locked(&root).unwrap_or(false))
    }
}

// How often a call tries to lock the root while another call asks whether it is locked.
const MOST_TRIES: u32 = 1000;

// How many milliseconds it waits before it tries again.
const PAUSE: u64 = 1;

// Whether another process has the lock of a root, and doesn't only ask for it. Takes a lock that others may have too, and
// gives it back.
fn is_locked(root: &File) -> io::Result<bool> {
    match root.try_lock_shared() {
        Ok(()) => {
            root.unlock()?;
            Ok(false)
        }
        Err(TryLockError::WouldBlock) => Ok(true),
        Err(TryLockError::Error(error)) => Err(error),
    }
}

impl Machine for HostRuntime {
    type Store = FileStore;

    fn store_at(&self, root: &str) -> Result<FileStore, AllocError> {
        FileStore::new(*self, root)
    }
}

// Reads at most so many bytes of a regular file, and says which one that is. Whatever else is there isn't opened. If something
// else comes there before the file is opened, the call fails after it opened that; the call may wait then, if that is a FIFO.
fn read_regular(runtime: &HostRuntime, path: &str, most: u64) -> io::Result<(PageFile, Vec<u8>)> {
    need_file(fs::symlink_metadata(runtime, path)?.file_type())?;
    let file = fs::open(runtime, path)?;
    let metadata = file.metadata()?;
    need_file(metadata.file_type())?;
    // One byte more than the file has, as far as is known: with no room left a read would make some to see the end.
    let length = usize::try_from(most.min(metadata.len())).unwrap_or(0);
    let mut bytes = Vec::with_capacity(runtime.alloc(), length.saturating_add(1))?;
    file.take(most).read_to_end(&mut bytes)?;
    Ok((PageFile::of(&found_of(&metadata)), bytes))
}

// Fails unless this is a regular file's kind.
fn need_file(kind: FileType) -> io::Result<()> {
    if kind.is_file() {
        return Ok(());
    }
    Err(io::Error::new(ErrorKind::InvalidInput, "not a regular file"))
}

// What metadata say.
fn found_of(metadata: &Metadata) -> Found {
    Found {
        kind: kind_of(metadata.file_type()),
        device: metadata.dev(),
        inode: metadata.ino(),
        names: metadata.nlink(),
        length: metadata.len(),
        mode: metadata.mode() & PERMISSIONS,
        owner: metadata.uid(),
        group: metadata.gid(),
        modified: metadata.modified().ok(),
        made: match metadata.created() {
            Ok(time) => nanoseconds_of(time),
            Err(_) => 0,
        },
    }
}

// The nanoseconds since 1970 at a time, or 0 if there aren't so many.
fn nanoseconds_of(time: SystemTime) -> u64 {
    match time.duration_since(SystemTime::UNIX_EPOCH) {
        Ok(duration) => u64::try_from(duration.as_nanos()).unwrap_or(0),
        Err(_) => 0,
    }
}

// What kind of thing a type of file is.
fn kind_of(kind: FileType) -> FoundKind {
    if kind.is_file() {
        FoundKind::File
    } else if kind.is_dir() {
        FoundKind::Directory
    } else if kind.is_symlink() {
        FoundKind::Symlink
    } else {
        FoundKind::Other
    }
}

/// Whether an error says that nothing is at a path.
pub fn is_absence(kind: ErrorKind) -> bool
    // whether it is `NotFound` or `NotADirectory`
    ensures absence { IsTrue result ↔ ((kind ≡ NotFound) ⊎ (kind ≡ NotADirectory)) }
{
    match kind {
        ErrorKind::NotFound => true,
        ErrorKind::NotADirectory => true,
        _ => false,
    }
}
