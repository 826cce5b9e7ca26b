//! What a run needs of the files below a root, as a trait.
ghost use Rattle.std.specs.Prelude.{◌≡◌, ◌<◌, ◌==◌, ◌&&◌};
ghost use Rattle.relmove_store.specs.Permissions.{allowed_permissions, permissions};

use std::alloc::{AllocError, Global};
use std::io;
use std::time::SystemTime;

/// The user who may do everything, whatever a mode says.
pub const ROOT_USER: u32 = 0;

/// What kind of thing is at a path.
#[derive(Clone, Copy, Debug, PartialEq, Eq)]
pub enum FoundKind {
    /// A regular file.
    File,
    /// A directory.
    Directory,
    /// A symbolic link.
    Symlink,
    /// A FIFO, a socket or a device.
    Other,
}

/// What is at a path.
#[derive(Clone, Copy)]
pub struct Found {
    /// What kind of thing it is.
    pub kind: FoundKind,
    /// The number of its device.
    pub device: u64,
    /// Its number on the device. A copy of the thing has another one.
    pub inode: u64,
    /// How many names it has.
    pub names: u64,
    /// How many bytes a file has.
    pub length: u64,
    /// Its permissions: the lowest twelve bits of its mode.
    pub mode: u32,
    /// The user who owns it.
    pub owner: u32,
    /// The group that owns it.
    pub group: u32,
    /// When it was written last, if this is known.
    pub modified: Option<SystemTime>,
    /// When it was made, in nanoseconds since 1970, or 0 if this isn't known. No program can set it.
    pub made: u64,
}

impl Found {
    /// Whether this is the same thing as another one, maybe under another name.
    pub fn is_same(&self, other: &Found) -> bool
        // whether device and inode are equal
        ensures same { result ≡ (self.now.device == other.now.device && self.now.inode == other.now.inode) }
    {
        self.device == other.device && self.inode == other.inode
    }
}

/// The file of a page, as it was when its text was read.
#[derive(Clone, Copy, Debug, PartialEq, Eq)]
pub struct PageFile {
    /// The number of its device.
    pub device: u64,
    /// Its number on the device.
    pub inode: u64,
    /// Its permissions.
    pub mode: u32,
    /// The user who owned it.
    pub owner: u32,
    /// The group that owned it.
    pub group: u32,
}

impl PageFile {
    /// The file that was found.
    pub fn of(found: &Found) -> PageFile {
        PageFile {
            device: found.device,
            inode: found.inode,
            mode: found.mode,
            owner: found.owner,
            group: found.group,
        }
    }

    /// Whether what is found is this file.
    pub fn is(&self, found: &Found) -> bool
        // whether device and inode are equal
        ensures file { result ≡ (self.now.device == found.now.device && self.now.inode == found.now.inode) }
    {
        self.device == found.device && self.inode == found.inode
    }

    /// The permissions that a new file may have in the place of this one. Without the old owner it doesn't run as its owner
    /// or its group, and without the old group its group may do only what others may do.
    pub fn allowed_mode(&self, new: &Found) -> u32
        // with the old owner and group all, with the old group its rights, else to the group what others may do too
        ensures mode { result ≡ allowed_permissions self.now new.now }
    {
        if new.owner == self.owner && new.group == self.group {
            return self.mode;
        }
        let (owner, group, others) = (self.mode / 64 % 8, self.mode / 8 % 8, self.mode % 8);
        if new.group == self.group {
            return permissions(owner, group, others);
        }
        permissions(owner, group & others, others)
    }
}

// The permissions with these rights of owner, group and others.
fn permissions(owner: u32, group: u32, others: u32) -> u32
    requires owner { owner < 8 }
    requires group { group < 8 }
    requires others { others < 8 }
    ensures { result ≡ permissions owner group others }
{
    owner * 64 + group * 8 + others
}

/// The names in a directory.
#[derive(Debug, PartialEq, Eq, Drop)]
pub struct Names {
    /// The names that are UTF-8, in no order. `.` and `..` aren't among them.
    pub texts: Vec<String>,
    /// Whether there is a name that isn't UTF-8.
    pub has_other: bool,
}

/// The files below a root. A path is relative to the root. The empty path is the root itself, and `..` is above it.
///
/// A call that fails may have done what it is to do.
pub trait Store {
    /// A file that the store made, and that is still being written.
    type NewFile: Drop;

    /// What allocates.
    fn alloc(&self) -> Global;

    /// The path of the root, as it was given.
    fn root(&self) -> &str;

    /// What is at a path, or `None` if nothing is there. No symbolic link at the end of the path is followed.
    fn find(&mut self, path: &str) -> io::Result<Option<Found>>;

    /// What is at a path where symbolic links lead, also one at the end of the path, or `None` if nothing is there.
    fn follow(&mut self, path: &str) -> io::Result<Option<Found>>;

    /// The names in a directory.
    fn list(&mut self, path: &str) -> io::Result<Names>;

    /// The path that is written in a symbolic link, or `None` if it isn't UTF-8.
    fn read_symlink(&mut self, path: &str) -> io::Result<Option<String>>;

    /// The bytes of a regular file. Fails without opening it if something else is there.
    fn read(&mut self, path: &str) -> io::Result<Vec<u8>>;

    /// The first bytes of a regular file, at most so many. Fails without opening it if something else is there.
    fn read_start(&mut self, path: &str, most: u64) -> io::Result<Vec<u8>>;

    /// The bytes of a regular file, and which file was opened. Fails without opening it if something else is there.
    fn read_page(&mut self, path: &str) -> io::Result<(PageFile, Vec<u8>)>;

    /// Makes a file with at most these permissions where nothing is. Fails if something is there.
    fn create(&mut self, path: &str, mode: u32) -> io::Result<Self::NewFile>;

    /// What a new file is.
    fn find_new(&mut self, file: &Self::NewFile) -> io::Result<Found>;

    /// Adds bytes to a new file.
    fn write(&mut self, file: &mut Self::NewFile, bytes: &[u8]) -> io::Result<()>;

    /// Gives a new file to a user and a group.
    fn set_owner(&mut self, file: &Self::NewFile, owner: u32, group: u32) -> io::Result<()>;

    /// Gives a new file these permissions.
    fn set_mode(&mut self, file: &Self::NewFile, mode: u32) -> io::Result<()>;

    /// Waits until a new file is on the disk.
    fn sync(&mut self, file: &Self::NewFile) -> io::Result<()>;

    /// Waits until the names in a directory are on the disk.
    fn sync_directory(&mut self, path: &str) -> io::Result<()>;

    /// Renames a file or directory. A file at the new path is replaced.
    fn rename(&mut self, from: &str, to: &str) -> io::Result<()>;

    /// Gives a file a second name. Fails if something is there.
    fn hard_link(&mut self, from: &str, to: &str) -> io::Result<()>;

    /// Makes a directory with at most these permissions, whose owner may list it, change it and use its names. Fails if
    /// something is there.
    fn make_directory(&mut self, path: &str, mode: u32) -> io::Result<()>;

    /// Removes a file.
    fn remove_file(&mut self, path: &str) -> io::Result<()>;

    /// Removes a directory. Fails if something is in it.
    fn remove_directory(&mut self, path: &str) -> io::Result<()>;

    /// Takes the lock of the root, and returns `true`, or returns `false` if another process has it. The store holds the
    /// lock until the store is dropped.
    fn lock(&mut self) -> io::Result<bool>;

    /// Whether another process has the lock of the root. Where the system has no locks, none has it.
    fn is_locked(&mut self) -> io::Result<bool>;
}

/// A runtime whose files a run can reach.
pub trait Machine: AllocGlobal {
    /// The files below a root.
    type Store: Store + Drop;

    /// The files below the directory at a path. Allocates the path.
    fn store_at(&self, root: &str) -> Result<Self::Store, AllocError>;
}
