//! A disk as the files of a run.
use crate::calls::Turn;
use crate::disk::Disk;
use crate::machine::DiskMachine;
use crate::node::{Content, Node, Owner, READ};
use relmove_journal::join;
use relmove_store::{Found, FoundKind, Machine, Names, PageFile, Store, is_absence};
use std::alloc::{AllocError, Global};
use std::io::{self, ErrorKind};
use std::time::{Duration, SystemTime};

// More bytes than a path has.
const LONGEST_PATH: u64 = 4096;

// What the owner of a directory may do there.
const OWNER_PERMISSIONS: u32 = 0o700;

// A name, or a path in a symbolic link, that stands for one that isn't UTF-8.
const NOT_UTF_8: &str = "NOT-UTF-8";

// When the top of a disk was made, in nanoseconds since 1970. Each later node was made a nanosecond after the one before.
const MADE: u64 = 1_000_000_000_000_000_000;

// When everything on a disk was written, in seconds since 1970.
const WRITTEN: u64 = 1_000_000_000;

/// The files below a root on a disk.
pub struct DiskStore<'a> {
    disk: &'a Disk,
    root: String,
    // Whether this store has the lock.
    has_lock: bool,
}

impl Drop for DiskStore<'_> {
    fn drop(self) {
        let DiskStore {
            disk,
            root: _root,
            has_lock,
        } = self;
        if has_lock {
            disk.is_locked.set(false);
        }
    }
}

/// A file that a run made.
#[derive(Clone, Copy)]
pub struct NewDiskFile(usize);

impl<'a> DiskStore<'a> {
    /// The files below a root.
    pub fn new(disk: &'a Disk, root: &str) -> Result<DiskStore<'a>, AllocError> {
        Ok(DiskStore {
            disk,
            root: String::from_str(disk.alloc, root)?,
            has_lock: false,
        })
    }

    /// What is at a path, as another process sees it that nothing refuses.
    pub fn see(&self, path: &str) -> io::Result<Option<Found>> {
        self.found_at(path, false)
    }

    // The name at a path below the root. The root itself may be a symbolic link.
    fn resolve(&self, path: &str) -> io::Result<String> {
        self.resolve_to(path, path.is_empty())
    }

    // The name at a path below the root, also without the symbolic link at its end if `follows`.
    fn resolve_to(&self, path: &str, follows: bool) -> io::Result<String> {
        let full = join(self.disk.alloc, self.root.as_str(), path)?;
        let nodes = self.disk.nodes.try_borrow()?;
        nodes.resolve(full.as_str(), follows)
    }

    // What is at a path, also where the symbolic link at its end leads if `follows`.
    fn found_at(&self, path: &str, follows: bool) -> io::Result<Option<Found>> {
        let path = match self.resolve_to(path, follows) {
            Ok(path) => path,
            Err(error) if is_absence(error.kind()) => return Ok(None),
            Err(error) => return Err(error),
        };
        self.disk.note_question(path.as_str())?;
        let number = self.disk.nodes.try_borrow()?.number_at(path.as_str());
        match number {
            Some(number) => Ok(Some(self.found_of(number, path.as_str())?)),
            None => Ok(None),
        }
    }

    // The inode of a node under a name.
    fn inode_of(&self, number: usize, path: &str) -> u64 {
        if self.disk.has_one_inode.get() {
            return 1;
        }
        let inode = (number as u64).saturating_add(1);
        if self.disk.has_inode_for_each_path.get() {
            return inode
                .saturating_mul(LONGEST_PATH)
                .saturating_add(path.len() as u64);
        }
        inode
    }

    // What a node is under a name.
    fn found_of(&self, number: usize, path: &str) -> io::Result<Found> {
        let nodes = self.disk.nodes.try_borrow()?;
        let node = nodes.node(number)?;
        Ok(Found {
            kind: kind_of(node),
            device: node.device,
            inode: self.inode_of(number, path),
            names: nodes.hard_links(number),
            length: node.length().saturating_add(node.hole),
            mode: node.mode,
            owner: node.owner.user,
            group: node.owner.group,
            modified: SystemTime::UNIX_EPOCH.checked_add(Duration::from_secs(WRITTEN)),
            made: MADE.saturating_add(number as u64),
        })
    }

    // Reads at most so many bytes of a file.
    fn read_of(&self, path: &str, most: u64) -> io::Result<(PageFile, Vec<u8>)> {
        let turn = self.disk.turn()?;
        turn.end()?;
        let path = self.resolve(path)?;
        let nodes = self.disk.nodes.try_borrow()?;
        let Some(number) = nodes.number_at(path.as_str()) else {
            return Err(io::Error::from(ErrorKind::NotFound));
        };
        let node = nodes.node(number)?;
        match &node.content {
            Content::File(bytes) if node.hole > 0 && most > bytes.len() as u64 => {
                Err(io::Error::from(ErrorKind::OutOfMemory))
            }
            Content::File(bytes) => {
                node.need_permission(nodes.process, READ)?;
                let start = bytes.get(..most as usize).unwrap_or(bytes.as_slice());
                let bytes = Vec::from_slice(self.disk.alloc, start)?;
                let found = self.found_of(number, path.as_str())?;
                Ok((PageFile::of(&found), bytes))
            }
            _ => Err(io::Error::from(ErrorKind::InvalidInput)),
        }
    }
}

// What kind of thing a node is.
fn kind_of(node: &Node) -> FoundKind {
    match &node.content {
        Content::File(_) => FoundKind::File,
        Content::Directory => FoundKind::Directory,
        Content::Symlink(_) => FoundKind::Symlink,
        Content::Other => FoundKind::Other,
    }
}

// Returns the names in a directory, without the one that stands for a name that isn't UTF-8.
fn names_of(mut texts: Vec<String>) -> Names {
    let count = texts.len();
    texts.retain(|name| name.as_str() != NOT_UTF_8);
    Names {
        has_other: texts.len() < count,
        texts,
    }
}

impl Store for DiskStore<'_> {
    type NewFile = NewDiskFile;

    fn alloc(&self) -> Global {
        self.disk.alloc
    }

    fn root(&self) -> &str {
        self.root.as_str()
    }

    fn find(&mut self, path: &str) -> io::Result<Option<Found>> {
        let turn = self.disk.turn()?;
        if turn == Turn::Hides {
            return Ok(None);
        }
        turn.end()?;
        self.found_at(path, path.is_empty())
    }

    fn follow(&mut self, path: &str) -> io::Result<Option<Found>> {
        let turn = self.disk.turn()?;
        turn.end()?;
        self.found_at(path, true)
    }

    fn list(&mut self, path: &str) -> io::Result<Names> {
        let turn = self.disk.turn()?;
        turn.end()?;
        let path = self.resolve(path)?;
        let nodes = self.disk.nodes.try_borrow()?;
        Ok(names_of(nodes.names_in(path.as_str())?))
    }

    fn read_symlink(&mut self, path: &str) -> io::Result<Option<String>> {
        let turn = self.disk.turn()?;
        turn.end()?;
        let path = self.resolve(path)?;
        let nodes = self.disk.nodes.try_borrow()?;
        let Some(number) = nodes.number_at(path.as_str()) else {
            return Err(io::Error::from(ErrorKind::NotFound));
        };
        match &nodes.node(number)?.content {
            Content::Symlink(target) if target.as_str() == NOT_UTF_8 => Ok(None),
            Content::Symlink(target) => {
                Ok(Some(String::from_str(self.disk.alloc, target.as_str())?))
            }
            _ => Err(io::Error::from(ErrorKind::InvalidInput)),
        }
    }

    fn read(&mut self, path: &str) -> io::Result<Vec<u8>> {
        let (_, bytes) = self.read_page(path)?;
        Ok(bytes)
    }

    fn read_start(&mut self, path: &str, most: u64) -> io::Result<Vec<u8>> {
        let (_, bytes) = self.read_of(path, most)?;
        Ok(bytes)
    }

    fn read_page(&mut self, path: &str) -> io::Result<(PageFile, Vec<u8>)> {
        self.read_of(path, u64::MAX)
    }

    fn create(&mut self, path: &str, mode: u32) -> io::Result<NewDiskFile> {
        let turn = self.disk.turn()?;
        let path = self.resolve(path)?;
        let number = self.disk.make_file(path.as_str(), mode)?;
        turn.end()?;
        Ok(NewDiskFile(number))
    }

    fn find_new(&mut self, file: &NewDiskFile) -> io::Result<Found> {
        let turn = self.disk.turn()?;
        turn.end()?;
        let path = match self.disk.nodes.try_borrow()?.path_of(file.0) {
            Some(path) => String::from_str(self.disk.alloc, path)?,
            None => String::new(self.disk.alloc),
        };
        self.found_of(file.0, path.as_str())
    }

    fn write(&mut self, file: &mut NewDiskFile, bytes: &[u8]) -> io::Result<()> {
        for part in bytes.chunks(self.disk.most_written.get().max(1)) {
            let turn = self.disk.turn()?;
            self.disk.append(file.0, part)?;
            turn.end()?;
        }
        Ok(())
    }

    fn set_owner(&mut self, file: &NewDiskFile, owner: u32, group: u32) -> io::Result<()> {
        let turn = self.disk.turn()?;
        if !self.disk.gives_away.get() {
            return Err(io::Error::from(ErrorKind::PermissionDenied));
        }
        let mut nodes = self.disk.nodes.try_borrow_mut()?;
        let node = nodes.node_mut(file.0)?;
        node.owner = Owner { user: owner, group };
        node.mode &= 0o777;
        turn.end()
    }

    fn set_mode(&mut self, file: &NewDiskFile, mode: u32) -> io::Result<()> {
        let turn = self.disk.turn()?;
        self.disk.nodes.try_borrow_mut()?.node_mut(file.0)?.mode = mode;
        turn.end()
    }

    fn sync(&mut self, file: &NewDiskFile) -> io::Result<()> {
        let turn = self.disk.turn()?;
        self.disk
            .nodes
            .try_borrow_mut()?
            .node_mut(file.0)?
            .is_synced = true;
        turn.end()
    }

    fn sync_directory(&mut self, path: &str) -> io::Result<()> {
        let turn = self.disk.turn()?;
        if let Some(why) = self.disk.no_syncs.get() {
            return Err(io::Error::from(why));
        }
        let path = self.resolve(path)?;
        self.disk
            .nodes
            .try_borrow_mut()?
            .sync_directory(path.as_str())?;
        turn.end()
    }

    fn rename(&mut self, from: &str, to: &str) -> io::Result<()> {
        let turn = self.disk.turn()?;
        let (from, to) = (self.resolve(from)?, self.resolve(to)?);
        self.disk
            .nodes
            .try_borrow_mut()?
            .rename(from.as_str(), to.as_str())?;
        turn.end()
    }

    fn hard_link(&mut self, from: &str, to: &str) -> io::Result<()> {
        let turn = self.disk.turn()?;
        if let Some(why) = self.disk.no_hard_links.get() {
            return Err(io::Error::from(why));
        }
        let (from, to) = (self.resolve(from)?, self.resolve(to)?);
        self.disk
            .nodes
            .try_borrow_mut()?
            .hard_link(from.as_str(), to.as_str())?;
        turn.end()
    }

    fn make_directory(&mut self, path: &str, mode: u32) -> io::Result<()> {
        let turn = self.disk.turn()?;
        let path = self.resolve(path)?;
        let (number, mode) = self.disk.make_directory(path.as_str(), mode)?;
        turn.end()?;
        if mode & OWNER_PERMISSIONS == OWNER_PERMISSIONS {
            return Ok(());
        }
        let turn = self.disk.turn()?;
        self.disk.nodes.try_borrow_mut()?.node_mut(number)?.mode = mode | OWNER_PERMISSIONS;
        turn.end()
    }

    fn remove_file(&mut self, path: &str) -> io::Result<()> {
        let turn = self.disk.turn()?;
        let path = self.resolve(path)?;
        self.disk
            .nodes
            .try_borrow_mut()?
            .remove_file(path.as_str())?;
        turn.end()
    }

    fn remove_directory(&mut self, path: &str) -> io::Result<()> {
        let turn = self.disk.turn()?;
        let path = self.resolve(path)?;
        self.disk
            .nodes
            .try_borrow_mut()?
            .remove_directory(path.as_str())?;
        turn.end()
    }

    fn lock(&mut self) -> io::Result<bool> {
        let turn = self.disk.turn()?;
        let is_taken = !self.disk.is_locked.get();
        if is_taken {
            self.disk.is_locked.set(true);
            self.has_lock = true;
        }
        turn.end()?;
        Ok(is_taken)
    }

    fn is_locked(&mut self) -> io::Result<bool> {
        let turn = self.disk.turn()?;
        turn.end()?;
        Ok(self.disk.is_locked.get())
    }
}

impl<'a> Machine for DiskMachine<'a> {
    type Store = DiskStore<'a>;

    fn store_at(&self, root: &str) -> Result<DiskStore<'a>, AllocError> {
        DiskStore::new(self.0, root)
    }
}
