//! What is on a disk: nodes, and the names that lead to them.
use crate::changes::{Change, Changes};
use crate::node::{Content, Node, Owner, READ, ROOT_USER, SEARCH, WRITE};
use relmove_journal::{directory_of, join, name_of};
use std::alloc::{AllocError, Global};
use std::io::{self, ErrorKind};

// The system takes no longer path, and no longer name.
const LONGEST_PATH: usize = 4095;

const LONGEST_NAME: usize = 255;

// The bit of a directory whose names only their owners change.
const STICKY: u32 = 0o1000;

// A path that has more names, with those of the symbolic links on its way, leads in a circle.
const MOST_NAMES: usize = 10_000;

// A name. Its path leads from the top of the disk, without symbolic links. The path of the top is empty.
#[derive(Debug, Drop)]
struct Name {
    path: String,
    node: usize,
}

/// What is on a disk. A node is named by its number, which no other node gets later. Its inode is one more.
#[derive(Drop)]
pub(crate) struct Nodes {
    alloc: Global,
    nodes: Vec<Node>,
    names: Vec<Name>,
    changes: Changes,
    // Who the process is that works on the disk.
    pub process: Owner,
    // Whether a name is found by one in another case.
    pub ignores_case: bool,
}

impl Nodes {
    /// A disk without a name. It has no top yet.
    pub fn new(alloc: Global) -> Nodes {
        Nodes {
            alloc,
            nodes: Vec::new(alloc),
            names: Vec::new(alloc),
            changes: Changes::new(alloc),
            process: Owner {
                user: 1000,
                group: 1000,
            },
            ignores_case: false,
        }
    }

    /// What a node is.
    pub fn node(&self, number: usize) -> io::Result<&Node> {
        self.nodes.get(number).ok_or_else(absence)
    }

    /// What a node is, to be changed.
    pub fn node_mut(&mut self, number: usize) -> io::Result<&mut Node> {
        self.nodes.get_mut(number).ok_or_else(absence)
    }

    /// The node to which a name leads.
    pub fn number_at(&self, path: &str) -> Option<usize> {
        let name = self
            .names
            .iter()
            .find(|name| self.is_name(name.path.as_str(), path))?;
        Some(name.node)
    }

    // Whether a path leads to a name.
    fn is_name(&self, name: &str, path: &str) -> bool {
        name == path || self.ignores_case && name.eq_ignore_ascii_case(path)
    }

    // The node to which a name has to lead.
    fn need_number(&self, path: &str) -> io::Result<usize> {
        self.number_at(path).ok_or_else(absence)
    }

    /// How many names a node has.
    pub fn hard_links(&self, number: usize) -> u64 {
        self.names.iter().filter(|name| name.node == number).count() as u64
    }

    /// How many bytes all files have.
    pub fn length(&self) -> u64 {
        let mut length = 0u64;
        for (number, node) in self.nodes.iter().enumerate() {
            if self.names.iter().any(|name| name.node == number) {
                length = length.saturating_add(node.length());
            }
        }
        length
    }

    /// The name at which a path ends, or at which it would: without symbolic links on its way, and also without the one
    /// at its end if `follows`. Fails if the way there isn't there.
    pub fn resolve(&self, path: &str, follows: bool) -> io::Result<String> {
        if path.len() > LONGEST_PATH {
            return Err(io::Error::from(ErrorKind::InvalidFilename));
        }
        let mut at = String::new(self.alloc);
        let mut left = Vec::new(self.alloc);
        self.push_names(&mut left, path)?;
        for _ in 0..MOST_NAMES {
            let Some(name) = left.pop() else {
                return Ok(at);
            };
            let next = self.step(at.as_str(), name.as_str())?;
            match self.symlink_at(next.as_str()) {
                Some(target) if follows || !left.is_empty() => {
                    if target.starts_with('/') {
                        at = String::new(self.alloc);
                    }
                    self.push_names(&mut left, target)?;
                }
                _ => at = next,
            }
        }
        Err(io::Error::from(ErrorKind::FilesystemLoop))
    }

    // Adds the names of a path, the last one first.
    fn push_names(&self, names: &mut Vec<String>, path: &str) -> Result<(), AllocError> {
        for name in path.rsplit('/') {
            if !name.is_empty() && name != "." {
                names.push(String::from_str(self.alloc, name)?)?;
            }
        }
        Ok(())
    }

    // The path of a name in a directory.
    fn step(&self, directory: &str, name: &str) -> io::Result<String> {
        let node = self.node(self.need_number(directory)?)?;
        if !node.is_directory() {
            return Err(io::Error::from(ErrorKind::NotADirectory));
        }
        node.need_permission(self.process, SEARCH)?;
        if name == ".." {
            return Ok(String::from_str(self.alloc, directory_of(directory))?);
        }
        if name.len() > LONGEST_NAME {
            return Err(io::Error::from(ErrorKind::InvalidFilename));
        }
        Ok(join(self.alloc, directory, name)?)
    }

    // The path in the symbolic link at a name, if one is there.
    fn symlink_at(&self, path: &str) -> Option<&str> {
        match &self.node(self.number_at(path)?).ok()?.content {
            Content::Symlink(target) => Some(target.as_str()),
            _ => None,
        }
    }

    /// The names in a directory.
    pub fn names_in(&self, directory: &str) -> io::Result<Vec<String>> {
        let node = self.node(self.need_number(directory)?)?;
        if !node.is_directory() {
            return Err(io::Error::from(ErrorKind::NotADirectory));
        }
        node.need_permission(self.process, READ)?;
        let mut names = Vec::new(self.alloc);
        for name in &self.names {
            if is_in(name.path.as_str(), directory) {
                names.push(String::from_str(self.alloc, name_of(name.path.as_str()))?)?;
            }
        }
        Ok(names)
    }

    /// The paths of all names.
    pub fn paths(&self) -> Result<Vec<&str>, AllocError> {
        let mut paths = Vec::with_capacity(self.alloc, self.names.len())?;
        for name in &self.names {
            paths.push(name.path.as_str())?;
        }
        Ok(paths)
    }

    /// Makes a node where nothing is, which belongs to the process. The change isn't on the disk yet.
    pub fn make(&mut self, path: &str, content: Content, mode: u32) -> io::Result<usize> {
        let directory = self.need_change(path)?;
        if self.number_at(path).is_some() {
            return Err(io::Error::from(ErrorKind::AlreadyExists));
        }
        let number = self.put(path, content, mode)?;
        self.note(
            Change::Made(String::from_str(self.alloc, path)?),
            &[directory],
        )?;
        Ok(number)
    }

    /// Makes a node where nothing is, and asks for nothing. The change is on the disk.
    pub fn put(&mut self, path: &str, content: Content, mode: u32) -> io::Result<usize> {
        let device = match self.number_at(directory_of(path)) {
            Some(directory) => self.node(directory)?.device,
            None => 1,
        };
        let number = self.nodes.len();
        let node = Node {
            content,
            mode,
            owner: self.process,
            device,
            hole: 0,
            is_synced: false,
        };
        if self.nodes.push(node).is_err() {
            return Err(io::Error::from(AllocError));
        }
        self.add_name(path, number)?;
        Ok(number)
    }

    /// Gives a file a second name.
    pub fn hard_link(&mut self, from: &str, to: &str) -> io::Result<()> {
        let directory = self.need_change(to)?;
        let number = self.need_number(from)?;
        if self.number_at(to).is_some() {
            return Err(io::Error::from(ErrorKind::AlreadyExists));
        }
        if self.node(number)?.is_directory() {
            return Err(io::Error::from(ErrorKind::PermissionDenied));
        }
        self.add_name(to, number)?;
        self.note(
            Change::Made(String::from_str(self.alloc, to)?),
            &[directory],
        )
    }

    /// Gives what is at a path and below it another path. A file there is replaced.
    pub fn rename(&mut self, from: &str, to: &str) -> io::Result<()> {
        let directories = [self.need_change(from)?, self.need_change(to)?];
        let number = self.need_number(from)?;
        self.need_owner(directories[0], number)?;
        let replaced = self.number_at(to);
        if let Some(replaced) = replaced {
            if replaced == number {
                return Ok(());
            }
            if self.node(replaced)?.is_directory() {
                return Err(io::Error::from(ErrorKind::DirectoryNotEmpty));
            }
            self.remove_name(to);
        }
        self.move_names(from, to)?;
        let (from, to) = (
            String::from_str(self.alloc, from)?,
            String::from_str(self.alloc, to)?,
        );
        self.note(Change::Renamed(from, to, replaced), &directories)
    }

    /// Removes a name of anything but a directory.
    pub fn remove_file(&mut self, path: &str) -> io::Result<()> {
        let directory = self.need_change(path)?;
        let number = self.need_number(path)?;
        if self.node(number)?.is_directory() {
            return Err(io::Error::from(ErrorKind::IsADirectory));
        }
        self.need_owner(directory, number)?;
        self.remove_name(path);
        let path = String::from_str(self.alloc, path)?;
        self.note(Change::Removed(path, number), &[directory])
    }

    /// Removes an empty directory.
    pub fn remove_directory(&mut self, path: &str) -> io::Result<()> {
        let directory = self.need_change(path)?;
        let number = self.need_number(path)?;
        if !self.node(number)?.is_directory() {
            return Err(io::Error::from(ErrorKind::NotADirectory));
        }
        if self.has_names_below(path) {
            return Err(io::Error::from(ErrorKind::DirectoryNotEmpty));
        }
        self.need_owner(directory, number)?;
        self.remove_name(path);
        let path = String::from_str(self.alloc, path)?;
        self.note(Change::Removed(path, number), &[directory])
    }

    /// Removes a name and all names below it, and asks for nothing. The change is on the disk.
    pub fn clear(&mut self, path: &str) {
        self.names
            .retain(|name| !is_at_or_below(name.path.as_str(), path));
    }

    /// Puts the changes of the names in a directory on the disk. A FIFO would make the call wait: here it fails.
    pub fn sync_directory(&mut self, path: &str) -> io::Result<()> {
        let number = self.need_number(path)?;
        let node = self.node(number)?;
        match &node.content {
            Content::Directory => {}
            Content::Other => return Err(io::Error::from(ErrorKind::TimedOut)),
            _ => return Err(io::Error::from(ErrorKind::NotADirectory)),
        }
        node.need_permission(self.process, READ)?;
        self.node_mut(number)?.is_synced = true;
        self.changes.sync(number);
        Ok(())
    }

    /// How many changes of names aren't on the disk yet.
    pub fn count_unsynced(&self) -> usize {
        self.changes.len()
    }

    /// Puts everything on the disk.
    pub fn sync_all(&mut self) {
        self.changes.clear();
        for node in self.nodes.iter_mut() {
            node.is_synced = true;
        }
    }

    /// Takes back the changes of names that aren't on the disk, but for the oldest ones of this number, and cuts the
    /// files whose bytes aren't there in half. A change on which one rests that is on the disk stays.
    pub fn lose_power(&mut self, kept: usize) -> io::Result<()> {
        let lost = self.changes.len().saturating_sub(kept);
        for _ in 0..lost {
            if let Some((change, _)) = self.changes.pop() {
                self.take_back(&change)?;
            }
        }
        for node in self.nodes.iter_mut() {
            if let Content::File(bytes) = &mut node.content
                && !node.is_synced
            {
                bytes.truncate(bytes.len() / 2);
            }
        }
        self.sync_all();
        Ok(())
    }

    /// Does what [`Nodes::lose_power`] does, but of a file whose rename is on the disk in its new directory alone, both
    /// names stay. Returns whether a file has both names.
    pub fn lose_power_and_keep_names(&mut self, kept: usize) -> io::Result<bool> {
        let mut has_both = false;
        let lost = self.changes.len().saturating_sub(kept);
        for _ in 0..lost {
            if let Some((change, half)) = self.changes.pop() {
                if self.keep_both_names(&change, half)? {
                    has_both = true;
                } else {
                    self.take_back(&change)?;
                }
            }
        }
        let left = self.changes.len();
        self.lose_power(left)?;
        Ok(has_both)
    }

    // Gives a file that was renamed its old name too, in the directory in which that name was, wherever that is now.
    fn keep_both_names(&mut self, change: &Change, half: Option<usize>) -> io::Result<bool> {
        let (Change::Renamed(from, to, None), Some(directory)) = (change, half) else {
            return Ok(false);
        };
        let (Some(number), Some(directory)) = (self.number_at(to.as_str()), self.path_of(directory))
        else {
            return Ok(false);
        };
        let path = join(self.alloc, directory, name_of(from.as_str()))?;
        if self.node(number)?.is_directory() || self.number_at(path.as_str()).is_some() {
            return Ok(false);
        }
        self.add_name(path.as_str(), number)?;
        Ok(true)
    }

    /// A path of a node.
    pub fn path_of(&self, number: usize) -> Option<&str> {
        let name = self.names.iter().find(|name| name.node == number)?;
        Some(name.path.as_str())
    }

    // Takes back a change of a name.
    fn take_back(&mut self, change: &Change) -> io::Result<()> {
        match change {
            Change::Made(path) => {
                if !self.has_names_below(path.as_str()) {
                    self.remove_name(path.as_str());
                }
                Ok(())
            }
            Change::Removed(path, number) => self.add_name_again(path.as_str(), *number),
            Change::Renamed(from, to, replaced) => {
                self.rename_back(from.as_str(), to.as_str(), *replaced)
            }
        }
    }

    // Takes back a rename.
    fn rename_back(&mut self, from: &str, to: &str, replaced: Option<usize>) -> io::Result<()> {
        if !self.is_free(from) || self.number_at(to).is_none() {
            return Ok(());
        }
        self.move_names(to, from)?;
        match replaced {
            Some(number) => self.add_name_again(to, number),
            None => Ok(()),
        }
    }

    // Adds a name that was removed, if there is a place for it.
    fn add_name_again(&mut self, path: &str, number: usize) -> io::Result<()> {
        if self.is_free(path) {
            self.add_name(path, number)?;
        }
        Ok(())
    }

    // Whether nothing is at a path, and something could be.
    fn is_free(&self, path: &str) -> bool {
        self.number_at(path).is_none() && self.number_at(directory_of(path)).is_some()
    }

    // The directory of a path. Fails unless the process can change the names in it.
    fn need_change(&self, path: &str) -> io::Result<usize> {
        if path.is_empty() {
            return Err(io::Error::from(ErrorKind::InvalidInput));
        }
        let number = self.need_number(directory_of(path))?;
        let node = self.node(number)?;
        if !node.is_directory() {
            return Err(io::Error::from(ErrorKind::NotADirectory));
        }
        node.need_permission(self.process, WRITE | SEARCH)?;
        Ok(number)
    }

    // Fails if a directory is sticky, and the process owns neither it nor what is to leave it.
    fn need_owner(&self, directory: usize, number: usize) -> io::Result<()> {
        let (directory, node) = (self.node(directory)?, self.node(number)?);
        let user = self.process.user;
        let is_owner = directory.owner.user == user || node.owner.user == user;
        if directory.mode & STICKY == 0 || is_owner || user == ROOT_USER {
            return Ok(());
        }
        Err(io::Error::from(ErrorKind::PermissionDenied))
    }

    // Notes a change of names in these directories.
    fn note(&mut self, change: Change, directories: &[usize]) -> io::Result<()> {
        let directories = Vec::from_slice(self.alloc, directories)?;
        self.changes.add(change, directories)
    }

    // Adds a name.
    fn add_name(&mut self, path: &str, node: usize) -> io::Result<()> {
        let path = String::from_str(self.alloc, path)?;
        match self.names.push(Name { path, node }) {
            Ok(()) => Ok(()),
            Err(_) => Err(io::Error::from(AllocError)),
        }
    }

    // Removes a name.
    fn remove_name(&mut self, path: &str) {
        self.names.retain(|name| name.path.as_str() != path);
    }

    // Gives a name and all names below it other paths.
    fn move_names(&mut self, from: &str, to: &str) -> Result<(), AllocError> {
        for name in self.names.iter_mut() {
            if is_at_or_below(name.path.as_str(), from)
                && let Some(rest) = name.path.as_str().strip_prefix(from)
            {
                let mut moved = String::from_str(self.alloc, to)?;
                moved.push_str(rest)?;
                name.path = moved;
            }
        }
        Ok(())
    }

    // Whether a directory has something in it.
    fn has_names_below(&self, path: &str) -> bool {
        self.names
            .iter()
            .any(|name| is_in(name.path.as_str(), path))
    }
}

// The error that nothing is there.
fn absence() -> io::Error {
    io::Error::from(ErrorKind::NotFound)
}

// Whether a path is directly in a directory.
fn is_in(path: &str, directory: &str) -> bool {
    !path.is_empty() && directory_of(path) == directory
}

// Whether a path is another one, or below it.
fn is_at_or_below(path: &str, other: &str) -> bool {
    match path.strip_prefix(other) {
        Some(rest) => rest.is_empty() || rest.starts_with('/'),
        None => false,
    }
}
