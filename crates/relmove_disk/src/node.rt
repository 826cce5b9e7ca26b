//! What a name leads to.
use std::io::{self, ErrorKind};

/// What is at a path.
#[derive(Debug, PartialEq, Eq, Drop)]
pub enum Content {
    /// A regular file with these bytes.
    File(Vec<u8>),
    /// A directory.
    Directory,
    /// A symbolic link, and the path in it.
    Symlink(String),
    /// A FIFO, a socket or a device.
    Other,
}

/// The permission to list a directory or to read a file.
pub(crate) const READ: u32 = 4;

/// The permission to change the names in a directory.
pub(crate) const WRITE: u32 = 2;

/// The permission to use the names in a directory.
pub(crate) const SEARCH: u32 = 1;

/// The user who may do everything.
pub(crate) const ROOT_USER: u32 = 0;

/// A user and a group.
#[derive(Clone, Copy, Debug, PartialEq, Eq)]
pub(crate) struct Owner {
    pub user: u32,
    pub group: u32,
}

/// What one name or several names lead to.
#[derive(Debug, Drop)]
pub(crate) struct Node {
    pub content: Content,
    pub mode: u32,
    pub owner: Owner,
    pub device: u64,
    /// How many bytes of a file come after those that it holds, and take no room on the disk.
    pub hole: u64,
    /// Whether all its bytes are on the disk. Of a directory: whether it was synced itself.
    pub is_synced: bool,
}

impl Node {
    /// Whether it is a directory.
    pub fn is_directory(&self) -> bool {
        matches!(&self.content, Content::Directory)
    }

    /// Whether it is a file with this text.
    pub fn is_file_of(&self, text: &str) -> bool {
        match &self.content {
            Content::File(bytes) => bytes.as_slice() == text.as_bytes(),
            _ => false,
        }
    }

    /// How many bytes it has, without its hole.
    pub fn length(&self) -> u64 {
        match &self.content {
            Content::File(bytes) => bytes.len() as u64,
            _ => 0,
        }
    }

    /// Fails unless a process of this owner has a permission here.
    pub fn need_permission(&self, process: Owner, permission: u32) -> io::Result<()> {
        if process.user == ROOT_USER {
            return Ok(());
        }
        let shift = if self.owner.user == process.user {
            6
        } else if self.owner.group == process.group {
            3
        } else {
            0
        };
        if (self.mode >> shift) & permission == permission {
            return Ok(());
        }
        Err(io::Error::from(ErrorKind::PermissionDenied))
    }
}
