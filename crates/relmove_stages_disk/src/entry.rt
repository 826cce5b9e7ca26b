//! A path, and what is there.
ghost use Rattle.std.specs.Prelude.{◌≡◌, ◌≢◌, ◌↔◌, IfOk, IsSome, IsTrue, List, None, Some, false, ℕ};
ghost use Rattle.relmove_trees.specs.FileTrees.{Directory, File};
ghost use Rattle.relmove_stages.specs.StageActions.{IsPart, IsText};
ghost use Rattle.relmove_stages_disk.specs.Entries.{item_of, node_at, node_of};

use relative_path::RelativePathBuf;
use relmove_journal::TextDigest;
use std::alloc::{AllocError, Global};

/// What is at a path.
#[derive(Debug, PartialEq, Eq, Drop)]
pub enum Node {
    /// A directory.
    Directory,
    /// A file with its bytes.
    File(Vec<u8>),
    /// A symbolic link with its text.
    Symlink(String),
}

/// A path, and what is there.
#[derive(Debug, PartialEq, Eq, Drop)]
pub struct Entry {
    /// The path. That of the root is empty.
    pub path: RelativePathBuf,
    /// What is there.
    pub node: Node,
}

impl Node {
    // Copies the node.
    pub(crate) fn copy(&self, alloc: Global) -> Result<Node, AllocError>
        ensures { IfOk result (λ copy. node_of copy ≡ node_of self.now) }
    {
        match self {
            Node::Directory => Ok(Node::Directory),
            Node::File(bytes) => Ok(Node::File(bytes.to_vec(alloc)?)),
            Node::Symlink(text) => Ok(Node::Symlink(String::from_str(alloc, text.as_str())?)),
        }
    }
}

impl Entry {
    // Copies the entry.
    pub(crate) fn copy(&self, alloc: Global) -> Result<Entry, AllocError>
        ensures { IfOk result (λ copy. item_of copy ≡ item_of self.now) }
    {
        Ok(Entry {
            path: RelativePathBuf::from_text(alloc, self.path.as_relative_path().as_str())?,
            node: self.node.copy(alloc)?,
        })
    }
}

// Returns whether there is no node.
pub(crate) fn is_nothing(node: Option<&Node>) -> bool
    ensures nothing { IsTrue result → node_at node.entry ≡ None }
    ensures something { result ≡ false → IsSome (node_at node.entry) }
{
    match node {
        None => true,
        Some(_) => false,
    }
}

// Returns whether a node is a directory.
pub(crate) fn is_directory(node: Option<&Node>) -> bool
    ensures yes { IsTrue result → node_at node.entry ≡ Some Directory }
    ensures no { result ≡ false → node_at node.entry ≢ Some Directory }
{
    match node {
        None => false,
        Some(node) => match node {
            Node::Directory => true,
            Node::File(_) => false,
            Node::Symlink(_) => false,
        },
    }
}

// Returns whether the bytes have the digest.
pub(crate) fn is_text(bytes: &[u8], digest: &TextDigest) -> bool
    ensures { IsTrue result ↔ IsText digest.now bytes.now }
{
    TextDigest::of(bytes) == *digest
}

// Returns whether a node is a file with the text of the digest.
pub(crate) fn has_text(node: Option<&Node>, digest: &TextDigest) -> bool
    ensures yes { IsTrue result → (bytes : List ℕ) × (node_at node.entry ≡ Some (File bytes)) × IsText digest.now bytes }
    ensures no { result ≡ false → (bytes : List ℕ) → node_at node.entry ≡ Some (File bytes) → ¬ IsText digest.now bytes }
{
    match node {
        None => false,
        Some(node) => match node {
            Node::Directory => false,
            Node::File(bytes) => is_text(bytes, digest),
            Node::Symlink(_) => false,
        },
    }
}

// Returns whether a node is a file that is shorter than the text of the digest, or has that text.
pub(crate) fn has_part(node: Option<&Node>, digest: &TextDigest) -> bool
    ensures yes { IsTrue result → (bytes : List ℕ) × (node_at node.entry ≡ Some (File bytes)) × IsPart digest.now bytes }
    ensures no { result ≡ false → (bytes : List ℕ) → node_at node.entry ≡ Some (File bytes) → ¬ IsPart digest.now bytes }
{
    match node {
        None => false,
        Some(node) => match node {
            Node::Directory => false,
            Node::File(bytes) => (bytes.len() as u64) < digest.length || is_text(bytes, digest),
            Node::Symlink(_) => false,
        },
    }
}
