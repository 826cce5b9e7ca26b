//! A small tree with moves in it, and what it is before and after them, by hand.
//!
//! `a` and `b` swap, `c` becomes `d` and `d` becomes `e`, a directory `g` moves into a new directory, and the page `f/p.md` moves
//! there and changes, which leaves `f` empty.
use relative_path::RelativePathBuf;
use relmove_actions::Rename;
use relmove_journal::{Leftover, TextDigest, TextFile, Work};
use relmove_stages_disk::{Entry, MemoryDisk, Node};
use std::alloc::{AllocError, Global};

/// A path, and the text of the file there, or none for a directory.
pub type Place = (&'static str, Option<&'static str>);

pub const BEFORE: &[Place] = &[
    ("", None),
    ("a", Some("aa")),
    ("b", Some("bb")),
    ("c", Some("cc")),
    ("d", Some("dd")),
    ("f", None),
    ("f/p.md", Some("[a](../a)")),
    ("g", None),
    ("g/x", Some("xx")),
];

/// The tree before, with the new text of the page.
pub const WRITTEN: &[Place] = &[
    ("", None),
    (".relmove-7", Some("[a](../../b)")),
    ("a", Some("aa")),
    ("b", Some("bb")),
    ("c", Some("cc")),
    ("d", Some("dd")),
    ("f", None),
    ("f/p.md", Some("[a](../a)")),
    ("g", None),
    ("g/x", Some("xx")),
];

/// The same, where the new text isn't written to its end.
pub const TORN: &[Place] = &[
    ("", None),
    (".relmove-7", Some("[a](")),
    ("a", Some("aa")),
    ("b", Some("bb")),
    ("c", Some("cc")),
    ("d", Some("dd")),
    ("f", None),
    ("f/p.md", Some("[a](../a)")),
    ("g", None),
    ("g/x", Some("xx")),
];

pub const AFTER: &[Place] = &[
    ("", None),
    ("a", Some("bb")),
    ("b", Some("aa")),
    ("d", Some("cc")),
    ("e", Some("dd")),
    ("h", None),
    ("h/g", None),
    ("h/g/p.md", Some("[a](../../b)")),
    ("h/g/x", Some("xx")),
];

const STAGED: &[(&str, &str)] = &[
    ("a", ".relmove-1"),
    ("b", ".relmove-2"),
    ("c", ".relmove-3"),
    ("d", ".relmove-4"),
    ("f/p.md", ".relmove-5"),
    ("g", ".relmove-6"),
];

const PLACED: &[(&str, &str)] = &[
    (".relmove-1", "b"),
    (".relmove-2", "a"),
    (".relmove-3", "d"),
    (".relmove-4", "e"),
    (".relmove-6", "h/g"),
    (".relmove-7", "h/g/p.md"),
];

/// The new text of the page.
pub const TEXT: &str = "[a](../../b)";

/// How many calls a run makes from its first rename to its end.
pub const CALLS: usize = 27;

/// How many calls a run makes.
pub const ALL_CALLS: usize = 30;

fn text_file(alloc: Global, path: &str, text: &str) -> Result<TextFile, AllocError> {
    Ok(TextFile {
        path: String::from_str(alloc, path)?,
        digest: TextDigest::of(text.as_bytes()),
    })
}

fn renames(alloc: Global, pairs: &[(&str, &str)]) -> Result<Vec<Rename>, AllocError> {
    let mut renames = Vec::new(alloc);
    for (from, to) in pairs {
        renames.push(Rename {
            from: String::from_str(alloc, from)?,
            to: String::from_str(alloc, to)?,
        })?;
    }
    Ok(renames)
}

/// What the run does.
pub fn work(alloc: Global) -> Result<Work, AllocError> {
    let mut work = Work::new(alloc);
    work.texts
        .push(text_file(alloc, ".relmove-7", "[a](../../b)")?)?;
    work.staged = renames(alloc, STAGED)?;
    work.made.push(String::from_str(alloc, "h")?)?;
    work.placed = renames(alloc, PLACED)?;
    work.cleaned.push(Leftover::Text(text_file(alloc, ".relmove-5", "[a](../a)")?))?;
    work.cleaned
        .push(Leftover::Directory(String::from_str(alloc, "f")?))?;
    Ok(work)
}

/// The entries of a tree.
pub fn entries(alloc: Global, places: &[Place]) -> Result<Vec<Entry>, AllocError> {
    let mut entries = Vec::new(alloc);
    for (path, text) in places {
        let node = match text {
            Some(text) => Node::File(text.as_bytes().to_vec(alloc)?),
            None => Node::Directory,
        };
        let path = RelativePathBuf::from_text(alloc, path)?;
        entries.push(Entry { path, node })?;
    }
    Ok(entries)
}

fn is_there(disk: &MemoryDisk, place: &Place) -> bool {
    match (disk.node_at(place.0), place.1) {
        (Some(Node::Directory), None) => true,
        (Some(Node::File(bytes)), Some(text)) => bytes.as_slice() == text.as_bytes(),
        _ => false,
    }
}

/// Whether a disk has this tree, and nothing else.
pub fn has(disk: &MemoryDisk, places: &[Place]) -> bool {
    disk.entries().len() == places.len() && places.iter().all(|place| is_there(disk, place))
}
