//! What statements say of a disk.
use crate::difference::need_same_tree;
use crate::fault::{Failure, Fault, at};
use crate::line::Line;
use crate::text::{bytes_of, need_nothing, text_of, two_of, word_of};
use relmove_disk::{Content, Disk, below_site, disk_of};
use std::alloc::Global;

/// Does what statements say of a disk.
pub fn set_up(alloc: Global, disk: &Disk, lines: &[Line<'_>]) -> Result<(), Failure> {
    for line in lines {
        at(*line, change(alloc, disk, line.name, line.rest))?;
    }
    Ok(())
}

/// Does what a statement says of a disk.
pub fn change(alloc: Global, disk: &Disk, name: &str, rest: &str) -> Result<(), Fault> {
    match name {
        "file" => add_file(alloc, disk, rest),
        "directory" => add(alloc, disk, rest, Content::Directory),
        "symlink" => add_symlink(alloc, disk, rest),
        "fifo" => add(alloc, disk, rest, Content::Other),
        "remove" => remove(alloc, disk, rest),
        _ => set(alloc, disk, name, rest),
    }
}

// Does what a statement says of what is on a disk already.
fn set(alloc: Global, disk: &Disk, name: &str, rest: &str) -> Result<(), Fault> {
    match name {
        "mode" => set_mode(alloc, disk, rest),
        "owner" => set_owner(alloc, disk, rest),
        "hole" => add_hole(alloc, disk, rest),
        "ignore-case" => ignore_case(disk, rest),
        _ => Err(Fault::Wrong("no such statement here")),
    }
}

/// A path from the top of the disk.
pub fn path_of(alloc: Global, word: &str) -> Result<String, Fault> {
    let path = word_of(alloc, word)?;
    Ok(below_site(alloc, path.as_str())?)
}

/// Begins to count how often a disk is asked what is at a path.
pub fn count_questions(alloc: Global, disk: &Disk, word: &str) -> Result<(), Fault> {
    // The disk is asked for a path outside the root without the root's.
    let path = match word.strip_prefix("../") {
        Some(outside) => word_of(alloc, outside)?,
        None => path_of(alloc, word)?,
    };
    Ok(disk.count_questions(path.as_str())?)
}

/// Whether a file with this text is at a path.
pub fn has_text(alloc: Global, disk: &Disk, word: &str, text: &str) -> Result<bool, Fault> {
    let path = path_of(alloc, word)?;
    let text = text_of(alloc, text)?;
    Ok(disk.is_file(path.as_str(), text.as_str())?)
}

/// Whether something is at a path, or a file with a text: `PATH`, or `PATH TEXT`.
pub fn has(alloc: Global, disk: &Disk, words: &str) -> Result<bool, Fault> {
    match words.split_once(' ') {
        Some((word, text)) => has_text(alloc, disk, word, text),
        None => Ok(disk.has(path_of(alloc, words)?.as_str())?),
    }
}

/// Fails unless something is at a path, or a file with a text.
pub fn need_there(alloc: Global, disk: &Disk, words: &str) -> Result<(), Fault> {
    if has(alloc, disk, words)? {
        return Ok(());
    }
    Err(Fault::Wrong("this isn't there"))
}

/// Fails if something is at a path, or a file with a text.
pub fn need_absent(alloc: Global, disk: &Disk, words: &str) -> Result<(), Fault> {
    if has(alloc, disk, words)? {
        return Err(Fault::Wrong("this is there"));
    }
    Ok(())
}

// Puts something at a path.
fn add(alloc: Global, disk: &Disk, word: &str, content: Content) -> Result<(), Fault> {
    let path = path_of(alloc, word)?;
    Ok(disk.add(path.as_str(), content)?)
}

// Puts a file at a path. It may be empty.
fn add_file(alloc: Global, disk: &Disk, words: &str) -> Result<(), Fault> {
    let (word, text) = words.split_once(' ').unwrap_or((words, ""));
    let bytes = bytes_of(alloc, text)?;
    add(alloc, disk, word, Content::File(bytes))
}

// Puts a symbolic link at a path, with a path in it.
fn add_symlink(alloc: Global, disk: &Disk, words: &str) -> Result<(), Fault> {
    let (word, target) = two_of(words)?;
    let target = word_of(alloc, target)?;
    add(alloc, disk, word, Content::Symlink(target))
}

// Removes what is at a path, and all below it.
fn remove(alloc: Global, disk: &Disk, word: &str) -> Result<(), Fault> {
    let path = path_of(alloc, word)?;
    if !disk.has(path.as_str())? {
        return Err(Fault::Wrong("nothing is there"));
    }
    Ok(disk.remove(path.as_str())?)
}

// Gives what is at a path its permissions, in octal digits.
fn set_mode(alloc: Global, disk: &Disk, words: &str) -> Result<(), Fault> {
    let (word, digits) = two_of(words)?;
    let path = path_of(alloc, word)?;
    match u32::from_str_radix(digits, 8) {
        Ok(mode) => Ok(disk.set_mode(path.as_str(), mode)?),
        Err(_) => Err(Fault::Wrong("not a mode")),
    }
}

// Gives what is at a path to a user and a group.
fn set_owner(alloc: Global, disk: &Disk, words: &str) -> Result<(), Fault> {
    let (path, (user, group)) = path_and_owner(alloc, words)?;
    Ok(disk.set_owner(path.as_str(), user, group)?)
}

/// A path, and the user and the group that get it.
pub fn path_and_owner(alloc: Global, words: &str) -> Result<(String, (u32, u32)), Fault> {
    let (word, owner) = two_of(words)?;
    Ok((path_of(alloc, word)?, owner_of(owner)?))
}

/// The numbers of a user and a group.
pub fn owner_of(words: &str) -> Result<(u32, u32), Fault> {
    let (user, group) = two_of(words)?;
    Ok((number_of(user)?, number_of(group)?))
}

/// A number.
pub fn number_of(digits: &str) -> Result<u32, Fault> {
    match digits.parse::<u32>() {
        Ok(number) => Ok(number),
        Err(_) => Err(Fault::Wrong("not a number")),
    }
}

// Gives a file a hole of so many bytes at its end.
fn add_hole(alloc: Global, disk: &Disk, words: &str) -> Result<(), Fault> {
    let (word, digits) = two_of(words)?;
    let path = path_of(alloc, word)?;
    match digits.parse::<u64>() {
        Ok(bytes) => Ok(disk.add_hole(path.as_str(), bytes)?),
        Err(_) => Err(Fault::Wrong("not a number")),
    }
}

// Lets the disk find a name also by one in another case.
fn ignore_case(disk: &Disk, rest: &str) -> Result<(), Fault> {
    need_nothing(rest)?;
    Ok(disk.ignore_case()?)
}

/// A disk with an empty root.
pub fn empty_disk(alloc: Global) -> Result<Disk, Fault> {
    Ok(disk_of(alloc, &[])?)
}

/// Fails unless two disks have the same on them.
pub fn need_disk(alloc: Global, disk: &Disk, expected: &Disk) -> Result<(), Fault> {
    let expected = expected.listing()?;
    need_listing(alloc, disk, expected.as_str())
}

/// Fails unless exactly this is on a disk.
pub fn need_listing(alloc: Global, disk: &Disk, expected: &str) -> Result<(), Fault> {
    let found = disk.listing()?;
    need_same_tree(alloc, found.as_str(), expected)
}
