//! What happens in a call: how a call of the file system fails, and what another program does before one.
use crate::fault::Fault;
use crate::text::{bytes_of, two_of, word_of};
use crate::tree::{path_and_owner, path_of};
use relmove_disk::{Content, Disk, Failing};
use std::alloc::Global;

/// The way of failing of a name.
pub fn failing_of(name: &str) -> Result<Failing, Fault> {
    match name {
        "refused" => Ok(Failing::Refused),
        "out-of-memory" => Ok(Failing::OutOfMemory),
        "done-and-failed" => Ok(Failing::DoneAndFailed),
        "killed" => Ok(Failing::Killed),
        "done-and-killed" => Ok(Failing::DoneAndKilled),
        "not-there" => Ok(Failing::NotThere),
        _ => Err(Fault::Wrong("no call fails so")),
    }
}

/// Notes what another program does before the call of a number.
pub fn surprise(alloc: Global, disk: &Disk, number: u32, deed: &str) -> Result<(), Fault> {
    let (name, words) = two_of(deed)?;
    if name == "remove" {
        let path = path_of(alloc, words)?;
        return Ok(disk.remove_before(number, path.as_str())?);
    }
    if name == "other" {
        let (name, words) = two_of(words)?;
        let (path, content) = thing_of(alloc, name, words)?;
        return Ok(disk.replace_before(number, path.as_str(), content)?);
    }
    if name == "owner" {
        let (path, (user, group)) = path_and_owner(alloc, words)?;
        return Ok(disk.give_before(number, path.as_str(), user, group)?);
    }
    let (path, content) = thing_of(alloc, name, words)?;
    Ok(disk.add_before(number, path.as_str(), content)?)
}

// What comes to a path.
fn thing_of(alloc: Global, name: &str, words: &str) -> Result<(String, Content), Fault> {
    let (path, rest) = words.split_once(' ').unwrap_or((words, ""));
    let content = match name {
        "file" => Content::File(bytes_of(alloc, rest)?),
        "symlink" => Content::Symlink(word_of(alloc, rest)?),
        "directory" => Content::Directory,
        "fifo" => Content::Other,
        _ => return Err(Fault::Wrong("nothing of this name comes to a path")),
    };
    Ok((path_of(alloc, path)?, content))
}
