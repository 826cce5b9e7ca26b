//! Disks with the files of a site.
use crate::disk::Disk;
use crate::node::Content;
use std::alloc::{AllocError, Global};
use std::io;

/// What is at a path below `site`: the text of a file, or a directory.
pub type Place = (&'static str, Option<&'static str>);

/// A path below `site`.
pub fn below_site(alloc: Global, path: &str) -> Result<String, AllocError> {
    let mut full = String::from_str(alloc, "site/")?;
    full.push_str(path)?;
    Ok(full)
}

/// A file with a text.
pub fn file_of(alloc: Global, text: &str) -> Result<Content, AllocError> {
    Ok(Content::File(Vec::from_slice(alloc, text.as_bytes())?))
}

/// A disk with these places below `site`.
pub fn disk_of(alloc: Global, places: &[Place]) -> io::Result<Disk> {
    let disk = Disk::new(alloc)?;
    disk.add("site", Content::Directory)?;
    for (path, text) in places {
        let content = match text {
            Some(text) => file_of(alloc, text)?,
            None => Content::Directory,
        };
        disk.add(below_site(alloc, path)?.as_str(), content)?;
    }
    Ok(disk)
}
