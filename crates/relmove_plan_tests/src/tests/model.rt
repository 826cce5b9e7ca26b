//! A tree of files in memory, which the actions of a plan change. As on a disk, a rename takes along all that is below,
//! and needs a directory to come to; unlike there, it fails where something is at its new path.
use relmove_actions::{Actions, Rename};
use std::alloc::Global;
use std::test::Fail;

/// The text of a directory.
pub const DIRECTORY: &str = "/";

/// The paths of a tree, each with its text.
#[derive(Debug, PartialEq, Eq, Drop)]
pub struct Files {
    pub nodes: Vec<(String, String)>,
}

// Fails with these words.
fn fails(what: &str, path: &str) -> Result<(), Fail> {
    Err(Fail::new(format_args!("{what}: {path:?}")))
}

// The path after a rename: of what is renamed, or below it.
fn renamed(alloc: Global, path: &str, from: &str, to: &str) -> Result<String, Fail> {
    let new = match path.strip_prefix(from) {
        Some(rest) if rest.is_empty() || rest.starts_with('/') => {
            format!(in alloc; "{to}{rest}")?
        }
        _ => String::from_str(alloc, path)?,
    };
    Ok(new)
}

impl Files {
    /// A tree of these paths and texts.
    pub fn of(alloc: Global, rows: &[(&str, &str)]) -> Result<Files, Fail> {
        let mut nodes = Vec::new(alloc);
        for (path, text) in rows {
            nodes.push((
                String::from_str(alloc, path)?,
                String::from_str(alloc, text)?,
            ))?;
        }
        nodes.sort()?;
        Ok(Files { nodes })
    }

    // What is at a path.
    fn text_at(&self, path: &str) -> Option<&str> {
        for (at, text) in &self.nodes {
            if at.as_str() == path {
                return Some(text.as_str());
            }
        }
        None
    }

    // Fails unless a path is free, in a directory.
    fn takes(&self, path: &str) -> Result<(), Fail> {
        if self.text_at(path).is_some() {
            return fails("taken", path);
        }
        match path.rsplit_once('/') {
            Some((above, _)) if self.text_at(above) != Some(DIRECTORY) => fails(
                "no directory",
                path,
            ),
            _ => Ok(()),
        }
    }

    fn write(&mut self, alloc: Global, path: &str, text: &str) -> Result<(), Fail> {
        self.takes(path)?;
        self.nodes.push((
            String::from_str(alloc, path)?,
            String::from_str(alloc, text)?,
        ))?;
        Ok(())
    }

    fn rename(&mut self, alloc: Global, step: &Rename) -> Result<(), Fail> {
        if self.text_at(&step.from).is_none() {
            return fails("not there", &step.from);
        }
        self.takes(&step.to)?;
        for (path, _) in &mut self.nodes {
            let new = renamed(alloc, path, &step.from, &step.to)?;
            *path = new;
        }
        Ok(())
    }

    fn remove(&mut self, path: &str) -> Result<(), Fail> {
        if self.text_at(path).is_none() {
            return fails("not there", path);
        }
        self.nodes.retain(|(at, _)| at.as_str() != path);
        Ok(())
    }

    // Removes a directory if nothing is in it.
    fn remove_if_empty(&mut self, alloc: Global, path: &str) -> Result<(), Fail> {
        if self.text_at(path) != Some(DIRECTORY) {
            return fails("no directory", path);
        }
        let front = format!(in alloc; "{path}/")?;
        for (at, _) in &self.nodes {
            if at.starts_with(front.as_str()) {
                return Ok(());
            }
        }
        self.remove(path)
    }

    /// Does the actions, and sorts the tree.
    pub fn run(&mut self, alloc: Global, actions: &Actions) -> Result<(), Fail> {
        for new in &actions.texts {
            self.write(alloc, &new.file, &new.text)?;
        }
        for step in &actions.staged {
            self.rename(alloc, step)?;
        }
        for path in &actions.made {
            self.write(alloc, path, DIRECTORY)?;
        }
        for step in &actions.placed {
            self.rename(alloc, step)?;
        }
        for path in &actions.removed {
            self.remove(path)?;
        }
        for path in &actions.emptied {
            self.remove_if_empty(alloc, path)?;
        }
        self.nodes.sort()?;
        Ok(())
    }
}
