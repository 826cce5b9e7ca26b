//! Where a path leads, through symbolic links too.
use crate::layout::Layout;
use relmove_folder::{Seen, find, seen_by_system};
use relmove_journal::{directory_of, join};
use relmove_store::{RunFault, Store};
use std::alloc::{AllocError, Global};

// What a walk finds at a path outside the root.
fn seen_outside<S: Store>(store: &mut S, path: &str) -> Result<Seen, RunFault> {
    if let (Some(found), Some(root)) = (find(store, path)?, find(store, "")?)
        && found.is_same(&root)
    {
        return Ok(Seen::Root);
    }
    seen_by_system(store, path)
}

// Whether a path from the root leads out of it, where symbolic links have no influence.
fn is_outside(path: &str) -> bool {
    path == ".." || path.starts_with("../")
}

// How many directories above the root are counted. No path that the system takes has more.
const MOST_ABOVE: usize = 4096;

// The path from the root to the top of the system's tree: as many `..` as there are directories above the root.
pub(crate) fn top_of<S: Store>(store: &mut S) -> Result<String, RunFault> {
    let mut top = String::new(store.alloc());
    let mut below = find(store, "")?;
    for _ in 0..MOST_ABOVE {
        let next = join(store.alloc(), top.as_str(), "..")?;
        let above = find(store, next.as_str())?;
        match (&below, &above) {
            (Some(below), Some(above)) if !above.is_same(below) => {}
            _ => return Ok(top),
        }
        top = next;
        below = above;
    }
    Ok(top)
}

// The directory above one that a walk reached.
fn directory_above(alloc: Global, directory: &str) -> Result<String, AllocError> {
    if directory.is_empty() || directory == ".." || directory.ends_with("/..") {
        return join(alloc, directory, "..");
    }
    String::from_str(alloc, directory_of(directory))
}

// How many symbolic links the system follows on the way to a path.
const MOST_SYMLINKS: u32 = 40;

// How many names a walk takes: no way that the system goes has more.
const MOST_NAMES: usize = 100_000;

// A walk along a path.
#[derive(Drop)]
struct Walk {
    // Where it is: a path from the root, on which no symbolic link is.
    at: String,
    // The names that are left, the last one first.
    left: Vec<String>,
    // How many symbolic links it followed.
    symlinks: u32,
}

impl Walk {
    // A walk from the root along a path.
    fn new(alloc: Global, path: &str) -> Result<Walk, AllocError> {
        let mut walk = Walk {
            at: String::new(alloc),
            left: Vec::new(alloc),
            symlinks: 0,
        };
        walk.push_names(alloc, path)?;
        Ok(walk)
    }

    // Adds the names of a path to those that are left.
    fn push_names(&mut self, alloc: Global, path: &str) -> Result<(), AllocError> {
        for name in path.rsplit('/') {
            if !name.is_empty() && name != "." {
                self.left.push(String::from_str(alloc, name)?)?;
            }
        }
        Ok(())
    }

    // Goes to a name in the directory where the walk is. Returns whether something is there.
    fn step<S: Store>(
        &mut self,
        store: &mut S,
        layout: &Layout<'_>,
        name: &str,
    ) -> Result<bool, RunFault> {
        let alloc = store.alloc();
        if name == ".." {
            self.at = directory_above(alloc, self.at.as_str())?;
            return Ok(true);
        }
        let next = join(alloc, self.at.as_str(), name)?;
        let seen = if is_outside(next.as_str()) {
            seen_outside(store, next.as_str())?
        } else {
            layout.seen_at(store, next.as_str())?
        };
        match seen {
            Seen::Nothing => Ok(false),
            Seen::File => {
                self.at = next;
                Ok(self.left.is_empty())
            }
            Seen::Directory => {
                self.at = next;
                Ok(true)
            }
            Seen::Root => {
                self.at = String::new(alloc);
                Ok(true)
            }
            Seen::Symlink(text) => self.follow(store, text.as_str()),
        }
    }

    // Goes on along the path in a symbolic link. Returns whether the system follows it.
    fn follow<S: Store>(&mut self, store: &mut S, text: &str) -> Result<bool, RunFault> {
        self.symlinks = self.symlinks.saturating_add(1);
        if self.symlinks > MOST_SYMLINKS {
            return Ok(false);
        }
        if text.starts_with('/') {
            self.at = top_of(store)?;
        }
        self.push_names(store.alloc(), text)?;
        Ok(true)
    }
}

// Where a path from the root leads: a path on which no symbolic link is. `None` if it leads nowhere.
pub(crate) fn end_of<S: Store>(
    store: &mut S,
    layout: &Layout<'_>,
    path: &str,
) -> Result<Option<String>, RunFault> {
    let mut walk = Walk::new(store.alloc(), path)?;
    for _ in 0..MOST_NAMES {
        let Some(name) = walk.left.pop() else {
            return Ok(Some(walk.at));
        };
        if !walk.step(store, layout, name.as_str())? {
            return Ok(None);
        }
    }
    Ok(None)
}
