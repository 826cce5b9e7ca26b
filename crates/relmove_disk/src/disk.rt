//! A disk, as a test makes and reads it.
use crate::calls::{Calls, Failing, Turn};
use crate::node::{Content, Owner};
use crate::nodes::Nodes;
use relmove_store::is_absence;
use std::alloc::{AllocError, Global};
use std::cell::{Cell, RefCell};
use std::io::{self, ErrorKind};
use std::mem;

// What another process does at a path.
#[derive(Drop)]
enum Deed {
    // It puts something there. A file that is there stays the same file.
    Put(Content),
    // It removes what is there.
    Removed,
    // It removes what is there, and puts something else there.
    Replaced(Content),
    // It gives what is there to a user and a group.
    Given(Owner),
}

// What another process does, and before which call.
#[derive(Drop)]
struct Surprise {
    number: u32,
    path: String,
    deed: Deed,
}

// What a new directory doesn't let its group and others do in any case.
const USUAL_MASK: u32 = 0o022;

// The most bytes that one call writes at first.
const MOST_WRITTEN: usize = 9;

/// A disk, and the process that works on it: its user and group, 1000 at first, the number of its calls, those that fail, its
/// clock, and its standard error.
#[derive(Drop)]
pub struct Disk {
    pub(crate) alloc: Global,
    pub(crate) nodes: RefCell<Nodes>,
    calls: Calls,
    surprises: RefCell<Vec<Surprise>>,
    // A path, and how often it was asked what is there.
    asked_for: RefCell<String>,
    asked: Cell<u32>,
    // How many bytes all files may have.
    size: Cell<u64>,
    // The most bytes that one call writes.
    pub(crate) most_written: Cell<usize>,
    // Whether the process may give a file to another user.
    pub(crate) gives_away: Cell<bool>,
    // Whether each name of a file has an inode of its own.
    pub(crate) has_inode_for_each_path: Cell<bool>,
    // Whether everything has the same inode.
    pub(crate) has_one_inode: Cell<bool>,
    // Why a file can't have a second name, if it can't.
    pub(crate) no_hard_links: Cell<Option<ErrorKind>>,
    // Why a directory can't be synced, if it can't.
    pub(crate) no_syncs: Cell<Option<ErrorKind>>,
    // The permissions that a new file or directory doesn't get.
    mask: Cell<u32>,
    // Whether a process has the lock of a directory.
    pub(crate) is_locked: Cell<bool>,
    // What the clock shows, and by how much it goes on each time it is read, in milliseconds.
    time: Cell<u64>,
    interval: Cell<u64>,
    // What was printed on standard error.
    pub(crate) printed: RefCell<Vec<u8>>,
}

impl Disk {
    /// A disk without files.
    pub fn new(alloc: Global) -> io::Result<Disk> {
        let mut nodes = Nodes::new(alloc);
        nodes.put("", Content::Directory, 0o755)?;
        Ok(Disk {
            alloc,
            nodes: RefCell::new(nodes),
            calls: Calls::new(),
            surprises: RefCell::new(Vec::new(alloc)),
            asked_for: RefCell::new(String::new(alloc)),
            asked: Cell::new(0),
            size: Cell::new(u64::MAX),
            most_written: Cell::new(MOST_WRITTEN),
            gives_away: Cell::new(false),
            has_inode_for_each_path: Cell::new(false),
            has_one_inode: Cell::new(false),
            no_hard_links: Cell::new(None),
            no_syncs: Cell::new(None),
            mask: Cell::new(0),
            is_locked: Cell::new(false),
            time: Cell::new(0),
            interval: Cell::new(0),
            printed: RefCell::new(Vec::new(alloc)),
        })
    }

    /// Puts something at a path, as another process that nothing refuses. A file that is there gets the other bytes, and
    /// stays the same file. Anything else there is removed, with all below it. Everything is on the disk then.
    pub fn add(&self, path: &str, content: Content) -> io::Result<()> {
        let mut nodes = self.nodes.try_borrow_mut()?;
        let path = nodes.resolve(path, false)?;
        let path = path.as_str();
        if let Some(number) = nodes.number_at(path) {
            let node = nodes.node_mut(number)?;
            if let (Content::File(_), Content::File(_)) = (&node.content, &content) {
                node.content = content;
                return Ok(());
            }
            nodes.clear(path);
        }
        let mode = match &content {
            Content::Directory => 0o755,
            _ => 0o644,
        };
        nodes.put(path, content, mode)?;
        nodes.sync_all();
        Ok(())
    }

    /// Puts something at a path, as [`Disk::add`] does, before the call of this number.
    pub fn add_before(&self, number: u32, path: &str, content: Content) -> io::Result<()> {
        self.surprise_before(number, path, Deed::Put(content))
    }

    /// Removes a path and all below it, as [`Disk::remove`] does, before the call of this number.
    pub fn remove_before(&self, number: u32, path: &str) -> io::Result<()> {
        self.surprise_before(number, path, Deed::Removed)
    }

    /// Puts something else at a path, before the call of this number. What is there is removed, with all below it.
    pub fn replace_before(&self, number: u32, path: &str, content: Content) -> io::Result<()> {
        self.surprise_before(number, path, Deed::Replaced(content))
    }

    /// Gives what is at a path to a user and a group, as [`Disk::set_owner`] does, before the call of this number.
    pub fn give_before(&self, number: u32, path: &str, user: u32, group: u32) -> io::Result<()> {
        self.surprise_before(number, path, Deed::Given(Owner { user, group }))
    }

    // Notes what another process does before the call of this number.
    fn surprise_before(&self, number: u32, path: &str, deed: Deed) -> io::Result<()> {
        let path = String::from_str(self.alloc, path)?;
        let surprise = Surprise { number, path, deed };
        match self.surprises.try_borrow_mut()?.push(surprise) {
            Ok(()) => Ok(()),
            Err(_) => Err(io::Error::from(AllocError)),
        }
    }

    /// Gives a file a second name, as another process that nothing refuses.
    pub fn add_hard_link(&self, from: &str, to: &str) -> io::Result<()> {
        let mut nodes = self.nodes.try_borrow_mut()?;
        let (from, to) = (nodes.resolve(from, false)?, nodes.resolve(to, false)?);
        nodes.hard_link(from.as_str(), to.as_str())?;
        nodes.sync_all();
        Ok(())
    }

    /// Removes a path and all below it, as another process that nothing refuses.
    pub fn remove(&self, path: &str) -> io::Result<()> {
        let mut nodes = self.nodes.try_borrow_mut()?;
        let path = nodes.resolve(path, false)?;
        nodes.clear(path.as_str());
        Ok(())
    }

    /// Gives what is at a path these permissions. The process can list a directory, change it and use its names only as
    /// they say.
    pub fn set_mode(&self, path: &str, mode: u32) -> io::Result<()> {
        let mut nodes = self.nodes.try_borrow_mut()?;
        let number = number_at(&nodes, path)?;
        nodes.node_mut(number)?.mode = mode;
        Ok(())
    }

    /// Gives what is at a path to a user and a group.
    pub fn set_owner(&self, path: &str, user: u32, group: u32) -> io::Result<()> {
        let mut nodes = self.nodes.try_borrow_mut()?;
        let number = number_at(&nodes, path)?;
        nodes.node_mut(number)?.owner = Owner { user, group };
        Ok(())
    }

    /// Says which permissions, user and group what is at a path has.
    pub fn rights(&self, path: &str) -> io::Result<(u32, u32, u32)> {
        let nodes = self.nodes.try_borrow()?;
        let node = nodes.node(number_at(&nodes, path)?)?;
        Ok((node.mode, node.owner.user, node.owner.group))
    }

    /// Puts a directory on another device. What is made in it later is there too.
    pub fn set_device(&self, path: &str, device: u64) -> io::Result<()> {
        let mut nodes = self.nodes.try_borrow_mut()?;
        let number = number_at(&nodes, path)?;
        nodes.node_mut(number)?.device = device;
        Ok(())
    }

    /// Gives a file a hole of so many bytes at its end. No process has memory for it.
    pub fn add_hole(&self, path: &str, bytes: u64) -> io::Result<()> {
        let mut nodes = self.nodes.try_borrow_mut()?;
        let number = number_at(&nodes, path)?;
        nodes.node_mut(number)?.hole = bytes;
        Ok(())
    }

    /// From now on the process is one of this user and this group. The user 0 may do everything.
    pub fn set_user(&self, user: u32, group: u32) -> io::Result<()> {
        self.nodes.try_borrow_mut()?.process = Owner { user, group };
        Ok(())
    }

    /// Says whether the process may give files to other users.
    pub fn allow_giving(&self, is_allowed: bool) {
        self.gives_away.set(is_allowed);
    }

    /// From now on a file has another inode under each of its names, as on some file systems of the user's space.
    pub fn set_inode_for_each_path(&self) {
        self.has_inode_for_each_path.set(true);
    }

    /// From now on everything has the same inode.
    pub fn set_one_inode(&self) {
        self.has_one_inode.set(true);
    }

    /// From now on the process can't give a file a second name: that fails with this error.
    pub fn refuse_hard_links(&self, why: ErrorKind) {
        self.no_hard_links.set(Some(why));
    }

    /// From now on the process can't sync a directory: that fails with this error.
    pub fn refuse_directory_syncs(&self, why: ErrorKind) {
        self.no_syncs.set(Some(why));
    }

    /// From now on the disk finds a name also by one in another case.
    pub fn ignore_case(&self) -> io::Result<()> {
        self.nodes.try_borrow_mut()?.ignores_case = true;
        Ok(())
    }

    /// From now on a new file or directory doesn't get these permissions.
    pub fn set_mask(&self, mask: u32) {
        self.mask.set(mask);
    }

    /// Gives the lock of the directories to another process, or takes it away.
    pub fn set_locked(&self, is_locked: bool) {
        self.is_locked.set(is_locked);
    }

    /// From now on all files together may get longer only by so many bytes.
    pub fn leave_room(&self, bytes: u64) -> io::Result<()> {
        let length = self.nodes.try_borrow()?.length();
        self.size.set(length.saturating_add(bytes));
        Ok(())
    }

    /// From now on one call writes at most so many bytes, or one byte.
    pub fn set_most_written(&self, bytes: usize) {
        self.most_written.set(bytes);
    }

    /// Counts calls anew. From now on the call of this number fails; none does if the number is 0.
    pub fn fail_at(&self, number: u32, failing: Failing) {
        self.calls.fail_at(number, failing);
    }

    /// Refuses the call of this number, beside the one that fails anyway.
    pub fn refuse_at(&self, number: u32) {
        self.calls.refuse_at(number);
    }

    /// How many calls were made.
    pub fn calls(&self) -> u32 {
        self.calls.count()
    }

    /// Whether the bytes of a file are on the disk, or a directory was synced itself.
    pub fn is_synced(&self, path: &str) -> io::Result<bool> {
        let nodes = self.nodes.try_borrow()?;
        Ok(nodes.node(number_at(&nodes, path)?)?.is_synced)
    }

    /// From now on the disk counts how often it is asked what is at a path.
    pub fn count_questions(&self, path: &str) -> io::Result<()> {
        *self.asked_for.try_borrow_mut()? = String::from_str(self.alloc, path)?;
        self.asked.set(0);
        Ok(())
    }

    /// How often it was asked what is at that path.
    pub fn questions(&self) -> u32 {
        self.asked.get()
    }

    // Notes a question what is at a path.
    pub(crate) fn note_question(&self, path: &str) -> io::Result<()> {
        if self.asked_for.try_borrow()?.as_str() == path {
            self.asked.set(self.asked.get().saturating_add(1));
        }
        Ok(())
    }

    /// How many changes of names aren't on the disk yet.
    pub fn count_unsynced(&self) -> io::Result<usize> {
        Ok(self.nodes.try_borrow()?.count_unsynced())
    }

    /// Turns the power off and on. Of the changes of names that aren't on the disk yet only the oldest ones of this
    /// number stay, and files whose bytes aren't there lose half of them. No process has the lock then.
    pub fn lose_power(&self, kept: usize) -> io::Result<()> {
        self.is_locked.set(false);
        self.nodes.try_borrow_mut()?.lose_power(kept)
    }

    /// Turns the power off and on, as [`Disk::lose_power`] does. But of a file whose rename is on the disk in its new
    /// directory alone, both names stay. Returns whether a file has both names.
    pub fn lose_power_and_keep_names(&self, kept: usize) -> io::Result<bool> {
        self.is_locked.set(false);
        self.nodes.try_borrow_mut()?.lose_power_and_keep_names(kept)
    }

    /// From now on the clock goes on by so many milliseconds each time it is read.
    pub fn set_clock(&self, interval: u64) {
        self.interval.set(interval);
    }

    // Reads the clock, in milliseconds.
    pub(crate) fn read_clock(&self) -> u64 {
        let time = self.time.get().saturating_add(self.interval.get());
        self.time.set(time);
        time
    }

    /// Takes what was printed on standard error.
    pub fn take_printed(&self) -> io::Result<Vec<u8>> {
        let mut printed = self.printed.try_borrow_mut()?;
        Ok(mem::replace(&mut *printed, Vec::new(self.alloc)))
    }

    /// All that is there, sorted, a line each.
    pub fn listing(&self) -> io::Result<String> {
        let mut lines = Vec::new(self.alloc);
        let nodes = self.nodes.try_borrow()?;
        for path in nodes.paths()? {
            if let Some(number) = nodes.number_at(path) {
                let content = &nodes.node(number)?.content;
                let line = format!(in self.alloc; "{path} {content:?}\n")?;
                if lines.push(line).is_err() {
                    return Err(io::Error::from(AllocError));
                }
            }
        }
        lines.sort()?;
        let mut listing = String::new(self.alloc);
        for line in &lines {
            listing.push_str(line.as_str())?;
        }
        Ok(listing)
    }

    /// Whether a file with this text is at one of two paths, or at a name that a run gives.
    pub fn has_file(&self, old: &str, new: &str, text: &str) -> io::Result<bool> {
        let nodes = self.nodes.try_borrow()?;
        for path in nodes.paths()? {
            let is_known = path == old || path == new || path.contains("/.relmove-");
            if is_known
                && let Some(number) = nodes.number_at(path)
                && nodes.node(number)?.is_file_of(text)
            {
                return Ok(true);
            }
        }
        Ok(false)
    }

    /// The bytes of the file at a path.
    pub fn text_at(&self, path: &str) -> io::Result<Vec<u8>> {
        let nodes = self.nodes.try_borrow()?;
        match &nodes.node(number_at(&nodes, path)?)?.content {
            Content::File(bytes) => Ok(Vec::from_slice(self.alloc, bytes.as_slice())?),
            _ => Err(io::Error::from(ErrorKind::InvalidInput)),
        }
    }

    /// Whether anything is at a path.
    pub fn has(&self, path: &str) -> io::Result<bool> {
        let nodes = self.nodes.try_borrow()?;
        match nodes.resolve(path, false) {
            Ok(path) => Ok(nodes.number_at(path.as_str()).is_some()),
            Err(_) => Ok(false),
        }
    }

    /// Whether a file with this text is at a path.
    pub fn is_file(&self, path: &str, text: &str) -> io::Result<bool> {
        let nodes = self.nodes.try_borrow()?;
        let Ok(path) = nodes.resolve(path, false) else {
            return Ok(false);
        };
        match nodes.number_at(path.as_str()) {
            Some(number) => Ok(nodes.node(number)?.is_file_of(text)),
            None => Ok(false),
        }
    }

    // Counts a call, after what another process does before it. Fails if the call does nothing.
    pub(crate) fn turn(&self) -> io::Result<Turn> {
        let turn = self.calls.turn();
        let number = self.calls.count();
        let surprise = {
            let mut surprises = self.surprises.try_borrow_mut()?;
            match surprises
                .iter()
                .position(|surprise| surprise.number == number)
            {
                Some(index) => Some(surprises.remove(index)),
                None => None,
            }
        };
        if let Some(surprise) = surprise {
            let Surprise { path, deed, .. } = surprise;
            self.happen(path.as_str(), deed)?;
        }
        turn
    }

    // Does what another process does at a path. Where there is no directory for it, that does nothing.
    fn happen(&self, path: &str, deed: Deed) -> io::Result<()> {
        match self.do_deed(path, deed) {
            Err(error) if is_absence(error.kind()) => Ok(()),
            done => done,
        }
    }

    // Does what another process does at a path.
    fn do_deed(&self, path: &str, deed: Deed) -> io::Result<()> {
        match deed {
            Deed::Put(content) => self.add(path, content),
            Deed::Removed => self.remove(path),
            Deed::Replaced(content) => {
                self.remove(path)?;
                self.add(path, content)
            }
            Deed::Given(Owner { user, group }) => self.set_owner(path, user, group),
        }
    }

    // Fails unless so many more bytes have room.
    pub(crate) fn need_room(&self, bytes: u64) -> io::Result<()> {
        let size = self.size.get();
        if size == u64::MAX {
            return Ok(());
        }
        let length = self.nodes.try_borrow()?.length();
        if length.saturating_add(bytes) > size {
            return Err(io::Error::from(ErrorKind::StorageFull));
        }
        Ok(())
    }

    // Makes an empty file where nothing is.
    pub(crate) fn make_file(&self, path: &str, mode: u32) -> io::Result<usize> {
        self.need_room(1)?;
        let content = Content::File(Vec::new(self.alloc));
        let mode = mode & !self.mask.get();
        self.nodes.try_borrow_mut()?.make(path, content, mode)
    }

    // Makes a directory where nothing is. Returns its permissions too.
    pub(crate) fn make_directory(&self, path: &str, mode: u32) -> io::Result<(usize, u32)> {
        let mode = mode & !USUAL_MASK & !self.mask.get();
        let mut nodes = self.nodes.try_borrow_mut()?;
        Ok((nodes.make(path, Content::Directory, mode)?, mode))
    }

    // Adds bytes to a file.
    pub(crate) fn append(&self, number: usize, more: &[u8]) -> io::Result<()> {
        self.need_room(more.len() as u64)?;
        let mut nodes = self.nodes.try_borrow_mut()?;
        let node = nodes.node_mut(number)?;
        node.is_synced = false;
        match &mut node.content {
            Content::File(bytes) => Ok(bytes.extend_from_slice(more)?),
            _ => Err(io::Error::from(ErrorKind::InvalidInput)),
        }
    }
}

// The node at a path. Fails if nothing is there.
fn number_at(nodes: &Nodes, path: &str) -> io::Result<usize> {
    match nodes.number_at(nodes.resolve(path, false)?.as_str()) {
        Some(number) => Ok(number),
        None => Err(io::Error::from(ErrorKind::NotFound)),
    }
}
