//! The progress of a long call: a runtime that prints how many files the call has opened, and how many renames it made.
use relmove_run::{Found, Machine, Names, PageFile, Store};
use std::alloc::{Alloc, AllocError, Global};
use std::cell::Cell;
use std::io::{self, Eprint};
use std::rt::Clock;
use std::time::{Duration, Instant};

// How many milliseconds a call works before each line of progress.
const INTERVAL: u64 = 500;

/// How many files a call has opened and renamed, and when it last said so.
#[derive(Drop)]
pub struct Progress {
    opened: Cell<usize>,
    renamed: Cell<usize>,
    last: Cell<Option<Instant>>,
}

impl Progress {
    /// The progress of a call that begins. Allocates nothing.
    pub fn new() -> Progress {
        Progress {
            opened: Cell::new(0),
            renamed: Cell::new(0),
            last: Cell::new(None),
        }
    }

    // Whether a line is due. The first question begins the time.
    fn is_due(&self, now: Instant) -> bool {
        let is_due = match self.last.get() {
            Some(last) => Duration::from_millis(INTERVAL) <= now.duration_since(last),
            None => false,
        };
        if is_due || self.last.get().is_none() {
            self.last.set(Some(now));
        }
        is_due
    }
}

/// A runtime whose files are those of another one. It counts the files that are opened and renamed. While that goes on,
/// it prints the two numbers on standard error each half second.
///
/// Nothing is printed if the clock can't be read. A line that can't be printed is left out.
#[derive(Clone, Copy)]
pub struct WithProgress<'a, R> {
    runtime: &'a R,
    progress: &'a Progress,
}

impl<'a, R: Clock + Eprint> WithProgress<'a, R> {
    /// A runtime that works by another one, and prints this progress. Allocates nothing.
    pub fn new(runtime: &'a R, progress: &'a Progress) -> WithProgress<'a, R> {
        WithProgress { runtime, progress }
    }

    // Counts a file that is opened.
    fn count_opened(&self) {
        self.count(&self.progress.opened);
    }

    // Counts a rename.
    fn count_renamed(&self) {
        self.count(&self.progress.renamed);
    }

    // Counts a file.
    fn count(&self, counter: &Cell<usize>) {
        counter.set(counter.get().saturating_add(1));
        if let Ok(now) = Instant::now(self.runtime)
            && self.progress.is_due(now)
        {
            self.print();
        }
    }

    // Prints the progress.
    fn print(&self) {
        let (opened, renamed) = (self.progress.opened.get(), self.progress.renamed.get());
        let _ = eprintln!(self.runtime; "relmove: {opened} files opened, {renamed} renamed");
    }
}

impl<R: AllocGlobal> Alloc for WithProgress<'_, R> {
    type A = Global;

    fn alloc(&self) -> Global {
        self.runtime.alloc()
    }
}

impl<'a, R: Machine + Clock + Eprint> Machine for WithProgress<'a, R> {
    type Store = StoreWithProgress<'a, R, R::Store>;

    fn store_at(&self, root: &str) -> Result<StoreWithProgress<'a, R, R::Store>, AllocError> {
        Ok(StoreWithProgress {
            store: self.runtime.store_at(root)?,
            watch: WithProgress {
                runtime: self.runtime,
                progress: self.progress,
            },
        })
    }
}

/// The files below a root, by another store. What is opened and renamed is counted, and printed as by
/// [`WithProgress`].
#[derive(Drop)]
pub struct StoreWithProgress<'a, R, S: Drop> {
    store: S,
    watch: WithProgress<'a, R>,
}

impl<R: Clock + Eprint, S: Store + Drop> Store for StoreWithProgress<'_, R, S> {
    type NewFile = S::NewFile;

    fn alloc(&self) -> Global {
        self.store.alloc()
    }

    fn root(&self) -> &str {
        self.store.root()
    }

    fn find(&mut self, path: &str) -> io::Result<Option<Found>> {
        self.store.find(path)
    }

    fn follow(&mut self, path: &str) -> io::Result<Option<Found>> {
        self.store.follow(path)
    }

    fn list(&mut self, path: &str) -> io::Result<Names> {
        self.store.list(path)
    }

    fn read_symlink(&mut self, path: &str) -> io::Result<Option<String>> {
        self.store.read_symlink(path)
    }

    fn read(&mut self, path: &str) -> io::Result<Vec<u8>> {
        self.watch.count_opened();
        self.store.read(path)
    }

    fn read_start(&mut self, path: &str, most: u64) -> io::Result<Vec<u8>> {
        self.watch.count_opened();
        self.store.read_start(path, most)
    }

    fn read_page(&mut self, path: &str) -> io::Result<(PageFile, Vec<u8>)> {
        self.watch.count_opened();
        self.store.read_page(path)
    }

    fn create(&mut self, path: &str, mode: u32) -> io::Result<S::NewFile> {
        self.watch.count_opened();
        self.store.create(path, mode)
    }

    fn find_new(&mut self, file: &S::NewFile) -> io::Result<Found> {
        self.store.find_new(file)
    }

    fn write(&mut self, file: &mut S::NewFile, bytes: &[u8]) -> io::Result<()> {
        self.store.write(file, bytes)
    }

    fn set_owner(&mut self, file: &S::NewFile, owner: u32, group: u32) -> io::Result<()> {
        self.store.set_owner(file, owner, group)
    }

    fn set_mode(&mut self, file: &S::NewFile, mode: u32) -> io::Result<()> {
        self.store.set_mode(file, mode)
    }

    fn sync(&mut self, file: &S::NewFile) -> io::Result<()> {
        self.store.sync(file)
    }

    fn sync_directory(&mut self, path: &str) -> io::Result<()> {
        self.store.sync_directory(path)
    }

    fn rename(&mut self, from: &str, to: &str) -> io::Result<()> {
        self.watch.count_renamed();
        self.store.rename(from, to)
    }

    fn hard_link(&mut self, from: &str, to: &str) -> io::Result<()> {
        self.store.hard_link(from, to)
    }

    fn make_directory(&mut self, path: &str, mode: u32) -> io::Result<()> {
        self.store.make_directory(path, mode)
    }

    fn remove_file(&mut self, path: &str) -> io::Result<()> {
        self.store.remove_file(path)
    }

    fn remove_directory(&mut self, path: &str) -> io::Result<()> {
        self.store.remove_directory(path)
    }

    fn lock(&mut self) -> io::Result<bool> {
        self.store.lock()
    }

    fn is_locked(&mut self) -> io::Result<bool> {
        self.store.is_locked()
    }
}
