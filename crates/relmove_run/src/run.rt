//! A run, its end after a fault, and its undoing.
use crate::above::need_no_symlinks_above;
use crate::disk::{PageChange, find, need_page, sync_directory};
use crate::ending::{Direction, changes_from, goes_on, stage_to_end};
use crate::near::need_no_journal_near;
use crate::possible::need_possible;
use crate::run_files::{
    Trust, find_journal, need_no_run_files, none_yet, remove_leftovers, run_files_of,
};
use crate::worker::{NewRun, Worker};
use relmove_actions::{Actions, NewText};
use relmove_journal::{JOURNAL, Journal, Stage, Work, is_of_run};
use relmove_stages::Halt;
use relmove_store::{Change, Found, PageFile, Remark, RunFault, Store, SystemCall, at};
use relmove_work::work_of;
use std::alloc::{AllocError, Global};
use std::collections::BTreeMap;

/// How a call ended.
#[derive(Debug, Drop)]
pub enum Ended {
    /// All is done: everything is at its new path.
    Done(Vec<Remark>),
    /// The run was taken back: everything is as before, but for what the remarks say.
    TakenBack {
        /// Why the run went back by itself. `None` if it was to go back.
        cause: Option<RunFault>,
        /// What is left.
        remarks: Vec<Remark>,
    },
    /// Nothing is changed. A file of the run's own may be left, if the run couldn't remove it.
    Refused(RunFault),
    /// The call stopped in the middle. What it did stays.
    Stopped {
        /// How far the run is, as its journal says. If the journal can't be read, this is the last stage that the run
        /// knows of, and the journal may say a later one.
        stage: Stage,
        /// Why it stopped.
        fault: RunFault,
        /// Whether the journal was read afterwards.
        has_journal: bool,
        /// What is left of the stages that ended.
        remarks: Vec<Remark>,
    },
}

/// The files below a root that no other process works on: the lock of the root is taken.
#[derive(Drop)]
pub struct Locked<S: Drop>(S);

impl<S: Store + Drop> Locked<S> {
    /// Takes the lock of a root. Fails with [`RunFault::AtWork`] if another process has it.
    pub fn new(mut store: S) -> Result<Locked<S>, RunFault> {
        let locked = store.lock();
        if at(store.alloc(), SystemCall::Lock, store.root(), locked)? {
            return Ok(Locked(store));
        }
        Err(RunFault::AtWork)
    }

    /// The files.
    pub fn store(&mut self) -> &mut S {
        &mut self.0
    }
}

/// Returns the journals of other users above a root. Fails if another process works on the root, or if a run on it, or one of
/// its owner's on a directory above it, didn't end, or if something else has a name of a run's own files.
///
/// Allocates the remarks, and their paths.
pub fn need_rest<S: Store>(store: &mut S) -> Result<Vec<Remark>, RunFault> {
    let locked = store.is_locked();
    if at(store.alloc(), SystemCall::Lock, store.root(), locked)? {
        return Err(RunFault::AtWork);
    }
    need_no_run_files(store)?;
    need_no_journal_near(store, &[])
}

/// The text of a page before a run, as it was read.
#[derive(Clone, Copy, Debug)]
pub struct PageText<'a> {
    /// The page.
    pub path: &'a str,
    /// Its text.
    pub text: &'a str,
    /// The file from which it was read.
    pub file: PageFile,
}

/// Moves files and directories, and puts new texts in the place of pages. `pages` has the text of each page that gets a
/// new one. `directories` are the directories below the root in which other runs may have journals.
///
/// The staging names are in the run's own directory, [`RUN_DIRECTORY`](crate::RUN_DIRECTORY): the number of a label of the plan
/// is the staging name's.
///
/// A new text gets the permissions, the owner and the group that its page had when its text was read. If another file is at
/// the page's path, the call fails with [`RunFault::Changed`] before it writes anything.
///
/// A fault before anything moves takes back everything: the files below the root are as before. So does a page whose
/// text isn't the one that was read. After a fault in the middle each file is whole, at its old path, its new path or
/// its staging name, and so is each page with its old or its new text. Then [`resume`] does the rest, and until
/// everything is at its new path [`undo`] takes back what was done.
///
/// The call refuses to work if the root has a journal, or one of the directories, or a directory above the root. It looks
/// for journals near once, after its own first journal is in its place: a caller looks for them before it plans, by
/// [`need_no_journal_near`].
pub fn carry_out<S: Store + Drop>(
    locked: Locked<S>,
    actions: Actions,
    pages: &[PageText<'_>],
    directories: &[&str],
) -> Ended {
    let (changes, work, worker) = match prepare(locked, actions, pages) {
        Ok(prepared) => prepared,
        Err(fault) => return Ended::Refused(fault),
    };
    let mut run = NewRun::new(worker, &changes, directories);
    let outcome = run.carry_out(&work);
    let worker = run.into_worker();
    match outcome {
        Ok(()) => Ended::Done(worker.into_remarks()),
        Err(Halt::Refused(fault)) => refusal(fault, worker.into_remarks()),
        Err(Halt::Left(fault)) => leave(worker, fault),
        Err(Halt::Stopped(fault)) => stop_or_go_back(worker, &work, fault),
    }
}

/// Ends a run that stopped: goes on to the end, or, if the run was going back, to the beginning. If a page that changes
/// was changed before it got its staging name, the run is taken back.
pub fn resume<S: Store + Drop>(locked: Locked<S>, trust: Trust) -> Ended {
    end_stopped(locked, trust, Direction::Resume)
}

/// Takes back a run that stopped before everything was at its new path.
pub fn undo<S: Store + Drop>(locked: Locked<S>, trust: Trust) -> Ended {
    end_stopped(locked, trust, Direction::Undo)
}

/// A run that stopped, as its journal said when it was read. So what [`StoppedRun::changes`] returns is what
/// [`StoppedRun::end`] does, whatever comes to the journal's place in between.
#[derive(Drop)]
pub struct StoppedRun {
    found: Found,
    journal: Journal,
    trust: Trust,
}

impl StoppedRun {
    /// Reads the journal of a run that stopped. Changes nothing.
    ///
    /// Allocates the journal.
    pub fn read<S: Store + Drop>(
        locked: &mut Locked<S>,
        trust: Trust,
    ) -> Result<StoppedRun, RunFault> {
        let (found, journal) = find_journal(locked.store(), trust)?;
        Ok(StoppedRun {
            found,
            journal,
            trust,
        })
    }

    /// Returns the changes that the end of the run makes. Some of them may be made already.
    ///
    /// Allocates them.
    pub fn changes(&self, alloc: Global, direction: Direction) -> Result<Vec<Change>, RunFault> {
        let stage = stage_to_end(direction, self.journal.stage)?;
        Ok(changes_from(alloc, &self.journal.work, stage)?)
    }

    /// Ends the run, as [`resume`] or [`undo`] does.
    pub fn end<S: Store + Drop>(self, locked: Locked<S>, direction: Direction) -> Ended {
        if let Err(fault) = stage_to_end(direction, self.journal.stage) {
            return Ended::Refused(fault);
        }
        let StoppedRun {
            found,
            journal,
            trust,
        } = self;
        match (open(locked, &found, &journal, trust), direction) {
            (Ok(worker), Direction::Resume) => end_from(worker, &journal.work),
            (Ok(worker), Direction::Undo) => turn_back(worker, &journal.work, None),
            (Err(fault), _) => Ended::Refused(fault),
        }
    }
}

// Ends a run that stopped. Without a journal, removes what a kill left of the run's other files.
fn end_stopped<S: Store + Drop>(
    mut locked: Locked<S>,
    trust: Trust,
    direction: Direction,
) -> Ended {
    match StoppedRun::read(&mut locked, trust) {
        Ok(run) => run.end(locked, direction),
        Err(RunFault::NoJournal) => match remove_leftovers(locked.store()) {
            Ok(()) => Ended::Refused(RunFault::NoJournal),
            Err(fault) => Ended::Refused(fault),
        },
        Err(fault) => Ended::Refused(fault),
    }
}

// Ends a run from its stage: goes on, or goes on back.
fn end_from<S: Store + Drop>(worker: Worker<S>, work: &Work) -> Ended {
    if goes_on(worker.stage()) {
        return go_on_or_back(worker, work);
    }
    go_back(worker, work)
}

// Takes a run back, unless it is too late. If it goes back by itself, it has a cause.
fn turn_back<S: Store + Drop>(
    mut worker: Worker<S>,
    work: &Work,
    cause: Option<RunFault>,
) -> Ended {
    match worker.turn_back(work) {
        Ok(true) => Ended::TakenBack {
            cause,
            remarks: worker.into_remarks(),
        },
        Ok(false) => Ended::Refused(RunFault::TooLate),
        Err(fault) => stop(worker, fault),
    }
}

// The run, before it writes anything.
fn prepare<S: Store + Drop>(
    locked: Locked<S>,
    actions: Actions,
    pages: &[PageText<'_>],
) -> Result<(Vec<PageChange>, Work, Worker<S>), RunFault> {
    let Locked(mut store) = locked;
    let files = none_yet(&mut store)?;
    need_possible(&mut store, &actions)?;
    for page in pages {
        need_page(&mut store, page.path, &page.file)?;
    }
    let old_texts = old_texts_of(store.alloc(), pages)?;
    let Some((texts, work)) = work_of(store.alloc(), actions, &old_texts)? else {
        return Err(RunFault::NotAPlan);
    };
    if !is_of_run(store.alloc(), &work)? {
        return Err(RunFault::NotAPlan);
    }
    let changes = changes_of(store.alloc(), texts, pages)?;
    Ok((changes, work, Worker::new(store, files)))
}

// The texts of pages before a run, by their paths.
fn old_texts_of<'a>(
    alloc: Global,
    pages: &[PageText<'a>],
) -> Result<BTreeMap<&'a str, &'a str>, AllocError> {
    let mut texts = BTreeMap::new(alloc);
    for page in pages {
        texts.insert(page.path, page.text)?;
    }
    Ok(texts)
}

// The new texts, with the files of their pages.
fn changes_of(
    alloc: Global,
    texts: Vec<NewText>,
    pages: &[PageText<'_>],
) -> Result<Vec<PageChange>, RunFault> {
    let mut files = BTreeMap::new(alloc);
    for page in pages {
        files.insert(page.path, page.file)?;
    }
    let mut changes = Vec::with_capacity(alloc, texts.len())?;
    for new in texts {
        let Some(old) = files.get(new.page.as_str()) else {
            return Err(RunFault::NotAPlan);
        };
        changes.push(PageChange { old: *old, new })?;
    }
    Ok(changes)
}

// The run couldn't take back what it did before anything moved.
fn leave<S: Store + Drop>(mut worker: Worker<S>, fault: RunFault) -> Ended {
    if may_have_journal(&mut worker) {
        return stop(worker, fault);
    }
    refusal(fault, worker.into_remarks())
}

// Whether the root may have the run's journal. If it hasn't, the run changed nothing, or all of it is taken back.
fn may_have_journal<S: Store + Drop>(worker: &mut Worker<S>) -> bool {
    worker.may_have_journal() && !matches!(&find(worker.store(), JOURNAL), Ok(None))
}

// How a run ended that did nothing but what was taken back.
fn refusal(fault: RunFault, remarks: Vec<Remark>) -> Ended {
    if remarks.is_empty() {
        return Ended::Refused(fault);
    }
    Ended::TakenBack {
        cause: Some(fault),
        remarks,
    }
}

// The run stopped. A call that put a journal in its place may have been reported as failed, so the journal is read again.
fn stop<S: Store + Drop>(mut worker: Worker<S>, fault: RunFault) -> Ended {
    let known = worker.stage();
    let (stage, has_journal) = match &find_journal(worker.store(), Trust::AnyFolder) {
        Ok((_, journal)) => (journal.stage, true),
        Err(_) => (known, false),
    };
    Ended::Stopped {
        stage,
        fault,
        has_journal,
        remarks: worker.into_remarks(),
    }
}

// The run that goes on from where it stopped.
fn open<S: Store + Drop>(
    locked: Locked<S>,
    found: &Found,
    journal: &Journal,
    trust: Trust,
) -> Result<Worker<S>, RunFault> {
    let Locked(mut store) = locked;
    let files = run_files_of(&mut store, found, journal.origin, trust)?;
    // A run may have been killed before the journal's name was on the disk. Nothing that comes now may be there without it.
    sync_directory(&mut store, "")?;
    need_no_symlinks_above(&mut store, &journal.work)?;
    let mut worker = Worker::at(store, files, &journal.work, journal.stage)?;
    worker.take_directory()?;
    Ok(worker)
}

// Goes on to the end. If a page was changed before it got its staging name, goes back.
fn go_on_or_back<S: Store + Drop>(mut worker: Worker<S>, work: &Work) -> Ended {
    match worker.finish(work) {
        Ok(()) => Ended::Done(worker.into_remarks()),
        Err(fault) => stop_or_go_back(worker, work, fault),
    }
}

// Stops, or goes back if a page was changed before it got its staging name.
fn stop_or_go_back<S: Store + Drop>(worker: Worker<S>, work: &Work, fault: RunFault) -> Ended {
    match fault {
        RunFault::Changed(page) => turn_back(worker, work, Some(RunFault::Changed(page))),
        fault => stop(worker, fault),
    }
}

// Goes back to the beginning.
fn go_back<S: Store + Drop>(mut worker: Worker<S>, work: &Work) -> Ended {
    match worker.finish(work) {
        Ok(()) => Ended::TakenBack {
            cause: None,
            remarks: worker.into_remarks(),
        },
        Err(fault) => stop(worker, fault),
    }
}
