//! The calls of a script.
use crate::case::text_among;
use crate::outcome::{Outcome, outcome_of};
use crate::scene::Scene;
use crate::work::actions_of;
use relmove_disk::{Disk, DiskStore};
use relmove_run::{
    Direction, Ended, Locked, PageFile, PageText, RunFault, StoppedRun, Trust, carry_out,
    need_no_journal_near, need_possible, need_rest, resume, undo,
};
use relmove_statements::{Failure, Fault, Line, at};
use std::alloc::Global;

/// The files below the root, locked.
fn lock<'d>(disk: &'d Disk, root: &str) -> Result<Locked<DiskStore<'d>>, RunFault> {
    Locked::new(DiskStore::new(disk, root)?)
}

/// Makes a call of these words.
pub fn make_call(scene: &Scene<'_>, line: Line<'_>) -> Result<Outcome, Failure> {
    match line.rest {
        "run" => run_case(scene, line),
        "resume" => at(line, end(scene, Direction::Resume, Trust::ThisFolder)),
        "undo" => at(line, end(scene, Direction::Undo, Trust::ThisFolder)),
        "resume trusting" => at(line, end(scene, Direction::Resume, Trust::AnyFolder)),
        "undo trusting" => at(line, end(scene, Direction::Undo, Trust::AnyFolder)),
        "changes by resume" => at(line, changes(scene, Direction::Resume)),
        "changes by undo" => at(line, changes(scene, Direction::Undo)),
        _ => ask(scene, line),
    }
}

// Asks whether a run can begin.
fn ask(scene: &Scene<'_>, line: Line<'_>) -> Result<Outcome, Failure> {
    match line.rest.split_once(' ').unwrap_or((line.rest, "")) {
        ("run", "beside a call") => run_beside(scene, line),
        ("possible", "") => ask_for_possible(scene, line),
        ("rest", "") => at(line, ask_for_rest(scene)),
        ("near", words) => at(line, ask_for_journals(scene, words)),
        _ => at(line, Err(Fault::Wrong("no such call"))),
    }
}

// How a call ended. An `Ended` is in a box, since the proof of a drop takes long.
fn outcome(alloc: Global, ended: Ended) -> Result<Outcome, Fault> {
    let ended = Box::new(alloc, ended)?;
    outcome_of(alloc, &ended)
}

// Does the actions of the case.
fn run_case(scene: &Scene<'_>, line: Line<'_>) -> Result<Outcome, Failure> {
    let actions = actions_of(scene.alloc, &scene.case.actions)?;
    let pages = at(line, pages_of(scene))?;
    let directories = at(line, directories_of(scene))?;
    let ended = match lock(&scene.disk, scene.root.as_str()) {
        Ok(locked) => carry_out(locked, actions, &pages, &directories),
        Err(fault) => Ended::Refused(fault),
    };
    at(line, outcome(scene.alloc, ended))
}

// Does the actions of the case while another call has the lock.
fn run_beside(scene: &Scene<'_>, line: Line<'_>) -> Result<Outcome, Failure> {
    let other = lock(&scene.disk, scene.root.as_str());
    let outcome = run_case(scene, line);
    drop(other);
    outcome
}

// The pages that change, with the texts that they had at first.
fn pages_of<'s>(scene: &'s Scene<'_>) -> Result<Vec<PageText<'s>>, Fault> {
    let mut pages = Vec::new(scene.alloc);
    for page in &scene.case.texts {
        let path = page.path.as_str();
        pages.push(PageText {
            path,
            text: text_among(&scene.case.files, path),
            file: page_file(&scene.disk, path)?,
        })?;
    }
    Ok(pages)
}

// The file of a page, or one that is nowhere.
fn page_file(disk: &Disk, path: &str) -> Result<PageFile, Fault> {
    match DiskStore::new(disk, "site")?.see(path)? {
        Some(found) => Ok(PageFile::of(&found)),
        None => Ok(PageFile {
            device: 0,
            inode: 0,
            mode: 0,
            owner: 0,
            group: 0,
        }),
    }
}

// The directories before the moves.
fn directories_of<'s>(scene: &'s Scene<'_>) -> Result<Vec<&'s str>, Fault> {
    let mut directories = Vec::new(scene.alloc);
    for directory in &scene.case.directories {
        directories.push(directory.as_str())?;
    }
    Ok(directories)
}

/// Ends the run that stopped.
pub fn end(scene: &Scene<'_>, direction: Direction, trust: Trust) -> Result<Outcome, Fault> {
    let ended = match lock(&scene.disk, scene.root.as_str()) {
        Ok(locked) => end_locked(locked, direction, trust),
        Err(fault) => Ended::Refused(fault),
    };
    outcome(scene.alloc, ended)
}

// Ends the run that stopped.
fn end_locked(locked: Locked<DiskStore<'_>>, direction: Direction, trust: Trust) -> Ended {
    match direction {
        Direction::Resume => resume(locked, trust),
        Direction::Undo => undo(locked, trust),
    }
}

// Asks what the end of a run that stopped changes.
fn changes(scene: &Scene<'_>, direction: Direction) -> Result<Outcome, Fault> {
    match words_of_changes(scene, direction) {
        Ok(answers) => {
            let done = outcome(scene.alloc, Ended::Done(Vec::new(scene.alloc)))?;
            Ok(Outcome { answers, ..done })
        }
        Err(fault) => outcome(scene.alloc, Ended::Refused(fault)),
    }
}

// What the end of a run that stopped changes, in words.
fn words_of_changes(scene: &Scene<'_>, direction: Direction) -> Result<Vec<String>, RunFault> {
    let mut locked = lock(&scene.disk, scene.root.as_str())?;
    let run = StoppedRun::read(&mut locked, Trust::AnyFolder)?;
    let changes = run.changes(scene.alloc, direction)?;
    let mut words = Vec::new(scene.alloc);
    for change in &changes {
        words.push(format!(in scene.alloc; "{change}")?)?;
    }
    Ok(words)
}

// Asks whether the actions of the case are possible.
fn ask_for_possible(scene: &Scene<'_>, line: Line<'_>) -> Result<Outcome, Failure> {
    let actions = actions_of(scene.alloc, &scene.case.actions)?;
    let mut store = at(line, store_of(scene))?;
    let ended = match need_possible(&mut store, &actions) {
        Ok(()) => Ended::Done(Vec::new(scene.alloc)),
        Err(fault) => Ended::Refused(fault),
    };
    at(line, outcome(scene.alloc, ended))
}

// The files below the root.
fn store_of<'s>(scene: &'s Scene<'_>) -> Result<DiskStore<'s>, Fault> {
    Ok(DiskStore::new(&scene.disk, scene.root.as_str())?)
}

// Asks whether nothing of a run is there.
fn ask_for_rest(scene: &Scene<'_>) -> Result<Outcome, Fault> {
    let mut store = store_of(scene)?;
    let ended = match need_rest(&mut store) {
        Ok(remarks) => Ended::Done(remarks),
        Err(fault) => Ended::Refused(fault),
    };
    outcome(scene.alloc, ended)
}

// Asks whether a journal is in these directories, or above the root.
fn ask_for_journals(scene: &Scene<'_>, words: &str) -> Result<Outcome, Fault> {
    let mut store = store_of(scene)?;
    let directories = words
        .split(' ')
        .filter(|word| !word.is_empty())
        .collect::<Vec<_>>(scene.alloc)?;
    let ended = match need_no_journal_near(&mut store, &directories) {
        Ok(remarks) => Ended::Done(remarks),
        Err(fault) => Ended::Refused(fault),
    };
    outcome(scene.alloc, ended)
}
