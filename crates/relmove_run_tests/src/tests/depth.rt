//! Files in directories that are in one another: a run asks for each directory about as often as there are files, and not
//! for each directory above each file.
use relmove_actions::{Actions, Rename};
use relmove_disk::{Content, Disk, DiskStore, disk_of, file_of};
use relmove_run::{Ended, Locked, carry_out};
use std::alloc::{AllocError, Global};
use std::test::Fail;

// The path of a directory at this depth.
fn directory_at(alloc: Global, depth: u32) -> Result<String, AllocError> {
    let mut path = String::from_str(alloc, "d")?;
    for _ in 1..depth {
        path.push_str("/d")?;
    }
    Ok(path)
}

// A disk with directories in one another, and a file in each.
fn deep_disk(alloc: Global, depth: u32) -> Result<Disk, Fail> {
    let disk = disk_of(alloc, &[])?;
    for at in 1..=depth {
        let directory = directory_at(alloc, at)?;
        let directory = directory.as_str();
        let full = format!(in alloc; "site/{directory}")?;
        disk.add(full.as_str(), Content::Directory)?;
        let file = format!(in alloc; "site/{directory}/x")?;
        disk.add(file.as_str(), file_of(alloc, "x")?)?;
    }
    Ok(disk)
}

// Actions that rename each of the files.
fn deep_actions(alloc: Global, depth: u32) -> Result<Actions, AllocError> {
    let mut actions = Actions {
        texts: Vec::new(alloc),
        staged: Vec::new(alloc),
        made: Vec::new(alloc),
        placed: Vec::new(alloc),
        removed: Vec::new(alloc),
        emptied: Vec::new(alloc),
    };
    for at in 1..=depth {
        let directory = directory_at(alloc, at)?;
        let directory = directory.as_str();
        let name = format!(in alloc; ".relmove-{at}")?;
        actions.staged.push(Rename {
            from: format!(in alloc; "{directory}/x")?,
            to: String::from_str(alloc, name.as_str())?,
        })?;
        actions.placed.push(Rename {
            from: name,
            to: format!(in alloc; "{directory}/y")?,
        })?;
    }
    Ok(actions)
}

// Whether a run does these actions.
fn is_done(disk: &Disk, actions: Actions) -> Result<bool, Fail> {
    let Ok(locked) = Locked::new(DiskStore::new(disk, "site")?) else {
        return Ok(false);
    };
    let ended = carry_out(locked, actions, &[], &[]);
    Ok(matches!(&ended, Ended::Done(_)))
}

// How often a run asks for the topmost directory, if the run renames the files at each depth up to this one.
fn questions_at(alloc: Global, depth: u32) -> Result<u32, Fail> {
    let disk = deep_disk(alloc, depth)?;
    disk.count_questions("site/d")?;
    if is_done(&disk, deep_actions(alloc, depth)?)? {
        return Ok(disk.questions());
    }
    Err(Fail::new("the run isn't done"))
}

// The topmost directory isn't asked for again for each file that is staged, and for each file that is placed.
#[test]
fn asks_for_a_directory_a_few_times(rt: HostRuntime) -> Result<(), Fail> {
    let few = questions_at(rt.alloc(), 3)?;
    let found = questions_at(rt.alloc(), 12)?;
    if found == few {
        return Ok(());
    }
    Err(Fail::new(format_args!("at any depth: {found}, not {few}")))
}
