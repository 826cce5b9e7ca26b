//! Statements that change the disk in ways that runs alone ask for.
use crate::checks::listing_outside;
use crate::faults::{JOURNAL, choose_number, choose_word, journal_on};
use crate::scene::{Flow, Scene};
use crate::work::{stage_of, work_of};
use relmove_disk::{Content, Disk, file_of};
use relmove_run::{Journal, Origin, Stage, Work, journal_text};
use relmove_statements::{
    Definition, Fault, count_questions, lines_named, number_of, owner_of, two_of, word_of,
};
use std::io::ErrorKind;

/// Does what a statement says of the disk that no call changes. Returns whether it has a meaning.
pub fn set(scene: &mut Scene<'_>, name: &str, words: &str) -> Result<bool, Fault> {
    match name {
        "root" => scene.root = word_of(scene.alloc, words)?,
        "hard-link" => add_hard_link(scene, words)?,
        "copy" => copy(scene, words)?,
        "device" => set_device(scene, words)?,
        "mask" => set_mask(scene, words)?,
        "user" => set_user(scene, words)?,
        "parts" => set_parts(scene, words)?,
        "room" => leave_room(scene, words)?,
        "measure" => measure(scene, words)?,
        _ => return set_kind(scene, name, words),
    }
    Ok(true)
}

// Does what a statement says of the kind of the disk.
fn set_kind(scene: &mut Scene<'_>, name: &str, words: &str) -> Result<bool, Fault> {
    match name {
        "no-hard-links" => refuse_hard_links(scene, words)?,
        "no-syncs" => refuse_syncs(scene, words)?,
        "inode-for-each-path" => scene.disk.set_inode_for_each_path(),
        "one-inode" => scene.disk.set_one_inode(),
        "giving" => scene.disk.allow_giving(true),
        "locked" => scene.disk.set_locked(true),
        "ask-for" => count_questions(scene.alloc, &scene.disk, words)?,
        "remember" => scene.remembered = listing_outside(scene)?,
        "forge" => forge(scene, words)?,
        _ => return Ok(false),
    }
    Ok(true)
}

// Gives a file a second name.
fn add_hard_link(scene: &Scene<'_>, words: &str) -> Result<(), Fault> {
    let (from, to) = two_of(words)?;
    let (from, to) = (scene.path(from)?, scene.path(to)?);
    Ok(scene.disk.add_hard_link(from.as_str(), to.as_str())?)
}

// Puts another file with the same text in the place of a file.
fn copy(scene: &Scene<'_>, word: &str) -> Result<(), Fault> {
    let path = scene.path(word)?;
    let bytes = scene.disk.text_at(path.as_str())?;
    scene.disk.remove(path.as_str())?;
    Ok(scene.disk.add(path.as_str(), Content::File(bytes))?)
}

// Puts what is at a path on another device.
fn set_device(scene: &Scene<'_>, words: &str) -> Result<(), Fault> {
    let (word, digits) = two_of(words)?;
    let path = scene.path(word)?;
    Ok(
        scene
            .disk
            .set_device(path.as_str(), u64::from(number_of(digits)?))?,
    )
}

// Takes permissions away from new files and directories.
fn set_mask(scene: &mut Scene<'_>, words: &str) -> Result<(), Fault> {
    let digits = choose_word(scene, words)?;
    match u32::from_str_radix(digits.as_str(), 8) {
        Ok(mask) => {
            scene.disk.set_mask(mask);
            Ok(())
        }
        Err(_) => Err(Fault::Wrong("not a mode")),
    }
}

// From now on the process is one of another user.
fn set_user(scene: &Scene<'_>, words: &str) -> Result<(), Fault> {
    let (user, group) = owner_of(words)?;
    Ok(scene.disk.set_user(user, group)?)
}

// From now on each call writes at most so many bytes.
fn set_parts(scene: &Scene<'_>, digits: &str) -> Result<(), Fault> {
    scene.disk.set_most_written(number_of(digits)? as usize);
    Ok(())
}

// Leaves room for so many bytes, beside those that were measured.
fn leave_room(scene: &mut Scene<'_>, words: &str) -> Result<(), Fault> {
    let bytes = choose_number(scene, words)?;
    let room = scene.measured.saturating_add(u64::from(bytes));
    Ok(scene.disk.leave_room(room)?)
}

// Adds the bytes of a file to those that were measured.
fn measure(scene: &mut Scene<'_>, word: &str) -> Result<(), Fault> {
    let path = scene.path(word)?;
    let length = scene.disk.text_at(path.as_str())?.len() as u64;
    scene.measured = scene.measured.saturating_add(length);
    Ok(())
}

// What a system says of a call that it doesn't have.
fn why_of(name: &str) -> Result<ErrorKind, Fault> {
    match name {
        "not-found" => Ok(ErrorKind::NotFound),
        "not-a-directory" => Ok(ErrorKind::NotADirectory),
        "permission-denied" => Ok(ErrorKind::PermissionDenied),
        "invalid-filename" => Ok(ErrorKind::InvalidFilename),
        "invalid-input" => Ok(ErrorKind::InvalidInput),
        "unsupported" => Ok(ErrorKind::Unsupported),
        "crosses-devices" => Ok(ErrorKind::CrossesDevices),
        "too-many-links" => Ok(ErrorKind::TooManyLinks),
        _ => Err(Fault::Wrong("no system says this")),
    }
}

// From now on no file gets a second name.
fn refuse_hard_links(scene: &mut Scene<'_>, words: &str) -> Result<(), Fault> {
    let word = choose_word(scene, words)?;
    scene.disk.refuse_hard_links(why_of(word.as_str())?);
    Ok(())
}

// From now on no directory can be synced.
fn refuse_syncs(scene: &mut Scene<'_>, words: &str) -> Result<(), Fault> {
    let word = choose_word(scene, words)?;
    scene.disk.refuse_directory_syncs(why_of(word.as_str())?);
    Ok(())
}

/// Puts a journal on the disk: its stage, and the definition that lists its work. It doesn't say that it was written there.
pub fn put_journal(
    scene: &Scene<'_>,
    words: &str,
    definitions: &[Definition<'_, '_>],
) -> Result<Flow, Fault> {
    let (stage, name) = two_of(words)?;
    let work = work_of(scene.alloc, lines_named(name, definitions)?)?;
    let nowhere = Origin {
        root: 0,
        file: 0,
        run: 0,
        owner: 0,
        time: 0,
    };
    write_journal(scene, &scene.disk, nowhere, stage_of(stage)?, &work)?;
    Ok(Flow::On)
}

// Puts a journal in the file that is there, or in a new one.
fn write_journal(
    scene: &Scene<'_>,
    disk: &Disk,
    origin: Origin,
    stage: Stage,
    work: &Work,
) -> Result<(), Fault> {
    let Ok(text) = journal_text(scene.alloc, origin, stage, work) else {
        return Err(Fault::Wrong("no journal says this"));
    };
    Ok(disk.add(JOURNAL, file_of(scene.alloc, text.as_str())?)?)
}

// Writes another origin into the journal on the disk.
fn forge(scene: &Scene<'_>, words: &str) -> Result<(), Fault> {
    let Some(
        Journal {
            origin,
            stage,
            work,
        },
    ) = journal_on(scene)?
    else {
        return Err(Fault::Wrong("no journal is there"));
    };
    let forged = match words {
        "time" => Origin {
            time: origin.time.saturating_sub(1),
            ..origin
        },
        _ => Origin {
            owner: u64::from(number_of(words)?),
            ..origin
        },
    };
    write_journal(scene, &scene.disk, forged, stage, &work)
}
