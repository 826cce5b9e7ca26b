//! What a run leaves: nothing is lost, and the run can be ended and taken back.
use crate::call::end;
use crate::case::{path_among, text_among};
use crate::outcome::{End, Outcome};
use crate::scene::{Flow, Scene, listing_of};
use relmove_disk::{Failing, below_site};
use relmove_run::{Direction, Trust};
use relmove_statements::{Failure, Fault, Line, at, need_listing};

/// Whether the last call, and what ends the run after it, lose nothing.
pub fn survives(scene: &mut Scene<'_>, line: Line<'_>) -> Result<Flow, Failure> {
    at(line, need_nothing_lost(scene))?;
    match &scene.last {
        Some(outcome) => match outcome.end {
            End::Done => need_done(scene, line, outcome)?,
            End::TakenBack if scene.is_run => need_back(scene, line, outcome)?,
            End::Refused if scene.is_run => need_refused(scene, line)?,
            _ => return ends(scene, line),
        },
        None => return ends(scene, line),
    }
    Ok(Flow::On)
}

/// Whether the run can be ended in the direction that the line says, or in each of both.
pub fn ends(scene: &mut Scene<'_>, line: Line<'_>) -> Result<Flow, Failure> {
    at(line, need_nothing_lost(scene))?;
    if at(line, is_to_resume(scene, line.rest))? {
        can_be_resumed(scene, line)?;
    } else {
        can_be_undone(scene, line)?;
    }
    Ok(Flow::On)
}

// Whether the run is to be ended by `resume`.
fn is_to_resume(scene: &mut Scene<'_>, words: &str) -> Result<bool, Fault> {
    match words {
        "" => Ok(scene.sweep.choose(scene.alloc, 2)? == 0),
        "by resume" => Ok(true),
        "by undo" => Ok(false),
        _ => Err(Fault::Wrong("no run ends so")),
    }
}

/// Fails unless each file is whole: with its old text, or with its page's new one, at its old path, its new path or a
/// staging name.
pub fn need_nothing_lost(scene: &Scene<'_>) -> Result<(), Fault> {
    for file in &scene.case.files {
        need_file(scene, file.path.as_str(), file.text.as_str())?;
    }
    Ok(())
}

// Fails unless a file is whole.
fn need_file(scene: &Scene<'_>, path: &str, text: &str) -> Result<(), Fault> {
    let case = &scene.case;
    let changed = text_among(&case.texts, path);
    let new_text = if changed.is_empty() { text } else { changed };
    let old = below_site(scene.alloc, path)?;
    let new = below_site(scene.alloc, path_among(&case.files_after, new_text))?;
    let (old, new) = (old.as_str(), new.as_str());
    if scene.disk.has_file(old, new, text)? || scene.disk.has_file(old, new, new_text)? {
        return Ok(());
    }
    Err(Fault::Unlike {
        what: "a file",
        found: String::from_str(scene.alloc, "nothing")?,
        expected: format!(in scene.alloc; "{path} {text:?}")?,
    })
}

// Ends the run, without a fault.
fn end_now(scene: &Scene<'_>, direction: Direction) -> Result<Outcome, Fault> {
    scene.disk.fail_at(0, Failing::Refused);
    end(scene, direction, Trust::ThisFolder)
}

// Fails at how a call ended.
fn unlike<T>(scene: &Scene<'_>, outcome: &Outcome, expected: &str) -> Result<T, Fault> {
    Err(Fault::Unlike {
        what: "the end",
        found: String::from_str(scene.alloc, outcome.words.as_str())?,
        expected: String::from_str(scene.alloc, expected)?,
    })
}

// Fails unless `resume` gives the tree after the moves. If the new texts weren't all written, it gives the tree before
// them. If there is no journal, the run had ended before its last call failed, or hadn't begun.
fn can_be_resumed(scene: &Scene<'_>, line: Line<'_>) -> Result<(), Failure> {
    let outcome = at(line, end_now(scene, Direction::Resume))?;
    match outcome.end {
        End::Done => need_done(scene, line, &outcome),
        End::TakenBack => need_back(scene, line, &outcome),
        End::NoJournal => need_whole(scene, line),
        _ => at(line, unlike(scene, &outcome, "an end by resume")),
    }
}

// Fails unless `undo` gives the tree before the moves, or changes nothing and says that it is too late.
fn can_be_undone(scene: &Scene<'_>, line: Line<'_>) -> Result<(), Failure> {
    let before = at(line, listing(scene))?;
    let outcome = at(line, end_now(scene, Direction::Undo))?;
    match outcome.end {
        End::TakenBack => need_back(scene, line, &outcome),
        End::TooLate => {
            at(
                line,
                need_listing(scene.alloc, &scene.disk, before.as_str()),
            )?;
            can_be_resumed(scene, line)
        }
        End::NoJournal => need_whole(scene, line),
        _ => at(line, unlike(scene, &outcome, "an end by undo")),
    }
}

// All that is on the disk.
fn listing(scene: &Scene<'_>) -> Result<String, Fault> {
    Ok(scene.disk.listing()?)
}

// Fails unless the disk has the tree after the moves. An emptied directory that couldn't be removed may be there too, if
// that was said.
fn need_done(scene: &Scene<'_>, line: Line<'_>, outcome: &Outcome) -> Result<(), Failure> {
    let stayed = at(line, remove_emptied(scene))?;
    if outcome.stays != stayed || outcome.remarks.len() != stayed {
        return at(line, unlike_remarks(scene, outcome, stayed));
    }
    need_after(scene, line)
}

// Fails at what a call says.
fn unlike_remarks(scene: &Scene<'_>, outcome: &Outcome, stayed: usize) -> Result<(), Fault> {
    let remarks = outcome.remarks.len();
    Err(Fault::Unlike {
        what: "the remarks",
        found: format!(in scene.alloc; "{remarks}")?,
        expected: format!(in scene.alloc; "one for each of {stayed} directories that stay")?,
    })
}

// Removes the directories that a run emptied, and returns how many were there.
fn remove_emptied(scene: &Scene<'_>) -> Result<usize, Fault> {
    let mut stayed = 0usize;
    for directory in &scene.case.emptied {
        let path = below_site(scene.alloc, directory.as_str())?;
        if scene.disk.has(path.as_str())? {
            scene.disk.remove(path.as_str())?;
            stayed = stayed.saturating_add(1);
        }
    }
    Ok(stayed)
}

// Fails unless the disk has the tree before the moves, and there is nothing to say.
fn need_back(scene: &Scene<'_>, line: Line<'_>, outcome: &Outcome) -> Result<(), Failure> {
    if !outcome.remarks.is_empty() {
        return at(line, unlike_remarks(scene, outcome, 0));
    }
    need_before(scene, line)
}

// Fails unless a run that was refused left the tree as before. After a kill the beginning of a journal may be left, which
// `resume` removes.
fn need_refused(scene: &Scene<'_>, line: Line<'_>) -> Result<(), Failure> {
    if scene.is_killed {
        let outcome = at(line, end_now(scene, Direction::Resume))?;
        if outcome.end != End::NoJournal {
            return at(line, unlike(scene, &outcome, "no journal"));
        }
    }
    need_before(scene, line)
}

/// Fails unless the disk has the tree before the moves.
pub fn need_before(scene: &Scene<'_>, line: Line<'_>) -> Result<(), Failure> {
    need_listed(scene, line, scene.listing_before.as_str())
}

/// Fails unless the disk has the tree after the moves.
pub fn need_after(scene: &Scene<'_>, line: Line<'_>) -> Result<(), Failure> {
    need_listed(scene, line, scene.listing_after.as_str())
}

/// Fails unless the disk has the tree that lines say.
pub fn need_tree(scene: &Scene<'_>, line: Line<'_>, tree: &[Line<'_>]) -> Result<(), Failure> {
    let expected = listing_of(scene.alloc, tree)?;
    need_listed(scene, line, expected.as_str())
}

// Fails unless exactly this is on the disk.
fn need_listed(scene: &Scene<'_>, line: Line<'_>, expected: &str) -> Result<(), Failure> {
    at(line, need_listing(scene.alloc, &scene.disk, expected))
}

// Fails unless the tree is as before the moves or as after them.
fn need_whole(scene: &Scene<'_>, line: Line<'_>) -> Result<(), Failure> {
    match need_before(scene, line) {
        Ok(()) => Ok(()),
        Err(_) => need_after(scene, line),
    }
}
