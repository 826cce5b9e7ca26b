//! Statements that say what a call did.
use crate::faults::journal_on;
use crate::outcome::End;
use crate::scene::{Flow, Scene};
use relmove_disk::DiskStore;
use relmove_statements::{Fault, Line, has, need_listing, need_same, number_of, text_of, two_of};
use std::alloc::Global;

/// Fails unless the last call ended so, with the remarks and the answers that the lines below say.
pub fn need_end(scene: &Scene<'_>, expected: &str, below: &[Line<'_>]) -> Result<Flow, Fault> {
    let last = scene.last()?;
    let expected = text_of(scene.alloc, expected)?;
    need_same(
        scene.alloc,
        "the end",
        last.words.as_str(),
        expected.as_str(),
    )?;
    need_lines(scene.alloc, "the remarks", &last.remarks, "!", below)?;
    need_lines(scene.alloc, "the changes", &last.answers, "|", below)?;
    Ok(Flow::On)
}

/// Fails unless the last call has the remarks that the lines below say.
pub fn need_remarks(scene: &Scene<'_>, below: &[Line<'_>]) -> Result<Flow, Fault> {
    let last = scene.last()?;
    need_lines(scene.alloc, "the remarks", &last.remarks, "!", below)?;
    Ok(Flow::On)
}

// Fails unless texts are those of the lines of a name.
fn need_lines(
    alloc: Global,
    what: &'static str,
    found: &[String],
    name: &str,
    below: &[Line<'_>],
) -> Result<(), Fault> {
    let found = joined(alloc, found)?;
    let expected = lines_named(alloc, name, below)?;
    need_same(alloc, what, found.as_str(), expected.as_str())
}

// Texts, a line each.
fn joined(alloc: Global, texts: &[String]) -> Result<String, Fault> {
    let mut lines = String::new(alloc);
    for text in texts {
        lines.push_str(text.as_str())?;
        lines.push('\n')?;
    }
    Ok(lines)
}

// The lines of a name right below a statement, a line each.
fn lines_named(alloc: Global, name: &str, below: &[Line<'_>]) -> Result<String, Fault> {
    let mut lines = String::new(alloc);
    for line in below {
        if line.name != "!" && line.name != "|" {
            break;
        }
        if line.name == name {
            lines.push_str(line.rest)?;
            lines.push('\n')?;
        }
    }
    Ok(lines)
}

/// Passes over the rest unless something is so.
pub fn go_on_if(scene: &Scene<'_>, words: &str) -> Result<Flow, Fault> {
    let is_so = match words.strip_prefix("not ") {
        Some(words) => !is_true(scene, words)?,
        None => is_true(scene, words)?,
    };
    Ok(if is_so { Flow::On } else { Flow::Pass })
}

/// Fails if something is so.
pub fn need_never(scene: &Scene<'_>, words: &str) -> Result<Flow, Fault> {
    if is_true(scene, words)? {
        return Err(Fault::Wrong("this is so"));
    }
    Ok(Flow::On)
}

// Whether something is so.
fn is_true(scene: &Scene<'_>, words: &str) -> Result<bool, Fault> {
    if let Some(words) = words.strip_prefix("has ") {
        return has(scene.alloc, &scene.disk, words);
    }
    if let Some(reason) = words.strip_prefix("because ") {
        return Ok(scene.last()?.words.as_str().ends_with(reason));
    }
    match words {
        "changed" => Ok(listing_outside(scene)?.as_str() != scene.remembered.as_str()),
        "remarks" => Ok(!scene.last()?.remarks.is_empty()),
        _ => Ok(ends_so(scene.last()?.words.as_str(), words)),
    }
}

// Whether a call ended so. The stage and the reason may follow.
fn ends_so(found: &str, words: &str) -> bool {
    match found.strip_prefix(words) {
        Some(rest) => rest.is_empty() || rest.starts_with(':') || rest.starts_with(' '),
        None => false,
    }
}

/// Fails unless what is on the disk is what was there before the last call.
pub fn need_same_disk(scene: &Scene<'_>) -> Result<Flow, Fault> {
    need_listing(scene.alloc, &scene.disk, scene.before.as_str())?;
    Ok(Flow::On)
}

/// What is on the disk outside the directory `site`.
pub fn listing_outside(scene: &Scene<'_>) -> Result<String, Fault> {
    let listing = scene.disk.listing()?;
    let mut outside = String::new(scene.alloc);
    for line in listing.as_str().split_inclusive('\n') {
        if !line.starts_with("site ") && !line.starts_with("site/") {
            outside.push_str(line)?;
        }
    }
    Ok(outside)
}

/// Fails unless what is at a path has these permissions, this user and this group.
pub fn need_rights(scene: &Scene<'_>, words: &str) -> Result<Flow, Fault> {
    let (path, expected) = two_of(words)?;
    let (mode, user, group) = scene.disk.rights(scene.path(path)?.as_str())?;
    let found = format!(in scene.alloc; "{mode:o} {user} {group}")?;
    need_same(scene.alloc, "the rights", found.as_str(), expected)?;
    Ok(Flow::On)
}

/// Fails if another user than its owner can read what is at a path, and it doesn't have this group.
pub fn need_private(scene: &Scene<'_>, words: &str) -> Result<Flow, Fault> {
    let (path, group) = two_of(words)?;
    let (mode, _, found) = scene.disk.rights(scene.path(path)?.as_str())?;
    if found == number_of(group)? || mode & 0o077 == 0 {
        return Ok(Flow::On);
    }
    Err(Fault::Wrong("others can read it"))
}

/// Fails unless what is at a path is on the disk.
pub fn need_synced(scene: &Scene<'_>, word: &str) -> Result<Flow, Fault> {
    if scene.disk.is_synced(scene.path(word)?.as_str())? {
        return Ok(Flow::On);
    }
    Err(Fault::Wrong("it isn't synced"))
}

/// Fails unless the disk was asked so often what is at a path.
pub fn need_questions(scene: &Scene<'_>, digits: &str) -> Result<Flow, Fault> {
    if scene.disk.questions() == number_of(digits)? {
        return Ok(Flow::On);
    }
    Err(Fault::Wrong("it was asked for more often, or less often"))
}

/// Fails if the last call stopped, and says another stage than the journal on the disk.
pub fn need_true_stage(scene: &Scene<'_>) -> Result<Flow, Fault> {
    let last = scene.last()?;
    let End::Stopped(stage) = last.end else {
        return Err(Fault::Wrong("the call didn't stop"));
    };
    let said = last.has_journal.then_some(stage);
    let found = match &journal_on(scene)? {
        Some(journal) => Some(journal.stage),
        None => None,
    };
    if said == found {
        return Ok(Flow::On);
    }
    Err(Fault::Wrong("the journal says another stage"))
}

/// Fails unless the journal on the disk says the time and the owner of its file.
pub fn need_true_origin(scene: &Scene<'_>) -> Result<Flow, Fault> {
    let found = DiskStore::new(&scene.disk, "site")?.see(".relmove")?;
    let (Some(found), Some(journal)) = (found, journal_on(scene)?) else {
        return Err(Fault::Wrong("no journal is there"));
    };
    let origin = journal.origin;
    if origin.time == found.made && origin.owner == u64::from(found.owner) {
        return Ok(Flow::On);
    }
    Err(Fault::Wrong("the journal says another time or owner"))
}
