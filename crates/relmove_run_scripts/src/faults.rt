//! What happens in a call: which of its calls of the file system fails, and what another program does before one.
use crate::outcome::End;
use crate::scene::{Flow, NOTHING, Scene};
use crate::work::stage_of;
use relmove_disk::Failing;
use relmove_run::{Journal, journal_of};
use relmove_statements::{Fault, failing_of, has_text, number_of, surprise, two_of, words_of};
use std::alloc::Global;

/// The journal's path.
pub const JOURNAL: &str = "site/.relmove";

// What the lines of files begin with that are written anew.
const WRITTEN: [&str; 2] = ["site/.relmove-journal ", "site/.relmove-spare "];

/// One of the words, each in its turn.
pub fn choose_word(scene: &mut Scene<'_>, words: &str) -> Result<String, Fault> {
    let words = words_of(scene.alloc, words)?;
    let index = scene.sweep.choose(scene.alloc, words.len())?;
    match words.get(index) {
        Some(word) => Ok(String::from_str(scene.alloc, word.as_str())?),
        None => Err(Fault::Wrong("a word is missing")),
    }
}

/// Makes a call of the next call fail: `HOW at MOMENT`.
pub fn fail(scene: &mut Scene<'_>, words: &str) -> Result<Flow, Fault> {
    let Some((ways, moment)) = words.split_once(" at ") else {
        return Err(Fault::Wrong("no moment is said"));
    };
    if let Some(number) = moment_of(scene, moment)? {
        let way = choose_word(scene, ways)?;
        scene.armed.number = number;
        scene.armed.failing = failing_of(way.as_str())?;
    }
    Ok(Flow::On)
}

/// Makes a second call of the next call fail.
pub fn refuse(scene: &mut Scene<'_>, words: &str) -> Result<Flow, Fault> {
    let Some(moment) = words.strip_prefix("at ") else {
        return Err(Fault::Wrong("no moment is said"));
    };
    if let Some(number) = moment_of(scene, moment)? {
        scene.armed.refused = number;
    }
    Ok(Flow::On)
}

/// What another program does in the next call: `MOMENT: STATEMENT`.
pub fn before(scene: &mut Scene<'_>, words: &str) -> Result<Flow, Fault> {
    let Some((moment, deed)) = words.split_once(": ") else {
        return Err(Fault::Wrong("no moment is said"));
    };
    if let Some(number) = moment_of(scene, moment)? {
        scene.armed.needed = scene.armed.needed.max(number);
        surprise(scene.alloc, &scene.disk, number, deed)?;
    }
    Ok(Flow::On)
}

// The number of a moment, or `None` while it is looked for.
fn moment_of(scene: &mut Scene<'_>, words: &str) -> Result<Option<u32>, Fault> {
    if scene.armed.search.is_some() {
        return Ok(None);
    }
    let (base, offset) = match words.split_once(" + ") {
        Some((base, range)) => (base, choose_number(scene, range)?),
        None => (words, 0),
    };
    let (base, less) = match base.split_once(" - ") {
        Some((base, digits)) => (base, number_of(digits)?),
        None => (base, 0),
    };
    let Some(number) = base_of(scene, base)? else {
        return Ok(None);
    };
    scene.number = number.saturating_add(offset).saturating_sub(less);
    Ok(Some(scene.number))
}

/// A number, or each one of a range `FIRST..LAST` in its turn.
pub fn choose_number(scene: &mut Scene<'_>, words: &str) -> Result<u32, Fault> {
    let Some((first, last)) = words.split_once("..") else {
        return number_of(words);
    };
    let (first, last) = (number_of(first)?, number_of(last)?);
    let index = scene.sweep.take(scene.alloc, first)?;
    let slot = scene.sweep.slot(index)?;
    slot.has_next = slot.value < last;
    Ok(slot.value)
}

// The number of a moment without what is added to it.
fn base_of(scene: &mut Scene<'_>, words: &str) -> Result<Option<u32>, Fault> {
    match words {
        "same call" => Ok(Some(scene.number)),
        "that call" => Ok(Some(scene.each)),
        "each call" => Ok(Some(each_call(scene)?)),
        "each moment" => {
            scene.armed.has_moments = true;
            Ok(Some(each_call(scene)?))
        }
        _ => match words.strip_prefix("call ") {
            Some(digits) => Ok(Some(number_of(digits)?)),
            None => look_for(scene, words),
        },
    }
}

// Each call in its turn.
fn each_call(scene: &mut Scene<'_>) -> Result<u32, Fault> {
    let index = scene.sweep.take(scene.alloc, 1)?;
    scene.armed.each = Some(index);
    scene.each = scene.sweep.slot(index)?.value;
    Ok(scene.each)
}

// The number of a call that is known by what it does, or `None` while it is looked for.
fn look_for(scene: &mut Scene<'_>, words: &str) -> Result<Option<u32>, Fault> {
    let index = scene.sweep.take(scene.alloc, 1)?;
    let slot = scene.sweep.slot(index)?;
    let number = slot.value;
    if slot.is_found {
        return Ok(Some(number));
    }
    scene.sought = String::from_str(scene.alloc, words)?;
    scene.armed = NOTHING;
    scene.armed.number = number;
    scene.armed.failing = Failing::Killed;
    scene.armed.search = Some(index);
    Ok(None)
}

/// Whether a script goes on after its call made so many calls.
pub fn judge(scene: &mut Scene<'_>, calls: u32) -> Result<Flow, Fault> {
    if let Some(index) = scene.armed.search {
        return judge_search(scene, index, calls);
    }
    if let Some(index) = scene.armed.each {
        let has_moments = scene.armed.has_moments;
        let slot = scene.sweep.slot(index)?;
        slot.has_next = calls >= slot.value;
        if has_moments && !is_moment(scene, index)? {
            return Ok(Flow::Pass);
        }
    }
    if calls < scene.armed.needed {
        return Ok(Flow::Pass);
    }
    Ok(Flow::On)
}

// Ends a search, or goes on to the next call.
fn judge_search(scene: &mut Scene<'_>, index: usize, calls: u32) -> Result<Flow, Fault> {
    let is_last = scene.sought.as_str() == "last call";
    let number = scene.sweep.slot(index)?.value;
    let is_past = calls < number;
    let is_there = if is_last { is_past } else { is_sought(scene)? };
    let slot = scene.sweep.slot(index)?;
    if is_there {
        slot.is_found = true;
        slot.is_new = true;
        if is_last {
            slot.value = number.saturating_sub(1);
        }
        return Ok(Flow::Pass);
    }
    if is_past {
        return Err(Fault::Wrong("no call is like this"));
    }
    slot.has_next = true;
    Ok(Flow::Pass)
}

// Whether the call is there that is looked for.
fn is_sought(scene: &Scene<'_>) -> Result<bool, Fault> {
    let (name, words) = two_of(scene.sought.as_str())?;
    match name {
        "stage" => stops_at(scene, words),
        "path" => Ok(scene.disk.has(scene.path(words)?.as_str())?),
        "text" => {
            let (path, text) = two_of(words)?;
            has_text(scene.alloc, &scene.disk, path, text)
        }
        "journal" => says_stage(scene, words),
        _ => Err(Fault::Wrong("no such moment")),
    }
}

// Whether the last call stopped at a stage.
fn stops_at(scene: &Scene<'_>, name: &str) -> Result<bool, Fault> {
    let end = scene.last()?.end;
    Ok(end == End::Stopped(stage_of(name)?))
}

// Whether a journal that says this stage is on the disk.
fn says_stage(scene: &Scene<'_>, name: &str) -> Result<bool, Fault> {
    let stage = stage_of(name)?;
    match &journal_on(scene)? {
        Some(journal) => Ok(journal.stage == stage),
        None => Ok(false),
    }
}

/// The journal on the disk, if there is one.
pub fn journal_on(scene: &Scene<'_>) -> Result<Option<Journal>, Fault> {
    if !scene.disk.has(JOURNAL)? {
        return Ok(None);
    }
    let Ok(text) = String::from_utf8(scene.disk.text_at(JOURNAL)?) else {
        return Err(Fault::Wrong("the journal isn't UTF-8"));
    };
    match journal_of(scene.alloc, text.as_str()) {
        Ok(journal) => Ok(Some(journal)),
        Err(_) => Err(Fault::Wrong("the journal isn't one")),
    }
}

// Whether something else is on the disk than before the call before, but for texts of journals that are being written.
fn is_moment(scene: &mut Scene<'_>, index: usize) -> Result<bool, Fault> {
    if scene.sweep.slot(index)?.is_found {
        return Ok(true);
    }
    let names = names_on(scene.alloc, scene.disk.listing()?.as_str())?;
    let slot = scene.sweep.slot(index)?;
    if slot.names.as_str() == names.as_str() {
        return Ok(false);
    }
    slot.names = names;
    slot.is_found = true;
    Ok(true)
}

// A list of what is on a disk, without texts of journals that are being written.
fn names_on(alloc: Global, listing: &str) -> Result<String, Fault> {
    let mut names = String::new(alloc);
    for line in listing.split_inclusive('\n') {
        let is_written = WRITTEN.iter().any(|path| line.starts_with(*path));
        let shown = match line.split_once(' ') {
            Some((path, _)) if is_written => path,
            _ => line,
        };
        names.push_str(shown)?;
    }
    Ok(names)
}
