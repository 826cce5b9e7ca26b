//! The actions of a run, and the work that a journal lists.
use relmove_actions::{Actions, NewText, Rename};
use relmove_run::{Leftover, Stage, TextDigest, TextFile, Work};
use relmove_statements::{Failure, Fault, Line, at, text_of, two_of, word_of};
use std::alloc::Global;

/// The stages by name.
const STAGES: [(&str, Stage); 9] = [
    ("writing", Stage::Writing),
    ("staging", Stage::Staging),
    ("making", Stage::Making),
    ("placing", Stage::Placing),
    ("cleaning", Stage::Cleaning),
    ("unplacing", Stage::Unplacing),
    ("unmaking", Stage::Unmaking),
    ("unstaging", Stage::Unstaging),
    ("erasing", Stage::Erasing),
];

/// The stage of a name.
pub fn stage_of(name: &str) -> Result<Stage, Fault> {
    for (known, stage) in &STAGES {
        if *known == name {
            return Ok(*stage);
        }
    }
    Err(Fault::Wrong("not a stage"))
}

/// The name of a stage.
pub fn name_of_stage(stage: Stage) -> &'static str {
    for (name, known) in &STAGES {
        if *known == stage {
            return name;
        }
    }
    ""
}

// A rename.
fn rename_of(alloc: Global, words: &str) -> Result<Rename, Fault> {
    let (from, to) = two_of(words)?;
    Ok(Rename {
        from: word_of(alloc, from)?,
        to: word_of(alloc, to)?,
    })
}

// A new text of a page: the page, its file and the text.
fn new_text_of(alloc: Global, words: &str) -> Result<NewText, Fault> {
    let (page, words) = two_of(words)?;
    let (file, text) = two_of(words)?;
    Ok(NewText {
        page: word_of(alloc, page)?,
        file: word_of(alloc, file)?,
        text: text_of(alloc, text)?,
    })
}

// A file, and the digest of a text, which is missing if it is empty.
fn text_file_of(alloc: Global, words: &str) -> Result<TextFile, Fault> {
    let (path, text) = words.split_once(' ').unwrap_or((words, ""));
    let text = text_of(alloc, text)?;
    Ok(TextFile {
        path: word_of(alloc, path)?,
        digest: TextDigest::of(text.as_str().as_bytes()),
    })
}

/// No actions.
pub fn no_actions(alloc: Global) -> Actions {
    Actions {
        texts: Vec::new(alloc),
        staged: Vec::new(alloc),
        made: Vec::new(alloc),
        placed: Vec::new(alloc),
        removed: Vec::new(alloc),
        emptied: Vec::new(alloc),
    }
}

/// The actions that lines list.
pub fn actions_of(alloc: Global, lines: &[Line<'_>]) -> Result<Actions, Failure> {
    let mut actions = no_actions(alloc);
    for line in lines {
        at(*line, add_action(alloc, &mut actions, line.name, line.rest))?;
    }
    Ok(actions)
}

// Adds an action.
fn add_action(alloc: Global, actions: &mut Actions, name: &str, words: &str) -> Result<(), Fault> {
    match name {
        "text" => Ok(actions.texts.push(new_text_of(alloc, words)?)?),
        "stage" => Ok(actions.staged.push(rename_of(alloc, words)?)?),
        "make" => Ok(actions.made.push(word_of(alloc, words)?)?),
        "place" => Ok(actions.placed.push(rename_of(alloc, words)?)?),
        "remove" => Ok(actions.removed.push(word_of(alloc, words)?)?),
        "empty" => Ok(actions.emptied.push(word_of(alloc, words)?)?),
        _ => Err(Fault::Wrong("no action has this name")),
    }
}

/// The work that lines list.
pub fn work_of(alloc: Global, lines: &[Line<'_>]) -> Result<Work, Fault> {
    let mut work = Work::new(alloc);
    for line in lines {
        add_work(alloc, &mut work, line.name, line.rest)?;
    }
    Ok(work)
}

// Adds a line of work.
fn add_work(alloc: Global, work: &mut Work, name: &str, words: &str) -> Result<(), Fault> {
    match name {
        "text" => Ok(work.texts.push(text_file_of(alloc, words)?)?),
        "stage" => Ok(work.staged.push(rename_of(alloc, words)?)?),
        "make" => Ok(work.made.push(word_of(alloc, words)?)?),
        "place" => Ok(work.placed.push(rename_of(alloc, words)?)?),
        "remove" => add_leftover(work, Leftover::Text(text_file_of(alloc, words)?)),
        "empty" => add_leftover(work, Leftover::Directory(word_of(alloc, words)?)),
        _ => Err(Fault::Wrong("no action has this name")),
    }
}

// Adds what is removed at the end.
fn add_leftover(work: &mut Work, leftover: Leftover) -> Result<(), Fault> {
    Ok(work.cleaned.push(leftover)?)
}
