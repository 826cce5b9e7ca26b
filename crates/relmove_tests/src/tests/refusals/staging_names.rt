//! The paths that a run has for those of a plan, and its work.
use super::marks::{begin, end};
use crate::tests::same;
use relmove_actions::{Actions, NewText, Rename};
use relmove_journal::{Leftover, TextDigest, TextFile, Work};
use relmove_work::{staging_path, text_path, work_of};
use std::alloc::{AllocError, Global};
use std::collections::BTreeMap;
use std::test::Fail;

// Requests: 12 24 = 1
#[test]
fn the_path_for_a_label(rt: HostRuntime) -> Result<(), Fail> {
    begin(rt.alloc());
    let answer = staging_path(rt.alloc(), ".relmove-1/guide");
    end(rt.alloc(), answer.is_err())?;
    match answer {
        Ok(path) => same("the path", &path.as_str(), &".relmove-run/1/guide"),
        Err(_) => Ok(()),
    }
}

// Requests: 12 24 = 1
#[test]
fn the_path_of_a_new_text(rt: HostRuntime) -> Result<(), Fail> {
    begin(rt.alloc());
    let answer = text_path(rt.alloc(), "guide/.relmove-2");
    end(rt.alloc(), answer.is_err())?;
    match answer {
        Ok(path) => same("the path", &path.as_str(), &".relmove-run/2"),
        Err(_) => Ok(()),
    }
}

// A rename.
fn rename(alloc: Global, from: &str, to: &str) -> Result<Rename, AllocError> {
    Ok(Rename {
        from: String::from_str(alloc, from)?,
        to: String::from_str(alloc, to)?,
    })
}

// The actions for a page that moves and changes, with a directory to make and one that it may leave empty.
fn actions(alloc: Global) -> Result<Actions, AllocError> {
    let text = NewText {
        page: String::from_str(alloc, "g/a.md")?,
        file: String::from_str(alloc, "g/.relmove-2")?,
        text: String::from_str(alloc, "b")?,
    };
    let page = rename(alloc, "g/a.md", ".relmove-1")?;
    let new = rename(alloc, "g/.relmove-2", ".relmove-3")?;
    let made = String::from_str(alloc, "d")?;
    let placed = rename(alloc, ".relmove-3", "d/b.md")?;
    let removed = String::from_str(alloc, ".relmove-1")?;
    let emptied = String::from_str(alloc, "g")?;
    Ok(Actions {
        texts: vec![in alloc; text]?,
        staged: vec![in alloc; page, new]?,
        made: vec![in alloc; made]?,
        placed: vec![in alloc; placed]?,
        removed: vec![in alloc; removed]?,
        emptied: vec![in alloc; emptied]?,
    })
}

// The text of the page.
fn pages(alloc: Global) -> Result<BTreeMap<&'static str, &'static str>, AllocError> {
    let mut pages = BTreeMap::new(alloc);
    pages.insert("g/a.md", "a")?;
    Ok(pages)
}

// A text in a file.
fn text_file(alloc: Global, path: &str, text: &[u8]) -> Result<TextFile, AllocError> {
    Ok(TextFile {
        path: String::from_str(alloc, path)?,
        digest: TextDigest::of(text),
    })
}

// The work of these actions.
fn work(alloc: Global) -> Result<Work, AllocError> {
    let old = Leftover::Text(text_file(alloc, ".relmove-run/1", b"a")?);
    let left = Leftover::Directory(String::from_str(alloc, "g")?);
    Ok(Work {
        texts: vec![in alloc; text_file(alloc, ".relmove-run/2", b"b")?]?,
        staged: vec![in alloc; rename(alloc, "g/a.md", ".relmove-run/1")?]?,
        made: vec![in alloc; String::from_str(alloc, "d")?]?,
        placed: vec![in alloc; rename(alloc, ".relmove-run/2", "d/b.md")?]?,
        cleaned: vec![in alloc; old, left]?,
    })
}

// The actions, which the call takes, and then the call.
//
// Requests: 6 12 1 6 10 12 10 1 10 6 10 1 72 96 24 48 24 24
// 64 12 24 12 24 24 1 488 48 12 24 96 12 24 488 12 24 288 = 17
#[test]
fn the_work_of_actions(rt: HostRuntime) -> Result<(), Fail> {
    let expected = work(rt.alloc())?;
    let pages = pages(rt.alloc())?;
    begin(rt.alloc());
    let answer = match actions(rt.alloc()) {
        Ok(actions) => work_of(rt.alloc(), actions, &pages),
        Err(error) => Err(error),
    };
    end(rt.alloc(), answer.is_err())?;
    let Ok(of) = answer else {
        return Ok(());
    };
    let Some((texts, made)) = of else {
        return Err(Fail::new("no work"));
    };
    same("the work", &made, &expected)?;
    match texts.first() {
        Some(text) => same("the file", &text.file.as_str(), &".relmove-run/2"),
        None => Err(Fail::new("no text")),
    }
}
