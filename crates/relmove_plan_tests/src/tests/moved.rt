//! What moves make of the rows of a tree, by hand: without the steps of a plan.
use super::model::{DIRECTORY, Files};
use relative_path_links::MovedSitePage;
use std::alloc::{AllocError, Global};

// Whether a path is below another.
fn is_below(path: &str, top: &str) -> bool {
    match path.strip_prefix(top) {
        Some(rest) => rest.starts_with('/'),
        None => false,
    }
}

// Whether a path is one of these.
fn has(paths: &[String], path: &str) -> bool {
    for one in paths {
        if one.as_str() == path {
            return true;
        }
    }
    false
}

/// The text at a path.
pub fn text_at<'a>(rows: &'a [(String, String)], path: &str) -> Option<&'a str> {
    for (at, text) in rows {
        if at.as_str() == path {
            return Some(text.as_str());
        }
    }
    None
}

// The paths of the directories above a path, the topmost first.
fn directories_above(alloc: Global, path: &str) -> Result<Vec<String>, AllocError> {
    let mut directories = Vec::new(alloc);
    let mut front = String::new(alloc);
    for piece in path.split('/') {
        if !front.is_empty() {
            directories.push(String::from_str(alloc, &front)?)?;
            front.push('/')?;
        }
        front.push_str(piece)?;
    }
    Ok(directories)
}

// The move of the longest old path that is the path, or above it.
fn nearest<'a>(moves: &'a [(String, String)], path: &str) -> Option<(&'a str, &'a str)> {
    let mut nearest: Option<(&str, &str)> = None;
    for (old, new) in moves {
        let takes = old.as_str() == path || is_below(path, old);
        if takes && nearest.is_none_or(|(best, _)| best.len() < old.len()) {
            nearest = Some((old.as_str(), new.as_str()));
        }
    }
    nearest
}

// The path after the moves: the nearest move takes it along.
fn path_after(alloc: Global, moves: &[(String, String)], path: &str) -> Result<String, AllocError> {
    let mut after = String::new(alloc);
    match nearest(moves, path) {
        Some((old, new)) => {
            after.push_str(new)?;
            after.push_str(path.strip_prefix(old).unwrap_or(""))?;
        }
        None => after.push_str(path)?,
    }
    Ok(after)
}

// The rows where the moves take them.
fn rows_after(
    alloc: Global,
    rows: &[(String, String)],
    moves: &[(String, String)],
) -> Result<Vec<(String, String)>, AllocError> {
    let mut after = Vec::new(alloc);
    for (path, text) in rows {
        after.push((
            path_after(alloc, moves, path)?,
            String::from_str(alloc, text)?,
        ))?;
    }
    Ok(after)
}

// The rows, pages with their new texts.
fn with_new_texts(
    alloc: Global,
    rows: &[(String, String)],
    pages: &[MovedSitePage],
) -> Result<Vec<(String, String)>, AllocError> {
    let mut new = Vec::new(alloc);
    let mut pages = pages.iter();
    for (path, text) in rows {
        let mut now = text.as_str();
        if path.ends_with(".md") {
            if let Some(page) = pages.next() {
                now = page.text.as_deref().unwrap_or(now);
            }
        }
        new.push((
            String::from_str(alloc, path)?,
            String::from_str(alloc, now)?,
        ))?;
    }
    Ok(new)
}

// Adds the directories that are missing above the new paths.
fn add_made(
    alloc: Global,
    rows: &mut Vec<(String, String)>,
    moves: &[(String, String)],
) -> Result<(), AllocError> {
    for (_, new) in moves {
        for directory in directories_above(alloc, new)? {
            if text_at(rows, &directory).is_none() {
                rows.push((directory, String::from_str(alloc, DIRECTORY)?))?;
            }
        }
    }
    Ok(())
}

// The directories above old paths, where they are after the moves.
fn directories_left(alloc: Global, moves: &[(String, String)]) -> Result<Vec<String>, AllocError> {
    let mut left = Vec::new(alloc);
    for (old, _) in moves {
        for directory in directories_above(alloc, old)? {
            left.push(path_after(alloc, moves, &directory)?)?;
        }
    }
    Ok(left)
}

// Whether a path is left, and so is all that is below it.
fn is_emptied(rows: &[(String, String)], left: &[String], path: &str) -> bool {
    for (below, _) in rows {
        if is_below(below, path) && !has(left, below) {
            return false;
        }
    }
    has(left, path)
}

/// The tree after the moves. `pages` have the new texts.
pub fn tree_after(
    alloc: Global,
    rows: &[(String, String)],
    moves: &[(String, String)],
    pages: &[MovedSitePage],
) -> Result<Files, AllocError> {
    let now = with_new_texts(alloc, rows, pages)?;
    let mut after = rows_after(alloc, &now, moves)?;
    add_made(alloc, &mut after, moves)?;
    let left = directories_left(alloc, moves)?;
    let mut nodes = Vec::new(alloc);
    for (path, text) in &after {
        if !is_emptied(&after, &left, path) {
            nodes.push((
                String::from_str(alloc, path)?,
                String::from_str(alloc, text)?,
            ))?;
        }
    }
    nodes.sort()?;
    Ok(Files { nodes })
}

// Whether a move by itself may be done: something is at its old path, its new path is another one that isn't below, and
// what is there moves away; and no name begins as those of a run's own files.
fn may_be_done(
    alloc: Global,
    rows: &[(String, String)],
    moves: &[(String, String)],
    old: &str,
    new: &str,
) -> Result<bool, AllocError> {
    if text_at(rows, old).is_none() || old == new || is_below(new, old) {
        return Ok(false);
    }
    if old.contains(".relmove") || new.contains(".relmove") {
        return Ok(false);
    }
    let stays = path_after(alloc, moves, new)?.as_str() == new;
    Ok(text_at(rows, new).is_none() || !stays)
}

// Whether two of the rows are at one path.
fn have_two_at_one(rows: &[(String, String)]) -> bool {
    for (number, (path, _)) in rows.iter().enumerate() {
        for (other, _) in rows.iter().take(number) {
            if path == other {
                return true;
            }
        }
    }
    false
}

// Whether two of the moves have one new path.
fn have_two_to_one(moves: &[(String, String)]) -> bool {
    for (number, (_, new)) in moves.iter().enumerate() {
        for (_, other) in moves.iter().take(number) {
            if new == other {
                return true;
            }
        }
    }
    false
}

// Whether what is above the new paths, after the moves, are directories that are read, as far as something is there.
fn are_in_directories(
    alloc: Global,
    after: &[(String, String)],
    moves: &[(String, String)],
) -> Result<bool, AllocError> {
    for (_, new) in moves {
        for directory in directories_above(alloc, new)? {
            if text_at(after, &directory).unwrap_or(DIRECTORY) != DIRECTORY {
                return Ok(false);
            }
        }
    }
    Ok(true)
}

/// Whether the moves may be done.
pub fn may_all_be_done(
    alloc: Global,
    rows: &[(String, String)],
    moves: &[(String, String)],
) -> Result<bool, AllocError> {
    for (old, new) in moves {
        if !may_be_done(alloc, rows, moves, old, new)? {
            return Ok(false);
        }
    }
    if have_two_at_one(moves) || have_two_to_one(moves) {
        return Ok(false);
    }
    let after = rows_after(alloc, rows, moves)?;
    Ok(!have_two_at_one(&after) && are_in_directories(alloc, &after, moves)?)
}
