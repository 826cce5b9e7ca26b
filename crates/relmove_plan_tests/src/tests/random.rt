//! Random trees and moves: the actions of a plan lead to the tree that the moves give by hand, and moves are refused if by
//! hand they may not be done.
use super::draw::Draw;
use super::model::{DIRECTORY, Files};
use super::moved::{may_all_be_done, text_at, tree_after};
use super::planned::planned;
use super::same;
use relmove_plan::NameRule;
use std::alloc::{AllocError, Global};
use std::test::Fail;

// How many trees are tried, and the seed of the first. `tools/plans` tries more.
const TREES: u64 = 200;

const FIRST_SEED: u64 = 1;

const NAMES: &[&str] = &["a", "b", "c", "d", "e", "f", ".relmove-1", ".relmove-2"];

// A tree, and moves.
#[derive(Drop)]
struct Trial {
    rows: Vec<(String, String)>,
    moves: Vec<(String, String)>,
}

// A path of this name in a directory, or in the root.
fn joined(alloc: Global, directory: &str, name: &str) -> Result<String, AllocError> {
    if directory.is_empty() {
        return String::from_str(alloc, name);
    }
    format!(in alloc; "{directory}/{name}")
}

// One of the directories of a tree, or the root.
fn some_directory(
    alloc: Global,
    draw: &mut Draw,
    rows: &[(String, String)],
) -> Result<String, AllocError> {
    let path = draw.path(alloc, rows)?;
    if text_at(rows, &path) == Some(DIRECTORY) && draw.below(5) > 0 {
        return Ok(path);
    }
    Ok(String::new(alloc))
}

// A new row of a tree: a directory, a page without text, a file, a symbolic link, or a directory that isn't read.
fn some_row(
    alloc: Global,
    draw: &mut Draw,
    rows: &[(String, String)],
) -> Result<(String, String), AllocError> {
    let directory = some_directory(alloc, draw, rows)?;
    let path = joined(alloc, &directory, draw.word(NAMES))?;
    match draw.below(12) {
        0..=4 => Ok((path, String::from_str(alloc, DIRECTORY)?)),
        5..=7 => Ok((format!(in alloc; "{path}.md")?, String::new(alloc))),
        8..=9 => Ok((path, format!(in alloc; "{}", draw.below(1000))?)),
        10 => Ok((path, String::from_str(alloc, "-> a")?)),
        _ => Ok((path, String::from_str(alloc, "/...")?)),
    }
}

// Rows of a tree.
fn some_rows(alloc: Global, draw: &mut Draw) -> Result<Vec<(String, String)>, AllocError> {
    let mut rows = Vec::new(alloc);
    for _ in 0..draw.below(16) {
        let (path, text) = some_row(alloc, draw, &rows)?;
        if text_at(&rows, &path).is_none() {
            rows.push((path, text))?;
        }
    }
    Ok(rows)
}

// The target by which a link of a page leads to a path, by way of the root.
fn target_to(alloc: Global, page: &str, path: &str) -> Result<String, AllocError> {
    let mut target = String::new(alloc);
    for _ in page.matches('/') {
        target.push_str("../")?;
    }
    target.push_str(path)?;
    Ok(target)
}

// The rows, each page with a link to a path.
fn with_links(
    alloc: Global,
    draw: &mut Draw,
    rows: &[(String, String)],
) -> Result<Vec<(String, String)>, AllocError> {
    let mut linked = Vec::new(alloc);
    for (path, text) in rows {
        let mut now = String::from_str(alloc, text)?;
        if path.ends_with(".md") {
            let link = draw.path(alloc, rows)?;
            let target = target_to(alloc, path, &link)?;
            now = format!(in alloc; "[{}]({target})", draw.below(1000))?;
        }
        linked.push((String::from_str(alloc, path)?, now))?;
    }
    Ok(linked)
}

// A new path: that of another row, or a new name in a directory, which may be new too.
fn some_new_path(
    alloc: Global,
    draw: &mut Draw,
    rows: &[(String, String)],
) -> Result<String, AllocError> {
    if draw.below(3) == 0 {
        return draw.path(alloc, rows);
    }
    let mut path = some_directory(alloc, draw, rows)?;
    for _ in 0..=draw.below(3) {
        path = joined(alloc, &path, draw.word(NAMES))?;
    }
    Ok(path)
}

// Adds a move, or two that swap.
fn add_some(
    alloc: Global,
    draw: &mut Draw,
    rows: &[(String, String)],
    moves: &mut Vec<(String, String)>,
) -> Result<(), AllocError> {
    let old = draw.path(alloc, rows)?;
    let new = some_new_path(alloc, draw, rows)?;
    if draw.below(4) == 0 {
        moves.push((
            String::from_str(alloc, &new)?,
            String::from_str(alloc, &old)?,
        ))?;
    }
    moves.push((old, new))?;
    Ok(())
}

// Moves of what is in a tree. Most that may not be done are left out again.
fn some_moves(
    alloc: Global,
    draw: &mut Draw,
    rows: &[(String, String)],
) -> Result<Vec<(String, String)>, AllocError> {
    let mut moves = Vec::new(alloc);
    for _ in 0..=draw.below(6) {
        let count = moves.len();
        add_some(alloc, draw, rows, &mut moves)?;
        if draw.below(12) > 0 && !may_all_be_done(alloc, rows, &moves)? {
            moves.truncate(count);
        }
    }
    Ok(moves)
}

fn some_trial(alloc: Global, draw: &mut Draw) -> Result<Trial, AllocError> {
    let rows = some_rows(alloc, draw)?;
    let rows = with_links(alloc, draw, &rows)?;
    let moves = some_moves(alloc, draw, &rows)?;
    Ok(Trial { rows, moves })
}

// The texts of pairs.
fn as_texts(alloc: Global, pairs: &[(String, String)]) -> Result<Vec<(&str, &str)>, AllocError> {
    let mut texts = Vec::new(alloc);
    for (one, other) in pairs {
        texts.push((one.as_str(), other.as_str()))?;
    }
    Ok(texts)
}

// Fails if moves are refused that may be done. Otherwise they aren't planned.
fn is_refused_rightly(case: &str, may: bool) -> Result<bool, Fail> {
    same(case, &false, &may)?;
    Ok(false)
}

// Whether the moves of a trial are planned. Fails if the plan leads to another tree than the moves, or if moves are
// refused that may be done, or planned that may not.
fn is_planned_rightly(
    alloc: Global,
    case: &str,
    trial: &Trial,
    rows: &[(&str, &str)],
    moves: &[(&str, &str)],
) -> Result<bool, Fail> {
    let may = may_all_be_done(alloc, &trial.rows, &trial.moves)?;
    let plan = match planned(alloc, rows, moves, NameRule::Plain)? {
        Ok(plan) => plan,
        Err(_refusal) => return is_refused_rightly(case, may),
    };
    same(case, &true, &may)?;
    let mut files = Files::of(alloc, rows)?;
    files.run(alloc, &plan.actions)?;
    let after = tree_after(alloc, &trial.rows, &trial.moves, &plan.pages)?;
    same(case, &files, &after)?;
    Ok(true)
}

fn is_planned(alloc: Global, case: &str, trial: &Trial) -> Result<bool, Fail> {
    let rows = as_texts(alloc, &trial.rows)?;
    let moves = as_texts(alloc, &trial.moves)?;
    is_planned_rightly(alloc, case, trial, &rows, &moves)
}

#[test]
fn random_trees(rt: HostRuntime) -> Result<(), Fail> {
    let alloc = rt.alloc();
    let mut count = 0u64;
    for number in 0..TREES {
        let seed = FIRST_SEED.wrapping_add(number);
        let trial = some_trial(alloc, &mut Draw::new(seed))?;
        let case = format!(in alloc; "seed {seed}")?;
        if is_planned(alloc, &case, &trial)? {
            count = count.wrapping_add(1);
        }
    }
    same("most are planned", &(count > TREES / 2), &true)
}
