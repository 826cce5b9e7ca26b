//! Each text of up to three letters out of four, beside what the definitions say of it: where paths lead is walked from
//! bases of each depth.
use super::normalizing::normalizes_in_each_way;
use super::same;
use relative_path::{Component, RelativePath};
use std::alloc::{AllocError, Global};
use std::test::Fail;

const LETTERS: [&str; 5] = ["", "/", ".", "a", "é"];

// How many texts of three letters there are, some of which are the same, since a letter may be none.
const COUNT: usize = 125;

// More names than a text of three letters goes up.
const DEEPEST: usize = 3;

fn letter(number: usize) -> &'static str {
    LETTERS[number % 5]
}

fn short_text(alloc: Global, number: usize) -> Result<String, AllocError> {
    let (first, second, third) = (letter(number / 25), letter(number / 5), letter(number));
    format!(in alloc; "{first}{second}{third}")
}

// The place that a path leads to from a base of some names, if there is one.
fn lead<'a>(
    alloc: Global,
    depth: usize,
    path: RelativePath<'a>,
) -> Result<Option<Vec<&'a str>>, AllocError> {
    let mut place = vec![in alloc; "base"; depth]?;
    for component in path.components() {
        match component {
            Component::CurDir => {}
            Component::Normal(name) => place.push(name)?,
            Component::ParentDir => {
                if place.pop().is_none() {
                    return Ok(None);
                }
            }
        }
    }
    Ok(Some(place))
}

// The fewest names of a base from which two paths lead to different places, or one of them to none.
fn parted(
    alloc: Global,
    path: RelativePath<'_>,
    other: RelativePath<'_>,
) -> Result<Option<usize>, AllocError> {
    for depth in 0..=DEEPEST {
        if lead(alloc, depth, path)? != lead(alloc, depth, other)? {
            return Ok(Some(depth));
        }
    }
    Ok(None)
}

// Whether there is a base from which the second path leads to a place, and the first to none.
fn is_out_of_reach(
    alloc: Global,
    from: RelativePath<'_>,
    to: RelativePath<'_>,
) -> Result<bool, AllocError> {
    for depth in 0..=DEEPEST {
        if lead(alloc, depth, from)?.is_none() && lead(alloc, depth, to)?.is_some() {
            return Ok(true);
        }
    }
    Ok(false)
}

// Fails where a text has several normal forms, or one that isn't normal or leads elsewhere.
fn has_a_normal_form(alloc: Global, text: &str) -> Result<(), Fail> {
    normalizes_in_each_way(alloc, text)?;
    let path = RelativePath::new(text);
    let normal = path.normalize(alloc)?;
    let normal = normal.as_relative_path();
    let found = (normal.is_normalized(), parted(alloc, normal, path)?);
    same(text, found, (true, None))
}

#[test]
fn normal_forms(rt: HostRuntime) -> Result<(), Fail> {
    for number in 0..COUNT {
        let text = short_text(rt.alloc(), number)?;
        has_a_normal_form(rt.alloc(), text.as_str())?;
    }
    Ok(())
}

// What is wrong with the way between two paths, if anything is.
fn fault_of_way(
    alloc: Global,
    from: RelativePath<'_>,
    to: RelativePath<'_>,
) -> Result<Option<usize>, AllocError> {
    match from.try_relative(alloc, to)? {
        Some(way) => {
            let there = from.join(alloc, way.as_relative_path())?;
            parted(alloc, there.as_relative_path(), to)
        }
        None => {
            let is_right = is_out_of_reach(alloc, from, to)?;
            Ok(if is_right { None } else { Some(0) })
        }
    }
}

// Fails where the way between two paths is wrong, or they lead apart elsewhere.
fn has_a_way(alloc: Global, text: &str, other: &str) -> Result<(), Fail> {
    let (path, other) = (RelativePath::new(text), RelativePath::new(other));
    let fault = fault_of_way(alloc, path, other)?;
    let apart = path.leads_apart(alloc, other)?;
    let expected = (None, parted(alloc, path, other)?);
    same(text, (fault, apart), expected)
}

fn has_a_way_to_each(alloc: Global, text: &str) -> Result<(), Fail> {
    for number in 0..COUNT {
        let other = short_text(alloc, number)?;
        has_a_way(alloc, text, other.as_str())?;
    }
    Ok(())
}

#[test]
fn pairs(rt: HostRuntime) -> Result<(), Fail> {
    for number in 0..COUNT {
        let text = short_text(rt.alloc(), number)?;
        has_a_way_to_each(rt.alloc(), text.as_str())?;
    }
    Ok(())
}
