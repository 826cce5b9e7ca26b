//! Targets, read.
use super::marks::{begin, end};
use crate::tests::same;
use std::alloc::Global;
use std::test::Fail;
use target_paths::{TargetReading, TargetSyntax, path_of_target};

// Fails where a target has another path than this, with memory at hand.
fn has_path(alloc: Global, target: &str, expected: &str) -> Result<(), Fail> {
    begin(alloc);
    let answer = path_of_target(alloc, TargetSyntax::Attribute, target);
    end(alloc, answer.is_err())?;
    match answer {
        Ok(TargetReading::Path { path, .. }) => same("a path", &path.as_str(), &expected),
        Ok(_) => Err(Fail::new("no path")),
        Err(_) => Ok(()),
    }
}

// Requests: 4 4 = 1, 9 5 = 1, 5 5 = 1, 1048576 1048576 = 1
#[test]
fn paths(rt: HostRuntime) -> Result<(), Fail> {
    has_path(rt.alloc(), "b.md", "b.md")?;
    has_path(rt.alloc(), "a%20b#top", "a b")?;
    has_path(rt.alloc(), "a\0b", "a\u{FFFD}b")?;
    let long = "a/".repeat(rt.alloc(), 524_288)?;
    has_path(rt.alloc(), long.as_str(), long.as_str())
}

// Fails where a target is read as something else than this, with memory at hand.
fn is_read(alloc: Global, target: &str, expected: &TargetReading) -> Result<(), Fail> {
    begin(alloc);
    let answer = path_of_target(alloc, TargetSyntax::Markdown, target);
    end(alloc, answer.is_err())?;
    match answer {
        Ok(reading) => same(target, &reading, expected),
        Err(_) => Ok(()),
    }
}

// Requests: 10 = 0, = 0, 4 = 0
#[test]
fn targets_that_are_no_paths(rt: HostRuntime) -> Result<(), Fail> {
    is_read(rt.alloc(), "http://h/x", &TargetReading::NotRelative)?;
    is_read(rt.alloc(), "", &TargetReading::NotRelative)?;
    is_read(rt.alloc(), "#top", &TargetReading::NotRelative)
}
