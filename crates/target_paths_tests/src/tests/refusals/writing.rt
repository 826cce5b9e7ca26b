//! Paths, written.
use super::marks::{begin, end};
use crate::tests::same;
use std::alloc::Global;
use std::test::Fail;
use target_paths::{push_target_of_path, target_of_path};

// Fails where a path is written as another target than this, with memory at hand.
fn is_written(alloc: Global, path: &str, expected: &str) -> Result<(), Fail> {
    begin(alloc);
    let answer = target_of_path(alloc, path);
    end(alloc, answer.is_err())?;
    match answer {
        Ok(target) => same("a target", &target.as_str(), &expected),
        Err(_) => Ok(()),
    }
}

// Requests: 4 = 1, 2 = 1, 3 8 = 1, 1048576 = 1
#[test]
fn targets(rt: HostRuntime) -> Result<(), Fail> {
    is_written(rt.alloc(), "b.md", "b.md")?;
    is_written(rt.alloc(), "/", "./")?;
    is_written(rt.alloc(), "a b", "a%20b")?;
    let long = "a/".repeat(rt.alloc(), 524_288)?;
    is_written(rt.alloc(), long.as_str(), long.as_str())
}

// Fails where a path is pushed onto a text with this capacity as another target than this, with memory at hand.
fn is_pushed(alloc: Global, capacity: usize, path: &str, expected: &str) -> Result<(), Fail> {
    let mut text = String::with_capacity(alloc, capacity)?;
    text.push_str("(")?;
    begin(alloc);
    let answer = push_target_of_path(&mut text, path);
    end(alloc, answer.is_err())?;
    match answer {
        Ok(()) => same("a text", &text.as_str(), &expected),
        Err(_) => Ok(()),
    }
}

// A text grows as if it were written character by character.
//
// Requests: = 0, 8 = 0, 10 = 0, 8 16 = 0
#[test]
fn targets_after_a_text(rt: HostRuntime) -> Result<(), Fail> {
    is_pushed(rt.alloc(), 5, "b.md", "(b.md")?;
    is_pushed(rt.alloc(), 4, "b.md", "(b.md")?;
    is_pushed(rt.alloc(), 5, "a b", "(a%20b")?;
    is_pushed(rt.alloc(), 1, "index.md", "(index.md")
}
