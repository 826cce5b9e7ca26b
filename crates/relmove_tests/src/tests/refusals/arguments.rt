//! What the arguments of a call mean.
use super::marks::{begin, end};
use crate::tests::same;
use relmove_arguments::{Task, WrongCall, task_of};
use std::alloc::Global;
use std::test::Fail;

// A call whose root is expected.
fn has_root(alloc: Global, words: &[&str]) -> Result<(), Fail> {
    begin(alloc);
    let answer = task_of(alloc, words);
    end(alloc, answer == Err(WrongCall::OutOfMemory))?;
    match answer {
        Ok(Task::Check { root, .. }) | Ok(Task::Move { root, .. }) => {
            same("the root", &root, &"docs")
        }
        Ok(_) => Err(Fail::new("another command")),
        Err(wrong) => same("a fault", &wrong, &WrongCall::OutOfMemory),
    }
}

// Requests: 64 64 = 0, 64 64 128 = 1
#[test]
fn arguments(rt: HostRuntime) -> Result<(), Fail> {
    has_root(rt.alloc(), &["--check", "docs"])?;
    has_root(rt.alloc(), &["--write", "docs", "a", "b"])
}
