//! What targets are read as, and what paths are written as: each expected answer is from the text of a standard.
use std::alloc::Global;
use std::fmt::Debug;
use std::test::Fail;
use target_paths::{TargetReading, TargetSyntax, path_of_target, target_of_path};

mod attributes;
mod calling;
mod left_alone;
mod markdown;
mod percent;
mod references;
mod refusals;
mod unknown;
mod written;

// Fails in the words of this case where another value was found than is expected. A call of it costs
// a proof a fourth of what `assert_eq!` with a message does.
fn same<T: PartialEq + Debug>(case: &str, found: &T, expected: &T) -> Result<(), Fail> {
    if found == expected {
        Ok(())
    } else {
        Err(Fail::new(format_args!("{case:?}: {found:?}, not {expected:?}")))
    }
}

// What a target is read as, in words: `=`, its path, `@` and the byte where the tail begins; `!` and why
// it isn't known; `-` where it is no path from the page's directory.
fn told(alloc: Global, syntax: TargetSyntax, target: &str) -> Result<String, Fail> {
    match path_of_target(alloc, syntax, target)? {
        TargetReading::NotRelative => Ok("-".to_string(alloc)?),
        TargetReading::Path { path, tail_at } => Ok(format!(in alloc; "={path}@{tail_at}")?),
        TargetReading::Unknown(why) => Ok(format!(in alloc; "!{why:?}")?),
    }
}

// Fails where a target is read as something else than is expected in one of these cases.
fn all_read(alloc: Global, syntax: TargetSyntax, cases: &[(&str, &str)]) -> Result<(), Fail> {
    for (target, expected) in cases {
        same(target, &told(alloc, syntax, target)?.as_str(), expected)?;
    }
    Ok(())
}

// The same for a reader of Markdown.
fn all_in_markdown(alloc: Global, cases: &[(&str, &str)]) -> Result<(), Fail> {
    all_read(alloc, TargetSyntax::Markdown, cases)
}

// The same for a reader of an attribute.
fn all_in_attributes(alloc: Global, cases: &[(&str, &str)]) -> Result<(), Fail> {
    all_read(alloc, TargetSyntax::Attribute, cases)
}

// Fails where a path is written otherwise than is expected in one of these cases.
fn all_written(alloc: Global, cases: &[(&str, &str)]) -> Result<(), Fail> {
    for (path, expected) in cases {
        same(path, &target_of_path(alloc, path)?.as_str(), expected)?;
    }
    Ok(())
}
