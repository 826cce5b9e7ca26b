//! Vectors of `relative_path_links`.
use relative_path::RelativePath;
use std::alloc::{AllocError, Global};
use std::fmt::{Debug, Display};
use std::test::Fail;

mod calling;
mod finder;
mod new_targets;
mod pages;
mod refusals;
mod reread;
mod rewriter;
mod site_map;
mod site_root;

// Fails in the words of this case where another value was found than is expected. A call of it costs
// a proof a fourth of what `assert_eq!` with a message does.
fn same<T: PartialEq + Debug + Drop>(case: &str, found: T, expected: T) -> Result<(), Fail> {
    if found == expected {
        Ok(())
    } else {
        Err(Fail::new(format_args!("{case:?}: {found:?}, not {expected:?}")))
    }
}

// Fails where a value prints other words than these: as it is, and in widths and precisions that are
// shorter and longer than the words.
fn prints<T: Display>(alloc: Global, value: &T, words: &str) -> Result<(), Fail> {
    let printed = format!(in alloc; "{value}|{value:5.99}|{value:>99}|{value:.2}")?;
    let expected = format!(in alloc; "{words}|{words}|{words}|{words}")?;
    same(words, printed, expected)
}

// These texts as paths. A call of it costs a proof less than `map` over an array.
fn paths<'a>(alloc: Global, texts: &[&'a str]) -> Result<Vec<RelativePath<'a>>, AllocError> {
    let paths = texts.iter().map(|text| RelativePath::new(*text));
    paths.collect(alloc)
}

// Moves from the first text of each pair to the second.
fn moves<'a>(
    alloc: Global,
    pairs: &[(&'a str, &'a str)],
) -> Result<Vec<(RelativePath<'a>, RelativePath<'a>)>, AllocError> {
    let moves = pairs.iter().map(|(old, new)| (RelativePath::new(*old), RelativePath::new(*new)));
    moves.collect(alloc)
}
