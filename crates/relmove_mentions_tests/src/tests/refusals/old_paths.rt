//! The names of an old path, and the mentions of one.
use super::marks::{begin, end};
use crate::tests::{normal_paths, print_mentions, row_mentions, unread, views};
use relative_path::RelativePath;
use relmove_mentions::OldNames;
use std::alloc::Global;
use std::test::Fail;

// Makes the names of an old path between two marks. A text has to mention it then.
fn names_of(alloc: Global, old: &str, text: &str) -> Result<(), Fail> {
    let paths = normal_paths(alloc, &[old])?;
    let views = views(alloc, paths.as_slice())?;
    begin(alloc);
    let names = OldNames::of(alloc, views.as_slice());
    end(alloc, names.is_err())?;
    let Ok(names) = names else {
        return Ok(());
    };
    let expected = format!(in alloc; "{text} > {old}; ")?;
    row_mentions(alloc, &names, ("", text, expected.as_str()))
}

// Requests: 16 16 16 1s 5 608 = 5, 16 16 16 1s 4 608 6 1s 6 1 1s 1 = 7, 16 16 16 2s 6 608 = 5
#[test]
fn the_names_of_a_path(rt: HostRuntime) -> Result<(), Fail> {
    names_of(rt.alloc(), "a.txt", "a.txt")?;
    names_of(rt.alloc(), "a.md", "a.html")?;
    names_of(rt.alloc(), "b/.txt", "b//.txt")
}

// Finds mentions of `a.txt` in a text between two marks.
fn mentions_of(alloc: Global, (directory, text, expected): (&str, &str, &str)) -> Result<(), Fail> {
    let paths = normal_paths(alloc, &["a.txt"])?;
    let views = views(alloc, paths.as_slice())?;
    let names = OldNames::of(alloc, views.as_slice())?;
    let directories = [RelativePath::new(directory)];
    let tops = [RelativePath::new("")];
    let file = unread(&directories, &tops, text);
    begin(alloc);
    let mentions = names.mentions(alloc, file);
    end(alloc, mentions.is_err())?;
    let Ok(mentions) = mentions else {
        return Ok(());
    };
    let printed = print_mentions(alloc, text, mentions.as_slice())?;
    if printed.as_str() == expected {
        Ok(())
    } else {
        Err(Fail::new(format_args!("{text:?}: {printed:?}, not {expected:?}")))
    }
}

// Requests: 32 32 = 0, 32 32 1s 5 128 = 1, 32 32 8 1s 5 128 = 1, 32 32 = 0, 32 32 4s 7 2s 8 = 0
#[test]
fn the_mentions_of_a_path(rt: HostRuntime) -> Result<(), Fail> {
    mentions_of(rt.alloc(), ("", "a b", ""))?;
    mentions_of(rt.alloc(), ("", "see a.txt", "a.txt > a.txt; "))?;
    mentions_of(rt.alloc(), ("", "%61.txt", "%61.txt > a.txt; "))?;
    mentions_of(rt.alloc(), ("d", "x/a.txt", ""))?;
    mentions_of(rt.alloc(), ("d/e", "../a.txt", ""))
}
