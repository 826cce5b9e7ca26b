//! Vectors of `relmove_mentions`: texts, and the old paths that they mention.
ghost use Rattle.relmove_mentions.specs.Spans.{FollowFrom};

use relative_path::RelativePath;
use relative_path_places::{NormalPath, NormalView};
use relmove_mentions::{FileText, Mention, OldNames, TextSpan};
use std::alloc::{AllocError, Global};
use std::test::Fail;

mod names;
mod refusals;
mod spans;

// Normal paths with these texts.
fn normal_paths(alloc: Global, texts: &[&str]) -> Result<Vec<NormalPath>, AllocError> {
    let mut paths = Vec::new(alloc);
    for text in texts {
        paths.push(NormalPath::of(alloc, RelativePath::new(*text))?)?;
    }
    Ok(paths)
}

// Views of normal paths.
fn views(alloc: Global, paths: &[NormalPath]) -> Result<Vec<NormalView<'_>>, AllocError> {
    paths.iter().map(|path| path.view()).collect(alloc)
}

// The bytes of each mention, an arrow and the path, each after a semicolon.
fn print_mentions(alloc: Global, text: &str, mentions: &[Mention<'_>]) -> Result<String, Fail> {
    let mut printed = String::new(alloc);
    for mention in mentions {
        let written = text
            .get(mention.span.start..mention.span.end)
            .unwrap_or("?");
        printed.push_str(written)?;
        printed.push_str(" > ")?;
        printed.push_str(mention.path.as_relative_path().as_str())?;
        printed.push_str("; ")?;
    }
    Ok(printed)
}

// Fails where a text in a file of a directory mentions other paths than is expected.
fn mentions(
    alloc: Global,
    names: &OldNames<'_>,
    file: FileText<'_>,
    text: &str,
    expected: &str,
) -> Result<(), Fail>
    requires { FollowFrom 0 file.read.now }
{
    let mentions = names.mentions(alloc, file)?;
    let printed = print_mentions(alloc, text, mentions.as_slice())?;
    if printed.as_str() == expected {
        Ok(())
    } else {
        Err(Fail::new(format_args!("{text:?}: {printed:?}, not {expected:?}")))
    }
}

// A text of which nothing was read, in a file of these directories, on a site with these tops.
fn unread<'a>(
    directories: &'a [RelativePath<'a>],
    tops: &'a [RelativePath<'a>],
    text: &'a str,
) -> FileText<'a>
    ensures read { FollowFrom 0 result.read.now }
{
    FileText {
        directories,
        tops,
        text: text.as_bytes(),
        read: &[],
    }
}

// The same for a row: a directory, a text and the mentions. The top is the root, and nothing of the text was read.
fn row_mentions(alloc: Global, names: &OldNames<'_>, row: (&str, &str, &str)) -> Result<(), Fail> {
    let (directory, text, expected) = row;
    let directories = [RelativePath::new(directory)];
    let tops = [RelativePath::new("")];
    mentions(
        alloc,
        names,
        unread(&directories, &tops, text),
        text,
        expected,
    )
}

// The same for each row, with these old paths.
fn rows_mention(alloc: Global, olds: &[&str], rows: &[(&str, &str, &str)]) -> Result<(), Fail> {
    let paths = normal_paths(alloc, olds)?;
    let views = views(alloc, paths.as_slice())?;
    let names = OldNames::of(alloc, views.as_slice())?;
    for row in rows {
        row_mentions(alloc, &names, *row)?;
    }
    Ok(())
}
