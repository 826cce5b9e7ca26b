//! Which of the places where a path could be written are taken for one.
use crate::extensions::is_data;
use relative_path::RelativePath;
use relative_path_places::directory;
use relmove_mentions::{Mention, TextSpan};
use std::alloc::{AllocError, Global};

/// Whether a mention in the file at a path is taken for a path. A word alone, such as the name of a page without its
/// extension, is one among values if it leads there from the file's own directory, and among sentences if it is a target or in
/// quotes. A tag of HTML is none. Allocates a path.
pub fn is_taken_for_path(
    alloc: Global,
    path: RelativePath<'_>,
    text: &str,
    mention: &Mention<'_>,
) -> Result<bool, AllocError> {
    let written = written_at(text, mention.span);
    if is_tag(text, mention.span, written) {
        return Ok(false);
    }
    if written.contains(['/', '.', '%']) {
        return Ok(true);
    }
    if is_data(path) {
        let old = mention.path.as_relative_path();
        return is_of_directory(alloc, directory(path), RelativePath::new(written), old);
    }
    Ok(is_marked(text, mention.span))
}

/// What a text has at a span. Allocates nothing.
pub fn written_at(text: &str, span: TextSpan) -> &str {
    text.get(span.start..span.end).unwrap_or("")
}

// Whether the span is the end of an element of HTML, as in `</a>`.
fn is_tag(text: &str, span: TextSpan, written: &str) -> bool {
    let is_after_mark = ends_before(text, span, "<");
    match written.strip_prefix('/') {
        Some(name) => is_after_mark && !name.contains(['/', '.', '%']),
        None => false,
    }
}

// Whether a word stands for a file of a directory, or for the directory's own entry that it names.
fn is_of_directory(
    alloc: Global,
    own: RelativePath<'_>,
    word: RelativePath<'_>,
    old: RelativePath<'_>,
) -> Result<bool, AllocError> {
    let above = directory(old);
    if above == own {
        return Ok(true);
    }
    let place = own.join_normalized(alloc, word)?;
    Ok(above == place.as_relative_path())
}

// Whether a target begins at a span, or the span is in quotes, perhaps before a fragment or a query.
fn is_marked(text: &str, span: TextSpan) -> bool {
    BEFORE_TARGETS
        .iter()
        .any(|mark| ends_before(text, span, mark))
        || is_quoted(text, span, "\"")
        || is_quoted(text, span, "'")
}

// Whether a span comes after a quote, and before the same one, a fragment or a query.
fn is_quoted(text: &str, span: TextSpan, quote: &str) -> bool {
    ends_before(text, span, quote)
        && (begins_after(text, span, quote)
            || begins_after(text, span, "#")
            || begins_after(text, span, "?"))
}

// Whether a text has a mark right before a span.
fn ends_before(text: &str, span: TextSpan, mark: &str) -> bool {
    match text.get(..span.start) {
        Some(before) => before.ends_with(mark),
        None => false,
    }
}

// Whether a text has a mark right after a span.
fn begins_after(text: &str, span: TextSpan, mark: &str) -> bool {
    match text.get(span.end..) {
        Some(after) => after.starts_with(mark),
        None => false,
    }
}

// What begins a target.
const BEFORE_TARGETS: [&str; 4] = ["[[", "](", "](<", "]: "];
