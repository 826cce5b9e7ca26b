//! Block quotes and list items, which hold other blocks.
ghost use Rattle.std.specs.Prelude.{◌≤◌, length, IfSome};

use crate::finder::bytes::{is_blank_text, run_end};
use crate::finder::cursor::Cursor;

// How many digits the number of an item may have.
const MOST_DIGITS: usize = 9;

// From how many columns after the marker on an item begins with code.
const CODE_PADDING: usize = 5;

// A block that holds other blocks.
#[derive(Clone, Copy)]
pub(crate) enum Container {
    // A block quote, which has `>` in each line.
    Quote,
    // A list item, whose lines are indented this far.
    Item(usize),
}

impl Container {
    // Returns the container that begins at a position which is no thematic break, and the position after its marker.
    pub(crate) fn read<'a>(
        cursor: Cursor<'a>,
        is_in_paragraph: bool,
    ) -> Option<(Container, Cursor<'a>)> {
        if let Some(inner) = after_quote_mark(cursor) {
            return Some((Container::Quote, inner));
        }
        if cursor.is_indented() {
            return None;
        }
        let width = item_marker(cursor.rest)?;
        if is_in_paragraph && !interrupts_paragraph(cursor.rest, width) {
            return None;
        }
        Some(item_after(cursor, width))
    }

    // Returns the position after what a line has for the container, if the line belongs to it.
    pub(crate) fn after_prefix<'a>(self, cursor: Cursor<'a>) -> Option<Cursor<'a>> {
        match self {
            Container::Quote => after_quote_mark(cursor),
            Container::Item(_) if cursor.is_at_end() => Some(cursor),
            Container::Item(width) if cursor.indent() >= width => Some(cursor.after_columns(width)),
            Container::Item(_) => None,
        }
    }
}

// Returns the position after the `>` of a block quote, and after one space.
fn after_quote_mark<'a>(cursor: Cursor<'a>) -> Option<Cursor<'a>> {
    if cursor.is_indented() || cursor.rest.is_empty() || cursor.rest[0] != b'>' {
        return None;
    }
    let inner = cursor.after_bytes(1);
    Some(inner.after_columns(inner.indent().min(1)))
}

// Returns the item that a marker begins, and the position where its text begins.
fn item_after<'a>(cursor: Cursor<'a>, width: usize) -> (Container, Cursor<'a>)
    requires { width ≤ length cursor.rest.now }
{
    let inner = cursor.after_bytes(width);
    let padding = item_padding(inner);
    let indent = cursor
        .indent()
        .saturating_add(width)
        .saturating_add(padding);
    (
        Container::Item(indent),
        inner.after_columns(padding.min(inner.indent())),
    )
}

// Returns how many columns there are between the marker of an item and its text.
fn item_padding(inner: Cursor<'_>) -> usize {
    if inner.is_at_end() || inner.indent() >= CODE_PADDING {
        return 1;
    }
    inner.indent()
}

// Returns how many bytes the marker of an item has that a text begins with.
fn item_marker(text: &[u8]) -> Option<usize>
    ensures { IfSome result (λ width. width ≤ length text.now) }
{
    let width = match text.first()? {
        b'-' | b'+' | b'*' => 1,
        _ => number_marker(text)?,
    };
    match text.get(width) {
        None | Some(b' ' | b'\t') => Some(width),
        Some(_) => None,
    }
}

// Returns how many bytes the marker of an ordered item has that a text begins with.
fn number_marker(text: &[u8]) -> Option<usize>
    ensures { IfSome result (λ width. width ≤ length text.now) }
{
    let digits = digit_count(text);
    if digits == 0 || digits > MOST_DIGITS || digits == text.len() {
        return None;
    }
    match text[digits] {
        b'.' | b')' => Some(digits + 1),
        _ => None,
    }
}

// Returns how many digits a text begins with.
fn digit_count(text: &[u8]) -> usize
    ensures { result ≤ length text.now }
{
    run_end(text, 0, |byte| byte.is_ascii_digit())
}

// Returns whether an item with a marker of some bytes ends a paragraph: it has text, and no number but 1.
fn interrupts_paragraph(text: &[u8], width: usize) -> bool
    requires { width ≤ length text.now }
{
    if is_blank_text(&text[width..]) {
        return false;
    }
    match &text[..digit_count(text)] {
        [] => true,
        [zeros @ .., last] => *last == b'1' && zeros.iter().all(|&digit| digit == b'0'),
    }
}
