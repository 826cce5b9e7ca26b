//! The parts of a link: its destination, its title and a label.
ghost use Rattle.std.specs.Prelude.{◌≡◌, ◌≤◌, ◌<◌, false, length, IfSome};
ghost use Rattle.markdown_targets.specs.Destinations.{stops, depth_after, destination_end};
ghost use Rattle.markdown_targets.specs.Offsets.{Advances};

use crate::finder::bytes::{
    destination_mark_at, find_unescaped, is_line_end, is_space_or_control, skip_byte,
    skip_escape_or_byte, skip_spaces,
};
use crate::span::PageSpan;

// How deep the parentheses of a destination may be.
const DEEPEST: usize = 32;

// A destination, and the offset after it and its angles.
#[derive(Clone, Copy)]
pub(crate) struct Destination {
    pub(crate) span: PageSpan,
    pub(crate) after: usize,
}

// What is in the parentheses of a link, and the offset after them.
#[derive(Clone, Copy)]
pub(crate) struct InlineLink {
    pub(crate) target: Option<PageSpan>,
    pub(crate) after: usize,
}

// Returns the parentheses of a link at an offset.
pub(crate) fn inline_link(text: &[u8], start: usize) -> Option<InlineLink>
    ensures { IfSome result (λ link. Advances text.now start link.after) }
{
    let inside = skip_spaces(text, skip_byte(text, start, b'(')?);
    let destination = read_destination(text, inside);
    let after = match destination {
        Some(destination) => destination.after,
        None => inside,
    };
    let end = skip_spaces(text, title_end(text, after).unwrap_or(after));
    let after = skip_byte(text, end, b')')?;
    Some(InlineLink {
        target: destination.map(|destination| destination.span),
        after,
    })
}

// Returns the destination at an offset. A destination may be empty only between `<` and `>`.
pub(crate) fn read_destination(text: &[u8], start: usize) -> Option<Destination>
    requires { start ≤ length text.now }
    ensures { IfSome result (λ destination. Advances text.now start destination.after) }
{
    if let Some(start) = skip_byte(text, start, b'<') {
        let end = find_unescaped(text, start, |byte| {
            byte == b'<' || byte == b'>' || is_line_end(byte)
        })?;
        let after = skip_byte(text, end, b'>')?;
        Some(Destination {
            span: PageSpan { start, end },
            after,
        })
    } else {
        let end = bare_destination_end(text, start)?;
        Some(Destination {
            span: PageSpan { start, end },
            after: end,
        })
    }
}

// Returns the end of a destination without angles, whose parentheses are balanced.
fn bare_destination_end(text: &[u8], start: usize) -> Option<usize>
    requires { start ≤ length text.now }
    ensures end { result ≡ destination_end text.now start }
    ensures within { IfSome result (λ end. Advances text.now start end) }
{
    let mut depth = 0;
    let mut k = destination_mark_at(text, start);
    while k < text.len() && !stops(depth, text[k]) {
        depth = depth_after(depth, text[k]);
        k = destination_mark_at(text, skip_escape_or_byte(text, k));
    }
    if depth == 0 && k > start {
        Some(k)
    } else {
        None
    }
}

// Returns whether a destination with so many open parentheses stops before a byte.
fn stops(depth: usize, byte: u8) -> bool
    ensures { result ≡ stops depth byte }
{
    match byte {
        b'(' => depth == DEEPEST,
        b')' => depth == 0,
        _ => is_space_or_control(byte),
    }
}

// Returns how many parentheses are open after a byte of a destination.
fn depth_after(depth: usize, byte: u8) -> usize
    requires goes_on { stops depth byte ≡ false }
    requires few { depth ≤ DEEPEST }
    ensures after { result ≡ depth_after depth byte }
    ensures within { result ≤ DEEPEST }
{
    match byte {
        b'(' => depth + 1,
        b')' => depth - 1,
        _ => depth,
    }
}

// Returns the end of the title at an offset, which begins with spaces.
pub(crate) fn title_end(text: &[u8], start: usize) -> Option<usize>
    requires { start ≤ length text.now }
    ensures { IfSome result (λ end. Advances text.now start end) }
{
    let opening = skip_spaces(text, start);
    if opening == start {
        return None;
    }
    let quote = *text.get(opening)?;
    let close = match quote {
        b'"' | b'\'' => quote,
        b'(' => b')',
        _ => return None,
    };
    let end = find_unescaped(text, opening + 1, |byte| byte == close || byte == quote)?;
    skip_byte(text, end, close)
}
