//! What a line begins after the markers of its containers.
use crate::finder::bytes::{is_blank, is_blank_text, run_length};
use crate::finder::cursor::Cursor;
use crate::finder::fence::Fence;
use crate::finder::html_block::HtmlBlock;

// How many `#` a heading may have.
const DEEPEST_HEADING: usize = 6;

// How many of the same byte make a thematic break.
const SHORTEST_BREAK: usize = 3;

// What a line begins.
#[derive(Clone, Copy)]
pub(crate) enum Start {
    // Nothing: the line is blank.
    Blank,
    // A line of a paragraph.
    Text,
    // Indented code.
    Code,
    // A heading that `#` opens.
    Heading,
    // A block of code in fences.
    Fenced(Fence),
    // A block in HTML.
    Html(HtmlBlock),
    // The underline of a heading.
    Underline,
    // A thematic break.
    Rule,
}

// The paragraph that a line finds before it. It goes on if nothing else begins in the line.
#[derive(Clone, Copy)]
pub(crate) enum Before {
    // A paragraph in the containers that the line belongs to.
    Paragraph,
    // A paragraph in further containers, whose markers the line lacks.
    Lazy,
    // No paragraph.
    Nothing,
}

impl Before {
    // Returns whether there is a paragraph of the same containers.
    pub(crate) fn is_paragraph(self) -> bool {
        matches!(self, Before::Paragraph)
    }

    // Returns whether there is a paragraph.
    pub(crate) fn is_open(self) -> bool {
        !matches!(self, Before::Nothing)
    }
}

impl Start {
    // Returns what the rest of a line begins, which opens no container.
    pub(crate) fn read(cursor: Cursor<'_>, before: Before) -> Start {
        if cursor.is_at_end() {
            return Start::Blank;
        }
        if cursor.is_indented() {
            return if before.is_open() {
                Start::Text
            } else {
                Start::Code
            };
        }
        let text = cursor.rest;
        if is_heading(text) {
            return Start::Heading;
        }
        if before.is_paragraph() && is_underline(text) {
            return Start::Underline;
        }
        if is_thematic_break(text) {
            return Start::Rule;
        }
        if let Some(fence) = Fence::read(text) {
            return Start::Fenced(fence);
        }
        HtmlBlock::read(text, before.is_open()).map_or(Start::Text, Start::Html)
    }
}

// Returns whether a text begins with the `#` of a heading.
fn is_heading(text: &[u8]) -> bool {
    let level = run_length(text, b'#');
    level > 0 && level <= DEEPEST_HEADING && text.get(level).is_none_or(|&byte| is_blank(byte))
}

// Returns whether a text underlines a heading.
fn is_underline(text: &[u8]) -> bool {
    match text.first() {
        Some(&byte) if byte == b'=' || byte == b'-' => {
            is_blank_text(&text[run_length(text, byte)..])
        }
        _ => false,
    }
}

// Returns whether a text is a thematic break.
pub(crate) fn is_thematic_break(text: &[u8]) -> bool {
    match text.first() {
        Some(&byte) if byte == b'*' || byte == b'-' || byte == b'_' => {
            text.iter().all(|&other| other == byte || is_blank(other))
                && text
                    .iter()
                    .filter(|&&other| other == byte)
                    .nth(SHORTEST_BREAK - 1)
                    .is_some()
        }
        _ => false,
    }
}
