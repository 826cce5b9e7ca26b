//! Link reference definitions.
ghost use Rattle.std.specs.Prelude.{◌≤◌, ◌<◌, length, IfSome, IfOk};
ghost use Rattle.markdown_targets.specs.Offsets.{Skips, Advances};

use crate::finder::bytes::{is_blank, is_line_end, run_end, skip_byte, skip_spaces};
use crate::finder::links::{read_destination, title_end};
use crate::finder::names::{Label, Names};
use crate::span::PageSpan;
use std::alloc::AllocError;

// A definition, and the offset of the line after it.
#[derive(Clone, Copy)]
pub(crate) struct Definition<'a> {
    pub(crate) name: &'a [u8],
    pub(crate) target: PageSpan,
    pub(crate) after: usize,
}

// Adds the names of the definitions with which a paragraph begins at an offset.
pub(crate) fn add_names(text: &[u8], start: usize, names: &mut Names) -> Result<(), AllocError>
    requires { start ≤ length text.now }
{
    let mut k = start;
    while let Some(definition) = Definition::read(text, k) {
        names.add(definition.name)?;
        k = definition.after;
    }
    Ok(())
}

// Returns whether a paragraph holds definitions alone.
pub(crate) fn is_definitions(text: &[u8]) -> bool {
    let mut k = 0;
    while let Some(definition) = Definition::read(text, k) {
        k = definition.after;
    }
    k == text.len()
}

impl<'a> Definition<'a> {
    // Returns the definition at an offset. The definition of a footnote isn't one of a link.
    pub(crate) fn read(text: &'a [u8], start: usize) -> Option<Definition<'a>>
        requires { start ≤ length text.now }
        ensures { IfSome result (λ definition. Advances text.now start definition.after) }
    {
        let label = Label::read(text, skip_spaces(text, start))?;
        if label.is_footnote() {
            return None;
        }
        let destination_start = skip_spaces(text, skip_byte(text, label.after, b':')?);
        let destination = read_destination(text, destination_start)?;
        let after = definition_end(text, destination.after)?;
        Some(Definition {
            name: label.name,
            target: destination.span,
            after,
        })
    }
}

// Returns the line after a definition, whose destination ends at an offset.
fn definition_end(text: &[u8], from: usize) -> Option<usize>
    requires { from ≤ length text.now }
    ensures { IfSome result (λ end. Skips text.now from end) }
{
    if let Some(title) = title_end(text, from)
        && let Some(end) = next_line(text, title)
    {
        return Some(end);
    }
    next_line(text, from)
}

// Returns the offset of the next line, if the rest of this line is blank.
fn next_line(text: &[u8], from: usize) -> Option<usize>
    requires { from ≤ length text.now }
    ensures { IfSome result (λ end. Skips text.now from end) }
{
    let end = run_end(text, from, is_blank);
    if end == text.len() || is_line_end(text[end]) {
        Some(skip_spaces(text, end))
    } else {
        None
    }
}
