//! Finds the targets in a page.
//!
//! `blocks` finds the text of paragraphs, headings and blocks of HTML in a page, `inlines` the
//! targets in that, and `headings` the parts of headings. A module uses those to the right of it
//! in its row, and those of the rows below.
//!
//! ```text
//! pages        blocks, headings - inlines
//! lines        blocks - containers, starts - fence, html_block - cursor
//! text         inlines - brackets, code_spans, autolinks
//! definitions  definitions - names, links
//! html         html - tags
//! both         text_blocks, bytes
//! ```

mod autolinks;
mod blocks;
mod brackets;
mod bytes;
mod code_spans;
mod containers;
mod cursor;
mod definitions;
mod fence;
mod headings;
mod html;
mod html_block;
mod inlines;
mod links;
mod names;
mod starts;
mod tags;
mod text_blocks;

use crate::finder::blocks::read_blocks;
use crate::finder::headings::read_headings;
use crate::finder::inlines::read_inlines;
use crate::heading::Headings;
use crate::target::LinkTargets;
use std::alloc::{AllocError, Global};

// Returns the targets of a page, in the order in which what they belong to ends, and what is passed over.
pub(crate) fn find(alloc: Global, page: &str) -> Result<LinkTargets, AllocError> {
    let text = read_blocks(alloc, page)?;
    read_inlines(alloc, &text)
}

// Returns the parts of the headings of a page, and the names of its elements of HTML.
pub(crate) fn find_headings(alloc: Global, page: &str) -> Result<Headings, AllocError> {
    let text = read_blocks(alloc, page)?;
    read_headings(alloc, &text)
}
