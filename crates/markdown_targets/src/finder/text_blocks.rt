//! The text of a page's blocks.
ghost use Rattle.std.specs.Prelude.{◌≤◌, length, IfSome};

use std::alloc::{AllocError, Global};

// What a block of text is.
#[derive(Clone, Copy, PartialEq, Eq)]
pub(crate) enum TextKind {
    // A paragraph, which may begin with definitions.
    Paragraph,
    // A heading that `#` opens.
    Heading,
    // HTML.
    Html,
}

// A block, and the span of its text in the page.
#[derive(Clone, Copy)]
pub(crate) struct TextBlock {
    pub(crate) kind: TextKind,
    pub(crate) start: usize,
    end: usize,
    // Whether the block is a paragraph that an underline makes a heading.
    pub(crate) is_underlined: bool,
}

// The page's bytes, with spaces in place of the markers of containers within the text of a block. So an offset
// here is an offset in the page.
#[derive(Drop)]
pub(crate) struct TextBlocks {
    bytes: Vec<u8>,
    blocks: Vec<TextBlock>,
}

impl TextBlocks {
    // Returns the page with no blocks yet.
    pub(crate) fn new(alloc: Global, page: &[u8]) -> Result<TextBlocks, AllocError> {
        Ok(TextBlocks {
            bytes: page.to_vec(alloc)?,
            blocks: Vec::new(alloc),
        })
    }

    // Adds a block, whose first line has the text `start..end`.
    pub(crate) fn begin(
        &mut self,
        kind: TextKind,
        start: usize,
        end: usize,
    ) -> Result<(), AllocError> {
        self.blocks.push(TextBlock {
            kind,
            start,
            end,
            is_underlined: false,
        })?;
        Ok(())
    }

    // Makes the last block a heading.
    pub(crate) fn underline(&mut self) {
        if let Some(block) = self.blocks.last_mut() {
            block.is_underlined = true;
        }
    }

    // Adds a line to the last block. It begins at an offset, and has the text `start..end`.
    pub(crate) fn add_line(&mut self, line: usize, start: usize, end: usize) {
        if line <= start && start <= self.bytes.len() {
            self.bytes[line..start].fill(b' ');
        }
        if let Some(block) = self.blocks.last_mut() {
            block.end = end;
        }
    }

    // Returns the blocks, in the order of the page.
    pub(crate) fn blocks(&self) -> &[TextBlock] {
        &self.blocks
    }

    // Returns the text of the last block.
    pub(crate) fn last_text(&self) -> &[u8] {
        match self.blocks.last() {
            Some(block) => self.bytes.get(block.start..block.end).unwrap_or(&[]),
            None => &[],
        }
    }

    // Returns the page as far as to the end of a block.
    pub(crate) fn text_through(&self, block: TextBlock) -> Option<&[u8]>
        ensures { IfSome result (λ text. block.start ≤ length text.now) }
    {
        if block.start <= block.end {
            self.bytes.get(..block.end)
        } else {
            None
        }
    }
}
