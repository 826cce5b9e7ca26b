//! The headings of a page, and the names of its elements of HTML.
ghost use Rattle.std.specs.Prelude.{◌≤◌, ◌<◌, length, IfOk};
ghost use Rattle.markdown_targets.specs.Offsets.{Skips, Advances};

use crate::finder::autolinks::autolink_end;
use crate::finder::brackets::Opener;
use crate::finder::bytes::{byte_at, is_blank, is_space, run_end, run_length, trim_end};
use crate::finder::inlines::InlineReader;
use crate::finder::text_blocks::{TextBlock, TextBlocks, TextKind};
use crate::heading::{HeadingPart, HeadingPartKind, Headings};
use crate::span::PageSpan;
use std::alloc::{AllocError, Global};

// Returns the parts of the headings of a page, and the names of its elements.
pub(crate) fn read_headings(alloc: Global, text: &TextBlocks) -> Result<Headings, AllocError> {
    let mut reader = HeadingReader::new(alloc, text)?;
    for block in text.blocks() {
        if let Some(bytes) = text.text_through(*block) {
            reader.read_block(*block, bytes)?;
        }
    }
    let HeadingReader { inlines, parts, .. } = reader;
    Ok(Headings {
        parts,
        names: inlines.into_element_names(alloc),
    })
}

// What is known while the headings of a page are read.
#[derive(Drop)]
struct HeadingReader {
    inlines: InlineReader,
    parts: Vec<HeadingPart>,
    // Where in a heading the text begins that isn't in a part yet.
    text_start: usize,
    // Whether a heading of HTML is open.
    is_open: bool,
}

impl HeadingReader {
    // Returns a reader that has read nothing.
    fn new(alloc: Global, text: &TextBlocks) -> Result<HeadingReader, AllocError> {
        Ok(HeadingReader {
            inlines: InlineReader::with_element_names(alloc, text)?,
            parts: Vec::new(alloc),
            text_start: 0,
            is_open: false,
        })
    }

    // Reads a block, with which the text ends.
    fn read_block(&mut self, block: TextBlock, text: &[u8]) -> Result<(), AllocError>
        requires { block.start ≤ length text.now }
    {
        self.inlines.begin_block();
        match block.kind {
            TextKind::Paragraph if block.is_underlined => {
                let start = self.inlines.read_definitions(text, block.start)?;
                self.read_heading(text, start)
            }
            TextKind::Paragraph => {
                self.inlines
                    .read_inlines_of_block(block.kind, text, block.start)
            }
            TextKind::Heading => {
                let hashes = run_end(text, block.start, |byte| byte == b'#');
                let end = content_end(text, hashes);
                self.read_heading(&text[..end], run_end(&text[..end], hashes, is_blank))
            }
            TextKind::Html => self.read_html(text, block.start),
        }
    }

    // Reads the text of a heading from an offset on.
    fn read_heading(&mut self, text: &[u8], start: usize) -> Result<(), AllocError>
        requires { start ≤ length text.now }
    {
        let text = &text[..trim_end(text, start, is_space)];
        self.parts.push(HeadingPart {
            kind: HeadingPartKind::Start,
            span: PageSpan {
                start,
                end: text.len(),
            },
        })?;
        self.text_start = start;
        self.inlines.see_runs(text, start);
        let mut k = start;
        while k < text.len() {
            k = self.read_inline(text, k)?;
        }
        self.add(HeadingPartKind::Text, self.text_start, text.len())
    }

    // Reads what is at an offset, and returns the offset after it.
    fn read_inline(&mut self, text: &[u8], k: usize) -> Result<usize, AllocError>
        requires { k < length text.now }
        ensures { IfOk result (λ end. Advances text.now k end) }
    {
        match text[k] {
            b'`' => self.read_code(text, k),
            b'<' => self.read_angles(text, k),
            b']' => self.close_bracket(text, k),
            _ => self.inlines.read_inline(text, k),
        }
    }

    // Reads the code span at an offset, and returns the offset after it, or after the backticks of none.
    fn read_code(&mut self, text: &[u8], k: usize) -> Result<usize, AllocError>
        requires { k < length text.now }
        ensures { IfOk result (λ end. Advances text.now k end) }
    {
        let end = self.inlines.span_end(text, k);
        let width = run_length(&text[k..], b'`');
        if end > k.saturating_add(width) {
            self.add(HeadingPartKind::Text, self.text_start, k)?;
            self.add(
                HeadingPartKind::Code,
                k.saturating_add(width),
                end.saturating_sub(width),
            )?;
            self.text_start = end;
        }
        Ok(end)
    }

    // Reads the autolink or the HTML at an offset, and returns the offset after it, or after the angle where there is none.
    fn read_angles(&mut self, text: &[u8], k: usize) -> Result<usize, AllocError>
        requires { k < length text.now }
        ensures { IfOk result (λ end. Advances text.now k end) }
    {
        let end = self.inlines.read_angles(text, k)?;
        if end > k + 1 {
            self.add(HeadingPartKind::Text, self.text_start, k)?;
            if autolink_end(text, k).is_some() {
                self.add(HeadingPartKind::Autolink, k + 1, end - 1)?;
            }
            self.text_start = end;
        }
        Ok(end)
    }

    // Reads the closing bracket at an offset, and returns the offset after it, or after its link.
    fn close_bracket(&mut self, text: &[u8], k: usize) -> Result<usize, AllocError>
        requires { k < length text.now }
        ensures { IfOk result (λ end. Advances text.now k end) }
    {
        let Some(link) = self.inlines.close_link(text, k + 1)? else {
            return Ok(k + 1);
        };
        let start = link.bracket.start;
        match link.bracket.opener {
            Opener::Link => {
                self.add(HeadingPartKind::Text, self.text_start, k)?;
                self.add(HeadingPartKind::Link, start, k)?;
            }
            Opener::Image => self.forget_from(start.saturating_sub(1))?,
        }
        self.text_start = link.after;
        Ok(link.after)
    }

    // Forgets what is in the parts of a heading from an offset on.
    fn forget_from(&mut self, start: usize) -> Result<(), AllocError> {
        if self.text_start < start {
            return self.add(HeadingPartKind::Text, self.text_start, start);
        }
        for _ in 0..self.parts.len() {
            match self.parts.last_mut() {
                Some(part) if part.kind == HeadingPartKind::Start => return Ok(()),
                Some(part) if part.span.start < start => {
                    part.span.end = part.span.end.min(start);
                    return Ok(());
                }
                _ => {
                    self.parts.pop();
                }
            }
        }
        Ok(())
    }

    // Reads the HTML from an offset on.
    fn read_html(&mut self, text: &[u8], start: usize) -> Result<(), AllocError>
        requires { start ≤ length text.now }
    {
        self.is_open = false;
        let mut k = start;
        while k < text.len() {
            k = self.read_element(text, k)?;
        }
        Ok(())
    }

    // Reads the text from an offset on up to the next tag, and this tag. Returns the offset after it.
    fn read_element(&mut self, text: &[u8], from: usize) -> Result<usize, AllocError>
        requires { from < length text.now }
        ensures { IfOk result (λ end. Advances text.now from end) }
    {
        let tag = byte_at(text, from, b'<');
        if self.is_open {
            self.add(HeadingPartKind::Html, from, tag)?;
        }
        match &text[tag..] {
            [b'<', b'/', name @ ..] if begins_with_heading(name) => self.is_open = false,
            [b'<', name @ ..] if begins_with_heading(name) => {
                self.is_open = true;
                self.parts.push(HeadingPart {
                    kind: HeadingPartKind::Start,
                    span: PageSpan {
                        start: tag,
                        end: tag,
                    },
                })?;
            }
            _ => {}
        }
        self.inlines.read_tag(text, from)
    }

    // Adds a part, unless it is empty.
    fn add(&mut self, kind: HeadingPartKind, start: usize, end: usize) -> Result<(), AllocError> {
        if start < end {
            let span = PageSpan { start, end };
            self.parts.push(HeadingPart { kind, span })?;
        }
        Ok(())
    }
}

// Returns the end of the content of a heading, whose `#` end at an offset: before the `#` at its end, if a space or a tab is
// before them.
fn content_end(text: &[u8], start: usize) -> usize
    requires { start ≤ length text.now }
    ensures { Skips text.now start result }
{
    let end = trim_end(text, start, is_blank);
    let content = trim_end(&text[..end], start, |byte| byte == b'#');
    if content > start && !is_blank(text[content - 1]) {
        return end;
    }
    trim_end(&text[..content], start, is_blank)
}

// Returns whether a text begins with the name of a heading's element, and a byte that ends the name.
fn begins_with_heading(text: &[u8]) -> bool {
    match text {
        [b'h' | b'H', b'1'..=b'6', end, ..] => { is_space(*end) || matches!(*end, b'/' | b'>') }
        _ => false,
    }
}
