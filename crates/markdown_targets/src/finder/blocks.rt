//! Reads a page line by line, and says which of its blocks have text, and where.
ghost use Rattle.std.specs.Prelude.{◌≤◌, ◌<◌, length};
ghost use Rattle.markdown_targets.specs.Offsets.{Skips};

use crate::finder::bytes::line_end;
use crate::finder::containers::Container;
use crate::finder::cursor::Cursor;
use crate::finder::definitions::is_definitions;
use crate::finder::fence::Fence;
use crate::finder::html_block::HtmlBlock;
use crate::finder::starts::{Before, Start, is_thematic_break};
use crate::finder::text_blocks::{TextBlocks, TextKind};
use std::alloc::{AllocError, Global};

// In how many containers a line may be.
const MOST_CONTAINERS: usize = 100;

// The mark of UTF-8 that a page may begin with.
const BYTE_ORDER_MARK: &[u8] = b"\xEF\xBB\xBF";

// The innermost block that is open, if it holds lines.
#[derive(Clone, Copy)]
enum Leaf {
    // None is open.
    Nothing,
    // A paragraph.
    Paragraph,
    // Indented code.
    Code,
    // Code in fences.
    Fenced(Fence),
    // HTML.
    Html(HtmlBlock),
}

// The bytes of a line, without what ends it.
#[derive(Clone, Copy)]
struct Line<'a> {
    // Where in the page the line begins.
    start: usize,
    // Where in the page it ends.
    end: usize,
    // Its bytes.
    bytes: &'a [u8],
}

impl<'a> Line<'a> {
    // Returns the offset of the rest of the line in the page.
    fn offset_of(self, rest: &[u8]) -> usize {
        self.end.saturating_sub(rest.len())
    }
}

// The blocks that are open after some lines of a page.
#[derive(Drop)]
struct BlockReader {
    // The text of the blocks so far.
    text: TextBlocks,
    // The containers that are open, the outermost first.
    containers: Vec<Container>,
    // The innermost block.
    leaf: Leaf,
    // Whether the innermost block is a container with only its marker read.
    is_container_empty: bool,
}

// Returns the text of the paragraphs, headings and blocks of HTML of a page in Markdown.
//
// The blocks are those of CommonMark 0.31. What is in more than 100 containers is read as text.
pub(crate) fn read_blocks(alloc: Global, page: &str) -> Result<TextBlocks, AllocError> {
    let page = page.as_bytes();
    let mut reader = BlockReader::new(alloc, page)?;
    let mut start = text_start(page);
    while start < page.len() {
        let end = line_end(page, start);
        let bytes = &page[start..end];
        reader.read_line(Line { start, end, bytes })?;
        start = next_line_start(page, end);
    }
    let BlockReader { text, .. } = reader;
    Ok(text)
}

// Returns where the text of a page begins, after a byte order mark.
fn text_start(page: &[u8]) -> usize
    ensures { result ≤ length page.now }
{
    match page.strip_prefix(BYTE_ORDER_MARK) {
        Some(rest) => page.len() - rest.len(),
        None => 0,
    }
}

// Returns the offset after what ends a line at an offset.
fn next_line_start(page: &[u8], end: usize) -> usize
    requires { end ≤ length page.now }
    ensures within { Skips page.now end result }
    ensures after { end < length page.now → end < result }
{
    match &page[end..] {
        [] => end,
        [b'\r', b'\n', ..] => end + 2,
        _ => end + 1,
    }
}

impl BlockReader {
    // Returns a reader that has read no line.
    fn new(alloc: Global, page: &[u8]) -> Result<BlockReader, AllocError> {
        Ok(BlockReader {
            text: TextBlocks::new(alloc, page)?,
            containers: Vec::new(alloc),
            leaf: Leaf::Nothing,
            is_container_empty: false,
        })
    }

    // Reads the next line.
    fn read_line(&mut self, line: Line<'_>) -> Result<(), AllocError> {
        let (depth, cursor) = self.enter_containers(line);
        if depth == self.containers.len() && self.takes(line, cursor) {
            return Ok(());
        }
        let before = self.before(depth);
        let (cursor, is_opened) = self.open_containers(depth, before, cursor)?;
        let before = if is_opened { Before::Nothing } else { before };
        let start = self.read_start(cursor, before);
        let from = line.offset_of(cursor.rest);
        if before.is_open() && matches!(start, Start::Text) {
            self.text.add_line(line.start, from, line.end);
            return Ok(());
        }
        if !is_opened {
            self.containers.truncate(depth);
        }
        self.is_container_empty = is_opened && cursor.is_at_end();
        self.leaf = leaf_after(start, cursor);
        match start {
            Start::Text => self.text.begin(TextKind::Paragraph, from, line.end),
            Start::Heading => self.text.begin(TextKind::Heading, from, line.end),
            Start::Html(_) => self.text.begin(TextKind::Html, from, line.end),
            Start::Underline => {
                self.text.underline();
                Ok(())
            }
            _ => Ok(()),
        }
    }

    // Returns how many containers a line belongs to, and the position after what it has for them.
    fn enter_containers<'a>(&self, line: Line<'a>) -> (usize, Cursor<'a>) {
        let mut cursor = Cursor::new(line.bytes);
        for (depth, container) in self.containers.iter().enumerate() {
            let Some(inner) = container.after_prefix(cursor) else {
                return (depth, cursor);
            };
            cursor = inner;
        }
        let depth = self.containers.len();
        if self.is_container_empty && cursor.is_at_end() {
            return (depth.saturating_sub(1), cursor);
        }
        (depth, cursor)
    }

    // Returns whether the innermost block takes a line as it is. The line that ends the block belongs to it.
    fn takes(&mut self, line: Line<'_>, cursor: Cursor<'_>) -> bool {
        match self.leaf {
            Leaf::Nothing | Leaf::Paragraph => false,
            Leaf::Code => cursor.is_at_end() || cursor.is_indented(),
            Leaf::Fenced(fence) => {
                if fence.is_closed_by(cursor) {
                    self.leaf = Leaf::Nothing;
                }
                true
            }
            Leaf::Html(block) if block.is_ended_before(cursor) => false,
            Leaf::Html(block) => {
                self.text
                    .add_line(line.start, line.offset_of(cursor.rest), line.end);
                self.leaf = html_leaf(block, cursor);
                true
            }
        }
    }

    // Returns what a line of so many containers finds before it.
    fn before(&self, depth: usize) -> Before {
        match self.leaf {
            Leaf::Paragraph if depth == self.containers.len() => Before::Paragraph,
            Leaf::Paragraph => Before::Lazy,
            _ => Before::Nothing,
        }
    }

    // Opens the containers that begin in a line. Returns the position after their markers, and whether
    // there are any.
    fn open_containers<'a>(
        &mut self,
        depth: usize,
        before: Before,
        cursor: Cursor<'a>,
    ) -> Result<(Cursor<'a>, bool), AllocError> {
        let mut cursor = cursor;
        let mut marker = None;
        for _ in depth..MOST_CONTAINERS {
            if begins_break(cursor, marker) {
                break;
            }
            let is_in_paragraph = marker.is_none() && before.is_paragraph();
            let Some((container, inner)) = Container::read(cursor, is_in_paragraph) else {
                break;
            };
            if marker.is_none() {
                self.containers.truncate(depth);
            }
            self.containers.push(container)?;
            marker = cursor.rest.first().copied();
            cursor = inner;
        }
        Ok((cursor, marker.is_some()))
    }

    // Returns what the rest of a line begins. An underline below definitions alone is a thematic break or text.
    fn read_start(&self, cursor: Cursor<'_>, before: Before) -> Start {
        let start = Start::read(cursor, before);
        if !matches!(start, Start::Underline) || !is_definitions(self.text.last_text()) {
            return start;
        }
        if is_thematic_break(cursor.rest) {
            Start::Rule
        } else {
            Start::Text
        }
    }
}

// Returns whether a thematic break begins after a marker. None does before the marker's own byte, as the marker would
// be a part of it: so each part of a line is looked at once.
fn begins_break(cursor: Cursor<'_>, marker: Option<u8>) -> bool {
    cursor.rest.first().copied() != marker && is_thematic_break(cursor.rest)
}

// Returns the block that is open after its first line.
fn leaf_after(start: Start, cursor: Cursor<'_>) -> Leaf {
    match start {
        Start::Blank | Start::Heading | Start::Underline | Start::Rule => Leaf::Nothing,
        Start::Text => Leaf::Paragraph,
        Start::Code => Leaf::Code,
        Start::Fenced(fence) => Leaf::Fenced(fence),
        Start::Html(block) => html_leaf(block, cursor),
    }
}

// Returns the block that is open after a line of a block in HTML.
fn html_leaf(block: HtmlBlock, cursor: Cursor<'_>) -> Leaf {
    if block.is_ended_by(cursor.rest) {
        Leaf::Nothing
    } else {
        Leaf::Html(block)
    }
}
