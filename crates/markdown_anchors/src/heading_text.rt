//! The text to which a heading is rendered.
ghost use Rattle.std.specs.Prelude.{◌<◌, ◌+◌, ◌^◌, length, IfOk};

use crate::emphasis::{MARK, Run, mark_emphasis};
use crate::sources::{push_characters, push_source, read_reference};
use markdown_targets::PageSpan;
use std::alloc::{AllocError, Global};
use target_paths::TargetSyntax;
use ucd_category::{GeneralCategory, GeneralCategoryGroup};

// The text of a heading so far.
#[derive(Drop)]
pub(crate) struct HeadingText<'p> {
    alloc: Global,
    page: &'p str,
    text: Vec<u8>,
    // The runs of asterisks and underscores that aren't in a link whose end was read.
    runs: Vec<Run>,
    // Where in the page the line's text begins.
    line_start: usize,
}

impl<'p> HeadingText<'p> {
    // Returns no text of a page.
    pub(crate) fn new(alloc: Global, page: &'p str) -> HeadingText<'p> {
        HeadingText {
            alloc,
            page,
            text: Vec::new(alloc),
            runs: Vec::new(alloc),
            line_start: 0,
        }
    }

    // Begins a heading at an offset in the page.
    pub(crate) fn begin(&mut self, start: usize) {
        self.text.clear();
        self.runs.clear();
        self.line_start = start;
    }

    // Returns the text of the heading, which ends.
    pub(crate) fn end(&mut self) -> Result<String, AllocError> {
        self.mark_from(0)?;
        let text = self.text.iter().copied().filter(|byte| *byte != MARK);
        let text = text.collect::<Vec<u8>>(self.alloc)?;
        Ok(String::from_utf8(text).unwrap_or(String::new(self.alloc)))
    }

    // Appends text of Markdown.
    pub(crate) fn push_text(&mut self, span: PageSpan) -> Result<(), AllocError> {
        let source = self.source(span);
        let mut k = 0;
        while k < source.len() {
            k = self.push_piece(source, span.start, k)?;
        }
        Ok(())
    }

    // Appends the content of a code span, in which a line end is a space. A space at both ends isn't part of it.
    pub(crate) fn push_code(&mut self, span: PageSpan) -> Result<(), AllocError> {
        let start = self.text.len();
        let source = self.source(span);
        let mut k = 0;
        while k < source.len() {
            k = self.push_code_byte(source, k)?;
        }
        self.trim_code(start);
        Ok(())
    }

    // Appends the content of an autolink.
    pub(crate) fn push_autolink(&mut self, span: PageSpan) -> Result<(), AllocError> {
        let source = self.source(span);
        self.text.extend_from_slice(source)?;
        Ok(())
    }

    // Appends text of HTML.
    pub(crate) fn push_html(&mut self, span: PageSpan) -> Result<(), AllocError> {
        let source = self.source(span);
        push_source(&mut self.text, TargetSyntax::Attribute, source)
    }

    // Ends a link whose opening bracket is at an offset in the page: emphasis begins and ends within it.
    pub(crate) fn close_link(&mut self, start: usize) -> Result<(), AllocError> {
        let first = self.runs.partition_point(|run| run.source < start);
        self.mark_from(first)
    }

    // Makes marks of emphasis of the runs from one on, and forgets these.
    fn mark_from(&mut self, first: usize) -> Result<(), AllocError> {
        let mut runs = Vec::new(self.alloc);
        runs.extend_from_slice(self.runs.get(first..).unwrap_or(&[]))?;
        self.runs.truncate(first);
        mark_emphasis(runs, &mut self.text)
    }

    // Returns the bytes of a span of the page.
    fn source(&self, span: PageSpan) -> &'p [u8] {
        let page: &'p str = self.page;
        page.as_bytes().get(span.start..span.end).unwrap_or(&[])
    }

    // Appends what is at an offset in text of Markdown, which begins at an offset in the page. Returns the offset after it.
    fn push_piece(&mut self, source: &[u8], start: usize, k: usize) -> Result<usize, AllocError>
        requires { k < length source.now }
        ensures { IfOk result (λ end. k < end) }
    {
        match &source[k..] {
            [b'\\', byte, ..] if byte.is_ascii_punctuation() => {
                self.text.push(*byte)?;
                Ok(k.saturating_add(2))
            }
            [b'\n' | b'\r', ..] => self.end_line(source, start, k),
            [b'*' | b'_', ..] => self.push_run(source, start, k),
            [b'&', name @ ..] => self.push_reference(name, k),
            [MARK, ..] => Ok(k + 1),
            [byte, ..] => {
                self.text.push(*byte)?;
                Ok(k + 1)
            }
            [] => Ok(k + 1),
        }
    }

    // Appends what an `&` at an offset and the text after it stand for, and returns the offset after it.
    fn push_reference(&mut self, name: &[u8], k: usize) -> Result<usize, AllocError>
        requires { k + 1 < 2 ^ 64 }
        ensures { IfOk result (λ end. k < end) }
    {
        let Some(reference) = read_reference(name) else {
            self.text.push(b'&')?;
            return Ok(k + 1);
        };
        push_characters(&mut self.text, reference.characters)?;
        Ok(k.saturating_add(reference.size))
    }

    // Ends a line at an offset, without the blanks right before it. Returns the offset of the text of the next line.
    fn end_line(&mut self, source: &[u8], start: usize, k: usize) -> Result<usize, AllocError>
        requires { k < length source.now }
        ensures { IfOk result (λ end. k < end) }
    {
        let is_text = |byte: &u8| !matches!(*byte, b' ' | b'\t');
        let blanks = match source[..k].iter().rposition(is_text) {
            Some(last) => k.saturating_sub(last.saturating_add(1)),
            None => k,
        };
        self.text.truncate(self.text.len().saturating_sub(blanks));
        self.text.push(b'\n')?;
        let next = next_line(source, k);
        self.line_start = start.saturating_add(next);
        Ok(next)
    }

    // Appends the run of asterisks or underscores at an offset, and returns the offset after it.
    fn push_run(&mut self, source: &[u8], start: usize, k: usize) -> Result<usize, AllocError>
        requires { k < length source.now }
        ensures { IfOk result (λ end. k < end) }
    {
        let byte = source[k];
        let length = run_length(&source[k + 1..], byte).saturating_add(1);
        let at = start.saturating_add(k);
        let run = self.run_of(byte, at, length);
        self.runs.push(run)?;
        for _ in 0..length {
            self.text.push(byte)?;
        }
        Ok(k.saturating_add(length))
    }

    // Returns the run of a byte at an offset in the page.
    fn run_of(&self, byte: u8, source: usize, length: usize) -> Run {
        let before = self.kind_before(source);
        let after = self.kind_after(source.saturating_add(length));
        let begins = after.is_beside(before);
        let ends = before.is_beside(after);
        let is_word = byte == b'_';
        Run {
            byte,
            source,
            at: self.text.len(),
            left: length,
            length,
            opens: begins && (!is_word || !ends || before == CharacterKind::Punctuation),
            closes: ends && (!is_word || !begins || after == CharacterKind::Punctuation),
        }
    }

    // Returns the kind of the character before an offset in the page. The beginning of a line is a space.
    fn kind_before(&self, at: usize) -> CharacterKind {
        if at <= self.line_start {
            return CharacterKind::Space;
        }
        let before = self.page.get(..at).unwrap_or("");
        kind_of(before.chars().next_back())
    }

    // Returns the kind of the character at an offset in the page. The end of the page is a space.
    fn kind_after(&self, at: usize) -> CharacterKind {
        let after = self.page.get(at..).unwrap_or("");
        kind_of(after.chars().next())
    }

    // Appends the byte at an offset of a code span, and returns the offset after it.
    fn push_code_byte(&mut self, source: &[u8], k: usize) -> Result<usize, AllocError>
        requires { k < length source.now }
        ensures { IfOk result (λ end. k < end) }
    {
        match source[k] {
            b'\n' | b'\r' => {
                self.text.push(b' ')?;
                Ok(next_line(source, k))
            }
            MARK => Ok(k + 1),
            byte => {
                self.text.push(byte)?;
                Ok(k + 1)
            }
        }
    }

    // Removes the space at both ends of a code span, whose text begins at an offset, unless it has only spaces.
    fn trim_code(&mut self, start: usize) {
        let Some([b' ', inner @ .., b' ']) = self.text.get(start..) else {
            return;
        };
        if inner.iter().any(|byte| *byte != b' ') {
            self.text.pop();
            self.text.remove(start);
        }
    }
}

// What a character is to marks of emphasis next to it.
#[derive(Clone, Copy, PartialEq, Eq)]
enum CharacterKind {
    // A space or a line end, or none.
    Space,
    // Punctuation.
    Punctuation,
    // Another character.
    Other,
}

impl CharacterKind {
    // Returns whether marks between such a character and another one are on the side of this one.
    fn is_beside(self, other: CharacterKind) -> bool {
        match self {
            CharacterKind::Space => false,
            CharacterKind::Punctuation => other != CharacterKind::Other,
            CharacterKind::Other => true,
        }
    }
}

// Returns the kind of a character. Punctuation is that of cmark-gfm: ASCII's, and what Unicode calls so.
fn kind_of(character: Option<char>) -> CharacterKind {
    let Some(character) = character else {
        return CharacterKind::Space;
    };
    if matches!(character, '\t' | '\n' | '\x0C' | '\r' | ' ') {
        return CharacterKind::Space;
    }
    let category = GeneralCategory::for_char(character);
    if category == GeneralCategory::SpaceSeparator {
        return CharacterKind::Space;
    }
    if character.is_ascii_punctuation() || GeneralCategoryGroup::Punctuation.contains(category) {
        return CharacterKind::Punctuation;
    }
    CharacterKind::Other
}

// Returns how many times a byte is repeated at the beginning of a text.
fn run_length(text: &[u8], byte: u8) -> usize {
    text.iter()
        .position(|other| *other != byte)
        .unwrap_or(text.len())
}

// Returns the offset of the text of the line after a line end at an offset, without the markers of block quotes before it.
fn next_line(source: &[u8], k: usize) -> usize
    requires { k < length source.now }
    ensures { k < result }
{
    for end in k + 1..source.len() {
        if !matches!(source[end], b'\n' | b'\r' | b' ' | b'\t' | b'>') {
            return end;
        }
    }
    source.len()
}
