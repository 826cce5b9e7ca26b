//! The targets in the text of a page's blocks.
ghost use Rattle.std.specs.Prelude.{◌≡◌, ◌≤◌, ◌<◌, ◌+◌, true, length, slice_index, Ok, IfOk, IfSome};
ghost use Rattle.markdown_targets.specs.Classes.{is_special, is_only_text};
ghost use Rattle.markdown_targets.specs.Offsets.{Skips, Advances, first_from};

use crate::finder::autolinks::autolink_end;
use crate::finder::brackets::{Bracket, Brackets, Opener};
use crate::finder::bytes::{byte_at, skip_escape_or_byte, special_at};
use crate::finder::code_spans::BacktickRuns;
use crate::finder::definitions::{Definition, add_names};
use crate::finder::html::{Endings, unclosed_end};
use crate::finder::links::inline_link;
use crate::finder::names::{Label, Names};
use crate::finder::tags::{StartTag, names_of_tag};
use crate::finder::text_blocks::{TextBlocks, TextKind};
use crate::span::PageSpan;
use crate::target::{LinkTarget, LinkTargets, PassedOver, TargetKind, WhyPassedOver};
use std::alloc::{AllocError, Global};

// Returns the targets of links, images, definitions and attributes, in the order in which these end, and what is passed
// over.
pub(crate) fn read_inlines(alloc: Global, text: &TextBlocks) -> Result<LinkTargets, AllocError> {
    let mut reader = InlineReader::new(alloc, text)?;
    for block in text.blocks() {
        if let Some(bytes) = text.text_through(*block) {
            reader.read_inlines_of_block(block.kind, bytes, block.start)?;
        }
    }
    let InlineReader { found, .. } = reader;
    Ok(found)
}

// Returns the names that the paragraphs of a page define.
fn names(alloc: Global, text: &TextBlocks) -> Result<Names, AllocError> {
    let mut names = Names::new(alloc);
    for block in text.blocks() {
        if block.kind == TextKind::Paragraph
            && let Some(bytes) = text.text_through(*block)
        {
            add_names(bytes, block.start, &mut names)?;
        }
    }
    Ok(names)
}

// What is known while a page is read: of its block the brackets, the runs of backticks, the words that
// end HTML, and how far the content of an element is text.
#[derive(Drop)]
pub(crate) struct InlineReader {
    found: LinkTargets,
    // The values of `id` and `name`, if they are asked for.
    element_names: Option<Vec<PageSpan>>,
    names: Names,
    brackets: Brackets,
    runs: BacktickRuns,
    endings: Endings,
    content_end: usize,
}

// A link or an image whose text is closed: its opening bracket, and the offset after it.
#[derive(Clone, Copy)]
pub(crate) struct ClosedLink {
    pub(crate) bracket: Bracket,
    pub(crate) after: usize,
}

impl InlineReader {
    // Returns a reader of a page that has read nothing but the names that the page defines.
    fn new(alloc: Global, text: &TextBlocks) -> Result<InlineReader, AllocError> {
        Ok(InlineReader {
            found: LinkTargets {
                targets: Vec::new(alloc),
                passed_over: Vec::new(alloc),
                has_base: false,
            },
            element_names: None,
            names: names(alloc, text)?,
            brackets: Brackets::new(alloc),
            runs: BacktickRuns::new(alloc)?,
            endings: Endings::new(),
            content_end: 0,
        })
    }

    // Returns such a reader that keeps the names of elements too.
    pub(crate) fn with_element_names(
        alloc: Global,
        text: &TextBlocks,
    ) -> Result<InlineReader, AllocError> {
        let mut reader = InlineReader::new(alloc, text)?;
        reader.element_names = Some(Vec::new(alloc));
        Ok(reader)
    }

    // Returns the names of elements that were read.
    pub(crate) fn into_element_names(self, alloc: Global) -> Vec<PageSpan> {
        let InlineReader { element_names, .. } = self;
        element_names.unwrap_or(Vec::new(alloc))
    }

    // Forgets what is known of a block, where another one begins.
    pub(crate) fn begin_block(&mut self) {
        self.brackets.clear();
        self.endings = Endings::new();
    }

    // Sees the runs of backticks from an offset on. The text ends with its block.
    pub(crate) fn see_runs(&mut self, text: &[u8], from: usize)
        requires { from ≤ length text.now }
    {
        self.runs.see(text, from);
    }

    // Returns the end of the code span at an offset, or of the backticks that open none.
    pub(crate) fn span_end(&self, text: &[u8], start: usize) -> usize
        requires { start < length text.now }
        ensures { Advances text.now start result }
    {
        self.runs.span_end(text, start)
    }

    // Reads the block from an offset on. The text ends with it.
    pub(crate) fn read_inlines_of_block(
        &mut self,
        kind: TextKind,
        text: &[u8],
        start: usize,
    ) -> Result<(), AllocError>
        requires { start ≤ length text.now }
    {
        self.begin_block();
        match kind {
            TextKind::Paragraph => {
                let inlines = self.read_definitions(text, start)?;
                self.read_inlines(text, inlines)
            }
            TextKind::Heading => self.read_inlines(text, start),
            TextKind::Html => self.read_html(text, start),
        }
    }

    // Reads the definitions with which a paragraph begins, and returns the offset after them.
    pub(crate) fn read_definitions(
        &mut self,
        text: &[u8],
        start: usize,
    ) -> Result<usize, AllocError>
        requires { start ≤ length text.now }
        ensures { IfOk result (λ end. Skips text.now start end) }
    {
        let mut k = start;
        while let Some(definition) = Definition::read(text, k) {
            self.add_target(text, TargetKind::Definition, definition.target)?;
            k = definition.after;
        }
        Ok(k)
    }

    // Reads the inlines from an offset on.
    fn read_inlines(&mut self, text: &[u8], start: usize) -> Result<(), AllocError>
        requires { start ≤ length text.now }
    {
        self.runs.see(text, start);
        let mut k = start;
        while k < text.len() {
            k = self.read_inline(text, k)?;
        }
        Ok(())
    }

    // Reads what is at an offset, and returns the offset after it. If it is only text, nothing changes, and the text goes
    // on to the next special byte.
    pub(crate) fn read_inline(&mut self, text: &[u8], k: usize) -> Result<usize, AllocError>
        requires { k < length text.now }
        ensures text { is_only_text (slice_index text.now k) (slice_index text.now (k + 1)) ≡ true
            → (self.new ≡ self.old) × (result ≡ Ok (first_from is_special text.now (k + 1))) }
        ensures within { IfOk result (λ end. Advances text.now k end) }
    {
        match &text[k..] {
            [b'`', ..] => Ok(self.runs.span_end(text, k)),
            [b'<', ..] => self.read_angles(text, k),
            [b'[', ..] => {
                self.brackets.open(Opener::Link, k)?;
                Ok(k + 1)
            }
            [b'!', b'[', ..] => {
                self.brackets.open(Opener::Image, k + 1)?;
                Ok(k + 2)
            }
            [b']', ..] => self.close_bracket(text, k + 1),
            [b'\\', ..] => Ok(skip_escape_or_byte(text, k)),
            _ => Ok(special_at(text, k + 1)),
        }
    }

    // Reads the autolink or the HTML at an offset, and returns the offset after it, or after the angle
    // where there is none.
    pub(crate) fn read_angles(&mut self, text: &[u8], k: usize) -> Result<usize, AllocError>
        requires { k < length text.now }
        ensures { IfOk result (λ end. Advances text.now k end) }
    {
        if let Some(end) = autolink_end(text, k) {
            return Ok(end);
        }
        let Some(html) = self.endings.read(text, k) else {
            return Ok(k + 1);
        };
        if let Some(tag) = html.tag
            && k >= self.content_end
        {
            self.add_tag(text, k, tag)?;
            self.content_end = tag.content_end(text, html.after);
        }
        Ok(html.after)
    }

    // Reads the HTML from an offset on.
    fn read_html(&mut self, text: &[u8], start: usize) -> Result<(), AllocError>
        requires { start ≤ length text.now }
    {
        let mut k = start;
        while k < text.len() {
            k = self.read_tag(text, k)?;
        }
        Ok(())
    }

    // Reads the next tag from an offset on, and returns the offset after it, or after its element if the
    // content of that is text.
    pub(crate) fn read_tag(&mut self, text: &[u8], from: usize) -> Result<usize, AllocError>
        requires { from < length text.now }
        ensures { IfOk result (λ end. Advances text.now from end) }
    {
        let start = byte_at(text, from, b'<');
        if start == text.len() {
            return Ok(start);
        }
        let Some(html) = self.endings.read(text, start) else {
            return Ok(unclosed_end(text, start));
        };
        let Some(tag) = html.tag else {
            return Ok(html.after);
        };
        self.add_tag(text, start, tag)?;
        Ok(tag.content_end(text, html.after))
    }

    // Closes a bracket, and returns the offset after it, or after its link.
    fn close_bracket(&mut self, text: &[u8], after: usize) -> Result<usize, AllocError>
        requires { after ≤ length text.now }
        ensures { IfOk result (λ end. Skips text.now after end) }
    {
        match self.close_link(text, after)? {
            Some(link) => Ok(link.after),
            None => Ok(after),
        }
    }

    // Closes a bracket, and returns its link, if it is that of one.
    pub(crate) fn close_link(
        &mut self,
        text: &[u8],
        after: usize,
    ) -> Result<Option<ClosedLink>, AllocError>
        requires { after ≤ length text.now }
        ensures { IfOk result (λ link. IfSome link (λ link. Skips text.now after link.after)) }
    {
        let Some(bracket) = self.brackets.close() else {
            return Ok(None);
        };
        let Some(end) = self.link_end(text, bracket, after)? else {
            return Ok(None);
        };
        if bracket.opener == Opener::Link {
            self.brackets.deactivate();
        }
        Ok(Some(ClosedLink {
            bracket,
            after: end,
        }))
    }

    // Returns the end of the link whose text ends at an offset.
    fn link_end(
        &mut self,
        text: &[u8],
        bracket: Bracket,
        after: usize,
    ) -> Result<Option<usize>, AllocError>
        requires { after ≤ length text.now }
        ensures { IfOk result (λ end. IfSome end (λ end. Skips text.now after end)) }
    {
        let Some(link) = inline_link(text, after) else {
            return self.reference_link_end(text, bracket, after);
        };
        if let Some(target) = link.target {
            self.add_target(text, TargetKind::Inline, target)?;
        }
        Ok(Some(link.after))
    }

    // Returns the end of the link by name whose text ends at an offset: `[text][name]`, `[name][]` or `[name]`.
    fn reference_link_end(
        &mut self,
        text: &[u8],
        bracket: Bracket,
        after: usize,
    ) -> Result<Option<usize>, AllocError>
        requires { after ≤ length text.now }
        ensures { IfOk result (λ end. IfSome end (λ end. Skips text.now after end)) }
    {
        if let Some(label) = Label::read(text, after) {
            return self.named_end(text, label, label.after);
        }
        let Some(label) = Label::read(text, bracket.start) else {
            return Ok(None);
        };
        if label.after != after {
            return Ok(None);
        }
        if text[after..].starts_with(b"[]") {
            return self.named_end(text, label, after + 2);
        }
        Ok(if self.names.has(label.name)? {
            Some(after)
        } else {
            None
        })
    }

    // Returns the end of a link by a name in brackets, if the name is defined. Otherwise the name is passed over,
    // unless it is a footnote's or has a target of its own.
    fn named_end(
        &mut self,
        text: &[u8],
        label: Label<'_>,
        end: usize,
    ) -> Result<Option<usize>, AllocError>
        ensures { IfOk result (λ named. IfSome named (λ named. named ≡ end)) }
    {
        if self.names.has(label.name)? {
            return Ok(Some(end));
        }
        if !label.is_footnote() && text.get(end) != Some(&b'(') {
            self.pass_over(WhyPassedOver::UnknownName, label.span)?;
        }
        Ok(None)
    }

    // Adds the targets of the start tag at an offset, and its names if they are asked for.
    fn add_tag(&mut self, text: &[u8], start: usize, tag: StartTag<'_>) -> Result<(), AllocError> {
        if let Some(names) = &mut self.element_names {
            for value in names_of_tag(text, start).into_iter().flatten() {
                names.push(value.span)?;
            }
        }
        if tag.is(b"base") && tag.href().is_some() {
            self.found.has_base = true;
            return Ok(());
        }
        for value in tag.values().into_iter().flatten() {
            self.add_target(text, TargetKind::Attribute(value.quote), value.span)?;
        }
        Ok(())
    }

    // Adds a target, or passes it over if a template writes it.
    fn add_target(
        &mut self,
        text: &[u8],
        kind: TargetKind,
        span: PageSpan,
    ) -> Result<(), AllocError> {
        if text.get(span.start..span.end).is_some_and(is_template) {
            return self.pass_over(WhyPassedOver::Template, span);
        }
        self.found.targets.push(LinkTarget { kind, span })?;
        Ok(())
    }

    // Adds what is passed over.
    fn pass_over(&mut self, why: WhyPassedOver, span: PageSpan) -> Result<(), AllocError> {
        self.found.passed_over.push(PassedOver { why, span })?;
        Ok(())
    }
}

// Returns whether a template writes a destination.
fn is_template(destination: &[u8]) -> bool {
    matches!(destination, [b'{', b'{' | b'%', ..] | [b'$', b'{', ..])
}
