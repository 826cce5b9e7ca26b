//! What is found of a page's headings.

use crate::span::PageSpan;

/// What a part of the headings of a page is.
#[derive(Clone, Copy, Debug, PartialEq, Eq)]
pub enum HeadingPartKind {
    /// A heading begins: the span is empty, or has the whole text of a heading of Markdown. The parts up to the next one
    /// of this kind are the heading's.
    Start,
    /// Text of Markdown, with backslash escapes, character references, marks of emphasis and line ends. It may have the
    /// brackets of links.
    Text,
    /// The content of a code span, without the backticks.
    Code,
    /// The content of an autolink, without the angles.
    Autolink,
    /// A link: the span goes from the opening bracket to the closing one. The parts in it come before. Its destination isn't in a
    /// part.
    Link,
    /// Text of HTML, with character references, in a heading of HTML such as `<h1>`.
    Html,
}

/// A part of the headings of a page.
#[derive(Clone, Copy, Debug, PartialEq, Eq)]
pub struct HeadingPart {
    /// What it is.
    pub kind: HeadingPartKind,
    /// Its span in the page. A line end in it may have markers of block quotes after it.
    pub span: PageSpan,
}

/// What [`heading_parts`](crate::heading_parts) finds in a page.
#[derive(Debug, Drop)]
pub struct Headings {
    /// The parts of the headings, in the order of the page, a link after what is in it. The description of an image isn't
    /// among them, since it isn't text.
    pub parts: Vec<HeadingPart>,
    /// The values of the first `id` and the first `name` of each start tag of HTML in the page, in the order of the tags.
    pub names: Vec<PageSpan>,
}
