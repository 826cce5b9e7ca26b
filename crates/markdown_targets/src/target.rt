//! What is found in a page.

use crate::span::PageSpan;

/// What a target belongs to, which says how its text is read.
#[derive(Clone, Copy, Debug, PartialEq, Eq)]
pub enum TargetKind {
    /// The parentheses of a link or an image.
    Inline,
    /// A link reference definition.
    Definition,
    /// An attribute `href` or `src` of a tag in HTML, which knows no backslash escapes.
    Attribute(Quote),
}

/// What ends the value of an attribute.
#[derive(Clone, Copy, Debug, PartialEq, Eq)]
pub enum Quote {
    /// `"`
    Double,
    /// `'`
    Single,
    /// A space or the end of the tag.
    Unquoted,
}

/// The target of a link, and its span in the page.
#[derive(Clone, Copy, Debug, PartialEq, Eq)]
pub struct LinkTarget {
    /// What the target belongs to.
    pub kind: TargetKind,
    /// The span of its text, without angle brackets, quotes and title. The span may be empty.
    pub span: PageSpan,
}

/// Why something that looks like a target is passed over.
#[derive(Clone, Copy, Debug, PartialEq, Eq)]
pub enum WhyPassedOver {
    /// The destination begins with `{{`, `{%` or `${`: a template writes it.
    Template,
    /// The name in `[text][name]` or `[name][]` has no definition in the page.
    UnknownName,
}

/// What is passed over, and its span in the page.
#[derive(Clone, Copy, Debug, PartialEq, Eq)]
pub struct PassedOver {
    /// Why.
    pub why: WhyPassedOver,
    /// The destination, or the name.
    pub span: PageSpan,
}

/// What [`link_targets`](crate::link_targets) finds in a page.
#[derive(Debug, Drop)]
pub struct LinkTargets {
    /// The targets, in the order of the page.
    pub targets: Vec<LinkTarget>,
    /// What is passed over on purpose, in the order in which it ends. A name in `[a][b][]` is there twice.
    pub passed_over: Vec<PassedOver>,
    /// Whether the page has a `<base href>`. Then no target is relative to the page's directory.
    pub has_base: bool,
}
