//! The targets in a page of Markdown, as CommonMark reads it.
//!
//! `finder` finds the targets; tests show which. This module keeps those that are spans of the page, in order,
//! and proves it.
#![tactic(auto)]

ghost use Rattle.std.specs.Prelude.{map, IfOk};
ghost use Rattle.std.specs.List.{All};
ghost use Rattle.markdown_targets.specs.Spans.{IsSpanOf, AreInOrder};

pub use self::heading::{HeadingPart, HeadingPartKind, Headings};
pub use self::span::PageSpan;
pub use self::target::{LinkTarget, LinkTargets, PassedOver, Quote, TargetKind, WhyPassedOver};

mod finder;
mod heading;
mod span;
mod target;

use std::alloc::{AllocError, Global};

/// Returns the targets of the links, images and link reference definitions of a page in Markdown, and
/// of the attributes `href` and `src` in its HTML.
///
/// The targets are spans of the page, in order and without overlap. Nothing in them is decoded. Tests show
/// that they are the targets that the text of CommonMark 0.31.2 has; no clause does.
///
/// A link by name, as `[a]` and `[a][b]`, has no target of its own; the definition of the name has it. A
/// label that begins with `^` is that of a footnote, and its definition is text. Code, comments and autolinks
/// have no targets. Between the tags of `script`, `style`, `textarea` and `title` only links of Markdown in a
/// paragraph have targets. Destinations that are passed over on purpose are in `passed_over`, and these are
/// spans of the page too.
///
/// The call reads these otherwise than CommonMark does:
///
/// - It compares the names of links without case only as far as ASCII.
/// - It reads as text what is in more than 100 lists and quotations, and runs of more than 80 backticks.
/// - In a block of HTML it knows the tags that CommonMark knows in a paragraph.
/// - If a block of HTML doesn't close an instruction, a section or a declaration, that ends at the next `>`,
///   as in a browser.
///
/// Time is linear in the page, except for the search of names. Allocates a copy of the page, a table of runs
/// of backticks, two lists of targets, a list of blocks, a list of open brackets, and the names that the page
/// defines.
///
/// ```
/// let page = "[a](b.md \"t\"), `[c](d)` and ![e](<f g>)\n\n[h]: i\n\n<img src='j'>\n";
/// let found = link_targets(alloc, page)?;
/// let spans = found.targets.iter().map(|target| target.span);
/// let texts = spans.map(|span| &page[span.start..span.end]).collect::<Vec<_>>(alloc)?;
/// assert_eq!(rt; texts.as_slice(), ["b.md", "f g", "i", "j"].as_slice());
/// assert_eq!(rt; found.targets[3].kind, TargetKind::Attribute(Quote::Single));
/// ```
pub fn link_targets(alloc: Global, page: &str) -> Result<LinkTargets, AllocError>
    // spans of whole characters of the page, in order, without overlap
    ensures in_order { IfOk result (λ found.
        AreInOrder page.now 0 (map (λ target. target.span) found.targets.items)) }
    // spans of whole characters of the page
    ensures passed_over { IfOk result (λ found.
        All (λ passed. IsSpanOf page.now passed.span) found.passed_over.items) }
{
    let mut found = finder::find(alloc, page)?;
    found.passed_over.retain(|passed| passed.span.is_of(page));
    let targets = targets_in_order(alloc, page, &found.targets)?;
    Ok(LinkTargets { targets, ..found })
}

/// Returns the parts of the headings of a page in Markdown, and the names of the elements in its HTML.
///
/// Headings are those of `#` and those with an underline, also in block quotes and list items, and those of HTML in a
/// block of HTML, such as `<h1>`, up to their closing tag or the end of the block. Parts and names are spans of the page. Nothing
/// in them is decoded, and which marks are those of emphasis isn't said. Tests of `markdown_anchors` show that the parts are
/// those of the headings that the text of CommonMark 0.31.2 has; no clause does. The page is read as by
/// [`link_targets`], and the call takes as much time and memory, and memory for a list of the parts and one of the names.
///
/// ```
/// let page = "# a `b` [c](d.md)\n\n<a name='e'></a>\n";
/// let found = heading_parts(alloc, page)?;
/// let spans = found.parts.iter().map(|part| part.span);
/// let texts = spans.map(|span| &page[span.start..span.end]).collect::<Vec<_>>(alloc)?;
/// let wanted = ["a `b` [c](d.md)", "a ", "b", " [c", "[c"];
/// assert_eq!(rt; texts.as_slice(), wanted.as_slice());
/// assert_eq!(rt; found.names.as_slice(), [PageSpan { start: 28, end: 29 }].as_slice());
/// ```
pub fn heading_parts(alloc: Global, page: &str) -> Result<Headings, AllocError>
    // spans of whole characters of the page
    ensures parts { IfOk result (λ found. All (λ part. IsSpanOf page.now part.span) found.parts.items) }
    // spans of whole characters of the page
    ensures names { IfOk result (λ found. All (λ span. IsSpanOf page.now span) found.names.items) }
{
    let mut found = finder::find_headings(alloc, page)?;
    found.parts.retain(|part| part.span.is_of(page));
    found.names.retain(|span| span.is_of(page));
    Ok(found)
}

// Returns the targets that are spans of the page, without those that begin before the last one ends. None does, which
// isn't proved.
fn targets_in_order(
    alloc: Global,
    page: &str,
    found: &[LinkTarget],
) -> Result<Vec<LinkTarget>, AllocError>
    ensures { IfOk result (λ targets. AreInOrder page.now 0 (map (λ target. target.span) targets.items)) }
{
    let mut targets = Vec::new(alloc);
    let mut at = 0;
    for target in found {
        if at <= target.span.start && target.span.is_of(page) {
            targets.push(*target)?;
            at = target.span.end;
        }
    }
    Ok(targets)
}
