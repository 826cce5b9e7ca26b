//! What finds the targets of a page's links.
ghost use Rattle.std.specs.Prelude.{◌≡◌, ℕ, List, map, IfOk};
ghost use Rattle.relative_path_links.specs.declared.target.Target.{Target};
ghost use Rattle.relative_path_links.specs.Targets.{HasTargets, span_of};

use crate::target::Target;
use markdown_targets::{LinkTarget, PageSpan, TargetKind, link_targets};
use std::alloc::{AllocError, Global};
use target_paths::TargetSyntax;

/// What finds the targets of a page's links. [`Markdown`] does for pages in Markdown.
pub trait Finder {
    // it may find these targets in a page
    ghost finds: { Self → List ℕ → List Target → Type 0 };

    /// Returns the targets of a page's links in the order of the page, each with the syntax of its text.
    fn targets(&self, alloc: Global, page: &str) -> Result<Vec<Target>, AllocError>
        // it finds them in the page
        ensures found { IfOk result (λ targets. finds self.now page.now targets.items) }
        // spans of whole characters of the page, in order, without overlap
        ensures in_order { IfOk result (λ targets. HasTargets page.now 0 targets.items) };
}

/// Finds the links of a page in Markdown, as [`targets`] does.
///
/// ```
/// let found = Markdown.targets(alloc, "[a](b.md)")?;
/// assert_eq!(rt; found.len(), 1);
/// ```
#[derive(Clone, Copy, Debug)]
pub struct Markdown;

impl Finder for Markdown {
    // spans of the page, in order; no clause says which
    ghost finds = { λ _ page targets. HasTargets page 0 targets };

    fn targets(&self, alloc: Global, page: &str) -> Result<Vec<Target>, AllocError> {
        targets(alloc, page)
    }
}

/// Returns the targets of a page's links in the order of the page, each with the syntax of its text.
///
/// These are the targets that [`link_targets`] finds: of links, images and definitions in Markdown, and of
/// the attributes `href` and `src` in HTML. In a page with a `<base href>` no target leads on from the page's
/// directory, so the result is empty. Tests show which targets are found; no clause does.
///
/// Allocates what [`link_targets`] does, and a list of the targets. Time is linear in the page.
///
/// ```
/// let page = "[a](b.md#top) `[g](h)` <img src='c.png'>";
/// let found = targets(alloc, page)?;
/// let link = Target { syntax: TargetSyntax::Markdown, start: 4, end: 12 };
/// let image = Target { syntax: TargetSyntax::Attribute, start: 33, end: 38 };
/// assert_eq!(rt; found.as_slice(), [link, image].as_slice());
/// ```
pub fn targets(alloc: Global, page: &str) -> Result<Vec<Target>, AllocError>
    // spans of whole characters of the page, in order, without overlap
    ensures in_order { IfOk result (λ targets. HasTargets page.now 0 targets.items) }
{
    let found = link_targets(alloc, page)?;
    if found.has_base {
        return Ok(Vec::new(alloc));
    }
    with_syntax(alloc, &found.targets)
}

// Returns the targets, each with the syntax of its text.
fn with_syntax(alloc: Global, links: &[LinkTarget]) -> Result<Vec<Target>, AllocError>
    ensures { IfOk result (λ targets. map span_of targets.items ≡ map (λ link. link.span) links.now) }
{
    let mut targets = Vec::with_capacity(alloc, links.len())?;
    for link in links {
        let PageSpan { start, end } = link.span;
        let syntax = syntax_of(link.kind);
        targets.push(Target { syntax, start, end })?;
    }
    Ok(targets)
}

// Returns the syntax of a target's text.
fn syntax_of(kind: TargetKind) -> TargetSyntax {
    match kind {
        TargetKind::Inline | TargetKind::Definition => TargetSyntax::Markdown,
        TargetKind::Attribute(_) => TargetSyntax::Attribute,
    }
}
