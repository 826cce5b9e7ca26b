//! The names to which fragments can lead.

use crate::headings::slugs_of;
use crate::names::heading_names;
use crate::sources::push_source;
use markdown_targets::{PageSpan, heading_parts};
use std::alloc::{AllocError, Global};
use target_paths::TargetSyntax;

/// The names to which fragments of links to a page can lead.
#[derive(Debug, Drop)]
pub struct Anchors {
    // In order.
    names: Vec<String>,
}

/// Returns the names to which fragments of links to a page of Markdown can lead: those of its headings, and the values of
/// the first `id` and the first `name` of each tag in its HTML.
///
/// The name of a heading is the [`slug`](crate::slug) of the text to which it is rendered, with a number if a heading before it
/// has this name, as [`heading_names`] says. The text has what is in code spans, links and autolinks, and underscores
/// that aren't marks of emphasis. It doesn't have the description of an image. Tests show which headings and which texts are
/// read; no clause does.
///
/// Time is linear in the page, but for the names, which are put in order. Allocates what [`heading_parts`] does, the text
/// of a heading, and the names up to three times.
///
/// ```
/// let anchors = anchors_of(alloc, "# A `b`\n\n## A b\n\n<a id=\"C\"></a>\n")?;
/// let names = anchors.names().iter().map(|name| name.as_str());
/// let wanted = ["C", "a-b", "a-b-1"];
/// assert_eq!(rt; names.collect::<Vec<_>>(alloc)?.as_slice(), wanted.as_slice());
/// assert!(rt; anchors.has(alloc, "A-B")? && !anchors.has(alloc, "c")?);
/// ```
pub fn anchors_of(alloc: Global, page: &str) -> Result<Anchors, AllocError> {
    let found = heading_parts(alloc, page)?;
    let slugs = slugs_of(alloc, page, &found.parts)?;
    let mut names = heading_names(alloc, &slugs)?;
    for span in &found.names {
        if let Some(name) = element_name(alloc, page, *span)? {
            names.push(name)?;
        }
    }
    names.sort()?;
    Ok(Anchors { names })
}

// Returns the name of an element, whose attribute has a value with this span.
fn element_name(alloc: Global, page: &str, span: PageSpan) -> Result<Option<String>, AllocError> {
    let mut name = Vec::new(alloc);
    if let Some(value) = page.as_bytes().get(span.start..span.end) {
        push_source(&mut name, TargetSyntax::Attribute, value)?;
    }
    Ok(String::from_utf8(name).ok())
}

impl Anchors {
    /// Returns the names, in the order of their bytes. One can be there several times.
    pub fn names(&self) -> &[String] {
        &self.names
    }

    /// Returns whether a decoded fragment leads somewhere: it is empty or `top` in any case, or a name; or it is a name in
    /// lower case.
    ///
    /// Browsers compare it as it is, and GitHub's pages look for it in lower case too. Allocates the fragment in lower case.
    pub fn has(&self, alloc: Global, fragment: &str) -> Result<bool, AllocError> {
        if fragment.is_empty() || fragment.eq_ignore_ascii_case("top") || self.has_name(fragment) {
            return Ok(true);
        }
        Ok(self.has_name(fragment.to_lowercase(alloc)?.as_str()))
    }

    // Returns whether a name is there.
    fn has_name(&self, name: &str) -> bool {
        self.names
            .binary_search_by(|other| other.as_str().cmp(name))
            .is_ok()
    }
}
