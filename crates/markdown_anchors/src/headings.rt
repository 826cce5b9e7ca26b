//! The headings of a page.

use crate::heading_text::HeadingText;
use crate::slugs::slug;
use markdown_targets::{HeadingPart, HeadingPartKind};
use std::alloc::{AllocError, Global};

// Returns the slugs of the headings with these parts, in order.
pub(crate) fn slugs_of(
    alloc: Global,
    page: &str,
    parts: &[HeadingPart],
) -> Result<Vec<String>, AllocError> {
    let mut headings = Headings {
        alloc,
        text: HeadingText::new(alloc, page),
        slugs: Vec::new(alloc),
    };
    let mut is_first = true;
    for part in parts {
        if part.kind == HeadingPartKind::Start && !is_first {
            headings.end()?;
        }
        is_first = false;
        headings.add(*part)?;
    }
    if !is_first {
        headings.end()?;
    }
    Ok(headings.into_slugs())
}

// The headings so far.
#[derive(Drop)]
struct Headings<'p> {
    alloc: Global,
    // The text of the last one.
    text: HeadingText<'p>,
    // The slugs of the others.
    slugs: Vec<String>,
}

impl Headings<'_> {
    // Adds a part.
    fn add(&mut self, part: HeadingPart) -> Result<(), AllocError> {
        let span = part.span;
        match part.kind {
            HeadingPartKind::Start => {
                self.text.begin(span.start);
                Ok(())
            }
            HeadingPartKind::Text => self.text.push_text(span),
            HeadingPartKind::Code => self.text.push_code(span),
            HeadingPartKind::Autolink => self.text.push_autolink(span),
            HeadingPartKind::Link => self.text.close_link(span.start),
            HeadingPartKind::Html => self.text.push_html(span),
        }
    }

    // Adds the slug of the last heading, which ends.
    fn end(&mut self) -> Result<(), AllocError> {
        let text = self.text.end()?;
        self.slugs.push(slug(self.alloc, text.as_str())?)?;
        Ok(())
    }

    // Returns the slugs.
    fn into_slugs(self) -> Vec<String> {
        let Headings { slugs, .. } = self;
        slugs
    }
}
