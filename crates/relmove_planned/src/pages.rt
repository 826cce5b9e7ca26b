//! The pages of a tree: their names, and their texts by their paths.
ghost use Rattle.std.specs.Prelude.{◌≡◌, IfNone, IfOk};
ghost use Rattle.std.specs.List.{position};
ghost use Rattle.relmove_planned.specs.Plans.{ArePageTexts, HaveNoReservedNames, HaveTexts, has_reserved_name};
ghost use Rattle.relmove_work.specs.Pages.{page_texts};

use relative_path_links::SitePage;
use relmove_checks::has_reserved_name;
use std::alloc::{AllocError, Global};
use std::collections::BTreeMap;

// Returns the number of the first page whose path has a name of a run's own.
pub(crate) fn first_reserved(pages: &[SitePage<'_>]) -> Option<usize>
    ensures first { result ≡ position has_reserved_name pages.now }
    ensures none { IfNone result (HaveNoReservedNames pages.now) }
{
    pages
        .iter()
        .position(|page| has_reserved_name(page.path.as_relative_path()))
}

// Returns the texts of pages, by their paths.
pub(crate) fn texts_by_path<'a>(
    alloc: Global,
    pages: &[SitePage<'a>],
) -> Result<BTreeMap<&'a str, &'a str>, AllocError>
    // each text is that of a page with the path
    ensures texts { IfOk result (λ texts. ArePageTexts pages.now (page_texts texts)) }
    // each page has a text
    ensures all { IfOk result (λ texts. HaveTexts pages.now (page_texts texts)) }
{
    let mut texts = BTreeMap::new(alloc);
    for page in pages {
        texts.insert(page.path.as_relative_path().as_str(), page.text)?;
    }
    Ok(texts)
}
