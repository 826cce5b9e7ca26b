//! Which pages change.
ghost use Rattle.std.specs.Prelude.{◌≡◌, IfOk, length};
ghost use Rattle.relative_path_places.specs.PlaceIndex.{Indexes};
ghost use Rattle.relmove_steps.specs.Pages.{changed_paths};

use relative_path_links::{MovedSitePage, SitePage};
use relative_path_places::PlaceIndex;
use std::alloc::{AllocError, Global};

// Returns the paths of the pages that change, by their number among these.
pub(crate) fn changed_index(
    alloc: Global,
    pages: &[SitePage<'_>],
    news: &[MovedSitePage],
) -> Result<PlaceIndex, AllocError>
    requires { length news.now ≡ length pages.now }
    ensures { IfOk result (Indexes (changed_paths pages.now news.now)) }
{
    let mut index = PlaceIndex::new(alloc);
    let mut number = 0usize;
    for (page, new) in pages.iter().zip(news) {
        if new.text.is_some() {
            let path = page.path.copy(alloc)?;
            index.insert_normal(path, number)?;
            number += 1;
        }
    }
    Ok(index)
}
