//! The root of a site, by its path in a tree.
use crate::tree::{Page, Tree, is_directory_entry};
use relative_path::{RelativePath, RelativePathBuf};
use relative_path_links::SiteRoot;
use relative_path_places::{NormalPath, directory};
use std::alloc::{AllocError, Global};

/// The root of a site, by its path from the root of a tree. `None` if no directory of the tree is there. Without a path
/// the site's root isn't known. Allocates the path in its normal form, and three copies.
pub fn site_root_at(
    alloc: Global,
    tree: &Tree,
    path: Option<&str>,
) -> Result<Option<SiteRoot>, AllocError> {
    let Some(path) = path else {
        return Ok(Some(SiteRoot::unknown()));
    };
    let path = NormalPath::of(alloc, RelativePath::new(path))?;
    let text = path.as_relative_path().as_str();
    if !text.is_empty() && !is_directory_entry(tree, text) {
        return Ok(None);
    }
    Ok(Some(SiteRoot::at(alloc, &path)?))
}

// Where the link of a target leads that spells this path, in its normal form. It leads from the site's root, or from the
// directory of its page.
pub(crate) fn file_of(
    alloc: Global,
    root: &SiteRoot,
    (page, target): (&Page, &str),
    path: &str,
) -> Result<RelativePathBuf, AllocError> {
    let path = RelativePath::new(path);
    match root.start_of(target) {
        Some(root) => root.as_relative_path().join_normalized(alloc, path),
        None => {
            let directory = directory(RelativePath::new(page.path.as_str()));
            directory.join_normalized(alloc, path)
        }
    }
}
