//! The directories of which a site serves the files as they are.
use crate::addresses::address_of;
use crate::tree::{Tree, is_directory_entry};
use relative_path::RelativePath;
use relative_path_moves::TreeMoves;
use relative_path_places::{NormalPath, directory};
use relmove_journal::{directory_of, join};
use std::alloc::{AllocError, Global};
use std::collections::BTreeSet;

// Their names. Hugo, Docusaurus and Zola have the first, and VitePress and Astro the other.
const SERVED_NAMES: [&str; 2] = ["static", "public"];

/// Such directories of a tree. What a path leads to from the address of a page can be in them.
#[derive(Drop)]
pub struct Served {
    // Each before the moves, and after them.
    directories: Vec<(String, String)>,
}

// Where the pages of a site are that serves a directory.
#[derive(Clone, Copy)]
enum Pages {
    // In the directory above, as those of VitePress.
    Above,
    // In another directory there, as those of Hugo are in `content`.
    Beside,
}

impl Served {
    /// Those in tops of a tree that moves, and beside them. Allocates their paths.
    pub fn of(
        alloc: Global,
        tree: &Tree,
        moves: &TreeMoves<'_>,
        tops: &[NormalPath],
    ) -> Result<Served, AllocError> {
        let mut paths = BTreeSet::new(alloc);
        for top in tops {
            let top = top.as_relative_path().as_str();
            insert_in(alloc, &mut paths, tree, top)?;
            insert_in(alloc, &mut paths, tree, directory_of(top))?;
        }
        let mut directories = Vec::with_capacity(alloc, paths.len())?;
        for path in &paths {
            let after = moves.path_after(alloc, RelativePath::new(path.as_str()))?;
            let after = after.into_relative_path_buf().into_string();
            directories.push((path.clone()?, after))?;
        }
        Ok(Served { directories })
    }

    /// Where paths lead from the address of a page, if they lead into these directories: `static/posts/a` for
    /// `content/posts/a.md`. Each before the moves, and after them, when the page is at another path. Allocates them.
    pub fn addresses_of(
        &self,
        alloc: Global,
        page: RelativePath<'_>,
        new: RelativePath<'_>,
    ) -> Result<Vec<(String, String)>, AllocError> {
        let mut addresses = Vec::new(alloc);
        for (before, after) in &self.directories {
            for pages in [Pages::Above, Pages::Beside] {
                if let Some(from) = address_in(alloc, page, before.as_str(), pages)? {
                    let to = match address_in(alloc, new, after.as_str(), pages)? {
                        Some(to) => to,
                        None => String::from_str(alloc, directory(new).as_str())?,
                    };
                    addresses.push((from, to))?;
                }
            }
        }
        Ok(addresses)
    }
}

// Inserts those in a directory of a tree.
fn insert_in(
    alloc: Global,
    paths: &mut BTreeSet<String>,
    tree: &Tree,
    above: &str,
) -> Result<(), AllocError> {
    for name in &SERVED_NAMES {
        let path = join(alloc, above, name)?;
        if is_directory_entry(tree, path.as_str()) {
            paths.insert(path)?;
        }
    }
    Ok(())
}

// The address of a page, as a path in a served directory, if the site's pages are there.
fn address_in(
    alloc: Global,
    page: RelativePath<'_>,
    served: &str,
    pages: Pages,
) -> Result<Option<String>, AllocError> {
    match path_in_site(page.as_str(), directory_of(served), pages) {
        Some(path) => {
            let address = address_of(RelativePath::new(path));
            Ok(Some(join(alloc, served, address.as_str())?))
        }
        None => Ok(None),
    }
}

// The path of a page from the directory of its site's pages, if the site's directory is this one.
fn path_in_site<'p>(page: &'p str, site: &str, pages: Pages) -> Option<&'p str> {
    let below = if site.is_empty() {
        page
    } else {
        page.strip_prefix(site)?.strip_prefix('/')?
    };
    match pages {
        Pages::Above => Some(below),
        Pages::Beside => match below.split_once('/') {
            Some((_, path)) => Some(path),
            None => None,
        },
    }
}
