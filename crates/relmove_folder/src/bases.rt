//! The directories from which the paths in a file can lead.
use crate::addresses::address_of;
use crate::extensions::is_data;
use crate::served::Served;
use crate::slugs::address_path;
use crate::tree::normal_text;
use relative_path::RelativePath;
use relative_path_moves::TreeMoves;
use relative_path_places::{NormalPath, directory};
use relmove_journal::{directory_of, name_of};
use relmove_mentions::is_page;
use std::alloc::{AllocError, Global};
use std::collections::BTreeSet;

/// The directories from which a path can lead that begins with a slash, or has a directory before its name: the root, and of
/// the directories above an old path of a move each that is in the root, has a name that tops of sites have, or has that of a
/// language and is in such a directory. So is the site's root, if it is known.
#[derive(Drop)]
pub struct Tops {
    /// Their paths before the moves.
    pub before: Vec<NormalPath>,
    /// The same directories after the moves.
    pub after: Vec<NormalPath>,
}

impl Tops {
    /// The tops of moves on a site whose root may be known by its path. Allocates the paths.
    pub fn of(
        alloc: Global,
        moves: &TreeMoves<'_>,
        site_root: Option<&str>,
    ) -> Result<Tops, AllocError> {
        let before = directories_above(alloc, moves, site_root)?;
        let mut after = Vec::with_capacity(alloc, before.len())?;
        for top in &before {
            after.push(moves.path_after(alloc, top.as_relative_path())?)?;
        }
        Ok(Tops { before, after })
    }
}

// The tops above the old paths of moves, and the site's root.
fn directories_above(
    alloc: Global,
    moves: &TreeMoves<'_>,
    site_root: Option<&str>,
) -> Result<Vec<NormalPath>, AllocError> {
    let mut texts = BTreeSet::new(alloc);
    if let Some(path) = site_root {
        texts.insert(normal_text(alloc, path)?)?;
    }
    for a in moves.moves() {
        insert_above(
            alloc,
            &mut texts,
            a.old.normal().as_relative_path().as_str(),
        )?;
    }
    let mut directories = Vec::with_capacity(alloc, texts.len())?;
    for text in &texts {
        directories.push(NormalPath::of(alloc, RelativePath::new(text.as_str()))?)?;
    }
    Ok(directories)
}

// Inserts the tops above a path: the root, and what is before a slash.
fn insert_above(alloc: Global, texts: &mut BTreeSet<String>, path: &str) -> Result<(), AllocError> {
    texts.insert(String::new(alloc))?;
    for (slash, _) in path.match_indices('/') {
        let above = path.get(..slash).unwrap_or("");
        if may_be_top(above) {
            texts.insert(String::from_str(alloc, above)?)?;
        }
    }
    Ok(())
}

// Whether a directory below the root may be the top of a site: it is in the root, or has such a name. So may one that has the
// name of a language in such a directory, as `content/en`.
fn may_be_top(path: &str) -> bool {
    has_name_of_top(path)
        || (is_name_of_language(name_of(path)) && has_name_of_top(directory_of(path)))
}

// Whether a directory is in the root, or has a name that tops of sites have.
fn has_name_of_top(path: &str) -> bool {
    !path.contains('/') || TOP_NAMES.iter().any(|name| *name == name_of(path))
}

// Whether a name is two letters, perhaps with a hyphen or `_` and more after them: `en`, `pt-br`, `zh_Hant`.
fn is_name_of_language(name: &str) -> bool {
    match name.as_bytes() {
        [one, two] => is_letter(*one) && is_letter(*two),
        [one, two, b'-' | b'_', _, ..] => is_letter(*one) && is_letter(*two),
        _ => false,
    }
}

// Whether a byte is an ASCII letter.
fn is_letter(byte: u8) -> bool {
    byte.is_ascii_alphabetic()
}

// Names of the tops of sites, and of directories that are served as if they were.
const TOP_NAMES: [&str; 10] = [
    "assets", "book", "content", "doc", "docs", "pages", "public", "source", "src", "static",
];

/// A directory from which the paths in a file can lead, and the same after the moves.
#[derive(Clone, Copy)]
pub struct Base<'a> {
    /// The directory before the moves.
    pub before: RelativePath<'a>,
    /// The one after them.
    pub after: RelativePath<'a>,
    /// Whether it is a top: a name alone doesn't lead from there.
    pub is_top: bool,
}

/// The directories from which the paths in a page can lead, where a site's addresses have others for them, or its files are
/// served from another directory.
#[derive(Drop)]
pub struct Addresses {
    // Each before the moves and after them.
    pairs: Vec<(String, String)>,
}

impl Addresses {
    /// Those of the file at a path, which is at another path after the moves. A file that is no page has none. Allocates them.
    pub fn of(
        alloc: Global,
        served: &Served,
        path: RelativePath<'_>,
        new: RelativePath<'_>,
    ) -> Result<Addresses, AllocError> {
        if !is_page(path) {
            return Ok(Addresses {
                pairs: Vec::new(alloc),
            });
        }
        let mut addresses = Addresses {
            pairs: served.addresses_of(alloc, path, new)?,
        };
        addresses.add(alloc, directory(path), directory(new))?;
        addresses.add(alloc, address_of(path), address_of(new))?;
        Ok(addresses)
    }

    // Adds the address of a directory, if that isn't its path.
    fn add(
        &mut self,
        alloc: Global,
        before: RelativePath<'_>,
        after: RelativePath<'_>,
    ) -> Result<(), AllocError> {
        let Some(before) = address_path(alloc, before.as_str())? else {
            return Ok(());
        };
        let after = match address_path(alloc, after.as_str())? {
            Some(after) => after,
            None => String::from_str(alloc, after.as_str())?,
        };
        self.pairs.push((before, after))?;
        Ok(())
    }
}

/// The directories from which the paths in a file can lead, by its path and the one after the moves: its own first, and for a
/// page the one that it is in the addresses of a site, and those that the addresses have for these two. For a file of values
/// these are also the tops in its directory, as `docs` is for `mkdocs.yml`. The tops come last. Allocates the list.
pub fn bases_of<'t>(
    alloc: Global,
    (path, new): (RelativePath<'t>, RelativePath<'t>),
    addresses: &'t Addresses,
    tops: &'t [RelativePath<'t>],
    tops_after: &'t [RelativePath<'t>],
) -> Result<Vec<Base<'t>>, AllocError> {
    let own = directory(path);
    let mut bases = Vec::new(alloc);
    bases.push(Base {
        before: own,
        after: directory(new),
        is_top: false,
    })?;
    if is_page(path) {
        bases.push(Base {
            before: address_of(path),
            after: address_of(new),
            is_top: false,
        })?;
    }
    for (before, after) in &addresses.pairs {
        bases.push(Base {
            before: RelativePath::new(before.as_str()),
            after: RelativePath::new(after.as_str()),
            is_top: false,
        })?;
    }
    if is_data(path) {
        push_tops_in(&mut bases, own, tops, tops_after)?;
    }
    push_tops(&mut bases, tops, tops_after)?;
    Ok(bases)
}

/// The directories before the moves that are no tops. Allocates the list.
pub fn directories_of<'t>(
    alloc: Global,
    bases: &[Base<'t>],
) -> Result<Vec<RelativePath<'t>>, AllocError> {
    let mut directories = Vec::new(alloc);
    for base in bases {
        if !base.is_top {
            directories.push(base.before)?;
        }
    }
    Ok(directories)
}

// Appends the tops in a directory, as directories of a file.
fn push_tops_in<'t>(
    bases: &mut Vec<Base<'t>>,
    own: RelativePath<'t>,
    tops: &[RelativePath<'t>],
    tops_after: &[RelativePath<'t>],
) -> Result<(), AllocError> {
    for (top, after) in tops.iter().zip(tops_after) {
        if top.parent() == Some(own) {
            bases.push(Base {
                before: *top,
                after: *after,
                is_top: false,
            })?;
        }
    }
    Ok(())
}

// Appends the tops.
fn push_tops<'t>(
    bases: &mut Vec<Base<'t>>,
    tops: &[RelativePath<'t>],
    tops_after: &[RelativePath<'t>],
) -> Result<(), AllocError> {
    for (top, after) in tops.iter().zip(tops_after) {
        bases.push(Base {
            before: *top,
            after: *after,
            is_top: true,
        })?;
    }
    Ok(())
}
