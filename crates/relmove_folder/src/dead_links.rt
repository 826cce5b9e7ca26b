//! Finds the links of pages that lead to nothing.
use crate::addresses::shown_from;
use crate::checked::{Checked, DeadLink, WhyDead, order};
use crate::fragments::{FragmentLink, dead_fragments, fragment_link, lone_fragment};
use crate::pages_as::{PagesAs, ShownPage, ends_in_dots, shown_page};
use crate::position::Positions;
use crate::presence::{Presence, presence_at};
use crate::site_root::file_of;
use crate::tree::{EntryKind, Page, Tree};
use relative_path::RelativePath;
use relative_path_links::{SiteRoot, Target, targets};
use relmove_store::{RunFault, Store};
use std::alloc::{AllocError, Global};
use std::io::ErrorKind;
use target_paths::TargetReading;

/// What is checked of the links of pages, and how.
#[derive(Clone, Copy)]
pub struct LinkOptions<'a> {
    /// The root of the site, from which links lead that begin with a slash.
    pub root: &'a SiteRoot,
    /// How the site shows its pages, if links use these names.
    pub pages_as: Option<PagesAs>,
    /// Whether the fragments of links that lead to pages of the tree are checked.
    pub fragments: bool,
}

/// Returns the relative links of the pages of a tree that lead to nothing below the root, or above it. So does
/// [`check_links`], which counts links too, and has options.
pub fn dead_links_of<S: Store>(store: &mut S, tree: &Tree) -> Result<Vec<DeadLink>, RunFault> {
    let root = SiteRoot::unknown();
    let options = LinkOptions {
        root: &root,
        pages_as: None,
        fragments: false,
    };
    Ok(check_links(store, tree, options)?.dead)
}

/// Checks the relative links of the pages of a tree, and those that lead from the site's root.
///
/// What isn't in the tree is asked for: files in directories whose names begin with a dot, and what symbolic links lead
/// to. A link to nothing leads to a page if the site shows the page under this name. Queries have no influence, and fragments
/// only if they are checked.
///
/// With fragments a target that is a fragment alone counts as a link too. The names in a page are those that
/// `markdown_anchors` returns. Each page to which a link with a fragment leads is searched once more, and the names of one
/// page at a time are kept.
pub fn check_links<S: Store>(
    store: &mut S,
    tree: &Tree,
    options: LinkOptions<'_>,
) -> Result<Checked, RunFault> {
    let alloc = store.alloc();
    let asked = if options.fragments {
        Some(Vec::new(alloc))
    } else {
        None
    };
    let Checking { mut checked, asked } = check_pages(store, tree, options, asked)?;
    if let Some(asked) = asked {
        for link in dead_fragments(alloc, tree, asked)? {
            checked.dead.push(link)?;
        }
        checked.dead.sort_by(order)?;
    }
    Ok(checked)
}

// What was checked so far.
#[derive(Drop)]
struct Checking {
    checked: Checked,
    // The links with a fragment that lead to pages, if they are asked for.
    asked: Option<Vec<FragmentLink>>,
}

// Checks the links of the pages of a tree but for their fragments.
fn check_pages<S: Store>(
    store: &mut S,
    tree: &Tree,
    options: LinkOptions<'_>,
    asked: Option<Vec<FragmentLink>>,
) -> Result<Checking, RunFault> {
    let checked = Checked {
        pages: tree.pages.len(),
        links: 0,
        unknown: 0,
        dead: Vec::new(store.alloc()),
    };
    let mut checking = Checking { checked, asked };
    for (number, page) in tree.pages.iter().enumerate() {
        check_page(store, tree, options, (number, page), &mut checking)?;
    }
    Ok(checking)
}

// Checks the links of the page with this number.
fn check_page<S: Store>(
    store: &mut S,
    tree: &Tree,
    options: LinkOptions<'_>,
    (number, page): (usize, &Page),
    checking: &mut Checking,
) -> Result<(), RunFault> {
    let alloc = store.alloc();
    let found = targets(alloc, page.text.as_str())?;
    let mut positions = Positions::new(page.text.as_str());
    for target in &found {
        let Some(written) = page.text.get(target.start..target.end) else {
            continue;
        };
        match options.root.read_target(alloc, target.syntax, written)? {
            TargetReading::Path { path, .. } => {
                checking.count_link();
                let link = WrittenLink {
                    number,
                    page,
                    target: *target,
                    written,
                    path: path.as_str(),
                };
                check_link(store, tree, options, link, &mut positions, checking)?;
            }
            TargetReading::Unknown(_) => {
                checking.count_link();
                checking.checked.unknown = checking.checked.unknown.saturating_add(1);
            }
            TargetReading::NotRelative => checking.ask_alone(alloc, tree, (number, *target))?,
        }
    }
    Ok(())
}

impl Checking {
    // Counts a link.
    fn count_link(&mut self) {
        self.checked.links = self.checked.links.saturating_add(1);
    }

    // Adds the link of a target of the page with this number, if it has a fragment and leads to the page at a path.
    fn ask(
        &mut self,
        tree: &Tree,
        (number, target): (usize, Target),
        file: &str,
    ) -> Result<(), AllocError> {
        let Some(asked) = &mut self.asked else {
            return Ok(());
        };
        if let Some(link) = fragment_link(tree, (number, target), file) {
            asked.push(link)?;
        }
        Ok(())
    }

    // Adds the link of a target of the page with this number, if the target is a fragment alone.
    fn ask_alone(
        &mut self,
        alloc: Global,
        tree: &Tree,
        (number, target): (usize, Target),
    ) -> Result<(), AllocError> {
        let Some(asked) = &mut self.asked else {
            return Ok(());
        };
        if let Some(link) = lone_fragment(alloc, tree, (number, target))? {
            asked.push(link)?;
            self.count_link();
        }
        Ok(())
    }

    // Adds a link that is dead.
    fn add_dead(
        &mut self,
        alloc: Global,
        link: WrittenLink<'_>,
        why: WhyDead,
        positions: &mut Positions<'_>,
    ) -> Result<(), AllocError> {
        if let Some(position) = positions.at(link.target.start) {
            self.checked.dead.push(DeadLink {
                page: String::from_str(alloc, link.page.path.as_str())?,
                position,
                target: String::from_str(alloc, link.written)?,
                why,
            })?;
        }
        Ok(())
    }
}

// A link of a page: the page and its number, the target, its text, and the path that this spells.
#[derive(Clone, Copy)]
struct WrittenLink<'a> {
    number: usize,
    page: &'a Page,
    target: Target,
    written: &'a str,
    path: &'a str,
}

// Checks a link: it is dead, or its fragment is asked for.
fn check_link<S: Store>(
    store: &mut S,
    tree: &Tree,
    options: LinkOptions<'_>,
    link: WrittenLink<'_>,
    positions: &mut Positions<'_>,
    checking: &mut Checking,
) -> Result<(), RunFault> {
    let alloc = store.alloc();
    let file = file_of(alloc, options.root, (link.page, link.written), link.path)?;
    let file = file.as_relative_path();
    let place = (link.number, link.target);
    let Some(fault) = fault_at(store, tree, file, link.path)? else {
        checking.ask(tree, place, file.as_str())?;
        return Ok(());
    };
    match page_shown_for(alloc, tree, fault, file, link.path)? {
        Some(shown) if options.pages_as == Some(shown.form) => {
            checking.ask(tree, place, shown.page.as_str())?;
        }
        shown => match page_from_address(alloc, tree, options, link)? {
            Some(page) => checking.ask(tree, place, page.as_str())?,
            None => checking.add_dead(alloc, link, fault.with_page(shown), positions)?,
        },
    }
    Ok(())
}

// What a link leads to from the address of its page, on a site that shows `a.md` as `a/`.
fn page_from_address(
    alloc: Global,
    tree: &Tree,
    options: LinkOptions<'_>,
    link: WrittenLink<'_>,
) -> Result<Option<String>, AllocError> {
    if options.pages_as != Some(PagesAs::Directory)
        || options.root.start_of(link.written).is_some()
    {
        return Ok(None);
    }
    let page = RelativePath::new(link.page.path.as_str());
    shown_from(alloc, tree, page, link.path)
}

// What is wrong with a path to which a link leads.
#[derive(Clone, Copy)]
enum Fault {
    Missing,
    AboveRoot,
    OtherSpelling,
}

impl Fault {
    // Why a link is dead that has this fault, where the page is there.
    fn with_page(self, shown: Option<ShownPage>) -> WhyDead {
        match self {
            Fault::Missing => WhyDead::Missing {
                page: shown.map(|shown| shown.page),
            },
            Fault::AboveRoot => WhyDead::AboveRoot,
            Fault::OtherSpelling => WhyDead::OtherSpelling,
        }
    }
}

// The page that a site shows at a path where nothing is.
fn page_shown_for(
    alloc: Global,
    tree: &Tree,
    fault: Fault,
    file: RelativePath<'_>,
    path: &str,
) -> Result<Option<ShownPage>, AllocError> {
    match fault {
        Fault::Missing => shown_page(alloc, tree, file.as_str(), path),
        Fault::AboveRoot | Fault::OtherSpelling => Ok(None),
    }
}

// What is wrong with the path to a file, which a link with this path leads to, if anything is.
fn fault_at<S: Store>(
    store: &mut S,
    tree: &Tree,
    file: RelativePath<'_>,
    path: &str,
) -> Result<Option<Fault>, AllocError> {
    if file.climb() > 0 {
        return Ok(Some(Fault::AboveRoot));
    }
    let file = file.as_str();
    match presence_at(tree, file) {
        Presence::There => Ok(missing_unless(!is_of_directory(path) || is_no_file(tree, file))),
        Presence::Unknown => Ok(missing_unless(leads_somewhere(store, file)?)),
        Presence::Absent if leads_somewhere(store, file)? => Ok(Some(Fault::OtherSpelling)),
        Presence::Absent => Ok(Some(Fault::Missing)),
    }
}

// The fault of a path, if nothing is there.
fn missing_unless(is_there: bool) -> Option<Fault> {
    if is_there { None } else { Some(Fault::Missing) }
}

// Whether no file is at a path.
fn is_no_file(tree: &Tree, path: &str) -> bool {
    !matches!(
        tree.entries.get(path),
        Some(EntryKind::File | EntryKind::Other)
    )
}

// Whether a path can only be a directory's: as part of a URL it is read with a slash at its end.
fn is_of_directory(path: &str) -> bool {
    path.ends_with('/') || ends_in_dots(path)
}

/// Whether something is at a path, where symbolic links are followed. What can't be looked up isn't there, so the only fault
/// is lack of memory.
pub fn leads_somewhere<S: Store>(store: &mut S, path: &str) -> Result<bool, AllocError> {
    match store.follow(path) {
        Ok(found) => Ok(found.is_some()),
        Err(error) if error.kind() == ErrorKind::OutOfMemory => Err(AllocError),
        Err(_) => Ok(false),
    }
}
