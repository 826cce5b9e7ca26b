//! Finds the fragments of links that lead to no name.
use crate::checked::{DeadLink, WhyDead};
use crate::position::Positions;
use crate::tree::{Page, Tree};
use markdown_anchors::{Anchors, anchors_of, fragment_of_target};
use relative_path_links::Target;
use std::alloc::{AllocError, Global};

// A link with a fragment that leads to a page.
#[derive(Clone, Copy)]
pub(crate) struct FragmentLink {
    // The number of the page to which it leads.
    to: usize,
    // The number of its page.
    from: usize,
    // Its target.
    target: Target,
}

// Returns the link of a target of the page with this number, if it has a fragment and leads to a page, which is at this
// path.
pub(crate) fn fragment_link(
    tree: &Tree,
    (from, target): (usize, Target),
    file: &str,
) -> Option<FragmentLink> {
    if !may_have_fragment(tree, from, target) {
        return None;
    }
    let to = page_at(tree, file)?;
    Some(FragmentLink { to, from, target })
}

// Returns the link of a target of the page with this number, if the target is a fragment alone.
pub(crate) fn lone_fragment(
    alloc: Global,
    tree: &Tree,
    (from, target): (usize, Target),
) -> Result<Option<FragmentLink>, AllocError> {
    if !may_have_fragment(tree, from, target) {
        return Ok(None);
    }
    let Some(page) = tree.pages.get(from) else {
        return Ok(None);
    };
    if !is_fragment_alone(alloc, page, target)? {
        return Ok(None);
    }
    let to = from;
    Ok(Some(FragmentLink { to, from, target }))
}

// Whether a target of the page with this number may have a fragment.
fn may_have_fragment(tree: &Tree, from: usize, target: Target) -> bool {
    let Some(page) = tree.pages.get(from) else {
        return false;
    };
    let Some(written) = page.text.get(target.start..target.end) else {
        return false;
    };
    written
        .as_bytes()
        .iter()
        .any(|byte| matches!(*byte, b'#' | b'&'))
}

// The number of the page at a path, if one is there.
fn page_at(tree: &Tree, file: &str) -> Option<usize> {
    let found = tree
        .pages
        .binary_search_by(|other| other.path.as_str().cmp(file));
    found.ok()
}

// Whether a target is a fragment, and nothing else.
fn is_fragment_alone(alloc: Global, page: &Page, target: Target) -> Result<bool, AllocError> {
    let Some(written) = page.text.get(target.start..target.end) else {
        return Ok(false);
    };
    let fragment = fragment_of_target(alloc, target.syntax, written)?;
    Ok(fragment.is_some_and(|fragment| fragment.is_alone))
}

// Returns those of the links whose page has no such name, in the order of their pages. The names of one page at a time
// are known.
pub(crate) fn dead_fragments(
    alloc: Global,
    tree: &Tree,
    asked: Vec<FragmentLink>,
) -> Result<Vec<DeadLink>, AllocError> {
    let mut asked = asked;
    asked.sort_by_key(|link| link.to)?;
    let mut dead = links_without_name(alloc, tree, &asked)?;
    dead.sort_by_key(|link| (link.from, link.target.start))?;
    let mut places = Places {
        number: None,
        positions: Positions::new(""),
    };
    let mut links = Vec::new(alloc);
    for link in &dead {
        if let Some(dead) = places.dead_link(alloc, tree, *link)? {
            links.push(dead)?;
        }
    }
    Ok(links)
}

// Returns those of the links whose page has no such name. The links are in the order of the pages to which they lead.
fn links_without_name(
    alloc: Global,
    tree: &Tree,
    asked: &[FragmentLink],
) -> Result<Vec<FragmentLink>, AllocError> {
    let mut dead = Vec::new(alloc);
    let mut names = Names {
        number: 0,
        anchors: None,
    };
    for link in asked {
        if !names.lead(alloc, tree, *link)? {
            dead.push(*link)?;
        }
    }
    Ok(dead)
}

// The names in a page, and the number of this page.
#[derive(Drop)]
struct Names {
    number: usize,
    anchors: Option<Anchors>,
}

impl Names {
    // Whether the fragment of a link leads somewhere.
    fn lead(&mut self, alloc: Global, tree: &Tree, link: FragmentLink) -> Result<bool, AllocError> {
        let (Some(page), Some(from)) = (tree.pages.get(link.to), tree.pages.get(link.from)) else {
            return Ok(true);
        };
        let Some(written) = from.text.get(link.target.start..link.target.end) else {
            return Ok(true);
        };
        let Some(fragment) = fragment_of_target(alloc, link.target.syntax, written)? else {
            return Ok(true);
        };
        if self.anchors.is_none() || self.number != link.to {
            self.anchors = None;
            self.anchors = Some(anchors_of(alloc, page.text.as_str())?);
            self.number = link.to;
        }
        match &self.anchors {
            Some(anchors) => anchors.has(alloc, fragment.text.as_str()),
            None => Ok(true),
        }
    }
}

// The places of a page, and the number of this page.
#[derive(Drop)]
struct Places<'t> {
    number: Option<usize>,
    positions: Positions<'t>,
}

impl<'t> Places<'t> {
    // The dead link. Its page comes after that of the link before, or it comes after this link in the same page.
    fn dead_link(
        &mut self,
        alloc: Global,
        tree: &'t Tree,
        link: FragmentLink,
    ) -> Result<Option<DeadLink>, AllocError> {
        let Some(page) = tree.pages.get(link.from) else {
            return Ok(None);
        };
        if self.number != Some(link.from) {
            self.positions = Positions::new(page.text.as_str());
            self.number = Some(link.from);
        }
        let Some((position, written)) = self.positions.of(link.target) else {
            return Ok(None);
        };
        Ok(Some(DeadLink {
            page: String::from_str(alloc, page.path.as_str())?,
            position,
            target: String::from_str(alloc, written)?,
            why: WhyDead::NoName,
        }))
    }
}
