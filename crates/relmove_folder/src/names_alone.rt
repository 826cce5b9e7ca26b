//! Names alone by which a site finds a page wherever it is: in the shortcodes `ref` and `relref` of Hugo, in the tag `post_url` of
//! Jekyll, and in the links of wikis.
use crate::moving_tree::MovingTree;
use crate::tree::{EntryKind, Tree};
use memchr::memchr2_iter;
use relative_path::RelativePath;
use relative_path_places::directory;
use relmove_mentions::{INDEX_NAMES, is_index_page, is_page};
use std::alloc::{AllocError, Global};
use std::collections::BTreeMap;

/// The paths of the pages that get another name, by the names that no other page has.
#[derive(Drop)]
pub struct PageNames(BTreeMap<String, String>);

impl PageNames {
    /// Those of a tree that moves. Allocates the names of its pages, and the paths.
    pub fn of(alloc: Global, moving: MovingTree<'_, '_>) -> Result<PageNames, AllocError> {
        let mut names = PageNames(BTreeMap::new(alloc));
        for a in moving.moves.moves() {
            let old = a.old.normal().as_relative_path();
            let new = a.new.normal().as_relative_path();
            names.insert_page(alloc, moving.tree, old, new)?;
            names.insert_indexes(alloc, moving.tree, old, new)?;
        }
        if !names.is_empty() {
            names.remove_shared(alloc, moving.tree)?;
        }
        Ok(names)
    }

    /// Whether there are none. Allocates nothing.
    pub fn is_empty(&self) -> bool {
        self.0.is_empty()
    }

    /// The path of the page that a name means, perhaps with its extension. Allocates the name.
    pub fn page(&self, alloc: Global, name: &str) -> Result<Option<&str>, AllocError> {
        let path = RelativePath::new(name);
        let name = match path.file_stem() {
            Some(stem) if is_page(path) => stem,
            _ => name,
        };
        Ok(match self.0.get(key_of(alloc, name)?.as_str()) {
            Some(page) => Some(page.as_str()),
            None => None,
        })
    }

    // Inserts the page at a path, if it is one and gets another name.
    fn insert_page(
        &mut self,
        alloc: Global,
        tree: &Tree,
        old: RelativePath<'_>,
        new: RelativePath<'_>,
    ) -> Result<(), AllocError> {
        let keeps_name = is_page(new) && page_name(new) == page_name(old);
        if keeps_name || !is_page_at(tree, old) {
            return Ok(());
        }
        if let Some(name) = page_name(old) {
            let path = String::from_str(alloc, old.as_str())?;
            self.0.insert(key_of(alloc, name)?, path)?;
        }
        Ok(())
    }

    // Inserts the index pages in a directory, if they get another name.
    fn insert_indexes(
        &mut self,
        alloc: Global,
        tree: &Tree,
        old: RelativePath<'_>,
        new: RelativePath<'_>,
    ) -> Result<(), AllocError> {
        for index in &INDEX_NAMES {
            let before = old.join_normalized(alloc, RelativePath::new(*index))?;
            let after = new.join_normalized(alloc, RelativePath::new(*index))?;
            self.insert_page(
                alloc,
                tree,
                before.as_relative_path(),
                after.as_relative_path(),
            )?;
        }
        Ok(())
    }

    // Removes the names that other pages have too.
    fn remove_shared(&mut self, alloc: Global, tree: &Tree) -> Result<(), AllocError> {
        for path in tree.entries.keys() {
            let page = RelativePath::new(path.as_str());
            if let Some(name) = page_name(page)
                && is_page_at(tree, page)
            {
                self.remove_of_other(key_of(alloc, name)?.as_str(), path.as_str());
            }
        }
        Ok(())
    }

    // Removes a name, if another page has it than the one at this path.
    fn remove_of_other(&mut self, name: &str, path: &str) {
        if let Some(page) = self.0.get(name)
            && page.as_str() != path
        {
            self.0.remove(name);
        }
    }
}

// Whether a page is at a path.
fn is_page_at(tree: &Tree, path: RelativePath<'_>) -> bool {
    is_page(path) && matches!(tree.entries.get(path.as_str()), Some(EntryKind::File))
}

// The name of a page: that of its directory, if the directory can stand for the page.
fn page_name<'a>(page: RelativePath<'a>) -> Option<&'a str> {
    if is_index_page(page) {
        directory(page).file_name()
    } else {
        page.file_stem()
    }
}

// What names have in common that mean one page: sites pass over the case of letters, and take a hyphen for a space.
fn key_of(alloc: Global, name: &str) -> Result<String, AllocError> {
    let mut key = String::new(alloc);
    for character in name.chars() {
        let character = if character == ' ' { '-' } else { character };
        key.push(character.to_ascii_lowercase())?;
    }
    Ok(key)
}

/// A name alone in a text.
#[derive(Clone, Copy)]
pub struct NameAlone<'t> {
    /// The offset at which its shortcode or link begins.
    pub start: usize,
    /// The name.
    pub name: &'t str,
}

/// Returns the names alone in a text. Time is linear. Allocates the list.
pub fn names_alone<'t>(alloc: Global, text: &'t str) -> Result<Vec<NameAlone<'t>>, AllocError> {
    let mut names = Vec::new(alloc);
    for start in memchr2_iter(b'[', b'{', text.as_bytes()) {
        let after = text.get(start..).unwrap_or("");
        for name in names_in(after).split('|') {
            if let Some(name) = alone(name) {
                names.push(NameAlone { start, name })?;
            }
        }
    }
    Ok(names)
}

// The name in the shortcode that begins a text, or the names in the link of a wiki, with what follows each of them.
fn names_in(text: &str) -> &str {
    if let Some(inside) = text.strip_prefix("[[") {
        return inside_of_link(inside);
    }
    match inside_of_shortcode(text) {
        Some(value) => value,
        None => "",
    }
}

// The names in the link of a wiki, if a text begins with them and ends the link then.
fn inside_of_link(text: &str) -> &str {
    let inside = until(text, ['[', ']', '{', '\n']);
    match text.get(inside.len()..) {
        Some(rest) if rest.starts_with("]]") => inside,
        _ => "",
    }
}

// The name in the shortcode or tag that begins a text.
fn inside_of_shortcode(text: &str) -> Option<&str> {
    let rest = after_lookup(text)?;
    let value = rest.trim_start();
    if value.len() == rest.len() {
        return None;
    }
    let value = value.strip_prefix("path=").unwrap_or(value);
    let value = value.trim_start_matches(['"', '`']);
    Some(until(value, ['"', '`', ' ', '>', '%', '{', '[', '\n']))
}

// What comes after the word of the shortcode `ref` or `relref`, or of the tag `post_url`, that begins a text.
fn after_lookup(text: &str) -> Option<&str> {
    if let Some(inside) = text.strip_prefix("{{") {
        let inside = inside.strip_prefix(['<', '%'])?.trim_start();
        return match inside.strip_prefix("relref") {
            Some(rest) => Some(rest),
            None => inside.strip_prefix("ref"),
        };
    }
    let inside = text.strip_prefix("{%")?.trim_start_matches('-');
    inside.trim_start().strip_prefix("post_url")
}

// What comes before the first of some characters in a text.
fn until<const N: usize>(text: &str, ends: [char; N]) -> &str {
    match text.find(ends) {
        Some(end) => text.get(..end).unwrap_or(""),
        None => text,
    }
}

// A name without a fragment and what escapes its end. `None` if it is empty, or has a directory before it.
fn alone(name: &str) -> Option<&str> {
    let name = until(name, ['#', '?', '\\']).trim();
    if name.is_empty() || name.contains('/') {
        None
    } else {
        Some(name)
    }
}
