//! The names of headings.
ghost use Rattle.std.specs.Prelude.{◌≡◌, ℕ, ◌≤◌, ◌<◌, ◌+◌, true, false, map, IfOk, OnOk, string_bytes, is_some, unwrap_or};
ghost use Rattle.std.specs.BTreeMap.{get_by_text};
ghost use Rattle.markdown_anchors.specs.Names.{numbered, AreNamesOf};
ghost use Rattle.markdown_anchors.specs.Taken.{AddsFirstFree, IsNextFree, IsTaking, next_number};

use std::alloc::{AllocError, Global};
use std::collections::BTreeMap;

// The names that headings have, each with the last number that it got as a slug.
type Taken = BTreeMap<String, usize>;

/// Returns the names of headings with these slugs, in the order of the page.
///
/// The name is the slug, if no heading before has this name. Otherwise it is the slug, a dash and the least number from 1
/// on with which no heading before has the name. The library github-slugger numbers them so. Allocates the names twice,
/// and a map of them.
///
/// ```
/// let mut slugs = Vec::new(alloc);
/// for slug in ["a", "a", "a-1"] {
///     slugs.push(String::from_str(alloc, slug)?)?;
/// }
/// let names = heading_names(alloc, &slugs)?;
/// let names = names.iter().map(|name| name.as_str());
/// let wanted = ["a", "a-1", "a-1-1"];
/// assert_eq!(rt; names.collect::<Vec<_>>(alloc)?.as_slice(), wanted.as_slice());
/// ```
pub fn heading_names(alloc: Global, slugs: &[String]) -> Result<Vec<String>, AllocError>
    // each heading has the first name that no heading before it has
    ensures names { IfOk result (λ names. AreNamesOf (map string_bytes slugs.now) (map string_bytes names.items)) }
{
    let mut taken = BTreeMap::new(alloc);
    let mut names = Vec::with_capacity(alloc, slugs.len())?;
    for slug in slugs {
        names.push(take_name(alloc, &mut taken, slug.as_str())?)?;
    }
    Ok(names)
}

// Returns the name of a heading, and takes it.
fn take_name(alloc: Global, taken: &mut Taken, slug: &str) -> Result<String, AllocError>
    requires { IsTaking taken.old }
    ensures { IfOk result (λ name. AddsFirstFree taken.old taken.new slug.now (string_bytes name)) }
{
    let from = next_number(taken, slug);
    let number = free_number(alloc, taken, slug, from)?;
    let name = numbered(alloc, slug, number)?;
    taken.insert(String::from_str(alloc, slug)?, number)?;
    taken.insert(numbered(alloc, slug, number)?, 0)?;
    Ok(name)
}

// Returns the number from which on names of a slug may be free.
fn next_number(taken: &Taken, slug: &str) -> usize
    ensures { result ≤ next_number (get_by_text taken.now slug.now) }
{
    match taken.get(slug) {
        Some(last) => last.saturating_add(1),
        None => 0,
    }
}

// Returns the first number from this one on with which a name is free.
fn free_number(alloc: Global, taken: &Taken, slug: &str, from: usize) -> Result<usize, AllocError>
    ensures { IfOk result (IsNextFree taken.now slug.now from) }
{
    for number in from..usize::MAX {
        let name = numbered(alloc, slug, number)?;
        if !taken.contains_key(name.as_str()) {
            return Ok(number);
        }
    }
    Err(AllocError)
}

// Returns the name with a number that a slug can have.
fn numbered(alloc: Global, slug: &str, number: usize) -> Result<String, AllocError>
    ensures { IfOk result (λ name. string_bytes name ≡ numbered slug.now number) }
{
    if number == 0 {
        String::from_str(alloc, slug)
    } else {
        format!(in alloc; "{slug}-{number}")
    }
}
