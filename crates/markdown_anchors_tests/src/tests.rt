//! Pages, and the names to which fragments can lead.
use markdown_anchors::anchors_of;
use std::alloc::Global;
use std::test::Fail;

mod elements;
mod fragments;
mod headings;
mod large;
mod texts;

// The names of a page in order, with spaces between them. An empty one is `<>`.
fn names(alloc: Global, page: &str) -> Result<String, Fail> {
    let mut names = String::new(alloc);
    for name in anchors_of(alloc, page)?.names().iter() {
        if !names.is_empty() {
            names.push(' ')?;
        }
        names.push_str(if name.is_empty() { "<>" } else { name.as_str() })?;
    }
    Ok(names)
}

// Fails where a page has other names than these. No page has the name `none`.
fn are(page: &str, found: &str, expected: &str) -> Result<(), Fail> {
    let expected = if expected == "none" { "" } else { expected };
    if found == expected {
        Ok(())
    } else {
        Err(Fail::new(format_args!("{page:?}: {found:?}, not {expected:?}")))
    }
}

// Fails where a page of a table has other names than its row says. A row is a page and its names.
fn all_have(alloc: Global, rows: &str) -> Result<(), Fail> {
    for row in rows.lines() {
        if !row.is_empty() {
            has(alloc, row)?;
        }
    }
    Ok(())
}

// Fails where the page of a row has other names than the row says.
fn has(alloc: Global, row: &str) -> Result<(), Fail> {
    let (page, expected) = row.split_once(" ⇒ ").ok_or("a row without names")?;
    let page = shown(alloc, page)?;
    are(&page, &names(alloc, &page)?, expected)
}

// The page that a row shows: `¶` stands for LF, `␍` for CR and `→` for a tab.
fn shown(alloc: Global, page: &str) -> Result<String, Fail> {
    let page = page.replace(alloc, "¶", "\n")?;
    let page = page.replace(alloc, "␍", "\r")?;
    Ok(page.replace(alloc, "→", "\t")?)
}
