//! Pages, and what is found in them.
use markdown_targets::{PageSpan, link_targets};
use std::alloc::Global;
use std::test::Fail;

mod blocks;
mod calling;
mod containers;
mod definitions;
mod html;
mod inlines;
mod large;
mod left_out;
mod limits;

// Adds the text of a span, after a space. One without bytes is `<>`.
fn add(texts: &mut String, page: &str, span: PageSpan) -> Result<(), Fail> {
    let text = page.get(span.start..span.end).ok_or("a span")?;
    if !texts.is_empty() {
        texts.push(' ')?;
    }
    texts.push_str(if text.is_empty() { "<>" } else { text })?;
    Ok(())
}

// What a table has of its pages.
#[derive(Clone, Copy)]
enum What {
    Targets,
    PassedOver,
    // `base` where a page has a base.
    Base,
}

// The targets of a page, in order and parted by spaces.
fn found(alloc: Global, page: &str) -> Result<String, Fail> {
    let mut texts = String::new(alloc);
    for target in link_targets(alloc, page)?.targets.iter() {
        add(&mut texts, page, target.span)?;
    }
    Ok(texts)
}

// What a page has that is passed over, in order and parted by spaces.
fn passed_over(alloc: Global, page: &str) -> Result<String, Fail> {
    let mut texts = String::new(alloc);
    for passed in link_targets(alloc, page)?.passed_over.iter() {
        add(&mut texts, page, passed.span)?;
    }
    Ok(texts)
}

// Whether a page has a base.
fn base(alloc: Global, page: &str) -> Result<String, Fail> {
    let has_base = link_targets(alloc, page)?.has_base;
    Ok(String::from_str(alloc, if has_base { "base" } else { "" })?)
}

// What a table has of a page.
fn texts(alloc: Global, what: What, page: &str) -> Result<String, Fail> {
    match what {
        What::Targets => found(alloc, page),
        What::PassedOver => passed_over(alloc, page),
        What::Base => base(alloc, page),
    }
}

// Fails where other texts are found in a page than these. No page has the text `none`.
fn are(section: &str, page: &str, found: &str, expected: &str) -> Result<(), Fail> {
    let expected = if expected == "none" { "" } else { expected };
    if found == expected {
        Ok(())
    } else {
        Err(Fail::new(format_args!("§{section}: {page:?}: {found:?}, not {expected:?}")))
    }
}

// Fails where other targets are found in a page than these.
fn finds(alloc: Global, section: &str, page: &str, expected: &str) -> Result<(), Fail> {
    are(section, page, &found(alloc, page)?, expected)
}

// The same of each page of a table, whose sections each begin with `§` and a name.
fn all_find(alloc: Global, table: &str) -> Result<(), Fail> {
    for part in table.split('§') {
        let (section, rows) = part.split_once('\n').unwrap_or((part, ""));
        all_have(alloc, What::Targets, section, rows)?;
    }
    Ok(())
}

// Fails where a page of a section has other texts than its row says. A row is a page and its texts.
fn all_have(alloc: Global, what: What, section: &str, rows: &str) -> Result<(), Fail> {
    for row in rows.lines() {
        let (page, expected) = row.split_once(" ⇒ ").ok_or("a row without texts")?;
        let page = shown(alloc, page)?;
        are(section, &page, &texts(alloc, what, &page)?, expected)?;
    }
    Ok(())
}

// The page that a row shows: `¶` stands for LF, `␍` for CR and `→` for a tab.
fn shown(alloc: Global, page: &str) -> Result<String, Fail> {
    let page = page.replace(alloc, "¶", "\n")?;
    let page = page.replace(alloc, "␍", "\r")?;
    Ok(page.replace(alloc, "→", "\t")?)
}
