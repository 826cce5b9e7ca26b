//! Pages that are made to take long.
use super::{are, found};
use std::alloc::Global;
use std::test::Fail;

// Texts, between bars, in which a search fails.
const SEARCHED: &str = "`a``|[a](<b|[a](b '|<a b=\"|<a |[a]: b\n===\n|[a][b|- a\n";

// Texts, between bars, in which the search for the end of HTML fails. A million times one of these takes some tenths of
// a second, and minutes where a search that failed is made again.
const HTML_SEARCHED: &str = "a <!-- |a <? |a <!A |a <![CDATA[ ";

// Fails where the link after so many times this text isn't found.
fn is_searched_once(alloc: Global, text: &str, count: usize) -> Result<(), Fail> {
    let mut page = text.repeat(alloc, count)?;
    page.push_str("\n\n[c](d.md)")?;
    if found(alloc, &page)?.ends_with("d.md") {
        Ok(())
    } else {
        Err(Fail::new(format_args!("{text:?}")))
    }
}

#[test]
fn searches_once(rt: HostRuntime) -> Result<(), Fail> {
    for text in SEARCHED.split('|') {
        is_searched_once(rt.alloc(), text, 40_000)?;
    }
    Ok(())
}

#[test]
fn searches_html_once(rt: HostRuntime) -> Result<(), Fail> {
    for text in HTML_SEARCHED.split('|') {
        is_searched_once(rt.alloc(), text, 1_000_000)?;
    }
    Ok(())
}

// Texts, between bars, without links that a reader of pages may take long for, where they are repeated.
const REPEATED: &str = "[|(|`|<|[a](|![|> |- |\n|<div>\n\n";

// Fails where something is found in a mebibyte of this text.
fn is_read(alloc: Global, text: &str) -> Result<(), Fail> {
    let page = text.repeat(alloc, 1_048_576 / text.len().max(1))?;
    are("a mebibyte", text, &found(alloc, &page)?, "none")
}

#[test]
fn reads_a_mebibyte(rt: HostRuntime) -> Result<(), Fail> {
    for text in REPEATED.split('|') {
        is_read(rt.alloc(), text)?;
    }
    Ok(())
}
