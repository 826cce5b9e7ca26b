//! Pages that are made to take long.
use markdown_anchors::anchors_of;
use std::alloc::Global;
use std::test::Fail;

// Texts, between bars, that a reader of headings may take long for, where they are repeated after a `#`.
const REPEATED: &str =
    "_|*_|_a |a_ |*a _b |**a__ |[|![|![a](b) |`|`a``|&|&#|<|<a |[_a](b)|[a]|___a**";

// Lines, between bars, that are headings.
const LINES: &str = "#\n|# a\n|a\n-\n|<h1>a\n|<a id=b>\n";

// Fails where the heading after so many times a text hasn't its name.
fn is_read(alloc: Global, before: &str, text: &str) -> Result<(), Fail> {
    let mut page = String::from_str(alloc, before)?;
    page.push_str(&text.repeat(alloc, 16_384 / text.len().max(1))?)?;
    page.push_str("\n\n# last")?;
    if anchors_of(alloc, &page)?.has(alloc, "last")? {
        Ok(())
    } else {
        Err(Fail::new(format_args!("{text:?}")))
    }
}

#[test]
fn reads_long_headings(rt: HostRuntime) -> Result<(), Fail> {
    for text in REPEATED.split('|') {
        is_read(rt.alloc(), "# ", text)?;
    }
    Ok(())
}

#[test]
fn reads_many_headings(rt: HostRuntime) -> Result<(), Fail> {
    for text in LINES.split('|') {
        is_read(rt.alloc(), "", text)?;
    }
    Ok(())
}
