//! Fragments of targets, and whether they lead somewhere.
use markdown_anchors::{anchors_of, fragment_of_target, heading_names, slug};
use std::alloc::Global;
use std::test::Fail;
use target_paths::TargetSyntax;

const PAGE: &str = "# A b\n\n# É\n\n<a name=\"Name\"></a>\n";

// Targets in Markdown, each with its fragment in brackets, after `alone` if nothing is before it.
const MARKDOWN: &str = r##"
#a ⇒ alone [a]
\#a ⇒ alone [a]
b.md#a ⇒ [a]
b.md# ⇒ []
b.md ⇒ none
b.md?c#a ⇒ none
b.md#a?c ⇒ [a?c]
b.md#a#c ⇒ [a#c]
b.md\#a\_c ⇒ [a_c]
b&#35;&eacute; ⇒ [é]
b.md#%C3%A9%20c ⇒ [é c]
b.md#%FF ⇒ none
b.md#100% ⇒ [100%]
b.md#a:~:text=c ⇒ [a]
b.md#:~:text=c ⇒ []
"##;

// The same of attributes.
const ATTRIBUTES: &str = r##"
 #a  ⇒ alone [a]
b.md#a\c ⇒ [a\c]
b.md#a&amp;c ⇒ [a&c]
b.md?#a ⇒ none
"##;

// Fragments that lead somewhere in the page, and some that don't.
const LIVE: &str = "|top|TOP|a-b|A-B|é|É|Name";

const DEAD: &str = "name|NAME|a b|a_b|a-b-1|-a-b|a-b-|tops|none";

// The fragment of a target in brackets, after `alone` if nothing is before it, or `none`.
fn shown(alloc: Global, syntax: TargetSyntax, target: &str) -> Result<String, Fail> {
    let mut shown = String::new(alloc);
    match fragment_of_target(alloc, syntax, target)? {
        Some(fragment) => {
            shown.push_str(if fragment.is_alone { "alone [" } else { "[" })?;
            shown.push_str(fragment.text.as_str())?;
            shown.push(']')?;
        }
        None => shown.push_str("none")?,
    }
    Ok(shown)
}

// Fails where the target of a row has another fragment than the row says.
fn has(alloc: Global, syntax: TargetSyntax, row: &str) -> Result<(), Fail> {
    let (target, expected) = row.split_once(" ⇒ ").ok_or("a row without a fragment")?;
    let found = shown(alloc, syntax, target)?;
    if found.as_str() == expected {
        Ok(())
    } else {
        Err(Fail::new(format_args!("{target:?}: {found:?}, not {expected:?}")))
    }
}

#[test]
fn fragments_of_markdown(rt: HostRuntime) -> Result<(), Fail> {
    for row in MARKDOWN.lines().skip(1) {
        has(rt.alloc(), TargetSyntax::Markdown, row)?;
    }
    Ok(())
}

#[test]
fn fragments_of_attributes(rt: HostRuntime) -> Result<(), Fail> {
    for row in ATTRIBUTES.lines().skip(1) {
        has(rt.alloc(), TargetSyntax::Attribute, row)?;
    }
    Ok(())
}

// Fails where a fragment leads somewhere in the page and shouldn't, or the other way round.
fn leads(alloc: Global, fragment: &str, expected: bool) -> Result<(), Fail> {
    if anchors_of(alloc, PAGE)?.has(alloc, fragment)? == expected {
        Ok(())
    } else {
        Err(Fail::new(format_args!("{fragment:?}")))
    }
}

#[test]
fn leads_to_names(rt: HostRuntime) -> Result<(), Fail> {
    for fragment in LIVE.split('|') {
        leads(rt.alloc(), fragment, true)?;
    }
    for fragment in DEAD.split('|') {
        leads(rt.alloc(), fragment, false)?;
    }
    Ok(())
}

#[test]
fn makes_slugs(rt: HostRuntime) -> Result<(), Fail> {
    let alloc = rt.alloc();
    assert_eq!(rt; slug(alloc, "C++ & `a_b`, 2.0")?.as_str(), "c--a_b-20");
    let mut slugs = Vec::new(alloc);
    slugs.push(String::from_str(alloc, "a")?)?;
    slugs.push(String::from_str(alloc, "a")?)?;
    let names = heading_names(alloc, &slugs)?;
    assert_eq!(rt; names.last().map(|name| name.as_str()), Some("a-1"));
    Ok(())
}
