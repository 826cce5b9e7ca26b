//! Limits, and bytes that few pages have.
use super::{What, all_have};
use std::alloc::Global;
use std::test::Fail;

// Pages with bytes past plain text, and what is found: 2.1 to 2.3 of CommonMark 0.31.2.
const ODD: &str = "\u{feff}    [a](b.md) ⇒ none\n\
    \u{feff}# a¶    [b](c.md) ⇒ none\n\
    [a](b\u{7f}c.md) ⇒ none\n\
    [a](b\u{b}c.md) ⇒ none\n\
    [a](b\0.md) ⇒ b\0.md\n\
    <ab:\u{1}[c](d.md)> ⇒ d.md\n\
    <ab:\u{7f}[c](d.md)> ⇒ d.md\n\
    [a](b\u{a0}\"t\") ⇒ b\u{a0}\"t\"\n\
    [a](b\u{2028}c.md) ⇒ b\u{2028}c.md\n\
    [\u{a0}]: b.md ⇒ b.md\n\
    -\u{a0}a¶¶    [b](c.md) ⇒ none\n\
    #\u{a0}a¶    [b](c.md) ⇒ c.md\n\
    a¶\u{c}¶    [b](c.md) ⇒ c.md\n\
    a <b\u{b}c=\"[d](e.md)\"> ⇒ e.md\n\
    <b\u{c}c>¶[d](e.md) ⇒ e.md\n\
    <a href=b.md\u{c}c> ⇒ b.md\n\
    <a href=\u{c}b.md> ⇒ b.md\n\
    <a href='b\u{c}c.md'> ⇒ b\u{c}c.md";

#[test]
fn reads_odd_bytes(rt: HostRuntime) -> Result<(), Fail> {
    all_have(rt.alloc(), What::Targets, "2.1 to 2.3", ODD)
}

// Pages and what is found. `{text*3}` is three times this text.
const LIMITS: &str = r##"[{é*999}]: b.md ⇒ b.md
[{é*1000}]: b.md ⇒ none
[a][{é*999}](b.md) ⇒ b.md
[{[*2000}a](b.md) ⇒ b.md
{>*99}     [a](b.md) ⇒ none
{>*100}     [a](b.md) ⇒ none
{>*101}     [a](b.md) ⇒ b.md
{- *100}    [a](b.md) ⇒ none
<a`@{b*63}> [c](d.md)` ⇒ d.md
<a`@{b*64}> [c](d.md)` ⇒ none
[a](b.md "{c¶*500}") ⇒ b.md
[a]: b.md "{c¶*500}" ⇒ b.md
[a](b.md{(*32}{)*32}) ⇒ b.md{(*32}{)*32}
[a](b.md{(*33}{)*33}) ⇒ none
{`*80}[a](b.md){`*80} ⇒ none
{`*81}[a](b.md){`*81} ⇒ b.md
"##;

// Adds a part of a row, which begins after a `{`.
fn add_part(alloc: Global, text: &mut String, part: &str) -> Result<(), Fail> {
    let Some((run, rest)) = part.split_once('}') else {
        text.push_str(part)?;
        return Ok(());
    };
    let (repeated, count) = run.split_once('*').ok_or("a text without a count")?;
    let count = count.parse::<usize>().ok().ok_or("a count")?;
    text.push_str(&repeated.repeat(alloc, count)?)?;
    text.push_str(rest)?;
    Ok(())
}

// What a row says, written out.
fn written_out(alloc: Global, row: &str) -> Result<String, Fail> {
    let mut text = String::new(alloc);
    for part in row.split('{') {
        add_part(alloc, &mut text, part)?;
    }
    Ok(text)
}

#[test]
fn keeps_its_limits(rt: HostRuntime) -> Result<(), Fail> {
    for row in LIMITS.lines() {
        let row = written_out(rt.alloc(), row)?;
        all_have(rt.alloc(), What::Targets, "limits", &row)?;
    }
    Ok(())
}
