//! What is passed over on purpose: footnotes, templates, names without a definition.
use super::{What, all_find, all_have};
use markdown_targets::{WhyPassedOver, link_targets};
use std::test::Fail;

// A definition whose label begins with `^` is a footnote's text.
const FOOTNOTES: &str = r##"
§ Footnotes
[^1]: Deprecated. ⇒ none
[^1]: b.md¶[c]: d.md ⇒ none
[^1]: [a](b.md) ⇒ b.md
> [^1]: a.md ⇒ none
a[^1] [b](c.md)¶¶[^1]: d.md ⇒ c.md
[a][^b](c.md)¶¶[^b]: d.md ⇒ c.md
[a^]: b.md ⇒ b.md
§ Footnotes, a label of the mark alone
[^]: b.md ⇒ none
"##;

const TEMPLATES: &str = r##"
§ Templates
[a]({{b}}/c.md) [d](e.md) ⇒ e.md
[a]({%b%}.md) ![c](${d}/e.png) ⇒ none
[a](<{{ b }}>) ⇒ none
[a]: {{b}}¶[c]: d.md ⇒ d.md
<img src="{{ b }}/c.png">¶<a href='${d}'> ⇒ none
[a](b/{{c}}.md) ⇒ b/{{c}}.md
[a]({b}.md) [c]($d.md) [e]({) [f]($) ⇒ {b}.md $d.md { $
[a [b]({{c}})](d.md) ⇒ none
[a]({{) [b]({%) [c](${) ⇒ none
"##;

// Templates, and names without a definition.
const PASSED_OVER: &str = r##"[a]({{b}}/c.md) ![d](${e}) ⇒ {{b}}/c.md ${e}
[a](<{{ b }}>)¶¶[c]: {%d%} ⇒ {{ b }} {%d%}
<img src="{{ b }}/c.png"> ⇒ {{ b }}/c.png
[a][b] [c][] ⇒ b c
![a][b] ⇒ b
[a][b]¶¶[b]: c.md ⇒ none
[a][] [b][A]¶¶[a]: c.md ⇒ none
[a] [b] ⇒ none
[a][^b] [^c][] ⇒ none
`[a][b]` \[a][ ] ⇒ none
[a][b](c.md) ⇒ none
"##;

// Pages, and whether they have a base.
const BASES: &str = r##"<base href="b/"> ⇒ base
a <BASE HREF=b> ⇒ base
<base> ⇒ none
<base target="b"> ⇒ none
<!-- <base href="b/"> --> ⇒ none
`<base href="b/">` ⇒ none
</base href="b/"> ⇒ none
<basefont href="b/"> ⇒ none
<base src=b.md> ⇒ none
"##;

#[test]
fn passes_over_footnotes(rt: HostRuntime) -> Result<(), Fail> {
    all_find(rt.alloc(), FOOTNOTES)
}

#[test]
fn passes_over_templates(rt: HostRuntime) -> Result<(), Fail> {
    all_find(rt.alloc(), TEMPLATES)
}

#[test]
fn says_what_it_passes_over(rt: HostRuntime) -> Result<(), Fail> {
    all_have(rt.alloc(), What::PassedOver, "passed over", PASSED_OVER)
}

#[test]
fn says_whether_there_is_a_base(rt: HostRuntime) -> Result<(), Fail> {
    all_have(rt.alloc(), What::Base, "a base", BASES)
}

#[test]
fn says_why_it_passes_over(rt: HostRuntime) -> Result<(), Fail> {
    let found = link_targets(rt.alloc(), "[a]({{b}}) [c][d]")?;
    let whys = found.passed_over.iter().map(|passed| passed.why);
    let whys = whys.collect::<Vec<_>>(rt.alloc())?;
    let expected = [WhyPassedOver::Template, WhyPassedOver::UnknownName];
    assert_eq!(rt; whys.as_slice(), expected.as_slice());
    Ok(())
}
