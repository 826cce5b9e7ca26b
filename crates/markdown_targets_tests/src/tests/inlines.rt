//! Links and images, and what takes precedence over them.
use super::all_find;
use std::test::Fail;

const TEXT: &str = r##"
§ 2.4 Backslash escapes
\[a](b.md) [c](d.md) ⇒ d.md
[a\](b.md) ⇒ none
\\[a](b.md) ⇒ b.md
[a](b\).md) ⇒ b\).md
[a](b\(.md) ⇒ b\(.md
[a](b\\) c) ⇒ b\\
[a](<b\>.md>) ⇒ b\>.md
[a](b\ c.md) ⇒ none
[a](b.md "t\" c") ⇒ b.md
\`[a](b.md)\` ⇒ b.md
`\`[a](b.md)` ⇒ b.md
a \<b c="[d](e.md)"> ⇒ e.md
\![a](b.md) ⇒ b.md
[a\¶b](c.md) ⇒ c.md
§ 2.5 Entity and numeric character references
[a](b&amp;c.md) ⇒ b&amp;c.md
&#91;a](b.md) ⇒ none
[a]&#40;b.md) ⇒ none
[a](b.md &quot;t&quot;) ⇒ none
§ 6.1 Code spans
`[a](b.md)` ``[c](d.md)`` [e](f.md) ⇒ f.md
`a``[b](c.md)` ⇒ none
``a`[b](c.md)``` ⇒ c.md
``a` [b](c.md)`` ⇒ none
[a`](b.md)` ⇒ none
`[a](`b.md) ⇒ none
[a](b`c.md) [d`](e.md) ⇒ b`c.md e.md
`a¶[b](c.md)` ⇒ none
`a¶¶[b](c.md)` ⇒ c.md
` [a](b.md) ⇒ b.md
`a <b c="`"> [d](e.md)` ⇒ e.md
§ 6.2 Emphasis and strong emphasis
*[a](b.md)* **[c*](d.md) _[e](f.md_)_ ⇒ b.md d.md f.md_
§ 6.5 Autolinks
<https://a.b/[c](d.md)> [e](f.md) ⇒ f.md
<ab:[c](d.md)> ⇒ none
<a:[b](c.md)> ⇒ c.md
<a+.-1:[b](c.md)> ⇒ none
<1a:[b](c.md)> ⇒ c.md
<https://a [b](c.md)> ⇒ c.md
< https://a/[b](c.md)> ⇒ c.md
<https://a/<[b](c.md)> ⇒ c.md
<aaaaaaaaaabbbbbbbbbbccccccccccdd:[e](f.md)> ⇒ none
<aaaaaaaaaabbbbbbbbbbccccccccccddd:[e](f.md)> ⇒ f.md
[a <https://b.c/?d=](e.md)> ⇒ none
[a <https://b.c> d](e.md) ⇒ e.md
`<a`@b.c> [d](e.md)` ⇒ e.md
<a`@b.c> [d](e.md)` ⇒ e.md
<a`@b.c.> [d](e.md)` ⇒ none
<a`@-b.c> [d](e.md)` ⇒ none
<a`@b-.c> [d](e.md)` ⇒ none
<`@> [d](e.md)` ⇒ none
<a`!#$%&'*+/=?^_{|}~-.0@b-1.c> [d](e.md)` ⇒ e.md
<a,`@b.c> [d](e.md)` ⇒ none
<a(`@b.c> [d](e.md)` ⇒ none
<a)`@b.c> [d](e.md)` ⇒ none
<a"`@b.c> [d](e.md)` ⇒ none
<a:`@b.c> [d](e.md)` ⇒ none
<a;`@b.c> [d](e.md)` ⇒ none
§ 6.5 Autolinks, a scheme with an underscore
<a_b:[c](d.md)> ⇒ d.md
§ 6.5 Autolinks, a domain with an underscore
<a`@b_c> [d](e.md)` ⇒ none
"##;

const LINKS: &str = r##"
§ 6.3 Links, their destinations
[a](b.md) [](c.md) [d](#e) [f](?g) ⇒ b.md c.md #e ?g
[a](b.md)[c](d.md) ⇒ b.md d.md
[a]() [b](<>) [c](d.md) ⇒ <> d.md
[a](<b c.md>) ⇒ b c.md
[a](b c.md) ⇒ none
[a](b¶c.md) ⇒ none
[a](<b¶c.md>) ⇒ none
[a](<b)c>) ⇒ b)c
[a](<b\>) ⇒ none
[a](<b<c>) ⇒ none
[a](<b>c) ⇒ none
[a](<b) [c](<d>e) ⇒ none
[a](b<c>.md) ⇒ b<c>.md
[a](b(c)d.md) ⇒ b(c)d.md
[a](b(c(d)).md) ⇒ b(c(d)).md
[a](b(c.md) ⇒ none
[a](b).md) ⇒ b
[a](b.md ⇒ none
[a](b.md¶[c](d.md) ⇒ d.md
[a] (b.md) ⇒ none
[a]¶(b.md) ⇒ none
[a](  ¶ b.md ¶ ) ⇒ b.md
[a](b.md¶¶) ⇒ none
§ 6.3 Links, their titles
[a](b.md "t") [c](d.md 't') [e](f.md (t)) ⇒ b.md d.md f.md
[a](b.md"t") ⇒ b.md"t"
[a](<b.md>"t") ⇒ none
[a](b.md "t "u" v") ⇒ none
[a](b.md 't "u" v') ⇒ b.md
[a](b.md (t(u))) ⇒ none
[a](b.md (t\(u)) ⇒ b.md
[a](b.md (t)u)) ⇒ none
[a](b.md "t" "u") ⇒ none
[a](b.md "t"c) ⇒ none
[a](b.md¶"t¶u"¶) ⇒ b.md
[a](b.md "t [c](d.md)") [e](f.md) ⇒ b.md f.md
[a](b.md 't' [c](d.md) ⇒ d.md
[a]("t") ⇒ "t"
§ 6.3 Links, their texts
[a [b] c](d.md) ⇒ d.md
[a] b](c.md) ⇒ none
[a [b](c.md) ⇒ c.md
[a \[b](c.md) ⇒ c.md
[a [b](c.md) d](e.md) ⇒ c.md
[a [b [c](d.md) e](f.md) g](h.md) ⇒ d.md
[a [b](c.md) d](e.md) [f](g.md) ⇒ c.md g.md
[a](b.md) [c [d] e](f.md) ⇒ b.md f.md
[a [b](c.md)¶¶[d](e.md) ⇒ c.md e.md
[a <b c="](d.md)"> ⇒ none
[a ![b](c.png) d](e.md) ⇒ c.png e.md
§ 6.3 Links, by name
[a][b](c.md)¶¶[b]: d.md ⇒ d.md
[a][b](c.md) ⇒ c.md
[b]: d.md¶¶[a][b](c.md) ⇒ d.md
[a][B](c.md)¶¶> [b]: d.md ⇒ d.md
[a][b¶ c](d.md)¶¶[b c]: e.md ⇒ e.md
[a][ b ](c.md)¶¶[b]: d.md ⇒ d.md
[a][b\!](c.md)¶¶[b!]: d.md ⇒ c.md d.md
[a][b](c.md)¶¶    [b]: d.md ⇒ c.md
[a](b.md)¶¶[a]: c.md ⇒ b.md c.md
[[a]](b.md)¶¶[a]: c.md ⇒ c.md
[[a]](b.md) ⇒ b.md
[[a][b]](c.md)¶¶[b]: d.md ⇒ d.md
[[a][]](b.md)¶¶[a]: c.md ⇒ c.md
[a][](b.md)¶¶[a]: c.md ⇒ c.md
[a][](b.md) ⇒ b.md
![[a]](b.png)¶¶[a]: c.md ⇒ b.png c.md
[![a]](b.md)¶¶[a]: c.png ⇒ b.md c.png
[a [b](c.md) d][b]¶¶[b]: e.md ⇒ c.md e.md
[a](b c.md)¶¶[a]: d.md ⇒ d.md
§ 6.3 Links, a name that another label follows
[[a][b]](c.md)¶¶[a]: d.md ⇒ c.md d.md
§ 6.3 Links, a bracket that ends a name is code
[[x `]`]](b.md)¶¶[x `]: c.md ⇒ b.md c.md
§ 6.3 Links, a name with a tab
[x][a→b](c.md)¶¶[a b]: d.md ⇒ d.md
§ 6.3 Links, a name that is defined second
[a]: b.md¶[c]: d.md¶¶[x][c](e.md) ⇒ b.md d.md
§ 6.3 Links, a name that only a heading or HTML has
# [b]: c.md¶[a][b](d.md) ⇒ d.md
<div>¶[b]: c.md¶¶[a][b](d.md) ⇒ d.md
§ 6.4 Images
![a](b.png) ![](c.png) ⇒ b.png c.png
! [a](b.md) !\[c](d.md) ⇒ b.md
![a]¶(b.png) ⇒ none
[![a](b.png)](c.md) ⇒ b.png c.md
![a [b](c.md) d](e.png) ⇒ c.md e.png
![a ![b](c.png)](d.png) ⇒ c.png d.png
![[[a](b.md)](c.md)](d.md) ⇒ b.md d.md
[a [b](c.md) ![d](e.png)](f.md) ⇒ c.md e.png
§ 6.4 Images, by name
![a][](b.md)¶¶[a]: c.md ⇒ c.md
§ 6.7 Hard line breaks
[a  ¶b](c.md)  ¶[d\¶e](f.md) ⇒ c.md f.md
"##;

#[test]
fn reads_text_before_links(rt: HostRuntime) -> Result<(), Fail> {
    all_find(rt.alloc(), TEXT)
}

#[test]
fn finds_links_and_images(rt: HostRuntime) -> Result<(), Fail> {
    all_find(rt.alloc(), LINKS)
}
