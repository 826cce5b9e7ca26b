//! HTML: where it begins and ends, and its attributes.
use super::{all_find, finds};
use std::test::Fail;

const BLOCKS: &str = r##"
§ 4.6 HTML blocks, start condition 1
<script>¶[a](b.md)¶¶[c](d.md)¶</script>¶[e](f.md) ⇒ f.md
<pre>¶¶[a](b.md)¶</pre>¶[c](d.md) ⇒ d.md
<textarea>¶¶[a](b.md)¶a</textarea> [c](d.md)¶[e](f.md) ⇒ f.md
<style a="b">¶¶[a](b.md)¶</style>¶[c](d.md) ⇒ d.md
<PRE>¶¶[a](b.md)¶</Pre>¶[c](d.md) ⇒ d.md
<pre¶¶[a](b.md) ⇒ none
<pre→a¶¶[b](c.md) ⇒ none
<script>¶¶[a](b.md)¶</pre>¶[c](d.md) ⇒ d.md
<prex>¶[a](b.md)¶¶[c](d.md) ⇒ d.md
</pre>¶[a](b.md)¶¶[c](d.md) ⇒ d.md
<pre/>¶[a](b.md) ⇒ b.md
<script/>¶[a](b.md) ⇒ b.md
<style/>¶[a](b.md) ⇒ b.md
<textarea/>¶[a](b.md) ⇒ b.md
<pre>a</pre>¶[b](c.md) ⇒ c.md
§ 4.6 HTML blocks, start conditions 2 to 5
<!-- a > b¶[c](d.md) -->¶¶[e](f.md) ⇒ f.md
<!-- a¶¶[b](c.md)¶¶-->¶[d](e.md) ⇒ e.md
<!-- a --> [b](c.md)¶[d](e.md) ⇒ e.md
<!-->¶[a](b.md) ⇒ b.md
<!- a¶[b](c.md) ⇒ c.md
<? a >¶¶[b](c.md) ?>¶[d](e.md) ⇒ e.md
<!A¶¶[b](c.md)¶>¶[d](e.md) ⇒ e.md
<!a¶¶[b](c.md) ⇒ none
<!1¶[b](c.md) ⇒ c.md
<![CDATA[¶¶a ]>¶[b](c.md)¶]]>¶[d](e.md) ⇒ e.md
<![cdata[¶[a](b.md) ⇒ b.md
   <!-- a¶[b](c.md) -->¶[d](e.md) ⇒ e.md
    <!-- a¶[b](c.md) ⇒ c.md
a¶<!-- b¶¶[c](d.md) -->¶[e](f.md) ⇒ f.md
§ 4.6 HTML blocks, start conditions 6 and 7
<div>¶[a](b.md)¶¶[c](d.md) ⇒ d.md
</div> a¶[b](c.md) ⇒ none
a¶</div>¶[b](c.md) ⇒ none
<div¶[a](b.md) ⇒ none
<DIV/> a¶[b](c.md) ⇒ none
<td>[a](b.md)</td> ⇒ none
<table>¶<tr><td>[a](b.md)</td></tr>¶</table>¶[c](d.md)¶ →¶[e](f.md) ⇒ f.md
<div/a>¶[b](c.md) ⇒ c.md
<divx a¶[b](c.md) ⇒ c.md
a¶<div>¶[b](c.md) ⇒ none
a¶<b>¶[c](d.md) ⇒ d.md
a¶<search>¶[b](c.md) ⇒ none
a¶<source>¶[b](c.md) ⇒ c.md
<b>¶[a](b.md)¶¶[c](d.md) ⇒ d.md
</b→>→¶[a](b.md) ⇒ none
<b c d_1.2-:e = "f>g" h='i' j=k/ />  ¶[l](m.md) ⇒ none
<b> a¶[c](d.md) ⇒ d.md
<b c="d>¶[e](f.md) ⇒ f.md
<b c="d"e>¶[f](g.md) ⇒ g.md
<1>¶[a](b.md) ⇒ b.md
<b 1>¶[c](d.md) ⇒ d.md
<b c==d>¶[e](f.md) ⇒ f.md
<b /c>¶[d](e.md) ⇒ e.md
</b c>¶[d](e.md) ⇒ e.md
< b>¶[c](d.md) ⇒ d.md
- <div>¶  [a](b.md)¶¶  [c](d.md) ⇒ d.md
- <div>¶[a](b.md) ⇒ b.md
> <b>¶[a](b.md) ⇒ b.md
    <div>¶[a](b.md) ⇒ b.md
§ 4.6 HTML blocks, a tab after a name
a¶<div→x>¶[b](c.md) ⇒ none
"##;

const INLINE: &str = r##"
§ 6.6 Raw HTML, tags
a <b c="[d](e.md)" f='[g](h.md)' i=[j](k.md)> [l](m.md) ⇒ m.md
a <b-1 c="[d](e.md)"/> ⇒ none
a <b c="'[d](e.md)"> ⇒ none
a <b¶c =¶"[d](e.md)¶"¶/> ⇒ none
a <b _c:d.e-1="[f](g.md)"> ⇒ none
a <1 b="[c](d.md)"> ⇒ d.md
a < b c="[d](e.md)"> ⇒ e.md
a <b_ c="[d](e.md)"> ⇒ e.md
a <b *c="[d](e.md)"> ⇒ e.md
a <b c*="[d](e.md)"> ⇒ e.md
a <b c="d"e="[f](g.md)"> ⇒ g.md
a <b c=d"[e](f.md)> ⇒ f.md
a <b c=`[d](e.md)> ⇒ e.md
a <b c= "d" = "[e](f.md)"> ⇒ f.md
a <b/ c="[d](e.md)"> ⇒ e.md
a <b c="[d](e.md)" / > ⇒ e.md
a <b c="[d](e.md)> ⇒ e.md
a <b c="[d](e.md)'> ⇒ e.md
a <b c="[d](e.md)" ⇒ e.md
a </b c="[d](e.md)"> ⇒ e.md
[a </b](c.md)> ⇒ c.md
a <b c="¶¶[d](e.md)"> ⇒ e.md
`a <b c="`[d](e.md)"> ⇒ e.md
a <b c="`"> [d](e.md)` ⇒ e.md
§ 6.6 Raw HTML, comments and the like
a <!-- [b](c.md) --> [d](e.md) ⇒ e.md
a <!-- > [b](c.md) --> [d](e.md) ⇒ e.md
a <!-- b -- [c](d.md) --> [e](f.md) ⇒ f.md
a <!--> [b](c.md) --> ⇒ c.md
a <!---> [b](c.md) --> ⇒ c.md
a <!---[b](c.md)---> [d](e.md) ⇒ e.md
a <!-[b](c.md)--> ⇒ c.md
a <!-- [b](c.md) ⇒ c.md
a <!-- [b](c.md)¶¶--> [d](e.md) ⇒ c.md e.md
a <!-- b¶¶c <!-- [d](e.md) --> ⇒ none
a <? > [b](c.md) ?> [d](e.md) ⇒ e.md
a <?> [b](c.md) ?> [d](e.md) ⇒ e.md
a <!B [c](d.md)> [e](f.md) ⇒ f.md
a <!b [c](d.md)> [e](f.md) ⇒ f.md
a <!1 [b](c.md)> ⇒ c.md
a <![CDATA[ [b](c.md) > ]]> [d](e.md) ⇒ e.md
a <![CDATA[]> [b](c.md) ]]> ⇒ none
[a <![CDATA[b]]>](c.md) ⇒ c.md
a <![cdata[ [b](c.md) ]]> ⇒ c.md
§ 6.6 Raw HTML, a value with a backtick
<a href=`b.md`> [c](d.md) ⇒ d.md
"##;

const ATTRIBUTES: &str = r##"
§ Attributes, their places
a <img src="b.png"> [c](d.md) ⇒ b.png d.md
a <a href='b.md'>[c](d.md)</a> ⇒ b.md d.md
<img src="b.png"> ⇒ b.png
<a href='b.md'>¶<img src=c.png>¶ [d](e.md)¶</a> ⇒ b.md c.png
<p align="center">¶  <img src="b.png" width=1>¶</p> ⇒ b.png
<table>¶<tr><td><a href='b.md'>c</a></td>¶<td><img src="d.png"></td></tr>¶</table> ⇒ b.md d.png
- a <a href='b.md'> ⇒ b.md
- <img src="b.png">¶- c¶  <img src="d.png"> ⇒ b.png d.png
> <div>¶> <img¶> src="b.png"> ⇒ b.png
# <img src="b.png"> a ⇒ b.png
[a <img src="b.png"> c](d.md) ⇒ b.png d.md
[<img src="b.png">](c.md) ⇒ b.png c.md
<pre><a href="b.md">[c](d.md)</a></pre> ⇒ b.md
<script src="b.js"></script> ⇒ b.js
<iframe src="b.html"></iframe> ⇒ b.html
<script src="b.js">¶</script><img src="c.png"> ⇒ b.js c.png
<div><!-- b --><img src="c.png"> ⇒ c.png
§ Attributes that aren't read
`<img src="b.png">` ⇒ none
    <img src="b.png"> ⇒ none
```¶<img src="b.png">¶``` ⇒ none
<!-- <img src="b.png"> --> ⇒ none
<!-- a¶¶<img src="b.png">¶--> ⇒ none
a <!-- <img src="b.png"> --> ⇒ none
a <script>b = '<img src="c.png">';</script> <img src="d.png"> ⇒ d.png
<div>¶<!--¶<img src="b.png">¶-->¶<img src="c.png"> ⇒ c.png
<script>¶a = '<img src="b.png">';¶</script> ⇒ none
<style>¶<img src="b.png">¶</style> ⇒ none
<textarea>¶<img src="b.png"></textarea> <img src="c.png"> ⇒ c.png
<title>a <img src="b.png"></title>¶<img src="c.png"> ⇒ c.png
<SCRIPT>¶'<img src="b.png">'¶</Script> <img src="c.png"> ⇒ c.png
<? <img src="b.png"> ?> ⇒ none
<![CDATA[ <img src="b.png"> ]]> ⇒ none
<!A <img src="b.png"> ⇒ none
<? <img src="b.png"> <img src="c.png"> ⇒ c.png
<![CDATA[ a¶¶<img src="b.png">¶<img src="c.png"> ⇒ c.png
<div>¶<!1 <img src="b.png">¶<!A <img src="c.png"> ⇒ none
<div>¶<!-- <img src="b.png"> <img src="c.png"> ⇒ none
a <![CDATA[ <img src="b.png"> ]]> c ⇒ none
<https://a.b/?<img src="c.png"> ⇒ c.png
a \<img src="b.png"> ⇒ none
a <img src="b.png" "c"> ⇒ none
a <img src="b.png ⇒ none
a </img src="b.png"> ⇒ none
<div></a href="b.md"> ⇒ none
[a](<b.md "<img src='c.png'>") ⇒ c.png
[a](b.md "<img src='c.png'>") ⇒ b.md
[a]: b.md "<img src='c.png'>" ⇒ b.md
§ Attributes, their names and values
<a HREF="b.md">¶<IMG Src="c.png"> ⇒ b.md c.png
<a data-href="b.md" hrefs="c.md" xhref="d.md"> ⇒ none
<a b-src="c.md" src-b="d.md" srcset="e.md"> ⇒ none
<a href="b.md" href="c.md"> ⇒ b.md
<a href href="b.md"> ⇒ none
<img src src="b.png"> ⇒ none
<img src="b.png" src="c.png"> ⇒ b.png
<a HREF="b.md" href="c.md" src="d.md"> ⇒ b.md d.md
<a src="b.md" href="c.md"> ⇒ b.md c.md
<a title="href='b.md'"> ⇒ none
<a title='>' href="b.md"> ⇒ b.md
a <a title='>' href="b.md"> ⇒ b.md
<a href="b c > d.md"> ⇒ b c > d.md
<a href='b"c.md'>¶<a href="b'c.md"> ⇒ b"c.md b'c.md
<a href=b/c.md?d&e> ⇒ b/c.md?d&e
<a→href = "b.md"/> ⇒ b.md
a <a¶href =¶"b.md" > ⇒ b.md
<a href="b\"> [c](d.md) ⇒ b\ d.md
<a href="b\">¶<a href='c\'> ⇒ b\ c\
<a href="\[b.md"> ⇒ \[b.md
<a href="b&amp;c.md"> ⇒ b&amp;c.md
<a href> ⇒ none
<a b href c src=d.md> ⇒ d.md
<1 href="b.md"> ⇒ none
< a href="b.md"> ⇒ none
<a:b href="c.md"> ⇒ none
§ Attributes after a closing tag of a longer name
<script>¶</scripts> <img src="b.png">¶</script> <img src="c.png"> ⇒ c.png
§ Attributes after a closing tag whose name ends otherwise than in HTML
<script>¶</script_> <img src="b.png">¶</script/> <img src="c.png"> ⇒ c.png
§ Attributes of a base without an `href`
<base src=b.md> ⇒ b.md
§ Attributes of a base with an `href`
<base href="b/">¶<img src="c.png"> ⇒ c.png
a <base HREF=b> ⇒ none
"##;

// The names of tags that begin a block which goes on to a blank line, by start condition 6.
const BLOCK_NAMES: &str = "address article aside base basefont blockquote body caption center col \
    colgroup dd details dialog dir div dl dt fieldset figcaption figure footer form frame frameset \
    h1 h2 h3 h4 h5 h6 head header hr html iframe legend li link main menu menuitem nav noframes ol \
    optgroup option p param search section summary table tbody td tfoot th thead title tr track ul";

#[test]
fn passes_over_blocks_of_html(rt: HostRuntime) -> Result<(), Fail> {
    all_find(rt.alloc(), BLOCKS)
}

#[test]
fn passes_over_html_in_text(rt: HostRuntime) -> Result<(), Fail> {
    all_find(rt.alloc(), INLINE)
}

#[test]
fn finds_attributes(rt: HostRuntime) -> Result<(), Fail> {
    all_find(rt.alloc(), ATTRIBUTES)
}

// Text follows such a tag, and the block ends before the blank line.
#[test]
fn knows_each_name_of_a_block(rt: HostRuntime) -> Result<(), Fail> {
    for name in BLOCK_NAMES.split(' ') {
        let page = format!(in rt.alloc(); "a\n<{name}>\n[b](c.md)\n\n[d](e.md)")?;
        finds(rt.alloc(), name, &page, "e.md")?;
    }
    Ok(())
}
