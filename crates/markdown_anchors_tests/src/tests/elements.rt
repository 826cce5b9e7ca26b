//! The names of elements of HTML, and the headings among these.
use super::all_have;
use std::test::Fail;

const NAMES: &str = r##"
<a name="b"></a> ⇒ b
a <a id=b c> ⇒ b
<div id="a" name='b'>¶¶c ⇒ a b
<div ID=A> ⇒ A
<a name="a&amp;b"> ⇒ a&b
<a name="a\_b"> ⇒ a\_b
<a id="b" id="c"> ⇒ b
<a id><a name=""> ⇒ <>
<a data-id="b" names="c"> ⇒ none
# <a id="b"></a>c ⇒ b c
a¶<a id="b"></a>c¶--- ⇒ ac b
- <a id="b"> ⇒ b
[a <b id="c">](d) ⇒ c
`<a id="b">` ⇒ none
    <a id="b"> ⇒ none
<script>¶<a id="b">¶</script> ⇒ none
<!-- <a id="b"> --> ⇒ none
<a id="b ⇒ none
</a id="b"> ⇒ none
"##;

const HEADINGS: &str = r##"
<h1>a b</h1> ⇒ a-b
<H2 id="x">A</H2> ⇒ a x
<h1>¶  a <b>b</b> &amp;¶</h1> ⇒ --a-b-
<h1 align="center"><img src="a.png" alt="b"> c_d</h1> ⇒ -c_d
# a¶¶<h1>a</h1> ⇒ a a-1
<p>¶<h3>a</h3>¶b</p> ⇒ a
<h1>a</h1><h2>b</h2> ⇒ a b
<h1>a<h2>b</h2>c ⇒ a b
<h1>a¶¶b</h1> ⇒ a
<h7>a</h7> ⇒ none
<hr>a ⇒ none
<!-- <h1>a</h1> --> ⇒ none
"##;

#[test]
fn reads_names(rt: HostRuntime) -> Result<(), Fail> {
    all_have(rt.alloc(), NAMES)
}

#[test]
fn reads_headings_of_html(rt: HostRuntime) -> Result<(), Fail> {
    all_have(rt.alloc(), HEADINGS)
}
