//! Link reference definitions.
use super::all_find;
use std::test::Fail;

const DEFINITIONS: &str = r##"
§ 4.7 Link reference definitions
[a]: b.md ⇒ b.md
   [a]:¶      b.md  ¶           't'  ⇒ b.md
    [a]: b.md ⇒ none
[a]: <b c.md> "t"¶[d]: e.md ⇒ b c.md e.md
[a]:b.md¶[c]:¶d.md¶[e]: f.md 't' ⇒ b.md d.md f.md
[a]:¶¶b.md ⇒ none
[a]: ⇒ none
[a]: <>¶[b]:¶<c.md> ⇒ <> c.md
[a]: b.md c¶[d]: e.md ⇒ none
[a]: b.md "t" c ⇒ none
[a]: b.md¶"t" c ⇒ b.md
[a]: b.md "t¶u"¶[c]: d.md ⇒ b.md d.md
[a]: b.md "t¶¶u" ⇒ none
[a]: b.md 't¶[c](d.md) ⇒ d.md
[a]: b.md¶'t¶[c](d.md) ⇒ b.md d.md
[a]: <b.md>(t) ⇒ none
[a]: b.md"t" ⇒ b.md"t"
[a] : b.md ⇒ none
[a¶b]: c.md ⇒ c.md
[a¶¶b]: c.md ⇒ none
[]: b.md ⇒ none
[ ¶ ]: b.md ⇒ none
[a[b]: c.md ⇒ none
[a]b]: c.md ⇒ none
[a\]b]: c.md ⇒ c.md
[a\\]: b.md ⇒ b.md
\[a]: b.md ⇒ none
a¶[b]: c.md ⇒ none
[a]: b.md¶c¶[d]: e.md ⇒ b.md
# a¶[b]: c.md¶---¶[d]: e.md ⇒ c.md e.md
> [a]: b.md¶> "t"¶> [c]: d.md ⇒ b.md d.md
[a]: b.md¶[a]: c.md ⇒ b.md c.md
[a]: b(c).md¶[d]: e(f.md ⇒ b(c).md
[a]: b.md¶[c](d.md) ⇒ b.md d.md
[a]: b.md¶===¶    [c](d.md) ⇒ b.md d.md
[a]: b.md¶c¶===¶    [d](e.md) ⇒ b.md
[a]: b.md¶===¶===¶    [c](d.md) ⇒ b.md
[a]: b.md¶---¶    [c](d.md) ⇒ b.md
![a]: b.md ⇒ none
`[a]: b.md ⇒ none
[`a]: b.md¶`[c](d.md) ⇒ b.md d.md
[a]: b.md¶    [c](d.md) ⇒ b.md d.md
[a]: b.md¶``` ⇒ b.md
```¶[a]: b.md¶``` ⇒ none
<div>¶[a]: b.md ⇒ none
"##;

#[test]
fn finds_definitions(rt: HostRuntime) -> Result<(), Fail> {
    all_find(rt.alloc(), DEFINITIONS)
}
