//! Lines, leaf blocks, and which lines are no inline text.
use super::all_find;
use std::test::Fail;

const LINES: &str = r##"
§ 2.1 Characters and lines
```␍[a](b.md)␍```␍[c](d.md) ⇒ d.md
```␍¶[a](b.md)␍¶```␍¶␍¶[c](d.md)␍¶ ⇒ d.md
[a](␍¶b.md) ⇒ b.md
a␍¶    [b](c.md) ⇒ c.md
[a␍␍b](c.md) ⇒ none
[a¶␍b](c.md) ⇒ none
[a](b.md)␍¶# c␍¶    [d](e.md) ⇒ b.md
[ü](über.md)␍¶[日](日.md)␍¶ ⇒ über.md 日.md
§ 2.2 Tabs
→[a](b.md) ⇒ none
  →[a](b.md) ⇒ none
-→[a](b.md) ⇒ b.md
-→→[a](b.md) ⇒ none
>→[a](b.md) ⇒ b.md
>→→[a](b.md) ⇒ none
- a¶¶→[b](c.md) ⇒ c.md
- a¶¶→→[b](c.md) ⇒ none
1.→a¶¶→[b](c.md) ⇒ c.md
-→a¶¶  b¶¶    [c](d.md) ⇒ none
#→[a](b.md)¶    [c](d.md) ⇒ b.md
[a](→b.md→"t"→) ⇒ b.md
*→*→*→¶    [a](b.md) ⇒ none
-   a¶¶  →[b](c.md) ⇒ c.md
§ 2.2 Tabs, after a marker and a space
 - →a¶¶        [b](c.md) ⇒ none
§ 4.9 Blank lines
¶  ¶[a](b.md)¶  ¶¶# [c](d.md)¶   ⇒ b.md d.md
[a¶ → ¶b](c.md) ⇒ none
"##;

const LEAVES: &str = r##"
§ 4.1 Thematic breaks
- - -¶    [a](b.md) ⇒ none
***¶    [a](b.md) ⇒ none
 **  * ** * ** * **¶    [a](b.md) ⇒ none
__________¶    [a](b.md) ⇒ none
+++¶    [a](b.md) ⇒ b.md
--¶    [a](b.md) ⇒ b.md
*-*¶    [a](b.md) ⇒ b.md
_ _ _ a¶    [b](c.md) ⇒ c.md
a¶***¶    [b](c.md) ⇒ none
a¶    ***¶    [b](c.md) ⇒ c.md
- a¶***¶    [b](c.md) ⇒ none
* a¶* * *¶    [b](c.md) ⇒ none
- * * *¶      [a](b.md) ⇒ none
§ 4.2 ATX headings
###### [a](b.md)¶    [c](d.md) ⇒ b.md
####### [a](b.md)¶    [c](d.md) ⇒ b.md d.md
#a¶    [b](c.md) ⇒ c.md
\# a¶    [b](c.md) ⇒ c.md
#¶    [a](b.md) ⇒ none
   # [a](b.md)¶    [c](d.md) ⇒ b.md
    # [a](b.md) ⇒ none
a¶    # b¶    [c](d.md) ⇒ d.md
# [a](b.md) ##¶[c](d.md) ⇒ b.md d.md
# [a]: b.md ⇒ none
# [a¶](b.md) ⇒ none
# [a](¶b.md) ⇒ none
[a¶# ](b.md) ⇒ none
a¶# [b](c.md)¶    [d](e.md) ⇒ c.md
# `a¶[b](c.md)` ⇒ c.md
§ 4.3 Setext headings
[a](b.md)¶===¶    [c](d.md) ⇒ b.md
[a](b.md)¶-¶    [c](d.md) ⇒ b.md
[a¶b](c.md)¶=== ⇒ c.md
[a¶===¶](b.md) ⇒ none
===¶    [a](b.md) ⇒ b.md
a¶= =¶    [b](c.md) ⇒ c.md
a¶=-=¶    [b](c.md) ⇒ c.md
a¶   === → ¶    [b](c.md) ⇒ none
a¶    ===¶    [b](c.md) ⇒ c.md
> a¶===¶    [b](c.md) ⇒ c.md
- a¶  ---¶      [b](c.md) ⇒ none
- a¶---¶    [b](c.md) ⇒ none
`a¶===¶[b](c.md)` ⇒ c.md
a¶===¶[b]: c.md ⇒ c.md
§ 4.4 Indented code blocks
    [a](b.md) ⇒ none
   [a](b.md) ⇒ b.md
a¶    [b](c.md) ⇒ c.md
a¶¶    [b](c.md) ⇒ none
    a¶[b](c.md) ⇒ c.md
    a¶¶    [b](c.md) ⇒ none
    a¶¶   [b](c.md) ⇒ c.md
- a¶¶      [b](c.md) ⇒ none
- a¶¶     [b](c.md) ⇒ c.md
§ 4.8 Paragraphs
[a¶   b](c.md) ⇒ c.md
[a¶¶b](c.md) ⇒ none
[a](b.md¶¶) ⇒ none
"##;

const FENCES: &str = r##"
§ 4.5 Fenced code blocks
```¶[a](b.md)¶```¶[c](d.md) ⇒ d.md
~~~¶[a](b.md)¶~~~¶[c](d.md) ⇒ d.md
~~¶[a](b.md) ⇒ b.md
```¶~~~¶[a](b.md)¶```¶[c](d.md) ⇒ d.md
````¶```¶[a](b.md)¶````¶[c](d.md) ⇒ d.md
```¶[a](b.md)¶`````¶[c](d.md) ⇒ d.md
```¶``` x¶[a](b.md)¶``` ⇒ none
```¶[a](b.md)¶``` →¶[c](d.md) ⇒ d.md
```¶[a](b.md)¶¶[c](d.md) ⇒ none
```¶    ```¶[a](b.md) ⇒ none
   ```¶[a](b.md)¶   ```¶[c](d.md) ⇒ d.md
    ```¶[a](b.md) ⇒ b.md
``` x`y¶[a](b.md) ⇒ b.md
``` x y¶[a](b.md)¶```¶[c](d.md) ⇒ d.md
~~~ x`y ~~~¶[a](b.md)¶~~~¶[c](d.md) ⇒ d.md
a¶```¶[b](c.md)¶```¶[d](e.md) ⇒ e.md
> ```¶> [a](b.md)¶[c](d.md) ⇒ d.md
> ```¶>¶> [a](b.md)¶> ```¶> [c](d.md) ⇒ d.md
- ```¶  [a](b.md)¶¶  [c](d.md)¶- [e](f.md) ⇒ f.md
- ```¶[a](b.md) ⇒ b.md
- ```¶  [a](b.md)¶  ```¶  [c](d.md) ⇒ d.md
"##;

#[test]
fn cuts_lines_and_columns(rt: HostRuntime) -> Result<(), Fail> {
    all_find(rt.alloc(), LINES)
}

#[test]
fn tells_leaf_blocks_apart(rt: HostRuntime) -> Result<(), Fail> {
    all_find(rt.alloc(), LEAVES)
}

#[test]
fn passes_over_fenced_code(rt: HostRuntime) -> Result<(), Fail> {
    all_find(rt.alloc(), FENCES)
}
