//! Block quotes and lists.
use super::all_find;
use std::test::Fail;

const QUOTES: &str = r##"
§ 5.1 Block quotes
> [a](b.md) ⇒ b.md
>[a](b.md) ⇒ b.md
   > [a](b.md)¶c¶    [d](e.md) ⇒ b.md e.md
    > [a](b.md) ⇒ none
>    [a](b.md) ⇒ b.md
>     [a](b.md) ⇒ none
> [a¶> b](c.md) ⇒ c.md
> [a¶b](c.md) ⇒ c.md
> [a](¶> b.md¶> "t") ⇒ b.md
[a](¶> b.md) ⇒ none
> [a¶¶> b](c.md) ⇒ none
> [a¶>¶> b](c.md) ⇒ none
>> [a¶> b](c.md) ⇒ c.md
> > > [a¶> b¶c](d.md) ⇒ d.md
> # a¶    [b](c.md) ⇒ none
>     a¶    [b](c.md) ⇒ none
> <div>¶[a](b.md) ⇒ b.md
> [a]:¶b.md ⇒ b.md
> [a]: b.md¶[c](d.md) ⇒ b.md d.md
> - a¶[b](c.md) ⇒ c.md
> a¶    - [b](c.md)¶¶      [d](e.md) ⇒ c.md
> a¶- b¶¶      [c](d.md) ⇒ none
> a¶2. b¶¶    [c](d.md) ⇒ d.md
> a¶<b>¶[c](d.md) ⇒ d.md
a¶> 2. b¶>¶>     [c](d.md) ⇒ d.md
"##;

const ITEMS: &str = r##"
§ 5.2 List items
- [a](b.md)¶¶      [c](d.md) ⇒ b.md
+ [a](b.md)¶¶     [c](d.md) ⇒ b.md d.md
* [a](b.md)¶¶    [c](d.md) ⇒ b.md d.md
-a¶¶    [b](c.md) ⇒ none
_ a¶¶    [b](c.md) ⇒ none
1) a¶¶    [b](c.md) ⇒ c.md
1] a¶¶    [b](c.md) ⇒ none
1.a¶¶    [b](c.md) ⇒ none
-1. a¶¶    [b](c.md) ⇒ none
10. a¶¶    [b](c.md) ⇒ c.md
10. a¶¶       [b](c.md) ⇒ c.md
10. a¶¶        [b](c.md) ⇒ none
10. a¶¶   b¶¶    [c](d.md) ⇒ none
123456789. a¶¶           [b](c.md) ⇒ c.md
1234567890. a¶¶            [b](c.md) ⇒ none
-    a¶¶        [b](c.md) ⇒ c.md
-    a¶¶         [b](c.md) ⇒ none
-     [a](b.md)¶¶     [c](d.md) ⇒ d.md
-     a¶¶      [b](c.md) ⇒ none
   1.  a¶¶          [b](c.md) ⇒ c.md
   1.  a¶¶           [b](c.md) ⇒ none
    - [a](b.md) ⇒ none
-¶  [a](b.md)¶¶     [c](d.md) ⇒ b.md d.md
-¶     [a](b.md)¶¶      [c](d.md) ⇒ b.md
-¶¶    [a](b.md) ⇒ none
-   ¶      [a](b.md) ⇒ none
a¶- b¶¶    [c](d.md) ⇒ d.md
a¶*¶    [b](c.md) ⇒ c.md
a¶1. b¶¶    [c](d.md) ⇒ d.md
a¶001) b¶¶     [c](d.md) ⇒ d.md
a¶2. b¶¶    [c](d.md) ⇒ none
a¶10. b¶¶    [c](d.md) ⇒ none
a¶11. b¶¶    [c](d.md) ⇒ none
a¶1.¶¶    [b](c.md) ⇒ none
- a¶    - b¶¶          [c](d.md) ⇒ none
- a¶    - b¶¶         [c](d.md) ⇒ d.md
- # a¶      [b](c.md) ⇒ none
- [a]: b.md¶  [c]: d.md ⇒ b.md d.md
- - - [a](b.md)¶¶      [c](d.md) ⇒ b.md d.md
1. - 2. [a](b.md)¶¶           [c](d.md) ⇒ b.md d.md
1. - 2. [a](b.md)¶¶            [c](d.md) ⇒ b.md
- > a¶¶      [b](c.md) ⇒ none
§ 5.3 Lists
- [a¶- b](c.md) ⇒ none
- [a¶+ b](c.md) ⇒ none
- a [b¶c](d.md) ⇒ d.md
- a¶¶¶¶  [b](c.md) ⇒ c.md
- a¶¶<!-- -->¶¶    [b](c.md) ⇒ none
1. a¶¶  2. b¶¶    3. [c](d.md) ⇒ none
- a¶ - b¶  - c¶   - d¶    - [e¶f](g.md) ⇒ g.md
§ 5.3 Lists, in a block quote after a paragraph
> [a¶> - b](c.md) ⇒ none
§ 5.3 Lists, an item that goes on after blank lines
- a¶¶¶¶    [b](c.md) ⇒ c.md
"##;

#[test]
fn reads_block_quotes(rt: HostRuntime) -> Result<(), Fail> {
    all_find(rt.alloc(), QUOTES)
}

#[test]
fn reads_lists(rt: HostRuntime) -> Result<(), Fail> {
    all_find(rt.alloc(), ITEMS)
}
