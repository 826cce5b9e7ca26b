//! Which blocks are headings, and how they are numbered.
use super::all_have;
use std::test::Fail;

const HASHES: &str = r##"
#a ⇒ none
# a # ⇒ a
# a ## b # ⇒ a--b
# a \# ⇒ a-
# a#b ⇒ ab
# a → #→ ⇒ a
##→a ⇒ a
### a ### b ⇒ a--b
####### a ⇒ none
   # a ⇒ a
    # a ⇒ none
# ⇒ <>
## ## ⇒ <>
a¶# b ⇒ b
# a␍¶# b␍# c ⇒ a b c
"##;

const UNDERLINES: &str = r##"
a¶=== ⇒ a
a¶- ⇒ a
a¶--- ⇒ a
a¶b¶--- ⇒ ab
a  ¶  b c  ¶--- ⇒ ab-c
a\¶b¶--- ⇒ ab
a <b> ¶c¶=== ⇒ a-c
a  [b](c)  ¶d¶=== ⇒ a--bd
a `b¶c` d¶=== ⇒ a-b-c-d
a¶¶--- ⇒ none
a¶= = ⇒ none
a¶    --- ⇒ none
[a]: b¶=== ⇒ none
[a]: b¶--- ⇒ none
[a]: b¶c¶=== ⇒ c
[a]: b¶[a]¶=== ⇒ a
_a¶_b_¶c_¶=== ⇒ abc
"##;

const CONTAINERS: &str = r##"
> # a ⇒ a
> a¶> === ⇒ a
> a¶=== ⇒ none
> a _b_¶> _c_ d¶> --- ⇒ a-bc-d
> `a¶> b`¶>---¶ ⇒ a-b
>_a¶>_b_¶>--- ⇒ _ab
- # a ⇒ a
1. a¶   --- ⇒ a
- a¶  - # b ⇒ b
> - # a¶>   # b ⇒ a b
```¶# a¶``` ⇒ none
    # a ⇒ none
<div>¶# a¶</div> ⇒ none
<!-- # a -->¶# b ⇒ b
<div>¶¶# a¶</div> ⇒ a
"##;

const REPEATED: &str = r##"
# a¶# a¶# a ⇒ a a-1 a-2
# a¶# a-1¶# a ⇒ a a-1 a-2
# a-1¶# a¶# a ⇒ a a-1 a-2
# a¶# a¶# a-1 ⇒ a a-1 a-1-1
# a¶# a¶# a-1¶# a¶# a-1 ⇒ a a-1 a-1-1 a-1-2 a-2
# A¶# a! ⇒ a a-1
# !¶# ?¶# ⇒ <> -1 -2
a¶---¶# a¶> # a ⇒ a a-1 a-2
"##;

#[test]
fn reads_hashes(rt: HostRuntime) -> Result<(), Fail> {
    all_have(rt.alloc(), HASHES)
}

#[test]
fn reads_underlines(rt: HostRuntime) -> Result<(), Fail> {
    all_have(rt.alloc(), UNDERLINES)
}

#[test]
fn reads_containers(rt: HostRuntime) -> Result<(), Fail> {
    all_have(rt.alloc(), CONTAINERS)
}

#[test]
fn numbers_the_same(rt: HostRuntime) -> Result<(), Fail> {
    all_have(rt.alloc(), REPEATED)
}
