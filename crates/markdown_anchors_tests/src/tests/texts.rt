//! The texts of headings, and their slugs.
use super::all_have;
use std::test::Fail;

const CHARACTERS: &str = r##"
# Plain heading ⇒ plain-heading
# C++ ⇒ c
# a & b ⇒ a--b
# É ⇒ é
# ÀÉÎ ⇒ àéî
# Straße ⇒ straße
# 日本語 見出し ⇒ 日本語-見出し
# Привет, Мир! ⇒ привет-мир
# 🎉 Party ⇒ -party
# a 🎉 b ⇒ a--b
# :tada: a ⇒ tada-a
# ½ ² Ⅳ ٣ ⇒ --ⅳ-٣
# 1.2.3 ⇒ 123
# What's new? ⇒ whats-new
# a - b ⇒ a---b
# a – b ⇒ a--b
# a/b.c:d ⇒ abcd
# tab→here ⇒ tabhere
# no&nbsp;break ⇒ nobreak
# a‿b ⇒ a‿b
# 👨‍💻 क्‍ष ⇒ -क्ष
# ΟΔΟΣ ⇒ οδος
"##;

const SOURCES: &str = r##"
# a &amp; b ⇒ a--b
# &eacute;t&#xe9; &#69;&#0;&#x110000; ⇒ été-e
# &nothing; &#; &#x; &#12345678; &eacute ⇒ nothing--x-12345678-eacute
# `&eacute;` ⇒ eacute
# \_a\_ \&eacute; ⇒ _a_-eacute
# a\ ⇒ a
# a\b ⇒ ab
"##;

const INLINES: &str = r##"
# `x` ⇒ x
# `a_b` ⇒ a_b
# `a  b` c ⇒ a--b-c
# `` `x` `` ⇒ x
# ` x ` ⇒ x
# `  ` ⇒ --
# `a & b` ⇒ a--b
# a `b ⇒ a-b
# [a b](c.md) ⇒ a-b
# [a](<b_c> "d e") f ⇒ a-f
# [a [b](c) d](e) ⇒ a-b-de
# [a][b] c¶¶[b]: d.md ⇒ a-c
# [a][] [b]¶¶[a]: c¶[b]: d ⇒ a-b
# [a][none] ⇒ anone
# ![image text](d.png) e ⇒ -e
# a ![b](c) ![d](e) f ⇒ a---f
# [![b](c.svg)](d) e ⇒ -e
# ![a [b](c) `d` _e](f) g_ ⇒ -g_
# a ![b] c ⇒ a-b-c
# <b>a</b> c ⇒ a-c
# a <!-- b --> c ⇒ a--c
# <http://a.b/c_d> ⇒ httpabc_d
# <a@b.cd> ⇒ abcd
# a < b > c ⇒ a--b--c
# a &lt;b&gt; ⇒ a-b
# a[^1] ⇒ a1
# a ~~b~~ ⇒ a-b
"##;

const EMPHASIS: &str = r##"
# *emphasis* and **strong** ⇒ emphasis-and-strong
# _emphasis_ and __strong__ ⇒ emphasis-and-strong
# a_b snake_case_name ⇒ a_b-snake_case_name
# _a_b_ ⇒ a_b
# _a ⇒ _a
# a_ ⇒ a_
# _ a _ ⇒ _-a-_
# ___a___ ⇒ a
# __a_ ⇒ _a
# _a__ ⇒ a_
# _a __b__ c_ ⇒ a-b-c
# __a _b_ c__ ⇒ a-b-c
# *a _b* c_ ⇒ a-_b-c_
# _a *b_ c* ⇒ a-b-c
# _(_a_)_ ⇒ a
# a._b_.c ⇒ abc
# a_"b"_ ⇒ a_b_
# é_b_ ⇒ é_b_
# _a_é ⇒ _a_é
# «_a_» ⇒ a
# _`a`_ ⇒ a
# [a _b](c) d_ ⇒ a-_b-d_
# _[a_](b) ⇒ _a_
# _[a](b)_ ⇒ a
# __a__b__c__ ⇒ a__b__c
# _a _b_ c_ ⇒ a-b-c
# ____a__ b__ ⇒ a-b
"##;

#[test]
fn keeps_characters(rt: HostRuntime) -> Result<(), Fail> {
    all_have(rt.alloc(), CHARACTERS)
}

#[test]
fn reads_escapes_and_references(rt: HostRuntime) -> Result<(), Fail> {
    all_have(rt.alloc(), SOURCES)
}

#[test]
fn reads_inlines(rt: HostRuntime) -> Result<(), Fail> {
    all_have(rt.alloc(), INLINES)
}

#[test]
fn removes_marks_of_emphasis(rt: HostRuntime) -> Result<(), Fail> {
    all_have(rt.alloc(), EMPHASIS)
}
