//! Values of attributes: the tokenizer of the HTML standard, and the URL standard, section 4.4.
use super::all_in_attributes;
use std::test::Fail;

const BACKSLASHES: [(&str, &str); 8] = [
    ("a\\_b.md", "=a/_b.md@7"),
    ("\\a.md", "-"),
    ("\\\\evil.com", "-"),
    ("a\\..\\b", "=a/../b@6"),
    ("a%5Cb", "=a\\b@5"),
    ("a&#92;b", "=a/b@7"),
    ("a&bsol;b", "=a/b@8"),
    ("a\\#b", "=a/@2"),
];

#[test]
fn a_backslash_is_a_slash(rt: HostRuntime) -> Result<(), Fail> {
    all_in_attributes(rt.alloc(), &BACKSLASHES)
}

const SPACES: [(&str, &str); 14] = [
    (" a.md ", "=a.md@6"),
    ("\n\ta.md\r\n", "=a.md@8"),
    ("a\n.m\td", "=a.md@6"),
    ("a b.md", "=a b.md@6"),
    ("a.md #top", "=a.md @5"),
    (" a.md#top ", "=a.md@5"),
    ("\u{1}a\u{1f}", "=a@3"),
    ("&#32;a&#x9;", "=a@11"),
    ("&nbsp;a", "=\u{A0}a@7"),
    ("a&Tab;b", "=ab@7"),
    ("a&NewLine;b", "=ab@11"),
    (" \t ", "-"),
    (" /a", "-"),
    ("ht\ntp://h/x", "-"),
];

#[test]
fn white_space_goes(rt: HostRuntime) -> Result<(), Fail> {
    all_in_attributes(rt.alloc(), &SPACES)
}

const OTHERS: [(&str, &str); 5] = [
    ("img/x.png", "=img/x.png@9"),
    ("b.md?q#top", "=b.md@4"),
    ("a\0b", "=a\u{FFFD}b@3"),
    ("é.md", "=é.md@5"),
    ("a\u{A0}", "=a\u{A0}@3"),
];

#[test]
fn a_path_ends_at_its_tail(rt: HostRuntime) -> Result<(), Fail> {
    all_in_attributes(rt.alloc(), &OTHERS)
}
