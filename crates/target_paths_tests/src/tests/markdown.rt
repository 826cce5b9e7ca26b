//! Destinations in Markdown: CommonMark 0.31.2, sections 2.3, 2.4 and 6.3.
use super::all_in_markdown;
use std::test::Fail;

const PLAIN: [(&str, &str); 8] = [
    ("b.md", "=b.md@4"),
    ("./b.md", "=./b.md@6"),
    ("../a//b/", "=../a//b/@8"),
    (".", "=.@1"),
    ("b.md#top", "=b.md@4"),
    ("b.md?q#top", "=b.md@4"),
    ("a b.md", "=a b.md@6"),
    ("é.md", "=é.md@5"),
];

#[test]
fn a_path_ends_at_its_tail(rt: HostRuntime) -> Result<(), Fail> {
    all_in_markdown(rt.alloc(), &PLAIN)
}

const ESCAPES: [(&str, &str); 9] = [
    ("a\\_b.md", "=a_b.md@7"),
    ("a\\b.md", "=a\\b.md@6"),
    ("a\\", "=a\\@2"),
    ("\\\\evil.com", "=\\evil.com@10"),
    ("a\\(b\\).md", "=a(b).md@9"),
    ("a\\#b", "=a@1"),
    ("a\\?b", "=a@1"),
    ("a\\%20b", "=a b@6"),
    ("a\\é", "=a\\é@4"),
];

#[test]
fn a_backslash_escapes_punctuation(rt: HostRuntime) -> Result<(), Fail> {
    all_in_markdown(rt.alloc(), &ESCAPES)
}

const KEPT: [(&str, &str); 7] = [
    (" a ", "= a @3"),
    ("\ta", "=\ta@2"),
    ("a\nb", "=a\nb@3"),
    ("a\0b", "=a\u{FFFD}b@3"),
    ("a\u{A0}", "=a\u{A0}@3"),
    ("a&Tab;b", "=a\tb@7"),
    ("a&bsol;b", "=a\\b@8"),
];

#[test]
fn spaces_and_controls_stay(rt: HostRuntime) -> Result<(), Fail> {
    all_in_markdown(rt.alloc(), &KEPT)
}
