//! Paths as targets.
use super::all_written;
use std::test::Fail;

const PLAIN: [(&str, &str); 11] = [
    ("b.md", "b.md"),
    ("../a//b/", "../a//b/"),
    (".", "."),
    ("é.md", "é.md"),
    (
        "a_b-c~d!e,f;g@h+i*j[k]l^m{n}o$p",
        "a_b-c~d!e,f;g@h+i*j[k]l^m{n}o$p",
    ),
    ("", "./"),
    ("/", "./"),
    ("//a", "a"),
    ("/a/", "a/"),
    ("///", "./"),
    ("a/b", "a/b"),
];

#[test]
fn what_stays(rt: HostRuntime) -> Result<(), Fail> {
    all_written(rt.alloc(), &PLAIN)
}

const ESCAPED: [(&str, &str); 12] = [
    ("my file.md", "my%20file.md"),
    ("d%20e.md", "d%2520e.md"),
    ("a?b#c", "a%3Fb%23c"),
    ("a\\b", "a%5Cb"),
    ("<a>(b)", "%3Ca%3E%28b%29"),
    ("a&b|c", "a%26b%7Cc"),
    ("\"a'b`c", "%22a%27b%60c"),
    ("a=b", "a%3Db"),
    ("\0\t\n\u{1f}\u{7f}", "%00%09%0A%1F%7F"),
    ("{{x}}", "%7B{x}}"),
    ("${x}", "%24{x}"),
    ("a/{b}/$c", "a/{b}/$c"),
];

#[test]
fn what_is_escaped(rt: HostRuntime) -> Result<(), Fail> {
    all_written(rt.alloc(), &ESCAPED)
}

const BLOCKS: [(&str, &str); 12] = [
    ("~~~", "%7E~~"),
    ("~a/b.md", "%7Ea/b.md"),
    ("*", "%2A"),
    ("+", "%2B"),
    ("!--a", "%21--a"),
    ("-", "%2D"),
    ("---", "%2D--"),
    ("___", "%5F__"),
    ("/--", "%2D-"),
    ("1.", "%31."),
    ("01.", "%301."),
    ("9a.", "%39a."),
];

#[test]
fn what_begins_a_block(rt: HostRuntime) -> Result<(), Fail> {
    all_written(rt.alloc(), &BLOCKS)
}

const NO_BLOCKS: [(&str, &str); 12] = [
    ("_index.md", "_index.md"),
    ("-a", "-a"),
    ("--/a", "--/a"),
    ("1", "1"),
    ("1.md", "1.md"),
    ("1.2", "1.2"),
    ("1./a", "1./a"),
    ("a.", "a."),
    ("..", ".."),
    ("a/~~~", "a/~~~"),
    ("a/---", "a/---"),
    ("./1.", "./1."),
];

#[test]
fn what_begins_no_block(rt: HostRuntime) -> Result<(), Fail> {
    all_written(rt.alloc(), &NO_BLOCKS)
}

const COLONS: [(&str, &str); 6] = [
    ("a:b", "a%3Ab"),
    ("a:b:c", "a%3Ab%3Ac"),
    (":", "%3A"),
    ("a/b:c", "a/b:c"),
    ("./a:b", "./a:b"),
    ("/a:b", "a%3Ab"),
];

#[test]
fn colons_of_the_first_segment(rt: HostRuntime) -> Result<(), Fail> {
    all_written(rt.alloc(), &COLONS)
}
