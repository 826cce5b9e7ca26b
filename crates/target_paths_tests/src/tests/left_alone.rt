//! Targets that are no path from the page's directory: RFC 3986, sections 3.1 and 4.2.
use super::{all_in_attributes, all_in_markdown};
use std::test::Fail;

const NOT_RELATIVE: [(&str, &str); 12] = [
    ("", "-"),
    ("#top", "-"),
    ("?q", "-"),
    ("/a", "-"),
    ("//h/x", "-"),
    ("http://h/x", "-"),
    ("mailto:John.Doe@example.com", "-"),
    ("tel:+1-816-555-1212", "-"),
    ("urn:oasis:names", "-"),
    ("a+b-c.1:d", "-"),
    ("C:/x", "-"),
    ("a&#58;b", "-"),
];

#[test]
fn no_path_from_the_directory(rt: HostRuntime) -> Result<(), Fail> {
    all_in_markdown(rt.alloc(), &NOT_RELATIVE)?;
    all_in_attributes(rt.alloc(), &NOT_RELATIVE)
}

const RELATIVE: [(&str, &str); 9] = [
    ("a%3Ab", "=a:b@5"),
    ("a/b:c", "=a/b:c@5"),
    ("./a:b", "=./a:b@5"),
    (":a", "=:a@2"),
    ("1:a", "=1:a@3"),
    ("a_b:c", "=a_b:c@5"),
    ("é:c", "=é:c@4"),
    ("a b:c", "=a b:c@5"),
    ("a?b:c", "=a@1"),
];

#[test]
fn a_colon_without_a_scheme(rt: HostRuntime) -> Result<(), Fail> {
    all_in_markdown(rt.alloc(), &RELATIVE)?;
    all_in_attributes(rt.alloc(), &RELATIVE)
}
