//! Targets of which it isn't known what they are.
use super::{all_in_attributes, all_in_markdown};
use std::test::Fail;

const REFERENCE: &str = "!CharacterReference";

// The last of these names is in CommonMark's example of text that isn't an entity.
const IN_MARKDOWN: [(&str, &str); 9] = [
    ("a&Copy;b", REFERENCE),
    ("&frac17;.md", REFERENCE),
    ("&MadeUpEntity;", REFERENCE),
    ("&x;", REFERENCE),
    ("&notit;", REFERENCE),
    ("a#&x;", "=a@1"),
    ("a?q&x;", "=a@1"),
    ("a&#63;&x;", "=a@1"),
    ("&ThisIsNotDefined;", REFERENCE),
];

#[test]
fn names_in_markdown(rt: HostRuntime) -> Result<(), Fail> {
    all_in_markdown(rt.alloc(), &IN_MARKDOWN)
}

const IN_ATTRIBUTES: [(&str, &str); 12] = [
    ("a&Copy;b", REFERENCE),
    ("a&Copy", REFERENCE),
    ("AT&T.md", REFERENCE),
    ("a&no", REFERENCE),
    ("a&eacutE;", REFERENCE),
    ("a&#", REFERENCE),
    ("a&#65", REFERENCE),
    ("&#128;", REFERENCE),
    ("&#x9f;", REFERENCE),
    ("&#xA0;", "=\u{A0}@6"),
    ("&#87654321;", REFERENCE),
    ("a?b=1&T=2", "=a@1"),
];

#[test]
fn references_in_attributes(rt: HostRuntime) -> Result<(), Fail> {
    all_in_attributes(rt.alloc(), &IN_ATTRIBUTES)
}

const ENCODED: [(&str, &str); 9] = [
    ("a%2Fb", "!EncodedSlash"),
    ("a%2fb", "!EncodedSlash"),
    ("a%00b", "!EncodedNul"),
    ("%00%2F", "!EncodedNul"),
    ("%FF", "!NotUtf8"),
    ("a%C3", "!NotUtf8"),
    ("%C3%A9.md", "=é.md@9"),
    ("%ED%A0%80", "!NotUtf8"),
    ("a#%2F%00%FF", "=a@1"),
];

#[test]
fn bytes_that_are_no_part_of_a_path(rt: HostRuntime) -> Result<(), Fail> {
    all_in_markdown(rt.alloc(), &ENCODED)?;
    all_in_attributes(rt.alloc(), &ENCODED)
}
