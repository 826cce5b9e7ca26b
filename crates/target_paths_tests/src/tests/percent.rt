//! Percent signs: RFC 3986, section 2.1, and the URL standard, section 1.3.
use super::{all_in_attributes, all_in_markdown};
use std::test::Fail;

const DECODED: [(&str, &str); 12] = [
    ("my%20file.md", "=my file.md@12"),
    ("a%2fb%", "!EncodedSlash"),
    ("%", "=%@1"),
    ("%4", "=%4@2"),
    ("%zz", "=%zz@3"),
    ("%%34%31", "=%41@7"),
    ("%2541", "=%41@5"),
    ("100%", "=100%@4"),
    ("a%23b#c", "=a#b@5"),
    ("a%3Fb?c", "=a?b@5"),
    ("%2e%2E/x", "=../x@8"),
    ("d%2520e.md", "=d%20e.md@10"),
];

#[test]
fn percent_signs_are_decoded_once(rt: HostRuntime) -> Result<(), Fail> {
    all_in_markdown(rt.alloc(), &DECODED)?;
    all_in_attributes(rt.alloc(), &DECODED)
}

#[test]
fn percent_signs_are_decoded_after_references(rt: HostRuntime) -> Result<(), Fail> {
    let cases = [
        ("&#37;41", "=A@7"),
        ("%&#52;1", "=A@7"),
        ("%26amp;", "=&amp;@7"),
    ];
    all_in_markdown(rt.alloc(), &cases)?;
    all_in_attributes(rt.alloc(), &cases)
}
