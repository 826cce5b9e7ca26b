//! References to characters: CommonMark 0.31.2, section 2.5, with the examples of its text.
use super::{all_in_attributes, all_in_markdown};
use std::test::Fail;

const NAMED: [(&str, &str); 8] = [
    ("a&amp;b", "=a&b@7"),
    ("a&lt;b", "=a<b@6"),
    ("a&gt;b", "=a>b@6"),
    ("a&quot;b", "=a\"b@8"),
    ("a&apos;b", "=a'b@8"),
    ("a&nbsp;b", "=a\u{A0}b@8"),
    ("a&amp;amp;b", "=a&amp;b@11"),
    ("a&amp;#b", "=a&@6"),
];

// The entities of CommonMark's examples.
const IN_EXAMPLES: [(&str, &str); 11] = [
    ("&copy;", "=©@6"),
    ("&AElig;", "=Æ@7"),
    ("&Dcaron;", "=Ď@8"),
    ("&frac34;", "=¾@8"),
    ("&HilbertSpace;", "=ℋ@14"),
    ("&DifferentialD;", "=ⅆ@15"),
    ("&ClockwiseContourIntegral;", "=∲@26"),
    ("&ngE;", "=\u{2267}\u{338}@5"),
    ("f&ouml;&ouml;", "=föö@13"),
    ("/f&ouml;&ouml;", "-"),
    ("&nbsp;", "=\u{A0}@6"),
];

#[test]
fn names_are_known(rt: HostRuntime) -> Result<(), Fail> {
    all_in_markdown(rt.alloc(), &NAMED)?;
    all_in_markdown(rt.alloc(), &IN_EXAMPLES)
}

#[test]
fn names_are_known_in_attributes(rt: HostRuntime) -> Result<(), Fail> {
    all_in_attributes(rt.alloc(), &NAMED)?;
    all_in_attributes(rt.alloc(), &IN_EXAMPLES)
}

// Names of ASCII, of which some mean something in a URL, and names of two characters.
const MEANINGFUL: [(&str, &str); 10] = [
    ("a&num;top", "=a@1"),
    ("a&quest;q", "=a@1"),
    ("&sol;a", "-"),
    ("a&sol;b", "=a/b@7"),
    ("a&colon;b", "-"),
    ("&colon;", "=:@7"),
    ("a&percnt;20b", "=a b@12"),
    ("&fjlig;ord", "=fjord@10"),
    ("&nGt;", "=\u{226B}\u{20D2}@5"),
    ("&bne;", "==\u{20E5}@5"),
];

#[test]
fn a_character_of_a_name_has_its_meaning(rt: HostRuntime) -> Result<(), Fail> {
    all_in_markdown(rt.alloc(), &MEANINGFUL)?;
    all_in_attributes(rt.alloc(), &MEANINGFUL)
}

const NUMBERS: [(&str, &str); 11] = [
    ("&#35;top", "-"),
    ("a&#35;top", "=a@1"),
    ("a&#x3f;q", "=a@1"),
    ("&#1234;", "=\u{4D2}@7"),
    ("&#992;", "=\u{3E0}@6"),
    ("&#X22;", "=\"@6"),
    ("&#XD06;", "=\u{D06}@7"),
    ("&#xcab;", "=\u{CAB}@7"),
    ("&#0000065;", "=A@10"),
    ("&#x000041;", "=A@10"),
    ("&#x10FFFF;", "=\u{10FFFF}@10"),
];

#[test]
fn numbers_are_characters(rt: HostRuntime) -> Result<(), Fail> {
    all_in_markdown(rt.alloc(), &NUMBERS)?;
    all_in_attributes(rt.alloc(), &NUMBERS)
}

const REPLACED: [(&str, &str); 6] = [
    ("&#0;", "=\u{FFFD}@4"),
    ("&#x0;", "=\u{FFFD}@5"),
    ("&#xD800;", "=\u{FFFD}@8"),
    ("&#57343;", "=\u{FFFD}@8"),
    ("&#x110000;", "=\u{FFFD}@10"),
    ("&#9999999;", "=\u{FFFD}@10"),
];

#[test]
fn others_are_the_replacement_character(rt: HostRuntime) -> Result<(), Fail> {
    all_in_markdown(rt.alloc(), &REPLACED)?;
    all_in_attributes(rt.alloc(), &REPLACED)
}

const NONE_IN_MARKDOWN: [(&str, &str); 14] = [
    ("a&b", "=a&b@3"),
    ("AT&T.md", "=AT&T.md@7"),
    ("&", "=&@1"),
    ("&;", "=&;@2"),
    ("&#;", "=&@1"),
    ("&copy", "=&copy@5"),
    ("&hi?;", "=&hi@3"),
    ("a&amp", "=a&amp@5"),
    ("a& b;", "=a& b;@5"),
    ("&1a;", "=&1a;@4"),
    ("&a-b;", "=&a-b;@5"),
    ("&#128;", "=\u{80}@6"),
    ("&#87654321;", "=&@1"),
    ("&#xabcdef0;", "=&@1"),
];

#[test]
fn other_ampersands_stay_in_markdown(rt: HostRuntime) -> Result<(), Fail> {
    all_in_markdown(rt.alloc(), &NONE_IN_MARKDOWN)
}

const NONE_IN_ATTRIBUTES: [(&str, &str); 4] = [
    ("&", "=&@1"),
    ("a&1", "=a&1@3"),
    ("a& b", "=a& b@4"),
    ("a&&amp;", "=a&&@7"),
];

#[test]
fn other_ampersands_stay_in_attributes(rt: HostRuntime) -> Result<(), Fail> {
    all_in_attributes(rt.alloc(), &NONE_IN_ATTRIBUTES)
}

// The HTML standard, section 13.2.5.73, "Named character reference state", with its examples `&notit;` and `&notin;`.
const WITHOUT_SEMICOLON: [(&str, &str); 12] = [
    ("a&notit;", "=a&notit;@8"),
    ("a&notin;", "=a∉@8"),
    ("a&not=b", "=a&not=b@7"),
    ("a&notb", "=a&notb@6"),
    ("a&not2", "=a&not2@6"),
    ("a&not", "=a¬@5"),
    ("a&not.md", "=a¬.md@8"),
    ("a&not;", "=a¬@6"),
    ("a&lt=", "=a&lt=@5"),
    ("a&LT/b", "=a</b@6"),
    ("caf&eacute.md", "=café.md@13"),
    ("a&amp&copy#b", "=a&©@10"),
];

#[test]
fn a_name_of_an_attribute_needs_no_semicolon(rt: HostRuntime) -> Result<(), Fail> {
    all_in_attributes(rt.alloc(), &WITHOUT_SEMICOLON)
}
