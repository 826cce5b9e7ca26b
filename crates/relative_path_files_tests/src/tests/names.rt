use super::same;
use relative_path::RelativePath;
use relative_path_files::{has_plain_names, is_plain_name, may_be_short_name};
use std::test::Fail;

// Names that Windows, Unix and macOS read as they are, by Microsoft's rules.
const PLAIN: [&str; 29] = [
    "index.html",
    ".htaccess",
    "..a",
    "...a",
    "a b",
    " a",
    "a.b.c",
    "a~1",
    "PROGRA~1",
    "%2e%2e",
    "a%00",
    "#$&'()+,-;=@[]^_`{}!",
    "con1",
    "xcon",
    "com",
    "com10",
    "COM1x",
    "lpt",
    "com¹0",
    "conin",
    "CONIN$x",
    "a.con",
    " con",
    "..namedfork2",
    "namedfork",
    "..named fork",
    "über.日本",
    "می\u{200c}خواهم",
    "👩\u{200d}💻",
];

#[test]
fn plain_names(rt: HostRuntime) -> Result<(), Fail> {
    for name in &PLAIN {
        same(name, is_plain_name(name), true)?;
        same(name, has_plain_names(RelativePath::new(name)), true)?;
    }
    Ok(())
}

// Names that Windows cuts, refuses or shortens, and texts that Unix doesn't read as one name.
const CUT: [&str; 36] = [
    "", ".", "..", "...", "a.", "a ", "a. .", " ", ". ", "a/b", "/", "/a", "a/", "a\\b", "\\",
    "..\\x", "a:b", "C:", ":", "a::$DATA", "a?b", "?", "a*b", "a<b", "a>b", "a<b>", "a\"b", "a|b",
    "a\0b", "\0", "a\u{1}", "a\tb", "a\nb", "a\u{1f}", "a\u{7f}b", "\u{7f}",
];

#[test]
fn names_that_some_platform_reads_otherwise() -> Result<(), Fail> {
    for name in &CUT {
        same(name, is_plain_name(name), false)?;
    }
    Ok(())
}

// Names of the lists: the devices of Windows, and where Apple keeps forks.
const LISTED: [&str; 34] = [
    "con",
    "CON",
    "Con",
    "prn",
    "AUX",
    "nul",
    "NUL",
    "conin$",
    "CONOUT$",
    "com0",
    "COM1",
    "com9",
    "LPT0",
    "lpt9",
    "com¹",
    "COM²",
    "com³",
    "LPT¹",
    "lpt²",
    "LPT³",
    "con.txt",
    "con.tar.gz",
    "aux .txt",
    "AUX   .x",
    "nul.a b",
    "CONIN$.x",
    "conout$ .y",
    "com1.log",
    "lpt5.b",
    "COM¹.txt",
    "..namedfork",
    "..NamedFork",
    "..NAMEDFORK",
    "aux.html",
];

#[test]
fn names_of_the_lists() -> Result<(), Fail> {
    for name in &LISTED {
        same(name, is_plain_name(name), false)?;
    }
    Ok(())
}

// Paths, and whether their names are plain.
const PATHS: [(&str, bool); 11] = [
    ("", true),
    ("/", true),
    ("../..", true),
    ("./../a/./b//c/", true),
    ("/a", true),
    ("a/b?", false),
    ("nul/a", false),
    ("a/nul/..", false),
    ("a\\b", false),
    ("a/.../b", false),
    ("C:/a", false),
];

#[test]
fn names_of_a_path() -> Result<(), Fail> {
    for (path, are_plain) in &PATHS {
        same(path, has_plain_names(RelativePath::new(path)), *are_plain)?;
    }
    Ok(())
}

// Names, and whether Windows may take them for short ones.
const SHORT: [(&str, bool); 20] = [
    ("PROGRA~1", true),
    ("progra~1", true),
    ("A~1", true),
    ("~1", true),
    ("a~12.htm", true),
    ("a~1.", true),
    ("a~1.b", true),
    ("AB1234~9.TXT", true),
    ("a~b~1", true),
    ("PROGRAM~1", false),
    ("a~1.html", false),
    ("a~", false),
    ("~", false),
    ("1", false),
    ("12", false),
    ("a1", false),
    ("a~1b", false),
    ("a~1b.c", false),
    ("a.b~1", false),
    ("", false),
];

#[test]
fn short_names() -> Result<(), Fail> {
    for (name, may_be) in &SHORT {
        same(name, may_be_short_name(name), *may_be)?;
    }
    Ok(())
}
