use super::{are, prints, same};
use relative_path::{RelativePath, RelativePathBuf};
use relative_path_manifest::{
    ManifestError, manifest_base, manifest_clash, manifest_files, manifest_files_on_unix,
};
use serde_json::Value;
use std::alloc::Global;
use std::test::Fail;

// A manifest as a repository might have it.
const MANIFEST: &str = r#"{
    "name": "a site",
    "base": "assets/./web",
    "files": ["img/x.png", "./css/../js/a.js", "\u00fc//b.css", "fonts/..\/./d", "/c.html", "..a"]
}"#;

// Fails where the reader finds other files than are expected.
fn reads(alloc: Global, json: &str, expected: &[&str]) -> Result<(), Fail> {
    let manifest = Value::from_str(alloc, json)?;
    let files = manifest_files(alloc, &manifest)?;
    are(&files, expected)
}

// Fails where the reader doesn't refuse a manifest with this error.
fn refuses(alloc: Global, json: &str, refusal: ManifestError) -> Result<(), Fail> {
    let manifest = Value::from_str(alloc, json)?;
    let error = manifest_files(alloc, &manifest).err();
    same(json, error, Some(refusal))
}

#[test]
fn reads_a_manifest(rt: HostRuntime) -> Result<(), Fail> {
    reads(
        rt.alloc(),
        MANIFEST,
        &[
            "assets/web/img/x.png",
            "assets/web/js/a.js",
            "assets/web/ü/b.css",
            "assets/web/d",
            "assets/web/c.html",
            "assets/web/..a",
        ],
    )
}

// Manifests, and why they aren't accepted.
const REFUSED: [(&str, ManifestError); 21] = [
    ("[]", ManifestError::NoBase),
    (r#"{"base": 7, "files": []}"#, ManifestError::NoBase),
    (r#"{"base": "a"}"#, ManifestError::NoFiles),
    (r#"{"base": "a", "files": "b"}"#, ManifestError::NoFiles),
    (
        r#"{"base": "a", "files": ["b", 7, "../c"]}"#,
        ManifestError::NotAString(1),
    ),
    (
        r#"{"base": "a", "files": ["b", "c/../../a/d", null]}"#,
        ManifestError::ClimbsAbove(1),
    ),
    (
        r#"{"base": "a/b", "files": ["..", "c"]}"#,
        ManifestError::ClimbsAbove(0),
    ),
    (
        r#"{"base": "a", "files": ["b", "c/../.", ".."]}"#,
        ManifestError::LeadsToBase(1),
    ),
    (
        r#"{"base": "", "files": ["/"]}"#,
        ManifestError::LeadsToBase(0),
    ),
    (
        r#"{"base": "a", "files": ["b", "..\\..\\x"]}"#,
        ManifestError::NotPlain(1),
    ),
    (
        r#"{"base": "a", "files": ["a\u0000.png"]}"#,
        ManifestError::NotPlain(0),
    ),
    (
        r#"{"base": "", "files": ["C:/Windows/win.ini"]}"#,
        ManifestError::NotPlain(0),
    ),
    (
        r#"{"base": "a", "files": ["b/aux.txt", ".."]}"#,
        ManifestError::NotPlain(0),
    ),
    (
        r#"{"base": "a", "files": ["b", "c.\n"]}"#,
        ManifestError::NotPlain(1),
    ),
    (
        r#"{"base": "..\\x", "files": [7]}"#,
        ManifestError::BaseNotPlain,
    ),
    (
        r#"{"base": "a/b\u0000/..", "files": []}"#,
        ManifestError::BaseNotPlain,
    ),
    (r#"{"base": "a\\b"}"#, ManifestError::NoFiles),
    (
        r#"{"base": "a", "files": ["b", "index.html?x=1"]}"#,
        ManifestError::NotPlain(1),
    ),
    (
        r#"{"base": "a", "files": ["..namedfork/rsrc"]}"#,
        ManifestError::NotPlain(0),
    ),
    (
        r#"{"base": "a", "files": ["b"], "files": ["../c"]}"#,
        ManifestError::ClimbsAbove(0),
    ),
    (
        r#"{"base": "a*", "files": []}"#,
        ManifestError::BaseNotPlain,
    ),
];

#[test]
fn refuses_a_manifest(rt: HostRuntime) -> Result<(), Fail> {
    for (json, refusal) in &REFUSED {
        refuses(rt.alloc(), json, *refusal)?;
    }
    Ok(())
}

// Manifests with a name that isn't plain, and the one file that each has on Unix.
const ON_UNIX: [(&str, &str); 4] = [
    (r#"{"base": "a", "files": ["b?x=1"]}"#, "a/b?x=1"),
    (r#"{"base": "a*", "files": ["aux.txt"]}"#, "a*/aux.txt"),
    (r#"{"base": "", "files": ["..\\x"]}"#, "..\\x"),
    (r#"{"base": "a", "files": ["b\u0000"]}"#, "a/b\0"),
];

// Fails where the reader that accepts every name finds another file than is expected, or more.
fn reads_on_unix(alloc: Global, json: &str, file: &str) -> Result<(), Fail> {
    let manifest = Value::from_str(alloc, json)?;
    let files = manifest_files_on_unix(alloc, &manifest)?;
    are(&files, &[file])
}

// Fails where this reader doesn't refuse a manifest with this error.
fn refuses_on_unix(alloc: Global, json: &str, refusal: ManifestError) -> Result<(), Fail> {
    let manifest = Value::from_str(alloc, json)?;
    let error = manifest_files_on_unix(alloc, &manifest).err();
    same(json, error, Some(refusal))
}

#[test]
fn accepts_every_name_on_unix(rt: HostRuntime) -> Result<(), Fail> {
    for (json, file) in &ON_UNIX {
        reads_on_unix(rt.alloc(), json, file)?;
    }
    Ok(())
}

// Manifests, and why they aren't accepted on Unix.
const REFUSED_ON_UNIX: [(&str, ManifestError); 5] = [
    ("[]", ManifestError::NoBase),
    (r#"{"base": "a"}"#, ManifestError::NoFiles),
    (
        r#"{"base": "a", "files": [7]}"#,
        ManifestError::NotAString(0),
    ),
    (
        r#"{"base": "a?", "files": ["b?", "../a?/c"]}"#,
        ManifestError::ClimbsAbove(1),
    ),
    (
        r#"{"base": "a", "files": ["b?/.."]}"#,
        ManifestError::LeadsToBase(0),
    ),
];

#[test]
fn refuses_a_climb_on_unix(rt: HostRuntime) -> Result<(), Fail> {
    for (json, refusal) in &REFUSED_ON_UNIX {
        refuses_on_unix(rt.alloc(), json, *refusal)?;
    }
    Ok(())
}

// Manifests, and the entry that isn't accepted: its number and its text.
const ENTRIES: [(&str, Option<usize>, Option<&str>); 7] = [
    ("[]", None, None),
    (r#"{"base": "a", "files": 7}"#, None, None),
    (r#"{"base": "a?", "files": ["b"]}"#, None, None),
    (r#"{"base": "a", "files": ["b", 7, "../c"]}"#, Some(1), None),
    (
        r#"{"base": "a", "files": ["b", "c", "../c\u000a"]}"#,
        Some(2),
        Some("../c\n"),
    ),
    (r#"{"base": "a", "files": ["b/.."]}"#, Some(0), Some("b/..")),
    (
        r#"{"base": "a", "files": ["b", "c:d"]}"#,
        Some(1),
        Some("c:d"),
    ),
];

// Fails where an error names another entry of its manifest, or there is no error.
fn is_about(
    case: &str,
    error: Option<ManifestError>,
    manifest: &Value,
    entry: (Option<usize>, Option<&str>),
) -> Result<(), Fail> {
    let Some(error) = error else {
        return Err(Fail::new("no error"));
    };
    same(case, (error.entry(), error.entry_text(manifest)), entry)
}

fn names_the_entry(
    alloc: Global,
    json: &str,
    entry: (Option<usize>, Option<&str>),
) -> Result<(), Fail> {
    let manifest = Value::from_str(alloc, json)?;
    let error = manifest_files(alloc, &manifest).err();
    is_about(json, error, &manifest, entry)
}

#[test]
fn errors_name_the_entry(rt: HostRuntime) -> Result<(), Fail> {
    for (json, number, text) in &ENTRIES {
        names_the_entry(rt.alloc(), json, (*number, *text))?;
    }
    Ok(())
}

// Bases, and what they are.
const BASES: [(&str, Option<&str>); 5] = [
    (r#"{"base": "../a"}"#, Some("../a")),
    (r#"{"base": "a", "base": "/b"}"#, Some("/b")),
    (r#"{"base": ""}"#, Some("")),
    (r#"{"base": 7}"#, None),
    ("7", None),
];

// Fails where a manifest has another base.
fn has_base(alloc: Global, json: &str, base: Option<&str>) -> Result<(), Fail> {
    let manifest = Value::from_str(alloc, json)?;
    let found = manifest_base(&manifest);
    same(json, found.map(RelativePath::as_str), base)
}

#[test]
fn reads_the_base(rt: HostRuntime) -> Result<(), Fail> {
    for (json, base) in &BASES {
        has_base(rt.alloc(), json, *base)?;
    }
    Ok(())
}

// Files of a manifest, and the numbers of the two that clash first.
const CLASHES: [(&str, Option<(usize, usize)>); 9] = [
    (r#"[]"#, None),
    (r#"["a"]"#, None),
    (r#"["a", "b", "a/b", "ab"]"#, None),
    (r#"["a", "b", "./a"]"#, Some((0, 2))),
    (r#"["img/a.png", "b", "Img/c/../A.PNG"]"#, Some((0, 2))),
    (r#"["a", "b", "B", "A"]"#, Some((1, 2))),
    (r#"["a", "a", "a"]"#, Some((0, 1))),
    (r#"["\u00fc", "\u00dc"]"#, None),
    (r#"["a/b/..", "a"]"#, Some((0, 1))),
];

// The files of a manifest with this list.
fn files_of(alloc: Global, list: &str) -> Result<Vec<RelativePathBuf>, Fail> {
    let json = format!(in alloc; r#"{{"base": "x", "files": {list}}}"#)?;
    let manifest = Value::from_str(alloc, &json)?;
    Ok(manifest_files(alloc, &manifest)?)
}

// Fails where other files of a list clash.
fn clashes(alloc: Global, list: &str, clash: Option<(usize, usize)>) -> Result<(), Fail> {
    let files = files_of(alloc, list)?;
    same(list, manifest_clash(alloc, &files)?, clash)
}

#[test]
fn finds_the_first_clash(rt: HostRuntime) -> Result<(), Fail> {
    for (list, clash) in &CLASHES {
        clashes(rt.alloc(), list, *clash)?;
    }
    Ok(())
}

#[test]
fn leaves_a_base_that_climbs_to_the_caller(rt: HostRuntime) -> Result<(), Fail> {
    let manifest = r#"{"base": "../x/../..", "files": ["/a//b"]}"#;
    reads(rt.alloc(), manifest, &["../../a/b"])?;
    let manifest = r#"{"base": "/etc", "files": ["a", "./a", "b/../a/"]}"#;
    reads(rt.alloc(), manifest, &["etc/a", "etc/a", "etc/a"])
}

#[test]
fn reads_a_manifest_without_files(rt: HostRuntime) -> Result<(), Fail> {
    reads(rt.alloc(), r#"{"base": "..", "files": []}"#, &[])
}

// Errors, and what they print.
const WORDS: [(ManifestError, &str); 8] = [
    (ManifestError::NoBase, "no base directory"),
    (ManifestError::NoFiles, "no list of files"),
    (
        ManifestError::NotAString(1_000),
        "files[1000] isn't a string",
    ),
    (
        ManifestError::ClimbsAbove(1_000),
        "files[1000] climbs above the base",
    ),
    (
        ManifestError::LeadsToBase(1_000),
        "files[1000] leads to the base",
    ),
    (
        ManifestError::NotPlain(1_000),
        "files[1000] has a name that isn't plain",
    ),
    (
        ManifestError::BaseNotPlain,
        "the base has a name that isn't plain",
    ),
    (ManifestError::OutOfMemory, "out of memory"),
];

#[test]
fn refusals_print_their_words(rt: HostRuntime) -> Result<(), Fail> {
    for (refusal, words) in &WORDS {
        prints(rt.alloc(), refusal, words)?;
    }
    Ok(())
}

// In what two refusals differ.
const DIFFERENT: [(&str, ManifestError, ManifestError); 3] = [
    (
        "another number",
        ManifestError::ClimbsAbove(0),
        ManifestError::ClimbsAbove(1),
    ),
    (
        "another reason",
        ManifestError::ClimbsAbove(1),
        ManifestError::LeadsToBase(1),
    ),
    ("no number", ManifestError::NoBase, ManifestError::NoFiles),
];

#[test]
fn tells_refusals_apart() -> Result<(), Fail> {
    for (what, refusal, other) in &DIFFERENT {
        same(what, refusal == other, false)?;
    }
    Ok(())
}
