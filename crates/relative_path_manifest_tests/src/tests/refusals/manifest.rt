//! The manifest reader.
use super::long_text;
use super::marks::{begin, end, end_answered};
use crate::tests::{are, same};
use relative_path::RelativePathBuf;
use relative_path_manifest::{
    ManifestError, manifest_clash, manifest_files, manifest_files_on_unix,
};
use serde_json::Value;
use std::alloc::Global;
use std::test::Fail;

// What the reader returns.
type Answer = Result<Vec<RelativePathBuf>, ManifestError>;

// The mark after a call. Fails if no allocation failed and the files are others.
fn end_with_files(alloc: Global, answer: Answer, expected: &[&str]) -> Result<(), Fail> {
    match answer {
        Ok(files) => {
            end_answered(alloc);
            are(&files, expected)
        }
        Err(ManifestError::OutOfMemory) => end(alloc, true),
        Err(error) => {
            end_answered(alloc);
            same("an error", Some(error), None)
        }
    }
}

// The mark after a call. Fails if no allocation failed and the call isn't refused for this reason.
fn end_with_error(alloc: Global, answer: Answer, expected: ManifestError) -> Result<(), Fail> {
    match answer.err() {
        Some(ManifestError::OutOfMemory) => end(alloc, true),
        error => {
            end_answered(alloc);
            same("an error", error, Some(expected))
        }
    }
}

fn reads(alloc: Global, json: &str, expected: &[&str]) -> Result<(), Fail> {
    let manifest = Value::from_str(alloc, json)?;
    begin(alloc);
    let answer = manifest_files(alloc, &manifest);
    end_with_files(alloc, answer, expected)
}

fn is_refused(alloc: Global, json: &str, refusal: ManifestError) -> Result<(), Fail> {
    let manifest = Value::from_str(alloc, json)?;
    begin(alloc);
    let answer = manifest_files(alloc, &manifest);
    end_with_error(alloc, answer, refusal)
}

// Requests: 4 3s 5 96 3 3s 3 = 3
#[test]
fn two_files(rt: HostRuntime) -> Result<(), Fail> {
    let json = r#"{"base": "a", "files": ["b//c", "./d"]}"#;
    reads(rt.alloc(), json, &["a/b/c", "a/d"])
}

// Requests: 1048576 524288s 1048576 96 = 2
#[test]
fn a_long_file(rt: HostRuntime) -> Result<(), Fail> {
    let long = long_text(rt.alloc())?;
    let json = format!(in rt.alloc(); r#"{{"base": "", "files": ["{long}"]}}"#)?;
    reads(rt.alloc(), json.as_str(), &[long.as_str()])
}

// Requests: = 0, = 0
#[test]
fn a_manifest_of_no_file(rt: HostRuntime) -> Result<(), Fail> {
    let refusal = ManifestError::LeadsToBase(0);
    reads(rt.alloc(), r#"{"base": "", "files": []}"#, &[])?;
    is_refused(rt.alloc(), r#"{"base": "", "files": [""]}"#, refusal)
}

// Requests: = 0
#[test]
fn a_manifest_without_a_base(rt: HostRuntime) -> Result<(), Fail> {
    is_refused(rt.alloc(), r#"{"files": ["b"]}"#, ManifestError::NoBase)
}

// Requests: 1 2s 3 96 = 0
#[test]
fn a_file_that_climbs(rt: HostRuntime) -> Result<(), Fail> {
    let json = r#"{"base": "a", "files": ["b", "../c"]}"#;
    is_refused(rt.alloc(), json, ManifestError::ClimbsAbove(1))
}

// Requests: 5 3s 6 96 3 3s 3 = 3
#[test]
fn two_files_on_unix(rt: HostRuntime) -> Result<(), Fail> {
    let manifest = Value::from_str(rt.alloc(), r#"{"base": "a", "files": ["b//c?", "./d"]}"#)?;
    begin(rt.alloc());
    let answer = manifest_files_on_unix(rt.alloc(), &manifest);
    end_with_files(rt.alloc(), answer, &["a/b/c?", "a/d"])
}

// Fails where other files clash, and no allocation failed.
fn clashes(
    alloc: Global,
    files: &[RelativePathBuf],
    clash: Option<(usize, usize)>,
) -> Result<(), Fail> {
    begin(alloc);
    let answer = manifest_clash(alloc, files);
    match answer {
        Ok(found) => {
            end_answered(alloc);
            same("a clash", found, clash)
        }
        Err(_) => end(alloc, true),
    }
}

// Requests: 3 488 3 3 = 0, = 0
#[test]
fn a_clash(rt: HostRuntime) -> Result<(), Fail> {
    let manifest = Value::from_str(rt.alloc(), r#"{"base": "x", "files": ["a", "b", "A"]}"#)?;
    let files = manifest_files(rt.alloc(), &manifest)?;
    clashes(rt.alloc(), &files, Some((0, 2)))?;
    clashes(rt.alloc(), &[], None)
}
