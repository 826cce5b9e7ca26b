//! The caller that the page of `relative_path_manifest` shows.
ghost use Rattle.std.specs.Prelude.{map, IfOk, IfSome};
ghost use Rattle.serde_json.specs.View.{view};
ghost use Rattle.relative_path_files.specs.Names.{IsPlainName};
ghost use Rattle.relative_path_manifest.specs.Manifest.{AreFiles, OfManifest, file_text};

use super::{are, same};
use relative_path::RelativePathBuf;
use relative_path_manifest::{ManifestError, manifest_base, manifest_files};
use serde_json::Value;
use std::alloc::Global;
use std::test::Fail;

/// The files of a manifest from outside. `None` if its base climbs.
pub fn files_from_outside(
    alloc: Global,
    manifest: &Value,
) -> Result<Option<Vec<RelativePathBuf>>, ManifestError>
    ensures { IfOk result (λ found. IfSome found (λ files.
        OfManifest (view manifest.now) (AreFiles IsPlainName (map file_text files.items)))) }
{
    if manifest_base(manifest).is_some_and(|base| base.climb() > 0) {
        return Ok(None);
    }
    Ok(Some(manifest_files(alloc, manifest)?))
}

// Fails where a manifest from outside has other files. `None` stands for a base that climbs.
fn has_files(alloc: Global, json: &str, expected: Option<&[&str]>) -> Result<(), Fail> {
    let manifest = Value::from_str(alloc, json)?;
    match (files_from_outside(alloc, &manifest)?, expected) {
        (Some(files), Some(expected)) => are(&files, expected),
        (found, expected) => same(json, found.is_some(), expected.is_some()),
    }
}

#[test]
fn the_caller_of_the_page(rt: HostRuntime) -> Result<(), Fail> {
    let web = r#"{"base": "web", "files": ["./a.css"]}"#;
    has_files(rt.alloc(), web, Some(&["web/a.css"]))?;
    let above = r#"{"base": "../web", "files": ["./a.css"]}"#;
    has_files(rt.alloc(), above, None)
}
