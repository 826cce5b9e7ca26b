//! The caller that the page of `relative_path_shared` shows.
ghost use Rattle.std.specs.Prelude.{◌≡◌, ◌++◌, ◌↔◌, IfOk, IsErrOf, IfSome, None};
ghost use Rattle.relative_path.specs.Steps.{components};
ghost use Rattle.relative_path.specs.Normalizing.{IsNormalTextOf};
ghost use Rattle.relative_path.specs.RelativePath.{path_components};
ghost use Rattle.relative_path_shared.specs.Json.{string_text};
ghost use Rattle.relative_path_shared.specs.declared.json.FromValueError.TheVariants.{NotAString};

use relative_path::{RelativePath, RelativePathBuf};
use relative_path_shared::{FromValueError, from_value};
use serde_json::Value;
use std::alloc::Global;

/// The file to which the path in a JSON value leads from a directory.
fn file_of_value(
    alloc: Global,
    directory: RelativePath<'_>,
    value: &Value,
) -> Result<RelativePathBuf, FromValueError>
    ensures not_a_string { IsErrOf result NotAString ↔ (string_text value.now ≡ None) }
    ensures normal_form { IfOk result (λ file. IfSome (string_text value.now) (λ text.
        IsNormalTextOf (path_components directory.entry ++ components text) file.text)) }
{
    let path = from_value(alloc, value)?;
    let file = directory.join_normalized(alloc, path.as_relative_path())?;
    Ok(file)
}

#[test]
fn finds_the_file_of_a_value(rt: HostRuntime) -> Result<(), std::test::Fail> {
    let alloc = rt.alloc();
    let docs = RelativePath::new("docs/guide");
    let value = Value::from_str(alloc, "\"../img/a.png\"")?;
    let file = file_of_value(alloc, docs, &value)?;
    assert_eq!(rt; file.as_relative_path().as_str(), "docs/img/a.png");
    let refused = file_of_value(alloc, docs, &Value::Null).err();
    assert_eq!(rt; refused, Some(FromValueError::NotAString));
    Ok(())
}
