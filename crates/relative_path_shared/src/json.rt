//! Relative paths as JSON strings.
ghost use Rattle.std.specs.Prelude.{◌≡◌, ◌↔◌, IfOk, IsErrOf, IsOkUnless, Some, None};
ghost use Rattle.std.specs.Fmt.{styled_text};
ghost use Rattle.serde_json.specs.Data.{string};
ghost use Rattle.serde_json.specs.View.{view};
ghost use Rattle.relative_path.specs.RelativePath.{path_text};
ghost use Rattle.relative_path_shared.specs.Json.{string_text, error_text};
ghost use Rattle.relative_path_shared.specs.declared.json.FromValueError.TheVariants.{NotAString, OutOfMemory};

use crate::shared::BoxedRelativePath;
use relative_path::{RelativePath, RelativePathBuf};
use serde_json::Value;
use std::alloc::{AllocError, Global};
use std::error::Error;
use std::fmt;

/// Why no path can be made of a JSON value.
///
/// ```
/// let error = json::view_value(&Value::Null).unwrap_err();
/// assert_eq!(rt; error, FromValueError::NotAString);
/// assert_eq!(rt; format!(in alloc; "{error}")?.as_str(), "expected a relative path");
/// ```
#[derive(Clone, Copy, Debug, PartialEq, Eq)]
pub enum FromValueError {
    /// The value isn't a string.
    NotAString,
    /// The allocation of the text failed.
    OutOfMemory,
}

impl fmt::Display for FromValueError {
    // the words for the error
    ghost output = { λ error. Some (error_text error) };

    // the same, cut and padded as asked
    ghost styled_output = { λ error spec. Some (styled_text spec (error_text error)) };

    fn fmt<W: fmt::Write>(&self, f: &mut fmt::Formatter<W>) -> fmt::Result {
        f.pad(match self {
            FromValueError::NotAString => "expected a relative path",
            FromValueError::OutOfMemory => "out of memory",
        })
    }
}

impl Error for FromValueError {}

impl From<AllocError> for FromValueError {
    // a failed allocation becomes `OutOfMemory`
    ghost from_gives = { λ _ error. error ≡ OutOfMemory };

    fn from(_: AllocError) -> FromValueError {
        FromValueError::OutOfMemory
    }
}

/// Returns the path's text as a JSON string.
///
/// Allocates once, the text, unless it is empty. The only error is lack of memory.
///
/// ```
/// let value = json::to_value(alloc, RelativePath::new("a//b"))?;
/// assert_eq!(rt; value.as_str(), Some("a//b"));
/// ```
pub fn to_value(alloc: Global, path: RelativePath<'_>) -> Result<Value, AllocError>
    ensures { IfOk result (λ value. view value ≡ string (path_text path.entry)) }
{
    Value::try_from_str(alloc, path.as_str())
}

/// Returns the text of a JSON string as a buffer. Fails if the value isn't a string.
///
/// Allocates once, the text, unless it is empty. If the value isn't a string, it doesn't allocate.
///
/// ```
/// let value = Value::from_str(alloc, "\"a/b\"")?;
/// let buf = json::from_value(alloc, &value)?;
/// assert_eq!(rt; buf.as_relative_path().as_str(), "a/b");
/// ```
pub fn from_value(alloc: Global, value: &Value) -> Result<RelativePathBuf, FromValueError>
    // a path with the string's text
    ensures ok { IfOk result (λ buf. string_text value.now ≡ Some buf.text) }
    // `NotAString` exactly if the value isn't a string
    ensures not_a_string { IsErrOf result NotAString ↔ (string_text value.now ≡ None) }
{
    let path = view_value(value)?;
    Ok(path.to_relative_path_buf(alloc)?)
}

/// Returns the text of a JSON string as a boxed path. Fails if the value isn't a string.
///
/// Allocates once, the text, unless it is empty. If the value isn't a string, it doesn't allocate.
///
/// ```
/// let value = Value::from_str(alloc, "\"a/b\"")?;
/// let boxed = json::boxed_from_value(alloc, &value)?;
/// assert_eq!(rt; boxed.as_relative_path().as_str(), "a/b");
/// ```
pub fn boxed_from_value(alloc: Global, value: &Value) -> Result<BoxedRelativePath, FromValueError>
    // a path with the string's text
    ensures ok { IfOk result (λ boxed. string_text value.now ≡ Some boxed) }
    // `NotAString` exactly if the value isn't a string
    ensures not_a_string { IsErrOf result NotAString ↔ (string_text value.now ≡ None) }
{
    let text = view_value(value)?.as_str();
    Ok(BoxedRelativePath::from_text(alloc, text)?)
}

/// Returns the text of a JSON string as a view. Fails only if the value isn't a string.
///
/// Allocates nothing.
///
/// ```
/// let value = Value::from_str(alloc, "\"a/b\"")?;
/// assert_eq!(rt; json::view_value(&value)?.as_str(), "a/b");
/// ```
pub fn view_value<'a>(value: &'a Value) -> Result<RelativePath<'a>, FromValueError>
    // a path with the string's text
    ensures ok { IfOk result (λ path. string_text value.now ≡ Some (path_text path)) }
    // `NotAString` exactly if the value isn't a string
    ensures not_a_string { IsErrOf result NotAString ↔ (string_text value.now ≡ None) }
    // the only error is `NotAString`
    ensures only_error { IsOkUnless result NotAString }
{
    let text = value.as_str().ok_or(FromValueError::NotAString)?;
    Ok(RelativePath::new(text))
}
