//! Paths from JSON strings, and JSON strings of paths.
use super::marks::{begin, end, end_answered};
use super::{Call, check_texts};
use crate::tests::{same, shows};
use relative_path::{RelativePath, RelativePathBuf};
use relative_path_shared::{
    BoxedRelativePath, FromValueError, boxed_from_value, from_value, to_value,
};
use serde_json::Value;
use std::alloc::Global;
use std::test::Fail;

/// Makes a JSON string of a path.
pub fn to_value_of_a_path_of(alloc: Global, text: &str) -> Result<(), Fail> {
    begin(alloc);
    match to_value(alloc, RelativePath::new(text)) {
        Ok(value) => {
            end_answered(alloc);
            same("to_value", &value.as_str(), &Some(text))
        }
        Err(_) => end(alloc, true),
    }
}

// Requests: 4 = 1, = 0, 1048576 = 1
#[test]
fn to_value_of_a_path(rt: HostRuntime) -> Result<(), Fail> {
    check_texts(rt.alloc(), Call::ToValue)
}

// The mark after a call that failed with this error. Fails if it isn't lack of memory.
fn end_out_of_memory(alloc: Global, error: FromValueError) -> Result<(), Fail> {
    end(alloc, true)?;
    same("refused", &error, &FromValueError::OutOfMemory)
}

// The mark after a call. Fails if the result has another text, or more room than the text needs.
fn gives_buffer(
    alloc: Global,
    answer: Result<RelativePathBuf, FromValueError>,
    text: &str,
) -> Result<(), Fail> {
    match answer {
        Ok(buf) => {
            end_answered(alloc);
            let found = (buf.as_relative_path().as_str(), buf.spare());
            same("text and room", &found, &(text, 0))
        }
        Err(error) => end_out_of_memory(alloc, error),
    }
}

/// Copies a JSON string into a buffer.
pub fn from_value_of_a_string_of(alloc: Global, text: &str) -> Result<(), Fail> {
    let value = Value::try_from_str(alloc, text)?;
    begin(alloc);
    gives_buffer(alloc, from_value(alloc, &value), text)
}

// Requests: 4 = 1, = 0, 1048576 = 1
#[test]
fn from_value_of_a_string(rt: HostRuntime) -> Result<(), Fail> {
    check_texts(rt.alloc(), Call::FromValue)
}

// The same of a box.
fn gives_box(
    alloc: Global,
    answer: Result<BoxedRelativePath, FromValueError>,
    text: &str,
) -> Result<(), Fail> {
    match answer {
        Ok(boxed) => {
            end_answered(alloc);
            shows("a box", boxed.as_relative_path(), text)
        }
        Err(error) => end_out_of_memory(alloc, error),
    }
}

/// Copies a JSON string into a box.
pub fn boxed_from_value_of_a_string_of(alloc: Global, text: &str) -> Result<(), Fail> {
    let value = Value::try_from_str(alloc, text)?;
    begin(alloc);
    gives_box(alloc, boxed_from_value(alloc, &value), text)
}

// Requests: 4 = 1, = 0, 1048576 = 1
#[test]
fn boxed_from_value_of_a_string(rt: HostRuntime) -> Result<(), Fail> {
    check_texts(rt.alloc(), Call::BoxedFromValue)
}

// Requests: = 0
#[test]
fn from_value_of_null(rt: HostRuntime) -> Result<(), Fail> {
    begin(rt.alloc());
    let error = from_value(rt.alloc(), &Value::Null).err();
    end(rt.alloc(), error == Some(FromValueError::OutOfMemory))?;
    same("null", &error, &Some(FromValueError::NotAString))
}

// Requests: = 0
#[test]
fn boxed_from_value_of_null(rt: HostRuntime) -> Result<(), Fail> {
    begin(rt.alloc());
    let error = boxed_from_value(rt.alloc(), &Value::Null).err();
    end(rt.alloc(), error == Some(FromValueError::OutOfMemory))?;
    same("null", &error, &Some(FromValueError::NotAString))
}
