//! Paths from JSON strings, and JSON strings of paths.
use super::{same, shows};
use relative_path::{RelativePath, RelativePathBuf};
use relative_path_shared::{
    BoxedRelativePath, FromValueError, boxed_from_value, from_value, to_value, view_value,
};
use serde_json::Value;
use std::alloc::Global;
use std::fmt::InlineText;
use std::test::Fail;

// JSON text of a string, and the path.
const STRINGS: [(&str, &str); 6] = [
    ("\"a/b\"", "a/b"),
    ("\"a//b\"", "a//b"),
    ("\"\"", ""),
    ("\"a\\/b\\\\c\"", "a/b\\c"),
    ("\"\\u00e9/\\ud83d\\ude00\"", "é/😀"),
    ("\"日本/\\t\"", "日本/\t"),
];

// Fails where a value is not this path in a buffer.
fn is_buffer(answer: Result<RelativePathBuf, FromValueError>, text: &str) -> Result<(), Fail> {
    shows("buffer", answer?.as_relative_path(), text)
}

// The same in a box.
fn is_box(answer: Result<BoxedRelativePath, FromValueError>, text: &str) -> Result<(), Fail> {
    shows("box", answer?.as_relative_path(), text)
}

// The same of a value, in each form.
fn is_path_value(alloc: Global, value: &Value, text: &str) -> Result<(), Fail> {
    shows("view", view_value(value)?, text)?;
    is_buffer(from_value(alloc, value), text)?;
    is_box(boxed_from_value(alloc, value), text)
}

// Fails where a JSON text is not this path, as a view, in a buffer and in a box.
fn is_path(alloc: Global, json: &str, text: &str) -> Result<(), Fail> {
    let value = Value::from_str(alloc, json)?;
    is_path_value(alloc, &value, text)
}

#[test]
fn strings_are_paths(rt: HostRuntime) -> Result<(), Fail> {
    for (json, text) in &STRINGS {
        is_path(rt.alloc(), json, text)?;
    }
    Ok(())
}

// Fails where a JSON text is taken for a path, as a view, in a buffer or in a box.
fn is_refused(alloc: Global, json: &str) -> Result<(), Fail> {
    let value = Value::from_str(alloc, json)?;
    let found = [
        view_value(&value).err(),
        from_value(alloc, &value).err(),
        boxed_from_value(alloc, &value).err(),
    ];
    same(json, &found, &[Some(FromValueError::NotAString); 3])
}

const OTHER_VALUES: [&str; 9] = [
    "null",
    "true",
    "false",
    "7",
    "0.5",
    "[]",
    "[\"a/b\"]",
    "{}",
    "{\"a\":\"b\"}",
];

#[test]
fn other_values_are_refused(rt: HostRuntime) -> Result<(), Fail> {
    for json in &OTHER_VALUES {
        is_refused(rt.alloc(), json)?;
    }
    Ok(())
}

#[test]
fn a_path_becomes_its_text(rt: HostRuntime) -> Result<(), Fail> {
    let value = to_value(rt.alloc(), RelativePath::new("a//b"))?;
    same("a//b", &value.as_str(), &Some("a//b"))
}

// Errors, what each prints, and what it prints in a width of 26.
const ERRORS: [(FromValueError, &str, &str); 2] = [
    (
        FromValueError::NotAString,
        "expected a relative path",
        "**expected a relative path",
    ),
    (
        FromValueError::OutOfMemory,
        "out of memory",
        "*************out of memory",
    ),
];

#[test]
fn errors_print_their_text() -> Result<(), Fail> {
    for (error, text, filled) in &ERRORS {
        let printed = InlineText::<64>::of(&format_args!("{error}|{error:5.99}"));
        let expected = InlineText::<64>::of(&format_args!("{text}|{text}"));
        same(text, &printed.as_str(), &expected.as_str())?;
        let printed = InlineText::<64>::of(&format_args!("{error:*>26}"));
        same(text, &printed.as_str(), filled)?;
    }
    Ok(())
}
