//! Tests by a table: each row of a table is a call of some texts, one of which may be the long one.
use super::marks::begin;
use super::{editing, gives, long_text, normalizing, platform};
use relative_path::{RelativePath, RelativePathBuf};
use std::alloc::Global;
use std::test::Fail;

/// A call that returns a buffer.
#[derive(Clone, Copy)]
pub enum Making {
    FromText,
    ToRelativePathBuf,
    Join,
    WithFileName,
    WithExtension,
    Normalize,
    JoinNormalized,
    Relative,
}

// Makes such a call of a text, and of another if it takes two. It gives the expected text.
fn make(
    alloc: Global,
    making: Making,
    text: &str,
    other: &str,
    expected: &str,
) -> Result<(), Fail> {
    let path = RelativePath::new(text);
    let other_path = RelativePath::new(other);
    begin(alloc);
    let answer = match making {
        Making::FromText => RelativePathBuf::from_text(alloc, text),
        Making::ToRelativePathBuf => path.to_relative_path_buf(alloc),
        Making::Join => path.join(alloc, other_path),
        Making::WithFileName => path.with_file_name(alloc, other),
        Making::WithExtension => path.with_extension(alloc, other),
        Making::Normalize => path.normalize(alloc),
        Making::JoinNormalized => path.join_normalized(alloc, other_path),
        Making::Relative => path.relative(alloc, other_path),
    };
    gives(alloc, answer, expected)
}

/// What a test checks of each row of its table.
#[derive(Clone, Copy)]
pub enum Call {
    Makes(Making),
    Clone,
    Push,
    AsksForNothing,
    NormalizeInto,
    FromPath,
    ToPath,
    ToLogicalPath,
    RelativeTo,
}

/// A text, another text, and the text that the call gives of them.
pub type Row = (&'static str, &'static str, &'static str);

/// In a row, this stands for the long text.
pub const LONG: &str = "long";

// The text for which a text of a row stands.
fn in_full<'t>(text: &'t str, long: &'t str) -> &'t str {
    if text == LONG { long } else { text }
}

// Makes a call of a row.
fn check_row(alloc: Global, call: Call, row: &Row, long: &str) -> Result<(), Fail> {
    let text = in_full(row.0, long);
    let other = in_full(row.1, long);
    let expected = in_full(row.2, long);
    match call {
        Call::Makes(making) => make(alloc, making, text, other, expected),
        Call::Clone => editing::clone_of(alloc, text),
        Call::Push => editing::push_of(alloc, text),
        Call::AsksForNothing => editing::asks_for_nothing_of(alloc, text),
        Call::NormalizeInto => normalizing::normalize_into_of(alloc, text, expected),
        Call::FromPath => platform::from_path_of(alloc, text, expected),
        Call::ToPath => platform::to_path_of(alloc, text, other, expected),
        Call::ToLogicalPath => platform::to_logical_path_of(alloc, text, other, expected),
        Call::RelativeTo => platform::relative_to_of(alloc, text, other, expected),
    }
}

/// Makes a call of each row of a table.
pub fn check_rows(alloc: Global, call: Call, rows: &[Row]) -> Result<(), Fail> {
    let long = long_text(alloc)?;
    for row in rows {
        check_row(alloc, call, row, long.as_str())?;
    }
    Ok(())
}

/// Makes a call of each of these texts. If the call gives a text, it gives the same.
pub fn check_texts(alloc: Global, call: Call, texts: &[&'static str]) -> Result<(), Fail> {
    let long = long_text(alloc)?;
    for text in texts {
        check_row(alloc, call, &(*text, "", *text), long.as_str())?;
    }
    Ok(())
}
