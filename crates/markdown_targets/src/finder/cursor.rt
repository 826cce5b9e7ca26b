//! A position in a line, known by its column.
ghost use Rattle.std.specs.Prelude.{◌≤◌, length};

use crate::finder::bytes::{is_blank, run_end};

// How many columns a tab goes to.
const TAB_STOP: usize = 4;

// From how many columns of indentation on a line is code.
pub(crate) const CODE_INDENT: usize = 4;

// A position in a line among spaces and tabs. A container may use up a part of a tab, so the position is a
// column. Columns saturate, since a line of tabs has four times as many as it has bytes.
#[derive(Clone, Copy)]
pub(crate) struct Cursor<'a> {
    // The line from its first byte on that is no space or tab.
    pub(crate) rest: &'a [u8],
    // The column of the position.
    column: usize,
    // The column of the rest.
    rest_column: usize,
}

impl<'a> Cursor<'a> {
    // Returns the position at the beginning of a line.
    pub(crate) fn new(line: &'a [u8]) -> Cursor<'a> {
        Cursor::from_column(line, 0)
    }

    // Returns the position before a text that begins at a column.
    fn from_column(text: &'a [u8], column: usize) -> Cursor<'a> {
        let (blanks, rest) = text.split_at(run_end(text, 0, is_blank));
        let mut rest_column = column;
        for &byte in blanks {
            rest_column = if byte == b'\t' {
                next_tab_stop(rest_column)
            } else {
                rest_column.saturating_add(1)
            };
        }
        Cursor {
            rest,
            column,
            rest_column,
        }
    }

    // Returns how many columns the rest is indented.
    pub(crate) fn indent(self) -> usize {
        self.rest_column.saturating_sub(self.column)
    }

    // Returns whether the rest is indented as far as code.
    pub(crate) fn is_indented(self) -> bool {
        self.indent() >= CODE_INDENT
    }

    // Returns whether only spaces and tabs are left.
    pub(crate) fn is_at_end(self) -> bool {
        self.rest.is_empty()
    }

    // Returns the position some columns on, within the spaces and tabs.
    pub(crate) fn after_columns(self, columns: usize) -> Cursor<'a> {
        Cursor {
            column: self.column.saturating_add(columns),
            ..self
        }
    }

    // Returns the position after the first bytes of the rest.
    pub(crate) fn after_bytes(self, count: usize) -> Cursor<'a>
        requires { count ≤ length self.rest.now }
    {
        Cursor::from_column(&self.rest[count..], self.rest_column.saturating_add(count))
    }
}

// Returns the first tab stop after a column.
fn next_tab_stop(column: usize) -> usize {
    (column - column % TAB_STOP).saturating_add(TAB_STOP)
}
