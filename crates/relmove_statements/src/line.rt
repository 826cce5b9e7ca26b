//! The statements of an input, a line each.
use std::alloc::Global;
use std::io;

/// A statement: the number of its line, its name, and what comes after the name and a space.
#[derive(Clone, Copy)]
pub struct Line<'a> {
    pub number: usize,
    pub name: &'a str,
    pub rest: &'a str,
}

/// The name of a heading, which begins a topic.
pub const HEADING: &str = "#";

/// The name of a title, which begins a script.
pub const TITLE: &str = "==";

/// The name of a statement that names the statements below it.
pub const DEFINITION: &str = "define";

/// The names of lines that end a script, or a definition.
pub const ENDS: &[&str] = &[HEADING, TITLE, DEFINITION];

/// Reads an input, without its empty lines and its comments.
pub fn lines_of<'a>(alloc: Global, input: &'a str) -> io::Result<Vec<Line<'a>>> {
    let mut lines = Vec::new(alloc);
    let mut number = 0usize;
    for text in input.split_terminator('\n') {
        number = number.saturating_add(1);
        if !text.is_empty() && !text.starts_with("//") {
            let (name, rest) = text.split_once(' ').unwrap_or((text, ""));
            lines.push(Line { number, name, rest })?;
        }
    }
    Ok(lines)
}

/// The lines from an index on, up to the next one of these names.
pub fn lines_from<'l, 'a: 'l>(
    lines: &'l [Line<'a>],
    index: usize,
    ends: &[&str],
) -> &'l [Line<'a>] {
    let (_, rest) = lines.split_at(index.min(lines.len()));
    let end = rest
        .iter()
        .position(|line| is_among(line.name, ends))
        .unwrap_or(rest.len());
    rest.get(..end).unwrap_or(rest)
}

/// Whether a name is one of these.
pub fn is_among(name: &str, names: &[&str]) -> bool {
    names.iter().any(|other| *other == name)
}

/// Cuts statements at the first one of a name.
pub fn cut<'l, 'a: 'l>(
    lines: &'l [Line<'a>],
    name: &str,
) -> Option<(&'l [Line<'a>], Line<'a>, &'l [Line<'a>])> {
    let index = lines.iter().position(|line| line.name == name)?;
    let (before, rest) = lines.split_at(index);
    let (line, after) = rest.split_first()?;
    Some((before, *line, after))
}
