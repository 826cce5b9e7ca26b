//! A case: a tree, the actions of moves in it, and the tree after them. No two files have one text.
use relmove_statements::{
    Definition, Failure, Fault, Line, at, cut, lines_named, text_of, two_of, word_of,
};
use std::alloc::Global;

// The names of lines that end the tree before, and the actions.
const ACTIONS: &str = "actions";

const AFTER: &str = "after";

/// A file, and a text that it has.
#[derive(Drop)]
pub struct FileText {
    pub path: String,
    pub text: String,
}

/// A tree, the actions of moves in it, and the tree after them.
#[derive(Drop)]
pub struct Case<'a> {
    pub before: Vec<Line<'a>>,
    pub actions: Vec<Line<'a>>,
    pub after: Vec<Line<'a>>,
    /// The files before the moves, and after them.
    pub files: Vec<FileText>,
    pub files_after: Vec<FileText>,
    /// The directories before the moves.
    pub directories: Vec<String>,
    /// The pages that change, with their new texts.
    pub texts: Vec<FileText>,
    /// Directories that are removed if they are empty.
    pub emptied: Vec<String>,
}

/// The case of a name, or an empty one.
pub fn case_named<'a>(
    alloc: Global,
    name: Option<&str>,
    definitions: &[Definition<'_, 'a>],
) -> Result<Case<'a>, Fault> {
    match name {
        Some(name) => case_of(alloc, lines_named(name, definitions)?),
        None => Ok(empty_case(alloc)),
    }
}

// A case without a tree and actions.
fn empty_case<'a>(alloc: Global) -> Case<'a> {
    Case {
        before: Vec::new(alloc),
        actions: Vec::new(alloc),
        after: Vec::new(alloc),
        files: Vec::new(alloc),
        files_after: Vec::new(alloc),
        directories: Vec::new(alloc),
        texts: Vec::new(alloc),
        emptied: Vec::new(alloc),
    }
}

// The case that lines say.
fn case_of<'a>(alloc: Global, lines: &[Line<'a>]) -> Result<Case<'a>, Fault> {
    let Some((before, _, rest)) = cut(lines, ACTIONS) else {
        return Err(Fault::Wrong("this definition has no actions"));
    };
    let (actions, after) = match cut(rest, AFTER) {
        Some((actions, _, after)) => (actions, Vec::from_slice(alloc, after)?),
        None => (rest, Vec::new(alloc)),
    };
    Ok(Case {
        before: Vec::from_slice(alloc, before)?,
        actions: Vec::from_slice(alloc, actions)?,
        files: files_of(alloc, before)?,
        files_after: files_of(alloc, &after)?,
        directories: words_of_lines(alloc, before, "directory")?,
        texts: texts_of(alloc, actions)?,
        emptied: words_of_lines(alloc, actions, "empty")?,
        after,
    })
}

// The files of a tree.
fn files_of(alloc: Global, lines: &[Line<'_>]) -> Result<Vec<FileText>, Fault> {
    let mut files = Vec::new(alloc);
    for line in lines {
        if line.name == "file" {
            let (path, text) = line.rest.split_once(' ').unwrap_or((line.rest, ""));
            files.push(file_text(alloc, path, text)?)?;
        }
    }
    Ok(files)
}

// The pages that change, with their new texts.
fn texts_of(alloc: Global, lines: &[Line<'_>]) -> Result<Vec<FileText>, Fault> {
    let mut texts = Vec::new(alloc);
    for line in lines {
        if line.name == "text" {
            let (page, rest) = two_of(line.rest)?;
            let (_, text) = two_of(rest)?;
            texts.push(file_text(alloc, page, text)?)?;
        }
    }
    Ok(texts)
}

// A file with a text.
fn file_text(alloc: Global, path: &str, text: &str) -> Result<FileText, Fault> {
    Ok(FileText {
        path: word_of(alloc, path)?,
        text: text_of(alloc, text)?,
    })
}

// The words of all lines of a name.
fn words_of_lines(alloc: Global, lines: &[Line<'_>], name: &str) -> Result<Vec<String>, Fault> {
    let mut words = Vec::new(alloc);
    for line in lines {
        if line.name == name {
            words.push(word_of(alloc, line.rest)?)?;
        }
    }
    Ok(words)
}

/// The text of a file among these, or an empty one.
pub fn text_among<'f>(files: &'f [FileText], path: &str) -> &'f str {
    for file in files {
        if file.path.as_str() == path {
            return file.text.as_str();
        }
    }
    ""
}

/// The path of the file among these that has a text, or an empty one.
pub fn path_among<'f>(files: &'f [FileText], text: &str) -> &'f str {
    for file in files {
        if file.text.as_str() == text {
            return file.path.as_str();
        }
    }
    ""
}
