//! Prose as pages have it.
use crate::draw::Draw;
use std::alloc::{AllocError, Global};

const WORDS: [&str; 64] = [
    "the",
    "a",
    "of",
    "to",
    "and",
    "in",
    "is",
    "for",
    "with",
    "that",
    "this",
    "on",
    "as",
    "by",
    "are",
    "be",
    "path",
    "file",
    "directory",
    "server",
    "client",
    "option",
    "value",
    "default",
    "returns",
    "module",
    "package",
    "version",
    "release",
    "build",
    "command",
    "line",
    "error",
    "message",
    "stream",
    "buffer",
    "object",
    "function",
    "callback",
    "argument",
    "string",
    "number",
    "`true`",
    "`null`",
    "`config.json`",
    "*must*",
    "**not**",
    "when",
    "before",
    "after",
    "each",
    "without",
    "between",
    "installs",
    "reads",
    "writes",
    "creates",
    "documentation",
    "reference",
    "example",
    "section",
    "naïve",
    "it's",
    "e.g.",
];

// How many sentences there are.
const SENTENCES: usize = 512;

// Sentences of 8 to 40 words.
pub(crate) fn sentences(alloc: Global, draw: &mut Draw) -> Result<Vec<String>, AllocError> {
    let mut sentences = Vec::with_capacity(alloc, SENTENCES)?;
    for _ in 0..SENTENCES {
        sentences.push(sentence(alloc, draw)?)?;
    }
    Ok(sentences)
}

// A sentence.
fn sentence(alloc: Global, draw: &mut Draw) -> Result<String, AllocError> {
    let mut text = String::from_str(alloc, "The")?;
    for count in 0..draw.from(8, 33) {
        text.push_str(if count % 12 == 11 { "\n" } else { " " })?;
        text.push_str(draw.word(&WORDS))?;
    }
    text.push_str(".")?;
    Ok(text)
}
