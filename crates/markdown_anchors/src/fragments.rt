//! The fragments of targets.

use crate::sources::push_source;
use percent_encoding::percent_decode;
use std::alloc::{AllocError, Global};
use target_paths::TargetSyntax;

// Begins what a browser takes from a fragment, such as a text to search for.
const DIRECTIVE: &str = ":~:";

/// The fragment of a target.
#[derive(Debug, PartialEq, Eq, Drop)]
pub struct Fragment {
    /// Its text, decoded.
    pub text: String,
    /// Whether nothing comes before it in the target, which leads to the page of the link then.
    pub is_alone: bool,
}

/// Returns the fragment of a target, or `None` if the target has none or has a query, or if the fragment isn't UTF-8.
///
/// Escapes and character references are read as in the text of the target's syntax, and then percent signs are decoded.
/// What begins with `:~:` isn't part of the fragment. Tests show this; no clause does. Allocates the target twice, as it is
/// read and as it is decoded.
///
/// ```
/// let fragment = fragment_of_target(alloc, TargetSyntax::Markdown, "a.md#b%20c\\_d")?;
/// let text = String::from_str(alloc, "b c_d")?;
/// assert_eq!(rt; fragment, Some(Fragment { text, is_alone: false }));
/// ```
pub fn fragment_of_target(
    alloc: Global,
    syntax: TargetSyntax,
    target: &str,
) -> Result<Option<Fragment>, AllocError> {
    let mut read = Vec::with_capacity(alloc, target.len())?;
    push_source(&mut read, syntax, target.as_bytes())?;
    let Some((before, written)) = cut_at_fragment(&read) else {
        return Ok(None);
    };
    let is_alone = before.trim_ascii_start().is_empty();
    let written = match syntax {
        TargetSyntax::Markdown => written,
        TargetSyntax::Attribute => written.trim_ascii_end(),
    };
    let mut decoded = Vec::with_capacity(alloc, written.len())?;
    percent_decode(written).append_to(&mut decoded)?;
    let Ok(decoded) = String::from_utf8(decoded) else {
        return Ok(None);
    };
    let text = match decoded.as_str().split_once(DIRECTIVE) {
        Some((text, _)) => String::from_str(alloc, text)?,
        None => decoded,
    };
    Ok(Some(Fragment { text, is_alone }))
}

// Returns what comes before the fragment of a URL that has no query, and the fragment.
fn cut_at_fragment(url: &[u8]) -> Option<(&[u8], &[u8])> {
    let end = url.iter().position(|byte| matches!(*byte, b'?' | b'#'))?;
    match url.get(end..)? {
        [b'#', fragment @ ..] => Some((url.get(..end)?, fragment)),
        _ => None,
    }
}
