//! The addresses that a site makes of paths.
use std::alloc::{AllocError, Global};

/// The path that Hugo has in its addresses for what is at a path: in lower case, with one hyphen for spaces, and without ASCII
/// characters but letters, digits and some marks. This is the rule of `UnicodeSanitize` in Hugo 0.111, but for escapes. `None` if
/// that is the path itself: `docs/how-to/whats-new-2.md` for `docs/How To/What's new - 2.md`. Allocates it.
pub fn address_path(alloc: Global, path: &str) -> Result<Option<String>, AllocError> {
    let mut kept = String::new(alloc);
    let mut after_space = false;
    for character in path.chars() {
        if is_kept(character) {
            if after_space && character != '-' {
                kept.push('-')?;
            }
            kept.push(character)?;
            after_space = false;
        } else if character.is_whitespace() {
            after_space = !kept.is_empty() && !kept.ends_with('-');
        }
    }
    let address = kept.to_lowercase(alloc)?;
    Ok(if address.as_str() == path {
        None
    } else {
        Some(address)
    })
}

// Whether a character stays in an address.
fn is_kept(character: char) -> bool {
    character.is_ascii_alphanumeric()
        || matches!(character, '#' | '+' | '-' | '.' | '/' | '@' | '_' | '~')
        || !(character.is_ascii() || character.is_whitespace())
}
