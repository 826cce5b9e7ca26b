//! The slug of a heading.
ghost use Rattle.std.specs.Prelude.{◌≡◌, IfOk, string_bytes};
ghost use Rattle.markdown_anchors.specs.Slugs.{dashed, is_kept, slug};

use std::alloc::{AllocError, Global};
use ucd_perl::is_word_character;
use ucd_props::is_join_control;

/// Returns the slug of a heading with this text: in lower case, without each character that isn't a letter, a mark, a
/// decimal digit, connector punctuation such as `_`, a dash or a space, and with a dash in place of each space.
///
/// The rule is that of GitHub's pages, as its library html-pipeline has it: `TableOfContentsFilter` removes what
/// `/[^\p{Word}\- ]/u` matches. Lower case is that of Unicode. Allocates the text in lower case, and the slug.
///
/// ```
/// assert_eq!(rt; slug(alloc, "C++ & `a_b`, 2.0")?.as_str(), "c--a_b-20");
/// ```
pub fn slug(alloc: Global, text: &str) -> Result<String, AllocError>
    // the defined slug of the text
    ensures slug { IfOk result (λ made. string_bytes made ≡ slug text.now) }
{
    let lower = text.to_lowercase(alloc)?;
    lower
        .chars()
        .filter(|character| is_kept(*character))
        .map(dashed)
        .collect(alloc)
}

// Returns whether a slug keeps a character.
fn is_kept(character: char) -> bool
    ensures { result ≡ is_kept character }
{
    is_word_character(character) && !is_join_control(character)
        || character == '-'
        || character == ' '
}

// Returns what a slug has for a character that it keeps.
fn dashed(character: char) -> char
    ensures { result ≡ dashed character }
{
    if character == ' ' { '-' } else { character }
}
