//! Names of links: the labels in brackets, and which of them are defined.
ghost use Rattle.std.specs.Prelude.{◌≡◌, ◌≤◌, ◌<◌, nat_lt, length, IfOk, IfSome};
ghost use Rattle.std.specs.List.{count_by};
ghost use Rattle.markdown_targets.specs.Classes.{begins_character};
ghost use Rattle.markdown_targets.specs.Labels.{normalized_label};
ghost use Rattle.markdown_targets.specs.Offsets.{Advances};

use crate::finder::bytes::{find_unescaped, is_space, skip_byte};
use crate::span::PageSpan;
use std::alloc::{AllocError, Global};
use std::collections::BTreeSet;

// How many characters a label may have.
const LONGEST_LABEL: usize = 999;

// A label, and the offset after its brackets.
#[derive(Clone, Copy)]
pub(crate) struct Label<'a> {
    pub(crate) span: PageSpan,
    pub(crate) name: &'a [u8],
    pub(crate) after: usize,
}

impl<'a> Label<'a> {
    // Returns the label in brackets at an offset. It has no brackets inside, and holds more than spaces.
    pub(crate) fn read(text: &'a [u8], start: usize) -> Option<Label<'a>>
        ensures { IfSome result (λ label. Advances text.now start label.after) }
    {
        let start = skip_byte(text, start, b'[')?;
        let end = find_unescaped(text, start, |byte| byte == b'[' || byte == b']')?;
        let after = skip_byte(text, end, b']')?;
        let name = &text[start..end];
        if name.iter().all(|&byte| is_space(byte)) || is_too_long(name) {
            return None;
        }
        Some(Label {
            span: PageSpan { start, end },
            name,
            after,
        })
    }

    // Returns whether the label is a footnote's.
    pub(crate) fn is_footnote(self) -> bool {
        self.name.first() == Some(&b'^')
    }
}

// Returns whether a label has too many characters. The characters are counted only if there are as many bytes.
fn is_too_long(name: &[u8]) -> bool
    ensures { result ≡ nat_lt LONGEST_LABEL (count_by begins_character name.now) }
{
    name.len() > LONGEST_LABEL && character_count(name) > LONGEST_LABEL
}

// Returns how many characters a text in UTF-8 has: as many as it has bytes that begin a character.
fn character_count(text: &[u8]) -> usize
    ensures { result ≡ count_by begins_character text.now }
{
    text.iter()
        .filter(|&&byte| !(128..192).contains(&byte))
        .count()
}

// The names that a page defines.
#[derive(Drop)]
pub(crate) struct Names {
    alloc: Global,
    normalized: BTreeSet<Vec<u8>>,
}

impl Names {
    // Returns no names.
    pub(crate) fn new(alloc: Global) -> Names {
        Names {
            alloc,
            normalized: BTreeSet::new(alloc),
        }
    }

    // Adds a name.
    pub(crate) fn add(&mut self, name: &[u8]) -> Result<(), AllocError> {
        self.normalized.insert(normalized_label(self.alloc, name)?)?;
        Ok(())
    }

    // Returns whether a name was added, in this case or another.
    pub(crate) fn has(&self, name: &[u8]) -> Result<bool, AllocError> {
        if self.normalized.is_empty() {
            return Ok(false);
        }
        Ok(
            self.normalized
                .contains(normalized_label(self.alloc, name)?.as_slice()),
        )
    }
}

// Returns the label as it is compared: without case as far as ASCII, with one space in place of several.
fn normalized_label(alloc: Global, name: &[u8]) -> Result<Vec<u8>, AllocError>
    ensures { IfOk result (λ label. label.items ≡ normalized_label name.now) }
{
    let mut normalized = Vec::with_capacity(alloc, name.len())?;
    let mut is_apart = false;
    for &byte in name {
        if is_space(byte) {
            is_apart = true;
        } else {
            if is_apart && !normalized.is_empty() {
                normalized.push(b' ')?;
            }
            normalized.push(byte.to_ascii_lowercase())?;
            is_apart = false;
        }
    }
    Ok(normalized)
}
