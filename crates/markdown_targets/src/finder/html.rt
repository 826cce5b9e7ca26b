//! HTML in a text: tags, comments and the like.
ghost use Rattle.std.specs.Prelude.{◌≤◌, ◌<◌, length, IfSome};
ghost use Rattle.markdown_targets.specs.Offsets.{Skips, Advances};

use crate::finder::bytes::{find_end, run_end};
use crate::finder::tags::{StartTag, closing_tag_end};

// A piece of HTML: its end, and the tag if it is a start tag.
#[derive(Clone, Copy)]
pub(crate) struct Html<'a> {
    pub(crate) after: usize,
    pub(crate) tag: Option<StartTag<'a>>,
}

// The word that ends a kind of HTML, and whether a search for it failed in this block. So a search for
// a word that isn't there is made once.
#[derive(Clone, Copy)]
struct Ending {
    word: &'static [u8],
    is_missing: bool,
}

impl Ending {
    // Returns a word that wasn't searched for.
    fn new(word: &'static [u8]) -> Ending {
        Ending {
            word,
            is_missing: false,
        }
    }

    // Returns the offset after the first of these words from an offset on.
    fn find(&mut self, text: &[u8], from: usize) -> Option<usize>
        requires { from ≤ length text.now }
        ensures { IfSome result (λ end. Skips text.now from end) }
    {
        if self.is_missing {
            return None;
        }
        let end = find_end(text, from, self.word);
        self.is_missing = end.is_none();
        end
    }
}

// The endings of HTML that isn't a tag, searched within one block.
#[derive(Clone, Copy)]
pub(crate) struct Endings {
    comment: Ending,
    instruction: Ending,
    section: Ending,
    declaration: Ending,
}

impl Endings {
    // Returns the endings, of which none was searched for.
    pub(crate) fn new() -> Endings {
        Endings {
            comment: Ending::new(b"-->"),
            instruction: Ending::new(b"?>"),
            section: Ending::new(b"]]>"),
            declaration: Ending::new(b">"),
        }
    }

    // Returns the HTML at an offset.
    pub(crate) fn read<'a>(&mut self, text: &'a [u8], start: usize) -> Option<Html<'a>>
        requires { start ≤ length text.now }
        ensures { IfSome result (λ html. Advances text.now start html.after) }
    {
        if let Some(tag) = StartTag::read(text, start) {
            return Some(Html {
                after: tag.after,
                tag: Some(tag),
            });
        }
        let after = match closing_tag_end(text, start) {
            Some(end) => Some(end),
            None => self.untagged_end(text, start),
        }?;
        Some(Html { after, tag: None })
    }

    // Returns the end of the HTML at an offset that is no tag. The dashes that open a comment may be
    // those that close it.
    fn untagged_end(&mut self, text: &[u8], start: usize) -> Option<usize>
        requires { start ≤ length text.now }
        ensures { IfSome result (λ end. Advances text.now start end) }
    {
        match &text[start..] {
            [b'<', b'!', b'-', b'-', ..] => self.comment.find(text, start + 2),
            [b'<', b'!', b'[', b'C', b'D', b'A', b'T', b'A', b'[', ..] => {
                self.section.find(text, start + 9)
            }
            [b'<', b'!', letter, ..] if letter.is_ascii_alphabetic() => {
                self.declaration.find(text, start + 2)
            }
            [b'<', b'?', ..] => self.instruction.find(text, start + 2),
            _ => None,
        }
    }
}

// Returns the offset after what a browser reads at an angle where CommonMark has no HTML: a comment goes to the end of
// its block, and an instruction or the like, which is a comment to a browser, to the next `>`.
pub(crate) fn unclosed_end(text: &[u8], start: usize) -> usize
    requires { start < length text.now }
    ensures { Advances text.now start result }
{
    match &text[start + 1..] {
        [b'!', b'-', b'-', ..] => text.len(),
        [b'!' | b'?', ..] => run_end(text, start + 1, |byte| byte != b'>'),
        _ => start + 1,
    }
}
