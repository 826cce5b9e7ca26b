//! Blocks of HTML: what begins a block, and what ends it.
ghost use Rattle.std.specs.Prelude.{◌≡◌};
ghost use Rattle.std.specs.List.{list_any};
ghost use Rattle.markdown_targets.specs.Tags.{is_apart, is_apart_or_closed, is_raw_tag, is_block_tag, without_slash, begins_raw, begins_block};

use crate::finder::bytes::{is_blank, is_blank_text};
use crate::finder::cursor::Cursor;
use crate::finder::tags::{StartTag, begins_with_name, closing_tag_end};

// The names of tags that begin a block which goes on to a closing tag.
const RAW_NAMES: [&[u8]; 4] = [b"pre", b"script", b"style", b"textarea"];

// The closing tags that end such a block.
const RAW_ENDS: [&[u8]; 4] = [b"</pre>", b"</script>", b"</style>", b"</textarea>"];

// The names of tags that begin a block which goes on to a blank line.
const BLOCK_NAMES: [&[u8]; 62] = [
    b"address",
    b"article",
    b"aside",
    b"base",
    b"basefont",
    b"blockquote",
    b"body",
    b"caption",
    b"center",
    b"col",
    b"colgroup",
    b"dd",
    b"details",
    b"dialog",
    b"dir",
    b"div",
    b"dl",
    b"dt",
    b"fieldset",
    b"figcaption",
    b"figure",
    b"footer",
    b"form",
    b"frame",
    b"frameset",
    b"h1",
    b"h2",
    b"h3",
    b"h4",
    b"h5",
    b"h6",
    b"head",
    b"header",
    b"hr",
    b"html",
    b"iframe",
    b"legend",
    b"li",
    b"link",
    b"main",
    b"menu",
    b"menuitem",
    b"nav",
    b"noframes",
    b"ol",
    b"optgroup",
    b"option",
    b"p",
    b"param",
    b"search",
    b"section",
    b"summary",
    b"table",
    b"tbody",
    b"td",
    b"tfoot",
    b"th",
    b"thead",
    b"title",
    b"tr",
    b"track",
    b"ul",
];

// A block in HTML, known by what ends it.
#[derive(Clone, Copy)]
pub(crate) enum HtmlBlock {
    // The closing tag of a script or the like.
    Raw,
    // `-->`
    Comment,
    // `?>`
    Instruction,
    // `>`
    Declaration,
    // `]]>`
    Cdata,
    // A blank line.
    Tags,
}

impl HtmlBlock {
    // Returns the block that a text begins. Within a paragraph, a tag of any name doesn't begin a block.
    pub(crate) fn read(text: &[u8], is_in_paragraph: bool) -> Option<HtmlBlock> {
        let tag = text.strip_prefix(b"<")?;
        if let Some(block) = untagged_block(tag) {
            return Some(block);
        }
        if begins_raw(tag) {
            return Some(HtmlBlock::Raw);
        }
        if begins_block(tag) || (!is_in_paragraph && is_lone_tag(text)) {
            return Some(HtmlBlock::Tags);
        }
        None
    }

    // Returns whether a line ends the block before it. Only a blank line does so.
    pub(crate) fn is_ended_before(self, cursor: Cursor<'_>) -> bool {
        matches!(self, HtmlBlock::Tags) && cursor.is_at_end()
    }

    // Returns whether a line of the block is its last line.
    pub(crate) fn is_ended_by(self, text: &[u8]) -> bool {
        match self {
            HtmlBlock::Raw => RAW_ENDS.iter().any(|end| has_part(text, end)),
            HtmlBlock::Comment => has_part(text, b"-->"),
            HtmlBlock::Instruction => has_part(text, b"?>"),
            HtmlBlock::Declaration => has_part(text, b">"),
            HtmlBlock::Cdata => has_part(text, b"]]>"),
            HtmlBlock::Tags => false,
        }
    }
}

// Returns the block that something else than a tag begins, after its `<`.
fn untagged_block(text: &[u8]) -> Option<HtmlBlock> {
    match text {
        [b'?', ..] => Some(HtmlBlock::Instruction),
        [b'!', b'-', b'-', ..] => Some(HtmlBlock::Comment),
        [b'!', rest @ ..] if rest.starts_with(b"[CDATA[") => Some(HtmlBlock::Cdata),
        [b'!', letter, ..] if letter.is_ascii_alphabetic() => Some(HtmlBlock::Declaration),
        _ => None,
    }
}

// Returns whether a tag begins a block that goes on to a closing tag.
fn begins_raw(tag: &[u8]) -> bool
    ensures { result ≡ begins_raw tag.now }
{
    is_any_raw_tag(tag, &RAW_NAMES)
}

// Returns whether one of these names is that of a tag that begins a block which goes on to a closing tag.
fn is_any_raw_tag(tag: &[u8], names: &[&[u8]]) -> bool
    ensures { result ≡ list_any (λ name. is_raw_tag name.now tag.now) names.now }
{
    names.iter().any(|name| is_raw_tag(tag, name))
}

// Returns whether this name is that of a tag that begins a block which goes on to a closing tag.
fn is_raw_tag(tag: &[u8], name: &[u8]) -> bool
    ensures { result ≡ is_raw_tag name.now tag.now }
{
    match tag.get(name.len()..) {
        Some(rest) => is_apart(rest) && begins_with_name(tag, name),
        None => false,
    }
}

// Returns whether a tag begins a block that goes on to a blank line.
fn begins_block(tag: &[u8]) -> bool
    ensures { result ≡ begins_block tag.now }
{
    is_any_block_tag(without_slash(tag), &BLOCK_NAMES)
}

// Returns a text without the slash with which it begins.
fn without_slash(text: &[u8]) -> &[u8]
    ensures { result.now ≡ without_slash text.now }
{
    match text.strip_prefix(b"/") {
        Some(rest) => rest,
        None => text,
    }
}

// Returns whether one of these names is that of a tag that begins a block which goes on to a blank line.
fn is_any_block_tag(tag: &[u8], names: &[&[u8]]) -> bool
    ensures { result ≡ list_any (λ name. is_block_tag name.now tag.now) names.now }
{
    names.iter().any(|name| is_block_tag(tag, name))
}

// Returns whether this name is that of a tag that begins a block which goes on to a blank line.
fn is_block_tag(tag: &[u8], name: &[u8]) -> bool
    ensures { result ≡ is_block_tag name.now tag.now }
{
    match tag.get(name.len()..) {
        Some(rest) => is_apart_or_closed(rest) && begins_with_name(tag, name),
        None => false,
    }
}

// Returns whether a text is apart from the name before it: a space, a tab or `>` comes first, or the line ends.
fn is_apart(rest: &[u8]) -> bool
    ensures { result ≡ is_apart rest.now }
{
    match rest.first() {
        Some(&byte) => is_blank(byte) || byte == b'>',
        None => true,
    }
}

// Returns whether a text is apart from the name before it, or begins with `/>`.
fn is_apart_or_closed(rest: &[u8]) -> bool
    ensures { result ≡ is_apart_or_closed rest.now }
{
    is_apart(rest) || rest.starts_with(b"/>")
}

// Returns whether a text is a whole tag, and spaces. `<pre/>` and its like are none.
fn is_lone_tag(text: &[u8]) -> bool {
    let end = match StartTag::read(text, 0) {
        Some(tag) if RAW_NAMES.iter().any(|name| tag.is(name)) => None,
        Some(tag) => Some(tag.after),
        None => closing_tag_end(text, 0),
    };
    end.is_some_and(|end| is_blank_text(&text[end..]))
}

// Returns whether a text has a part, in any case.
fn has_part(text: &[u8], part: &[u8]) -> bool {
    text.windows(part.len().max(1))
        .any(|window| window.eq_ignore_ascii_case(part))
}
