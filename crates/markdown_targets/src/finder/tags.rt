//! Tags in HTML, with the attributes that link.
ghost use Rattle.std.specs.Prelude.{◌≡◌, ◌≤◌, ◌<◌, ◌&&◌, length, slice_index, IfSome};
ghost use Rattle.markdown_targets.specs.Classes.{is_of_tag, begins_attribute, is_of_attribute, is_of_value};
ghost use Rattle.markdown_targets.specs.Offsets.{Skips, Advances};
ghost use Rattle.markdown_targets.specs.Tags.{begins_with_name, ends_name, closes};

use crate::finder::bytes::{is_space, run_end, skip_byte, skip_spaces};
use crate::span::PageSpan;
use crate::target::Quote;

// The names of elements whose content is text without tags.
const TEXT_ELEMENTS: [&[u8]; 4] = [b"script", b"style", b"textarea", b"title"];

const FORM_FEED: u8 = b'\x0C';

// The value of an attribute.
#[derive(Clone, Copy)]
pub(crate) struct Value {
    // What ends it.
    pub(crate) quote: Quote,
    // The span of the value, without its quotes.
    pub(crate) span: PageSpan,
    // The offset after it and its quotes.
    after: usize,
}

// An attribute, and the offset after it.
#[derive(Clone, Copy)]
struct Attribute<'a> {
    name: &'a [u8],
    value: Option<Value>,
    after: usize,
}

// The first attributes `href` and `src` of a tag. One that is there may have no value.
#[derive(Clone, Copy)]
struct Links {
    href: Option<Option<Value>>,
    src: Option<Option<Value>>,
}

// A start tag, and the offset after it.
#[derive(Clone, Copy)]
pub(crate) struct StartTag<'a> {
    name: &'a [u8],
    links: Links,
    pub(crate) after: usize,
}

impl Links {
    // Returns these attributes and another attribute.
    fn with(self, attribute: Attribute<'_>) -> Links {
        let mut links = self;
        if links.href.is_none() && attribute.name.eq_ignore_ascii_case(b"href") {
            links.href = Some(attribute.value);
        }
        if links.src.is_none() && attribute.name.eq_ignore_ascii_case(b"src") {
            links.src = Some(attribute.value);
        }
        links
    }
}

impl<'a> StartTag<'a> {
    // Returns the start tag at an offset.
    pub(crate) fn read(text: &'a [u8], start: usize) -> Option<StartTag<'a>>
        ensures { IfSome result (λ tag. Advances text.now start tag.after) }
    {
        let name_start = skip_byte(text, start, b'<')?;
        let name_end = tag_name_end(text, name_start)?;
        let mut links = Links {
            href: None,
            src: None,
        };
        let mut k = name_end;
        while let Some(attribute) = Attribute::read(text, k) {
            links = links.with(attribute);
            k = attribute.after;
        }
        let slash = skip_spaces(text, k);
        let after = skip_byte(text, skip_byte(text, slash, b'/').unwrap_or(slash), b'>')?;
        Some(StartTag {
            name: &text[name_start..name_end],
            links,
            after,
        })
    }

    // Returns whether the tag has this name, in any case.
    pub(crate) fn is(self, name: &[u8]) -> bool {
        self.name.eq_ignore_ascii_case(name)
    }

    // Returns the value of its first `href`.
    pub(crate) fn href(self) -> Option<Value> {
        self.links.href?
    }

    // Returns the values of its first `href` and its first `src`, in the order of the page.
    pub(crate) fn values(self) -> [Option<Value>; 2] {
        let href = self.links.href.flatten();
        let src = self.links.src.flatten();
        match (href, src) {
            (Some(first), Some(second)) if second.span.start < first.span.start => [src, href],
            _ => [href, src],
        }
    }

    // Returns the end of the tag's element if its content is text, or else the offset after the tag.
    pub(crate) fn content_end(self, text: &[u8], after: usize) -> usize
        requires { after ≤ length text.now }
        ensures { Skips text.now after result }
    {
        if !TEXT_ELEMENTS.iter().any(|name| self.is(name)) {
            return after;
        }
        for k in after..text.len() {
            if closes(&text[k..], self.name) {
                return k;
            }
        }
        text.len()
    }
}

// Returns the values of the first `id` and the first `name` of the start tag at an offset.
pub(crate) fn names_of_tag(text: &[u8], start: usize) -> [Option<Value>; 2] {
    let mut names = [None, None];
    let Some(mut k) = tag_front_end(text, start) else {
        return names;
    };
    while let Some(attribute) = Attribute::read(text, k) {
        if names[0].is_none() && attribute.name.eq_ignore_ascii_case(b"id") {
            names[0] = attribute.value;
        }
        if names[1].is_none() && attribute.name.eq_ignore_ascii_case(b"name") {
            names[1] = attribute.value;
        }
        k = attribute.after;
    }
    names
}

// Returns the end of the angle and the name of the start tag at an offset.
fn tag_front_end(text: &[u8], start: usize) -> Option<usize>
    ensures { IfSome result (λ end. Advances text.now start end) }
{
    tag_name_end(text, skip_byte(text, start, b'<')?)
}

impl<'a> Attribute<'a> {
    // Returns the attribute at an offset, which begins with spaces.
    fn read(text: &'a [u8], start: usize) -> Option<Attribute<'a>>
        requires { start ≤ length text.now }
        ensures { IfSome result (λ attribute. Advances text.now start attribute.after) }
    {
        let name = skip_spaces(text, start);
        let end = run_end(text, name, is_of_attribute);
        if name == start || end == name || !begins_attribute(text[name]) {
            return None;
        }
        let value = read_value(text, end);
        let after = match value {
            Some(value) => value.after,
            None => end,
        };
        Some(Attribute {
            name: &text[name..end],
            value,
            after,
        })
    }
}

// Returns the value after the name of an attribute that ends at an offset.
fn read_value(text: &[u8], name_end: usize) -> Option<Value>
    requires { name_end ≤ length text.now }
    ensures { IfSome result (λ value. Advances text.now name_end value.after) }
{
    let equals = skip_spaces(text, name_end);
    let start = skip_spaces(text, skip_byte(text, equals, b'=')?);
    let byte = *text.get(start)?;
    let quote = match byte {
        b'"' => Quote::Double,
        b'\'' => Quote::Single,
        _ => return read_unquoted_value(text, start),
    };
    let start = start + 1;
    let end = run_end(text, start, |other| other != byte);
    let after = skip_byte(text, end, byte)?;
    let span = PageSpan { start, end };
    Some(Value { quote, span, after })
}

// Returns the value without quotes at an offset.
fn read_unquoted_value(text: &[u8], start: usize) -> Option<Value>
    requires { start ≤ length text.now }
    ensures { IfSome result (λ value. Advances text.now start value.after) }
{
    let after = run_end(text, start, is_of_value);
    if after == start {
        return None;
    }
    // CommonMark takes a form feed for a part of the value, and a browser takes it for a space.
    let start = run_end(text, start, |byte| byte == FORM_FEED);
    let end = run_end(text, start, |byte| is_of_value(byte) && byte != FORM_FEED);
    let span = PageSpan { start, end };
    Some(Value {
        quote: Quote::Unquoted,
        span,
        after,
    })
}

// Returns the end of the closing tag at an offset.
pub(crate) fn closing_tag_end(text: &[u8], start: usize) -> Option<usize>
    ensures { IfSome result (λ end. Advances text.now start end) }
{
    let slash = skip_byte(text, start, b'<')?;
    let name_end = tag_name_end(text, skip_byte(text, slash, b'/')?)?;
    skip_byte(text, skip_spaces(text, name_end), b'>')
}

// Returns whether the content of an element, which has no tags, ends where a text begins. A browser reads no `>` for
// that.
fn closes(text: &[u8], name: &[u8]) -> bool
    ensures { result ≡ closes name.now text.now }
{
    match text.strip_prefix(b"</") {
        Some(tag) => has_ended_name(tag, name),
        None => false,
    }
}

// Returns whether a text begins with a name, in any case, and a byte that ends it.
fn has_ended_name(tag: &[u8], name: &[u8]) -> bool
    ensures { result ≡ (ends_name (slice_index tag.now (length name.now)) && begins_with_name name.now tag.now) }
{
    match tag.get(name.len()) {
        Some(&byte) => ends_name(byte) && begins_with_name(tag, name),
        None => false,
    }
}

// Returns whether a text begins with a name, in any case.
pub(crate) fn begins_with_name(text: &[u8], name: &[u8]) -> bool
    ensures { result ≡ begins_with_name name.now text.now }
{
    match text.get(..name.len()) {
        Some(front) => front.eq_ignore_ascii_case(name),
        None => false,
    }
}

// Returns whether a byte ends the name of a closing tag.
fn ends_name(byte: u8) -> bool
    ensures { result ≡ ends_name byte }
{
    is_space(byte) || matches!(byte, FORM_FEED | b'/' | b'>')
}

// Returns the end of the name of a tag at an offset.
fn tag_name_end(text: &[u8], start: usize) -> Option<usize>
    requires { start ≤ length text.now }
    ensures { IfSome result (λ end. Advances text.now start end) }
{
    let end = run_end(text, start, is_of_tag);
    if end > start && text[start].is_ascii_alphabetic() {
        Some(end)
    } else {
        None
    }
}

// Returns whether the name of a tag may have a byte.
fn is_of_tag(byte: u8) -> bool
    ensures { result ≡ is_of_tag byte }
{
    byte.is_ascii_alphanumeric() || byte == b'-'
}

// Returns whether a byte may begin the name of an attribute.
fn begins_attribute(byte: u8) -> bool
    ensures { result ≡ begins_attribute byte }
{
    byte.is_ascii_alphabetic() || byte == b'_' || byte == b':'
}

// Returns whether the name of an attribute may have a byte.
fn is_of_attribute(byte: u8) -> bool
    ensures { result ≡ is_of_attribute byte }
{
    begins_attribute(byte) || byte.is_ascii_digit() || byte == b'.' || byte == b'-'
}

// Returns whether a value without quotes may have a byte.
fn is_of_value(byte: u8) -> bool
    ensures { result ≡ is_of_value byte }
{
    !is_space(byte) && !matches!(byte, b'"' | b'\'' | b'=' | b'<' | b'>' | b'`')
}
