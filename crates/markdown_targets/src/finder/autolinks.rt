//! Autolinks: URIs and e-mail addresses in angles.
ghost use Rattle.std.specs.Prelude.{◌≡◌, ◌≤◌, length, IfSome};
ghost use Rattle.markdown_targets.specs.Classes.{is_of_scheme, is_of_domain};
ghost use Rattle.markdown_targets.specs.Destinations.{is_of_uri};
ghost use Rattle.markdown_targets.specs.Offsets.{Advances};

use crate::finder::bytes::{is_space_or_control, run_end, skip_byte};

// How long a scheme may be.
const LONGEST_SCHEME: usize = 32;

// How long a name of a domain may be, between two dots.
const LONGEST_NAME: usize = 63;

// Returns the end of the autolink at an offset, where an angle opens.
pub(crate) fn autolink_end(text: &[u8], start: usize) -> Option<usize>
    ensures { IfSome result (λ end. Advances text.now start end) }
{
    let inside = skip_byte(text, start, b'<')?;
    uri_end(text, inside).or_else(|| address_end(text, inside))
}

// Returns the end of the URI at an offset and of its angle.
fn uri_end(text: &[u8], start: usize) -> Option<usize>
    requires { start ≤ length text.now }
    ensures { IfSome result (λ end. Advances text.now start end) }
{
    if !text.get(start)?.is_ascii_alphabetic() {
        return None;
    }
    let colon = run_end(text, start, is_of_scheme);
    let length = colon - start;
    if length < 2 || length > LONGEST_SCHEME {
        return None;
    }
    let rest = skip_byte(text, colon, b':')?;
    skip_byte(text, run_end(text, rest, is_of_uri), b'>')
}

// Returns the end of the e-mail address at an offset and of its angle.
fn address_end(text: &[u8], start: usize) -> Option<usize>
    requires { start ≤ length text.now }
    ensures { IfSome result (λ end. Advances text.now start end) }
{
    let at_sign = run_end(text, start, is_of_local_part);
    if at_sign == start {
        return None;
    }
    let domain = skip_byte(text, at_sign, b'@')?;
    let end = run_end(text, domain, is_of_domain);
    if !is_domain(&text[domain..end]) {
        return None;
    }
    skip_byte(text, end, b'>')
}

// Returns whether each part between the dots of a domain is the name of a host.
fn is_domain(domain: &[u8]) -> bool {
    domain.split(|byte| *byte == b'.').all(is_domain_name)
}

// Returns whether a name of a domain is of a fit length, and has its dashes inside.
fn is_domain_name(name: &[u8]) -> bool {
    let has_ends = name
        .first()
        .is_some_and(|byte| byte.is_ascii_alphanumeric())
        && name.last().is_some_and(|byte| byte.is_ascii_alphanumeric());
    has_ends && name.len() <= LONGEST_NAME
}

// Returns whether a scheme may have a byte.
fn is_of_scheme(byte: u8) -> bool
    ensures { result ≡ is_of_scheme byte }
{
    byte.is_ascii_alphanumeric() || byte == b'+' || byte == b'.' || byte == b'-'
}

// Returns whether a URI may have a byte.
fn is_of_uri(byte: u8) -> bool
    ensures { result ≡ is_of_uri byte }
{
    !is_space_or_control(byte) && byte != b'<' && byte != b'>'
}

// Returns whether an address may have a byte before its `@`.
fn is_of_local_part(byte: u8) -> bool {
    byte.is_ascii_alphanumeric() || b".!#$%&'*+/=?^_`{|}~-".contains(&byte)
}

// Returns whether a domain may have a byte.
fn is_of_domain(byte: u8) -> bool
    ensures { result ≡ is_of_domain byte }
{
    byte.is_ascii_alphanumeric() || byte == b'.' || byte == b'-'
}
