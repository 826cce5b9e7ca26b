//! Names that every platform reads alike.
ghost use Rattle.std.specs.Prelude.{◌≡◌, ◌<◌, ◌+◌, ◌==◌, ◌↔◌, drop, length, IsTrue};
ghost use Rattle.std.specs.Char.{is_ascii_digit};
ghost use Rattle.std.specs.List.{All, before_first, list_all, list_any, suffix_len};
ghost use Rattle.std.specs.Str.{str_eq_ignore_ascii_case};
ghost use Rattle.relative_path.specs.Components.{step_of};
ghost use Rattle.relative_path.specs.RelativePath.{path_components};
ghost use Rattle.relative_path_files.specs.Win32.{is_space, is_cut, is_reserved};
ghost use Rattle.relative_path_files.specs.Names.{ends_in_number, is_device, is_like_short_name, names_device, IfName, IsPlainName};
ghost use Rattle.relative_path_files.specs.NameTests.{begins_as_device, ends_in_dot_or_space, holds_foreign, is_device_letter, is_unportable, is_unportable_step};

use relative_path::{Component, RelativePath};

// The devices of Windows without a number, and its ports, as Microsoft's documents list them.
const DEVICES: [&str; 6] = ["CON", "PRN", "AUX", "NUL", "CONIN$", "CONOUT$"];

const SERIAL_PORTS: [&str; 13] = [
    "COM0", "COM1", "COM2", "COM3", "COM4", "COM5", "COM6", "COM7", "COM8", "COM9", "COM¹", "COM²",
    "COM³",
];

const PARALLEL_PORTS: [&str; 13] = [
    "LPT0", "LPT1", "LPT2", "LPT3", "LPT4", "LPT5", "LPT6", "LPT7", "LPT8", "LPT9", "LPT¹", "LPT²",
    "LPT³",
];

// The name below which Apple's systems keep the forks of a file.
const FORKS: [&str; 1] = ["..namedfork"];

/// Whether every platform reads a name as it is. Such a name is *plain*.
///
/// - Windows and Unix read a plain name as this one name: it isn't empty, it isn't `.` or `..`, it has no
///   byte below 32 and none of `"*/:<>?\|`, and it doesn't end in a dot or a space.
/// - It has no byte 127.
/// - It isn't the name of a device of Windows, and doesn't begin with one and a dot, with or without spaces
///   before the dot. The devices are `CON`, `PRN`, `AUX`, `NUL`, `CONIN$`, `CONOUT$`, and `COM` or `LPT` with
///   a digit or with `¹`, `²` or `³`, in upper or lower case.
/// - It isn't `..namedfork`, in upper or lower case: below this name Apple's systems keep the forks of a
///   file.
///
/// What Windows reads is a model from Microsoft's pages "Naming Files, Paths, and Namespaces" and "File path
/// formats on Windows systems". The devices and `..namedfork` are lists.
///
/// Two plain names can still be one file. macOS and Windows ignore upper and lower case. macOS takes two
/// Unicode normal forms of a text for one. HFS+, an older file system of macOS, also leaves out some code
/// points, such as U+200C and U+200D, which are common in Persian, in Indic scripts and in emoji. Windows may
/// take a name for a short one: see [`may_be_short_name`].
///
/// Allocates nothing.
///
/// ```
/// assert!(rt; is_plain_name("a b.html"));
/// assert!(rt; !is_plain_name("a?b"));
/// assert!(rt; !is_plain_name("a."));
/// assert!(rt; !is_plain_name("con.txt"));
/// ```
pub fn is_plain_name(name: &str) -> bool
    // whether the name is plain
    ensures plain { IsTrue result ↔ IsPlainName name.now }
{
    !is_unportable(name)
}

/// Whether each name among a path's components is plain, as [`is_plain_name`] says. The components `.` and
/// `..` aren't names.
///
/// Allocates nothing.
///
/// ```
/// assert!(rt; has_plain_names(RelativePath::new("../a/./b.html")));
/// assert!(rt; !has_plain_names(RelativePath::new("a/nul/b")));
/// ```
pub fn has_plain_names(path: RelativePath<'_>) -> bool
    // whether each name of the path is plain
    ensures plain { IsTrue result ↔ All (IfName IsPlainName) (path_components path.entry) }
{
    !has_unportable_name(path)
}

/// Whether Windows may take a name for the short name of another file: at most eight bytes before the first
/// dot, the last of them `~` and digits, and at most three bytes after the dot.
///
/// On a disk that keeps short names, `PROGRA~1` opens `Program Files`. So a caller that checks names, such as
/// one that hides files, may ask this too. A plain name may be such a name.
///
/// Allocates nothing.
///
/// ```
/// assert!(rt; may_be_short_name("PROGRA~1"));
/// assert!(rt; may_be_short_name("a~12.htm"));
/// assert!(rt; !may_be_short_name("a~12.html"));
/// assert!(rt; !may_be_short_name("a~b"));
/// ```
pub fn may_be_short_name(name: &str) -> bool
    // whether it looks like a short name, such as `PROGRA~1`
    ensures short { result ≡ is_like_short_name name.now }
{
    let stem = before(name, '.');
    ends_in_number(stem) && stem.len() <= 8 && name.len() <= stem.len() + 4
}

// Returns whether a text ends in `~` and at least one digit.
fn ends_in_number(text: &str) -> bool
    ensures { result ≡ ends_in_number text.now }
{
    let front = without_digits(text.as_bytes());
    front < text.len() && front > 0 && text.as_bytes()[front - 1] == b'~'
}

// Returns how many bytes come before the digits at the end of a text.
fn without_digits(text: &[u8]) -> usize
    ensures { result + suffix_len is_ascii_digit text.now ≡ length text.now }
{
    let mut count = text.len();
    while count > 0 && text[count - 1].is_ascii_digit() {
        count -= 1;
    }
    count
}

// Returns whether a text is one of these names, in any case.
fn is_one_of(names: &[&str], text: &str) -> bool
    ensures { result ≡ list_any (λ name. str_eq_ignore_ascii_case name.now text.now) names.now }
{
    names.iter().any(|name| name.eq_ignore_ascii_case(text))
}

// Returns whether a text is the name of a device or a port of Windows, in any case.
fn is_device(text: &str) -> bool
    ensures { result ≡ is_device text.now }
{
    is_one_of(&DEVICES, text) || is_one_of(&SERIAL_PORTS, text) || is_one_of(&PARALLEL_PORTS, text)
}

// Returns whether a name is that of a device, alone or before a dot, perhaps with spaces between.
fn names_device(name: &str) -> bool
    ensures { result ≡ names_device name.now }
{
    if !begins_as_device(name) {
        return false;
    }
    let stem = before(name, '.');
    let word = before(stem, ' ');
    is_device(word) && is_blank_after(stem, word.len())
}

// Returns whether a name begins with the letter of a device, in any case.
fn begins_as_device(name: &str) -> bool
    ensures { result ≡ begins_as_device name.now }
{
    match name.as_bytes() {
        [first, ..] => is_device_letter(first.to_ascii_lowercase()),
        [] => false,
    }
}

// Returns whether the name of a device begins with a byte, in lower case.
fn is_device_letter(byte: u8) -> bool
    ensures { result ≡ is_device_letter byte }
{
    matches!(byte, b'a' | b'c' | b'l' | b'n' | b'p')
}

// Returns whether a byte is one that no name of Windows has.
fn is_reserved(b: u8) -> bool
    ensures { result ≡ is_reserved b }
{
    b < 32 || b == b'<' || b == b'>' || b == b'"' || b == b'|' || b == b'?' || b == b'*'
}

// Returns whether Windows or Unix cuts at a byte.
fn is_cut(b: u8) -> bool
    ensures { result ≡ is_cut b }
{
    b == b'\\' || b == b'/' || b == b':'
}

// Returns whether a name has a byte that no plain name has.
fn holds_foreign(name: &str) -> bool
    ensures { result ≡ holds_foreign name.now }
{
    name.bytes()
        .any(|b| is_reserved(b) || is_cut(b) || b == 127)
}

// Returns whether a name ends in a dot or a space, which Windows drops.
fn ends_in_dot_or_space(name: &str) -> bool
    ensures { result ≡ ends_in_dot_or_space name.now }
{
    name.bytes().last().is_some_and(|b| b == b'.' || b == b' ')
}

// Returns the text before the first `mark`, or all of it.
fn before(text: &str, mark: char) -> &str
    requires { mark < 128 }
    ensures { result.now ≡ before_first (λ b. b == mark) text.now }
{
    text.split_once(mark).map_or(text, |(before, _)| before)
}

// Returns whether a text has only spaces after its first `count` bytes.
fn is_blank_after(text: &str, count: usize) -> bool
    ensures { result ≡ list_all is_space (drop count text.now) }
{
    text.bytes().skip(count).all(|b| b == b' ')
}

// Returns whether a name isn't plain.
fn is_unportable(name: &str) -> bool
    ensures { result ≡ is_unportable name.now }
{
    name.is_empty()
        || holds_foreign(name)
        || ends_in_dot_or_space(name)
        || names_device(name)
        || is_one_of(&FORKS, name)
}

// Returns whether a component is a name that isn't plain.
fn is_unportable_step(component: Component<'_>) -> bool
    ensures { result ≡ is_unportable_step (step_of component.entry) }
{
    match component {
        Component::Normal(name) => is_unportable(name),
        Component::CurDir | Component::ParentDir => false,
    }
}

// Returns whether one of a path's components is a name that isn't plain.
fn has_unportable_name(path: RelativePath<'_>) -> bool
    ensures { result ≡ list_any is_unportable_step (path_components path.entry) }
{
    for component in path.components() {
        if is_unportable_step(component) {
            return true;
        }
    }
    false
}
