//! Hashes of the last names of paths.
ghost use Rattle.std.specs.Prelude.{◌≡◌};
ghost use Rattle.relative_path.specs.RelativePath.{path_components};
ghost use Rattle.relmove_mentions.specs.NameHashes.{hash_of, last_hash, last_three_hash, last_two_hash, next_hash, short_hash, two_hash};
ghost use Rattle.relmove_mentions.specs.Names.{has_steps};

use relative_path::RelativePath;
use relative_path_places::directory;

// Returns the hash of a text with one more byte.
#[inline]
pub(crate) fn hash_with(hash: u64, byte: u8) -> u64
    ensures { result ≡ next_hash hash byte }
{
    hash.wrapping_mul(31).wrapping_add(byte as u64)
}

// Returns the hash of a text.
pub(crate) fn hash_of(text: &[u8]) -> u64
    ensures { result ≡ hash_of text.now }
{
    let mut hash = 0;
    for byte in text {
        hash = hash_with(hash, *byte);
    }
    hash
}

// Returns the hash of a name and the one before it, of which these are the hashes, if there are both.
#[inline]
pub(crate) fn two_hash(before: Option<u64>, name: Option<u64>) -> Option<u64>
    ensures { result ≡ two_hash before name }
{
    let name = name?;
    let before = before?;
    Some(before.wrapping_mul(1_000_003).wrapping_add(name))
}

// Returns the hash of the last name of a path.
pub(crate) fn last_hash(path: RelativePath<'_>) -> Option<u64>
    ensures { result ≡ last_hash (path_components path.entry) }
{
    match path.file_name() {
        Some(name) => Some(hash_of(name.as_bytes())),
        None => None,
    }
}

// Returns the hash of the last two names of a path.
pub(crate) fn last_two_hash(path: RelativePath<'_>) -> Option<u64>
    ensures { result ≡ last_two_hash (path_components path.entry) }
{
    two_hash(last_hash(directory(path)), last_hash(path))
}

// Returns the hash of the last three names of a path.
pub(crate) fn last_three_hash(path: RelativePath<'_>) -> Option<u64>
    ensures { result ≡ last_three_hash (path_components path.entry) }
{
    two_hash(last_hash(directory(directory(path))), last_two_hash(path))
}

// Returns the hash of the name or the two names that a path is, apart from `.` components at its end. `None` if it is another
// path.
pub(crate) fn short_hash(path: RelativePath<'_>) -> Option<u64>
    ensures { result ≡ short_hash (path_components path.entry) }
{
    let above = directory(path);
    if !has_components(above) {
        return last_hash(path);
    }
    if has_components(directory(above)) {
        return None;
    }
    last_two_hash(path)
}

// Returns whether a path has components.
fn has_components(path: RelativePath<'_>) -> bool
    ensures { result ≡ has_steps (path_components path.entry) }
{
    path.components().next().is_some()
}
