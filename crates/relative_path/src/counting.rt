//! How many components a text has.
ghost use Rattle.std.specs.Prelude.{◌≡◌, ◌≤◌, ◌<◌, ◌+◌, ◌-◌, length};
ghost use Rattle.relative_path.specs.Counting.{starts_from};
ghost use Rattle.relative_path.specs.Steps.{components};

use crate::slashes::{BLOCK, slashes_in};

// Counts the components of a text by their starts. A component begins at a non-slash byte that is first or follows a
// slash.
pub(crate) fn component_count(text: &str) -> usize
    ensures count { result ≡ length (components text.now) }
    ensures bound { result ≤ length text.now }
{
    let bytes = text.as_bytes();
    let Some(first) = bytes.first() else {
        return 0;
    };
    let begun = if bytes.len() > BLOCK {
        starts_by_blocks(bytes)
    } else {
        starts_by_byte(bytes)
    };
    begun + usize::from(*first != b'/')
}

// Counts the components that begin after the first byte, block by block. The last block may overlap the block before.
fn starts_by_blocks(bytes: &[u8]) -> usize
    requires { BLOCK < length bytes.now }
    ensures count { result ≡ starts_from bytes.now 1 }
    ensures bound { result < length bytes.now }
{
    let last = bytes.len() - BLOCK;
    let mut count = 0;
    let mut at = 1;
    while at < last {
        count += starts_in_block(bytes, at, 0);
        at += BLOCK;
    }
    count + starts_in_block(bytes, last, at - last)
}

// Counts the components that begin in a block after its first `skipped` bytes.
#[inline(always)]
fn starts_in_block(bytes: &[u8], start: usize, skipped: usize) -> usize
    requires start { 0 < start }
    requires block { start + BLOCK ≤ length bytes.now }
    requires skipped { skipped < BLOCK }
    ensures count { result + starts_from bytes.now (start + BLOCK) ≡ starts_from bytes.now (start + skipped) }
    ensures bound { result ≤ BLOCK - skipped }
{
    let begun = slashes_in::<BLOCK>(bytes, start - 1) & !slashes_in::<BLOCK>(bytes, start);
    (begun >> skipped).count_ones() as usize
}

// Counts the components that begin after the first byte, byte by byte.
fn starts_by_byte(bytes: &[u8]) -> usize
    requires { 0 < length bytes.now }
    ensures count { result ≡ starts_from bytes.now 1 }
    ensures bound { result < length bytes.now }
{
    let mut count = 0;
    for at in 1..bytes.len() {
        count += usize::from((bytes[at] != b'/') & (bytes[at - 1] == b'/'));
    }
    count
}
