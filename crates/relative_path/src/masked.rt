//! A text with a mask of the slashes at its start.
ghost use Rattle.std.specs.Prelude.{◌≡◌, ◌≢◌, ◌≤◌, ◌<◌, ◌-◌, ◌↔◌, IsTrue, ◌*◌, ℕ, List, [], length, drop, slice_index};
ghost use Rattle.std.specs.List.{position_or_len, before_first, after_first};
ghost use Rattle.relative_path.specs.Steps.{slash, is_slash, components};
ghost use Rattle.relative_path.specs.Masked.{KnowsSlashes};

use crate::slashes::{NEAR, far_first_piece_len, slashes_in, without_leading_slashes};

// How many bytes a mask knows at most.
const MASK: usize = NEAR;

// A text, and a bit for each of its first bytes, set if the byte is a slash or the text ends there. The mask knows the
// bytes up to its highest bit.
#[derive(Clone, Copy)]
pub(crate) struct Masked<'a> {
    pub(crate) text: &'a str,
    mask: u64,
    ghost known: { KnowsSlashes mask text.now },
}

impl<'a> Masked<'a> {
    // Returns a text of whose slashes nothing is known.
    #[inline(always)]
    pub(crate) fn new(text: &'a str) -> Masked<'a>
        ensures { result.text.now ≡ text.now }
    {
        Masked { text, mask: 0 }
    }

    // Drops the slashes at the start of the text.
    #[inline(always)]
    pub(crate) fn trim_start(&mut self)
        ensures suffix { self.new.text.now ≡ drop (length self.old.text.now - length self.new.text.now) self.old.text.now }
        ensures start { slice_index self.new.text.now 0 ≢ slash }
        ensures same { components self.new.text.now ≡ components self.old.text.now }
    {
        if starts_with_slash(self.text) {
            self.drop_slash();
            if starts_with_slash(self.text) {
                *self = Masked::new(without_leading_slashes(self.text));
            }
        }
    }

    // Drops the slash that the text begins with.
    #[inline(always)]
    fn drop_slash(&mut self)
        requires { slice_index self.old.text.now 0 ≡ slash }
        ensures rest { self.new.text.now ≡ drop 1 self.old.text.now }
        ensures same { components self.new.text.now ≡ components self.old.text.now }
    {
        *self = Masked {
            text: after_slash(self.text),
            mask: self.mask >> 1,
        };
    }

    // Takes the bytes before the first slash off the text, and that slash.
    #[inline(always)]
    pub(crate) fn take_piece(&mut self) -> &'a str
        requires { self.old.text.now ≢ [] }
        ensures piece { result.now ≡ before_first is_slash self.old.text.now }
        ensures rest { self.new.text.now ≡ after_first is_slash self.old.text.now }
    {
        let text = self.text;
        let (len, mask) = first_slash(text.as_bytes(), self.mask);
        let (piece, rest) = split_at_slash(text, len);
        *self = Masked { text: rest, mask };
        piece
    }
}

// Returns whether the text begins with a slash.
#[inline(always)]
pub(crate) fn starts_with_slash(text: &str) -> bool
    ensures { IsTrue result ↔ (slice_index text.now 0 ≡ slash) }
{
    let bytes = text.as_bytes();
    !bytes.is_empty() && bytes[0] == b'/'
}

// Drops the slash that the text begins with.
#[inline(always)]
#[tactic(auto, using(crate::proofs::MaskedLemmas::IsCharBoundary_after_slash, crate::proofs::MaskedLemmas::some_from_slash))]
pub(crate) fn after_slash(text: &str) -> &str
    requires { slice_index text.now 0 ≡ slash }
    ensures { result.now ≡ drop 1 text.now }
{
    &text[1..]
}

// Finds the first slash by a mask, or by a new one if nothing is known. Returns the number of bytes before it, and what
// is known of the bytes after it.
#[inline(always)]
fn first_slash(bytes: &[u8], mask: u64) -> (usize, u64)
    requires some { bytes.now ≢ [] }
    requires known { KnowsSlashes mask bytes.now }
    ensures len { result.0 ≡ position_or_len is_slash bytes.now }
    ensures known { KnowsSlashes result.1 (after_first is_slash bytes.now) }
{
    if mask != 0 {
        return first_of_mask(mask);
    }
    let mask = mask_of(bytes);
    if mask != 0 {
        return first_of_mask(mask);
    }
    (far_first_piece_len(bytes), 0)
}

// Returns the number of bytes before the first slash of a mask, and what the mask knows of the bytes after it.
#[inline(always)]
fn first_of_mask(mask: u64) -> (usize, u64)
    requires { mask ≢ 0 }
    ensures { (text : List ℕ) → KnowsSlashes mask text → (result.0 ≡ position_or_len is_slash text)
        × KnowsSlashes result.1 (after_first is_slash text) }
{
    let len = mask.trailing_zeros();
    (len as usize, mask >> len >> 1)
}

// Returns the bytes before the first slash, whose index is given, and the bytes after it.
#[inline(always)]
#[tactic(auto, using(crate::proofs::SlashesLemmas::position_le, crate::proofs::SlashesLemmas::IsCharBoundary_first, crate::proofs::SlashesLemmas::IsCharBoundary_after_first))]
fn split_at_slash(text: &str, len: usize) -> (&str, &str)
    requires { len ≡ position_or_len is_slash text.now }
    ensures piece { result.0.now ≡ before_first is_slash text.now }
    ensures rest { result.1.now ≡ after_first is_slash text.now }
{
    let next = (len + 1).min(text.len());
    (&text[..len], &text[next..])
}

// Returns a mask of the text's first bytes. It is 0 only if they have no slash, and there are many.
#[inline(always)]
fn mask_of(bytes: &[u8]) -> u64
    requires { bytes.now ≢ [] }
    ensures known { KnowsSlashes result bytes.now }
    ensures far { result ≡ 0 → (NEAR ≤ length bytes.now) × (NEAR ≤ position_or_len is_slash bytes.now) }
{
    if bytes.len() >= MASK {
        slashes_in::<MASK>(bytes, 0)
    } else if bytes.len() >= 32 {
        mask_of_whole::<32>(bytes)
    } else if bytes.len() >= 16 {
        mask_of_whole::<16>(bytes)
    } else if bytes.len() >= 8 {
        mask_of_whole::<8>(bytes)
    } else if bytes.len() >= 4 {
        mask_of_whole::<4>(bytes)
    } else if bytes.len() >= 2 {
        mask_of_whole::<2>(bytes)
    } else {
        mask_of_whole::<1>(bytes)
    }
}

// Returns the mask of a whole text of N to 2 N bytes, and of its end.
#[inline(always)]
fn mask_of_whole<const N: usize>(bytes: &[u8]) -> u64
    requires few { length bytes.now < 64 }
    requires least { N ≤ length bytes.now }
    requires most { length bytes.now ≤ 2 * N }
    ensures known { KnowsSlashes result bytes.now }
    ensures some { result ≢ 0 }
{
    let last = bytes.len() - N;
    slashes_in::<N>(bytes, 0) | slashes_in::<N>(bytes, last) << last | 1 << bytes.len()
}
