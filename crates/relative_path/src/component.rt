//! The components of a relative path, and the iterators over them.
ghost use Rattle.std.specs.Prelude.{◌≡◌, ◌≢◌, ◌↔◌, [], ◌∷◌, ⊤, IsTrue};
ghost use Rattle.std.specs.Iterator.{item_count};
ghost use Rattle.relative_path.specs.Steps.{classed, components, step_text};
ghost use Rattle.relative_path.specs.Components.{step_of, text_left, components_left, iter_text_left, texts_left, TakesFirst, TakesFirstText, TakesLast, TakesLastText};
ghost use Rattle.relative_path.specs.Comparing.{step_rank, step_eq, step_cmp, steps_eq, steps_cmp, fed};
ghost use Rattle.relative_path.specs.ComparingLaws.{partial_eq_law, partial_ord_law, by_component, by_components, component_fed_alike};
ghost use Rattle.std.specs.Ordering.{on, as_partial_cmp};
ghost use Rattle.std.proofs.Common.{refl};

use crate::masked::Masked;
use crate::slashes::{split_last, without_trailing_slashes};
use std::alloc::AllocError;
use std::cmp::Ordering;
use std::hash::{Hash, Hasher};

/// One component of a relative path. It is `Copy`, and no call on it allocates.
///
/// ```
/// let mut components = RelativePath::new("./foo/..").components();
/// assert_eq!(rt; components.next(), Some(Component::CurDir));
/// assert_eq!(rt; components.next(), Some(Component::Normal("foo")));
/// assert_eq!(rt; components.next(), Some(Component::ParentDir));
/// ```
#[derive(Clone, Copy, Debug)]
pub enum Component<'a> {
    /// `.`
    CurDir,
    /// `..`
    ParentDir,
    /// A name: any other bytes between slashes.
    Normal(&'a str),
}

impl<'a> Component<'a> {
    /// Returns the component's text: `.`, `..` or the name.
    ///
    /// ```
    /// assert_eq!(rt; Component::ParentDir.as_str(), "..");
    /// ```
    pub fn as_str(self) -> &'a str
        ensures { result.now ≡ step_text (step_of self.entry) }
    {
        match self {
            Component::CurDir => ".",
            Component::ParentDir => "..",
            Component::Normal(name) => name,
        }
    }

    // The rank in the order: `.` comes first, then `..`, then names.
    fn rank(self) -> u8
        ensures { result ≡ step_rank (step_of self.entry) }
    {
        match self {
            Component::CurDir => 0,
            Component::ParentDir => 1,
            Component::Normal(_) => 2,
        }
    }
}

impl PartialEq for Component<'_> {
    // components are compared by kind and text
    ghost eq = { on step_of step_eq };

    ghost laws = { partial_eq_law (by_component step_of) };

    fn eq(&self, other: &Self) -> bool
        // the answer of `eq`
        ensures value { result ≡ step_eq (step_of self.now) (step_of other.now) }
        // whether the components are equal
        ensures same { IsTrue result ↔ (step_of self.now ≡ step_of other.now) }
    {
        match (self, other) {
            (Component::Normal(name), Component::Normal(other)) => name == other,
            _ => self.rank() == other.rank(),
        }
    }
}

impl Eq for Component<'_> {
    ghost laws = { (by_component step_of).equivalence };
}

impl PartialOrd for Component<'_> {
    // always an order, that of `cmp`
    ghost partial_cmp = { as_partial_cmp (on step_of step_cmp) };

    ghost laws = { partial_ord_law (by_component step_of) };

    fn partial_cmp(&self, other: &Self) -> Option<Ordering> {
        Some(self.cmp(other))
    }
}

impl Ord for Component<'_> {
    // by the first difference: `.`, `..`, then names by bytes
    ghost cmp = { on step_of step_cmp };

    ghost total = { (by_component step_of).total };

    ghost matches_partial_cmp = { λ _ _. refl };

    ghost matches_eq = { (by_component step_of).agree };

    fn cmp(&self, other: &Self) -> Ordering {
        match (self, other) {
            (Component::Normal(name), Component::Normal(other)) => name.cmp(other),
            _ => self.rank().cmp(&other.rank()),
        }
    }
}

impl Hash for Component<'_> {
    // each component's text, and a slash after it
    ghost hash_input = { λ c. fed (step_of c ∷ []) };

    ghost respects_eq = { component_fed_alike step_of step_of };

    fn hash<H: Hasher>(&self, state: &mut H) {
        // One call of `write`, in a loop: LLVM inlines a hasher only if the program calls it in one place.
        for bytes in [self.as_str().as_bytes(), b"/"] {
            state.write(bytes);
        }
    }
}

/// An iterator over the components of a relative path, from either end. No call on it allocates.
///
/// Two of these iterators are equal if the components left in them are equal.
///
/// ```
/// let mut components = RelativePath::new("/a/./b/").components();
/// assert_eq!(rt; components.next(), Some(Component::Normal("a")));
/// assert_eq!(rt; components.next_back(), Some(Component::Normal("b")));
/// assert_eq!(rt; components.as_relative_path().as_str(), ".");
/// ```
#[derive(Drop)]
pub struct Components<'a> {
    left: Masked<'a>,
}

impl<'a> Components<'a> {
    // Returns the iterator over a whole text.
    pub(crate) fn new(text: &'a str) -> Components<'a>
        ensures { text_left result ≡ text.now }
    {
        Components {
            left: Masked::new(text),
        }
    }

    // Returns the iterator over a text, with what is known of its slashes.
    #[inline(always)]
    pub(crate) fn of(left: Masked<'a>) -> Components<'a>
        ensures { text_left result ≡ left.entry.text.now }
    {
        Components { left }
    }

    // Returns the text that is left, with what is known of its slashes.
    #[inline(always)]
    pub(crate) fn left(&self) -> Masked<'a>
        ensures { result.text.now ≡ text_left self.now }
    {
        self.left
    }

    // Returns the text that is left.
    pub(crate) fn as_str(&self) -> &'a str
        ensures { result.now ≡ text_left self.now }
    {
        self.left.text
    }
}

impl Clone for Components<'_> {
    // a clone has the same text left
    ghost is_clone = { λ it copy. text_left copy ≡ text_left it };

    // a clone never fails
    ghost is_infallible = { λ _. ⊤ };

    fn clone(&self) -> Result<Self, AllocError> {
        Ok(Components { left: self.left })
    }
}

impl PartialEq for Components<'_> {
    // components are compared by kind and text
    ghost eq = { on components_left steps_eq };

    ghost laws = { partial_eq_law (by_components components_left) };

    fn eq(&self, other: &Self) -> bool
        // the answer of `eq`
        ensures value { result ≡ steps_eq (components_left self.now) (components_left other.now) }
        // whether the components are equal
        ensures same { IsTrue result ↔ (components_left self.now ≡ components_left other.now) }
    {
        compare(self.left.text, other.left.text).is_eq()
    }
}

impl<'a> Iterator for Components<'a> {
    type Item = Component<'a>;

    // the first component, if any, leaving what follows its slashes
    ghost next_gives = { λ s taken t. TakesFirst (text_left s) taken (text_left t) };

    // no more items than components left
    ghost remaining = { item_count components_left };

    /// Takes the first component off the text that is left.
    #[inline(always)]
    fn next(&mut self) -> Option<Component<'a>> {
        self.left.trim_start();
        if self.left.text.is_empty() {
            return None;
        }
        let piece = self.left.take_piece();
        self.left.trim_start();
        Some(component_of(piece))
    }
}

impl<'a> DoubleEndedIterator for Components<'a> {
    // the last component, if any, leaving the shortest prefix with the others
    ghost next_back_gives = { λ s taken t. TakesLast (text_left s) taken (text_left t) };

    /// Takes the last component off the text that is left.
    #[inline(always)]
    fn next_back(&mut self) -> Option<Component<'a>> {
        let text = without_trailing_slashes(self.left.text);
        if text.is_empty() {
            self.left = Masked::new(text);
            return None;
        }
        let (front, piece) = split_last(text);
        self.left = Masked::new(without_trailing_slashes(front));
        Some(component_of(piece))
    }
}

/// An iterator over the texts of the components of a relative path, from either end. No call on it
/// allocates.
///
/// ```
/// let mut texts = RelativePath::new("a/..//b").iter();
/// assert_eq!(rt; texts.next(), Some("a"));
/// assert_eq!(rt; texts.next_back(), Some("b"));
/// assert_eq!(rt; texts.next(), Some(".."));
/// assert_eq!(rt; texts.next(), None);
/// ```
#[derive(Drop)]
pub struct Iter<'a> {
    components: Components<'a>,
}

impl<'a> Iter<'a> {
    // Returns the iterator over a whole text.
    pub(crate) fn new(text: &'a str) -> Iter<'a>
        ensures { iter_text_left result ≡ text.now }
    {
        Iter {
            components: Components::new(text),
        }
    }
}

impl Clone for Iter<'_> {
    // a clone has the same text left
    ghost is_clone = { λ it copy. iter_text_left copy ≡ iter_text_left it };

    // a clone never fails
    ghost is_infallible = { λ _. ⊤ };

    fn clone(&self) -> Result<Self, AllocError> {
        Ok(Iter {
            components: Components {
                left: self.components.left,
            },
        })
    }
}

impl<'a> Iterator for Iter<'a> {
    type Item = &'a str;

    // the first component, if any, leaving what follows its slashes
    ghost next_gives = { λ s taken t. TakesFirstText (iter_text_left s) taken (iter_text_left t) };

    // no more items than components left
    ghost remaining = { item_count texts_left };

    /// Takes the first component off the text that is left, and returns its text.
    fn next(&mut self) -> Option<&'a str> {
        self.components.next().map(Component::as_str)
    }
}

impl<'a> DoubleEndedIterator for Iter<'a> {
    // the last component, if any, leaving the shortest prefix with the others
    ghost next_back_gives = { λ s taken t. TakesLastText (iter_text_left s) taken (iter_text_left t) };

    /// Takes the last component off the text that is left, and returns its text.
    fn next_back(&mut self) -> Option<&'a str> {
        self.components.next_back().map(Component::as_str)
    }
}

// Returns the component that a piece of a text stands for.
#[inline(always)]
fn component_of(piece: &str) -> Component<'_>
    requires { piece.now ≢ [] }
    ensures { step_of result ≡ classed piece.now }
{
    let bytes = piece.as_bytes();
    if bytes[0] != b'.' {
        return Component::Normal(piece);
    }
    match bytes {
        [b'.'] => Component::CurDir,
        [b'.', b'.'] => Component::ParentDir,
        _ => Component::Normal(piece),
    }
}

// Compares two texts by their components.
pub(crate) fn compare(text: &str, other: &str) -> Ordering
    ensures { result ≡ steps_cmp (components text.now) (components other.now) }
{
    if text == other {
        return Ordering::Equal;
    }
    Components::new(text).cmp(Components::new(other))
}
