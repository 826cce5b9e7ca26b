//! The components of a platform path under the Unix rules.
ghost use Rattle.std.specs.Prelude.{◌≡◌, ◌≢◌, ◌<◌, ◌-◌, [], ℕ, List, length, take, drop, slice_index, MatchOption, Some, None};
ghost use Rattle.std.specs.Iterator.{YieldsFirstBy, item_count};
ghost use Rattle.relative_path.specs.Components.{step_of};
ghost use Rattle.relative_path.specs.Editing.{without_cur_dirs};
ghost use Rattle.relative_path.specs.Steps.{slash, components};
ghost use Rattle.relative_path.specs.Unix.{has_root, counted, unix_components, but_last, without_shared};
ghost use Rattle.relative_path.specs.UnixComponents.{unix_left};
ghost use Rattle.relative_path.specs.Walk.{walk};

use crate::component::{Component, Components};
use crate::masked::Masked;
use crate::slashes::without_trailing_slashes;

// An iterator over the components of a platform path that count, from the front.
#[derive(Clone, Copy)]
pub(crate) struct UnixComponents<'a> {
    // What is left of the path.
    left: Masked<'a>,
    // Whether each `.` is skipped: after a root, and after the first component.
    skips_cur_dirs: bool,
}

impl<'a> UnixComponents<'a> {
    // Returns the iterator over a whole path, after its root.
    pub(crate) fn new(text: &'a str) -> UnixComponents<'a>
        ensures { unix_left result ≡ unix_components text.now }
    {
        UnixComponents {
            left: Masked::new(text),
            skips_cur_dirs: has_root(text),
        }
    }

    // Returns the iterator over the components other than `.`.
    pub(crate) fn without_cur_dirs(text: &'a str) -> UnixComponents<'a>
        ensures { unix_left result ≡ without_cur_dirs (components text.now) }
    {
        UnixComponents {
            left: Masked::new(text),
            skips_cur_dirs: true,
        }
    }
}

impl<'a> Iterator for UnixComponents<'a> {
    type Item = Component<'a>;

    ghost next_gives = { YieldsFirstBy step_of unix_left };

    ghost remaining = { item_count unix_left };

    #[inline(always)]
    fn next(&mut self) -> Option<Component<'a>> {
        let mut components = Components::of(self.left);
        loop {
            match components.next() {
                Some(Component::CurDir) if self.skips_cur_dirs => {}
                first => {
                    *self = UnixComponents {
                        left: components.left(),
                        skips_cur_dirs: true,
                    };
                    return first;
                }
            }
        }
    }
}

// Returns the rests of two paths after the components that both begin with.
pub(crate) fn without_shared<'a, 'b>(
    path: &'a str,
    root: &'b str,
) -> (UnixComponents<'a>, UnixComponents<'b>)
    ensures path { unix_left result.0
        ≡ (without_shared (unix_components path.now) (unix_components root.now)).0 }
    ensures root { unix_left result.1
        ≡ (without_shared (unix_components path.now) (unix_components root.now)).1 }
{
    let mut left = (UnixComponents::new(path), UnixComponents::new(root));
    loop {
        let (mut path, mut root) = left;
        match (path.next(), root.next()) {
            (Some(ours), Some(theirs)) if ours == theirs => left = (path, root),
            _ => return left,
        }
    }
}

// Returns how many names the place has to which the components lead from the top. `None` if they climb above the top.
pub(crate) fn depth(left: UnixComponents<'_>) -> Option<usize>
    ensures { MatchOption result (walk [] (unix_left left.entry) ≡ None)
        (λ depth. (place : List (List ℕ)) × (walk [] (unix_left left.entry) ≡ Some place)
        × (depth ≡ length place)) }
{
    let mut depth: usize = 0;
    for component in left {
        match component {
            Component::CurDir => {}
            Component::ParentDir => depth = depth.checked_sub(1)?,
            Component::Normal(_) => depth += 1,
        }
    }
    Some(depth)
}

// Returns whether the text begins with a slash.
pub(crate) fn has_root(text: &str) -> bool
    ensures { result ≡ has_root text.now }
{
    text.starts_with('/')
}

// Returns the text without the slashes at its end, and without each `.` there that doesn't count.
pub(crate) fn trim_uncounted_end(text: &str, rooted: bool) -> &str
    ensures prefix { result.now ≡ take (length result.now) text.now }
    ensures end { slice_index result.now (length result.now - 1) ≢ slash }
    ensures same { counted rooted (components result.now) ≡ counted rooted (components text.now) }
    ensures last { components result.now ≢ []
        → length (counted rooted (but_last (components result.now)))
        < length (counted rooted (components result.now)) }
{
    let mut components = Components::new(without_trailing_slashes(text));
    loop {
        let left = components.as_str();
        match components.next_back() {
            Some(Component::CurDir) if rooted || !components.as_str().is_empty() => {}
            _ => return left,
        }
    }
}
