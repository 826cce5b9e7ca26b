//! The iterator over a path's components from both ends.
ghost use Rattle.std.specs.Prelude.{IfOk};
ghost use Rattle.relative_path.specs.RelativePath.{path_text};
ghost use Rattle.relative_path_bench.specs.Walking.{IsTakenInTurn};

use relative_path::{Component, RelativePath};
use std::alloc::{AllocError, Global};

/// An end of an iterator, as `End::Front`.
#[derive(Clone, Copy, Debug, PartialEq, Eq)]
pub enum End {
    /// The end that `next` takes from.
    Front,
    /// The end that `next_back` takes from.
    Back,
}

/// What an iterator returned and which text it left: the result of [`take_in_turn`].
#[derive(Drop)]
pub struct Taken<'a> {
    /// What each call returned.
    pub components: Vec<Option<Component<'a>>>,
    /// The rest of the path.
    pub left: RelativePath<'a>,
}

/// Takes a component from each of these ends in turn.
///
/// Whatever the order of the ends, the calls return each component once, and after that `None` for
/// good. Allocates the list of what they return. The only error is lack of memory.
///
/// ```
/// let ends = [End::Front, End::Back];
/// let taken = take_in_turn(alloc, RelativePath::new("/a/./b/"), &ends)?;
/// assert_eq!(rt; taken.components[1], Some(Component::Normal("b")));
/// assert_eq!(rt; taken.left.as_str(), ".");
/// ```
pub fn take_in_turn<'a>(
    alloc: Global,
    path: RelativePath<'a>,
    ends: &[End],
) -> Result<Taken<'a>, AllocError>
    ensures { IfOk result (λ taken. IsTakenInTurn (path_text path.entry) ends.now
        taken.components.items (path_text taken.left)) }
{
    let mut components = Vec::new(alloc);
    let mut walk = path.components();
    for end in ends {
        let component = match end {
            End::Front => walk.next(),
            End::Back => walk.next_back(),
        };
        components.push(component)?;
    }
    let left = walk.as_relative_path();
    Ok(Taken { components, left })
}
