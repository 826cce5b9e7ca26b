//! The shortest path from a place to another, made with one allocation.
ghost use Rattle.std.specs.Prelude.{◌≡◌, ◌++◌, [], ◌∷◌, length, replicate, IfNone, IfOk, IfSome, OnOk};
ghost use Rattle.relative_path.specs.Steps.{Step, up, components, spell};
ghost use Rattle.relative_path.specs.Normalizing.{AreNames};
ghost use Rattle.relative_path.specs.Prefixing.{StartsWith};
ghost use Rattle.relative_path.specs.Relating.{IsShortestText};
ghost use Rattle.relative_path.specs.RelativePath.{path_components};
ghost use Rattle.relative_path_places.specs.Ways.{EndApart, PartAtOnce};

use relative_path::{RelativePath, RelativePathBuf};
use std::alloc::{AllocError, Global};

// Returns the shortest path from a place to another, each given by its names. Allocates once: the path, with room for
// one byte more, so that the caller can add a slash.
pub(crate) fn way_between(
    alloc: Global,
    from: RelativePath<'_>,
    to: RelativePath<'_>,
) -> Result<RelativePathBuf, AllocError>
    requires from { AreNames (path_components from) }
    requires to { AreNames (path_components to) }
    ensures { IfOk result
        (λ way. IsShortestText (path_components from.entry) (path_components to.entry) way.text) }
{
    let (above, below) = past_common(from, to);
    let climb = component_count(above);
    let mut way = RelativePathBuf::with_capacity(alloc, room_for(climb, below))?;
    push_climb(&mut way, climb)?;
    push_components(&mut way, below)?;
    Ok(way)
}

// Returns how many components a path has.
fn component_count(path: RelativePath<'_>) -> usize
    ensures { result ≡ length (path_components path.entry) }
{
    path.components().count()
}

// Returns how many bytes `climb` times `..` and then a path have at most, and one more.
fn room_for(climb: usize, path: RelativePath<'_>) -> usize {
    let climb_len = climb.saturating_mul(3);
    climb_len
        .saturating_add(path.as_str().len())
        .saturating_add(1)
}

// Returns what is left of two paths without the components that both begin with.
fn past_common<'f, 't>(
    from: RelativePath<'f>,
    to: RelativePath<'t>,
) -> (RelativePath<'f>, RelativePath<'t>)
    ensures { EndApart (path_components from.entry) (path_components to.entry)
        (path_components result.0) (path_components result.1) }
{
    let (mut from, mut to) = (from, to);
    while let Some((from_rest, to_rest)) = past_first(from, to) {
        from = from_rest;
        to = to_rest;
    }
    (from, to)
}

// Returns what is left of two paths after their first component. `None` if they don't begin with the
// same one.
fn past_first<'f, 't>(
    from: RelativePath<'f>,
    to: RelativePath<'t>,
) -> Option<(RelativePath<'f>, RelativePath<'t>)>
    ensures none { IfNone result (PartAtOnce (path_components from.entry) (path_components to.entry)) }
    ensures some { IfSome result (λ rests. (c : Step)
        × (path_components from.entry ≡ c ∷ path_components rests.0)
        × (path_components to.entry ≡ c ∷ path_components rests.1)) }
{
    let (mut from_left, mut to_left) = (from.components(), to.components());
    let Some(first) = from_left.next() else {
        return None;
    };
    let Some(other) = to_left.next() else {
        return None;
    };
    if first != other {
        return None;
    }
    Some((from_left.as_relative_path(), to_left.as_relative_path()))
}

// Appends `climb` times `..`.
fn push_climb(way: &mut RelativePathBuf, climb: usize) -> Result<(), AllocError>
    requires { way.old.text ≡ spell (components way.old.text) }
    ensures spelled { OnOk result (way.new.text ≡ spell (components way.new.text)) }
    ensures components { OnOk result
        (components way.new.text ≡ components way.old.text ++ replicate climb up) }
{
    let mut left = climb;
    while left > 0 {
        way.push(RelativePath::new(".."))?;
        left -= 1;
    }
    Ok(())
}

// Appends the components of a path.
pub(crate) fn push_components(
    way: &mut RelativePathBuf,
    path: RelativePath<'_>,
) -> Result<(), AllocError>
    requires { way.old.text ≡ spell (components way.old.text) }
    ensures spelled { OnOk result (way.new.text ≡ spell (components way.new.text)) }
    ensures components { OnOk result
        (components way.new.text ≡ components way.old.text ++ path_components path.entry) }
{
    for component in path.components() {
        way.push(component.as_relative_path())?;
    }
    Ok(())
}
