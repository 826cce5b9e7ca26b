//! The walk over the components of a path, from both ends.
ghost use Rattle.std.specs.Prelude.{◌≡◌, ◌≢◌, ◌≤◌, ◌↔◌, ◌++◌, ◌∷◌, [], MatchOption};
ghost use Rattle.std.proofs.Props.{props};
ghost use Rattle.std.specs.Str.{IsUtf8};
ghost use Rattle.relative_path.specs.Components.{step_of};
ghost use Rattle.relative_path.specs.Slices.{IsRest, IsFront};
ghost use Rattle.relative_path.specs.Steps.{components, cur, up, name};
ghost use Rattle.relative_path_c.specs.Numbers.{no_component, cur_dir, parent_dir, normal};
ghost use Rattle.relative_path_c.specs.Status.{done, not_utf8};

use crate::status::{DONE, NOT_UTF8};
use relative_path::{Component, RelativePath};

// The walk has no component left.
const NO_COMPONENT: u32 = 0;

// The component is `.`.
const CUR_DIR: u32 = 1;

// The component is `..`.
const PARENT_DIR: u32 = 2;

// The component is a name.
const NORMAL: u32 = 3;

/// What is left of a text, which is UTF-8, in a walk over its components. C makes a walk by `relative_path_components`
/// alone; Rust makes one of a `str`.
#[repr(C)]
#[derive(Drop)]
pub struct Components<'a> {
    left: &'a [u8],
    ghost utf8: { IsUtf8 left.now } by { Prim.hlevel props },
}

// Hands out the component that a step took: its kind, and its text if it is a name.
fn hand_out_component<'a>(taken: Option<Component<'a>>, part: &mut &'a [u8]) -> u32
    ensures taken { MatchOption taken.entry (result ≡ no_component) (λ c. (result ≢ no_component)
        × (result ≡ cur_dir → step_of c ≡ cur)
        × (result ≡ parent_dir → step_of c ≡ up)
        × (result ≡ normal → (step_of c ≡ name part.new.now) × IsUtf8 part.new.now)) }
    ensures kept { result ≢ normal → part.new ≡ part.old }
    ensures kind { result ≤ normal }
{
    match taken {
        None => NO_COMPONENT,
        Some(Component::CurDir) => CUR_DIR,
        Some(Component::ParentDir) => PARENT_DIR,
        Some(Component::Normal(name)) => {
            *part = name.as_bytes();
            NORMAL
        }
    }
}

/// Begins a walk over the components of `text`.
#[unsafe(no_mangle)]
pub extern "C" fn relative_path_components<'a>(text: &'a [u8], walk: &mut Components<'a>) -> u32
    // once done, the whole text is left
    ensures left { result ≡ done → walk.new.left.now ≡ text.now }
    // exactly if a text isn't UTF-8
    ensures not_utf8 { (result ≡ not_utf8) ↔ (¬ IsUtf8 text.now) }
    // unless it is done, the call changes nothing
    ensures kept { result ≢ done → walk.new ≡ walk.old }
    // `done` or `not_utf8`
    ensures status { result ≤ not_utf8 }
{
    match std::str::from_utf8(text) {
        Ok(text) => {
            *walk = Components {
                left: text.as_bytes(),
            };
            DONE
        }
        Err(_) => NOT_UTF8,
    }
}

/// Takes the first component off the walk: 0 if there is none, 1 for `.`, 2 for `..`, and 3 for a name, which `part` gets.
#[unsafe(no_mangle)]
pub extern "C" fn relative_path_next<'a>(walk: &mut Components<'a>, part: &mut &'a [u8]) -> u32
    // 0 only if no component was left
    ensures none { result ≡ no_component → components walk.old.left.now ≡ [] }
    // at 1 a `.` was taken
    ensures cur_dir { result ≡ cur_dir
        → components walk.old.left.now ≡ cur ∷ components walk.new.left.now }
    // at 2 a `..` was taken
    ensures parent_dir { result ≡ parent_dir
        → components walk.old.left.now ≡ up ∷ components walk.new.left.now }
    // at 3 the name in the part was taken
    ensures name { result ≡ normal
        → components walk.old.left.now ≡ name part.new.now ∷ components walk.new.left.now }
    // at 3 the part is UTF-8
    ensures utf8 { result ≡ normal → IsUtf8 part.new.now }
    // what follows the first component and its slashes is left
    ensures rest { IsRest walk.old.left.now walk.new.left.now }
    // unless the result is 3, the part stays
    ensures kept { result ≢ normal → part.new ≡ part.old }
    // a number from 0 to 3
    ensures kind { result ≤ normal }
{
    let left = unsafe { std::str::from_utf8_unchecked(walk.left) };
    let mut steps = RelativePath::new(left).components();
    let taken = steps.next();
    walk.left = steps.as_relative_path().as_str().as_bytes();
    hand_out_component(taken, part)
}

/// Takes the last component off the walk, as `relative_path_next` takes the first.
#[unsafe(no_mangle)]
pub extern "C" fn relative_path_next_back<'a>(walk: &mut Components<'a>, part: &mut &'a [u8]) -> u32
    // 0 only if no component was left
    ensures none { result ≡ no_component → components walk.old.left.now ≡ [] }
    // at 1 a `.` was taken
    ensures cur_dir { result ≡ cur_dir
        → components walk.old.left.now ≡ components walk.new.left.now ++ cur ∷ [] }
    // at 2 a `..` was taken
    ensures parent_dir { result ≡ parent_dir
        → components walk.old.left.now ≡ components walk.new.left.now ++ up ∷ [] }
    // at 3 the name in the part was taken
    ensures name { result ≡ normal
        → components walk.old.left.now ≡ components walk.new.left.now ++ name part.new.now ∷ [] }
    // at 3 the part is UTF-8
    ensures utf8 { result ≡ normal → IsUtf8 part.new.now }
    // the shortest prefix with the other components is left
    ensures front { IsFront walk.old.left.now walk.new.left.now }
    // unless the result is 3, the part stays
    ensures kept { result ≢ normal → part.new ≡ part.old }
    // a number from 0 to 3
    ensures kind { result ≤ normal }
{
    let left = unsafe { std::str::from_utf8_unchecked(walk.left) };
    let mut steps = RelativePath::new(left).components();
    let taken = steps.next_back();
    walk.left = steps.as_relative_path().as_str().as_bytes();
    hand_out_component(taken, part)
}
