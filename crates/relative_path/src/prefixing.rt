//! The rest of a path after the components of another, and whether a path ends with those of another.
ghost use Rattle.std.specs.Prelude.{◌≡◌, ◌↔◌, ◌++◌, IfSome, IsSome, IsTrue, length};
ghost use Rattle.relative_path.specs.Prefixing.{StartsWith, EndsWith, IsDropped};
ghost use Rattle.relative_path.specs.Steps.{components};

use crate::component::Components;

// Returns the rest of the text after the components of `base`, if the text starts with them.
pub(crate) fn text_after<'a>(text: &'a str, base: &str) -> Option<&'a str>
    ensures found { IsSome result
        ↔ StartsWith (components text.now) (components base.now) }
    ensures text { IfSome result (λ rest. IsDropped text.now
        (length (components base.now)) rest.now) }
    ensures components { IfSome result (λ rest. components text.now
        ≡ components base.now ++ components rest.now) }
{
    let mut left = Components::new(text);
    for component in Components::new(base) {
        if left.next() != Some(component) {
            return None;
        }
    }
    Some(left.as_str())
}

// Returns whether the components of the text end with those of `child`.
pub(crate) fn ends_with(text: &str, child: &str) -> bool
    ensures { IsTrue result ↔ EndsWith (components text.now) (components child.now) }
{
    let mut left = Components::new(text);
    let mut child_left = Components::new(child);
    while let Some(component) = child_left.next_back() {
        if left.next_back() != Some(component) {
            return false;
        }
    }
    true
}
