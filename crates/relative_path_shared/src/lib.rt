//! Relative paths in a box, shared or perhaps borrowed, and as JSON strings.
#![tactic(auto)]

pub use self::json::{FromValueError, boxed_from_value, from_value, to_value, view_value};
pub use self::shared::{BoxedRelativePath, BufExt, CowRelativePath, RcRelativePath};

pub mod json;
pub mod shared;
