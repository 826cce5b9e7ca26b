//! The laws of relative paths, as functions. Each function makes the calls of which its law speaks, and its contract states
//! the law.
#![tactic(auto)]

pub use self::joining::{associative, from_paths_law, join_law, join_normalized_law, unit};
pub use self::naming::{extension_law, parent_law, stem_law};
pub use self::normalizing::{climb_law, normalize_twice, normalized_law};
pub use self::platform::relative_to_law;
pub use self::prefixing::strip_law;
pub use self::relating::{leads_back, same_law, triangle, try_law};
pub use self::walking::{End, Taken, take_in_turn};

mod joining;
mod naming;
mod normalizing;
mod platform;
mod prefixing;
mod relating;
#[cfg(test)]
mod tests;
mod walking;
