//! The names of HTML's character references, and the characters that they stand for.
#![tactic(auto)]

pub use self::characters::Characters;
pub use self::names::{characters_of, longest_name};

mod characters;
mod names;
mod table;
