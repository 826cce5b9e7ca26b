//! Moves that somebody made before a call of `relmove`: the folder as it was before them, and what is left to do.
#![tactic(auto)]

pub use self::moved::{MadeMoves, StoreBefore, keep_dead_targets};

mod moved;
