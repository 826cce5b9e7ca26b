//! What references become when files move.
//!
//! ```text
//! one reference, moves of directories     reference  tree_moves
//! a move                                  moves
//! moves of files                          move_table
//! ways to a file, errors                leading  move_error
//! ```
#![tactic(auto)]

pub use self::move_error::{MoveError, MoveTableError, ReferenceError};
pub use self::move_table::MoveTable;
pub use self::moves::Move;
pub use self::reference::moved;
pub use self::tree_moves::{MovedReference, PageMove, TreeMoves};

mod leading;
mod move_error;
mod move_table;
mod moves;
mod reference;
mod tree_moves;
