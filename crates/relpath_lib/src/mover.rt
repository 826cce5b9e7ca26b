//! What references become when files move.
pub use relative_path_moves::{MoveError, moved};
