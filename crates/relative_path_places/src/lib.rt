//! Paths by the places that they lead to.
//!
//! ```text
//! paths by their places                   place_index
//! a path that is known to be normal       normal_path
//! a path as it is written, and normal     written_path
//! a part of one, borrowed                 normal_view
//! names, and the shortest paths between   name_path
//! a path that is made of components       way
//! whether there is a place, directories   places
//! ```
#![tactic(auto)]

pub use self::name_path::NamePath;
pub use self::normal_path::NormalPath;
pub use self::normal_view::NormalView;
pub use self::place_index::PlaceIndex;
pub use self::places::{directory, has_place};
pub use self::written_path::WrittenPath;

mod name_path;
mod normal_path;
mod normal_view;
mod place_index;
mod places;
mod way;
mod written_path;
