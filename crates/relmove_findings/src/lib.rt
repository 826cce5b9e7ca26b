//! What `relmove_moving` finds of the moves in a folder of Markdown pages, as plain values: what the moves do, or why they are
//! refused. Here are no calls, so `relmove_report`, which prints the values, is proved beside `relmove_moving`.
#![tactic(auto)]

pub use self::moving::{LeftLink, Loss, LostSymlink, Moving, PlannedMoves, WhyLeft};
pub use self::refused::WhyRefused;

mod moving;
mod refused;
