//! What a plan says, a run does: whoever carries out the work of a plan's actions comes to the tree after the moves, or says why
//! not. `planned_work` makes such work of moves, and `carry_out_moves` carries it out.
//!
//! A module uses modules of the layers below.
//!
//! ```text
//! from moves to files    moves
//! what begins a run      initiator
//! the work of moves      work
//! why there is none      refusal
//! the pages              pages
//! a run of a plan        run
//! ```
#![tactic(auto)]

pub use self::initiator::PlanInitiator;
pub use self::moves::{MovesFault, carry_out_moves};
pub use self::refusal::WorkRefusal;
pub use self::run::carry_out_plan;
pub use self::work::{PlannedWork, planned_work};

mod initiator;
mod moves;
mod pages;
mod refusal;
mod run;
mod work;
