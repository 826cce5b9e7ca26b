//! The stages of a run: which actions each has, in which order they come, and how a run goes on, or back, from any of them.
//! What does the actions is a trait, so what a crash at any moment leaves is a theorem.
//!
//! A module uses modules of the layers below.
//!
//! ```text
//! a whole run    beginning
//! from a stage   machine
//! what begins    initiator
//! what does it   executor
//! its actions    stages
//! one of them    action
//! ```
#![tactic(auto)]

pub use self::action::Action;
pub use self::beginning::{Halt, carry_out};
pub use self::executor::Executor;
pub use self::initiator::Initiator;
pub use self::machine::{finish, turn_back};
pub use self::stages::{action_at, next_stage, stage_back};

mod action;
mod beginning;
mod executor;
mod initiator;
mod machine;
mod stages;
