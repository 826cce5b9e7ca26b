//! What the program `relpath` does: it reads commands on relative paths, one a line, and writes one line for each.
//!
//! ```text
//! the whole run       run  report
//! bytes in and out    input  output
//! a line's answer     command
//! what that needs     lines  mover
//! what all share      fault  meter
//! ```
#![tactic(auto)]

pub use self::fault::Fault;
pub use self::meter::Meter;

mod command;
mod fault;
mod input;
mod lines;
mod meter;
pub mod mover;
mod output;
pub mod report;
pub mod run;
