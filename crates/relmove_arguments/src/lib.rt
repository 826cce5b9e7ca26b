//! What the arguments of the program `relmove` ask for, and what a list of moves says.
#![tactic(auto)]

pub use self::arguments::{Effect, Task, WrongCall, task_of};
pub use self::move_list::{WrongList, moves_of_list};

mod arguments;
mod move_list;
