//! The statements of scripts over a disk in memory, which the programs that run scripts share. Each line of an input is a
//! statement. The pages of `relmove_scripts` and `relmove_run_scripts` have their languages.
//!
//! A module uses modules of the layers below, and those to its left in its own layer.
//!
//! ```text
//! all scripts        report
//! a script           script
//! what a script has  difference  text  tree  happenings
//! why scripts fail   fault
//! statements         line
//! ```
#![tactic(auto)]

pub use self::difference::{need_same, need_same_tree};
pub use self::fault::{Failure, Fault, add_when, at, wrong};
pub use self::happenings::{failing_of, surprise};
pub use self::line::{Line, cut, is_among, lines_from};
pub use self::report::run_input;
pub use self::script::{Definition, Runner, lines_named};
pub use self::text::{bytes_of, line_of, need_nothing, text_of, two_of, word_of, words_of};
pub use self::tree::{
    change, count_questions, empty_disk, has, has_text, need_absent, need_disk, need_listing,
    need_there, number_of, owner_of, path_of, set_up,
};

mod difference;
mod fault;
mod happenings;
mod line;
mod report;
mod script;
mod text;
mod tree;
