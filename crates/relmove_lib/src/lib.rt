//! What the program `relmove` does: it moves files and directories below a root, and writes pages anew. It also finds the
//! links of pages that lead to nothing.
//!
//! `program` has a call, and `progress` what it prints of its progress. Neither uses the other.
#![tactic(auto)]

pub use self::program::{Status, answer};
pub use self::progress::{Progress, StoreWithProgress, WithProgress};
pub use relmove_arguments::{Effect, Task, WrongCall, WrongList, moves_of_list, task_of};
pub use relmove_findings::{LeftLink, Loss, LostSymlink, Moving, WhyLeft, WhyRefused};
pub use relmove_folder::{
    Checked, DeadLink, EntryKind, LONGEST_PAGE, LinkOptions, Page, PagesAs, Position, Tree, Unread,
    WhyDead, check_links, dead_links_of, is_directory, position_after, read_tree,
};
pub use relmove_moving::moving_of;
pub use relmove_plan::NameRule;
pub use relmove_report::report;

mod program;
mod progress;
