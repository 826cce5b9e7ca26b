//! What `relmove` needs of the files below a root, why a call on them fails, and what it prints of a path.
//!
//! A module uses modules of the layers below, and those to its left in its own layer.
//!
//! ```text
//! paths               length
//! what a run tells    fault  remark  change
//! texts               printable
//! files               store  file_store
//! ```
#![tactic(auto)]

pub use self::change::Change;
pub use self::fault::{RunFault, SystemCall, at, fault_of};
pub use self::file_store::{FileStore, is_absence};
pub use self::length::{LONGEST_PATH, need_short};
pub use self::printable::Printable;
pub use self::remark::Remark;
pub use self::store::{Found, FoundKind, Machine, Names, PageFile, ROOT_USER, Store};

mod change;
mod fault;
mod file_store;
mod length;
mod printable;
mod remark;
mod store;
