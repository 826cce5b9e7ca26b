//! A file system in memory, for tests: names, inodes, owners, permissions, a lock, a size, and which changes are on the
//! disk if the power is lost. A test says which of its calls fails, and how.
//!
//! A module uses modules of the layers below, and those to its left in its own layer.
//!
//! ```text
//! files for a test           site
//! files for programs         machine  store
//! the disk                   disk
//! calls, and how they fail   calls
//! what is on the disk        changes  node  nodes
//! ```
#![tactic(auto)]

pub use self::calls::Failing;
pub use self::disk::Disk;
pub use self::machine::{DiskErrors, DiskMachine};
pub use self::node::Content;
pub use self::site::{Place, below_site, disk_of, file_of};
pub use self::store::{DiskStore, NewDiskFile};

mod calls;
mod changes;
mod disk;
mod machine;
mod node;
mod nodes;
mod site;
mod store;
