//! Which file a path from outside names: requests to a router of static files, and names that every platform
//! reads alike. Proved from the public contracts of `relative_path`, and from the theorems
//! that it shows to callers.
//!
//! ```text
//! what callers see      router
//! paths and names       from_top  names
//! ```
#![tactic(auto)]

pub use self::from_top::place_from_top;
pub use self::names::{has_plain_names, is_plain_name, may_be_short_name};
pub use self::router::{RequestError, ResolvedRequest, resolve_request, resolve_request_on_unix};

mod from_top;
mod names;
mod router;
