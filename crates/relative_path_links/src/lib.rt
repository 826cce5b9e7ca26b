//! The links of a site's pages: what they become when files move, and the links from page to page. Proved from
//! the public contracts of the crates that it uses, and from the theorems that these crates show to callers.
//!
//! ```text
//! pages of a site       site
//! pages and links       site_map  rewriter  reread
//! targets, edits        finder  edit
//! a target              target  site_root
//! ```
#![tactic(auto)]

pub use self::edit::{Change, Edit, Unchanged, edited};
pub use self::finder::{Finder, Markdown, targets};
pub use self::rewriter::rewrite_links;
pub use self::site::{MovedSitePage, SitePage, rewrite_site};
pub use self::site_map::{SiteMap, SiteMapError};
pub use self::site_root::SiteRoot;
pub use self::target::{Target, are_in_order};

mod edit;
mod finder;
mod reread;
mod rewriter;
mod site;
mod site_map;
mod site_root;
mod target;
