//! What is in a folder of Markdown pages, for `relmove`: its files and directories, the texts of the pages, the links that lead
//! to nothing, and the lines in which old paths of moves are written.
//!
//! A module uses modules of the layers below.
//!
//! ```text
//! what is in the pages    dead_links  mentions
//! parts of these          fragments  search
//! what it knows           moved_names  targets  places
//! names that a site shows shown_names
//! what moves, and whence  bases  words
//! what a site serves      served
//! the addresses of pages  addresses
//! pages by name alone     names_alone
//! a tree that moves       moving_tree
//! what is at a path       presence  seen  site_root
//! what a check finds      checked  pages_as
//! what is below the root  tree
//! what all share          position  extensions  slugs  planned_page
//! ```
#![tactic(auto)]

pub use self::checked::{Checked, DeadLink, WhyDead};
pub use self::dead_links::{LinkOptions, check_links, dead_links_of, leads_somewhere};
pub use self::mentions::{SearchOptions, SiteTargets, mentions_of, targets_of};
pub use self::moving_tree::shown_path;
pub use self::pages_as::{PagesAs, ShownMove};
pub use self::places::{MOST_PLACES, MentionPlace, MentionPlaces};
pub use self::planned_page::PlannedPage;
pub use self::position::{Position, Positions, position_after};
pub use self::presence::{Presence, presence_at};
pub use self::seen::{Seen, find, known_answer, seen_by_system};
pub use self::shown_names::shown_moves;
pub use self::site_root::site_root_at;
pub use self::tree::{
    EntryKind, LONGEST_PAGE, Page, Tree, Unread, cannot_read, has_path, has_reserved_name,
    has_unread_name, is_at_or_below, is_directory, is_directory_entry, is_read_directory,
    normal_text, read_tree,
};

mod addresses;
mod bases;
mod checked;
mod dead_links;
mod extensions;
mod fragments;
mod mentions;
mod moved_names;
mod moving_tree;
mod names_alone;
mod pages_as;
mod places;
mod planned_page;
mod position;
mod presence;
mod search;
mod seen;
mod served;
mod shown_names;
mod site_root;
mod slugs;
mod targets;
mod tree;
mod words;
