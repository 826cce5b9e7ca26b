//! The names to which fragments of links can lead in a page of Markdown: those of its headings, as GitHub gives them, and
//! those of the elements in its HTML.
//!
//! A module uses those to the right of it in its row, and those of the rows below.
//!
//! ```text
//! a page       anchors
//! a target     fragments
//! headings     headings - names, slugs
//! their text   heading_text - emphasis
//! characters   sources
//! ```
#![tactic(auto)]

mod anchors;
mod emphasis;
mod fragments;
mod heading_text;
mod headings;
mod names;
mod slugs;
mod sources;

pub use self::anchors::{Anchors, anchors_of};
pub use self::fragments::{Fragment, fragment_of_target};
pub use self::names::heading_names;
pub use self::slugs::slug;
