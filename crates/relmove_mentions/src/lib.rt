//! The places in the text of a file where an old path of a run is written.
//!
//! A module uses those of the lines below its own.
//!
//! ```text
//! the mentions in a text        mentions
//! the old paths, by their names old_names
//! a file that is searched       searched_file
//! where paths lead from         bases
//! what a text ends in           endings
//! sets, and hashes of names     hashes, name_hashes
//! a file's text                 file_text
//! spans of a text               text_span
//! ```
#![tactic(auto)]

pub use self::file_text::FileText;
pub use self::mentions::Mention;
pub use self::old_names::{INDEX_NAMES, OldNames, is_index_page, is_page};
pub use self::text_span::{TextSpan, are_spans_in_order};

mod bases;
mod endings;
mod file_text;
mod hashes;
mod mentions;
mod name_hashes;
mod old_names;
mod searched_file;
mod text_span;
