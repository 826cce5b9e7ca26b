//! The calls of `relative_path` for C, and for every language that calls C.
//!
//! A text comes in as a slice of bytes; bytes that aren't UTF-8 are a status of their own. A part of a text goes out as a
//! slice of the caller's own memory, and a new text goes into memory that the caller passes. So nothing is handed out
//! that has to be freed. No call has a `requires`, but those of `known_utf8`, which the header doesn't declare.
//!
//! ```text
//! calls             questions  parts  texts  unix  walk  known_utf8
//! what they share   status  memory
//! ```
#![tactic(auto)]

mod known_utf8;
mod memory;
mod parts;
mod questions;
mod status;
mod texts;
mod unix;
mod walk;
