//! Portable relative paths: texts that are cut at `/` on every platform. A path leads to a place only from a base.
//!
//! A module uses the modules of the rows below it, and those to the left of it in its row; `path` and `buf` use each
//! other.
//!
//! ```text
//! what callers see      error  path  buf  unix  bytes
//! computed from them    naming  prefixing  normal_form  relating  unix_components  unix_texts
//! components            component
//! texts                 slashes  masked  counting  editing  writing  spans
//! ```
#![tactic(auto)]

pub use self::buf::RelativePathBuf;
pub use self::component::{Component, Components, Iter};
pub use self::error::{
    FromPathError, FromPathErrorKind, RelativeToError, RelativeToErrorKind, WriteError,
};
pub use self::path::{Display, RelativePath, StripPrefixError, is_plain_extension};
pub use self::unix::PathExt;

mod buf;
pub mod bytes;
mod component;
mod counting;
mod editing;
mod error;
mod masked;
mod naming;
mod normal_form;
mod path;
mod prefixing;
mod relating;
mod slashes;
mod spans;
pub mod unix;
mod unix_components;
mod unix_texts;
mod writing;
