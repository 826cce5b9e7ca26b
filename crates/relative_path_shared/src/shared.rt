//! Paths that own or share their text otherwise than a buffer does.
pub use self::boxed::{BoxedRelativePath, BufExt};
pub use self::cow::CowRelativePath;
pub use self::rc::RcRelativePath;

mod boxed;
mod cow;
mod rc;
