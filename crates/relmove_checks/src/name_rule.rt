//! Which names new paths may have.

/// Which names the new paths of moves may have.
#[derive(Clone, Copy, Debug, PartialEq, Eq)]
pub enum NameRule {
    /// Only plain names, which Windows and Unix read alike.
    Plain,
    /// Any names.
    Any,
}
