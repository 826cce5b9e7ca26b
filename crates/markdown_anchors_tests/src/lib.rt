//! The tests of `markdown_anchors`, in a crate of their own: so the gate proves its functions once.
#![tactic(auto)]

#[cfg(test)]
mod tests;
