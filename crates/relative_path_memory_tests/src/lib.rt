//! The tests of `relative_path` in which memory runs out, in a crate of their own: so the gate proves them beside the others.
#![tactic(auto)]

#[cfg(test)]
mod tests;
