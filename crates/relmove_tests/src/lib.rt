//! The tests of crates below `relmove_lib` in which memory runs out. They have a crate of their own, so that the gate proves the
//! functions of those crates once. What a call of the program does is in the scripts of `relmove_scripts`.
#![tactic(auto)]

#[cfg(test)]
mod tests;
