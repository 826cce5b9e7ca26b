//! The tests of `relmove_run` that aren't scripts, in a crate of their own: so the gate proves its functions once. The scripts
//! are in `relmove_run_scripts`.
#![tactic(auto)]

#[cfg(test)]
mod tests;
