//! The tests of `relmove_stages` and `relmove_planned`, over `relmove_stages_disk`.
#![tactic(auto)]

#[cfg(test)]
mod tests;
