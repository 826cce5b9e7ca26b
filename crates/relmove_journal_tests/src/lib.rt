//! The tests of `relmove_journal`.
#![tactic(auto)]

#[cfg(test)]
mod tests;
