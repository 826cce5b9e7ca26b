//! Trees of files, and what the actions of a run make of them, as words and lemmas for contracts. There is no code.
#![tactic(auto)]
