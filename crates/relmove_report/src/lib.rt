//! What the program `relmove` prints, in words and as objects of JSON: `report` has what all of its calls print, and `summary`
//! what those print that check links or move files. Neither uses the other.
#![tactic(auto)]

pub mod report;
pub mod summary;
