//! The largest size, which `tools/quick` leaves out.
use super::becomes;
use super::many_moves::{numbered, paired};
use std::test::Fail;

#[test]
fn makes_a_table_of_a_hundred_thousand_moves(rt: HostRuntime) -> Result<(), Fail> {
    let paths = numbered(rt.alloc(), 100_000, "", ".md")?;
    let moves = paired(rt.alloc(), &paths, &paths)?;
    becomes(rt.alloc(), "file 7", &moves, 7, "99999.md", "99999.md")
}
