//! A dead link as an object of JSON.
use super::marks::{begin, end};
use relmove_folder::{DeadLink, Position, WhyDead};
use relmove_report::report::print_dead_link_as_json;
use std::io;
use std::test::Fail;

// Requests: 4 4 848 4 6 4 6 16 3 128 = 0
#[test]
fn a_dead_link(rt: HostRuntime) -> Result<(), Fail> {
    let link = DeadLink {
        page: String::from_str(rt.alloc(), "a.md")?,
        position: Position { line: 1, column: 5 },
        target: String::from_str(rt.alloc(), "b.md")?,
        why: WhyDead::Missing { page: None },
    };
    let mut out = io::sink();
    begin(rt.alloc());
    let answer = print_dead_link_as_json(rt.alloc(), &mut out, &link);
    end(rt.alloc(), answer.is_err())
}
