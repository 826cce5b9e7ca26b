//! Does the jobs that users of this repository's libraries wait for, on inputs that it makes from a number, and prints a
//! digest of all results. `bench/run` times it.
//!
//! ```text
//! $ relative_path_workloads check 7 1000
//! check: 1a2b3c4d5e6f7081
//! ```
//!
//! The words are jobs, each with the number that its input is made from, and with how much it does.
#![tactic(auto)]

mod awkward;
mod commands;
mod digest;
mod draw;
mod links;
mod prose;
mod publish;
mod site;

use crate::digest::Digest;
use crate::draw::Draw;
use std::env;
use std::io::{self, ErrorKind};

fn main(rt: HostRuntime) -> io::Result<()> {
    let words = env::args(&rt)?.skip(1).collect::<Vec<_>>(rt.alloc())?;
    for job in words.chunks(3) {
        let [name, seed, amount] = job else {
            return Err(refused());
        };
        let (Ok(seed), Ok(amount)) = (
            seed.as_str().parse::<u64>(),
            amount.as_str().parse::<usize>(),
        ) else {
            return Err(refused());
        };
        let mut draw = Draw::new(seed);
        let digest = digest_of(&rt, name.as_str(), &mut draw, amount)?;
        println!(rt; "{name}: {digest}")?;
    }
    Ok(())
}

// Does a job. Returns the digest of its results.
fn digest_of(rt: &HostRuntime, name: &str, draw: &mut Draw, amount: usize) -> io::Result<Digest> {
    let mut digest = Digest::new();
    match name {
        "check" => links::check(rt, draw, amount, &mut digest)?,
        "move" => links::move_files(rt, draw, amount, &mut digest)?,
        "awkward" => awkward::move_files(rt, draw, amount, &mut digest)?,
        "commands" => commands::answer(rt.alloc(), draw, amount, &mut digest)?,
        "publish" => publish::publish(rt.alloc(), draw, amount, &mut digest)?,
        _ => return Err(refused()),
    }
    Ok(digest)
}

// The error of a job that isn't one, or of an input that is refused.
pub(crate) fn refused() -> io::Error {
    io::Error::from(ErrorKind::InvalidInput)
}
