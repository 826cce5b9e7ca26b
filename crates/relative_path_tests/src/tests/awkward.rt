//! Very long texts.
use super::normalizing::normalizes;
use super::relating::lead_apart;
use super::same;
use super::walking::gives_pieces;
use std::alloc::Global;
use std::test::Fail;

// Fails where many of this piece don't lead back to where they begin.
fn leads_nowhere(alloc: Global, piece: &str, count: usize) -> Result<(), Fail> {
    let text = piece.repeat(alloc, count)?;
    normalizes(alloc, text.as_str(), "")
}

#[test]
fn steps_lead_nowhere(rt: HostRuntime) -> Result<(), Fail> {
    leads_nowhere(rt.alloc(), "/", 10_000)?;
    leads_nowhere(rt.alloc(), "./", 1_000)
}

#[test]
fn a_megabyte_of_steps(rt: HostRuntime) -> Result<(), Fail> {
    leads_nowhere(rt.alloc(), "/", 209_715)?;
    leads_nowhere(rt.alloc(), "a/../", 209_715)
}

// Names, and a step up more than there are names.
#[test]
fn names_and_climbs_cancel(rt: HostRuntime) -> Result<(), Fail> {
    let names = "a/".repeat(rt.alloc(), 4_000)?;
    let climbs = "../".repeat(rt.alloc(), 4_001)?;
    let text = format!(in rt.alloc(); "{names}{climbs}")?;
    normalizes(rt.alloc(), text.as_str(), "..")
}

// Fails where the normal form of a text isn't the text without a last slash.
fn is_normal_but_for_a_slash(alloc: Global, text: &str) -> Result<(), Fail> {
    normalizes(alloc, text, text.strip_suffix('/').unwrap_or(text))
}

#[test]
fn climbs_stay(rt: HostRuntime) -> Result<(), Fail> {
    let text = "../".repeat(rt.alloc(), 4_000)?;
    is_normal_but_for_a_slash(rt.alloc(), text.as_str())
}

#[test]
fn a_name_of_a_megabyte(rt: HostRuntime) -> Result<(), Fail> {
    let text = "a".repeat(rt.alloc(), 1_048_576)?;
    is_normal_but_for_a_slash(rt.alloc(), text.as_str())
}

#[test]
fn climbs_lead_apart(rt: HostRuntime) -> Result<(), Fail> {
    let more = "../".repeat(rt.alloc(), 4_000)?;
    let fewer = more.strip_prefix("../").unwrap_or("");
    lead_apart(rt.alloc(), fewer, more.as_str(), Some(3_999))
}

#[test]
fn ends_in_turn(rt: HostRuntime) -> Result<(), Fail> {
    let text = "a/".repeat(rt.alloc(), 1_000)?;
    same("a thousand names", gives_pieces(text.as_str()), true)
}
