//! Makes the whole output, and writes it.
ghost use Rattle.std.specs.Prelude.{◌≡◌, ◌+◌, ◌<◌, ◌≤◌, List, ℕ, take, length, string_bytes, is_err, IfOk, IfErr, OnOk, if◌then◌else◌};
ghost use Rattle.relpath_lib.specs.Meter.{calls_of, flushes_of, failures_of, IsFresh, CountsCall, CountsFailure, Appended};
ghost use Rattle.relpath_lib.specs.Output.{IsOutput};

use crate::command::answer_line;
use crate::fault::Fault;
use crate::lines::first_line;
use crate::meter::Meter;
use std::alloc::{AllocError, Global};
use std::io::Write;

// For how many bytes of output there is room at first, for each byte of input. Most answers are no longer
// than their line; the longest have several times its length.
const ROOM: usize = 4;

/// Returns the answers to the lines of a text, one for each, in order, each with a line feed.
pub fn answer_lines(alloc: Global, text: &str) -> Result<String, AllocError>
    ensures output { IfOk result (λ output. IsOutput text.now (string_bytes output)) }
    ensures only { IfOk result (λ output. (other : List ℕ) → IsOutput text.now other
        → other ≡ string_bytes output) }
{
    let mut output = String::with_capacity(alloc, text.len().saturating_mul(ROOM))?;
    let mut left = text;
    while let Some((line, rest)) = first_line(left) {
        answer_line(alloc, line, &mut output)?;
        output.push('\n')?;
        left = rest;
    }
    Ok(output)
}

/// Writes all the bytes, then flushes.
pub fn write_output<W: Write>(writer: &mut Meter<W>, bytes: &[u8]) -> Result<(), Fault>
    requires { IsFresh writer.old }
    ensures gained { OnOk result (Appended W.contents writer.old writer.new bytes.now) }
    ensures fault { IfErr result (λ fault. fault ≡ Fault.Write) }
    ensures failures { failures_of writer.new ≡ (if is_err result then 1 else 0) }
    ensures writes { calls_of writer.new ≤ length bytes.now }
    ensures flushed { OnOk result (flushes_of writer.new ≡ 1) }
    ensures flushes { flushes_of writer.new ≤ 1 }
{
    write_all(writer, bytes)?;
    writer.flush().map_err(|_| Fault::Write)
}

/// Writes all the bytes.
pub fn write_all<W: Write>(writer: &mut Meter<W>, bytes: &[u8]) -> Result<(), Fault>
    requires calls { calls_of writer.old + length bytes.now ≤ u64.MAX }
    requires failures { failures_of writer.old < u64.MAX }
    ensures gained { OnOk result (Appended W.contents writer.old writer.new bytes.now) }
    ensures fault { IfErr result (λ fault. fault ≡ Fault.Write) }
    ensures writes { calls_of writer.new ≤ calls_of writer.old + length bytes.now }
    ensures flushes { flushes_of writer.new ≡ flushes_of writer.old }
    ensures failures { CountsFailure writer.old writer.new (is_err result) }
{
    let mut written = 0;
    while written < bytes.len() {
        written += write_some(writer, &bytes[written..])?;
    }
    Ok(())
}

// Writes at least one of the bytes. Returns how many.
fn write_some<W: Write>(writer: &mut Meter<W>, bytes: &[u8]) -> Result<usize, Fault>
    requires some { 0 < length bytes.now }
    requires calls { calls_of writer.old < u64.MAX }
    requires failures { failures_of writer.old < u64.MAX }
    ensures some { IfOk result (λ taken. 0 < taken) }
    ensures within { IfOk result (λ taken. taken ≤ length bytes.now) }
    ensures gained { IfOk result (λ taken.
        Appended W.contents writer.old writer.new (take taken bytes.now)) }
    ensures fault { IfErr result (λ fault. fault ≡ Fault.Write) }
    ensures counts { CountsCall writer.old writer.new (is_err result) }
{
    match writer.write(bytes) {
        Ok(0) | Err(_) => Err(Fault::Write),
        Ok(taken) => Ok(taken),
    }
}
