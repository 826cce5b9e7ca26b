//! Parts of a caller's text, and texts in a caller's memory.
ghost use Rattle.std.specs.Prelude.{◌≡◌, ◌≢◌, ◌≤◌, ◌<◌, ◌↔◌, ◌⊎◌, length, take, IfOk, IfErr, MatchOption, string_bytes};
ghost use Rattle.std.specs.Str.{IsUtf8};
ghost use Rattle.relative_path.specs.declared.error.WriteError.TheVariants as write_errors;
ghost use Rattle.relative_path_c.specs.Memory.{KeepsRest, Writes};
ghost use Rattle.relative_path_c.specs.Status.{done, absent, no_room, out_of_memory};

use crate::status::{ABSENT, DONE, NO_ROOM, OUT_OF_MEMORY, Written};
use relative_path::{RelativePathBuf, WriteError};
use std::alloc::AllocError;

// Hands out a part of a text, if there is one.
pub(crate) fn hand_out<'a>(found: Option<&'a str>, part: &mut &'a [u8]) -> u32
    ensures { MatchOption found.entry ((result ≡ absent) × (part.new ≡ part.old))
        (λ text. (result ≡ done) × (part.new.now ≡ text.now) × IsUtf8 text.now) }
{
    match found {
        Some(text) => {
            *part = text.as_bytes();
            DONE
        }
        None => ABSENT,
    }
}

// Returns what a call that wrote nothing returns.
pub(crate) fn nothing_written(status: u32) -> Written
    ensures status { result.status ≡ status }
    ensures len { result.len ≡ 0 }
{
    Written { status, len: 0 }
}

// Returns what a call that wrote into the caller's memory by itself returns.
pub(crate) fn written(outcome: Result<usize, WriteError>) -> Written
    ensures ok { IfOk outcome (λ len. (result.status ≡ done) × (result.len ≡ len)) }
    ensures err { IfErr outcome (λ error.
        ((result.status ≡ no_room) × (error ≡ write_errors.NoRoom result.len))
        ⊎ ((result.status ≡ out_of_memory) × (error ≡ write_errors.OutOfMemory))) }
{
    match outcome {
        Ok(len) => Written { status: DONE, len },
        Err(WriteError::NoRoom(len)) => Written {
            status: NO_ROOM,
            len,
        },
        Err(WriteError::OutOfMemory) => nothing_written(OUT_OF_MEMORY),
    }
}

// Writes a text at the start of the memory, if it fits.
pub(crate) fn write(text: &str, out: &mut [u8]) -> Written
    ensures done { (result.status ≡ done) ↔ (length text.now ≤ length out.old) }
    ensures no_room { (result.status ≡ no_room) ↔ (length out.old < length text.now) }
    ensures len { result.len ≡ length text.now }
    ensures text { Writes result.status result.len out.new (λ t. t ≡ text.now) }
    ensures rest { KeepsRest result.status result.len out.old out.new }
    ensures kept { result.status ≢ done → out.new ≡ out.old }
{
    let text = text.as_bytes();
    let len = text.len();
    if out.len() < len {
        return Written {
            status: NO_ROOM,
            len,
        };
    }
    out[..len].copy_from_slice(text);
    Written { status: DONE, len }
}

// Writes the path that a call made, if it could be made and fits.
pub(crate) fn write_path(made: Result<RelativePathBuf, AllocError>, out: &mut [u8]) -> Written
    ensures ok { IfOk made (λ path. (result.len ≡ length path.text)
        × ((result.status ≡ done) ↔ (length path.text ≤ length out.old))
        × ((result.status ≡ no_room) ↔ (length out.old < length path.text))
        × Writes result.status result.len out.new (λ t. t ≡ path.text)) }
    ensures err { IfErr made (λ error. result.status ≡ out_of_memory) }
    ensures rest { KeepsRest result.status result.len out.old out.new }
    ensures kept { result.status ≢ done → out.new ≡ out.old }
{
    match made {
        Ok(path) => write(path.as_relative_path().as_str(), out),
        Err(_) => nothing_written(OUT_OF_MEMORY),
    }
}

// Writes the text that a call made, if it could be made and fits.
pub(crate) fn write_string(made: Result<String, AllocError>, out: &mut [u8]) -> Written
    ensures ok { IfOk made (λ text. (result.len ≡ length (string_bytes text))
        × ((result.status ≡ done) ↔ (length (string_bytes text) ≤ length out.old))
        × ((result.status ≡ no_room) ↔ (length out.old < length (string_bytes text)))
        × Writes result.status result.len out.new (λ t. t ≡ string_bytes text)) }
    ensures err { IfErr made (λ error. result.status ≡ out_of_memory) }
    ensures rest { KeepsRest result.status result.len out.old out.new }
    ensures kept { result.status ≢ done → out.new ≡ out.old }
{
    match made {
        Ok(text) => write(text.as_str(), out),
        Err(_) => nothing_written(OUT_OF_MEMORY),
    }
}
