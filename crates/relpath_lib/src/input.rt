//! Reading the whole input.
ghost use Rattle.std.specs.Prelude.{◌≡◌, ◌+◌, ◌<◌, ◌≤◌, take, drop, length, vec_len, max, is_err, IfOk, IfErr, OnOk, OnErr};
ghost use Rattle.std.specs.Vec.{vec_capacity};
ghost use Rattle.relpath_lib.specs.Input.{max_input_len, IsRead, StopsShort};
ghost use Rattle.relpath_lib.specs.Meter.{
  calls_of,
  flushes_of,
  failures_of,
  IsFresh,
  CountsCall,
  Consumed,
  HasEnded,
  KeepsBytes,
};

use crate::fault::Fault;
use crate::meter::Meter;
use std::alloc::Global;
use std::io::Read;

/// How many bytes an input may have at most.
pub const MAX_INPUT: usize = 65_536;

// How many bytes the first read has room for, and how many bytes are set to zero at once.
const STEP: usize = 1_024;

/// Reads until a read returns no byte, or until more bytes came than an input may have. Allocates once,
/// before the first read.
pub fn read_input<R: Read>(alloc: Global, reader: &mut Meter<R>) -> Result<Vec<u8>, Fault>
    requires { IsFresh reader.old }
    ensures input { IfOk result (λ input. Consumed R.remaining reader.old reader.new input.items) }
    ensures end { OnOk result (HasEnded R.remaining reader.new) }
    ensures within { IfOk result (λ input. vec_len input ≤ max_input_len) }
    ensures read { OnOk result (IsRead reader.new) }
    ensures fault { IfErr result (λ fault. StopsShort R.remaining reader.old reader.new fault) }
    ensures reads { calls_of reader.new ≤ max_input_len + 1 }
    ensures flushes { flushes_of reader.new ≡ 0 }
{
    let mut input = Vec::with_capacity(alloc, MAX_INPUT + 1)?;
    let mut filled = 0;
    while filled <= MAX_INPUT {
        widen(&mut input, (4 * filled).clamp(STEP, MAX_INPUT + 1));
        let count = read_more(reader, input.as_mut_slice(), filled)?;
        if count == 0 {
            input.truncate(filled);
            return Ok(input);
        }
        filled += count;
    }
    Err(Fault::InputTooLong)
}

// Adds zeros up to this length, in steps. A short input needs few zeros, and one step costs little.
fn widen(input: &mut Vec<u8>, len: usize)
    requires { len ≤ vec_capacity input.old }
    ensures kept { take (vec_len input.old) input.new.items ≡ input.old.items }
    ensures len { vec_len input.new ≡ max (vec_len input.old) len }
    ensures capacity { vec_capacity input.old ≤ vec_capacity input.new }
{
    while input.len() < len {
        let next = (input.len() + STEP).min(len);
        input.resize(next, 0).unwrap();
    }
}

// Reads once into the bytes after the filled ones. Returns how many bytes came.
fn read_more<R: Read>(
    reader: &mut Meter<R>,
    input: &mut [u8],
    filled: usize,
) -> Result<usize, Fault>
    requires room { filled < length input.old }
    requires calls { calls_of reader.old < u64.MAX }
    requires failures { failures_of reader.old < u64.MAX }
    ensures front { take filled input.new ≡ take filled input.old }
    ensures within { IfOk result (λ count. filled + count ≤ length input.new) }
    ensures came { IfOk result (λ count.
        Consumed R.remaining reader.old reader.new (take count (drop filled input.new))) }
    ensures end { IfOk result (λ count. count ≡ 0 → HasEnded R.remaining reader.new) }
    ensures err { OnErr result (KeepsBytes R.remaining reader.old reader.new) }
    ensures fault { IfErr result (λ fault. fault ≡ Fault.Read) }
    ensures counts { CountsCall reader.old reader.new (is_err result) }
{
    reader.read(&mut input[filled..]).map_err(|_| Fault::Read)
}
