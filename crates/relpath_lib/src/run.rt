//! Turns the whole input into the whole output.
ghost use Rattle.std.specs.Prelude.{◌≡◌, ◌≢◌, ◌+◌, ◌≤◌, ◌⊎◌, ◌↔◌, IfErr, OnOk, IsErrOf};
ghost use Rattle.relpath_lib.specs.Input.{
  max_input_len,
  IsAccepted,
  IsNotText,
  IsTooLong,
  IsRead,
  CameWithin,
  CameBeyond,
  ReadsAll,
};
ghost use Rattle.relpath_lib.specs.Meter.{calls_of, flushes_of, failures_of, IsFresh, IfKnown};
ghost use Rattle.relpath_lib.specs.Run.{Writes};

use crate::fault::Fault;
use crate::input::read_input;
use crate::meter::Meter;
use crate::output::{answer_lines, write_output};
use std::alloc::Global;
use std::io::{Read, Write};

/// Reads the whole input, then writes the answers to its lines and flushes once. If the call fails with
/// another fault than `Write`, nothing was written.
///
/// Tabs cut a line into fields. The first field is the command. The call allocates room for the longest
/// input before the first read. It then allocates the output, and what the call for each line does.
///
/// ```
/// let mut reader = Meter::new(b"normalize\ta/../b\n".as_slice());
/// let mut writer = Meter::new(Vec::new(alloc));
/// run::run(alloc, &mut reader, &mut writer)?;
/// assert_eq!(rt; writer.into_inner().as_slice(), b"= b\n".as_slice());
/// ```
pub fn run<R: Read, W: Write>(
    alloc: Global,
    reader: &mut Meter<R>,
    writer: &mut Meter<W>,
) -> Result<(), Fault>
    // the reader's meter has to be new
    requires reader { IsFresh reader.old }
    // the writer's meter has to be new
    requires writer { IsFresh writer.old }

    // at `Ok` the whole input was read and accepted
    ensures ok_read { OnOk result (ReadsAll R.remaining reader.old reader.new IsAccepted) }
    // at `Ok` one flush was made, and no call of the writer failed
    ensures ok_flushed { OnOk result ((flushes_of writer.new ≡ 1) × (failures_of writer.new ≡ 0)) }

    // `Read` exactly if one read failed
    ensures read { IsErrOf result Fault.Read ↔ (failures_of reader.new ≡ 1) }
    // at `Read` no more bytes than the limit came
    ensures read_came { IsErrOf result Fault.Read →
        CameWithin R.remaining reader.old reader.new }
    // `InputTooLong` exactly if reads succeeded and a known input exceeds the limit
    ensures too_long { IfKnown R.remaining reader.old (λ input.
        IsErrOf result Fault.InputTooLong ↔ IsRead reader.new × IsTooLong input) }
    // at `InputTooLong` no read failed, and more than the limit came
    ensures too_long_came { IsErrOf result Fault.InputTooLong →
        (failures_of reader.new ≡ 0) × CameBeyond R.remaining reader.old reader.new }
    // `NotText` exactly if reads succeeded and a known input within the limit isn't UTF-8
    ensures not_text { IfKnown R.remaining reader.old (λ input.
        IsErrOf result Fault.NotText ↔ IsRead reader.new × IsNotText input) }
    // at `NotText` the whole input was read, and isn't UTF-8
    ensures not_text_came { IsErrOf result Fault.NotText →
        ReadsAll R.remaining reader.old reader.new IsNotText }
    // at `OutOfMemory` nothing was read, or all of it accepted
    ensures out_of_memory_came { IsErrOf result Fault.OutOfMemory →
        (reader.new ≡ reader.old) ⊎ ReadsAll R.remaining reader.old reader.new IsAccepted }
    // `Write` exactly if one call of the writer failed
    ensures write { IsErrOf result Fault.Write ↔ (failures_of writer.new ≡ 1) }
    // at `Write` the whole input was read and accepted
    ensures write_came { IsErrOf result Fault.Write →
        ReadsAll R.remaining reader.old reader.new IsAccepted }

    // a known input has one output, which `Ok` wrote exactly
    ensures written { IfKnown R.remaining reader.old
        (Writes W.contents writer.old writer.new result) }
    // after any fault but `Write` the writer is as before
    ensures untouched { IfErr result (λ fault. fault ≢ Fault.Write → writer.new ≡ writer.old) }

    // at most 65,537 reads
    ensures reads { calls_of reader.new ≤ max_input_len + 1 }
    // at most one flush
    ensures flushes { flushes_of reader.new + flushes_of writer.new ≤ 1 }
    // at most one failed call
    ensures failures { failures_of reader.new + failures_of writer.new ≤ 1 }
{
    let input = read_input(alloc, reader)?;
    let text = str::from_utf8(input.as_slice()).map_err(|_| Fault::NotText)?;
    let output = answer_lines(alloc, text)?;
    write_output(writer, output.as_bytes())
}
