//! The caller that the page of `relpath_lib` shows.
ghost use Rattle.std.specs.Prelude.{IfOk};
ghost use Rattle.relpath_lib.specs.Output.{IsOutput};

use relpath_lib::{Fault, Meter, run};
use std::alloc::Global;
use std::test::Fail;

/// The output of commands that are in memory.
pub fn output_of(alloc: Global, commands: &[u8]) -> Result<Vec<u8>, Fault>
    ensures { IfOk result (λ output. IsOutput commands.now output.items) }
{
    let mut reader = Meter::new(commands);
    let mut writer = Meter::new(Vec::new(alloc));
    run::run(alloc, &mut reader, &mut writer)?;
    Ok(writer.into_inner())
}

#[test]
fn the_caller_of_the_page(rt: HostRuntime) -> Result<(), Fail> {
    let output = output_of(rt.alloc(), b"normalize\ta/../b\n")?;
    assert_eq!(rt; output.as_slice(), b"= b\n".as_slice());
    Ok(())
}
