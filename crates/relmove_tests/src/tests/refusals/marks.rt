//! Marks among the requests for memory: allocations of sizes that nothing else allocates, which
//! tools/refuse.c knows.
use std::alloc::Global;
use std::test::Fail;

/// The requests of a call begin after this mark.
pub fn begin(alloc: Global) {
    let _ = String::with_capacity(alloc, 1_000_003);
}

/// The requests of a call that doesn't say that an allocation failed end before this mark.
pub fn end_answered(alloc: Global) {
    let _ = String::with_capacity(alloc, 1_000_037);
}

/// The requests of the call end before this mark. Its size says whether an allocation of the call
/// failed. If one did, tools/refuse.c makes this mark fail too. If the mark is granted although the
/// call says that an allocation failed, none failed, and the test fails.
pub fn end(alloc: Global, is_refused: bool) -> Result<(), Fail> {
    let size = if is_refused { 1_000_033 } else { 1_000_037 };
    let mark = String::with_capacity(alloc, size);
    if is_refused && mark.is_ok() {
        return Err(Fail::new("a refusal with memory at hand"));
    }
    Ok(())
}
