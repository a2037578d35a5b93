//! How faults print, against lines written out by hand.

use form_base::Status;
use std::alloc::{AllocError, Global};
use std::test::Fail;

/// Whether the status prints as this line.
fn prints(alloc: Global, status: Status, line: &str) -> Result<bool, AllocError> {
    let printed = format!(in alloc; "{status}")?;
    Ok(printed.as_str() == line)
}

#[test]
fn faults_print_as_lines(rt: HostRuntime) -> Result<(), Fail> {
    let alloc = rt.alloc();
    assert!(rt; prints(alloc, Status::StoreFault(3), "tform: store fault 3")?);
    assert!(rt; prints(alloc, Status::OutOfMemory, "tform: out of memory")?);
    Ok(())
}
