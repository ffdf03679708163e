//! The line of a restart that can't be put.
use crate::support::answer_of;
use std::test::Fail;
use tkernel_cli::Status;

/// A part of the line goes out, and the second machine is kept before its first step.
#[test]
fn the_first_line_is_cut_short(rt: HostRuntime) -> Result<(), Fail> {
    // LDI r16, 3; DEC r16; BRNE back to it; RJMP to itself
    let image = [0xE003, 0x950A, 0xF7F1, 0xCFFF];
    let ended = answer_of(rt.alloc(), &["restart"], &image, b"", 10)?;
    assert!(rt; ended.status == Status::WriteFault);
    let machine = ended.machine()?;
    assert!(rt; machine.natural == 0);
    assert!(rt; !machine.broken);
    Ok(())
}
