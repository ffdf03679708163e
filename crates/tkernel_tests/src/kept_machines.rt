//! What a machine keeps that no line tells.
use crate::support::{ROOM, answer_of};
use std::test::Fail;

/// A call that is refused at the edge of the stack window stores nothing there, and leaves the stack pointer.
#[test]
fn a_refused_call_stores_nothing(rt: HostRuntime) -> Result<(), Fail> {
    let image = [0xE00D, 0xBF0E, 0xD000, 0xCFFF];
    let ended = answer_of(rt.alloc(), &["run"], &image, b"", ROOM)?;
    let machine = ended.machine()?;
    assert!(rt; machine.window_front == 0);
    assert!(rt; machine.program_sp == 0x0D00);
    Ok(())
}

/// The program's byte at 0x0100 is another than the kernel's there, which stands at the quantum.
#[test]
fn a_store_leaves_the_count(rt: HostRuntime) -> Result<(), Fail> {
    let image = [0xE707, 0x9300, 0x0100, 0x9110, 0x0100, 0xBB1B, 0xCFFF];
    let ended = answer_of(rt.alloc(), &["run"], &image, b"", ROOM)?;
    assert!(rt; ended.machine()?.count == 255);
    Ok(())
}

/// A store by X+ that swap has no slot for leaves X.
#[test]
fn a_refused_store_leaves_x(rt: HostRuntime) -> Result<(), Fail> {
    let image = [0xE0A0, 0xE0B2, 0x930D, 0xCFFF];
    let ended = answer_of(rt.alloc(), &["run", "--swap", "0"], &image, b"", ROOM)?;
    let machine = ended.machine()?;
    assert!(rt; [machine.r[26], machine.r[27]] == [0x00, 0x02]);
    Ok(())
}
