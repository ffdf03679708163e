//! Instructions of the manual, and registers of the datasheet.

use avr_isa::{Form, Instr, Ptr, Reg, io_access, size};
use std::test::Fail;

#[test]
fn a_load_that_changes_its_own_pointer_is_no_instruction(rt: HostRuntime) -> Result<(), Fail> {
    let r26 = Reg::new(26).ok_or("r26")?;
    assert!(rt; Instr::new(Form::LoadAt(r26, Ptr::XInc)).is_none());
    let load = Instr::new(Form::LoadAt(r26, Ptr::YInc)).ok_or("LD r26, Y+")?;
    assert!(rt; matches!(load.form(), Form::LoadAt(d, Ptr::YInc) if d.get() == 26));
    let store = Instr::new(Form::Sts(0x0101, r26)).ok_or("STS 0x0101, r26")?;
    assert!(rt; (size(&load), size(&store)) == (1, 2));
    Ok(())
}

/// PINA, UDR0, UCSR0C, SREG, a reserved address and one of SRAM: whether they may be read and written.
const DIRECTIONS: [(u16, bool, bool); 6] = [
    (0x39, true, false),
    (0x2C, true, true),
    (0x95, true, true),
    (0x5F, true, true),
    (0x5C, false, false),
    (0x0100, false, false),
];

#[test]
fn io_registers_have_their_directions(rt: HostRuntime) {
    for (address, read, write) in &DIRECTIONS {
        let access = io_access(*address);
        assert!(rt; access.read == *read, "{address}");
        assert!(rt; access.write == *write, "{address}");
    }
}
