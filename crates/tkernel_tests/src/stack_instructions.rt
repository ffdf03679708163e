//! PUSH, POP, and loads and stores by Y: of every register, with SREG full and empty, and at addresses inside
//! and outside the stack window, 0x0D00 to 0x10FF.
use crate::support::{Ended, ROOM, answer_of};
use std::alloc::Global;
use std::test::Fail;

/// What the registers and bytes of these tests hold.
const VALUE: u8 = 0xA5;

const NOP: u16 = 0x0000;

/// LDI of r16 to r31.
fn ldi(register: u16, value: u16) -> u16 {
    0xE000 | (value & 0xF0) << 4 | (register & 15) << 4 | value & 15
}

/// MOV of r18, which holds the value, to this register.
fn mov(register: u16) -> u16 {
    0x2E02 | (register & 16) << 4 | (register & 15) << 4
}

fn push(register: u16) -> u16 {
    0x920F | (register & 31) << 4
}

fn pop(register: u16) -> u16 {
    0x900F | (register & 31) << 4
}

/// LDD of a register with Y+q.
fn ldd(register: u16, q: u16) -> u16 {
    0x8008 | (register & 31) << 4 | (q & 0x20) << 8 | (q & 0x18) << 7 | q & 7
}

/// STD of a register with Y+q.
fn std(q: u16, register: u16) -> u16 {
    ldd(register, q) | 0x0200
}

/// What is set before the instruction.
#[derive(Clone, Copy)]
struct Before {
    sp: u16,
    y: u16,
    sreg: u8,
    /// The address at which the value is stored.
    at: u16,
}

/// A stack pointer in the midst of the window, and the value behind it.
const MIDST: Before = Before {
    sp: 0x0E00,
    y: 0,
    sreg: 0,
    at: 0x0E01,
};

/// The stack pointer, Y, r18 and the byte are set, then r17 and SREG; `last` may set another register; the
/// instruction is the 13th word, and the twelfth step.
fn run_to(alloc: Global, before: Before, last: u16, instruction: u16) -> Result<Ended, Fail> {
    let image = [
        ldi(16, before.sp >> 8),
        0xBF0E, // OUT SPH, r16
        ldi(16, before.sp & 0xFF),
        0xBF0D, // OUT SPL, r16
        ldi(28, before.y & 0xFF),
        ldi(29, before.y >> 8),
        ldi(18, u16::from(VALUE)),
        0x9320, // STS at, r18
        before.at,
        ldi(17, u16::from(before.sreg)),
        0xBF1F, // OUT SREG, r17
        last,
        instruction,
        0xCFFF,
    ];
    answer_of(alloc, &["run", "--steps", "12"], &image, b"", ROOM)
}

/// The registers where `last` has set one to the value.
fn registers(sreg: u8, set: u16) -> [u8; 32] {
    let mut registers = [0; 32];
    registers[17] = sreg;
    registers[18] = VALUE;
    registers[usize::from(set & 31)] = VALUE;
    registers
}

/// Plain steps and services: eleven steps of which three call the kernel, and the instruction's own.
fn counts(register: u16) -> (u64, u64) {
    if register < 30 { (30, 3) } else { (12, 4) }
}

#[test]
fn each_register_is_pushed(rt: HostRuntime) -> Result<(), Fail> {
    for register in 0..32u16 {
        for sreg in [0x00, 0xFF] {
            let before = Before { sreg, ..MIDST };
            let ended = run_to(rt.alloc(), before, mov(register), push(register))?;
            let machine = ended.machine()?;
            assert!(rt; machine.stack[0x00] == VALUE, "r{register}");
            assert!(rt; machine.program_sp == 0x0DFF, "r{register}");
            assert!(rt; machine.sreg == sreg, "r{register}");
            assert!(rt; machine.r == registers(sreg, register), "r{register}");
            assert!(rt;
                (machine.natural, machine.entries) == counts(register),
                "r{register}"
            );
        }
    }
    Ok(())
}

#[test]
fn each_register_is_popped(rt: HostRuntime) -> Result<(), Fail> {
    for register in 0..32u16 {
        for sreg in [0x00, 0xFF] {
            let before = Before { sreg, ..MIDST };
            let ended = run_to(rt.alloc(), before, NOP, pop(register))?;
            let machine = ended.machine()?;
            assert!(rt; machine.program_sp == 0x0E01, "r{register}");
            assert!(rt; machine.sreg == sreg, "r{register}");
            assert!(rt; machine.r == registers(sreg, register), "r{register}");
            assert!(rt;
                (machine.natural, machine.entries) == counts(register),
                "r{register}"
            );
        }
    }
    Ok(())
}

/// Loads of the value by Y and a displacement: inside the window, in the heap beside it, and from r0, where the
/// sum wraps at 65,536.
#[test]
fn a_load_by_y_reaches_every_address(rt: HostRuntime) -> Result<(), Fail> {
    let rows: [(u16, u16, u16, u64); 8] = [
        (0x0E00, 0, 0x0E00, 3),
        (0x0CFF, 1, 0x0D00, 3),
        (0x10C0, 63, 0x10FF, 3),
        (0x0CFF, 0, 0x0CFF, 4),
        (0x10C1, 63, 0x1100, 4),
        (0xFFF0, 15, 0xFFFF, 4),
        (0xFFFF, 1, 0x0F00, 4),
        (0xFFC1, 63, 0x0F00, 4),
    ];
    for (y, q, at, entries) in rows {
        let before = Before { y, at, ..MIDST };
        let ended = run_to(rt.alloc(), before, mov(0), ldd(5, q))?;
        let machine = ended.machine()?;
        assert!(rt; machine.r[5] == VALUE, "{y} {q}");
        assert!(rt; machine.entries == entries, "{y} {q}");
    }
    Ok(())
}

/// The registers of Y are data like any others.
#[test]
fn y_is_stored_and_loaded_by_itself(rt: HostRuntime) -> Result<(), Fail> {
    let before = Before { y: 0x0E17, ..MIDST };
    for (register, value) in [(28, 0x17), (29, 0x0E), (18, VALUE)] {
        let ended = run_to(rt.alloc(), before, NOP, std(2, register))?;
        let machine = ended.machine()?;
        assert!(rt; machine.stack[0x19] == value, "r{register}");
        assert!(rt; machine.entries == 3, "r{register}");
    }
    let before = Before {
        y: 0x0E17,
        at: 0x0E19,
        ..MIDST
    };
    for (register, y) in [(28, [VALUE, 0x0E]), (29, [0x17, VALUE])] {
        let ended = run_to(rt.alloc(), before, NOP, ldd(register, 2))?;
        let machine = ended.machine()?;
        assert!(rt; [machine.r[28], machine.r[29]] == y, "r{register}");
    }
    Ok(())
}
