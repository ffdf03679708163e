//! Plain steps of the mote.

ghost use Rattle.std.specs.Prelude.{◌≡◌};
ghost use Rattle.mote_core.specs.Conditions.{can_step, is_mapped as is_mapped_test};
ghost use Rattle.mote_core.specs.Physical.{is_sram as is_sram_test};
ghost use Rattle.mote_core.specs.Step.{form_at};

use crate::support::ample;
use avr_decode::decode;
use avr_exec::{Ask, asks};
use avr_isa::{Form, io_access};
use input_script::read;
use mote_core::{Line, Mote, Plain, Port};
use std::alloc::Global;
use std::process::Abort;

/// Whether a byte of SRAM has this data address.
fn is_sram(a: u16) -> bool
    ensures value { result ≡ is_sram_test a }
{
    0x0100 <= a && a <= 0x10FF
}

/// Whether what is asked is mapped; the layers above prove it instead.
#[tactic(auto, unfolding(mote_core::specs::Conditions::is_mapped))]
fn is_mapped(ask: &Ask) -> bool
    ensures value { result ≡ is_mapped_test ask.now }
{
    match *ask {
        Ask::Load(a) => is_sram(a) || io_access(a).read,
        Ask::Store(a, _) => is_sram(a) || io_access(a).write,
        Ask::Modify(a, _, _) => io_access(a).read && io_access(a).write,
        Ask::PushByte(sp, _) => is_sram(sp),
        Ask::PopByte(sp) => is_sram(sp.wrapping_add(1)),
        Ask::PushReturn(sp, _) => is_sram(sp) && is_sram(sp.wrapping_sub(1)),
        Ask::PopReturn(sp) => is_sram(sp.wrapping_add(1)) && is_sram(sp.wrapping_add(2)),
        _ => true,
    }
}

/// Whether a step may be made.
#[tactic(auto, unfolding(mote_core::specs::Conditions::can_step, avr_exec::specs::Execution::is_executed))]
fn may_step(mote: &Mote) -> bool
    ensures value { result ≡ can_step (form_at mote.now) mote.now.cpu }
{
    let pc = mote.cpu.pc;
    let second = mote.flash.word(pc.wrapping_add(1));
    match decode(mote.flash.word(pc), second) {
        None => false,
        Some(instr) => match instr.form() {
            Form::Sleep | Form::Spm => false,
            _ => is_mapped(&asks(&instr, &mote.cpu)),
        },
    }
}

/// The line that a step shows, if it shows one.
fn line_of(step: Plain) -> Option<Line> {
    match step {
        Plain::Went => None,
        Plain::Wrote(line) => Some(line),
    }
}

/// What the program leaves in registers and SRAM.
fn has_run(rt: &impl Abort, mote: &Mote) {
    assert!(rt; (mote.cpu.pc, mote.cpu.sp, mote.cpu.sreg) == (0x1234, 0x011D, 0));
    assert!(rt;
        [
            mote.cpu.r[17],
            mote.cpu.r[18],
            mote.cpu.r[19],
            mote.cpu.r[20]
        ] == [0x5A, 0x5A, 0x77, 0x0A]
    );
    assert!(rt;
        [
            mote.sram.byte(0x10FF),
            mote.sram.byte(0x011E),
            mote.sram.byte(0x011F)
        ] == [0x5A, 0x00, 0x10]
    );
}

/// A program of eleven steps.
const IMAGE: [u16; 16] = [
    0xE50A, // LDI r16, 0x5A
    0xBB0A, // OUT DDRA, r16
    0x930F, // PUSH r16
    0x911F, // POP r17
    0x9300, 0x10FF, // STS 0x10FF, r16
    0x9120, 0x10FF, // LDS r18, 0x10FF
    0xFF01, // SBRS r16, 1
    0x940C, 0x0000, // JMP 0, passed over
    0x9AD8, // SBI PORTA, 0
    0xB339, // IN r19, PINA
    0x9144, // LPM r20, Z
    0x940E, 0x1234, // CALL 0x1234
];

/// What each step shows.
const SHOWN: [Option<Line>; 11] = [
    None,
    Some(Line {
        port: Port::DdrA,
        value: 0x5A,
    }),
    None,
    None,
    None,
    None,
    None,
    Some(Line {
        port: Port::PortA,
        value: 1,
    }),
    None,
    None,
    None,
];

/// A mote with the program. It is in a box: where a mote itself is let go, the proof goes through all its parts.
fn loaded(rt: &impl Abort, alloc: Global) -> Box<Mote> {
    let Ok(script) = read(alloc, b"at 1 pina 0x77") else {
        panic!(rt; "the script has a fault")
    };
    match Mote::new(alloc, &IMAGE, script, 0) {
        Ok(mote) => ample(rt, Box::new(alloc, mote)),
        Err(_) => panic!(rt; "memory is ample"),
    }
}

/// Makes a step, and answers what it shows.
fn shown(rt: &impl Abort, mote: &mut Mote) -> Option<Line> {
    assert!(rt; may_step(mote));
    assert!(rt; mote.devices.polls() < 1000);
    line_of(mote.plain_step())
}

/// What each step shows outside, and the registers and the stack at the end.
#[test]
fn a_program_in_flash(rt: HostRuntime) {
    let mut mote = loaded(&rt, rt.alloc());
    for (step, want) in SHOWN.iter().enumerate() {
        assert!(rt; shown(&rt, &mut mote) == *want, "step {step}");
    }
    has_run(&rt, &mote);
}
