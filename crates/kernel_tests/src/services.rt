//! Calls of the kernel's entries.

ghost use Rattle.std.specs.Prelude.{◌≡◌, ◌<◌, ◌≤◌, ◌^◌, IfOk, true};
ghost use Rattle.heap_frames.specs.Paged.{IsPaged};
ghost use Rattle.kernel_entry.specs.Conditions.{CanServe, shape_behind};
ghost use Rattle.kernel_entry.specs.Parts.{descriptor as called_address};

use flash_model::Layout;
use flat_machine::Part;
use kernel_entry::{Kernel, Served, Stop, Taken, interrupt, serve};
use mem_guard::instruction_in_image;
use mote_core::Mote;
use nat_template::entries::{BRIDGE, FAULT, INDIRECT, MEM, PUSH_RETURN, QUANTUM, RETURN, SELF};
use nat_template::{TemplateShape, shape};
use std::process::Abort;
use std::test::Fail;

/// A program, and from word 32 on the words 0 to 31, which serve as descriptors.
const IMAGE: [u16; 64] = [
    0x930F, 0x910F, // 0 PUSH r16, 1 POP r16
    0xD000, 0x9508, 0x9518, // 2 RCALL 3, 3 RET, 4 RETI
    0x9409, 0x9509, 0xCFFF, // 5 IJMP, 6 ICALL, 7 RJMP 7
    0x9588, 0x95E8, 0x0001, // 8 SLEEP, 9 SPM, 10 no instruction
    0xBB0C, 0x9AC8, // 11 OUT to EECR, 12 SBI of PINA
    0x9300, 0x0100, 0x9110, 0x0100, // 13 STS 0x0100, r16, 15 LDS r17, 0x0100
    0x930D, 0x8119, 0x9124, 0x9146, // 17 ST X+, r16, 18 LDD r17, Y+1, 19 LPM r18, Z, 20 ELPM r20, Z
    0xB71D, 0xBF0E, // 21 IN r17, SPL, 22 OUT SPH, r16
    0x911E, 0x9309, 0x911A, 0x9301, 0x9112, // 23 LD r17, -X, 24 ST Y+, r16, 25 LD r17, -Y, 26 ST Z+, r16, 27 LD r17, -Z
    0x940E, 0x0003, 0xC000, 0x0000, // 28 CALL 3, 30 RJMP 31, 31 NOP
    0, 1, 2, 3, 4, 5, 6, 7, 8, 9, 10, 11, 12, 13, 14, 15, //
    16, 17, 18, 19, 20, 21, 22, 23, 24, 25, 26, 27, 28, 29, 30, 31,
];

/// A kernel at boot, with this many swap slots. Tests put it in a box: where a kernel itself is let go, the proof goes through
/// all its parts.
fn kernel_at_boot(rt: &HostRuntime, slots: u8) -> Result<Kernel, Fail>
    requires { slots ≤ 251 }
    ensures paged { IfOk result (λ k. IsPaged k.mote.sram k.mote.swap) }
{
    let script = input_script::read(rt.alloc(), b"at 7 int 5\nat 7 int 2")?;
    let mote = Mote::new(rt.alloc(), &IMAGE, script, slots)?;
    Ok(Kernel {
        mote,
        layout: Layout::of(64),
        part: Part {
            first: 0,
            count: 64,
            shut: false,
        },
        quantum: 3,
    })
}

/// The word behind the call.
fn descriptor(k: &Kernel) -> u16
    ensures value { result ≡ called_address k.now }
{
    let high = u16::from(k.mote.sram.byte(0x011E));
    let low = u16::from(k.mote.sram.byte(0x011F));
    k.mote.flash.word(high * 256 + low)
}

/// The form that the instruction at the descriptor's address takes.
fn called_shape(k: &Kernel) -> TemplateShape
    ensures value { result ≡ shape_behind k.now }
{
    let at = descriptor(k);
    let instr = instruction_in_image(&k.mote.flash, &k.layout, at);
    shape(at, instr.as_ref())
}

/// Whether the service may be asked; the layers above prove it instead. BRIDGE and QUANTUM are called with
/// the address of a native instruction and of a jump here.
fn may_serve(k: &Kernel) -> bool
    requires paged { IsPaged k.now.mote.sram k.now.mote.swap }
    ensures can { result ≡ true → CanServe k.now }
{
    let pc = k.mote.cpu.pc;
    let count = k.mote.sram.count();
    if k.mote.devices.polls() >= 1000 {
        return false;
    }
    if count < 1 {
        return false;
    }
    if k.quantum < count {
        return false;
    }
    match called_shape(k) {
        TemplateShape::Native => pc == BRIDGE,
        TemplateShape::Jump => pc == QUANTUM,
        TemplateShape::Mem => pc == MEM,
        TemplateShape::Call => pc == PUSH_RETURN,
        TemplateShape::Ret => pc == RETURN,
        TemplateShape::Ind => pc == INDIRECT,
        TemplateShape::SelfJump => pc == SELF,
        TemplateShape::Fault => pc == FAULT,
        TemplateShape::Branch | TemplateShape::Skip => false,
    }
}

/// A call of an entry: for which address, with the program's stack pointer and SREG.
#[derive(Clone, Copy)]
struct Call {
    entry: u16,
    at: u16,
    sp: u16,
    sreg: u8,
}

/// Makes the call with COUNT 3 and what a stub keeps in the cells of r24 and SREG, and serves.
fn served(rt: &impl Abort, k: &mut Kernel, call: Call) -> Served
    requires paged { IsPaged k.old.mote.sram k.old.mote.swap }
    ensures paged { IsPaged k.new.mote.sram k.new.mote.swap }
{
    k.mote.cpu.pc = call.entry;
    k.mote.cpu.sp = 0x011D;
    k.mote.cpu.sreg = call.sreg;
    k.mote.sram.set(0x011E, 0);
    k.mote.sram.set(0x011F, 32 + (call.at % 32) as u8);
    k.mote.sram.set_count(3);
    k.mote.sram.set_r24(0x5A);
    k.mote.sram.set_sreg(0x15);
    k.mote.sram.set_vsp(call.sp);
    assert!(rt; may_serve(k));
    serve(k)
}

/// Whether the devices' count of polls is far from its end.
fn may_take(k: &Kernel) -> bool
    ensures left { result ≡ true → k.now.mote.devices.polls < 2 ^ 63 }
{
    k.mote.devices.polls() < 1000
}

/// Sets the program's stack pointer, and takes an interrupt, where one is wanted, before the target.
fn taken(rt: &impl Abort, k: &mut Kernel, target: u16, sp: u16) -> Taken
    requires paged { IsPaged k.old.mote.sram k.old.mote.swap }
    ensures paged { IsPaged k.new.mote.sram k.new.mote.swap }
{
    assert!(rt; may_take(k));
    k.mote.sram.set_vsp(sp);
    interrupt(k, target)
}

/// The program's stack pointer and SREG, and COUNT.
fn left(k: &Kernel) -> (u16, u8, u8) {
    (k.mote.sram.vsp(), k.mote.cpu.sreg, k.mote.sram.count())
}

/// The call with Z 0xFFFF is answered so, and leaves these.
fn is_served(rt: &impl Abort, k: &mut Kernel, call: Call, want: Told, after: (u16, u8, u8))
    requires paged { IsPaged k.old.mote.sram k.old.mote.swap }
    ensures paged { IsPaged k.new.mote.sram k.new.mote.swap }
{
    k.mote.cpu.r[30] = 0xFF;
    k.mote.cpu.r[31] = 0xFF;
    assert!(rt;
        told(served(rt, k, call)) == want,
        "{} {}",
        call.entry,
        call.at
    );
    assert!(rt; left(k) == after, "{} {}", call.entry, call.at);
    assert!(rt; k.mote.cpu.sp == 0x011F);
}

/// What a service answered: its name, and the address with a second one, or 0.
type Told = (&'static str, u16, u16);

/// Control goes on behind the call.
const ON: Told = ("resume", 0, 0);

fn told(answer: Served) -> Told {
    match answer {
        Served::Resume(None) => ON,
        Served::Resume(Some(_)) => ("shown", 0, 0),
        Served::Goto { target, stub: None } => ("goto", target, 0),
        Served::Goto {
            target,
            stub: Some(stub),
        } => ("bridge", target, stub),
        Served::Woke { target } => ("woke", target, 0),
        Served::Stopped(stop) => told_stop(stop),
    }
}

fn told_stop(stop: Stop) -> Told {
    match stop {
        Stop::Halted(at) => ("halted", at, 0),
        Stop::Asleep(at) => ("asleep", at, 0),
        Stop::Illegal(at) => ("illegal", at, 0),
        Stop::SelfProgram(at) => ("selfprogram", at, 0),
        Stop::Read(at, word) => ("read", at, word),
        Stop::Io(at, address) => ("io", at, address),
        Stop::Stack(at, address) => ("stack", at, address),
        Stop::SwapFull(at, address) => ("swap", at, address),
    }
}

/// Entry, address and SP; the answer, and what is left. A return finds what an earlier call pushed.
static WINDOW: [(u16, u16, u16, Told, (u16, u8, u8)); 11] = [
    (PUSH_RETURN, 2, 0x0CFF, ("stack", 2, 0x0CFF), (0x0CFF, 0, 3)),
    (PUSH_RETURN, 2, 0x0D00, ("stack", 2, 0x0CFF), (0x0D00, 0, 3)),
    (PUSH_RETURN, 2, 0x0D01, ON, (0x0CFF, 0, 3)),
    (PUSH_RETURN, 2, 0x1100, ("stack", 2, 0x1100), (0x1100, 0, 3)),
    (PUSH_RETURN, 28, 0x10FF, ON, (0x10FD, 0, 3)),
    (RETURN, 3, 0x10FD, ("goto", 30, 0), (0x10FF, 0, 3)),
    (RETURN, 4, 0x0CFF, ("goto", 3, 0), (0x0D01, 0x80, 2)),
    (RETURN, 3, 0x10FE, ("stack", 3, 0x1100), (0x10FE, 0, 3)),
    (INDIRECT, 5, 0, ("goto", 0xFFFF, 0), (0, 0, 2)),
    (INDIRECT, 6, 0x0D01, ("goto", 0xFFFF, 0), (0x0CFF, 0, 2)),
    (INDIRECT, 6, 0x0CFF, ("stack", 6, 0x0CFF), (0x0CFF, 0, 3)),
];

#[test]
fn calls_and_returns_use_the_stack_window(rt: HostRuntime) -> Result<(), Fail> {
    let mut k = Box::new(rt.alloc(), kernel_at_boot(&rt, 0)?)?;
    for (entry, at, sp, want, after) in &WINDOW {
        let call = Call {
            entry: *entry,
            at: *at,
            sp: *sp,
            sreg: 0,
        };
        is_served(&rt, &mut k, call, *want, *after);
    }
    Ok(())
}

/// Entry, address and SREG; the answer, and SREG and COUNT then. QUANTUM gives r24 and SREG back.
static ENDS: [(u16, u16, u8, Told, u8, u8); 9] = [
    (SELF, 7, 0x7F, ("halted", 7, 0), 0x7F, 3),
    (SELF, 7, 0x80, ("goto", 7, 0), 0x80, 2),
    (FAULT, 8, 0, ("asleep", 8, 0), 0, 3),
    (FAULT, 9, 0, ("selfprogram", 9, 0), 0, 3),
    (FAULT, 10, 0, ("illegal", 10, 0), 0, 3),
    (FAULT, 11, 0, ("io", 11, 0x3C), 0, 3),
    (FAULT, 12, 0, ("io", 12, 0x39), 0, 3),
    (QUANTUM, 30, 0, ("goto", 30, 0), 0x15, 3),
    (BRIDGE, 31, 0, ("bridge", 31, 61), 0, 3),
];

#[test]
fn ends_and_steps_of_the_kernel(rt: HostRuntime) -> Result<(), Fail> {
    let mut k = Box::new(rt.alloc(), kernel_at_boot(&rt, 0)?)?;
    for (entry, at, sreg, want, sreg_after, count) in &ENDS {
        let call = Call {
            entry: *entry,
            at: *at,
            sp: 0,
            sreg: *sreg,
        };
        is_served(&rt, &mut k, call, *want, (0, *sreg_after, *count));
    }
    assert!(rt; k.mote.cpu.r[24] == 0x5A);
    Ok(())
}

/// SLEEP, of a program that has interrupts enabled.
const SLEEP: Call = Call {
    entry: FAULT,
    at: 8,
    sp: 0x10FF,
    sreg: 0x80,
};

/// SLEEP goes on behind itself at poll 7, once INT5 and INT2 are enabled.
fn wakes_at_poll_7(rt: &impl Abort, k: &mut Kernel)
    requires paged { IsPaged k.old.mote.sram k.old.mote.swap }
    ensures paged { IsPaged k.new.mote.sram k.new.mote.swap }
{
    is_served(rt, k, SLEEP, ("asleep", 8, 0), (0x10FF, 0x80, 3));
    assert!(rt; matches!(taken(rt, k, 9, 0x10FF), Taken::Nothing));
    assert!(rt; k.mote.devices.polls() == 0);
    assert!(rt; k.mote.devices.write(0x59, 0x24) == Ok(None));
    is_served(rt, k, SLEEP, ("woke", 9, 0), (0x10FF, 0x80, 3));
    assert!(rt; k.mote.devices.polls() == 7);
    assert!(rt; k.mote.devices.enabled() == 0x24);
}

/// INT2 is taken before INT5, where the program's stack has room, and its return address is pushed.
fn takes_the_lower_one(rt: &impl Abort, k: &mut Kernel)
    requires paged { IsPaged k.old.mote.sram k.old.mote.swap }
    ensures paged { IsPaged k.new.mote.sram k.new.mote.swap }
{
    assert!(rt;
        matches!(
            taken(rt, k, 9, 0x0D00),
            Taken::Stopped(Stop::Stack(9, 0x0CFF))
        )
    );
    assert!(rt; left(k) == (0x0D00, 0x80, 3));
    assert!(rt; matches!(taken(rt, k, 0x1234, 0x10FF), Taken::Vector(6)));
    assert!(rt; left(k) == (0x10FD, 0x00, 3));
    assert!(rt; k.mote.sram.byte(0x10FF) == 0x34);
    assert!(rt; k.mote.sram.byte(0x10FE) == 0x12);
}

#[test]
fn an_interrupt_ends_a_sleep(rt: HostRuntime) -> Result<(), Fail> {
    let mut k = Box::new(rt.alloc(), kernel_at_boot(&rt, 0)?)?;
    wakes_at_poll_7(&rt, &mut k);
    takes_the_lower_one(&rt, &mut k);
    assert!(rt; k.mote.devices.enabled() == 0x20);
    assert!(rt; matches!(taken(&rt, &mut k, 6, 0x10FD), Taken::Nothing));
    Ok(())
}

/// Serves the instruction at an address, with X, Y and Z at the pointer, 0x77 in r16 and nothing in r17.
fn accessed(rt: &impl Abort, k: &mut Kernel, at: u16, pointer: u16, sp: u16) -> Served
    requires paged { IsPaged k.old.mote.sram k.old.mote.swap }
    ensures paged { IsPaged k.new.mote.sram k.new.mote.swap }
{
    k.mote.cpu.r[16] = 0x77;
    k.mote.cpu.r[17] = 0;
    let low = (pointer % 256) as u8;
    let high = (pointer / 256) as u8;
    k.mote.cpu.r[26] = low;
    k.mote.cpu.r[27] = high;
    k.mote.cpu.r[28] = low;
    k.mote.cpu.r[29] = high;
    k.mote.cpu.r[30] = low;
    k.mote.cpu.r[31] = high;
    let call = Call {
        entry: MEM,
        at,
        sp,
        sreg: 0,
    };
    served(rt, k, call)
}

/// Address, pointer and SP; the answer, r17 and SP then. One page has a slot.
static ACCESSES: [(u16, u16, u16, Told, u8, u16); 18] = [
    (13, 0, 0, ON, 0, 0),
    (15, 0, 0, ON, 0x77, 0),
    (17, 0x0200, 0, ("swap", 17, 0x0200), 0, 0),
    (17, 0x0D00, 0, ON, 0, 0),
    (18, 0x00FF, 0, ON, 0x77, 0),
    (23, 0x0D01, 0, ON, 0x77, 0),
    (24, 0x10FF, 0, ON, 0, 0),
    (25, 0x1100, 0, ON, 0x77, 0),
    (26, 0x00FF, 0, ("io", 26, 0x00FF), 0, 0),
    (26, 0x01FF, 0, ON, 0, 0),
    (27, 0x0200, 0, ON, 0x77, 0),
    (21, 0, 0x1234, ON, 0x34, 0x1234),
    (22, 0, 0x1234, ON, 0, 0x7734),
    (0, 0, 0x0CFF, ("stack", 0, 0x0CFF), 0, 0x0CFF),
    (0, 0, 0x10FF, ON, 0, 0x10FE),
    (1, 0, 0x10FE, ON, 0, 0x10FF),
    (19, 1, 0, ON, 0, 0),
    (20, 1, 0, ON, 0, 0),
];

/// The access of a row is answered, and leaves, as the row says.
fn is_accessed(rt: &impl Abort, k: &mut Kernel, access: (u16, u16, u16, Told, u8, u16))
    requires paged { IsPaged k.old.mote.sram k.old.mote.swap }
    ensures paged { IsPaged k.new.mote.sram k.new.mote.swap }
{
    let (at, pointer, sp, want, r17, sp_after) = access;
    let answer = told(accessed(rt, k, at, pointer, sp));
    assert!(rt; answer == want, "{at}");
    let pc = if want == ON { at.wrapping_add(33) } else { MEM };
    has_gone_on(rt, k, at, r17, sp_after, pc);
}

/// An access at an address has left these.
fn has_gone_on(rt: &impl Abort, k: &Kernel, at: u16, r17: u8, sp: u16, pc: u16) {
    assert!(rt; left(k) == (sp, 0, 3), "{at}");
    assert!(rt; k.mote.cpu.r[17] == r17, "{at}");
    assert!(rt; k.mote.cpu.pc == pc, "{at}");
}

#[test]
fn loads_and_stores_reach_the_programs_memory(rt: HostRuntime) -> Result<(), Fail> {
    let mut k = Box::new(rt.alloc(), kernel_at_boot(&rt, 1)?)?;
    for access in &ACCESSES {
        is_accessed(&rt, &mut k, *access);
    }
    assert!(rt; k.mote.cpu.r[18] == 0x93);
    assert!(rt; k.mote.cpu.r[20] == 0x93);
    Ok(())
}

/// ELPM with RAMPZ set reads behind the image.
#[test]
fn no_program_byte_stands_behind_the_image(rt: HostRuntime) -> Result<(), Fail> {
    let mut k = Box::new(rt.alloc(), kernel_at_boot(&rt, 0)?)?;
    k.mote.devices.set_rampz(1);
    let answer = accessed(&rt, &mut k, 20, 1, 0);
    assert!(rt; told(answer) == ON);
    assert!(rt; k.mote.cpu.r[20] == 0xFF);
    assert!(rt; k.mote.sram.count() == 3);
    Ok(())
}
