//! Accesses of the guarded memory.

ghost use Rattle.std.specs.Prelude.{◌≡◌, ◌≤◌, IfOk};
ghost use Rattle.avr_exec.specs.Execution.{is_executed as is_executed_form};
ghost use Rattle.heap_frames.specs.Paged.{IsPaged};

use avr_decode::decode;
use avr_exec::{BusStop, Cpu, exec};
use avr_isa::{Form, Instr};
use flash_model::{Flash, Layout};
use mem_guard::{AddrClass, VirtualBus, class};
use mote_devices::{Devices, Line, Port};
use sram_layout::Sram;
use std::process::Abort;
use std::test::Fail;
use swap_store::Swap;

/// The mote's parts at boot, with a program of two words.
#[derive(Drop)]
struct Parts {
    sram: Sram,
    swap: Swap,
    devices: Devices,
    flash: Flash,
    layout: Layout,
}

fn parts_at_boot(rt: &HostRuntime, slots: u8) -> Result<Parts, Fail>
    requires { slots ≤ 251 }
    ensures paged { IfOk result (λ p. IsPaged p.sram p.swap) }
{
    let script = input_script::read(rt.alloc(), b"at 1 pina 0x77")?;
    let flash = Flash::new(rt.alloc(), &[0x1234, 0x5678], &[])?;
    let swap = Swap::new(rt.alloc(), slots)?;
    Ok(Parts {
        sram: Sram::new(),
        swap,
        devices: Devices::new(script),
        flash,
        layout: Layout::of(2),
    })
}

fn cpu_at_reset() -> Cpu {
    Cpu {
        r: [0; 32],
        sreg: 0,
        sp: 0,
        pc: 0,
    }
}

#[tactic(auto, unfolding(avr_exec::specs::Execution::is_executed))]
fn is_executed(i: &Instr) -> bool
    ensures { result ≡ is_executed_form i.now }
{
    !matches!(i.form(), Form::Sleep | Form::Spm)
}

/// Executes the instruction that has these words, and says what it showed outside.
fn execute(
    rt: &impl Abort,
    cpu: &mut Cpu,
    parts: &mut Parts,
    words: (u16, u16),
) -> Result<Option<Line>, BusStop>
    requires paged { IsPaged parts.old.sram parts.old.swap }
    ensures paged { IsPaged parts.new.sram parts.new.swap }
{
    let instr = decode(words.0, words.1).expect(rt, "an instruction");
    assert!(rt; is_executed(&instr));
    assert!(rt; parts.devices.polls() < 1000);
    let mut bus = VirtualBus {
        sram: &mut parts.sram,
        swap: &mut parts.swap,
        devices: &mut parts.devices,
        flash: &parts.flash,
        layout: &parts.layout,
        line: None,
    };
    exec(&instr, cpu, &mut bus, 1)?;
    Ok(bus.line)
}

/// Executes an instruction that shows nothing.
fn execute_silently(rt: &impl Abort, cpu: &mut Cpu, parts: &mut Parts, words: (u16, u16))
    requires paged { IsPaged parts.old.sram parts.old.swap }
    ensures paged { IsPaged parts.new.sram parts.new.swap }
{
    assert!(rt; execute(rt, cpu, parts, words) == Ok(None));
}

/// LDS brings this value.
fn is_loaded(rt: &impl Abort, cpu: &mut Cpu, parts: &mut Parts, a: u16, value: u8)
    requires paged { IsPaged parts.old.sram parts.old.swap }
    ensures paged { IsPaged parts.new.sram parts.new.swap }
{
    execute_silently(rt, cpu, parts, (0x9110, a));
    assert!(rt; cpu.r[17] == value, "{a}");
}

/// ST X+, r16 leaves this in r0, and the pointer there.
fn is_stored(rt: &impl Abort, cpu: &mut Cpu, parts: &mut Parts, r0: u8, low: u8)
    requires paged { IsPaged parts.old.sram parts.old.swap }
    ensures paged { IsPaged parts.new.sram parts.new.swap }
{
    execute_silently(rt, cpu, parts, (0x930D, 0));
    assert!(rt; cpu.r[0] == r0);
    assert!(rt; cpu.r[26] == low);
    assert!(rt; cpu.r[27] == 0);
}

#[test]
fn classes(rt: HostRuntime) {
    let wanted = [
        (0x0000, AddrClass::Register),
        (0x001F, AddrClass::Register),
        (0x0020, AddrClass::Io),
        (0x005C, AddrClass::Io),
        (0x005E, AddrClass::Cpu),
        (0x00FF, AddrClass::Io),
        (0x0100, AddrClass::Heap),
        (0x0D00, AddrClass::Stack),
        (0x10FF, AddrClass::Stack),
        (0x1100, AddrClass::Heap),
        (0xFFFF, AddrClass::Heap),
    ];
    for (a, want) in wanted {
        assert!(rt; class(a) == want, "{a}");
    }
}

/// STS and LDS bring a value of the address's own there and back.
fn is_kept(rt: &impl Abort, cpu: &mut Cpu, parts: &mut Parts, a: u16)
    requires paged { IsPaged parts.old.sram parts.old.swap }
    ensures paged { IsPaged parts.new.sram parts.new.swap }
{
    let value = (a / 16 % 256) as u8;
    cpu.r[16] = value;
    cpu.r[17] = 0;
    execute_silently(rt, cpu, parts, (0x9300, a));
    is_loaded(rt, cpu, parts, a, value);
}

/// The instruction that has these words is stopped so.
fn is_stopped(rt: &impl Abort, cpu: &mut Cpu, parts: &mut Parts, words: (u16, u16), stop: BusStop)
    requires paged { IsPaged parts.old.sram parts.old.swap }
    ensures paged { IsPaged parts.new.sram parts.new.swap }
{
    assert!(rt; execute(rt, cpu, parts, words) == Err(stop));
}

/// STS and LDS at each class: three pages of the heap have a slot, and the fourth has none.
#[test]
fn loads_and_stores(rt: HostRuntime) -> Result<(), Fail> {
    let mut parts = Box::new(rt.alloc(), parts_at_boot(&rt, 3)?)?;
    let mut cpu = cpu_at_reset();
    for a in [0x0CFF, 0x0D00, 0x10FF, 0x1100, 0x0100] {
        is_kept(&rt, &mut cpu, &mut parts, a);
    }
    is_stopped(
        &rt,
        &mut cpu,
        &mut parts,
        (0x9300, 0x0200),
        BusStop::SwapFull(0x0200),
    );
    cpu.sp = 0x1234;
    for (a, value) in [(0x0010, 0x10), (0x005E, 0x12), (0x0039, 0x77), (0x0200, 0)] {
        is_loaded(&rt, &mut cpu, &mut parts, a, value);
    }
    is_stopped(
        &rt,
        &mut cpu,
        &mut parts,
        (0x9110, 0x003C),
        BusStop::Io(0x003C),
    );
    assert!(rt; parts.sram.byte(0x0D00) == 0xD0);
    assert!(rt; parts.sram.byte(0x10FF) == 0x0F);
    assert!(rt; parts.sram.count() == 0);
    Ok(())
}

/// ST and LDD with a pointer that passes 0xFFFF: what lies there is r0.
#[test]
fn past_the_last_address(rt: HostRuntime) -> Result<(), Fail> {
    let mut parts = Box::new(rt.alloc(), parts_at_boot(&rt, 1)?)?;
    let mut cpu = cpu_at_reset();
    cpu.r[16] = 0x5A;
    cpu.r[26] = 0xFF;
    cpu.r[27] = 0xFF;
    cpu.r[28] = 0xFF;
    cpu.r[29] = 0xFF;
    is_stored(&rt, &mut cpu, &mut parts, 0, 0);
    is_stored(&rt, &mut cpu, &mut parts, 0x5A, 1);
    let load = (0x8119, 0); // LDD r17, Y+1
    execute_silently(&rt, &mut cpu, &mut parts, load);
    assert!(rt; cpu.r[17] == 0x5A);
    let program = (0x9124, 0); // LPM r18, Z
    for (z, byte) in [(0, 0x34), (3, 0x56), (4, 0xFF)] {
        cpu.r[30] = z;
        execute_silently(&rt, &mut cpu, &mut parts, program);
        assert!(rt; cpu.r[18] == byte);
    }
    Ok(())
}

/// PINA may be read and not written, so SBI of it is refused before the poll.
#[test]
fn a_register_of_one_direction(rt: HostRuntime) -> Result<(), Fail> {
    let mut parts = Box::new(rt.alloc(), parts_at_boot(&rt, 0)?)?;
    let mut cpu = cpu_at_reset();
    let pins = (0x9AC8, 0); // SBI PINA, 0
    is_stopped(&rt, &mut cpu, &mut parts, pins, BusStop::Io(0x39));
    assert!(rt; parts.devices.polls() == 0);
    let port = (0x9AD8, 0); // SBI PORTA, 0
    let shown = Line {
        port: Port::PortA,
        value: 1,
    };
    assert!(rt; execute(&rt, &mut cpu, &mut parts, port) == Ok(Some(shown)));
    Ok(())
}

/// Instructions at the edges of the window, the stack pointer, and the byte outside at which each is stopped.
const EDGES: [(u16, u16, Option<u16>); 12] = [
    (0x930F, 0x0CFF, Some(0x0CFF)),
    (0x930F, 0x0D00, None),
    (0x930F, 0x10FF, None),
    (0x930F, 0x1100, Some(0x1100)),
    (0x910F, 0x0CFE, Some(0x0CFF)),
    (0x910F, 0x0CFF, None),
    (0x910F, 0x10FF, Some(0x1100)),
    (0xD000, 0x0D00, Some(0x0CFF)),
    (0xD000, 0x1100, Some(0x1100)),
    (0x9508, 0x0CFE, Some(0x0CFF)),
    (0x9508, 0x10FE, Some(0x1100)),
    (0xD000, 0x0D01, None),
];

/// What is answered where the stack would reach this byte outside the window, if any.
fn answer(outside: Option<u16>) -> Result<Option<Line>, BusStop> {
    match outside {
        Some(a) => Err(BusStop::Stack(a)),
        None => Ok(None),
    }
}

/// PUSH, POP, RCALL and RET at the edges of the window: a stop names the first byte outside.
#[test]
fn edges_of_the_window(rt: HostRuntime) -> Result<(), Fail> {
    let mut parts = Box::new(rt.alloc(), parts_at_boot(&rt, 0)?)?;
    let mut cpu = cpu_at_reset();
    for (word, sp, outside) in EDGES {
        cpu.sp = sp;
        cpu.pc = 0x1234;
        assert!(rt;
            execute(&rt, &mut cpu, &mut parts, (word, 0)) == answer(outside),
            "{sp}"
        );
    }
    assert!(rt; parts.sram.byte(0x0D01) == 0x35);
    assert!(rt; parts.sram.byte(0x0D00) == 0x12);
    Ok(())
}
