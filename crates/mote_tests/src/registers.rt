//! Registers that are read and written, and inputs that take effect. Most tests are lists of steps: a call and its answer, or what is
//! seen then.

use Step::{Change, Enabled, Get, Polls, Put, Rampz, SetRampz, Sleep};
use input_script::read;
use mote_devices::{Devices, IoStop, Line, Port};
use std::alloc::Global;
use std::process::Abort;

/// What a write answers: the line that it shows.
type Written = Result<Option<Line>, IoStop>;

/// A step of a test.
#[derive(Clone, Copy)]
enum Step {
    /// A read of a register.
    Get(u16, Result<u8, IoStop>),
    /// A write of a register.
    Put(u16, u8, Written),
    /// A read and a write in one: the bits that are cleared, and those that are set.
    Change(u16, u8, u8, Written),
    SetRampz(u8),
    Rampz(u8),
    /// Whether a sleep ends.
    Sleep(bool),
    /// The number of polls.
    Polls(u64),
    /// The pending interrupts that are enabled, INTk in bit k.
    Enabled(u8),
}

/// A read of a register that isn't the core's own, in a test of few polls.
fn get(rt: &impl Abort, devices: &mut Devices, a: u16) -> Result<u8, IoStop> {
    assert!(rt; devices.polls() < 1000);
    assert!(rt; a < 0x5D || 0x5F < a);
    devices.read(a)
}

/// A write of a register that isn't the core's own.
fn put(rt: &impl Abort, devices: &mut Devices, a: u16, value: u8) -> Written {
    assert!(rt; a < 0x5D || 0x5F < a);
    devices.write(a, value)
}

/// A read and a write in one, in a test of few polls.
fn change(rt: &impl Abort, devices: &mut Devices, a: u16, clear: u8, set: u8) -> Written {
    assert!(rt; devices.polls() < 1000);
    assert!(rt; a < 0x5D || 0x5F < a);
    devices.modify(a, clear, set)
}

/// Makes a step, and says whether its answer, or what is seen, is that of the step.
fn is_so(rt: &impl Abort, devices: &mut Devices, step: Step) -> bool {
    match step {
        Get(a, value) => get(rt, devices, a) == value,
        Put(a, value, shown) => put(rt, devices, a, value) == shown,
        Change(a, clear, set, shown) => change(rt, devices, a, clear, set) == shown,
        SetRampz(value) => {
            devices.set_rampz(value);
            true
        }
        Rampz(value) => devices.rampz() == value,
        Sleep(ends) => devices.sleep() == ends,
        Polls(polls) => devices.polls() == polls,
        Enabled(lines) => devices.enabled() == lines,
    }
}

/// The devices at the start of a script.
fn devices(rt: &impl Abort, alloc: Global, text: &[u8]) -> Devices {
    assert!(rt; text.len() < 1000);
    match read(alloc, text) {
        Ok(script) => Devices::new(script),
        Err(_) => panic!(rt; "the script has a fault"),
    }
}

/// Each step is so, from the start of a script on.
fn play(rt: &impl Abort, alloc: Global, text: &[u8], steps: &[Step]) {
    let mut devices = devices(rt, alloc, text);
    for (number, step) in steps.iter().enumerate() {
        assert!(rt; is_so(rt, &mut devices, *step), "step {number}");
    }
}

/// Four inputs.
const INPUTS: &[u8] = b"at 2 pina 0x11\nat 2 uart 0x41\nat 3 uart 0x42\nat 5 adc 0x2A5\n";

const POLLED: [Step; 10] = [
    Get(0x39, Ok(0)), // PINA
    Get(0x2B, Ok(0xA0)), // UCSR0A
    Get(0x2C, Ok(0x41)), // UDR0
    Get(0x2C, Ok(0x42)),
    Get(0x24, Ok(0xA5)), // ADCL
    Get(0x25, Ok(0x02)), // ADCH
    Get(0x2C, Ok(0)),
    Get(0x2B, Ok(0x20)),
    Get(0x39, Ok(0x11)),
    Polls(9),
];

/// One poll a line, in order: before the inputs, two inputs at one poll, a queue that runs empty.
#[test]
fn inputs_come_at_their_polls(rt: HostRuntime) {
    play(&rt, rt.alloc(), INPUTS, &POLLED);
}

#[test]
fn the_timer_counts_polls(rt: HostRuntime) {
    let mut devices = devices(&rt, rt.alloc(), INPUTS);
    for i in 1..=256u16 {
        let value = (i % 256) as u8;
        assert!(rt; get(&rt, &mut devices, 0x52) == Ok(value), "poll {i}");
    }
}

const SHOWN: [Step; 6] = [
    Put(
        0x38,
        0x5A,
        Ok(Some(Line {
            port: Port::PortB,
            value: 0x5A,
        })),
    ),
    Put(
        0x3A,
        0xFF,
        Ok(Some(Line {
            port: Port::DdrA,
            value: 0xFF,
        })),
    ),
    Put(
        0x2C,
        0x0D,
        Ok(Some(Line {
            port: Port::Uart0,
            value: 0x0D,
        })),
    ),
    Put(0x26, 0xFF, Ok(None)),
    Put(0x2B, 0xFF, Ok(None)), // UCSR0A
    Change(
        0x38,
        0x02,
        0x05,
        Ok(Some(Line {
            port: Port::PortB,
            value: 0x5D,
        })),
    ),
];

#[test]
fn a_write_to_an_output_is_shown(rt: HostRuntime) {
    play(&rt, rt.alloc(), INPUTS, &SHOWN);
}

/// PORTB stores, and ADCSRA is a poll. RAMPZ is set by itself.
const STORED: [Step; 10] = [
    Put(
        0x38,
        0x5A,
        Ok(Some(Line {
            port: Port::PortB,
            value: 0x5A,
        })),
    ),
    Put(0x26, 0xFF, Ok(None)),
    SetRampz(1),
    Rampz(1),
    Get(0x38, Ok(0x5A)),
    Polls(0),
    Get(0x26, Ok(0xBF)),
    Polls(1),
    Get(0x5B, Ok(1)),
    Polls(1),
];

#[test]
fn registers_that_store_are_read_back(rt: HostRuntime) {
    play(&rt, rt.alloc(), INPUTS, &STORED);
}

/// The refusal of PINA.
const NOT_PINA: Written = Err(IoStop { address: 0x39 });

/// A reserved address is not read, and PINA, which may be read, not written and not changed.
const NOT_ALLOWED: [Step; 4] = [
    Get(0x40, Err(IoStop { address: 0x40 })),
    Put(0x39, 1, NOT_PINA),
    Change(0x39, 1, 0, NOT_PINA),
    Polls(0),
];

#[test]
fn accesses_that_are_not_allowed(rt: HostRuntime) {
    play(&rt, rt.alloc(), INPUTS, &NOT_ALLOWED);
}

/// Two lines requested at one number.
const REQUESTS: &[u8] = b"at 3 int 5\nat 7 int 3\nat 7 int 0\nat 9 int 0\n";

const SLEPT: [Step; 8] = [
    Sleep(false), // no line is enabled
    Polls(0),
    Put(0x59, 0x09, Ok(None)), // EIMSK
    Sleep(true),
    Polls(7),
    Enabled(0x09),
    Sleep(true),
    Polls(7),
];

/// The sleep ends once both lines are pending, and either may be taken.
#[test]
fn a_sleep_ends_at_an_enabled_line(rt: HostRuntime) {
    play(&rt, rt.alloc(), REQUESTS, &SLEPT);
}
