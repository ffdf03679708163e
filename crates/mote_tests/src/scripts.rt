//! Scripts of each form, and the first fault of those that are refused.

use crate::support::ample;
use input_script::{Input, ScriptError, read};
use std::alloc::Global;
use std::process::Abort;

/// The line of the first fault of a text and its word, or no line and no word.
fn refusal(rt: &impl Abort, alloc: Global, text: &[u8]) -> (u32, String) {
    assert!(rt; text.len() <= 2_097_152);
    match read(alloc, text) {
        Ok(_) => (0, String::new(alloc)),
        Err(ScriptError::Bad { line, fault }) => (line, ample(rt, format!(in alloc; "{fault}"))),
        Err(ScriptError::NoMemory) => panic!(rt; "memory is ample"),
    }
}

/// Each text has its first fault at this line, by this word; or none where they are 0 and empty.
fn are_refused(rt: &impl Abort, alloc: Global, texts: &[(&[u8], u32, &str)]) {
    for (text, line, word) in texts {
        let (found, told) = refusal(rt, alloc, text);
        assert!(rt; found == *line);
        assert!(rt; told.as_str() == *word);
    }
}

const EVENTS: [(u32, Input); 5] = [
    (1, Input::Pin(0, 0x0F)),
    (1, Input::Pin(3, 0xF0)),
    (22, Input::Uart(0x41)),
    (22, Input::Int(7)),
    (4294967295, Input::Adc(0x3FF)),
];

#[test]
fn a_script_of_every_form(rt: HostRuntime) {
    let text =
        b"# inputs\n\nat 1 pina 0x0f\r\nfail flash 7\nat 1 pind 0xF0\nat 22 uart 0x41\nat 22 int 7\nfail flash 0000000007\r\nat 4294967295 adc 0x3FF\nfail flash 4294967295";
    let Ok(script) = read(rt.alloc(), text) else {
        panic!(rt; "the script has a fault")
    };
    assert!(rt; script.events().len() == EVENTS.len());
    for (event, (at, input)) in script.events().iter().zip(&EVENTS) {
        assert!(rt; event.at == *at);
        assert!(rt; event.input == *input);
    }
    assert!(rt; script.failing() == [7, 7, 4294967295].as_slice());
}

static FAULTS: [(&[u8], u32, &str); 12] = [
    (b"at 5 uart 0x41\nat 4 pina 0x00\n", 2, "order"),
    (b"at 1 adc 0x400", 1, "range"),
    (b"at 1  uart 0x41", 1, "form"),
    (b"\r\n\nat 4294967296 pinb 0x00", 3, "range"),
    (b"at 12345678901 pinb 0x00", 1, "form"),
    (b"at 1 pine 0x00", 1, "form"),
    (b"at 1\tpina 0x00", 1, "form"),
    (b"at 1 pina 0x00\r\r", 1, "form"),
    (b"at 1 int 8", 1, "form"),
    (b"at 1 int 9", 1, "form"),
    (b"at 1 int 07", 1, "form"),
    (b"at 1 int 0x7", 1, "form"),
];

#[test]
fn the_first_fault_of_a_text(rt: HostRuntime) {
    are_refused(&rt, rt.alloc(), &FAULTS);
}

static WRONG_FAIL_LINES: [&[u8]; 20] = [
    b"fail",
    b"fail flash",
    b"fail flash ",
    b"fail flash  1",
    b"fail  flash 1",
    b" fail flash 1",
    b"fail flash 1 ",
    b"fail flash 1 2",
    b"fail flash 1\r\r",
    b"fail\tflash 1",
    b"failflash 1",
    b"fail sram 1",
    b"Fail flash 1",
    b"fail flash +1",
    b"fail flash -1",
    b"fail flash 0x1",
    b"fail flash 1a",
    b"fail flash 12345678901",
    b"fail flash 00000000001",
    b"at 1 fail flash 1",
];

#[test]
fn fail_lines_of_a_wrong_form(rt: HostRuntime) {
    for line in &WRONG_FAIL_LINES {
        are_refused(&rt, rt.alloc(), &[(*line, 1, "form")]);
    }
}

/// A fault of order comes before one of range. Events and fail lines are in order apart from each other.
static NUMBERS: [(&[u8], u32, &str); 12] = [
    (b"at 5 uart 0x41\nat 4 adc 0x400", 2, "order"),
    (b"fail flash 5\nfail flash 4", 2, "order"),
    (b"fail flash 5\nfail flash 0", 2, "order"),
    (b"fail flash 5\nat 9 pina 0x00\nfail flash 4", 3, "order"),
    (b"at 5 pina 0x00\nfail flash 9\nat 4 pina 0x00", 3, "order"),
    (b"fail flash 0", 1, "range"),
    (b"fail flash 0000000000", 1, "range"),
    (b"fail flash 4294967296", 1, "range"),
    (b"fail flash 9999999999", 1, "range"),
    (b"fail flash 5\nat 4 pina 0x00", 0, ""),
    (b"at 5 pina 0x00\nfail flash 4", 0, ""),
    (b"at 0 pina 0x00\nfail flash 4\nfail flash 4", 0, ""),
];

#[test]
fn numbers_out_of_order_and_out_of_range(rt: HostRuntime) {
    are_refused(&rt, rt.alloc(), &NUMBERS);
}

/// 32,768 events and as many fail lines, and this text behind them.
fn full_script(rt: &impl Abort, alloc: Global, end: &[u8]) -> Vec<u8> {
    let mut text = Vec::new(alloc);
    for _ in 0..32_768u32 {
        ample(
            rt,
            text.extend_from_slice(b"at 7 uart 0x41\nfail flash 7\n"),
        );
    }
    ample(rt, text.extend_from_slice(end));
    text
}

/// What stands behind a full script, and the fault of its last line.
static ENDS: [(&[u8], u32, &str); 9] = [
    (b"", 0, ""),
    (b"\n# full", 0, ""),
    (b"at 7 uart 0x41", 65537, "events"),
    (b"fail flash 7", 65537, "events"),
    (b"at 6 uart 0x41", 65537, "order"),
    (b"fail flash 6", 65537, "order"),
    (b"at 7 adc 0x400", 65537, "range"),
    (b"fail flash 4294967296", 65537, "range"),
    (b"fail flash x", 65537, "form"),
];

#[test]
fn events_and_fail_lines_are_counted_together(rt: HostRuntime) {
    for (end, line, word) in &ENDS {
        let text = full_script(&rt, rt.alloc(), end);
        are_refused(&rt, rt.alloc(), &[(text.as_slice(), *line, *word)]);
    }
}
