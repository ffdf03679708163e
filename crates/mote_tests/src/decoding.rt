//! Words of the manual and of small programs against what they mean.

use avr_decode::{decode, two_words};
use avr_isa::{Base, Form, ImmOp, OneOp};

// The name of an instruction, and the numbers of its operands in the order of the assembler's text.
fn told(form: &Form) -> (&'static str, i32, i32) {
    match form {
        Form::Jmp(a) => ("jmp", i32::from(*a), 0),
        Form::Call(a) => ("call", i32::from(*a), 0),
        Form::Ijmp => ("ijmp", 0, 0),
        Form::Sts(a, r) => ("sts", i32::from(*a), i32::from(r.get())),
        Form::Lds(d, a) => ("lds", i32::from(d.get()), i32::from(*a)),
        Form::InIo(d, a) => ("in", i32::from(d.get()), i32::from(a.get())),
        Form::OutIo(a, r) => ("out", i32::from(a.get()), i32::from(r.get())),
        Form::One(OneOp::Dec, d) => ("dec", i32::from(d.get()), 0),
        Form::Brbs(s, k) => ("brbs", i32::from(s.get()), i32::from(k.get())),
        Form::Rjmp(k) => ("rjmp", i32::from(k.get()), 0),
        Form::Imm(ImmOp::Ldi, d, k) => ("ldi", i32::from(d.get()), i32::from(*k)),
        Form::LoadOff(d, Base::Y, q) => ("ldd y", i32::from(d.get()), i32::from(q.get())),
        _ => ("another", 0, 0),
    }
}

// What is told of the instruction of these words.
fn meaning(first: u16, second: u16) -> Option<(&'static str, i32, i32)> {
    match decode(first, second) {
        Some(instr) => Some(told(instr.form())),
        None => None,
    }
}

/// Two words, and what they mean.
static MEANINGS: [(u16, u16, (&str, i32, i32)); 12] = [
    (0x940C, 0x1234, ("jmp", 0x1234, 0)),
    (0x9409, 0, ("ijmp", 0, 0)),
    (0x9380, 0x0101, ("sts", 0x0101, 24)),
    (0x9180, 0x0100, ("lds", 24, 0x0100)),
    (0x940E, 0xF000, ("call", 0xF000, 0)),
    (0xB78F, 0, ("in", 24, 0x3F)),
    (0xBF8F, 0, ("out", 0x3F, 24)),
    (0x958A, 0, ("dec", 24, 0)),
    (0xF041, 0, ("brbs", 1, 8)),
    (0xCFFF, 0, ("rjmp", -1, 0)),
    (0xEC88, 0, ("ldi", 24, 200)),
    (0xAC5F, 0, ("ldd y", 5, 63)),
];

#[test]
fn words_mean_their_instructions(rt: HostRuntime) {
    for (first, second, wanted) in &MEANINGS {
        assert!(rt; meaning(*first, *second) == Some(*wanted), "{first}");
    }
}

/// A reserved word, JMP beyond word 65,535, EIJMP, EICALL, LD r26,X+, ST -Y,r29 and LPM r30,Z+.
const LEFT_OUT: [u16; 8] = [
    0x0001, 0x940D, 0x950C, 0x9419, 0x9519, 0x91AD, 0x93DA, 0x91E5,
];

#[test]
fn what_is_left_out_means_nothing(rt: HostRuntime) {
    for word in &LEFT_OUT {
        assert!(rt; meaning(*word, 0).is_none(), "{word}");
    }
}

/// Whether a word is the first of two.
const LENGTHS: [(u16, bool); 4] = [
    (0x9300, true),
    (0x940E, true),
    (0x950E, false),
    (0x97CE, false),
];

#[test]
fn long_words_are_told_from_short_ones(rt: HostRuntime) {
    for (word, is_long) in &LENGTHS {
        assert!(rt; two_words(*word) == *is_long, "{word}");
    }
}
