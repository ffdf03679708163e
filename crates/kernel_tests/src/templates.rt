//! The words that stand for instructions of each shape.

use arrayvec::ArrayVec;
use avr_decode::decode;
use avr_isa::Form;
use nat_template::{TemplateShape, closing, resolved, shape, template};

/// A crossing stub to address 1.
const COUNTED: [u16; 22] = [
    0x9380, 0x0101, 0xB78F, 0x9380, 0x0102, 0x9180, 0x0100, 0x958A, 0x9380, 0x0100, 0xF041, 0x9180,
    0x0102, 0xBF8F, 0x9180, 0x0101, 0x940E, 0xF000, 1, 0x940E, 0xF002, 1,
];

/// An address, a word and the one behind it, and the template.
static STUBS: [(u16, u16, u16, &[u16]); 10] = [
    (0, 0xE003, 0x950A, &[0xE003]),
    (16, 0x93EF, 0xFFFF, &[0x940E, 0xF004, 16]),
    (16, 0xB70D, 0xFFFF, &[0x940E, 0xF004, 16]),
    (0, 0x940C, 0x0046, &[0x940E, 0xF000, 0x46]),
    (8, 0xD001, 0x0000, &[0x940E, 0xF006, 8, 0x940E, 0xF000, 10]),
    (11, 0x9508, 0xFFFF, &[0x940E, 0xF008, 11]),
    (2, 0x9409, 0x0000, &[0x940E, 0xF00A, 2]),
    (3, 0xCFFF, 0xFFFF, &[0x940E, 0xF00C, 3]),
    (0, 0x9588, 0xFFFF, &[0x940E, 0xF00E, 0]),
    (0, 0xBB0C, 0xFFFF, &[0x940E, 0xF00E, 0]),
];

/// One template of each shape, beside branch and skip.
#[test]
fn templates_of_one_call_or_stub(rt: HostRuntime) {
    for (pc, first, second, words) in &STUBS {
        assert!(rt; template(*pc, *first, *second, 1).as_slice() == *words);
    }
}

/// What all inline templates begin with: Z and SREG into their cells.
const BEGIN: [u16; 7] = [0x93E0, 0x0105, 0x93F0, 0x0106, 0xB7EF, 0x93E0, 0x0102];

/// What they end with at 0x1234.
const END: [u16; 18] = [
    0x91E0, 0x0102, 0xBFEF, 0x91E0, 0x0105, 0x91F0, 0x0106, 0xC00A, // back; RJMP 10
    0x91E0, 0x0102, 0xBFEF, 0x91E0, 0x0105, 0x91F0, 0x0106, 0x940E, 0xF004, 0x1234, // CALL MEM
];

/// What stands between for PUSH r16. The words are assembled from the manual, as those below are.
const PUSH: [u16; 14] = [
    0x91E0, 0x0103, 0x91F0, 0x0104, // LDS r30, SPL; LDS r31, SPH
    0x30FD, 0xF080, 0x31F1, 0xF470, // CPI r31, 0x0D; BRLO 16; CPI r31, 0x11; BRSH 14
    0x8300, 0x9731, 0x93E0, 0x0103, 0x93F0, 0x0104, // ST Z, r16; SBIW r30, 1; STS; STS
];

/// For POP r16.
const POP: [u16; 14] = [
    0x91E0, 0x0103, 0x91F0, 0x0104, 0x9631, // LDS r30, SPL; LDS r31, SPH; ADIW r30, 1
    0x30FD, 0xF078, 0x31F1, 0xF468, // CPI r31, 0x0D; BRLO 15; CPI r31, 0x11; BRSH 13
    0x8100, 0x93E0, 0x0103, 0x93F0, 0x0104, // LD r16, Z; STS; STS
];

/// For LDD r16, Y+1.
const LOAD: [u16; 7] = [
    0x01FE, 0x9631, // MOVW r30, r28; ADIW r30, 1
    0x30FD, 0xF058, 0x31F1, 0xF448, // CPI r31, 0x0D; BRLO 11; CPI r31, 0x11; BRSH 9
    0x8100, // LD r16, Z
];

/// For STD Y+1, r16.
const STORE: [u16; 7] = [
    0x01FE, 0x9631, // MOVW r30, r28; ADIW r30, 1
    0x30FD, 0xF058, 0x31F1, 0xF448, // CPI r31, 0x0D; BRLO 11; CPI r31, 0x11; BRSH 9
    0x8300, // ST Z, r16
];

/// The template at 0x1234 of an instruction of one word.
fn inline(first: u16) -> ArrayVec<u16, 64> {
    template(0x1234, first, 0xFFFF, 1)
}

/// These words in a row.
fn joined(parts: &[&[u16]]) -> ArrayVec<u16, 64> {
    let mut words = ArrayVec::new();
    for part in parts {
        for word in *part {
            let _ = words.try_push(*word);
        }
    }
    words
}

/// The inline template with these words, of which the one at this place is exchanged.
fn with_word(between: &[u16], place: usize, word: u16) -> ArrayVec<u16, 64> {
    let mut words = joined(&[&BEGIN]);
    for (i, old) in between.iter().enumerate() {
        let _ = words.try_push(if i == place { word } else { *old });
    }
    joined(&[words.as_slice(), &END])
}

/// The word with r0, the words with r16, and the place and the word of their access with r0.
static INLINE: [(u16, &[u16], usize, u16); 4] = [
    (0x920F, &PUSH, 8, 0x8200),
    (0x900F, &POP, 9, 0x8000),
    (0x8009, &LOAD, 6, 0x8000),
    (0x8209, &STORE, 6, 0x8200),
];

/// Every register but Z's: only the access differs.
#[test]
fn each_register_but_those_of_z_is_inline(rt: HostRuntime) {
    for (first, between, place, access) in &INLINE {
        for r in 0..30u16 {
            assert!(rt;
                inline(*first | r << 4).as_slice()
                    == with_word(between, *place, *access | r << 4).as_slice(),
                "{first} r{r}"
            );
        }
    }
}

/// Y+0 (which is LD and ST with Y), Y+1 and Y+63: only ADIW differs.
#[test]
fn a_displacement_is_added(rt: HostRuntime) {
    let rows = [
        (0x8108, 0x8308, 0x9630),
        (0x8109, 0x8309, 0x9631),
        (0xAD0F, 0xAF0F, 0x96FF),
    ];
    for (from_y, to_y, add) in rows {
        assert!(rt; inline(from_y).as_slice() == with_word(&LOAD, 1, add).as_slice());
        assert!(rt; inline(to_y).as_slice() == with_word(&STORE, 1, add).as_slice());
    }
}

/// r30 and r31 in PUSH, POP, LDD r, Y+1 and STD Y+1, r; and r16 in LDD and STD with Z+1, in LD r, Y+, in
/// ST -Y, r, in LD r, X, and in LDS and STS.
#[test]
fn every_other_access_calls_the_kernel(rt: HostRuntime) {
    let calls = [
        0x93EF, 0x93FF, 0x91EF, 0x91FF, 0x81E9, 0x81F9, 0x83E9, 0x83F9, 0x8101, 0x8301, 0x9109,
        0x930A, 0x910C, 0x9100, 0x9300,
    ];
    for first in calls {
        assert!(rt;
            inline(first).as_slice() == [0x940E, 0xF004, 0x1234].as_slice(),
            "{first}"
        );
    }
}

/// BRNE back to address 1 leads over a jump over a crossing stub; a skip over a jump passes two words.
#[test]
fn a_branch_and_a_skip_pass_over_a_stub(rt: HostRuntime) {
    let branch = template(2, 0xF7F1, 0xCFFF, 1);
    assert!(rt; branch.as_slice() == joined(&[&[0xF409, 0xC016], &COUNTED]).as_slice());
    let skip = template(0, 0x1000, 0x940C, 2);
    assert!(rt; skip.as_slice() == [0x1000, 0xC003, 0x940E, 0xF000, 3].as_slice());
}

/// A step back to the same address, and one to the next.
#[test]
fn a_closing_counts_a_crossing(rt: HostRuntime) {
    assert!(rt; closing(1, 1).as_slice() == COUNTED.as_slice());
    assert!(rt; closing(0, 1).as_slice() == [0x940E, 0xF000, 1].as_slice());
    assert!(rt; closing(127, 128).len() == 22);
    assert!(rt; resolved(0x4007) == [0x940C, 0x4007]);
    assert!(rt; shape(0, None) == TemplateShape::Fault);
}

/// The name of a form. One that is added is to be named here, and to have a row in the test below.
fn name(form: &Form) -> &'static str {
    match *form {
        Form::Nop => "Nop",
        Form::Movw(..) => "Movw",
        Form::Muls(..) => "Muls",
        Form::Product(..) => "Product",
        Form::Two(..) => "Two",
        Form::Cpse(..) => "Cpse",
        Form::Imm(..) => "Imm",
        Form::Word(..) => "Word",
        Form::One(..) => "One",
        Form::LoadOff(..) => "LoadOff",
        Form::StoreOff(..) => "StoreOff",
        Form::LoadAt(..) => "LoadAt",
        Form::StoreAt(..) => "StoreAt",
        Form::Lds(..) => "Lds",
        Form::Sts(..) => "Sts",
        Form::Pop(_) => "Pop",
        Form::Push(_) => "Push",
        Form::Lpm0 => "Lpm0",
        Form::Elpm0 => "Elpm0",
        Form::Lpm(..) => "Lpm",
        Form::Elpm(..) => "Elpm",
        Form::InIo(..) => "InIo",
        Form::OutIo(..) => "OutIo",
        Form::Cbi(..) => "Cbi",
        Form::Sbic(..) => "Sbic",
        Form::Sbi(..) => "Sbi",
        Form::Sbis(..) => "Sbis",
        Form::Bld(..) => "Bld",
        Form::Bst(..) => "Bst",
        Form::Sbrc(..) => "Sbrc",
        Form::Sbrs(..) => "Sbrs",
        Form::Bset(_) => "Bset",
        Form::Bclr(_) => "Bclr",
        Form::Brbs(..) => "Brbs",
        Form::Brbc(..) => "Brbc",
        Form::Rjmp(_) => "Rjmp",
        Form::Rcall(_) => "Rcall",
        Form::Jmp(_) => "Jmp",
        Form::Call(_) => "Call",
        Form::Ijmp => "Ijmp",
        Form::Icall => "Icall",
        Form::Ret => "Ret",
        Form::Reti => "Reti",
        Form::Sleep => "Sleep",
        Form::Break => "Break",
        Form::Wdr => "Wdr",
        Form::Spm => "Spm",
    }
}

/// Each form once, with registers that a program may access: how the instruction with this first word is
/// rewritten at address 0. The second word is 0x0046.
static SHAPES: [(&str, u16, TemplateShape); 47] = [
    ("Nop", 0x0000, TemplateShape::Native),
    ("Movw", 0x0112, TemplateShape::Native),
    ("Muls", 0x0201, TemplateShape::Native),
    ("Product", 0x0301, TemplateShape::Native),
    ("Two", 0x0C12, TemplateShape::Native),
    ("Cpse", 0x1001, TemplateShape::Skip),
    ("Imm", 0xE003, TemplateShape::Native),
    ("Word", 0x9601, TemplateShape::Native),
    ("One", 0x950A, TemplateShape::Native),
    ("LoadOff", 0x8059, TemplateShape::Mem),
    ("StoreOff", 0x8259, TemplateShape::Mem),
    ("LoadAt", 0x905C, TemplateShape::Mem),
    ("StoreAt", 0x925C, TemplateShape::Mem),
    ("Lds", 0x9050, TemplateShape::Mem),
    ("Sts", 0x9250, TemplateShape::Mem),
    ("Pop", 0x910F, TemplateShape::Mem),
    ("Push", 0x930F, TemplateShape::Mem),
    ("Lpm0", 0x95C8, TemplateShape::Mem),
    ("Elpm0", 0x95D8, TemplateShape::Mem),
    ("Lpm", 0x9054, TemplateShape::Mem),
    ("Elpm", 0x9056, TemplateShape::Mem),
    ("InIo", 0xB300, TemplateShape::Native),
    ("OutIo", 0xBB08, TemplateShape::Native),
    ("Cbi", 0x98C0, TemplateShape::Native),
    ("Sbic", 0x9980, TemplateShape::Skip),
    ("Sbi", 0x9AC0, TemplateShape::Native),
    ("Sbis", 0x9B80, TemplateShape::Skip),
    ("Bld", 0xF850, TemplateShape::Native),
    ("Bst", 0xFA50, TemplateShape::Native),
    ("Sbrc", 0xFC50, TemplateShape::Skip),
    ("Sbrs", 0xFE50, TemplateShape::Skip),
    ("Bset", 0x9408, TemplateShape::Native),
    ("Bclr", 0x9488, TemplateShape::Native),
    ("Brbs", 0xF009, TemplateShape::Branch),
    ("Brbc", 0xF409, TemplateShape::Branch),
    ("Rjmp", 0xC001, TemplateShape::Jump),
    ("Rcall", 0xD001, TemplateShape::Call),
    ("Jmp", 0x940C, TemplateShape::Jump),
    ("Call", 0x940E, TemplateShape::Call),
    ("Ijmp", 0x9409, TemplateShape::Ind),
    ("Icall", 0x9509, TemplateShape::Ind),
    ("Ret", 0x9508, TemplateShape::Ret),
    ("Reti", 0x9518, TemplateShape::Ret),
    ("Sleep", 0x9588, TemplateShape::Fault),
    ("Break", 0x9598, TemplateShape::Native),
    ("Wdr", 0x95A8, TemplateShape::Native),
    ("Spm", 0x95E8, TemplateShape::Fault),
];

#[test]
fn each_form_has_a_shape(rt: HostRuntime) {
    for (form, first, expected) in &SHAPES {
        let instr = decode(*first, 0x0046);
        let named = match &instr {
            Some(instr) => name(instr.form()),
            None => "no instruction",
        };
        assert!(rt; named == *form);
        assert!(rt; shape(0, instr.as_ref()) == *expected, "{first}");
    }
}
