//! Sources of the assembler, against the words of avr-as (binutils 2.26, `-mmcu=atmega128`) and the faults that a reader
//! expects.

use crate::support::ample;
use avr_asm::{AsmError, assemble};
use std::alloc::Global;
use std::process::Abort;

/// A source, and its words.
type Row = (&'static [u8], &'static [u16]);

/// Every mnemonic of two registers.
static TWO_REGISTERS: &[u8] = b"\
add r0, r31     ; 0E0F
add r31, r0     ; 0DF0
adc r0, r31     ; 1E0F
adc r31, r0     ; 1DF0
sub r0, r31     ; 1A0F
sub r31, r0     ; 19F0
sbc r0, r31     ; 0A0F
sbc r31, r0     ; 09F0
and r0, r31     ; 220F
and r31, r0     ; 21F0
or r0, r31      ; 2A0F
or r31, r0      ; 29F0
eor r0, r31     ; 260F
eor r31, r0     ; 25F0
mov r0, r31     ; 2E0F
mov r31, r0     ; 2DF0
cp r0, r31      ; 160F
cp r31, r0      ; 15F0
cpc r0, r31     ; 060F
cpc r31, r0     ; 05F0
cpse r0, r31    ; 120F
cpse r31, r0    ; 11F0
mul r0, r31     ; 9E0F
mul r31, r0     ; 9DF0
movw r0, r30    ; 010F
movw r30, r0    ; 01F0
muls r16, r31   ; 020F
muls r31, r16   ; 02F0
mulsu r16, r23  ; 0307
mulsu r23, r16  ; 0370
fmul r16, r23   ; 030F
fmul r23, r16   ; 0378
fmuls r16, r23  ; 0387
fmuls r23, r16  ; 03F0
fmulsu r16, r23 ; 038F
fmulsu r23, r16 ; 03F8";

/// Every mnemonic of a constant, and of one register.
static CONSTANTS_AND_ONE_REGISTER: &[u8] = b"\
ldi r16, 255  ; EF0F
ldi r31, 0    ; E0F0
cpi r16, 255  ; 3F0F
cpi r31, 0    ; 30F0
subi r16, 255 ; 5F0F
subi r31, 0   ; 50F0
sbci r16, 255 ; 4F0F
sbci r31, 0   ; 40F0
ori r16, 255  ; 6F0F
ori r31, 0    ; 60F0
andi r16, 255 ; 7F0F
andi r31, 0   ; 70F0
adiw r24, 63  ; 96CF
adiw r30, 0   ; 9630
sbiw r24, 63  ; 97CF
sbiw r30, 0   ; 9730
com r0        ; 9400
com r31       ; 95F0
neg r0        ; 9401
neg r31       ; 95F1
swap r0       ; 9402
swap r31      ; 95F2
inc r0        ; 9403
inc r31       ; 95F3
asr r0        ; 9405
asr r31       ; 95F5
lsr r0        ; 9406
lsr r31       ; 95F6
ror r0        ; 9407
ror r31       ; 95F7
dec r0        ; 940A
dec r31       ; 95FA
push r0       ; 920F
push r31      ; 93FF
pop r0        ; 900F
pop r31       ; 91FF";

/// Every mnemonic of memory and I/O.
static MEMORY: &[u8] = b"\
ld r0, X       ; 900C
ld r31, X      ; 91FC
ld r0, X+      ; 900D
ld r31, X+     ; 91FD
ld r0, -X      ; 900E
ld r31, -X     ; 91FE
ld r0, Y       ; 8008
ld r31, Y      ; 81F8
ld r0, Y+      ; 9009
ld r31, Y+     ; 91F9
ld r0, -Y      ; 900A
ld r31, -Y     ; 91FA
ld r0, Z       ; 8000
ld r31, Z      ; 81F0
ld r0, Z+      ; 9001
ld r29, Z+     ; 91D1
ld r0, -Z      ; 9002
ld r29, -Z     ; 91D2
st X, r0       ; 920C
st X, r31      ; 93FC
st X+, r0      ; 920D
st X+, r31     ; 93FD
st -X, r0      ; 920E
st -X, r31     ; 93FE
st Y, r0       ; 8208
st Y, r31      ; 83F8
st Y+, r0      ; 9209
st Y+, r31     ; 93F9
st -Y, r0      ; 920A
st -Y, r31     ; 93FA
st Z, r0       ; 8200
st Z, r31      ; 83F0
st Z+, r0      ; 9201
st Z+, r29     ; 93D1
st -Z, r0      ; 9202
st -Z, r29     ; 93D2
ldd r0, Y+63   ; AC0F
ldd r31, Y+0   ; 81F8
ldd r0, Z+63   ; AC07
ldd r31, Z+0   ; 81F0
std Y+63, r0   ; AE0F
std Y+0, r31   ; 83F8
std Z+63, r0   ; AE07
std Z+0, r31   ; 83F0
lds r0, 0xFFFF ; 9000 FFFF
lds r31, 0     ; 91F0 0000
sts 0xFFFF, r0 ; 9200 FFFF
sts 0, r31     ; 93F0 0000
in r0, 63      ; B60F
in r31, 0      ; B1F0
out 63, r0     ; BE0F
out 0, r31     ; B9F0
lpm r0, Z      ; 9004
lpm r31, Z     ; 91F4
lpm r0, Z+     ; 9005
lpm r29, Z+    ; 91D5
elpm r0, Z     ; 9006
elpm r31, Z    ; 91F6
elpm r0, Z+    ; 9007
elpm r29, Z+   ; 91D7";

/// Every mnemonic of a bit, and those without operands.
static BITS_AND_BARE: &[u8] = b"\
nop         ; 0000
ret         ; 9508
reti        ; 9518
ijmp        ; 9409
icall       ; 9509
sleep       ; 9588
break       ; 9598
wdr         ; 95A8
spm         ; 95E8
sei         ; 9478
cli         ; 94F8
lpm         ; 95C8
elpm        ; 95D8
cbi 0, 7    ; 9807
cbi 31, 0   ; 98F8
sbi 0, 7    ; 9A07
sbi 31, 0   ; 9AF8
sbic 0, 7   ; 9907
sbic 31, 0  ; 99F8
sbis 0, 7   ; 9B07
sbis 31, 0  ; 9BF8
bld r0, 7   ; F807
bld r31, 0  ; F9F0
bst r0, 7   ; FA07
bst r31, 0  ; FBF0
sbrc r0, 7  ; FC07
sbrc r31, 0 ; FDF0
sbrs r0, 7  ; FE07
sbrs r31, 0 ; FFF0
bset 0      ; 9408
bset 7      ; 9478
bclr 0      ; 9488
bclr 7      ; 94F8";

/// Every mnemonic of a target, forward and backward, and words.
static TARGETS: &[u8] = b"\
back: nop     ; 0000
breq ahead    ; F0B9
breq back     ; F3E9
brne ahead    ; F4A9
brne back     ; F7D9
brlo ahead    ; F098
brlo back     ; F3C8
brsh ahead    ; F488
brsh back     ; F7B8
brbs 0, ahead ; F078
brbs 7, back  ; F3AF
brbc 0, ahead ; F468
brbc 7, back  ; F79F
rjmp ahead    ; C00B
rjmp back     ; CFF1
rcall ahead   ; D009
rcall back    ; DFEF
jmp ahead     ; 940C 0019
jmp back      ; 940C 0000
call ahead    ; 940E 0019
call back     ; 940E 0000
ahead:
.dw 0         ; 0000
.dw 0xFFFF    ; FFFF
.dw 4660      ; 1234
jmp end       ; 940C 001E
end:";

/// The value of a hexadecimal digit in upper case.
fn digit(byte: u8) -> u16 {
    match byte {
        b'0'..=b'9' => u16::from(byte - b'0'),
        b'A'..=b'F' => u16::from(byte - b'A' + 10),
        _ => 0,
    }
}

/// The words that the comments of a source have, of four digits each.
fn words_said(rt: &impl Abort, alloc: Global, text: &[u8]) -> Vec<u16> {
    let mut all = Vec::new(alloc);
    let (mut is_comment, mut word, mut digits) = (false, 0u16, 0u8);
    for byte in text {
        match byte {
            b';' => is_comment = true,
            b'\n' => is_comment = false,
            b' ' => {}
            _ if is_comment => {
                word = word << 4 | digit(*byte);
                digits = digits.wrapping_add(1) % 4;
                if digits == 0 {
                    ample(rt, all.push(word));
                }
            }
            _ => {}
        }
    }
    all
}

/// The words of a source.
fn words_of(rt: &impl Abort, alloc: Global, text: &[u8]) -> Vec<u16> {
    assert!(rt; text.len() <= 2_097_152);
    match assemble(alloc, text) {
        Ok(image) => ample(rt, image.words().to_vec(alloc)),
        Err(_) => panic!(rt; "the source is refused"),
    }
}

/// The source is refused with this message.
fn is_refused(rt: &impl Abort, alloc: Global, text: &[u8], message: &str) {
    assert!(rt; text.len() <= 2_097_152);
    match assemble(alloc, text) {
        Ok(_) => panic!(rt; "the source is assembled"),
        Err(AsmError::Bad { line, fault }) => {
            let word = str::from_utf8(fault.word()).unwrap_or("");
            let told = ample(rt, format!(in alloc; "bad asm line {line} {word}"));
            assert!(rt; told.as_str() == message);
        }
        Err(AsmError::NoMemory) => panic!(rt; "memory is ample"),
    }
}

/// The source has the words of its comments.
fn has_its_words(rt: &impl Abort, alloc: Global, text: &[u8]) {
    let said = words_said(rt, alloc, text);
    assert!(rt; words_of(rt, alloc, text).as_slice() == said.as_slice());
}

#[test]
fn every_mnemonic_has_its_words(rt: HostRuntime) {
    has_its_words(&rt, rt.alloc(), TWO_REGISTERS);
    has_its_words(&rt, rt.alloc(), CONSTANTS_AND_ONE_REGISTER);
    has_its_words(&rt, rt.alloc(), MEMORY);
    has_its_words(&rt, rt.alloc(), BITS_AND_BARE);
    has_its_words(&rt, rt.alloc(), TARGETS);
}

static SHAPES: [Row; 7] = [
    (
        b"ldi r16, 0x0F\nout 0x1B, r16\nend: rjmp end",
        &[0xE00F, 0xBB0B, 0xCFFF],
    ),
    (b"", &[]),
    (b"; nothing\r\n\n \t\n", &[]),
    (b"a:nop ; b:\r\n\tldi r16\t,\t0xfF\nb:", &[0x0000, 0xEF0F]),
    (
        b"aaaaaaaabbbbbbbbccccccccddddddddeeeeeeeeffffffffgggggggghhhhhhhh: \
          rjmp aaaaaaaabbbbbbbbccccccccddddddddeeeeeeeeffffffffgggggggghhhhhhhh",
        &[0xCFFF],
    ),
    (b"r32: rjmp r32\nadd: call add", &[0xCFFF, 0x940E, 0x0001]),
    (b"brne 64\nbrne 0", &[0xF5F9, 0xF7F1]),
];

#[test]
fn sources_of_every_shape(rt: HostRuntime) {
    for (text, words) in &SHAPES {
        assert!(rt; words_of(&rt, rt.alloc(), text).as_slice() == *words);
    }
}

static FAULTY: [(&[u8], &str); 21] = [
    (b"MOV r1, r2\nnop\nnop", "bad asm line 1 form"),
    (b"nop\nldd r1, Y + 1\nnop", "bad asm line 2 form"),
    (b"nop\nnop\nldi r1x, 1", "bad asm line 3 form"),
    (b"mvo r1, r2\nnop\nnop", "bad asm line 1 mnemonic"),
    (b"nop\nsez\nnop", "bad asm line 2 mnemonic"),
    (b"nop\nnop\n.word 1", "bad asm line 3 mnemonic"),
    (b"ld r26, X+\nnop\nnop", "bad asm line 1 range"),
    (b"nop\nldi r15, 1\nnop", "bad asm line 2 range"),
    (b"nop\nnop\n.dw 9999999999", "bad asm line 3 range"),
    (b"a: nop\na: nop\nnop", "bad asm line 2 twice"),
    (b"a: nop\nnop\na:\nrjmp far\nnop", "bad asm line 3 twice"),
    (b"nop\na:\na: nop", "bad asm line 3 twice"),
    (b"rjmp far\nnop\nnop", "bad asm line 1 label"),
    (b"nop\nbrbs 1, a\nA: nop", "bad asm line 2 label"),
    (b"nop\nnop\njmp far", "bad asm line 3 label"),
    (b"brne 100\nnop\nrjmp far", "bad asm line 1 reach"),
    (b"nop\nbrne 66\nrjmp far", "bad asm line 2 reach"),
    (b"nop\nnop\nrjmp 65535", "bad asm line 3 reach"),
    (b"a: nop\na: ldi r15, 1\nnop", "bad asm line 2 range"),
    (b"brne 100\nnop\nmvo r1", "bad asm line 3 mnemonic"),
    (b"nop\n\n; a\xFF\n\xFFnop", "bad asm line 4 form"),
];

#[test]
fn each_fault_on_the_first_a_middle_and_the_last_line(rt: HostRuntime) {
    for (text, message) in &FAULTY {
        is_refused(&rt, rt.alloc(), text, message);
    }
}

/// A text of so many equal lines.
fn lines(rt: &impl Abort, alloc: Global, line: &[u8], count: u32) -> Vec<u8> {
    let mut text = Vec::new(alloc);
    for _ in 0..count {
        ample(rt, text.extend_from_slice(line));
    }
    text
}

#[test]
fn images_up_to_the_limit(rt: HostRuntime) {
    let text = lines(&rt, rt.alloc(), b"nop\n", 24_576);
    assert!(rt; words_of(&rt, rt.alloc(), &text).len() == 24_576);
    let text = lines(&rt, rt.alloc(), b"nop\n", 24_577);
    is_refused(&rt, rt.alloc(), &text, "bad asm line 24577 size");
}

#[test]
fn a_source_of_two_mebibytes(rt: HostRuntime) {
    let mut text = lines(&rt, rt.alloc(), b"nop ; waits\n", 16_384);
    let empty = lines(&rt, rt.alloc(), b"\n", 1_900_544);
    ample(&rt, text.extend_from_slice(&empty));
    assert!(rt; text.len() == 2_097_152);
    assert!(rt; words_of(&rt, rt.alloc(), &text).len() == 16_384);
}
