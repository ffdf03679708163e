//! Test programs: for each number, a program that computes for 1.6 million steps.
//!
//! ```rust
//! let image = program_generator::generate(alloc, 7)?;
//! assert_eq!(rt; image.len_words(), 8014);
//! assert_eq!(rt; (image.word(0), image.word(1), image.word(2)), (0xEC88, 0x0F50, 0x9513));
//! ```
//!
//! The program of seed 7 begins `LDI r24,200`, `ADD r21,r16`, `INC r17`, `SUB r20,r20`. It goes 200 times
//! through the same 8,000 instructions, each an ADD, EOR, SUB or INC of the registers r16 to r23, then
//! writes r16 to r23 to PORTA, and stays at an RJMP to its own address. A sequence of numbers chooses the 8,000:
//! the seed, which itself chooses none, is followed by itself times 1,664,525 plus 1,013,904,223 modulo
//! 2 to the 32, that number by the next in the same way, and so on. Of a number the two highest bits say
//! which operation it is, and two bytes which registers. `specs/Generated` has the program of each seed.
#![tactic(auto)]

ghost use Rattle.std.specs.Prelude.{◌≡◌, ◌+◌, ◌%◌, ◌++◌, false, IfOk, OnOk};
ghost use Rattle.avr_isa.specs.UndefinedPairs.{is_undefined};
ghost use Rattle.program_generator.specs.Generated.{generated, instruction_of, words_from};

use avr_encode::encode;
use avr_isa::{Form, Instr, OneOp, Reg, TwoOp};
use base::{NoMemory, next_number};
use hex_image::Image;
use std::alloc::{AllocError, Global};

// How many words a program has.
const LENGTH: usize = 8014;

// How many instructions numbers choose.
const CHOSEN: u32 = 8000;

// LDI r24,200: how often the program goes through them.
const BEGINNING: u16 = 0xEC88;

// DEC r24; BREQ over the jump; JMP 1; OUT PORTA of r16 to r23; RJMP to itself.
const ENDING: [u16; 13] = [
    0x958A, 0xF011, 0x940C, 0x0001, 0xBB0B, 0xBB1B, 0xBB2B, 0xBB3B, 0xBB4B, 0xBB5B, 0xBB6B, 0xBB7B,
    0xCFFF,
];

/// The program of a seed, 8,014 words. Each number is a seed, and the same seed always has the same
/// program. `NoMemory` where there is no memory for the words.
#[tactic(auto, using(crate::proofs::WordLaws::length_generated))]
pub fn generate(alloc: Global, seed: u32) -> Result<Image, NoMemory>
    ensures image { IfOk result (λ image. image ≡ generated seed) }
{
    let words = words(alloc, seed)?;
    Image::from_words(alloc, &words)
}

// The words of the program.
#[tactic(auto, using(crate::proofs::WordLaws::generated_parts))]
fn words(alloc: Global, seed: u32) -> Result<Vec<u16>, AllocError>
    ensures words { IfOk result (λ words. words.items ≡ generated seed) }
{
    let mut words = Vec::with_capacity(alloc, LENGTH)?;
    words.push(BEGINNING)?;
    push_chosen(&mut words, seed, CHOSEN)?;
    words.extend_from_slice(&ENDING)?;
    Ok(words)
}

// Puts the words of the `n` numbers that follow `seed` behind the others.
fn push_chosen(words: &mut Vec<u16>, seed: u32, n: u32) -> Result<(), AllocError>
    ensures words { OnOk result (words.new.items ≡ words.old.items ++ words_from seed n) }
{
    let mut x = seed;
    for _ in 0..n {
        x = next_number(x);
        words.push(encode(&instruction(x)).first)?;
    }
    Ok(())
}

// The instruction that a number chooses.
fn instruction(x: u32) -> Instr
    ensures value { result ≡ instruction_of x }
{
    Instr::new(form(x)).unwrap()
}

// The operation by the two highest bits, the registers by two bytes.
#[tactic(auto, unfolding(avr_isa::specs::UndefinedPairs::is_undefined))]
fn form(x: u32) -> Form
    ensures value { result ≡ instruction_of x }
    ensures defined { is_undefined result ≡ false }
{
    let d = register(x >> 24);
    let r = register(x >> 16);
    match x >> 30 {
        0 => Form::Two(TwoOp::Add, d, r),
        1 => Form::Two(TwoOp::Eor, d, r),
        2 => Form::Two(TwoOp::Sub, d, r),
        _ => Form::One(OneOp::Inc, d),
    }
}

// One of r16 to r23, by the three lowest bits.
fn register(bits: u32) -> Reg
    ensures value { result ≡ 16 + bits % 8 }
{
    Reg::new(16 + (bits & 7) as u8).unwrap()
}
