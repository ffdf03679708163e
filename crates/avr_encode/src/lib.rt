//! Encoding: the words of an instruction.
//!
//! ```rust
//! use avr_encode::encode;
//! use avr_isa::{Form, Instr};
//!
//! let jump = Instr::new(Form::Jmp(0x1234)).ok_or("defined")?;
//! let words = encode(&jump);
//! assert_eq!(rt; (words.first, words.second), (0x940C, Some(0x1234)));
//! ```
//!
//! The words are those of the rows in `avr_isa`'s `InstructionTable`, and what they mean (`IsDecoded` of its
//! `Encoding`) is the instruction: so decoding them gives it back.
#![tactic(auto)]

ghost use Rattle.std.specs.Prelude.{◌≡◌, ℕ, Some};
ghost use Rattle.avr_encode.specs.Words.{BeginWith};
ghost use Rattle.avr_isa.specs.Encoding.{first_word, second_word, IsDecoded};

use avr_isa::{Form, Instr};

mod codes;
mod fields;

use fields::{
    branch, displaced, flag_place, high_register_with, high_registers, io_bit, jump, mid_registers,
    pair_with, register, register_bit, register_pairs, register_with_io, registers,
};

/// The words of an instruction: the second of LDS, STS, JMP and CALL is a data address or a word of
/// the program; all others have one word.
#[derive(Clone, Copy, PartialEq, Eq)]
pub struct Words {
    pub first: u16,
    pub second: Option<u16>,
}

/// The words of an instruction. There is no refusal: each `Instr` has its own words.
pub fn encode(i: &Instr) -> Words
    ensures first { result.first ≡ first_word i.now }
    ensures second { result.second ≡ second_word i.now }

    // Two words mean this instruction exactly where they begin with its words.
    ensures decodes { (a b : ℕ) → BeginWith result a b → IsDecoded a b (Some i.now) }
    ensures only { (a b : ℕ) → IsDecoded a b (Some i.now) → BeginWith result a b }
{
    let form = i.form();
    Words {
        first: opcode(form),
        second: address(form),
    }
}

// The second word.
#[tactic(auto, unfolding(avr_isa::specs::Encoding::second_word))]
fn address(form: &Form) -> Option<u16>
    ensures value { result ≡ second_word form.now }
{
    match form {
        Form::Lds(_, a) | Form::Sts(a, _) | Form::Jmp(a) | Form::Call(a) => Some(*a),
        _ => None,
    }
}

// The first word: the row of the manual's table.
#[tactic(auto, unfolding(avr_isa::specs::Encoding::first_word))]
fn opcode(form: &Form) -> u16
    ensures value { result ≡ first_word form.now }
{
    match form {
        Form::Nop => 0x0000,
        Form::Movw(d, r) => register_pairs(0x0100, d, r),
        Form::Muls(d, r) => high_registers(0x0200, d, r),
        Form::Product(op, d, r) => mid_registers(codes::product(op), d, r),
        Form::Two(op, d, r) => registers(codes::two(op), d, r),
        Form::Cpse(d, r) => registers(0x1000, d, r),
        Form::Imm(op, d, k) => high_register_with(codes::immediate(op), d, *k),
        Form::LoadOff(d, base, q) => displaced(0x8000 + codes::base(base), d, q),
        Form::StoreOff(base, q, r) => displaced(0x8200 + codes::base(base), r, q),
        Form::Lds(d, _) => register(0x9000, d),
        Form::LoadAt(d, pointer) => register(0x9000 + codes::pointer(pointer), d),
        Form::Lpm(d, false) => register(0x9004, d),
        Form::Lpm(d, true) => register(0x9005, d),
        Form::Elpm(d, false) => register(0x9006, d),
        Form::Elpm(d, true) => register(0x9007, d),
        Form::Pop(d) => register(0x900F, d),
        Form::Sts(_, r) => register(0x9200, r),
        Form::StoreAt(pointer, r) => register(0x9200 + codes::pointer(pointer), r),
        Form::Push(r) => register(0x920F, r),
        Form::One(op, d) => register(codes::one(op), d),
        Form::Bset(s) => flag_place(0x9408, s),
        Form::Bclr(s) => flag_place(0x9488, s),
        Form::Ijmp => 0x9409,
        Form::Jmp(_) => 0x940C,
        Form::Call(_) => 0x940E,
        Form::Ret => 0x9508,
        Form::Icall => 0x9509,
        Form::Reti => 0x9518,
        Form::Sleep => 0x9588,
        Form::Break => 0x9598,
        Form::Wdr => 0x95A8,
        Form::Lpm0 => 0x95C8,
        Form::Elpm0 => 0x95D8,
        Form::Spm => 0x95E8,
        Form::Word(op, p, k) => pair_with(codes::word(op), p, k),
        Form::Cbi(a, b) => io_bit(0x9800, a, b),
        Form::Sbic(a, b) => io_bit(0x9900, a, b),
        Form::Sbi(a, b) => io_bit(0x9A00, a, b),
        Form::Sbis(a, b) => io_bit(0x9B00, a, b),
        Form::InIo(d, a) => register_with_io(0xB000, d, a),
        Form::OutIo(a, r) => register_with_io(0xB800, r, a),
        Form::Rjmp(k) => jump(0xC000, k),
        Form::Rcall(k) => jump(0xD000, k),
        Form::Brbs(s, k) => branch(0xF000, s, k),
        Form::Brbc(s, k) => branch(0xF400, s, k),
        Form::Bld(d, b) => register_bit(0xF800, d, b),
        Form::Bst(d, b) => register_bit(0xFA00, d, b),
        Form::Sbrc(r, b) => register_bit(0xFC00, r, b),
        Form::Sbrs(r, b) => register_bit(0xFE00, r, b),
    }
}
