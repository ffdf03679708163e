//! Decoding: the instruction that the words of a program mean.
//!
//! ```rust
//! use avr_decode::decode;
//! use avr_isa::Form;
//!
//! let jump = decode(0x940C, 0x1234).ok_or("an instruction")?;
//! assert!(rt; matches!(jump.form(), Form::Jmp(0x1234)));
//! ```
//!
//! `specs/Decoding` has the meaning of words as a function that computes, `the_form`. That it is the meaning
//! by the manual's table, which goes from instructions to words, is shown in `decode_laws`.
#![tactic(auto)]

ghost use Rattle.std.specs.Prelude.{◌≡◌, ◌≤◌};
ghost use Rattle.avr_decode.specs.Decoding.{is_absolute, is_direct, is_long, size_by_first_word as size_by_first_word_of, the_form};

use avr_isa::Instr;

mod fields;
mod rows;

/// The instruction that two words begin with; the second matters only where the first begins an
/// instruction of two words. None where no instruction of the ATmega128 has these words, as for
/// EICALL, for JMP and CALL beyond word 65,535, and for the undefined pairs of `Instr::new`.
#[tactic(auto, unfolding(crate::specs::Decoding::the_form, crate::specs::Decoding::defined_form, crate::specs::Decoding::if_defined))]
pub fn decode(w0: u16, w1: u16) -> Option<Instr>
    ensures value { result ≡ the_form w0 w1 }
{
    let form = if two_words(w0) {
        Some(rows::two_word(w0, w1))
    } else {
        rows::one_word(w0)
    };
    match form {
        Some(form) => Instr::new(form),
        None => None,
    }
}

/// Whether an instruction of two words begins with this word: LDS, STS, JMP or CALL.
#[tactic(auto, unfolding(crate::specs::Decoding::is_long))]
pub fn two_words(w: u16) -> bool
    ensures value { result ≡ is_long w }
{
    is_direct(w) | is_absolute(w)
}

/// How many words the instruction has that begins with this word. What is no instruction counts as one.
pub fn size_by_first_word(w: u16) -> u16
    ensures value { result ≡ size_by_first_word_of w }
    ensures range { (1 ≤ result) × (result ≤ 2) }
{
    if two_words(w) { 2 } else { 1 }
}

// LDS and STS.
fn is_direct(w: u16) -> bool
    ensures value { result ≡ is_direct w }
{
    w >> 10 == 0x24 && w & 0xF == 0
}

// JMP and CALL.
fn is_absolute(w: u16) -> bool
    ensures value { result ≡ is_absolute w }
{
    w == 0x940C || w == 0x940E
}
