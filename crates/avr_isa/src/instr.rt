//! A valid instruction, and the number of its words.
ghost use Rattle.std.specs.Prelude.{◌≡◌, ◌≤◌, true, false, IsTrue, SomeIff, ◌&&◌};
ghost use Rattle.avr_isa.specs.OperandKinds.{makes_access, makes_result};
ghost use Rattle.avr_isa.specs.Instruction.{fields_in_range, is_valid, size_of};
ghost use Rattle.avr_isa.specs.UndefinedPairs.{changes, is_in_pair, is_undefined, low_register};

use crate::form::Form;
use crate::operation::Ptr;
use std::marker::Model;

/// An instruction whose effect the manual defines: any `Form` but the undefined pairs, in which a
/// load or store changes the pointer that its data register is part of.
#[derive(Clone, Copy)]
pub struct Instr {
    form: Form,
}

impl Model for Instr {
    ghost use Rattle.std.specs.Prelude.{IsTrue};
    ghost use Rattle.avr_isa.specs.declared.form.Form.{Form};

    ghost Value = { Form };

    ghost use Rattle.avr_isa.specs.Instruction.{is_valid};

    ghost view = { λ a. a.form };

    ghost invariant = { λ a. IsTrue (is_valid a.form) };

    ghost inverse = { λ f. record { form = f } };
}

impl Instr {
    /// The instruction of this form. None at the undefined pairs, as `LD r26, X+`, `ST -Y, r29` and
    /// `LPM r30, Z+`.
    #[tactic(auto, unfolding(crate::specs::Instruction::is_valid))]
    #[inline(always)]
    pub fn new(form: Form) -> Option<Instr>
        ensures value { SomeIff result (is_undefined form ≡ false) form }
    {
        keeps_ranges(&form);
        if is_undefined_pair(&form) {
            None
        } else {
            Some(Instr { form })
        }
    }

    /// The operation and its operands.
    pub fn form(&self) -> &Form
        ensures value { result.now ≡ self.now }
        ensures valid { IsTrue (is_valid result.now) }
    {
        &self.form
    }
}

/// The number of words of an instruction: 2 for LDS, STS, JMP and CALL, else 1.
#[tactic(auto, unfolding(crate::specs::Instruction::size_of))]
pub fn size(i: &Instr) -> u16
    ensures value { result ≡ size_of i.now }
    ensures range { (1 ≤ result) × (result ≤ 2) }
{
    match i.form() {
        Form::Lds(..) | Form::Sts(..) | Form::Jmp(_) | Form::Call(_) => 2,
        _ => 1,
    }
}

/// Whether a load or store changes the pointer that its data register is part of.
#[tactic(auto, unfolding(crate::specs::UndefinedPairs::is_undefined))]
#[inline(always)]
fn is_undefined_pair(form: &Form) -> bool
    ensures value { result ≡ is_undefined form.now }
{
    match form {
        Form::LoadAt(r, pointer) | Form::StoreAt(pointer, r) => is_own_pair(r.get(), pointer),
        Form::Lpm(d, increment) | Form::Elpm(d, increment) => *increment && d.get() >= 30,
        _ => false,
    }
}

fn is_own_pair(register: u8, pointer: &Ptr) -> bool
    ensures value { result ≡ changes pointer.now && is_in_pair (low_register pointer.now) register }
{
    match pointer {
        Ptr::X => false,
        Ptr::XInc | Ptr::XDec => register == 26 || register == 27,
        Ptr::YInc | Ptr::YDec => register == 28 || register == 29,
        Ptr::ZInc | Ptr::ZDec => register == 30 || register == 31,
    }
}

/// Reads each operand once, which tells the proof the ranges that the operands keep.
fn keeps_ranges(form: &Form)
    ensures ranges { IsTrue (fields_in_range form.now) }
{
    keeps_result_ranges(form);
    keeps_access_ranges(form);
    keeps_other_ranges(form);
}

/// The ranges of the operands where the instruction makes a result of registers and a constant.
#[tactic(auto, unfolding(crate::specs::Instruction::fields_in_range))]
fn keeps_result_ranges(form: &Form)
    ensures ranges { makes_result form.now ≡ true → IsTrue (fields_in_range form.now) }
{
    match form {
        Form::Movw(d, r) => {
            d.get();
            r.get();
        }
        Form::Muls(d, r) => {
            d.get();
            r.get();
        }
        Form::Product(_, d, r) => {
            d.get();
            r.get();
        }
        Form::Two(_, d, r) | Form::Cpse(d, r) => {
            d.get();
            r.get();
        }
        Form::Imm(_, d, k) => {
            d.get();
            let _k = *k;
        }
        Form::Word(_, p, k) => {
            p.get();
            k.get();
        }
        Form::One(_, d) => {
            d.get();
        }
        _ => {}
    }
}

/// The ranges of the operands where the instruction moves a register to or from an address.
#[tactic(auto, unfolding(crate::specs::Instruction::fields_in_range))]
fn keeps_access_ranges(form: &Form)
    ensures ranges { makes_access form.now ≡ true → IsTrue (fields_in_range form.now) }
{
    match form {
        Form::LoadOff(d, _, q) | Form::StoreOff(_, q, d) => {
            d.get();
            q.get();
        }
        Form::Lds(d, a) | Form::Sts(a, d) => {
            d.get();
            let _a = *a;
        }
        Form::LoadAt(d, _)
        | Form::StoreAt(_, d)
        | Form::Pop(d)
        | Form::Push(d)
        | Form::Lpm(d, _)
        | Form::Elpm(d, _) => {
            d.get();
        }
        Form::InIo(d, a) | Form::OutIo(a, d) => {
            d.get();
            a.get();
        }
        _ => {}
    }
}

/// The ranges of the operands of every other instruction: bits and targets.
#[tactic(auto, unfolding(crate::specs::Instruction::fields_in_range))]
fn keeps_other_ranges(form: &Form)
    ensures ranges { makes_result form.now ≡ false → makes_access form.now ≡ false → IsTrue (fields_in_range form.now) }
{
    match form {
        Form::Cbi(a, b) | Form::Sbic(a, b) | Form::Sbi(a, b) | Form::Sbis(a, b) => {
            a.get();
            b.get();
        }
        Form::Bld(d, b) | Form::Bst(d, b) | Form::Sbrc(d, b) | Form::Sbrs(d, b) => {
            d.get();
            b.get();
        }
        Form::Bset(b) | Form::Bclr(b) => {
            b.get();
        }
        Form::Brbs(b, k) | Form::Brbc(b, k) => {
            b.get();
            k.get();
        }
        Form::Rjmp(k) | Form::Rcall(k) => {
            k.get();
        }
        Form::Jmp(a) | Form::Call(a) => {
            let _a = *a;
        }
        _ => {}
    }
}
