//! The micro-operation of an instruction.

ghost use Rattle.std.specs.Prelude.{◌≤◌, ℕ};
ghost use Rattle.avr_isa.specs.declared.form.Form.TheVariants.{Two, Imm, Word, One};
ghost use Rattle.flash_model.specs.MicroOps.{CanStandFor};

use crate::micro_ops::MicroOp;
use avr_isa::{Base, Form, HighReg, ImmOp, Instr, OneOp, PairReg, Reg, Six, TwoOp, WordOp};
use sram_layout::Sram;

/// The I/O address of SREG, as IN and OUT have it (ATmega128 datasheet, "Register Summary").
const SREG: u8 = 0x3F;

impl MicroOp {
    ghost use Rattle.std.specs.Prelude.{◌≤◌};
    ghost use Rattle.flash_model.specs.MicroOps.{CanStandFor};

    /// What is executed for an instruction, where the next one has this many words.
    #[tactic(auto, unfolding(crate::specs::MicroOps::form_of, crate::specs::MicroOps::next_size_in, crate::specs::MicroOps::has_form, crate::specs::MicroOps::is_in_sram))]
    pub fn of(instr: &Instr, next_size: u16) -> MicroOp
        requires next { (1 ≤ next_size) × (next_size ≤ 2) }
        ensures stands { CanStandFor result instr.now next_size }
    {
        match *instr.form() {
            Form::Movw(d, r) => MicroOp::Movw(d, r),
            Form::Two(op, d, r) => two(op, d, r),
            Form::Imm(op, d, k) => immediate(op, d, k),
            Form::Word(op, p, k) => word(op, p, k),
            Form::One(op, d) => one(op, d),
            Form::Brbs(s, k) => MicroOp::Brbs(s, k),
            Form::Brbc(s, k) => MicroOp::Brbc(s, k),
            Form::Rjmp(k) => MicroOp::Rjmp(k),
            Form::Jmp(a) => MicroOp::Jmp(a),
            Form::Call(a) => MicroOp::Call(a),
            Form::Lds(d, a) if Sram::has(a) => MicroOp::Lds(d, a),
            Form::Sts(a, r) if Sram::has(a) => MicroOp::Sts(r, a),
            Form::LoadOff(d, Base::Z, q) => MicroOp::LoadZ(d, q),
            Form::StoreOff(Base::Z, q, r) => MicroOp::StoreZ(q, r),
            Form::InIo(d, a) if a.get() == SREG => MicroOp::InSreg(d),
            Form::OutIo(a, r) if a.get() == SREG => MicroOp::OutSreg(r),
            _ => seldom(instr, next_size),
        }
    }
}

/// Of an instruction that is met more seldom; of any other it is `Other`, which may stand for each.
#[tactic(auto, unfolding(crate::specs::MicroOps::form_of, crate::specs::MicroOps::next_size_in, crate::specs::MicroOps::has_form, crate::specs::MicroOps::is_in_sram))]
fn seldom(instr: &Instr, next_size: u16) -> MicroOp
    requires next { (1 ≤ next_size) × (next_size ≤ 2) }
    ensures stands { CanStandFor result instr.now next_size }
{
    match *instr.form() {
        Form::Nop => MicroOp::Nop,
        Form::Sbrc(r, b) => MicroOp::Sbrc(r, b, next_size as u8),
        Form::Sbrs(r, b) => MicroOp::Sbrs(r, b, next_size as u8),
        Form::Cpse(d, r) => MicroOp::Cpse(d, r, next_size as u8),
        Form::Bld(d, b) => MicroOp::Bld(d, b),
        Form::Bst(r, b) => MicroOp::Bst(r, b),
        Form::Bset(s) => MicroOp::Bset(s),
        Form::Bclr(s) => MicroOp::Bclr(s),
        _ => MicroOp::Other,
    }
}

/// Of an operation on two registers.
#[tactic(auto, unfolding(crate::specs::MicroOps::form_of, crate::specs::MicroOps::next_size_in, crate::specs::MicroOps::has_form, crate::specs::MicroOps::is_in_sram))]
fn two(op: TwoOp, d: Reg, r: Reg) -> MicroOp
    ensures stands { (n : ℕ) → CanStandFor result (Two op d r) n }
{
    match op {
        TwoOp::Cpc => MicroOp::Cpc(d, r),
        TwoOp::Sbc => MicroOp::Sbc(d, r),
        TwoOp::Add => MicroOp::Add(d, r),
        TwoOp::Cp => MicroOp::Cp(d, r),
        TwoOp::Sub => MicroOp::Sub(d, r),
        TwoOp::Adc => MicroOp::Adc(d, r),
        TwoOp::And => MicroOp::And(d, r),
        TwoOp::Eor => MicroOp::Eor(d, r),
        TwoOp::Or => MicroOp::Or(d, r),
        TwoOp::Mov => MicroOp::Mov(d, r),
        TwoOp::Mul => MicroOp::Mul(d, r),
    }
}

/// Of an operation on a register and a constant.
#[tactic(auto, unfolding(crate::specs::MicroOps::form_of, crate::specs::MicroOps::next_size_in, crate::specs::MicroOps::has_form, crate::specs::MicroOps::is_in_sram))]
fn immediate(op: ImmOp, d: HighReg, k: u8) -> MicroOp
    ensures stands { (n : ℕ) → CanStandFor result (Imm op d k) n }
{
    match op {
        ImmOp::Cpi => MicroOp::Cpi(d, k),
        ImmOp::Sbci => MicroOp::Sbci(d, k),
        ImmOp::Subi => MicroOp::Subi(d, k),
        ImmOp::Ori => MicroOp::Ori(d, k),
        ImmOp::Andi => MicroOp::Andi(d, k),
        ImmOp::Ldi => MicroOp::Ldi(d, k),
    }
}

/// Of an operation on a pair and a constant.
#[tactic(auto, unfolding(crate::specs::MicroOps::form_of, crate::specs::MicroOps::next_size_in, crate::specs::MicroOps::has_form, crate::specs::MicroOps::is_in_sram))]
fn word(op: WordOp, p: PairReg, k: Six) -> MicroOp
    ensures stands { (n : ℕ) → CanStandFor result (Word op p k) n }
{
    match op {
        WordOp::Adiw => MicroOp::Adiw(p, k),
        WordOp::Sbiw => MicroOp::Sbiw(p, k),
    }
}

/// Of an operation on one register.
#[tactic(auto, unfolding(crate::specs::MicroOps::form_of, crate::specs::MicroOps::next_size_in, crate::specs::MicroOps::has_form, crate::specs::MicroOps::is_in_sram))]
fn one(op: OneOp, d: Reg) -> MicroOp
    ensures stands { (n : ℕ) → CanStandFor result (One op d) n }
{
    match op {
        OneOp::Com => MicroOp::Com(d),
        OneOp::Neg => MicroOp::Neg(d),
        OneOp::Swap => MicroOp::Swap(d),
        OneOp::Inc => MicroOp::Inc(d),
        OneOp::Asr => MicroOp::Asr(d),
        OneOp::Lsr => MicroOp::Lsr(d),
        OneOp::Ror => MicroOp::Ror(d),
        OneOp::Dec => MicroOp::Dec(d),
    }
}
