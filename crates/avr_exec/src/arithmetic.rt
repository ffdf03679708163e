//! The arithmetic instructions.

ghost use Rattle.std.specs.Prelude.{◌≡◌, ◌+◌, ◌*◌, ◌/◌, ◌%◌, ◌<◌, ◌≤◌};
ghost use Rattle.avr_exec.specs.Arithmetic.{with_result, compared, with_pair_result, two_of, immediate_of, word_of, one_of, product_of};

use crate::cpu::Cpu;
use avr_flags::{
    adc, add, adiw, and_bits, asr, com, dec, eor, fmul, fmuls, fmulsu, inc, lsr, mul, mulsu, neg,
    or_bits, ror, sbc, sbiw, sub,
};
use avr_isa::{ImmOp, OneOp, ProductOp, TwoOp, WordOp};

/// Keeps a result in register `d`, and SREG.
pub(crate) fn keep_byte(cpu: &mut Cpu, d: u8, outcome: (u8, u8))
    requires { d < 32 }
    ensures { cpu.new ≡ with_result cpu.old d outcome }
{
    cpu.set_register(d, outcome.0);
    cpu.sreg = outcome.1;
}

/// Keeps SREG alone, after a comparison.
pub(crate) fn compare(cpu: &mut Cpu, outcome: (u8, u8))
    ensures { cpu.new ≡ compared cpu.old outcome }
{
    cpu.sreg = outcome.1;
}

/// Keeps a result in a pair, and SREG.
pub(crate) fn keep_word(cpu: &mut Cpu, low: u8, outcome: (u16, u8))
    requires { low < 31 }
    ensures { cpu.new ≡ with_pair_result cpu.old low outcome }
{
    cpu.set_pair(low, outcome.0);
    cpu.sreg = outcome.1;
}

/// A byte with its halves exchanged.
pub fn swapped(byte: u8) -> u8
    ensures { result ≡ byte % 16 * 16 + byte / 16 }
{
    ((byte & 0xF) << 4) + (byte >> 4)
}

/// An operation on two registers.
#[tactic(auto, unfolding(crate::specs::Arithmetic::two_of))]
#[inline(always)]
pub(crate) fn two(op: &TwoOp, cpu: &mut Cpu, d: u8, r: u8)
    requires left { d < 32 }
    requires right { r < 32 }
    ensures after { cpu.new ≡ two_of op.now cpu.old d r }
    ensures pc { cpu.new.pc ≡ cpu.old.pc }
{
    let (sreg, left, right) = (cpu.sreg, cpu.register(d), cpu.register(r));
    match op {
        TwoOp::Cpc => compare(cpu, sbc(sreg, left, right)),
        TwoOp::Sbc => keep_byte(cpu, d, sbc(sreg, left, right)),
        TwoOp::Add => keep_byte(cpu, d, add(sreg, left, right)),
        TwoOp::Cp => compare(cpu, sub(sreg, left, right)),
        TwoOp::Sub => keep_byte(cpu, d, sub(sreg, left, right)),
        TwoOp::Adc => keep_byte(cpu, d, adc(sreg, left, right)),
        TwoOp::And => keep_byte(cpu, d, and_bits(sreg, left, right)),
        TwoOp::Eor => keep_byte(cpu, d, eor(sreg, left, right)),
        TwoOp::Or => keep_byte(cpu, d, or_bits(sreg, left, right)),
        TwoOp::Mov => cpu.set_register(d, right),
        TwoOp::Mul => keep_word(cpu, 0, mul(sreg, left, right)),
    }
}

/// An operation on a register and a constant.
#[tactic(auto, unfolding(crate::specs::Arithmetic::immediate_of))]
#[inline(always)]
pub(crate) fn immediate(op: &ImmOp, cpu: &mut Cpu, d: u8, k: u8)
    requires { d < 32 }
    ensures after { cpu.new ≡ immediate_of op.now cpu.old d k }
    ensures pc { cpu.new.pc ≡ cpu.old.pc }
{
    let (sreg, left) = (cpu.sreg, cpu.register(d));
    match op {
        ImmOp::Cpi => compare(cpu, sub(sreg, left, k)),
        ImmOp::Sbci => keep_byte(cpu, d, sbc(sreg, left, k)),
        ImmOp::Subi => keep_byte(cpu, d, sub(sreg, left, k)),
        ImmOp::Ori => keep_byte(cpu, d, or_bits(sreg, left, k)),
        ImmOp::Andi => keep_byte(cpu, d, and_bits(sreg, left, k)),
        ImmOp::Ldi => cpu.set_register(d, k),
    }
}

/// An operation on a pair and a constant.
#[tactic(auto, unfolding(crate::specs::Arithmetic::word_of))]
#[inline(always)]
pub(crate) fn word(op: &WordOp, cpu: &mut Cpu, p: u8, k: u8)
    requires pair { p < 31 }
    requires constant { k ≤ 63 }
    ensures after { cpu.new ≡ word_of op.now cpu.old p k }
    ensures pc { cpu.new.pc ≡ cpu.old.pc }
{
    let (sreg, left) = (cpu.sreg, cpu.pair(p));
    match op {
        WordOp::Adiw => keep_word(cpu, p, adiw(sreg, left, k)),
        WordOp::Sbiw => keep_word(cpu, p, sbiw(sreg, left, k)),
    }
}

/// An operation on one register.
#[tactic(auto, unfolding(crate::specs::Arithmetic::one_of))]
#[inline(always)]
pub(crate) fn one(op: &OneOp, cpu: &mut Cpu, d: u8)
    requires { d < 32 }
    ensures after { cpu.new ≡ one_of op.now cpu.old d }
    ensures pc { cpu.new.pc ≡ cpu.old.pc }
{
    let (sreg, left) = (cpu.sreg, cpu.register(d));
    let outcome = match op {
        OneOp::Com => com(sreg, left),
        OneOp::Neg => neg(sreg, left),
        OneOp::Swap => {
            cpu.set_register(d, swapped(left));
            return;
        }
        OneOp::Inc => inc(sreg, left),
        OneOp::Asr => asr(sreg, left),
        OneOp::Lsr => lsr(sreg, left),
        OneOp::Ror => ror(sreg, left),
        OneOp::Dec => dec(sreg, left),
    };
    keep_byte(cpu, d, outcome);
}

/// A product of r16 to r23, except MUL and MULS.
#[tactic(auto, unfolding(crate::specs::Arithmetic::product_of))]
#[inline(always)]
pub(crate) fn product(op: &ProductOp, cpu: &mut Cpu, d: u8, r: u8)
    requires left { d < 32 }
    requires right { r < 32 }
    ensures after { cpu.new ≡ product_of op.now cpu.old d r }
    ensures pc { cpu.new.pc ≡ cpu.old.pc }
{
    let (sreg, left, right) = (cpu.sreg, cpu.register(d), cpu.register(r));
    let outcome = match op {
        ProductOp::Mulsu => mulsu(sreg, left, right),
        ProductOp::Fmul => fmul(sreg, left, right),
        ProductOp::Fmuls => fmuls(sreg, left, right),
        ProductOp::Fmulsu => fmulsu(sreg, left, right),
    };
    keep_word(cpu, 0, outcome);
}
