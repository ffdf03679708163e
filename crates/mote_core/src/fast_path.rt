//! The fast path of a step: a micro-operation that touches the core's registers and SRAM alone.

ghost use Rattle.std.specs.Prelude.{◌≡◌, ℕ, ◌<◌, ◌≤◌, true, if◌then◌else◌, ◌+◌, ◌%◌, ◌^◌, List, Some, IfSome, IfNone};
ghost use Rattle.avr_isa.specs.Addresses.{wrapping_sum, relative as relative_of};
ghost use Rattle.avr_flags.specs.Status.{with_bit as with_flag};
ghost use Rattle.avr_exec.specs.Arithmetic.{two_of, immediate_of, word_of, one_of};
ghost use Rattle.avr_exec.specs.Registers.{register, with_register, pair, with_pair};
ghost use Rattle.avr_exec.specs.Execution.{exec_of};
ghost use Rattle.avr_exec.specs.Spaces.{Went};
ghost use Rattle.flash_model.specs.MicroOps.{form_of, next_size_in, has_form, is_in_sram};
ghost use Rattle.mote_devices.specs.State.{State};
ghost use Rattle.sram_layout.specs.Bytes.{byte_at, with_byte};
ghost use Rattle.sram_layout.specs.Regions.{whole_sram, is_within};
ghost use Rattle.mote_core.specs.Physical.{physical_calls};
ghost use Rattle.mote_core.specs.FastPath.{core_at, registers_after, mote_with, with_sram_alone, IsFastStep};
ghost use Rattle.flash_model.specs.DecodeCache.{AreMicroOps};
ghost use Rattle.mote_core.specs.declared.mote.Mote.{Mote};

use avr_exec::{Cpu, TRANSFER, displaced, has_bit, swapped, with_bit};
use avr_flags::{
    adc, add, adiw, and_bits, asr, com, dec, eor, inc, lsr, mul, neg, or_bits, ror, sbc, sbiw, sub,
};
use avr_isa::{Base, HighReg, ImmOp, OneOp, PairReg, Reg, Six, TwoOp, WordOp, relative};
use flash_model::MicroOp;
use sram_layout::Sram;

/// A step on the fast path: by the micro-operation that stands at `place` among those of flash, of the core whose SREG is `sreg` and
/// whose pc is `place`: those that `cpu` has are not looked at. It shows nothing, and its new pc is told alone. None where the
/// fast path doesn't know the micro-operation: then nothing is done.
#[inline(always)]
pub fn fast_move(
    ops: &[MicroOp],
    cpu: &mut Cpu,
    sram: &mut Sram,
    sreg: &mut u8,
    place: usize,
) -> Option<usize>
    requires low { place < 0xF000 }
    requires ops { (words : List ℕ) × AreMicroOps words ops.now }
    ensures step { IfSome result (λ next. (m : Mote) → IsFastStep ops.now (mote_with m cpu.old sram.old sreg.old place) (mote_with m cpu.new sram.new sreg.new next)) }
    ensures below { IfSome result (λ next. next < 65536) }
    ensures none { IfNone result ((cpu.new ≡ cpu.old) × (sreg.new ≡ sreg.old) × (sram.new ≡ sram.old)) }
{
    fast_step(&ops[place], cpu, sram, sreg, place)
}

/// Executes a micro-operation of the core whose SREG is `sreg` and whose pc is `place`: those that `cpu` has are not looked at.
/// Tells the new pc. None where it stands for no instruction, or touches an address outside SRAM: then nothing is done.
#[tactic(auto, unfolding(avr_exec::specs::Arithmetic::immediate_of, avr_exec::specs::Arithmetic::one_of, avr_exec::specs::Arithmetic::two_of, avr_exec::specs::Arithmetic::word_of, avr_exec::specs::Asks::ask_of, avr_exec::specs::Asks::finish_of, avr_exec::specs::Asks::load_of, avr_exec::specs::Asks::store_of, avr_exec::specs::Effects::loaded, avr_exec::specs::Effects::stored, avr_exec::specs::Execution::answer_of, avr_exec::specs::Execution::exec_of, avr_exec::specs::Registers::own_byte, avr_exec::specs::Registers::with_own_byte, avr_exec::specs::StackRules::push_return_on, flash_model::specs::MicroOps::form_of, flash_model::specs::MicroOps::has_form, flash_model::specs::MicroOps::is_in_sram, flash_model::specs::MicroOps::next_size_in,))]
#[inline(always)]
fn fast_step(
    op: &MicroOp,
    cpu: &mut Cpu,
    sram: &mut Sram,
    sreg: &mut u8,
    place: usize,
) -> Option<usize>
    requires low { place < 0xF000 }
    requires in_sram { is_in_sram op.now ≡ true }
    ensures form { IfSome result (λ _. has_form op.now ≡ true) }
    ensures went { IfSome result (λ next. (devices : State) (words : List ℕ) (n : ℕ) → exec_of physical_calls (form_of op.now) (core_at cpu.old sreg.old place) (with_sram_alone sram.old devices words) (next_size_in op.now n)
        ≡ Went (core_at cpu.new sreg.new next) (with_sram_alone sram.new devices words)) }
    ensures below { IfSome result (λ next. next < 65536) }
    ensures none { IfNone result ((cpu.new ≡ cpu.old) × (sreg.new ≡ sreg.old) × (sram.new ≡ sram.old)) }
{
    match op {
        MicroOp::Movw(d, r) => copy_pair(cpu, place, d.get(), r.get()),
        MicroOp::Cpc(d, r) => two(TwoOp::Cpc, cpu, sreg, place, d, r),
        MicroOp::Sbc(d, r) => two(TwoOp::Sbc, cpu, sreg, place, d, r),
        MicroOp::Add(d, r) => two(TwoOp::Add, cpu, sreg, place, d, r),
        MicroOp::Cp(d, r) => two(TwoOp::Cp, cpu, sreg, place, d, r),
        MicroOp::Sub(d, r) => two(TwoOp::Sub, cpu, sreg, place, d, r),
        MicroOp::Adc(d, r) => two(TwoOp::Adc, cpu, sreg, place, d, r),
        MicroOp::Eor(d, r) => two(TwoOp::Eor, cpu, sreg, place, d, r),
        MicroOp::Mov(d, r) => two(TwoOp::Mov, cpu, sreg, place, d, r),
        MicroOp::Cpi(d, k) => immediate(ImmOp::Cpi, cpu, sreg, place, d, *k),
        MicroOp::Sbci(d, k) => immediate(ImmOp::Sbci, cpu, sreg, place, d, *k),
        MicroOp::Subi(d, k) => immediate(ImmOp::Subi, cpu, sreg, place, d, *k),
        MicroOp::Ldi(d, k) => immediate(ImmOp::Ldi, cpu, sreg, place, d, *k),
        MicroOp::Adiw(p, k) => word(WordOp::Adiw, cpu, sreg, place, p, k),
        MicroOp::Sbiw(p, k) => word(WordOp::Sbiw, cpu, sreg, place, p, k),
        MicroOp::Lsr(d) => one(OneOp::Lsr, cpu, sreg, place, d),
        MicroOp::Ror(d) => one(OneOp::Ror, cpu, sreg, place, d),
        MicroOp::Dec(d) => one(OneOp::Dec, cpu, sreg, place, d),
        MicroOp::Brbs(s, k) => Some(branched(place, has_bit(*sreg, s.get()), k.get())),
        MicroOp::Brbc(s, k) => Some(branched(place, !has_bit(*sreg, s.get()), k.get())),
        MicroOp::Rjmp(k) => Some(usize::from(relative(place as u16, k.get()))),
        MicroOp::Jmp(a) => Some(usize::from(*a)),
        MicroOp::Lds(d, a) => load(cpu, sram, place, d, *a, 2),
        MicroOp::Sts(r, a) => store(cpu, sram, place, *a, r, 2),
        MicroOp::LoadZ(d, q) => {
            let a = displaced(cpu, &Base::Z, q);
            if !Sram::has(a) {
                return None;
            }
            load(cpu, sram, place, d, a, 1)
        }
        MicroOp::StoreZ(q, r) => {
            let a = displaced(cpu, &Base::Z, q);
            if !Sram::has(a) {
                return None;
            }
            store(cpu, sram, place, a, r, 1)
        }
        MicroOp::InSreg(d) => set(cpu, place, d, *sreg),
        MicroOp::OutSreg(r) => set_sreg(sreg, place, cpu.byte(r)),
        MicroOp::Call(a) => {
            let sp = cpu.sp;
            if !Sram::has(sp) {
                return None;
            }
            if !Sram::has(sp.wrapping_sub(1)) {
                return None;
            }
            sram.set_return(sp, (place + 2) as u16);
            cpu.sp = sp.wrapping_sub(2);
            Some(usize::from(*a))
        }
        _ => seldom_step(op, cpu, sreg, place),
    }
}

/// A micro-operation that is met more seldom; each touches the core's registers alone. None for any other: then nothing is
/// done. It is apart since a check takes time with the square of a function's length.
#[tactic(auto, unfolding(avr_exec::specs::Arithmetic::immediate_of, avr_exec::specs::Arithmetic::one_of, avr_exec::specs::Arithmetic::two_of, avr_exec::specs::Asks::ask_of, avr_exec::specs::Asks::finish_of, avr_exec::specs::Execution::answer_of, avr_exec::specs::Execution::exec_of, flash_model::specs::MicroOps::form_of, flash_model::specs::MicroOps::has_form, flash_model::specs::MicroOps::next_size_in,))]
#[inline(always)]
fn seldom_step(op: &MicroOp, cpu: &mut Cpu, sreg: &mut u8, place: usize) -> Option<usize>
    requires low { place < 0xF000 }
    ensures form { IfSome result (λ _. has_form op.now ≡ true) }
    ensures went { IfSome result (λ next. (sram : List ℕ) (devices : State) (words : List ℕ) (n : ℕ) → exec_of physical_calls (form_of op.now) (core_at cpu.old sreg.old place) (with_sram_alone sram devices words) (next_size_in op.now n)
        ≡ Went (core_at cpu.new sreg.new next) (with_sram_alone sram devices words)) }
    ensures below { IfSome result (λ next. next < 65536) }
    ensures none { IfNone result ((cpu.new ≡ cpu.old) × (sreg.new ≡ sreg.old)) }
{
    match op {
        MicroOp::Nop => next(place),
        MicroOp::And(d, r) => two(TwoOp::And, cpu, sreg, place, d, r),
        MicroOp::Or(d, r) => two(TwoOp::Or, cpu, sreg, place, d, r),
        MicroOp::Mul(d, r) => two(TwoOp::Mul, cpu, sreg, place, d, r),
        MicroOp::Ori(d, k) => immediate(ImmOp::Ori, cpu, sreg, place, d, *k),
        MicroOp::Andi(d, k) => immediate(ImmOp::Andi, cpu, sreg, place, d, *k),
        MicroOp::Com(d) => one(OneOp::Com, cpu, sreg, place, d),
        MicroOp::Neg(d) => one(OneOp::Neg, cpu, sreg, place, d),
        MicroOp::Swap(d) => one(OneOp::Swap, cpu, sreg, place, d),
        MicroOp::Inc(d) => one(OneOp::Inc, cpu, sreg, place, d),
        MicroOp::Asr(d) => one(OneOp::Asr, cpu, sreg, place, d),
        MicroOp::Sbrc(r, b, n) => Some(skipped(place, !has_bit(cpu.byte(r), b.get()), *n)),
        MicroOp::Sbrs(r, b, n) => Some(skipped(place, has_bit(cpu.byte(r), b.get()), *n)),
        MicroOp::Cpse(d, r, n) => Some(skipped(place, cpu.byte(d) == cpu.byte(r), *n)),
        MicroOp::Bld(d, b) => {
            let bit = has_bit(*sreg, TRANSFER);
            set(cpu, place, d, with_bit(cpu.byte(d), b.get(), bit))
        }
        MicroOp::Bst(r, b) => set_bit(sreg, place, TRANSFER, has_bit(cpu.byte(r), b.get())),
        MicroOp::Bset(s) => set_bit(sreg, place, s.get(), true),
        MicroOp::Bclr(s) => set_bit(sreg, place, s.get(), false),
        _ => None,
    }
}

/// An operation on two registers; goes on to the next word.
#[tactic(auto, unfolding(avr_exec::specs::Arithmetic::two_of))]
#[inline(always)]
fn two(op: TwoOp, cpu: &mut Cpu, sreg: &mut u8, place: usize, d: &Reg, r: &Reg) -> Option<usize>
    requires low { place < 0xF000 }
    ensures after { cpu.new ≡ registers_after cpu.old (two_of op (core_at cpu.old sreg.old place) d.now r.now) }
    ensures status { sreg.new ≡ (two_of op (core_at cpu.old sreg.old place) d.now r.now).sreg }
    ensures tells { result ≡ Some (wrapping_sum place 1) }
{
    let (left, right) = (cpu.byte(d), cpu.byte(r));
    match op {
        TwoOp::Cpc => keep_flags(sreg, place, sbc(*sreg, left, right)),
        TwoOp::Sbc => keep(cpu, sreg, place, d.get(), sbc(*sreg, left, right)),
        TwoOp::Add => keep(cpu, sreg, place, d.get(), add(*sreg, left, right)),
        TwoOp::Cp => keep_flags(sreg, place, sub(*sreg, left, right)),
        TwoOp::Sub => keep(cpu, sreg, place, d.get(), sub(*sreg, left, right)),
        TwoOp::Adc => keep(cpu, sreg, place, d.get(), adc(*sreg, left, right)),
        TwoOp::And => keep(cpu, sreg, place, d.get(), and_bits(*sreg, left, right)),
        TwoOp::Eor => keep(cpu, sreg, place, d.get(), eor(*sreg, left, right)),
        TwoOp::Or => keep(cpu, sreg, place, d.get(), or_bits(*sreg, left, right)),
        TwoOp::Mov => set(cpu, place, d, right),
        TwoOp::Mul => keep_pair(cpu, sreg, place, 0, mul(*sreg, left, right)),
    }
}

/// An operation on a register and a constant; goes on to the next word.
#[tactic(auto, unfolding(avr_exec::specs::Arithmetic::immediate_of))]
#[inline(always)]
fn immediate(
    op: ImmOp,
    cpu: &mut Cpu,
    sreg: &mut u8,
    place: usize,
    d: &HighReg,
    k: u8,
) -> Option<usize>
    requires low { place < 0xF000 }
    ensures after { cpu.new ≡ registers_after cpu.old (immediate_of op (core_at cpu.old sreg.old place) d.now k) }
    ensures status { sreg.new ≡ (immediate_of op (core_at cpu.old sreg.old place) d.now k).sreg }
    ensures tells { result ≡ Some (wrapping_sum place 1) }
{
    let d = d.get();
    let left = cpu.register(d);
    match op {
        ImmOp::Cpi => keep_flags(sreg, place, sub(*sreg, left, k)),
        ImmOp::Sbci => keep(cpu, sreg, place, d, sbc(*sreg, left, k)),
        ImmOp::Subi => keep(cpu, sreg, place, d, sub(*sreg, left, k)),
        ImmOp::Ori => keep(cpu, sreg, place, d, or_bits(*sreg, left, k)),
        ImmOp::Andi => keep(cpu, sreg, place, d, and_bits(*sreg, left, k)),
        ImmOp::Ldi => keep(cpu, sreg, place, d, (k, *sreg)),
    }
}

/// An operation on a pair and a constant; goes on to the next word.
#[tactic(auto, unfolding(avr_exec::specs::Arithmetic::word_of))]
#[inline(always)]
fn word(
    op: WordOp,
    cpu: &mut Cpu,
    sreg: &mut u8,
    place: usize,
    p: &PairReg,
    k: &Six,
) -> Option<usize>
    requires low { place < 0xF000 }
    ensures after { cpu.new ≡ registers_after cpu.old (word_of op (core_at cpu.old sreg.old place) p.now k.now) }
    ensures status { sreg.new ≡ (word_of op (core_at cpu.old sreg.old place) p.now k.now).sreg }
    ensures tells { result ≡ Some (wrapping_sum place 1) }
{
    let left = cpu.pair(p.get());
    let outcome = match op {
        WordOp::Adiw => adiw(*sreg, left, k.get()),
        WordOp::Sbiw => sbiw(*sreg, left, k.get()),
    };
    keep_pair(cpu, sreg, place, p.get(), outcome)
}

/// An operation on one register; goes on to the next word.
#[tactic(auto, unfolding(avr_exec::specs::Arithmetic::one_of))]
#[inline(always)]
fn one(op: OneOp, cpu: &mut Cpu, sreg: &mut u8, place: usize, d: &Reg) -> Option<usize>
    requires low { place < 0xF000 }
    ensures after { cpu.new ≡ registers_after cpu.old (one_of op (core_at cpu.old sreg.old place) d.now) }
    ensures status { sreg.new ≡ (one_of op (core_at cpu.old sreg.old place) d.now).sreg }
    ensures tells { result ≡ Some (wrapping_sum place 1) }
{
    let left = cpu.byte(d);
    let outcome = match op {
        OneOp::Com => com(*sreg, left),
        OneOp::Neg => neg(*sreg, left),
        OneOp::Swap => (swapped(left), *sreg),
        OneOp::Inc => inc(*sreg, left),
        OneOp::Asr => asr(*sreg, left),
        OneOp::Lsr => lsr(*sreg, left),
        OneOp::Ror => ror(*sreg, left),
        OneOp::Dec => dec(*sreg, left),
    };
    keep(cpu, sreg, place, d.get(), outcome)
}

/// Goes on to the next word.
#[inline(always)]
fn next(place: usize) -> Option<usize>
    requires low { place < 0xF000 }
    ensures tells { result ≡ Some (wrapping_sum place 1) }
{
    Some(place + 1)
}

/// Keeps a result in a register, and SREG, and goes on.
#[inline(always)]
fn keep(cpu: &mut Cpu, sreg: &mut u8, place: usize, d: u8, outcome: (u8, u8)) -> Option<usize>
    requires low { place < 0xF000 }
    requires register { d < 32 }
    ensures after { cpu.new ≡ with_register cpu.old d outcome.0 }
    ensures status { sreg.new ≡ outcome.1 }
    ensures tells { result ≡ Some (wrapping_sum place 1) }
{
    cpu.set_register(d, outcome.0);
    *sreg = outcome.1;
    next(place)
}

/// Keeps SREG alone, after a comparison, and goes on.
#[inline(always)]
fn keep_flags(sreg: &mut u8, place: usize, outcome: (u8, u8)) -> Option<usize>
    requires low { place < 0xF000 }
    ensures status { sreg.new ≡ outcome.1 }
    ensures tells { result ≡ Some (wrapping_sum place 1) }
{
    *sreg = outcome.1;
    next(place)
}

/// Keeps a result in a pair, and SREG, and goes on.
#[inline(always)]
fn keep_pair(
    cpu: &mut Cpu,
    sreg: &mut u8,
    place: usize,
    low: u8,
    outcome: (u16, u8),
) -> Option<usize>
    requires low { place < 0xF000 }
    requires register { low < 31 }
    ensures after { cpu.new ≡ with_pair cpu.old low outcome.0 }
    ensures status { sreg.new ≡ outcome.1 }
    ensures tells { result ≡ Some (wrapping_sum place 1) }
{
    cpu.set_pair(low, outcome.0);
    *sreg = outcome.1;
    next(place)
}

/// Writes a register, and goes on.
#[inline(always)]
fn set(cpu: &mut Cpu, place: usize, d: &Reg, value: u8) -> Option<usize>
    requires low { place < 0xF000 }
    ensures after { cpu.new ≡ with_register cpu.old d.now value }
    ensures tells { result ≡ Some (wrapping_sum place 1) }
{
    cpu.set_byte(d, value);
    next(place)
}

/// Copies a pair, and goes on: byte by byte, since a processor waits where it reads two bytes as one word that were just stored
/// apart.
#[inline(always)]
fn copy_pair(cpu: &mut Cpu, place: usize, to: u8, from: u8) -> Option<usize>
    requires low { place < 0xF000 }
    requires to { (to < 31) × (to % 2 ≡ 0) }
    requires from { (from < 31) × (from % 2 ≡ 0) }
    ensures after { cpu.new ≡ with_pair cpu.old to (pair cpu.old from) }
    ensures tells { result ≡ Some (wrapping_sum place 1) }
{
    let to = usize::from(to);
    let from = usize::from(from);
    cpu.r[to] = cpu.r[from];
    cpu.r[to + 1] = cpu.r[from + 1];
    next(place)
}

/// Writes SREG, and goes on.
#[inline(always)]
fn set_sreg(sreg: &mut u8, place: usize, value: u8) -> Option<usize>
    requires low { place < 0xF000 }
    ensures status { sreg.new ≡ value }
    ensures tells { result ≡ Some (wrapping_sum place 1) }
{
    *sreg = value;
    next(place)
}

/// Gives a bit of SREG a value, and goes on.
#[inline(always)]
fn set_bit(sreg: &mut u8, place: usize, number: u8, value: bool) -> Option<usize>
    requires low { place < 0xF000 }
    requires bit { number < 8 }
    ensures status { sreg.new ≡ with_flag sreg.old (2 ^ number) value }
    ensures tells { result ≡ Some (wrapping_sum place 1) }
{
    let status = with_bit(*sreg, number, value);
    set_sreg(sreg, place, status)
}

/// Brings the byte at an address of SRAM into a register, and goes on by some words.
#[inline(always)]
fn load(cpu: &mut Cpu, sram: &Sram, place: usize, d: &Reg, a: u16, words: usize) -> Option<usize>
    requires low { place < 0xF000 }
    requires words { words ≤ 2 }
    requires sram { is_within whole_sram a ≡ true }
    ensures after { cpu.new ≡ with_register cpu.old d.now (byte_at sram.now a) }
    ensures tells { result ≡ Some (wrapping_sum place words) }
{
    cpu.set_byte(d, sram.byte(a));
    Some(place + words)
}

/// Takes the byte of a register to an address of SRAM, and goes on by some words.
#[inline(always)]
fn store(cpu: &Cpu, sram: &mut Sram, place: usize, a: u16, r: &Reg, words: usize) -> Option<usize>
    requires low { place < 0xF000 }
    requires words { words ≤ 2 }
    requires sram { is_within whole_sram a ≡ true }
    ensures memory { sram.new ≡ with_byte sram.old a (register cpu.now r.now) }
    ensures tells { result ≡ Some (wrapping_sum place words) }
{
    sram.set(a, cpu.byte(r));
    Some(place + words)
}

/// Where a branch by `k` leads, which is made where `taken` is true.
#[inline(always)]
fn branched(place: usize, taken: bool, k: i16) -> usize
    requires low { place < 0xF000 }
    ensures tells { result ≡ (if taken then relative_of place k else wrapping_sum place 1) }
    ensures below { result < 65536 }
{
    if taken {
        usize::from(relative(place as u16, k))
    } else {
        place + 1
    }
}

/// Where a skip leads, which passes over the next instruction, of this many words, where `passed` is true.
#[inline(always)]
fn skipped(place: usize, passed: bool, next_size: u8) -> usize
    requires low { place < 0xF000 }
    ensures tells { result ≡ (if passed then wrapping_sum place (1 + next_size) else wrapping_sum place 1) }
    ensures below { result < 65536 }
{
    let words = if passed {
        1 + usize::from(next_size)
    } else {
        1
    };
    place + words
}
