//! What an instruction does to the registers.

ghost use Rattle.std.specs.Prelude.{ℕ, ◌≡◌, ◌<◌, ◌≤◌};
ghost use Rattle.avr_isa.specs.Addresses.{wrapping_sum};
ghost use Rattle.avr_exec.specs.Registers.{with_counter};
ghost use Rattle.avr_exec.specs.declared.answer.Answer.TheVariants.{Done};
ghost use Rattle.avr_exec.specs.declared.ask.Ask.TheVariants.{Nothing};
ghost use Rattle.avr_exec.specs.Asks.{ask_of, finish_of};
ghost use Rattle.avr_exec.specs.Effects.{with_pointer, with_z_raised_if, skip_if, branch_if, called, returned};
ghost use Rattle.avr_exec.specs.Kinds.{kind_of, Inner, Turn};

use crate::arithmetic::{keep_word, product};
use crate::bits::{TRANSFER, has_bit, with_bit};
use crate::cpu::Cpu;
use avr_flags::muls;
use avr_isa::{Form, Ptr, relative};

/// Gives a pointer that changes its new value.
#[tactic(auto, unfolding(crate::specs::Effects::with_pointer))]
#[inline(always)]
pub fn move_pointer(cpu: &mut Cpu, pointer: &Ptr, value: u16)
    ensures after { cpu.new ≡ with_pointer cpu.old pointer.now value }
    ensures pc { cpu.new.pc ≡ cpu.old.pc }
{
    match pointer {
        Ptr::XInc => cpu.set_pair(26, value.wrapping_add(1)),
        Ptr::YInc => cpu.set_pair(28, value.wrapping_add(1)),
        Ptr::ZInc => cpu.set_pair(30, value.wrapping_add(1)),
        Ptr::XDec => cpu.set_pair(26, value.wrapping_sub(1)),
        Ptr::YDec => cpu.set_pair(28, value.wrapping_sub(1)),
        Ptr::ZDec => cpu.set_pair(30, value.wrapping_sub(1)),
        Ptr::X => {}
    }
}

/// Raises Z where a load from the program asks for it.
pub fn raise_z(cpu: &mut Cpu, increment: bool, z: u16)
    ensures after { cpu.new ≡ with_z_raised_if cpu.old increment z }
    ensures pc { cpu.new.pc ≡ cpu.old.pc }
{
    if increment {
        cpu.set_pair(30, z.wrapping_add(1));
    }
}

/// Goes to an address, and tells it.
pub(crate) fn go(cpu: &mut Cpu, address: u16) -> u16
    ensures after { cpu.new ≡ with_counter cpu.old address }
    ensures tells { result ≡ cpu.new.pc }
{
    cpu.pc = address;
    address
}

/// Moves the pc, which is `pc`, on by some words, and tells it.
pub(crate) fn advance(cpu: &mut Cpu, pc: u16, words: u16) -> u16
    requires at { pc ≡ cpu.old.pc }
    ensures after { cpu.new ≡ with_counter cpu.old (wrapping_sum cpu.old.pc words) }
    ensures tells { result ≡ cpu.new.pc }
{
    go(cpu, pc.wrapping_add(words))
}

/// Passes over the next instruction, of this many words, where `passed` is true. Tells the new pc.
pub(crate) fn skip(cpu: &mut Cpu, pc: u16, passed: bool, next_size: u16) -> u16
    requires at { pc ≡ cpu.old.pc }
    requires next { next_size < 0xFFFF }
    ensures after { cpu.new ≡ skip_if passed next_size cpu.old }
    ensures tells { result ≡ cpu.new.pc }
{
    let words = if passed { 1 + next_size } else { 1 };
    advance(cpu, pc, words)
}

/// Branches by `k` where `taken` is true. Tells the new pc.
pub(crate) fn branch(cpu: &mut Cpu, pc: u16, taken: bool, k: i16) -> u16
    requires at { pc ≡ cpu.old.pc }
    ensures after { cpu.new ≡ branch_if taken k cpu.old }
    ensures tells { result ≡ cpu.new.pc }
{
    if taken {
        go(cpu, relative(pc, k))
    } else {
        advance(cpu, pc, 1)
    }
}

/// Goes to an address, with two bytes pushed, and tells it.
pub(crate) fn call(cpu: &mut Cpu, address: u16) -> u16
    ensures after { cpu.new ≡ called cpu.old address }
    ensures tells { result ≡ cpu.new.pc }
{
    cpu.sp = cpu.sp.wrapping_sub(2);
    go(cpu, address)
}

/// Goes to an address, with two bytes popped, and tells it.
pub(crate) fn return_to(cpu: &mut Cpu, address: u16) -> u16
    ensures after { cpu.new ≡ returned cpu.old address }
    ensures tells { result ≡ cpu.new.pc }
{
    cpu.sp = cpu.sp.wrapping_add(2);
    go(cpu, address)
}

/// One of the seldom instructions that work on the core's registers alone, and are followed by the next. Tells the new pc.
#[tactic(auto, unfolding(crate::specs::Kinds::kind_of, crate::specs::Asks::ask_of, crate::specs::Asks::finish_of))]
#[inline(always)]
pub(crate) fn compute(form: &Form, cpu: &mut Cpu, pc: u16) -> u16
    requires kind { kind_of form.now ≡ Inner }
    requires at { pc ≡ cpu.old.pc }
    ensures asks { ask_of form.now cpu.old ≡ Nothing }
    ensures after { (n : ℕ) → finish_of form.now cpu.old n Done ≡ cpu.new }
    ensures tells { result ≡ cpu.new.pc }
{
    match form {
        Form::Muls(d, r) => {
            let outcome = muls(cpu.sreg, cpu.register(d.get()), cpu.register(r.get()));
            keep_word(cpu, 0, outcome);
        }
        Form::Product(op, d, r) => product(op, cpu, d.get(), r.get()),
        Form::Bld(d, b) => {
            let value = with_bit(cpu.byte(d), b.get(), has_bit(cpu.sreg, TRANSFER));
            cpu.set_byte(d, value);
        }
        Form::Bst(d, b) => {
            cpu.sreg = with_bit(cpu.sreg, TRANSFER, has_bit(cpu.byte(d), b.get()));
        }
        Form::Bset(s) => cpu.sreg = with_bit(cpu.sreg, s.get(), true),
        Form::Bclr(s) => cpu.sreg = with_bit(cpu.sreg, s.get(), false),
        _ => {}
    }
    advance(cpu, pc, 1)
}

/// A skip, a branch or a jump by the core's registers alone. Tells the new pc.
#[tactic(auto, unfolding(crate::specs::Kinds::kind_of, crate::specs::Asks::ask_of, crate::specs::Asks::finish_of))]
#[inline(always)]
pub(crate) fn turn(form: &Form, cpu: &mut Cpu, pc: u16, next_size: u16) -> u16
    requires kind { kind_of form.now ≡ Turn }
    requires at { pc ≡ cpu.old.pc }
    requires next { next_size ≤ 2 }
    ensures asks { ask_of form.now cpu.old ≡ Nothing }
    ensures after { finish_of form.now cpu.old next_size Done ≡ cpu.new }
    ensures tells { result ≡ cpu.new.pc }
{
    match form {
        Form::Cpse(d, r) => {
            let equal = cpu.byte(d) == cpu.byte(r);
            skip(cpu, pc, equal, next_size)
        }
        Form::Sbrc(r, b) => {
            let set = has_bit(cpu.byte(r), b.get());
            skip(cpu, pc, !set, next_size)
        }
        Form::Sbrs(r, b) => {
            let set = has_bit(cpu.byte(r), b.get());
            skip(cpu, pc, set, next_size)
        }
        Form::Brbs(s, k) => {
            let set = has_bit(cpu.sreg, s.get());
            branch(cpu, pc, set, k.get())
        }
        Form::Brbc(s, k) => {
            let set = has_bit(cpu.sreg, s.get());
            branch(cpu, pc, !set, k.get())
        }
        Form::Rjmp(k) => go(cpu, relative(pc, k.get())),
        Form::Jmp(a) => go(cpu, *a),
        Form::Ijmp => go(cpu, cpu.pair(30)),
        _ => unreachable!(),
    }
}
