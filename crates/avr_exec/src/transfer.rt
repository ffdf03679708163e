//! Instructions that move a byte, or go elsewhere, by way of the bus.

ghost use Rattle.std.specs.Prelude.{ℕ, ◌≡◌, ◌≤◌, IfOk, OnErr};
ghost use Rattle.avr_exec.specs.declared.answer.Answer.{Answer};
ghost use Rattle.avr_exec.specs.declared.ask.Ask.TheVariants.{Modify, PushReturn};
ghost use Rattle.avr_exec.specs.Asks.{load_of, number_of, store_of};
ghost use Rattle.avr_exec.specs.Effects.{called, loaded, stored, next as next_of};
ghost use Rattle.avr_isa.specs.Addresses.{wrapping_sum};
ghost use Rattle.avr_isa.specs.IoTable.{io_address};
ghost use Rattle.avr_isa.specs.declared.form.Form.TheVariants.{LoadAt, Pop, Push, StoreAt};
ghost use Rattle.avr_exec.specs.Registers.{register, with_counter, with_register};
ghost use Rattle.avr_exec.specs.Execution.{answer_of, answered_by, exec_of, finished};
ghost use Rattle.avr_exec.specs.Kinds.{kind_of, Fetch, Read, Deposit, Probe, Reach};
ghost use Rattle.avr_exec.specs.Spaces.{Went};

use crate::ask::{displaced, low_register, target};
use crate::bits::{bit_weight, has_bit, with_bit};
use crate::bus::Bus;
use crate::cpu::Cpu;
use crate::effect::{advance, call, move_pointer, raise_z, return_to, skip};
use crate::memory::{extended, extended_byte_raising, load, store};
use crate::stop::BusStop;
use avr_isa::{Form, LowIo, Ptr, Reg, relative};

/// The bit of SREG that enables interrupts.
const INTERRUPTS: u8 = 7;

/// Brings the byte at a data address into a register, and goes on by some words, as it tells.
#[inline(always)]
fn load_register<B: Bus>(
    cpu: &mut Cpu,
    bus: &mut B,
    pc: u16,
    d: &Reg,
    address: u16,
    words: u16,
) -> Result<u16, BusStop>
    requires at { pc ≡ cpu.old.pc }
    requires ready { B.ready bus.old }
    ensures outcome { finished result cpu.new (B.space bus.new)
        ≡ answered_by (λ (answer : Answer). with_counter (with_register cpu.old d.now (loaded cpu.old address (number_of answer))) (wrapping_sum cpu.old.pc words)) (answer_of B.calls (B.space bus.old) (load_of address)) }
    ensures tells { IfOk result (λ pc. pc ≡ cpu.new.pc) }
    ensures stop { OnErr result ((cpu.new ≡ cpu.old) × (B.space bus.new ≡ B.space bus.old)) }
    ensures lent { B.lent bus.new ≡ B.lent bus.old }
{
    let value = load(cpu, bus, address)?;
    cpu.set_byte(d, value);
    Ok(advance(cpu, pc, words))
}

/// Takes the byte in a register to a data address, and goes on by some words, as it tells.
#[inline(always)]
fn store_register<B: Bus>(
    cpu: &mut Cpu,
    bus: &mut B,
    pc: u16,
    address: u16,
    r: &Reg,
    words: u16,
) -> Result<u16, BusStop>
    requires at { pc ≡ cpu.old.pc }
    requires ready { B.ready bus.old }
    ensures outcome { finished result cpu.new (B.space bus.new)
        ≡ answered_by (λ (_ : Answer). with_counter (stored cpu.old address (register cpu.old r.now)) (wrapping_sum (stored cpu.old address (register cpu.old r.now)).pc words)) (answer_of B.calls (B.space bus.old) (store_of address (register cpu.old r.now))) }
    ensures tells { IfOk result (λ pc. pc ≡ cpu.new.pc) }
    ensures stop { OnErr result ((cpu.new ≡ cpu.old) × (B.space bus.new ≡ B.space bus.old)) }
    ensures lent { B.lent bus.new ≡ B.lent bus.old }
{
    store(cpu, bus, address, cpu.byte(r))?;
    Ok(advance(cpu, pc, words))
}

/// Brings the byte at a pointer into a register, and moves the pointer.
#[tactic(auto, unfolding(crate::specs::Execution::exec_of, crate::specs::Execution::answer_of, crate::specs::Asks::ask_of, crate::specs::Asks::finish_of))]
#[inline(always)]
fn load_pointed<B: Bus>(
    cpu: &mut Cpu,
    bus: &mut B,
    pc: u16,
    d: &Reg,
    pointer: &Ptr,
) -> Result<u16, BusStop>
    requires at { pc ≡ cpu.old.pc }
    requires ready { B.ready bus.old }
    ensures outcome { (n : ℕ) → finished result cpu.new (B.space bus.new) ≡ exec_of B.calls (LoadAt d.now pointer.now) cpu.old (B.space bus.old) n }
    ensures tells { IfOk result (λ pc. pc ≡ cpu.new.pc) }
    ensures stop { OnErr result ((cpu.new ≡ cpu.old) × (B.space bus.new ≡ B.space bus.old)) }
    ensures lent { B.lent bus.new ≡ B.lent bus.old }
{
    let before = cpu.pair(low_register(pointer));
    let value = load(cpu, bus, target(cpu, pointer))?;
    cpu.set_byte(d, value);
    move_pointer(cpu, pointer, before);
    Ok(advance(cpu, pc, 1))
}

/// Pops a byte into a register.
#[tactic(auto, unfolding(crate::specs::Execution::exec_of, crate::specs::Execution::answer_of, crate::specs::Asks::ask_of, crate::specs::Asks::finish_of))]
#[inline(always)]
fn pop_register<B: Bus>(cpu: &mut Cpu, bus: &mut B, pc: u16, d: &Reg) -> Result<u16, BusStop>
    requires at { pc ≡ cpu.old.pc }
    requires ready { B.ready bus.old }
    ensures outcome { (n : ℕ) → finished result cpu.new (B.space bus.new) ≡ exec_of B.calls (Pop d.now) cpu.old (B.space bus.old) n }
    ensures tells { IfOk result (λ pc. pc ≡ cpu.new.pc) }
    ensures stop { OnErr result ((cpu.new ≡ cpu.old) × (B.space bus.new ≡ B.space bus.old)) }
    ensures lent { B.lent bus.new ≡ B.lent bus.old }
{
    let value = bus.pop(cpu.sp)?;
    cpu.set_byte(d, value);
    cpu.sp = cpu.sp.wrapping_add(1);
    Ok(advance(cpu, pc, 1))
}

/// An instruction that brings a byte into a register. Tells the new pc.
#[tactic(auto, unfolding(crate::specs::Kinds::kind_of, crate::specs::Execution::exec_of, crate::specs::Execution::answer_of, crate::specs::Asks::ask_of, crate::specs::Asks::finish_of))]
#[inline(always)]
pub(crate) fn fetch<B: Bus>(
    form: &Form,
    cpu: &mut Cpu,
    bus: &mut B,
    pc: u16,
) -> Result<u16, BusStop>
    requires kind { kind_of form.now ≡ Fetch }
    requires at { pc ≡ cpu.old.pc }
    requires ready { B.ready bus.old }
    ensures outcome { (n : ℕ) → finished result cpu.new (B.space bus.new) ≡ exec_of B.calls form.now cpu.old (B.space bus.old) n }
    ensures tells { IfOk result (λ pc. pc ≡ cpu.new.pc) }
    ensures stop { OnErr result ((cpu.new ≡ cpu.old) × (B.space bus.new ≡ B.space bus.old)) }
    ensures lent { B.lent bus.new ≡ B.lent bus.old }
{
    match form {
        Form::LoadOff(d, base, q) => load_register(cpu, bus, pc, d, displaced(cpu, base, q), 1),
        Form::LoadAt(d, pointer) => load_pointed(cpu, bus, pc, d, pointer),
        Form::Lds(d, a) => load_register(cpu, bus, pc, d, *a, 2),
        Form::InIo(d, a) => load_register(cpu, bus, pc, d, a.address(), 1),
        Form::Pop(d) => pop_register(cpu, bus, pc, d),
        _ => unreachable!(),
    }
}

/// An instruction that brings a byte of the program into a register. Tells the new pc.
#[tactic(auto, unfolding(crate::specs::Kinds::kind_of, crate::specs::Execution::exec_of, crate::specs::Execution::answer_of, crate::specs::Asks::ask_of, crate::specs::Asks::finish_of))]
#[inline(always)]
pub(crate) fn read<B: Bus>(form: &Form, cpu: &mut Cpu, bus: &mut B, pc: u16) -> u16
    requires kind { kind_of form.now ≡ Read }
    requires at { pc ≡ cpu.old.pc }
    ensures outcome { (n : ℕ) → Went cpu.new (B.space bus.new) ≡ exec_of B.calls form.now cpu.old (B.space bus.old) n }
    ensures tells { result ≡ cpu.new.pc }
    ensures lent { B.lent bus.new ≡ B.lent bus.old }
{
    match form {
        Form::Lpm0 => cpu.set_register(0, bus.flash_byte(u32::from(cpu.pair(30)))),
        Form::Elpm0 => {
            let value = bus.flash_byte(extended(bus.rampz(), cpu.pair(30)));
            cpu.set_register(0, value);
        }
        Form::Lpm(d, increment) => {
            let z = cpu.pair(30);
            cpu.set_byte(d, bus.flash_byte(u32::from(z)));
            raise_z(cpu, *increment, z);
        }
        Form::Elpm(d, false) => {
            let value = bus.flash_byte(extended(bus.rampz(), cpu.pair(30)));
            cpu.set_byte(d, value);
        }
        Form::Elpm(d, true) => {
            let z = cpu.pair(30);
            cpu.set_byte(d, extended_byte_raising(bus, z));
            raise_z(cpu, true, z);
        }
        _ => unreachable!(),
    }
    advance(cpu, pc, 1)
}

/// Takes the byte in a register to a pointer, and moves the pointer.
#[tactic(auto, unfolding(crate::specs::Execution::exec_of, crate::specs::Execution::answer_of, crate::specs::Asks::ask_of, crate::specs::Asks::finish_of))]
#[inline(always)]
fn store_pointed<B: Bus>(
    cpu: &mut Cpu,
    bus: &mut B,
    pc: u16,
    pointer: &Ptr,
    r: &Reg,
) -> Result<u16, BusStop>
    requires at { pc ≡ cpu.old.pc }
    requires ready { B.ready bus.old }
    ensures outcome { (n : ℕ) → finished result cpu.new (B.space bus.new) ≡ exec_of B.calls (StoreAt pointer.now r.now) cpu.old (B.space bus.old) n }
    ensures tells { IfOk result (λ pc. pc ≡ cpu.new.pc) }
    ensures stop { OnErr result ((cpu.new ≡ cpu.old) × (B.space bus.new ≡ B.space bus.old)) }
    ensures lent { B.lent bus.new ≡ B.lent bus.old }
{
    let before = cpu.pair(low_register(pointer));
    let address = target(cpu, pointer);
    store(cpu, bus, address, cpu.byte(r))?;
    move_pointer(cpu, pointer, before);
    Ok(advance(cpu, pc, 1))
}

/// Pushes the byte in a register.
#[tactic(auto, unfolding(crate::specs::Execution::exec_of, crate::specs::Execution::answer_of, crate::specs::Asks::ask_of, crate::specs::Asks::finish_of))]
#[inline(always)]
fn push_register<B: Bus>(cpu: &mut Cpu, bus: &mut B, pc: u16, r: &Reg) -> Result<u16, BusStop>
    requires at { pc ≡ cpu.old.pc }
    requires ready { B.ready bus.old }
    ensures outcome { (n : ℕ) → finished result cpu.new (B.space bus.new) ≡ exec_of B.calls (Push r.now) cpu.old (B.space bus.old) n }
    ensures tells { IfOk result (λ pc. pc ≡ cpu.new.pc) }
    ensures stop { OnErr result ((cpu.new ≡ cpu.old) × (B.space bus.new ≡ B.space bus.old)) }
    ensures lent { B.lent bus.new ≡ B.lent bus.old }
{
    bus.push(cpu.sp, cpu.byte(r))?;
    cpu.sp = cpu.sp.wrapping_sub(1);
    Ok(advance(cpu, pc, 1))
}

/// Clears and sets bits of an I/O register.
#[tactic(auto, unfolding(crate::specs::Execution::answer_of))]
#[inline(always)]
fn change_bits<B: Bus>(
    cpu: &mut Cpu,
    bus: &mut B,
    pc: u16,
    a: &LowIo,
    clear: u8,
    set: u8,
) -> Result<u16, BusStop>
    requires at { pc ≡ cpu.old.pc }
    requires ready { B.ready bus.old }
    ensures outcome { finished result cpu.new (B.space bus.new)
        ≡ answered_by (λ (_ : Answer). next_of cpu.old) (answer_of B.calls (B.space bus.old) (Modify (io_address a.now) clear set)) }
    ensures tells { IfOk result (λ pc. pc ≡ cpu.new.pc) }
    ensures stop { OnErr result ((cpu.new ≡ cpu.old) × (B.space bus.new ≡ B.space bus.old)) }
    ensures lent { B.lent bus.new ≡ B.lent bus.old }
{
    bus.modify(a.address(), clear, set)?;
    Ok(advance(cpu, pc, 1))
}

/// An instruction that takes a byte elsewhere. Tells the new pc.
#[tactic(auto, unfolding(crate::specs::Kinds::kind_of, crate::specs::Execution::exec_of, crate::specs::Execution::answer_of, crate::specs::Asks::ask_of, crate::specs::Asks::finish_of))]
#[inline(always)]
pub(crate) fn deposit<B: Bus>(
    form: &Form,
    cpu: &mut Cpu,
    bus: &mut B,
    pc: u16,
) -> Result<u16, BusStop>
    requires kind { kind_of form.now ≡ Deposit }
    requires at { pc ≡ cpu.old.pc }
    requires ready { B.ready bus.old }
    ensures outcome { (n : ℕ) → finished result cpu.new (B.space bus.new) ≡ exec_of B.calls form.now cpu.old (B.space bus.old) n }
    ensures tells { IfOk result (λ pc. pc ≡ cpu.new.pc) }
    ensures stop { OnErr result ((cpu.new ≡ cpu.old) × (B.space bus.new ≡ B.space bus.old)) }
    ensures lent { B.lent bus.new ≡ B.lent bus.old }
{
    match form {
        Form::StoreOff(base, q, r) => store_register(cpu, bus, pc, displaced(cpu, base, q), r, 1),
        Form::StoreAt(pointer, r) => store_pointed(cpu, bus, pc, pointer, r),
        Form::Sts(a, r) => store_register(cpu, bus, pc, *a, r, 2),
        Form::OutIo(a, r) => store_register(cpu, bus, pc, a.address(), r, 1),
        Form::Push(r) => push_register(cpu, bus, pc, r),
        Form::Cbi(a, b) => change_bits(cpu, bus, pc, a, bit_weight(b.get()), 0),
        Form::Sbi(a, b) => change_bits(cpu, bus, pc, a, 0, bit_weight(b.get())),
        _ => unreachable!(),
    }
}

/// A skip by a bit of an I/O register. Tells the new pc.
#[tactic(auto, unfolding(crate::specs::Kinds::kind_of, crate::specs::Execution::exec_of, crate::specs::Execution::answer_of, crate::specs::Asks::ask_of, crate::specs::Asks::finish_of))]
#[inline(always)]
pub(crate) fn probe<B: Bus>(
    form: &Form,
    cpu: &mut Cpu,
    bus: &mut B,
    pc: u16,
    next_size: u16,
) -> Result<u16, BusStop>
    requires kind { kind_of form.now ≡ Probe }
    requires next { next_size ≤ 2 }
    requires at { pc ≡ cpu.old.pc }
    requires ready { B.ready bus.old }
    ensures outcome { finished result cpu.new (B.space bus.new) ≡ exec_of B.calls form.now cpu.old (B.space bus.old) next_size }
    ensures tells { IfOk result (λ pc. pc ≡ cpu.new.pc) }
    ensures stop { OnErr result ((cpu.new ≡ cpu.old) × (B.space bus.new ≡ B.space bus.old)) }
    ensures lent { B.lent bus.new ≡ B.lent bus.old }
{
    match form {
        Form::Sbic(a, b) => {
            let value = load(cpu, bus, a.address())?;
            Ok(skip(cpu, pc, !has_bit(value, b.get()), next_size))
        }
        Form::Sbis(a, b) => {
            let value = load(cpu, bus, a.address())?;
            Ok(skip(cpu, pc, has_bit(value, b.get()), next_size))
        }
        _ => unreachable!(),
    }
}

/// Pushes a return address and goes to another, which it tells.
#[tactic(auto, unfolding(crate::specs::Execution::answer_of))]
#[inline(always)]
fn enter<B: Bus>(cpu: &mut Cpu, bus: &mut B, behind: u16, address: u16) -> Result<u16, BusStop>
    requires ready { B.ready bus.old }
    ensures outcome { finished result cpu.new (B.space bus.new)
        ≡ answered_by (λ (_ : Answer). called cpu.old address) (answer_of B.calls (B.space bus.old) (PushReturn cpu.old.sp behind)) }
    ensures tells { IfOk result (λ pc. pc ≡ cpu.new.pc) }
    ensures stop { OnErr result ((cpu.new ≡ cpu.old) × (B.space bus.new ≡ B.space bus.old)) }
    ensures lent { B.lent bus.new ≡ B.lent bus.old }
{
    bus.push_ret(cpu.sp, behind)?;
    Ok(call(cpu, address))
}

/// A call or a return. Tells the new pc.
#[tactic(auto, unfolding(crate::specs::Kinds::kind_of, crate::specs::Execution::exec_of, crate::specs::Execution::answer_of, crate::specs::Asks::ask_of, crate::specs::Asks::finish_of))]
#[inline(always)]
pub(crate) fn reach<B: Bus>(
    form: &Form,
    cpu: &mut Cpu,
    bus: &mut B,
    pc: u16,
) -> Result<u16, BusStop>
    requires kind { kind_of form.now ≡ Reach }
    requires at { pc ≡ cpu.old.pc }
    requires ready { B.ready bus.old }
    ensures outcome { (n : ℕ) → finished result cpu.new (B.space bus.new) ≡ exec_of B.calls form.now cpu.old (B.space bus.old) n }
    ensures tells { IfOk result (λ pc. pc ≡ cpu.new.pc) }
    ensures stop { OnErr result ((cpu.new ≡ cpu.old) × (B.space bus.new ≡ B.space bus.old)) }
    ensures lent { B.lent bus.new ≡ B.lent bus.old }
{
    match form {
        Form::Rcall(k) => {
            let behind = pc.wrapping_add(1);
            enter(cpu, bus, behind, relative(pc, k.get()))
        }
        Form::Call(a) => enter(cpu, bus, pc.wrapping_add(2), *a),
        Form::Icall => enter(cpu, bus, pc.wrapping_add(1), cpu.pair(30)),
        Form::Ret => Ok(return_to(cpu, bus.pop_ret(cpu.sp)?)),
        Form::Reti => {
            let to = return_to(cpu, bus.pop_ret(cpu.sp)?);
            cpu.sreg = with_bit(cpu.sreg, INTERRUPTS, true);
            Ok(to)
        }
        _ => unreachable!(),
    }
}
