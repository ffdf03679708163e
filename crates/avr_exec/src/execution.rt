//! One instruction.

ghost use Rattle.std.specs.Prelude.{◌≡◌, ◌≤◌, true, IfOk, OnErr};
ghost use Rattle.avr_exec.specs.Execution.{exec_of, is_executed, finished};
ghost use Rattle.avr_exec.specs.Kinds.{is_seldom};

use crate::arithmetic::{immediate, one, two, word};
use crate::bus::Bus;
use crate::cpu::Cpu;
use crate::effect::{advance, compute, turn};
use crate::stop::BusStop;
use crate::transfer::{deposit, fetch, probe, reach, read};
use avr_isa::{Form, Instr};

/// Executes one instruction other than SLEEP and SPM. `next_size` is the number of words of the next
/// instruction, which a skip passes over.
///
/// The registers, SPL, SPH and SREG are answered from `cpu`, also at their data addresses. The bus is
/// asked for one thing at most, before anything is changed; a stop is the one that this call gave.
///
/// This is the plain form: the program calls [`exec_at`].
#[inline(always)]
pub fn exec<B: Bus>(i: &Instr, cpu: &mut Cpu, bus: &mut B, next_size: u16) -> Result<(), BusStop>
    requires executed { is_executed i.now ≡ true }
    requires next { (1 ≤ next_size) × (next_size ≤ 2) }
    requires ready { B.ready bus.old }
    ensures outcome { finished result cpu.new (B.space bus.new)
        ≡ exec_of B.calls i.now cpu.old (B.space bus.old) next_size }
    ensures stop { OnErr result ((cpu.new ≡ cpu.old) × (B.space bus.new ≡ B.space bus.old)) }
    ensures lent { B.lent bus.new ≡ B.lent bus.old }
{
    let pc = cpu.pc;
    exec_at(i, cpu, bus, pc, next_size)?;
    Ok(())
}

/// Executes as [`exec`] does, from a pc that the caller has at hand, and tells the new one: who executes one instruction behind
/// the other waits for no memory to know it.
#[tactic(auto, unfolding(crate::specs::Kinds::kind_of, crate::specs::Kinds::is_seldom, crate::specs::Execution::exec_of, crate::specs::Execution::answer_of, crate::specs::Execution::is_executed, crate::specs::Asks::ask_of, crate::specs::Asks::finish_of))]
#[inline(always)]
pub fn exec_at<B: Bus>(
    i: &Instr,
    cpu: &mut Cpu,
    bus: &mut B,
    pc: u16,
    next_size: u16,
) -> Result<u16, BusStop>
    requires executed { is_executed i.now ≡ true }
    requires at { pc ≡ cpu.old.pc }
    requires next { (1 ≤ next_size) × (next_size ≤ 2) }
    requires ready { B.ready bus.old }
    ensures outcome { finished result cpu.new (B.space bus.new)
        ≡ exec_of B.calls i.now cpu.old (B.space bus.old) next_size }
    ensures tells { IfOk result (λ pc. pc ≡ cpu.new.pc) }
    ensures stop { OnErr result ((cpu.new ≡ cpu.old) × (B.space bus.new ≡ B.space bus.old)) }
    ensures lent { B.lent bus.new ≡ B.lent bus.old }
{
    let form = i.form();
    match form {
        Form::Movw(d, r) => cpu.set_pair(d.get(), cpu.pair(r.get())),
        Form::Two(op, d, r) => two(op, cpu, d.get(), r.get()),
        Form::Imm(op, d, k) => immediate(op, cpu, d.get(), *k),
        Form::Word(op, p, k) => word(op, cpu, p.get(), k.get()),
        Form::One(op, d) => one(op, cpu, d.get()),
        Form::Brbs(..) | Form::Brbc(..) | Form::Rjmp(_) | Form::Jmp(_) => {
            return Ok(turn(form, cpu, pc, next_size));
        }
        Form::LoadOff(..) | Form::LoadAt(..) | Form::Lds(..) | Form::InIo(..) => {
            return fetch(form, cpu, bus, pc);
        }
        Form::StoreOff(..) | Form::StoreAt(..) | Form::Sts(..) | Form::OutIo(..) => {
            return deposit(form, cpu, bus, pc);
        }
        _ => return exec_seldom(form, cpu, bus, pc, next_size),
    }
    Ok(advance(cpu, pc, 1))
}

/// Executes one of those that are seldom met.
#[tactic(auto, unfolding(crate::specs::Kinds::kind_of, crate::specs::Kinds::is_seldom, crate::specs::Execution::exec_of, crate::specs::Execution::answer_of))]
fn exec_seldom<B: Bus>(
    form: &Form,
    cpu: &mut Cpu,
    bus: &mut B,
    pc: u16,
    next_size: u16,
) -> Result<u16, BusStop>
    requires seldom { is_seldom form.now ≡ true }
    requires at { pc ≡ cpu.old.pc }
    requires next { (1 ≤ next_size) × (next_size ≤ 2) }
    requires ready { B.ready bus.old }
    ensures outcome { finished result cpu.new (B.space bus.new)
        ≡ exec_of B.calls form.now cpu.old (B.space bus.old) next_size }
    ensures tells { IfOk result (λ pc. pc ≡ cpu.new.pc) }
    ensures stop { OnErr result ((cpu.new ≡ cpu.old) × (B.space bus.new ≡ B.space bus.old)) }
    ensures lent { B.lent bus.new ≡ B.lent bus.old }
{
    match form {
        Form::Cpse(..) | Form::Sbrc(..) | Form::Sbrs(..) | Form::Ijmp => {
            Ok(turn(form, cpu, pc, next_size))
        }
        Form::Pop(_) => fetch(form, cpu, bus, pc),
        Form::Push(_) | Form::Cbi(..) | Form::Sbi(..) => deposit(form, cpu, bus, pc),
        Form::Lpm0 | Form::Elpm0 | Form::Lpm(..) | Form::Elpm(..) => Ok(read(form, cpu, bus, pc)),
        Form::Sbic(..) | Form::Sbis(..) => probe(form, cpu, bus, pc, next_size),
        Form::Rcall(_) | Form::Call(_) | Form::Icall | Form::Ret | Form::Reti => {
            reach(form, cpu, bus, pc)
        }
        _ => Ok(compute(form, cpu, pc)),
    }
}
