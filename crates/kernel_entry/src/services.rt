//! The eight services.

ghost use Rattle.std.specs.Prelude.{◌≡◌, ◌≢◌, true, false, length, is_some};
ghost use Rattle.std.specs.Option.{option_map};
ghost use Rattle.avr_exec.specs.Execution.{is_executed};
ghost use Rattle.avr_flags.specs.Status.{has_bit, interrupts};
ghost use Rattle.flash_words.specs.Memory.{IsWhole};
ghost use Rattle.sram_layout.specs.Bytes.{byte_count};
ghost use Rattle.nat_template.specs.Stubs.{bridge_entry, quantum_entry, mem_entry, push_return_entry, return_entry, indirect_entry, self_entry, fault_entry};
ghost use Rattle.kernel_entry.specs.Conditions.{IsCalled, CanCount, CanServe};
ghost use Rattle.kernel_entry.specs.Parts.{return_address, descriptor as descriptor_of, instruction};
ghost use Rattle.kernel_entry.specs.Services.{bridged, quantum_ended, foreign_read as foreign_read_of, read_by, halted, faulted, slept, is_run, due_by, is_due, served, stop_of as stop_of_bus, fault_of as fault_of_form};
ghost use Rattle.kernel_entry.specs.Left.{Leaves, LeavesHeap};
ghost use Rattle.kernel_entry.specs.Rows.{Bridges, EndsQuantum, Executes, PushesReturn, Returns, GoesThrough, LoopsOrHalts, Faults, AsTried};

use crate::execution::execute;
use crate::kernel::{Kernel, Served, Stop};
use avr_exec::{BusStop, Cpu};
use avr_isa::{Form, Instr};
use flat_machine::foreign_word;
use mem_guard::{instruction_in_image, known_instruction};
use nat_template::entries::{BRIDGE, MEM, QUANTUM, RETURN, SELF};
use preempt_count::{cross, is_crossing};
use sram_layout::KERNEL_STACK_TOP;

/// Serves the entry of the kernel at which the pc stands. The call has left the address behind it, where
/// the descriptor is, at the top of the kernel's own stack, which is empty again then.
///
/// This is the plain form: the program calls [`serve_told`].
pub fn serve(k: &mut Kernel) -> Served
    requires can { CanServe k.old }
    // The answer and the whole kernel are a function of the kernel.
    ensures served { (result, k.new) ≡ served k.old }

    // What each service leaves.
    ensures leaves { Leaves k.old k.new }
    ensures heap { k.old.mote.cpu.pc ≢ mem_entry → LeavesHeap k.old k.new }

    // Entry by entry.
    ensures bridge { k.old.mote.cpu.pc ≡ bridge_entry → Bridges k.old result k.new }
    ensures quantum { k.old.mote.cpu.pc ≡ quantum_entry → EndsQuantum k.old result k.new }
    ensures memory { k.old.mote.cpu.pc ≡ mem_entry → Executes k.old result k.new }
    ensures push_return { k.old.mote.cpu.pc ≡ push_return_entry → PushesReturn k.old result k.new }
    ensures returns { k.old.mote.cpu.pc ≡ return_entry → Returns k.old result k.new }
    ensures indirect { k.old.mote.cpu.pc ≡ indirect_entry → GoesThrough k.old result k.new }
    ensures itself { k.old.mote.cpu.pc ≡ self_entry → LoopsOrHalts k.old result k.new }
    ensures fault { k.old.mote.cpu.pc ≡ fault_entry → Faults k.old result k.new }

    // It stops exactly where the original program stops, and else takes its step.
    ensures tried { k.old.mote.cpu.pc ≢ bridge_entry → k.old.mote.cpu.pc ≢ quantum_entry → AsTried k.old result k.new }
{
    let at = descriptor(k);
    serve_at(k, at).0
}

/// Serves as [`serve`] does, and tells whether the service ends at a checkpoint, or woke the program: then an interrupt may be
/// taken next.
#[inline(always)]
pub fn serve_told(k: &mut Kernel) -> (Served, bool)
    requires can { CanServe k.old }
    ensures served { (result.0, k.new) ≡ served k.old }
    ensures due { result.1 ≡ is_due k.old }
    ensures leaves { Leaves k.old k.new }
{
    let at = descriptor(k);
    serve_at(k, at)
}

/// Serves a call whose descriptor is `at`. It isn't inlined, so that a service at once keeps no registers for it.
#[inline(never)]
fn serve_at(k: &mut Kernel, at: u16) -> (Served, bool)
    requires can { CanServe k.old }
    requires at { at ≡ descriptor_of k.old }
    ensures served { (result.0, k.new) ≡ served k.old }
    ensures due { result.1 ≡ is_due k.old }
{
    if executes(k, at) {
        run(k, at)
    } else {
        serve_apart(k, at)
    }
}

/// Whether the service executes an instruction of the program: not where LPM or ELPM would read a word that the program
/// may not read, nor where the program halts.
#[tactic(auto, unfolding(crate::specs::Services::is_run))]
fn executes(k: &Kernel, at: u16) -> bool
    requires can { CanServe k.now }
    requires at { at ≡ descriptor_of k.now }
    ensures value { result ≡ is_run k.now }
{
    let entry = k.mote.cpu.pc;
    if entry == MEM {
        return foreign_read(k, at).is_none();
    }
    if entry == SELF {
        return has_interrupts(k);
    }
    MEM < entry && entry < SELF
}

/// MEM and PUSHRET, RET, IND, and SELF: the instruction is executed. Behind the first two the template goes on behind the
/// descriptor, behind the others control goes where the instruction leads.
#[inline(always)]
fn run(k: &mut Kernel, at: u16) -> (Served, bool)
    requires can { CanServe k.old }
    requires at { at ≡ descriptor_of k.old }
    requires called { IsCalled k.old }
    requires run { is_run k.old ≡ true }
    ensures served { (result.0, k.new) ≡ served k.old }
    ensures due { result.1 ≡ is_due k.old }
{
    let entry = k.mote.cpu.pc;
    let behind = behind_call(k);
    let instr = called_instruction(k, at);
    match execute(k, at, &instr) {
        Ok(ran) => {
            if entry < RETURN {
                k.mote.cpu.pc = behind.wrapping_add(1);
                return (Served::Resume(ran.line), false);
            }
            let due = cross(&mut k.mote.sram, k.quantum, at, ran.pc);
            let answer = Served::Goto {
                target: ran.pc,
                stub: None,
            };
            (answer, due)
        }
        Err(stop) => (Served::Stopped(stop_of(at, stop)), false),
    }
}

/// The services that execute no instruction.
#[inline(never)]
fn serve_apart(k: &mut Kernel, at: u16) -> (Served, bool)
    requires can { CanServe k.old }
    requires at { at ≡ descriptor_of k.old }
    requires apart { is_run k.old ≡ false }
    ensures served { (result.0, k.new) ≡ served k.old }
    ensures due { result.1 ≡ is_due k.old }
{
    let entry = k.mote.cpu.pc;
    let last = k.mote.sram.count() == 1;
    let answer = answer_apart(k, at);
    (answer, is_due_by(entry, at, last, answer))
}

/// What they answer.
#[tactic(auto, unfolding(crate::specs::Services::served))]
fn answer_apart(k: &mut Kernel, at: u16) -> Served
    requires can { CanServe k.old }
    requires at { at ≡ descriptor_of k.old }
    requires apart { is_run k.old ≡ false }
    ensures served { (result, k.new) ≡ served k.old }
{
    match k.mote.cpu.pc {
        BRIDGE => bridge(k, at),
        QUANTUM => end_quantum(k, at),
        MEM => refuse(k, at),
        SELF => halt(k, at),
        _ => fault(k, at),
    }
}

/// Whether a service with this answer ends at a checkpoint; `last` is whether the next crossing is one.
fn is_due_by(entry: u16, at: u16, last: bool, answer: Served) -> bool
    ensures due { result ≡ due_by entry at last answer }
{
    match answer {
        Served::Goto { target, stub: None } => entry == QUANTUM || is_crossing(at, target) && last,
        Served::Woke { .. } => true,
        _ => false,
    }
}

/// BRIDGE: control goes to the descriptor's address, from the stub that called.
fn bridge(k: &mut Kernel, at: u16) -> Served
    requires at { at ≡ descriptor_of k.old }
    ensures served { (result, k.new) ≡ bridged k.old }
{
    let stub = behind_call(k).wrapping_sub(2);
    k.mote.cpu.sp = KERNEL_STACK_TOP;
    Served::Goto {
        target: at,
        stub: Some(stub),
    }
}

/// QUANTUM: the stub kept r24 and SREG in their cells; COUNT begins anew.
fn end_quantum(k: &mut Kernel, at: u16) -> Served
    requires at { at ≡ descriptor_of k.old }
    ensures served { (result, k.new) ≡ quantum_ended k.old }
{
    k.mote.cpu.r[24] = k.mote.sram.r24();
    k.mote.cpu.sreg = k.mote.sram.sreg();
    k.mote.cpu.sp = KERNEL_STACK_TOP;
    k.mote.sram.set_count(k.quantum);
    Served::Goto {
        target: at,
        stub: None,
    }
}

/// MEM, where LPM or ELPM would read a word that the program may not read.
fn refuse(k: &mut Kernel, at: u16) -> Served
    requires at { at ≡ descriptor_of k.old }
    requires called { IsCalled k.old }
    requires foreign { is_some (foreign_read_of k.old) ≡ true }
    ensures served { (result, k.new) ≡ read_by k.old (foreign_read_of k.old) }
{
    let word = foreign_read(k, at).unwrap();
    k.mote.cpu.sp = KERNEL_STACK_TOP;
    Served::Stopped(Stop::Read(at, word))
}

/// The word of the program that the instruction would read, where it may not. Only a shut part forbids any.
#[inline(always)]
fn foreign_read(k: &Kernel, at: u16) -> Option<u16>
    requires at { at ≡ descriptor_of k.now }
    requires called { IsCalled k.now }
    ensures value { result ≡ foreign_read_of k.now }
{
    if !k.part.shut {
        return None;
    }
    foreign_read_if_shut(k, at)
}

/// That word, told by the instruction itself, whether the part is shut or not.
#[inline(never)]
fn foreign_read_if_shut(k: &Kernel, at: u16) -> Option<u16>
    requires at { at ≡ descriptor_of k.now }
    requires called { IsCalled k.now }
    ensures value { result ≡ foreign_read_of k.now }
{
    let instr = called_instruction(k, at);
    let core = Cpu {
        r: k.mote.cpu.r,
        sreg: k.mote.cpu.sreg,
        sp: k.mote.sram.vsp(),
        pc: at,
    };
    foreign_word(&k.part, &k.mote.devices, &instr, &core)
}

/// SELF, where interrupts are off: an RJMP or JMP to its own address halts.
fn halt(k: &mut Kernel, at: u16) -> Served
    requires at { at ≡ descriptor_of k.old }
    ensures served { (result, k.new) ≡ halted k.old }
{
    k.mote.cpu.sp = KERNEL_STACK_TOP;
    Served::Stopped(Stop::Halted(at))
}

/// FAULT: a SLEEP ends at an interrupt, or stops the program for ever; any other instruction stops it.
fn fault(k: &mut Kernel, at: u16) -> Served
    requires at { at ≡ descriptor_of k.old }
    requires count { CanCount k.old }
    ensures served { (result, k.new) ≡ faulted k.old }
{
    let instr = instruction_in_image(&k.mote.flash, &k.layout, at);
    let stop = fault_of(at, instr.as_ref());
    if let Stop::Asleep(_) = stop {
        return sleep(k, at);
    }
    k.mote.cpu.sp = KERNEL_STACK_TOP;
    Served::Stopped(stop)
}

/// SLEEP: the program goes on behind it once an interrupt is enabled; it stops where interrupts are off, or where none will be.
fn sleep(k: &mut Kernel, at: u16) -> Served
    requires at { at ≡ descriptor_of k.old }
    requires count { CanCount k.old }
    ensures served { (result, k.new) ≡ slept k.old }
{
    k.mote.cpu.sp = KERNEL_STACK_TOP;
    if !has_interrupts(k) {
        return Served::Stopped(Stop::Asleep(at));
    }
    if !k.mote.devices.sleep() {
        return Served::Stopped(Stop::Asleep(at));
    }
    let target = at.wrapping_add(1);
    cross(&mut k.mote.sram, k.quantum, at, target);
    Served::Woke { target }
}

/// The flash address behind the call, where the descriptor is: the call left it with its high byte at the
/// lower address.
pub(crate) fn behind_call(k: &Kernel) -> u16
    ensures value { result ≡ return_address k.now }
    ensures size { length k.now.mote.sram ≡ byte_count }
{
    u16::from_be_bytes([
        k.mote.sram.byte(KERNEL_STACK_TOP - 1),
        k.mote.sram.byte(KERNEL_STACK_TOP),
    ])
}

/// The word behind the call.
pub(crate) fn descriptor(k: &Kernel) -> u16
    ensures value { result ≡ descriptor_of k.now }
    ensures size { length k.now.mote.sram ≡ byte_count }
    ensures whole { IsWhole k.now.mote.flash }
{
    k.mote.flash.word(behind_call(k))
}

/// The program's instruction at the descriptor's address.
fn called_instruction(k: &Kernel, at: u16) -> Instr
    requires at { at ≡ descriptor_of k.now }
    requires called { IsCalled k.now }
    ensures value { instruction k.now ≡ Some result }
    ensures executed { is_executed result ≡ true }
{
    known_instruction(&k.mote.flash, &k.layout, at)
}

/// Whether the program has interrupts on.
pub fn has_interrupts(k: &Kernel) -> bool
    ensures value { result ≡ has_bit k.now.mote.cpu.sreg interrupts }
{
    k.mote.cpu.sreg / 0x80 % 2 == 1
}

/// A stop of the program's memory, of the instruction at this address.
pub(crate) fn stop_of(at: u16, stop: BusStop) -> Stop
    ensures value { result ≡ stop_of_bus at stop }
{
    match stop {
        BusStop::Io(a) => Stop::Io(at, a),
        BusStop::Stack(a) => Stop::Stack(at, a),
        BusStop::SwapFull(a) => Stop::SwapFull(at, a),
    }
}

/// Why the instruction at this address, or what is none, may not be executed.
fn fault_of(at: u16, instr: Option<&Instr>) -> Stop
    ensures value { result ≡ fault_of_form at (option_map (λ borrowed. borrowed.now) instr.entry) }
{
    match instr {
        Some(instr) => match instr.form() {
            Form::Sleep => Stop::Asleep(at),
            Form::Spm => Stop::SelfProgram(at),
            Form::InIo(_, a) | Form::OutIo(a, _) => Stop::Io(at, a.address()),
            Form::Cbi(a, _) | Form::Sbi(a, _) | Form::Sbic(a, _) | Form::Sbis(a, _) => {
                Stop::Io(at, a.address())
            }
            _ => Stop::Illegal(at),
        },
        None => Stop::Illegal(at),
    }
}
