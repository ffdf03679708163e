//! Services at once: of instructions whose bytes are at hand, so that no bus is made.

ghost use Rattle.std.specs.Prelude.{◌≡◌, ◌≤◌, ◌<◌, true, false, Some, None, is_some, IfSome, IfNone};
ghost use Rattle.avr_isa.specs.declared.form.Form.TheVariants.{Ret, Lds, Sts, LoadOff, StoreOff, LoadAt, StoreAt, Lpm, InIo, OutIo};
ghost use Rattle.avr_isa.specs.Addresses.{wrapping_sum, wrapping_difference};
ghost use Rattle.avr_exec.specs.Registers.{register, with_register, with_stack};
ghost use Rattle.avr_exec.specs.Spaces.{Went};
ghost use Rattle.sram_layout.specs.Bytes.{byte_at, with_byte, with_word};
ghost use Rattle.flat_machine.specs.Addresses.{is_stack as is_stack_test};
ghost use Rattle.sram_layout.specs.Cells.{vsp_cell};
ghost use Rattle.heap_frames.specs.Paged.{IsPaged};
ghost use Rattle.mem_guard.specs.AtHand.{stored_at_hand, StoresAtHand};
ghost use Rattle.mem_guard.specs.Guarded.{pop_return, push_return};
ghost use Rattle.nat_template.specs.Stubs.{mem_entry, return_entry};
ghost use Rattle.kernel_entry.specs.AtOnce.{IsExecuted, IsLoaded, WentOn};
ghost use Rattle.kernel_entry.specs.Conditions.{CanServe};
ghost use Rattle.kernel_entry.specs.Parts.{descriptor as descriptor_of, instruction, virtual_sp, memory_of, core_of, rested, put_back, with_sram};
ghost use Rattle.kernel_entry.specs.Interrupts.{with_address};
ghost use Rattle.kernel_entry.specs.Services.{served, is_due};
ghost use Rattle.kernel_entry.specs.Left.{Leaves};
ghost use Rattle.kernel_entry.specs.declared.kernel.Served.TheVariants.{Resume, Goto};

use crate::kernel::Kernel;
use crate::services::{behind_call, descriptor};
use avr_exec::{displaced, low_register, move_pointer, raise_z, target};
use avr_isa::{Base, Form, IoAddr, Ptr, Reg, Six};
use flash_model::word_in_image;
use flash_words::RET;
use mem_guard::{byte_in_image, is_stack, kept_instruction, load_at_hand, store_at_hand};
use nat_template::entries::{MEM, RETURN};
use preempt_count::cross;
use sram_layout::KERNEL_STACK_TOP;

/// Fields of I/O addresses: the two bytes of the stack pointer.
const SPL: u8 = 0x3D;

const SPH: u8 = 0x3E;

/// Serves MEM and PUSHRET at once, where it can: then the program goes on behind the descriptor, where the pc is now, and no
/// line was shown. Tells whether it does; else nothing is done.
#[inline(always)]
pub fn resume_at_once(k: &mut Kernel) -> bool
    requires can { CanServe k.old }
    ensures served { result ≡ true → (Resume None, k.new) ≡ served k.old }
    ensures due { result ≡ true → is_due k.old ≡ false }
    ensures leaves { result ≡ true → Leaves k.old k.new }
    ensures none { result ≡ false → k.new ≡ k.old }
{
    let entry = k.mote.cpu.pc;
    if entry < MEM {
        return false;
    }
    if entry < RETURN {
        return resume(k);
    }
    false
}

/// Serves such an entry, where it can.
#[inline(always)]
fn resume(k: &mut Kernel) -> bool
    requires can { CanServe k.old }
    requires from { mem_entry ≤ k.old.mote.cpu.pc }
    requires below { k.old.mote.cpu.pc < return_entry }
    ensures served { result ≡ true → (Resume None, k.new) ≡ served k.old }
    ensures due { result ≡ true → is_due k.old ≡ false }
    ensures none { result ≡ false → k.new ≡ k.old }
{
    let behind = behind_call(k);
    let at = descriptor(k);
    if execute_at_once(k, at) {
        k.mote.cpu.pc = behind.wrapping_add(1);
        return true;
    }
    false
}

/// Serves RET at once, where it can. Tells the address to go to, and whether an interrupt may be taken next; else nothing is
/// done.
#[inline(always)]
pub fn return_at_once(k: &mut Kernel) -> Option<(u16, bool)>
    requires can { CanServe k.old }
    ensures served { IfSome result (λ told. (Goto told.0 None, k.new) ≡ served k.old) }
    ensures due { IfSome result (λ told. told.1 ≡ is_due k.old) }
    ensures leaves { IfSome result (λ _. Leaves k.old k.new) }
    ensures none { IfNone result (k.new ≡ k.old) }
{
    let entry = k.mote.cpu.pc;
    if entry == RETURN {
        return go_back(k);
    }
    None
}

/// Serves the entry of a return, where it can.
#[inline(always)]
fn go_back(k: &mut Kernel) -> Option<(u16, bool)>
    requires can { CanServe k.old }
    requires entry { k.old.mote.cpu.pc ≡ return_entry }
    ensures served { IfSome result (λ told. (Goto told.0 None, k.new) ≡ served k.old) }
    ensures due { IfSome result (λ told. told.1 ≡ is_due k.old) }
    ensures none { IfNone result (k.new ≡ k.old) }
{
    let at = descriptor(k);
    if !is_plain_return(k, at) {
        return None;
    }
    match pop_in_window(k) {
        Some(pc) => {
            let due = cross(&mut k.mote.sram, k.quantum, at, pc);
            Some((pc, due))
        }
        None => None,
    }
}

/// Whether the program's instruction at an address is RET.
#[inline(always)]
fn is_plain_return(k: &Kernel, at: u16) -> bool
    requires at { at ≡ descriptor_of k.now }
    ensures is { result ≡ true → instruction k.now ≡ Some Ret }
{
    word_in_image(&k.mote.flash, &k.layout, u32::from(at)) == RET
}

/// Executes the program's instruction at the address that the descriptor names, where flash has it decoded and its bytes are at
/// hand. Tells whether it does; else nothing is done.
#[inline(always)]
fn execute_at_once(k: &mut Kernel, at: u16) -> bool
    requires at { at ≡ descriptor_of k.old }
    requires known { is_some (instruction k.old) ≡ true }
    requires paged { IsPaged k.old.mote.sram k.old.mote.swap }
    ensures executed { result ≡ true → IsExecuted k.old k.new }
    ensures none { result ≡ false → k.new ≡ k.old }
{
    match kept_instruction(&k.mote.flash, &k.layout, at) {
        Some(instr) => match *instr.form() {
            Form::Call(_) => push_in_window(k, at.wrapping_add(2)),
            Form::Rcall(_) => push_in_window(k, at.wrapping_add(1)),
            Form::Lds(d, a) => load_direct(k, &d, a),
            Form::Sts(a, r) => store_direct(k, a, &r),
            Form::LoadOff(d, base, q) => load_displaced(k, &d, &base, &q),
            Form::StoreOff(base, q, r) => store_displaced(k, &base, &q, &r),
            Form::LoadAt(d, pointer) => load_pointed(k, &d, &pointer),
            Form::StoreAt(pointer, r) => store_pointed(k, &pointer, &r),
            Form::Pop(d) => pop_register(k, &d),
            Form::Push(r) => push_register(k, &r),
            Form::Lpm(d, increment) => read_program(k, &d, increment),
            Form::InIo(d, a) => read_stack_pointer(k, &d, &a),
            Form::OutIo(a, r) => write_stack_pointer(k, &a, &r),
            _ => false,
        },
        None => false,
    }
}

/// LDS.
#[inline(always)]
fn load_direct(k: &mut Kernel, d: &Reg, a: u16) -> bool
    requires paged { IsPaged k.old.mote.sram k.old.mote.swap }
    ensures executed { result ≡ true → WentOn k.old (Lds d.now a) (wrapping_sum (descriptor_of k.old) 2) k.new }
    ensures none { result ≡ false → k.new ≡ k.old }
{
    load_register(k, d, a)
}

/// LDD.
#[inline(always)]
fn load_displaced(k: &mut Kernel, d: &Reg, base: &Base, q: &Six) -> bool
    requires paged { IsPaged k.old.mote.sram k.old.mote.swap }
    ensures executed { result ≡ true → WentOn k.old (LoadOff d.now base.now q.now) (wrapping_sum (descriptor_of k.old) 1) k.new }
    ensures none { result ≡ false → k.new ≡ k.old }
{
    let a = displaced(&k.mote.cpu, base, q);
    load_register(k, d, a)
}

/// LD.
#[inline(always)]
fn load_pointed(k: &mut Kernel, d: &Reg, pointer: &Ptr) -> bool
    requires paged { IsPaged k.old.mote.sram k.old.mote.swap }
    ensures executed { result ≡ true → WentOn k.old (LoadAt d.now pointer.now) (wrapping_sum (descriptor_of k.old) 1) k.new }
    ensures none { result ≡ false → k.new ≡ k.old }
{
    let before = k.mote.cpu.pair(low_register(pointer));
    let a = target(&k.mote.cpu, pointer);
    if load_register(k, d, a) {
        move_pointer(&mut k.mote.cpu, pointer, before);
        return true;
    }
    false
}

/// STS.
#[inline(always)]
fn store_direct(k: &mut Kernel, a: u16, r: &Reg) -> bool
    requires paged { IsPaged k.old.mote.sram k.old.mote.swap }
    ensures executed { result ≡ true → WentOn k.old (Sts a r.now) (wrapping_sum (descriptor_of k.old) 2) k.new }
    ensures none { result ≡ false → k.new ≡ k.old }
{
    store_register(k, a, r)
}

/// STD.
#[inline(always)]
fn store_displaced(k: &mut Kernel, base: &Base, q: &Six, r: &Reg) -> bool
    requires paged { IsPaged k.old.mote.sram k.old.mote.swap }
    ensures executed { result ≡ true → WentOn k.old (StoreOff base.now q.now r.now) (wrapping_sum (descriptor_of k.old) 1) k.new }
    ensures none { result ≡ false → k.new ≡ k.old }
{
    let a = displaced(&k.mote.cpu, base, q);
    store_register(k, a, r)
}

/// ST.
#[inline(always)]
fn store_pointed(k: &mut Kernel, pointer: &Ptr, r: &Reg) -> bool
    requires paged { IsPaged k.old.mote.sram k.old.mote.swap }
    ensures executed { result ≡ true → WentOn k.old (StoreAt pointer.now r.now) (wrapping_sum (descriptor_of k.old) 1) k.new }
    ensures none { result ≡ false → k.new ≡ k.old }
{
    let before = k.mote.cpu.pair(low_register(pointer));
    let a = target(&k.mote.cpu, pointer);
    if store_register(k, a, r) {
        move_pointer(&mut k.mote.cpu, pointer, before);
        return true;
    }
    false
}

/// POP.
#[inline(always)]
fn pop_register(k: &mut Kernel, d: &Reg) -> bool
    ensures held { result ≡ true → is_stack_test (wrapping_sum (virtual_sp k.old) 1) ≡ true }
    ensures after { result ≡ true → k.new ≡ put_back k.old (with_stack (with_register (core_of k.old 0) d.now (byte_at k.old.mote.sram (wrapping_sum (virtual_sp k.old) 1))) (wrapping_sum (virtual_sp k.old) 1)) (memory_of k.old) }
    ensures none { result ≡ false → k.new ≡ k.old }
{
    let a = k.mote.sram.vsp().wrapping_add(1);
    if !is_stack(a) {
        return false;
    }
    k.mote.cpu.set_byte(d, k.mote.sram.byte(a));
    k.mote.cpu.sp = KERNEL_STACK_TOP;
    k.mote.sram.set_vsp(a);
    true
}

/// PUSH.
#[inline(always)]
fn push_register(k: &mut Kernel, r: &Reg) -> bool
    ensures held { result ≡ true → is_stack_test (virtual_sp k.old) ≡ true }
    ensures after { result ≡ true → k.new ≡ put_back k.old (with_stack (core_of k.old 0) (wrapping_difference (virtual_sp k.old) 1)) (memory_of (with_sram k.old (with_byte k.old.mote.sram (virtual_sp k.old) (register k.old.mote.cpu r.now)))) }
    ensures none { result ≡ false → k.new ≡ k.old }
{
    let sp = k.mote.sram.vsp();
    if !is_stack(sp) {
        return false;
    }
    k.mote.sram.set(sp, k.mote.cpu.byte(r));
    k.mote.sram.set_vsp(sp.wrapping_sub(1));
    k.mote.cpu.sp = KERNEL_STACK_TOP;
    true
}

/// LPM with a register, where the program may read each word.
#[inline(always)]
fn read_program(k: &mut Kernel, d: &Reg, increment: bool) -> bool
    ensures unshut { result ≡ true → k.old.part.shut ≡ false }
    ensures executed { result ≡ true → WentOn k.old (Lpm d.now increment) (wrapping_sum (descriptor_of k.old) 1) k.new }
    ensures none { result ≡ false → k.new ≡ k.old }
{
    if k.part.shut {
        return false;
    }
    let z = k.mote.cpu.pair(30);
    let byte = byte_in_image(&k.mote.flash, &k.layout, u32::from(z));
    keep_byte(k, d, byte);
    raise_z(&mut k.mote.cpu, increment, z);
    true
}

/// IN of SPL and SPH.
#[inline(always)]
fn read_stack_pointer(k: &mut Kernel, d: &Reg, a: &IoAddr) -> bool
    ensures executed { result ≡ true → WentOn k.old (InIo d.now a.now) (wrapping_sum (descriptor_of k.old) 1) k.new }
    ensures none { result ≡ false → k.new ≡ k.old }
{
    let sp = k.mote.sram.vsp();
    if a.get() == SPL {
        keep_byte(k, d, (sp % 256) as u8);
        return true;
    }
    if a.get() == SPH {
        keep_byte(k, d, (sp / 256) as u8);
        return true;
    }
    false
}

/// OUT of SPL and SPH.
#[inline(always)]
fn write_stack_pointer(k: &mut Kernel, a: &IoAddr, r: &Reg) -> bool
    ensures executed { result ≡ true → WentOn k.old (OutIo a.now r.now) (wrapping_sum (descriptor_of k.old) 1) k.new }
    ensures none { result ≡ false → k.new ≡ k.old }
{
    let sp = k.mote.sram.vsp();
    let v = u16::from(k.mote.cpu.byte(r));
    if a.get() == SPL {
        keep_stack_pointer(k, sp / 256 * 256 + v);
        return true;
    }
    if a.get() == SPH {
        keep_stack_pointer(k, v * 256 + sp % 256);
        return true;
    }
    false
}

/// A byte for a register, by an instruction that moves no stack pointer.
#[inline(always)]
fn keep_byte(k: &mut Kernel, d: &Reg, byte: u8)
    ensures after { k.new ≡ put_back k.old (with_register (core_of k.old 0) d.now byte) (memory_of k.old) }
{
    let sp = k.mote.sram.vsp();
    k.mote.cpu.set_byte(d, byte);
    k.mote.cpu.sp = KERNEL_STACK_TOP;
    k.mote.sram.set_vsp(sp);
}

/// The program's stack pointer, by an instruction that changes nothing else.
#[inline(always)]
fn keep_stack_pointer(k: &mut Kernel, sp: u16)
    ensures after { k.new ≡ put_back k.old (with_stack (core_of k.old 0) sp) (memory_of k.old) }
{
    k.mote.cpu.sp = KERNEL_STACK_TOP;
    k.mote.sram.set_vsp(sp);
}

/// Brings a byte at hand into a register. Tells whether it is at hand; else nothing is done.
#[inline(always)]
fn load_register(k: &mut Kernel, d: &Reg, a: u16) -> bool
    ensures loaded { result ≡ true → IsLoaded k.old d.now a k.new }
    ensures none { result ≡ false → k.new ≡ k.old }
{
    match load_at_hand(&k.mote.sram, a) {
        Some(byte) => {
            keep_byte(k, d, byte);
            true
        }
        None => false,
    }
}

/// Takes the byte in a register to a data address, where the one there is at hand. Tells whether it is; else nothing is done.
#[inline(always)]
fn store_register(k: &mut Kernel, a: u16, r: &Reg) -> bool
    ensures hit { result ≡ true → StoresAtHand k.old.mote.sram a (register k.old.mote.cpu r.now) }
    ensures after { result ≡ true → k.new ≡ put_back k.old (core_of k.old 0) (memory_of (with_sram k.old (stored_at_hand k.old.mote.sram a (register k.old.mote.cpu r.now)))) }
    ensures none { result ≡ false → k.new ≡ k.old }
{
    let sp = k.mote.sram.vsp();
    let v = k.mote.cpu.byte(r);
    if store_at_hand(&mut k.mote.sram, a, v) {
        k.mote.cpu.sp = KERNEL_STACK_TOP;
        k.mote.sram.set_vsp(sp);
        return true;
    }
    false
}

/// The return address above the program's stack pointer, popped, where both of its bytes are in the stack window; else nothing
/// is done.
#[tactic(auto, unfolding(mem_guard::specs::Guarded::pop_return, avr_exec::specs::StackRules::pop_return_from))]
#[inline(always)]
fn pop_in_window(k: &mut Kernel) -> Option<u16>
    ensures popped { IfSome result (λ pc. pop_return (memory_of k.old) (virtual_sp k.old) ≡ Went pc (memory_of k.old)) }
    ensures after { IfSome result (λ _. k.new ≡ rested (with_sram k.old (with_word k.old.mote.sram vsp_cell (wrapping_sum (virtual_sp k.old) 2)))) }
    ensures none { IfNone result (k.new ≡ k.old) }
{
    let sp = k.mote.sram.vsp();
    let high = sp.wrapping_add(1);
    let low = sp.wrapping_add(2);
    if !is_stack(high) {
        return None;
    }
    if !is_stack(low) {
        return None;
    }
    let to = u16::from(k.mote.sram.byte(high)) * 256 + u16::from(k.mote.sram.byte(low));
    k.mote.sram.set_vsp(low);
    k.mote.cpu.sp = KERNEL_STACK_TOP;
    Some(to)
}

/// A return address pushed at the program's stack pointer, where both of its bytes are in the stack window. Tells whether they
/// are; else nothing is done.
#[tactic(auto, unfolding(mem_guard::specs::Guarded::push_return, avr_exec::specs::StackRules::push_return_on))]
#[inline(always)]
fn push_in_window(k: &mut Kernel, behind: u16) -> bool
    ensures pushed { result ≡ true → push_return (memory_of k.old) (virtual_sp k.old) behind ≡ Went tt (memory_of (with_sram k.old (with_address k.old.mote.sram (virtual_sp k.old) behind))) }
    ensures after { result ≡ true → k.new ≡ rested (with_sram k.old (with_word (with_address k.old.mote.sram (virtual_sp k.old) behind) vsp_cell (wrapping_difference (virtual_sp k.old) 2))) }
    ensures none { result ≡ false → k.new ≡ k.old }
{
    let sp = k.mote.sram.vsp();
    let below = sp.wrapping_sub(1);
    if !is_stack(sp) {
        return false;
    }
    if !is_stack(below) {
        return false;
    }
    k.mote.sram.set(sp, (behind & 0xFF) as u8);
    k.mote.sram.set(below, (behind >> 8) as u8);
    k.mote.sram.set_vsp(sp.wrapping_sub(2));
    k.mote.cpu.sp = KERNEL_STACK_TOP;
    true
}
