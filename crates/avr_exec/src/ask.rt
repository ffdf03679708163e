//! What an instruction asks of its bus.

ghost use Rattle.std.specs.Prelude.{◌≡◌, ◌≤◌};
ghost use Rattle.avr_exec.specs.Asks.{ask_of, IsFine, load_of, store_of, pointed as pointed_of, target as target_of, displaced as displaced_of, base_register};
ghost use Rattle.avr_isa.specs.UndefinedPairs.{low_register as low_register_of};

use crate::bits::bit_weight;
use crate::cpu::{Cpu, is_own_address};
use avr_isa::{Base, Form, Instr, Ptr, Six};

/// The one thing that an instruction asks of its bus.
#[derive(Clone, Copy)]
pub enum Ask {
    /// Nothing: the instruction needs the core's registers alone.
    Nothing,
    /// The byte at a data address.
    Load(u16),
    /// A byte for a data address.
    Store(u16, u8),
    /// A read and a write of an I/O register: the data address, the bits to clear and those to set.
    Modify(u16, u8, u8),
    /// A byte to push, at this stack pointer.
    PushByte(u16, u8),
    /// A byte to pop, at this stack pointer.
    PopByte(u16),
    /// A return address to push, at this stack pointer.
    PushReturn(u16, u16),
    /// A return address to pop, at this stack pointer.
    PopReturn(u16),
    /// The byte of the program at Z.
    Program(u16),
    /// The byte of the program at RAMPZ:Z.
    ExtendedProgram(u16),
    /// The byte of the program at RAMPZ:Z, and RAMPZ as it is when RAMPZ:Z is raised by one.
    ExtendedProgramRaising(u16),
}

/// The low register of a pointer's pair.
pub fn low_register(pointer: &Ptr) -> u8
    ensures value { result ≡ low_register_of pointer.now }
    ensures range { result ≤ 30 }
{
    match pointer {
        Ptr::X | Ptr::XInc | Ptr::XDec => 26,
        Ptr::YInc | Ptr::YDec => 28,
        Ptr::ZInc | Ptr::ZDec => 30,
    }
}

/// The data address of a pointer that has this value.
#[tactic(auto, unfolding(crate::specs::Asks::pointed))]
pub(crate) fn pointed(pointer: &Ptr, value: u16) -> u16
    ensures { result ≡ pointed_of pointer.now value }
{
    match pointer {
        Ptr::XDec | Ptr::YDec | Ptr::ZDec => value.wrapping_sub(1),
        Ptr::X | Ptr::XInc | Ptr::YInc | Ptr::ZInc => value,
    }
}

/// The low register of Y or Z.
pub(crate) fn base_low_register(base: &Base) -> u8
    ensures value { result ≡ base_register base.now }
    ensures range { result ≤ 30 }
{
    match base {
        Base::Y => 28,
        Base::Z => 30,
    }
}

/// The data address at a displacement from Y or Z.
pub fn displaced(cpu: &Cpu, base: &Base, displacement: &Six) -> u16
    ensures { result ≡ displaced_of cpu.now base.now displacement.now }
{
    cpu.pair(base_low_register(base))
        .wrapping_add(u16::from(displacement.get()))
}

/// The data address of a pointer.
pub fn target(cpu: &Cpu, pointer: &Ptr) -> u16
    ensures { result ≡ target_of cpu.now pointer.now }
{
    pointed(pointer, cpu.pair(low_register(pointer)))
}

/// A byte wanted from a data address.
#[tactic(auto, unfolding(crate::specs::Asks::load_of, crate::specs::Asks::IsFine))]
fn load_from(address: u16) -> Ask
    ensures value { result ≡ load_of address }
    ensures fine { IsFine result }
{
    if is_own_address(address) {
        Ask::Nothing
    } else {
        Ask::Load(address)
    }
}

/// A byte for a data address.
#[tactic(auto, unfolding(crate::specs::Asks::store_of, crate::specs::Asks::IsFine))]
fn store_to(address: u16, value: u8) -> Ask
    ensures value { result ≡ store_of address value }
    ensures fine { IsFine result }
{
    if is_own_address(address) {
        Ask::Nothing
    } else {
        Ask::Store(address, value)
    }
}

/// What an instruction asks of its bus, with these registers.
#[tactic(auto, unfolding(crate::specs::Asks::ask_of, crate::specs::Asks::IsFine))]
#[inline(always)]
pub fn asks(i: &Instr, cpu: &Cpu) -> Ask
    ensures value { result ≡ ask_of i.now cpu.now }
    ensures fine { IsFine result }
{
    let (sp, pc) = (cpu.sp, cpu.pc);
    match i.form() {
        Form::LoadOff(_, base, q) => load_from(displaced(cpu, base, q)),
        Form::StoreOff(base, q, r) => store_to(displaced(cpu, base, q), cpu.byte(r)),
        Form::LoadAt(_, pointer) => load_from(target(cpu, pointer)),
        Form::StoreAt(pointer, r) => store_to(target(cpu, pointer), cpu.byte(r)),
        Form::Lds(_, a) => load_from(*a),
        Form::Sts(a, r) => store_to(*a, cpu.byte(r)),
        Form::Pop(_) => Ask::PopByte(sp),
        Form::Push(r) => Ask::PushByte(sp, cpu.byte(r)),
        Form::Lpm0 | Form::Lpm(_, _) => Ask::Program(cpu.pair(30)),
        Form::Elpm0 | Form::Elpm(_, false) => Ask::ExtendedProgram(cpu.pair(30)),
        Form::Elpm(_, true) => Ask::ExtendedProgramRaising(cpu.pair(30)),
        Form::InIo(_, a) => load_from(a.address()),
        Form::OutIo(a, r) => store_to(a.address(), cpu.byte(r)),
        Form::Cbi(a, b) => Ask::Modify(a.address(), bit_weight(b.get()), 0),
        Form::Sbi(a, b) => Ask::Modify(a.address(), 0, bit_weight(b.get())),
        Form::Sbic(a, _) | Form::Sbis(a, _) => load_from(a.address()),
        Form::Rcall(_) | Form::Icall => Ask::PushReturn(sp, pc.wrapping_add(1)),
        Form::Call(_) => Ask::PushReturn(sp, pc.wrapping_add(2)),
        Form::Ret | Form::Reti => Ask::PopReturn(sp),
        _ => Ask::Nothing,
    }
}
