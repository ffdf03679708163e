//! What a step reads and writes by address, as it is known in front of the step.
ghost use Rattle.std.specs.Prelude.{◌≡◌, ◌<◌, ◌^◌};
ghost use Rattle.avr_decode.specs.Program.{instruction_at};
ghost use Rattle.flash_words.specs.Layouts.{image_of};
ghost use Rattle.kernel_entry.specs.Parts.{core_of};
ghost use Rattle.program_steps.specs.Interrupts.{is_taken_now};
ghost use Rattle.program_steps.specs.Ready.{IsGoing};
ghost use Rattle.program_steps.specs.Wholes.{whole};
ghost use Rattle.tk_watch.specs.AccessesText.{access_of as access_of_form, next_by};

use crate::reading::core;
use avr_decode::decode;
use avr_exec::{Cpu, displaced, target};
use avr_isa::{Form, Instr, Reg};
use flash_model::{Flash, Layout, word_in_image};
use kernel_entry::Kernel;
use program_steps::{Progress, must_take};

/// What a step reads and writes by address.
#[derive(Clone, Copy)]
pub(crate) enum Access {
    /// Nothing.
    Nothing,
    /// A byte is loaded to a register.
    Load(u16, Reg),
    /// A byte is stored.
    Store(u16, u8),
    /// A bit of this weight is tested, and the next instruction is skipped where it is set, or where it is clear.
    SkipIfSet(u16, u8),
    SkipIfClear(u16, u8),
    /// A bit of this weight is set, or cleared.
    Set(u16, u8),
    Clear(u16, u8),
    /// A return address is pushed at this stack pointer, by a call or by an interrupt.
    Call(u16, u16),
    Interrupt(u16, u16),
    /// A return address is popped at this stack pointer.
    Return(u16),
}

/// What the next step reads and writes by address.
pub(crate) fn next_access(k: &Kernel, p: &Progress) -> Access
    requires ready { IsGoing (whole k.now p.now) }
    ensures value { result ≡ next_by (is_taken_now (whole k.now p.now)) (image_of k.now.layout k.now.mote.flash.words) (core_of k.now p.now.at) }
{
    let cpu = core(k, p.at);
    if must_take(k, p) {
        return Access::Interrupt(cpu.sp, p.at);
    }
    match instruction(&k.mote.flash, &k.layout, p.at) {
        Some(instr) => access_of(&instr, &cpu),
        None => Access::Nothing,
    }
}

/// The instruction that the image has at an address, where there is one. It is decoded anew, since flash may have decoded the
/// image's last word with one behind the image.
fn instruction(flash: &Flash, layout: &Layout, at: u16) -> Option<Instr>
    ensures value { result ≡ instruction_at (image_of layout.now flash.now.words) at }
{
    let first = word_in_image(flash, layout, u32::from(at));
    let second = word_in_image(flash, layout, u32::from(at.wrapping_add(1)));
    decode(first, second)
}

/// What an instruction reads and writes by address.
#[tactic(auto, unfolding(crate::specs::AccessesText::access_of))]
fn access_of(i: &Instr, cpu: &Cpu) -> Access
    ensures value { result ≡ access_of_form i.now cpu.now }
{
    let (sp, pc) = (cpu.sp, cpu.pc);
    match i.form() {
        Form::LoadOff(d, base, q) => Access::Load(displaced(cpu, base, q), *d),
        Form::LoadAt(d, pointer) => Access::Load(target(cpu, pointer), *d),
        Form::Lds(d, a) => Access::Load(*a, *d),
        Form::InIo(d, a) => Access::Load(a.address(), *d),
        Form::Pop(d) => Access::Load(sp.wrapping_add(1), *d),
        Form::StoreOff(base, q, r) => Access::Store(displaced(cpu, base, q), cpu.byte(r)),
        Form::StoreAt(pointer, r) => Access::Store(target(cpu, pointer), cpu.byte(r)),
        Form::Sts(a, r) => Access::Store(*a, cpu.byte(r)),
        Form::OutIo(a, r) => Access::Store(a.address(), cpu.byte(r)),
        Form::Push(r) => Access::Store(sp, cpu.byte(r)),
        Form::Sbis(a, b) => Access::SkipIfSet(a.address(), weight(b.get())),
        Form::Sbic(a, b) => Access::SkipIfClear(a.address(), weight(b.get())),
        Form::Sbi(a, b) => Access::Set(a.address(), weight(b.get())),
        Form::Cbi(a, b) => Access::Clear(a.address(), weight(b.get())),
        Form::Rcall(_) | Form::Icall => Access::Call(sp, pc.wrapping_add(1)),
        Form::Call(_) => Access::Call(sp, pc.wrapping_add(2)),
        Form::Ret | Form::Reti => Access::Return(sp),
        _ => Access::Nothing,
    }
}

/// The weight of a bit.
fn weight(bit: u8) -> u8
    requires { bit < 8 }
    ensures { result ≡ 2 ^ bit }
{
    1 << bit
}
