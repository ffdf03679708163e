//! The mote and its step.

ghost use Rattle.std.specs.Prelude.{◌≡◌, ◌<◌, ◌≤◌, ◌^◌, true};
ghost use Rattle.avr_exec.specs.Asks.{ask_of};
ghost use Rattle.avr_exec.specs.Execution.{exec_of, is_executed};
ghost use Rattle.avr_exec.specs.Spaces.{Went};
ghost use Rattle.mote_core.specs.Physical.{physical_calls};
ghost use Rattle.mote_core.specs.Conditions.{is_mapped};
ghost use Rattle.mote_core.specs.Shown.{line_shown};

use crate::space::PhysicalSpace;
use avr_exec::{Cpu, exec_at};
use avr_isa::Instr;
use base::NoMemory;
use flash_model::Flash;
use input_script::Script;
use mote_devices::{Devices, Line};
use sram_layout::{KERNEL_STACK_TOP, Sram};
use std::alloc::Global;
use swap_store::Swap;

/// What a plain step shows outside.
#[derive(Clone, Copy)]
pub enum Plain {
    /// Nothing.
    Went,
    /// It wrote to an output of a device.
    Wrote(Line),
}

/// The physical mote.
#[derive(Drop)]
pub struct Mote {
    /// The core's registers. The stack pointer is the physical one.
    pub cpu: Cpu,
    pub sram: Sram,
    pub flash: Flash,
    pub devices: Devices,
    /// The heap pages that are in no frame.
    pub swap: Swap,
}

impl Mote {
    ghost use Rattle.std.specs.Prelude.{◌≡◌, ◌<◌, ◌≤◌, ◌^◌, true, length, IfOk};
    ghost use Rattle.flash_words.specs.Memory.{IsWhole};
    ghost use Rattle.flash_words.specs.Layouts.{most_image_words};
    ghost use Rattle.swap_store.specs.Slots.{most_slots};
    ghost use Rattle.mote_core.specs.Step.{IsAtReset, cpu_at_reset, form_at, IsPlainStep};
    ghost use Rattle.mote_core.specs.FastPath.{IsStepInto};
    ghost use Rattle.mote_devices.specs.State.{at_reset};
    ghost use Rattle.sram_layout.specs.Boot.{at_boot};
    ghost use Rattle.mote_core.specs.Conditions.{can_step};

    /// A mote at reset, with the image in flash, the kernel's memory as at boot, and this many swap slots, at
    /// most 251. The operations of flash that the script lists are to fail. The stack pointer is at the top of
    /// the kernel's own stack.
    pub fn new(alloc: Global, image: &[u16], script: Script, slots: u8) -> Result<Mote, NoMemory>
        requires image { length image.now ≤ most_image_words }
        requires slots { slots ≤ most_slots }
        ensures reset { IfOk result (IsAtReset image.now script slots) }
        ensures whole { IfOk result (λ mote. IsWhole mote.flash) }
    {
        let swap = Swap::new(alloc, slots)?;
        let flash = Flash::new(alloc, image, script.failing())?;
        Ok(Mote::over(flash, script, swap))
    }

    /// A mote at reset over this flash and these swap slots, with the kernel's memory as at boot. Of the script the
    /// events alone are taken. The stack pointer is at the top of the kernel's own stack.
    #[tactic(auto, unfolding(flash_words::specs::Pages::many))]
    pub fn over(flash: Flash, script: Script, swap: Swap) -> Mote
        ensures reset { result ≡ record { cpu = cpu_at_reset; sram = at_boot; flash = flash; devices = at_reset script.events; swap = swap } }
    {
        Mote {
            cpu: Cpu {
                r: [0; 32],
                sreg: 0,
                sp: KERNEL_STACK_TOP,
                pc: 0,
            },
            sram: Sram::new(),
            flash,
            devices: Devices::new(script),
            swap,
        }
    }

    /// Executes the instruction of flash at the pc. This is the plain form: the program calls [`Mote::plain_step_into`].
    pub fn plain_step(&mut self) -> Plain
        requires step { can_step (form_at self.old) self.old.cpu ≡ true }
        requires room { self.old.devices.polls < 2 ^ 63 }
        ensures step { IsPlainStep self.old result self.new }
        ensures whole { IsWhole self.new.flash }
    {
        let pc = self.cpu.pc;
        self.plain_step_at(pc).0
    }

    /// Makes the step of [`Mote::plain_step`] from a pc that the caller has at hand, and tells the new one too: who makes one
    /// step behind the other waits for no memory to know it.
    #[inline(always)]
    pub fn plain_step_at(&mut self, pc: u16) -> (Plain, u16)
        requires at { pc ≡ self.old.cpu.pc }
        requires step { can_step (form_at self.old) self.old.cpu ≡ true }
        requires room { self.old.devices.polls < 2 ^ 63 }
        ensures step { IsPlainStep self.old result.0 self.new }
        ensures pc { result.1 ≡ self.new.cpu.pc }
        ensures whole { IsWhole self.new.flash }
    {
        let decoded = self.flash.predecode(pc);
        execute(
            &decoded.instr,
            &mut self.cpu,
            &mut self.sram,
            &mut self.devices,
            &self.flash,
            pc,
            decoded.next_size,
        )
    }

    /// Makes the step of [`Mote::plain_step_at`], but tells the new pc alone: the line that the step shows, if any, goes into
    /// `line`, which else stays. A loop of steps makes one so where [`fast_move`](crate::fast_move) doesn't know the
    /// micro-operation, which is known there from then on.
    #[inline(never)]
    pub fn plain_step_into(&mut self, pc: u16, line: &mut Option<Line>) -> u16
        requires at { pc ≡ self.old.cpu.pc }
        requires step { can_step (form_at self.old) self.old.cpu ≡ true }
        requires room { self.old.devices.polls < 2 ^ 63 }
        ensures step { IsStepInto self.old line.old self.new line.new }
        ensures pc { result ≡ self.new.cpu.pc }
    {
        let (shown, next) = self.plain_step_at(pc);
        if let Plain::Wrote(written) = shown {
            *line = Some(written);
        }
        next
    }
}

/// Executes an instruction that touches no other address than the physical space has. Tells what it shows, and the new pc.
#[inline(always)]
fn execute(
    instr: &Instr,
    cpu: &mut Cpu,
    sram: &mut Sram,
    devices: &mut Devices,
    flash: &Flash,
    pc: u16,
    next_size: u16,
) -> (Plain, u16)
    requires executed { is_executed instr.now ≡ true }
    requires at { pc ≡ cpu.old.pc }
    requires mapped { is_mapped (ask_of instr.now cpu.old) ≡ true }
    requires next { (1 ≤ next_size) × (next_size ≤ 2) }
    requires room { devices.old.polls < 2 ^ 63 }
    ensures outcome { exec_of physical_calls instr.now cpu.old (record { sram = sram.old; devices = devices.old; words = flash.now.words; line = None }) next_size
        ≡ Went cpu.new (record { sram = sram.new; devices = devices.new; words = flash.now.words; line = line_shown result.0 }) }
    ensures pc { result.1 ≡ cpu.new.pc }
{
    let mut space = PhysicalSpace {
        sram,
        devices,
        flash,
        line: None,
    };
    match exec_at(instr, cpu, &mut space, pc, next_size) {
        Ok(next) => match space.line {
            Some(line) => (Plain::Wrote(line), next),
            None => (Plain::Went, next),
        },
        Err(_) => unreachable!(),
    }
}
