//! Jumps to addresses and to labels.

ghost use Rattle.std.specs.Prelude.{◌≡◌, List, pos, negsuc, ◌≤ℤ◌, SomeIff};
ghost use Rattle.avr_asm.specs.Addresses.{Label};
ghost use Rattle.avr_asm.specs.Labels.{HasLabels};
ghost use Rattle.avr_asm.specs.Targets.{distance as distance_of, in_reach as in_reach_of, jump_of, jump_to as jump_to_of, jump_to_label as jump_to_label_of};

use crate::fault::AsmFault;
use crate::instruction::{address, defined};
use crate::labels::Labels;
use crate::mnemonic::{FlagState, Jump};
use crate::statement::Target;
use avr_isa::{Bit, Form, Instr, Rel7, Rel12};

/// The jump at `pc` to a target: a label that there isn't is a fault, and a target that a relative jump doesn't reach.
pub(crate) fn jump_in(
    labels: &Labels,
    pc: u32,
    jump: Jump,
    target: &Target,
) -> Result<Instr, AsmFault>
    ensures value { (list : List Label) → HasLabels labels.now list → result ≡ jump_of list pc jump target.now }
{
    match target {
        Target::At(address) => jump_to(jump, pc, u32::from(*address)),
        Target::Label(name) => jump_to_label(jump, pc, labels.find(name)),
    }
}

fn jump_to_label(jump: Jump, pc: u32, address: Option<u32>) -> Result<Instr, AsmFault>
    ensures value { result ≡ jump_to_label_of jump pc address }
{
    match address {
        None => Err(AsmFault::Label),
        Some(address) => jump_to(jump, pc, address),
    }
}

/// A jump whose field holds its distance.
fn in_reach(jump: Form) -> Result<Instr, AsmFault>
    ensures value { result ≡ in_reach_of jump }
{
    match defined(jump) {
        Some(jump) => Ok(jump),
        None => Err(AsmFault::Reach),
    }
}

/// The jump at `pc` to an address.
#[tactic(auto, unfolding(avr_isa::specs::Instruction::is_valid, avr_isa::specs::Instruction::fields_in_range))]
fn jump_to(jump: Jump, pc: u32, target: u32) -> Result<Instr, AsmFault>
    ensures value { result ≡ in_reach_of (jump_to_of jump pc target) }
{
    let form = match jump {
        Jump::If(state, s) => {
            let (Some(s), Some(k)) = (Bit::new(s), branch_distance(pc, target)) else {
                return Err(AsmFault::Reach);
            };
            match state {
                FlagState::Set => Form::Brbs(s, k),
                FlagState::Clear => Form::Brbc(s, k),
            }
        }
        Jump::Rjmp => match jump_distance(pc, target) {
            Some(k) => Form::Rjmp(k),
            None => return Err(AsmFault::Reach),
        },
        Jump::Rcall => match jump_distance(pc, target) {
            Some(k) => Form::Rcall(k),
            None => return Err(AsmFault::Reach),
        },
        Jump::Jmp => match address(u64::from(target)) {
            Some(a) => Form::Jmp(a),
            None => return Err(AsmFault::Reach),
        },
        Jump::Call => match address(u64::from(target)) {
            Some(a) => Form::Call(a),
            None => return Err(AsmFault::Reach),
        },
    };
    in_reach(form)
}

/// The distance as the field of a branch.
fn branch_distance(pc: u32, target: u32) -> Option<Rel7>
    ensures value { SomeIff result ((negsuc 63 ≤ℤ distance_of pc target) × (distance_of pc target ≤ℤ pos 63)) (distance_of pc target) }
{
    match distance(pc, target) {
        Some(k) => Rel7::new(k),
        None => None,
    }
}

/// The distance as the field of RJMP and RCALL.
fn jump_distance(pc: u32, target: u32) -> Option<Rel12>
    ensures value { SomeIff result ((negsuc 2047 ≤ℤ distance_of pc target) × (distance_of pc target ≤ℤ pos 2047)) (distance_of pc target) }
{
    match distance(pc, target) {
        Some(k) => Rel12::new(k),
        None => None,
    }
}

/// From the word behind the one at `pc` to the target, where that has 16 bits.
fn distance(pc: u32, target: u32) -> Option<i16>
    ensures value { SomeIff result ((negsuc 32767 ≤ℤ distance_of pc target) × (distance_of pc target ≤ℤ pos 32767)) (distance_of pc target) }
{
    i16::try_from(i64::from(target) - (i64::from(pc) + 1)).ok()
}
