//! What a statement means.

ghost use Rattle.std.specs.Prelude.{◌≡◌};
ghost use Rattle.avr_asm.specs.declared.operand.Operand.TheVariants.{Register, Number};
ghost use Rattle.avr_asm.specs.declared.operand.Operands.TheVariants.{Two};
ghost use Rattle.avr_asm.specs.Statements.{meaning_of};

use crate::fault::AsmFault;
use crate::instruction::{
    of_displacement_and_register, of_name, of_none, of_number, of_number_and_name,
    of_number_and_register, of_pointer_and_register, of_register, of_register_and_displacement,
    of_register_and_number, of_register_and_pointer, of_two_numbers, of_two_registers,
};
use crate::mnemonic::{Jump, Operation};
use crate::name::Name;
use crate::operand::{Operand, Operands};
use avr_isa::Instr;

/// Where a jump leads.
#[derive(Drop)]
pub(crate) enum Target {
    At(u16),
    Label(Name),
}

/// What a statement means.
#[derive(Drop)]
pub(crate) enum Statement {
    /// An instruction that is known as it stands.
    Ready(Instr),
    /// A jump, whose target may be known later.
    To(Jump, Target),
    /// A word.
    Word(u16),
}

/// What a mnemonic and its operands mean. Operands of other kinds are a fault of form; one outside its field, or an
/// undefined pair, is a fault of range.
#[tactic(auto, unfolding(crate::specs::Statements::meaning_of))]
pub(crate) fn meaning_in(operation: Operation, operands: Operands) -> Result<Statement, AsmFault>
    ensures value { result ≡ meaning_of operation operands }
{
    match operands {
        Operands::Zero => of_none(operation),
        Operands::One(Operand::Register(d)) => of_register(operation, d),
        Operands::One(Operand::Number(n)) => of_number(operation, n),
        Operands::One(Operand::Name(name)) => of_name(operation, name),
        Operands::Two(Operand::Register(d), second) => behind_register(operation, d, second),
        Operands::Two(Operand::Number(a), second) => behind_number(operation, a, second),
        Operands::Two(Operand::Pointer(pointer), Operand::Register(r)) => {
            of_pointer_and_register(operation, pointer, r)
        }
        Operands::Two(Operand::Displaced(base, q), Operand::Register(r)) => {
            of_displacement_and_register(operation, base, q, r)
        }
        _ => Err(AsmFault::Form),
    }
}

/// A register, and another operand behind it.
#[tactic(auto, unfolding(crate::specs::Statements::meaning_of))]
fn behind_register(operation: Operation, d: u8, second: Operand) -> Result<Statement, AsmFault>
    ensures value { result ≡ meaning_of operation (Two (Register d) second) }
{
    match second {
        Operand::Register(r) => of_two_registers(operation, d, r),
        Operand::Number(n) => of_register_and_number(operation, d, n),
        Operand::Pointer(pointer) => of_register_and_pointer(operation, d, pointer),
        Operand::Displaced(base, q) => of_register_and_displacement(operation, d, base, q),
        Operand::Name(_) => Err(AsmFault::Form),
    }
}

/// A number, and another operand behind it.
#[tactic(auto, unfolding(crate::specs::Statements::meaning_of))]
fn behind_number(operation: Operation, n: u64, second: Operand) -> Result<Statement, AsmFault>
    ensures value { result ≡ meaning_of operation (Two (Number n) second) }
{
    match second {
        Operand::Register(r) => of_number_and_register(operation, n, r),
        Operand::Number(b) => of_two_numbers(operation, n, b),
        Operand::Name(name) => of_number_and_name(operation, n, name),
        _ => Err(AsmFault::Form),
    }
}
