//! Instructions by the kinds of their operands. Of other mnemonics such operands are a fault of form; one outside its
//! field, and registers that leave the instruction undefined, a fault of range.

ghost use Rattle.std.specs.Prelude.{◌≡◌, ◌<◌, SomeIff, true};
ghost use Rattle.avr_isa.specs.Instruction.{is_valid};
ghost use Rattle.avr_asm.specs.declared.mnemonic.Operation.TheVariants as operations;
ghost use Rattle.avr_asm.specs.declared.operand.Operand.TheVariants.{Register, Number, Pointer as ByPointer, Displaced, Name as Named};
ghost use Rattle.avr_asm.specs.declared.operand.Operands.TheVariants.{Zero, One, Two};
ghost use Rattle.avr_asm.specs.Statements.{flag_form, meaning_of, program_load, ready as ready_of};

use crate::fault::AsmFault;
use crate::mnemonic::{FlagState, Jump, Operation, ProgramAddress};
use crate::name::Name;
use crate::operand::Pointer;
use crate::statement::{Statement, Target};
use avr_isa::{
    Base, Bit, EvenReg, Form, HighReg, Instr, IoAddr, LowIo, MidReg, PairReg, Ptr, Reg, Six,
};

/// A number as a byte.
fn byte(n: u64) -> Option<u8>
    ensures value { SomeIff result (n < 256) n }
{
    if n < 256 { Some(n as u8) } else { None }
}

/// A number as an address of 16 bits.
pub(crate) fn address(n: u64) -> Option<u16>
    ensures value { SomeIff result (n < 65536) n }
{
    if n < 65536 { Some(n as u16) } else { None }
}

/// A number as a bit's.
fn bit(n: u64) -> Option<Bit>
    ensures value { SomeIff result (n < 8) n }
{
    if n < 8 { Bit::new(n as u8) } else { None }
}

/// A number of six bits.
fn six_bits(n: u64) -> Option<Six>
    ensures value { SomeIff result (n < 64) n }
{
    if n < 64 { Six::new(n as u8) } else { None }
}

/// A number as the field of IN and OUT.
fn io_address(n: u64) -> Option<IoAddr>
    ensures value { SomeIff result (n < 64) n }
{
    if n < 64 { IoAddr::new(n as u8) } else { None }
}

/// A number as the field of SBI and CBI.
fn low_io(n: u64) -> Option<LowIo>
    ensures value { SomeIff result (n < 32) n }
{
    if n < 32 { LowIo::new(n as u8) } else { None }
}

/// The instruction of a form whose operands are in their fields: none at the undefined pairs.
#[tactic(auto, unfolding(avr_isa::specs::Instruction::is_valid))]
pub(crate) fn defined(form: Form) -> Option<Instr>
    ensures value { SomeIff result (is_valid form ≡ true) form }
{
    Instr::new(form)
}

/// The instruction of a form as a statement.
fn ready(form: Form) -> Result<Statement, AsmFault>
    ensures value { result ≡ ready_of form }
{
    match defined(form) {
        Some(instr) => Ok(Statement::Ready(instr)),
        None => Err(AsmFault::Range),
    }
}

/// Without operands.
#[tactic(auto, unfolding(crate::specs::Statements::meaning_of, avr_isa::specs::Instruction::is_valid, avr_isa::specs::Instruction::fields_in_range))]
pub(crate) fn of_none(operation: Operation) -> Result<Statement, AsmFault>
    ensures value { result ≡ meaning_of operation Zero }
{
    let form = match operation {
        Operation::Nop => Form::Nop,
        Operation::Ret => Form::Ret,
        Operation::Reti => Form::Reti,
        Operation::Ijmp => Form::Ijmp,
        Operation::Icall => Form::Icall,
        Operation::Sleep => Form::Sleep,
        Operation::Break => Form::Break,
        Operation::Wdr => Form::Wdr,
        Operation::Spm => Form::Spm,
        Operation::OneFlag(state, s) => return flag(state, u64::from(s)),
        Operation::LoadProgram(ProgramAddress::Near) => Form::Lpm0,
        Operation::LoadProgram(ProgramAddress::Far) => Form::Elpm0,
        _ => return Err(AsmFault::Form),
    };
    ready(form)
}

/// BSET, or BCLR.
#[tactic(auto, unfolding(avr_isa::specs::Instruction::is_valid, avr_isa::specs::Instruction::fields_in_range))]
fn flag(state: FlagState, s: u64) -> Result<Statement, AsmFault>
    ensures value { result ≡ ready_of (flag_form state s) }
{
    let Some(s) = bit(s) else {
        return Err(AsmFault::Range);
    };
    ready(match state {
        FlagState::Set => Form::Bset(s),
        FlagState::Clear => Form::Bclr(s),
    })
}

/// Of a register.
#[tactic(auto, unfolding(crate::specs::Statements::meaning_of, avr_isa::specs::Instruction::is_valid, avr_isa::specs::Instruction::fields_in_range))]
pub(crate) fn of_register(operation: Operation, d: u8) -> Result<Statement, AsmFault>
    ensures value { result ≡ meaning_of operation (One (Register d)) }
{
    let form = match (operation, Reg::new(d)) {
        (Operation::One(op), Some(d)) => Form::One(op, d),
        (Operation::Push, Some(d)) => Form::Push(d),
        (Operation::Pop, Some(d)) => Form::Pop(d),
        (Operation::One(_) | Operation::Push | Operation::Pop, None) => return Err(AsmFault::Range),
        _ => return Err(AsmFault::Form),
    };
    ready(form)
}

/// Of two registers.
#[tactic(auto, unfolding(crate::specs::Statements::meaning_of, avr_isa::specs::Instruction::is_valid, avr_isa::specs::Instruction::fields_in_range))]
pub(crate) fn of_two_registers(operation: Operation, d: u8, r: u8) -> Result<Statement, AsmFault>
    ensures value { result ≡ meaning_of operation (Two (Register d) (Register r)) }
{
    let form = match operation {
        Operation::Movw => match (EvenReg::new(d), EvenReg::new(r)) {
            (Some(d), Some(r)) => Form::Movw(d, r),
            _ => return Err(AsmFault::Range),
        },
        Operation::Muls => match (HighReg::new(d), HighReg::new(r)) {
            (Some(d), Some(r)) => Form::Muls(d, r),
            _ => return Err(AsmFault::Range),
        },
        Operation::Cpse => match (Reg::new(d), Reg::new(r)) {
            (Some(d), Some(r)) => Form::Cpse(d, r),
            _ => return Err(AsmFault::Range),
        },
        Operation::Product(op) => match (MidReg::new(d), MidReg::new(r)) {
            (Some(d), Some(r)) => Form::Product(op, d, r),
            _ => return Err(AsmFault::Range),
        },
        Operation::Two(op) => match (Reg::new(d), Reg::new(r)) {
            (Some(d), Some(r)) => Form::Two(op, d, r),
            _ => return Err(AsmFault::Range),
        },
        _ => return Err(AsmFault::Form),
    };
    ready(form)
}

/// Of a register and a number: a constant, a data address, an I/O field or a bit.
#[tactic(auto, unfolding(crate::specs::Statements::meaning_of, avr_isa::specs::Instruction::is_valid, avr_isa::specs::Instruction::fields_in_range))]
pub(crate) fn of_register_and_number(
    operation: Operation,
    d: u8,
    n: u64,
) -> Result<Statement, AsmFault>
    ensures value { result ≡ meaning_of operation (Two (Register d) (Number n)) }
{
    let form = match operation {
        Operation::Imm(op) => match (HighReg::new(d), byte(n)) {
            (Some(d), Some(k)) => Form::Imm(op, d, k),
            _ => return Err(AsmFault::Range),
        },
        Operation::Word(op) => match (PairReg::new(d), six_bits(n)) {
            (Some(p), Some(k)) => Form::Word(op, p, k),
            _ => return Err(AsmFault::Range),
        },
        Operation::Lds => match (Reg::new(d), address(n)) {
            (Some(d), Some(a)) => Form::Lds(d, a),
            _ => return Err(AsmFault::Range),
        },
        Operation::In => match (Reg::new(d), io_address(n)) {
            (Some(d), Some(a)) => Form::InIo(d, a),
            _ => return Err(AsmFault::Range),
        },
        _ => match (operation, Reg::new(d), bit(n)) {
            (Operation::Bld, Some(r), Some(b)) => Form::Bld(r, b),
            (Operation::Bst, Some(r), Some(b)) => Form::Bst(r, b),
            (Operation::Sbrc, Some(r), Some(b)) => Form::Sbrc(r, b),
            (Operation::Sbrs, Some(r), Some(b)) => Form::Sbrs(r, b),
            (Operation::Bld | Operation::Bst | Operation::Sbrc | Operation::Sbrs, ..) => {
                return Err(AsmFault::Range);
            }
            _ => return Err(AsmFault::Form),
        },
    };
    ready(form)
}

/// Of a number and a register: a data address or an I/O field.
#[tactic(auto, unfolding(crate::specs::Statements::meaning_of, avr_isa::specs::Instruction::is_valid, avr_isa::specs::Instruction::fields_in_range))]
pub(crate) fn of_number_and_register(
    operation: Operation,
    a: u64,
    r: u8,
) -> Result<Statement, AsmFault>
    ensures value { result ≡ meaning_of operation (Two (Number a) (Register r)) }
{
    let form = match operation {
        Operation::Sts => match (address(a), Reg::new(r)) {
            (Some(a), Some(r)) => Form::Sts(a, r),
            _ => return Err(AsmFault::Range),
        },
        Operation::Out => match (io_address(a), Reg::new(r)) {
            (Some(a), Some(r)) => Form::OutIo(a, r),
            _ => return Err(AsmFault::Range),
        },
        _ => return Err(AsmFault::Form),
    };
    ready(form)
}

/// Of two numbers: an I/O field and a bit, or a flag's and a target.
#[tactic(auto, unfolding(crate::specs::Statements::meaning_of, avr_isa::specs::Instruction::is_valid, avr_isa::specs::Instruction::fields_in_range))]
pub(crate) fn of_two_numbers(operation: Operation, a: u64, b: u64) -> Result<Statement, AsmFault>
    ensures value { result ≡ meaning_of operation (Two (Number a) (Number b)) }
{
    let form = match (operation, low_io(a), bit(b)) {
        (Operation::Branch(state), ..) => return branch_to(state, a, b),
        (Operation::Cbi, Some(a), Some(b)) => Form::Cbi(a, b),
        (Operation::Sbi, Some(a), Some(b)) => Form::Sbi(a, b),
        (Operation::Sbic, Some(a), Some(b)) => Form::Sbic(a, b),
        (Operation::Sbis, Some(a), Some(b)) => Form::Sbis(a, b),
        (Operation::Cbi | Operation::Sbi | Operation::Sbic | Operation::Sbis, ..) => {
            return Err(AsmFault::Range);
        }
        _ => return Err(AsmFault::Form),
    };
    ready(form)
}

/// BRBS or BRBC to an address.
#[tactic(auto, unfolding(crate::specs::Statements::meaning_of))]
fn branch_to(state: FlagState, s: u64, a: u64) -> Result<Statement, AsmFault>
    ensures value { result ≡ meaning_of (operations.Branch state) (Two (Number s) (Number a)) }
{
    match address(a) {
        Some(a) if s < 8 => Ok(Statement::To(Jump::If(state, s as u8), Target::At(a))),
        _ => Err(AsmFault::Range),
    }
}

/// Of a number: a flag's, a target or a word.
#[tactic(auto, unfolding(crate::specs::Statements::meaning_of))]
pub(crate) fn of_number(operation: Operation, n: u64) -> Result<Statement, AsmFault>
    ensures value { result ≡ meaning_of operation (One (Number n)) }
{
    match (operation, address(n)) {
        (Operation::Flag(state), _) => flag(state, n),
        (Operation::Jump(jump), Some(a)) => Ok(Statement::To(jump, Target::At(a))),
        (Operation::Data, Some(word)) => Ok(Statement::Word(word)),
        (Operation::Jump(_) | Operation::Data, None) => Err(AsmFault::Range),
        _ => Err(AsmFault::Form),
    }
}

/// Of a name, which is a target.
#[tactic(auto, unfolding(crate::specs::Statements::meaning_of))]
pub(crate) fn of_name(operation: Operation, name: Name) -> Result<Statement, AsmFault>
    ensures value { result ≡ meaning_of operation (One (Named name)) }
{
    match operation {
        Operation::Jump(jump) => Ok(Statement::To(jump, Target::Label(name))),
        _ => Err(AsmFault::Form),
    }
}

/// Of a flag's number and a name, which is a target.
#[tactic(auto, unfolding(crate::specs::Statements::meaning_of))]
pub(crate) fn of_number_and_name(
    operation: Operation,
    s: u64,
    name: Name,
) -> Result<Statement, AsmFault>
    ensures value { result ≡ meaning_of operation (Two (Number s) (Named name)) }
{
    match operation {
        Operation::Branch(state) if s < 8 => Ok(Statement::To(
            Jump::If(state, s as u8),
            Target::Label(name),
        )),
        Operation::Branch(_) => Err(AsmFault::Range),
        _ => Err(AsmFault::Form),
    }
}

/// Of a register and a pointer.
#[tactic(auto, unfolding(crate::specs::Statements::meaning_of))]
pub(crate) fn of_register_and_pointer(
    operation: Operation,
    d: u8,
    pointer: Pointer,
) -> Result<Statement, AsmFault>
    ensures value { result ≡ meaning_of operation (Two (Register d) (ByPointer pointer)) }
{
    match operation {
        Operation::Ld => load(d, pointer),
        Operation::LoadProgram(from) => match pointer {
            Pointer::Alone(Base::Z) => load_program(from, d, false),
            Pointer::At(Ptr::ZInc) => load_program(from, d, true),
            _ => Err(AsmFault::Form),
        },
        _ => Err(AsmFault::Form),
    }
}

/// LD.
#[tactic(auto, unfolding(crate::specs::Statements::meaning_of, avr_isa::specs::Instruction::is_valid, avr_isa::specs::Instruction::fields_in_range))]
fn load(d: u8, pointer: Pointer) -> Result<Statement, AsmFault>
    ensures value { result ≡ meaning_of operations.Ld (Two (Register d) (ByPointer pointer)) }
{
    match pointer {
        Pointer::At(pointer) => match Reg::new(d) {
            Some(d) => ready(Form::LoadAt(d, pointer)),
            None => Err(AsmFault::Range),
        },
        Pointer::Alone(base) => of_register_and_displacement(Operation::Ldd, d, base, 0),
    }
}

/// LPM or ELPM with operands.
#[tactic(auto, unfolding(avr_isa::specs::Instruction::is_valid, avr_isa::specs::Instruction::fields_in_range))]
fn load_program(from: ProgramAddress, d: u8, increment: bool) -> Result<Statement, AsmFault>
    ensures value { result ≡ ready_of (program_load from d increment) }
{
    let Some(d) = Reg::new(d) else {
        return Err(AsmFault::Range);
    };
    ready(match from {
        ProgramAddress::Near => Form::Lpm(d, increment),
        ProgramAddress::Far => Form::Elpm(d, increment),
    })
}

/// Of a pointer and a register.
#[tactic(auto, unfolding(crate::specs::Statements::meaning_of, avr_isa::specs::Instruction::is_valid, avr_isa::specs::Instruction::fields_in_range))]
pub(crate) fn of_pointer_and_register(
    operation: Operation,
    pointer: Pointer,
    r: u8,
) -> Result<Statement, AsmFault>
    ensures value { result ≡ meaning_of operation (Two (ByPointer pointer) (Register r)) }
{
    match (operation, pointer) {
        (Operation::St, Pointer::At(pointer)) => match Reg::new(r) {
            Some(r) => ready(Form::StoreAt(pointer, r)),
            None => Err(AsmFault::Range),
        },
        (Operation::St, Pointer::Alone(base)) => {
            of_displacement_and_register(Operation::Std, base, 0, r)
        }
        _ => Err(AsmFault::Form),
    }
}

/// Of a register and a displacement.
#[tactic(auto, unfolding(crate::specs::Statements::meaning_of, avr_isa::specs::Instruction::is_valid, avr_isa::specs::Instruction::fields_in_range))]
pub(crate) fn of_register_and_displacement(
    operation: Operation,
    d: u8,
    base: Base,
    q: u64,
) -> Result<Statement, AsmFault>
    ensures value { result ≡ meaning_of operation (Two (Register d) (Displaced base q)) }
{
    match (operation, Reg::new(d), six_bits(q)) {
        (Operation::Ldd, Some(d), Some(q)) => ready(Form::LoadOff(d, base, q)),
        (Operation::Ldd, _, _) => Err(AsmFault::Range),
        _ => Err(AsmFault::Form),
    }
}

/// Of a displacement and a register.
#[tactic(auto, unfolding(crate::specs::Statements::meaning_of, avr_isa::specs::Instruction::is_valid, avr_isa::specs::Instruction::fields_in_range))]
pub(crate) fn of_displacement_and_register(
    operation: Operation,
    base: Base,
    q: u64,
    r: u8,
) -> Result<Statement, AsmFault>
    ensures value { result ≡ meaning_of operation (Two (Displaced base q) (Register r)) }
{
    match (operation, six_bits(q), Reg::new(r)) {
        (Operation::Std, Some(q), Some(r)) => ready(Form::StoreOff(base, q, r)),
        (Operation::Std, _, _) => Err(AsmFault::Range),
        _ => Err(AsmFault::Form),
    }
}
