//! Which form an instruction takes.
ghost use Rattle.std.specs.Prelude.{◌≡◌, if◌then◌else◌};
ghost use Rattle.std.specs.Option.{option_map};
ghost use Rattle.nat_template.specs.declared.shapes.TemplateShape.TheVariants as variants;
ghost use Rattle.nat_template.specs.Shapes.{can_modify as can_modify_test, if_allowed as if_allowed_of, is_stack_pointer as is_stack_pointer_test, jump_shape as jump_shape_of, shape_of, shape_of_form};
ghost use Rattle.avr_isa.specs.IoTable.{can_read as can_read_test, can_write as can_write_test, io_address};

use avr_isa::{Form, Instr, IoAddr, io_access, relative};

/// How an instruction is rewritten.
#[derive(Clone, Copy, PartialEq, Eq)]
pub enum TemplateShape {
    /// It stands in the page as it is.
    Native,
    /// It reaches data memory, the stack, the stack pointer or the program's bytes: a call of the kernel,
    /// or an inline template.
    Mem,
    /// A jump to another address: a stub.
    Jump,
    /// A conditional branch, over a jump over a stub.
    Branch,
    /// A skip, over a jump over a stub.
    Skip,
    /// The kernel pushes the return address, and a stub follows.
    Call,
    /// A return: a call of the kernel.
    Ret,
    /// A jump or a call through Z: a call of the kernel.
    Ind,
    /// An RJMP or JMP to its own address: a call of the kernel.
    SelfJump,
    /// No instruction of the profile, or one that may not be executed: a call of the kernel.
    Fault,
}

/// The shape of the instruction at the pc, if there is one.
#[inline(always)]
pub fn shape(pc: u16, instr: Option<&Instr>) -> TemplateShape
    ensures shape { result ≡ shape_of pc (option_map (λ borrowed. borrowed.now) instr.entry) }
{
    match instr {
        Some(instr) => shape_of_instruction(pc, instr.form()),
        None => TemplateShape::Fault,
    }
}

#[inline(always)]
#[tactic(auto, unfolding(crate::specs::Shapes::shape_of_form))]
fn shape_of_instruction(pc: u16, form: &Form) -> TemplateShape
    ensures shape { result ≡ shape_of_form pc form.now }
{
    match *form {
        Form::LoadOff(..)
        | Form::StoreOff(..)
        | Form::LoadAt(..)
        | Form::StoreAt(..)
        | Form::Lds(..)
        | Form::Sts(..)
        | Form::Pop(_)
        | Form::Push(_)
        | Form::Lpm0
        | Form::Elpm0
        | Form::Lpm(..)
        | Form::Elpm(..) => TemplateShape::Mem,
        Form::InIo(_, a) => input_shape(&a),
        Form::OutIo(a, _) => output_shape(&a),
        Form::Cbi(a, _) | Form::Sbi(a, _) => if_allowed(
            can_modify(a.address()),
            TemplateShape::Native,
        ),
        Form::Sbic(a, _) | Form::Sbis(a, _) => if_allowed(
            io_access(a.address()).read,
            TemplateShape::Skip,
        ),
        Form::Cpse(..) | Form::Sbrc(..) | Form::Sbrs(..) => TemplateShape::Skip,
        Form::Brbs(..) | Form::Brbc(..) => TemplateShape::Branch,
        Form::Rjmp(k) => jump_shape(pc, relative(pc, k.get())),
        Form::Jmp(a) => jump_shape(pc, a),
        Form::Rcall(_) | Form::Call(_) => TemplateShape::Call,
        Form::Ret | Form::Reti => TemplateShape::Ret,
        Form::Ijmp | Form::Icall => TemplateShape::Ind,
        Form::Sleep | Form::Spm => TemplateShape::Fault,
        _ => TemplateShape::Native,
    }
}

fn if_allowed(allowed: bool, own: TemplateShape) -> TemplateShape
    ensures shape { result ≡ if_allowed_of allowed own }
{
    if allowed { own } else { TemplateShape::Fault }
}

fn jump_shape(pc: u16, target: u16) -> TemplateShape
    ensures shape { result ≡ jump_shape_of pc target }
{
    if target == pc {
        TemplateShape::SelfJump
    } else {
        TemplateShape::Jump
    }
}

/// IN: the stack pointer is the program's own, which the kernel keeps.
fn input_shape(field: &IoAddr) -> TemplateShape
    ensures shape { result ≡ if is_stack_pointer_test field.now then variants.Mem else if_allowed_of (can_read_test (io_address field.now)) variants.Native }
{
    if is_stack_pointer(field.get()) {
        TemplateShape::Mem
    } else {
        if_allowed(io_access(field.address()).read, TemplateShape::Native)
    }
}

/// OUT, likewise.
fn output_shape(field: &IoAddr) -> TemplateShape
    ensures shape { result ≡ if is_stack_pointer_test field.now then variants.Mem else if_allowed_of (can_write_test (io_address field.now)) variants.Native }
{
    if is_stack_pointer(field.get()) {
        TemplateShape::Mem
    } else {
        if_allowed(io_access(field.address()).write, TemplateShape::Native)
    }
}

/// Whether the field A of IN or OUT names SPL or SPH.
fn is_stack_pointer(field: u8) -> bool
    ensures value { result ≡ is_stack_pointer_test field }
{
    field == 0x3D || field == 0x3E
}

/// Whether a program may read and write the register at this data address in one.
fn can_modify(address: u16) -> bool
    ensures value { result ≡ can_modify_test address }
{
    let access = io_access(address);
    access.read && access.write
}
