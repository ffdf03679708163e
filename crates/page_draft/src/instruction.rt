//! An instruction of the image, and what stands in a page in its place.

ghost use Rattle.std.specs.Prelude.{◌≡◌, ℕ, ◌<◌, ◌≤◌, [], length, if◌then◌else◌};
ghost use Rattle.std.specs.Option.{option_map};
ghost use Rattle.flash_words.specs.Layouts.{most_image_words};
ghost use Rattle.nat_template.specs.Stubs.{stub as stub_of, words_of};
ghost use Rattle.nat_template.specs.Templates.{template_by};
ghost use Rattle.page_draft.specs.Runs.{is_closed as is_closed_test, is_jump_through_z as is_jump_through_z_test, never_returns as never_returns_test};
ghost use Rattle.page_draft.specs.Standing.{size};
ghost use Rattle.page_draft.specs.Drafts.{IsRead, code_of, closing_of};

use crate::words::ImageWords;
use arrayvec::ArrayVec;
use avr_decode::size_by_first_word;
use avr_isa::{Form, Instr};
use nat_template::{Piece, TemplateShape, pieces_by, shape, size_by, stub, stub_size};

/// An instruction of the image.
#[derive(Drop)]
pub struct Instruction {
    /// Its address.
    pub pc: u16,
    /// The address behind it.
    pub next: u16,
    /// Whether it is a transfer without return.
    pub ends: bool,
    /// Its first word.
    pub first: u16,
    /// What its words mean, if they are an instruction.
    pub instr: Option<Instr>,
    /// The shape of its template.
    pub shape: TemplateShape,
    /// How many words the instruction behind its first word has.
    pub next_size: u16,
    /// How many words its template has.
    pub code_size: u16,
    /// How many words the stub to the next address has, where it needs one if the run ends with it.
    pub closing_size: u16,
}

impl Instruction {
    /// Its template.
    pub fn code(&self) -> ArrayVec<Piece, 40>
        ensures pieces { result.items ≡ code_of self.now }
    {
        pieces_by(
            self.shape,
            self.pc,
            self.first,
            self.instr.as_ref(),
            self.next_size,
        )
    }

    /// The stub to the next address, where it needs one if the run ends with it.
    pub fn closing(&self) -> ArrayVec<Piece, 20>
        ensures pieces { result.items ≡ closing_of self.now }
    {
        if is_closed(self.shape) {
            stub(self.pc, self.next)
        } else {
            ArrayVec::new()
        }
    }
}

/// Reads the instruction of the image at the pc.
#[tactic(auto, using(crate::proofs::RunLaws::same_second))]
pub fn read<I: ImageWords>(image: &I, pc: u16) -> Instruction
    requires short { length (I.words image.now) ≤ most_image_words }
    requires inside { pc < length (I.words image.now) }
    ensures pc { result.pc ≡ pc }
    ensures read { IsRead (I.words image.now) result }
{
    let first = image.word(pc);
    let second = image.word(pc + 1);
    let instr = image.instruction(pc);
    let shape = shape(pc, instr.as_ref());
    let next = pc + size_by_first_word(first);
    let next_size = size_by_first_word(second);
    Instruction {
        pc,
        next,
        ends: never_returns(shape, instr.as_ref()),
        first,
        code_size: code_size(shape, pc, instr.as_ref(), next_size),
        closing_size: closing_size(shape, pc, next),
        instr,
        shape,
        next_size,
    }
}

/// How many words the template has: mostly one, the instruction's own.
#[inline(always)]
#[tactic(auto, unfolding(nat_template::specs::Templates::template_by))]
fn code_size(shape: TemplateShape, pc: u16, instr: Option<&Instr>, next_size: u16) -> u16
    ensures size { (first : ℕ) → result ≡ length (words_of (template_by shape pc first (option_map (λ borrowed. borrowed.now) instr.entry) next_size)) }
    ensures bounds { (1 ≤ result) × (result ≤ 39) }
{
    match shape {
        TemplateShape::Native => 1,
        _ => size_by(shape, pc, instr, next_size),
    }
}

/// Whether nothing behind the instruction is reached from it.
fn never_returns(shape: TemplateShape, instr: Option<&Instr>) -> bool
    ensures value { result ≡ never_returns_test shape (option_map (λ borrowed. borrowed.now) instr.entry) }
{
    match shape {
        TemplateShape::Jump | TemplateShape::Ret | TemplateShape::SelfJump | TemplateShape::Fault =>
            true,
        TemplateShape::Ind => is_jump_through_z(instr),
        _ => false,
    }
}

/// Whether it is IJMP; ICALL has the same shape, and returns.
fn is_jump_through_z(instr: Option<&Instr>) -> bool
    ensures value { result ≡ is_jump_through_z_test (option_map (λ borrowed. borrowed.now) instr.entry) }
{
    match instr {
        Some(instr) => match instr.form() {
            Form::Ijmp => true,
            _ => false,
        },
        None => false,
    }
}

/// Whether the instruction may go on to the next address by itself.
fn is_closed(shape: TemplateShape) -> bool
    ensures value { result ≡ is_closed_test shape }
{
    match shape {
        TemplateShape::Native | TemplateShape::Mem | TemplateShape::Branch | TemplateShape::Skip =>
            true,
        _ => false,
    }
}

/// How many words the stub to the next address has, for an instruction of a shape that may go on to it.
fn closing_size(shape: TemplateShape, pc: u16, next: u16) -> u16
    ensures size { result ≡ size (if is_closed_test shape then stub_of pc next else []) }
{
    if is_closed(shape) {
        stub_size(pc, next)
    } else {
        0
    }
}
