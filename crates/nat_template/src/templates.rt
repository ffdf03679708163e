//! The template of an instruction, in pieces and in words.
ghost use Rattle.std.specs.Prelude.{◌≡◌, ℕ, ◌≤◌, ◌++◌, ◌∷◌, [], if◌then◌else◌, length, map};
ghost use Rattle.std.specs.Option.{option_map};
ghost use Rattle.arrayvec.specs.ArrayVec.{array_vec_len};
ghost use Rattle.avr_decode.specs.Decoding.{the_form};
ghost use Rattle.nat_template.specs.Stubs.{mem_entry, service as service_of, stub as stub_of, words_of};
ghost use Rattle.nat_template.specs.Templates.{is_z as is_z_test, mem_pieces, passing, short_branch as short_branch_of, target_of, template_by, template_of};

use crate::entries::{FAULT, INDIRECT, MEM, PUSH_RETURN, RETURN, SELF};
use crate::inline::{load_words, pop_words, push_words, store_words};
use crate::piece::{Piece, written};
use crate::shapes::{TemplateShape, shape};
use crate::stubs::{service, stub, stub_size};
use arrayvec::ArrayVec;
use avr_decode::decode;
use avr_isa::{Base, Form, Instr, Reg, relative};

/// The words of the template: what stands in a new page in the place of the instruction at the pc.
///
/// The instruction's words are `w0` and, where it has two, `w1`. The next instruction has `next_size`
/// words, 1 or 2, which a skip passes over.
///
/// This is the plain form: the program calls [`pieces_by`].
pub fn template(pc: u16, w0: u16, w1: u16, next_size: u16) -> ArrayVec<u16, 64>
    ensures words { result.items ≡ words_of (template_of pc w0 (the_form w0 w1) next_size) }
    ensures size { (1 ≤ array_vec_len result) × (array_vec_len result ≤ 39) }
{
    written(&pieces(pc, w0, w1, next_size))
}

/// The template's pieces, of which each link stands for the three words of a call of the bridge. The program
/// calls [`pieces_by`], since it has the shape at hand.
#[tactic(auto, using(crate::proofs::Sizes::template_size))]
pub fn pieces(pc: u16, w0: u16, w1: u16, next_size: u16) -> ArrayVec<Piece, 40>
    ensures pieces { result.items ≡ template_of pc w0 (the_form w0 w1) next_size }
    ensures size { (1 ≤ length (words_of result.items)) × (length (words_of result.items) ≤ 39) }
{
    let instr = decode(w0, w1);
    let instr = instr.as_ref();
    pieces_by(shape(pc, instr), pc, w0, instr, next_size)
}

/// The template of an instruction with this shape, in pieces.
#[tactic(auto, unfolding(crate::specs::Templates::template_by))]
pub fn pieces_by(
    shape: TemplateShape,
    pc: u16,
    w0: u16,
    instr: Option<&Instr>,
    next_size: u16,
) -> ArrayVec<Piece, 40>
    ensures pieces { result.items ≡ template_by shape pc w0 (option_map (λ borrowed. borrowed.now) instr.entry) next_size }
{
    match shape {
        TemplateShape::Native => one(w0),
        TemplateShape::Mem => mem(pc, instr),
        TemplateShape::Jump => behind(ArrayVec::new(), pc, target(pc, instr)),
        TemplateShape::Branch => passed_over(short_branch(instr), pc, target(pc, instr)),
        TemplateShape::Skip => passed_over(w0, pc, pc.wrapping_add(1).wrapping_add(next_size)),
        TemplateShape::Call => behind(call_of(PUSH_RETURN, pc), pc, target(pc, instr)),
        TemplateShape::Ret => call_of(RETURN, pc),
        TemplateShape::Ind => call_of(INDIRECT, pc),
        TemplateShape::SelfJump => call_of(SELF, pc),
        TemplateShape::Fault => call_of(FAULT, pc),
    }
}

/// How many words this template has.
#[tactic(auto, using(crate::proofs::Sizes::stub_size), unfolding(crate::specs::Templates::template_by))]
pub fn size_by(shape: TemplateShape, pc: u16, instr: Option<&Instr>, next_size: u16) -> u16
    ensures size { (first : ℕ) → result ≡ length (words_of (template_by shape pc first (option_map (λ borrowed. borrowed.now) instr.entry) next_size)) }
    ensures bounds { (1 ≤ result) × (result ≤ 39) }
{
    match shape {
        TemplateShape::Native => 1,
        TemplateShape::Mem => mem_size(instr),
        TemplateShape::Jump => stub_size(pc, target(pc, instr)),
        TemplateShape::Branch => 2 + stub_size(pc, target(pc, instr)),
        TemplateShape::Skip => 2 + stub_size(pc, pc.wrapping_add(1).wrapping_add(next_size)),
        TemplateShape::Call => 3 + stub_size(pc, target(pc, instr)),
        TemplateShape::Ret | TemplateShape::Ind | TemplateShape::SelfJump | TemplateShape::Fault =>
            3,
    }
}

/// How many words the template of what reaches data memory has.
#[tactic(auto, using(crate::proofs::Sizes::push_size, crate::proofs::Sizes::pop_size, crate::proofs::Sizes::load_size, crate::proofs::Sizes::store_size), unfolding(crate::specs::Templates::mem_pieces))]
fn mem_size(instr: Option<&Instr>) -> u16
    ensures size { (pc : ℕ) → result ≡ length (words_of (mem_pieces pc (option_map (λ borrowed. borrowed.now) instr.entry))) }
    ensures bounds { (1 ≤ result) × (result ≤ 39) }
{
    match instr {
        Some(instr) => match instr.form() {
            Form::Push(r) | Form::Pop(r) => inline_size(*r, 39),
            Form::LoadOff(r, Base::Y, _) | Form::StoreOff(Base::Y, _, r) => inline_size(*r, 32),
            _ => 3,
        },
        None => 3,
    }
}

/// How many words an inline template has, where it may stand; else those of a call of MEM.
fn inline_size(register: Reg, words: u16) -> u16
    ensures size { result ≡ if is_z_test register then 3 else words }
{
    if is_z(register) { 3 } else { words }
}

/// What reaches data memory.
#[tactic(auto, unfolding(crate::specs::Templates::mem_pieces))]
fn mem(pc: u16, instr: Option<&Instr>) -> ArrayVec<Piece, 40>
    ensures pieces { result.items ≡ mem_pieces pc (option_map (λ borrowed. borrowed.now) instr.entry) }
{
    match instr {
        Some(instr) => match instr.form() {
            Form::Push(r) => inline_or_mem(*r, push_words(*r), pc),
            Form::Pop(d) => inline_or_mem(*d, pop_words(*d), pc),
            Form::LoadOff(d, Base::Y, q) => inline_or_mem(*d, load_words(*d, *q), pc),
            Form::StoreOff(Base::Y, q, r) => inline_or_mem(*r, store_words(*q, *r), pc),
            _ => call_of(MEM, pc),
        },
        None => call_of(MEM, pc),
    }
}

/// These words, which use Z, or a call of the kernel where the register is one of Z's.
fn inline_or_mem(register: Reg, words: ArrayVec<u16, 38>, pc: u16) -> ArrayVec<Piece, 40>
    ensures pieces { result.items ≡ if is_z_test register then service_of mem_entry pc else map (λ word. Piece.Fixed word) words.items ++ Piece.Fixed pc ∷ [] }
{
    if is_z(register) {
        call_of(MEM, pc)
    } else {
        with_pc(&words, pc)
    }
}

/// Whether the register is one of Z's.
fn is_z(register: Reg) -> bool
    ensures value { result ≡ is_z_test register }
{
    register.get() == 30 || register.get() == 31
}

/// These words, and the pc behind them.
fn with_pc(words: &[u16], pc: u16) -> ArrayVec<Piece, 40>
    requires room { length words.now ≤ 38 }
    ensures pieces { result.items ≡ map (λ word. Piece.Fixed word) words.now ++ Piece.Fixed pc ∷ [] }
{
    let mut pieces = ArrayVec::new();
    for word in words {
        pieces.push(Piece::Fixed(*word));
    }
    pieces.push(Piece::Fixed(pc));
    pieces
}

/// Where a jump, branch or call leads by its own word; else the pc.
fn target(pc: u16, instr: Option<&Instr>) -> u16
    ensures target { result ≡ target_of pc (option_map (λ borrowed. borrowed.now) instr.entry) }
{
    match instr {
        Some(instr) => match instr.form() {
            Form::Brbs(_, k) | Form::Brbc(_, k) => relative(pc, k.get()),
            Form::Rjmp(k) | Form::Rcall(k) => relative(pc, k.get()),
            Form::Jmp(a) | Form::Call(a) => *a,
            _ => pc,
        },
        None => pc,
    }
}

/// One word.
fn one(word: u16) -> ArrayVec<Piece, 40>
    ensures pieces { result.items ≡ Piece.Fixed word ∷ [] }
{
    let mut pieces = ArrayVec::new();
    pieces.push(Piece::Fixed(word));
    pieces
}

/// A call of the kernel.
fn call_of(entry: u16, pc: u16) -> ArrayVec<Piece, 40>
    ensures pieces { result.items ≡ service_of entry pc }
    ensures size { array_vec_len result ≡ 3 }
{
    let mut pieces = ArrayVec::new();
    pieces.try_extend_from_slice(&service(entry, pc)).unwrap();
    pieces
}

/// These pieces, and the stub for a step behind them.
fn behind(front: ArrayVec<Piece, 40>, from: u16, to: u16) -> ArrayVec<Piece, 40>
    requires room { array_vec_len front ≤ 3 }
    ensures pieces { result.items ≡ front.items ++ stub_of from to }
{
    let mut pieces = front;
    pieces.try_extend_from_slice(&stub(from, to)).unwrap();
    pieces
}

/// A word that passes over one word, which is a jump over the stub behind it.
#[tactic(auto, using(crate::proofs::Sizes::stub_size))]
fn passed_over(word: u16, from: u16, to: u16) -> ArrayVec<Piece, 40>
    ensures pieces { result.items ≡ passing word (stub_of from to) }
{
    let mut pieces = one(word);
    pieces.push(Piece::Fixed(0xC000 + stub_size(from, to)));
    behind(pieces, from, to)
}

/// The word of the conditional branch on the same bit that passes over one word.
#[tactic(auto, unfolding(avr_isa::specs::Encoding::first_word))]
fn short_branch(instr: Option<&Instr>) -> u16
    ensures word { result ≡ short_branch_of (option_map (λ borrowed. borrowed.now) instr.entry) }
{
    match instr {
        Some(instr) => match instr.form() {
            Form::Brbs(s, _) => 0xF008 + u16::from(s.get()),
            Form::Brbc(s, _) => 0xF408 + u16::from(s.get()),
            _ => 0,
        },
        None => 0,
    }
}
