//! Operands as they are written.

ghost use Rattle.std.specs.Prelude.{◌≡◌};
ghost use Rattle.avr_asm.specs.Operands.{number_behind as number_behind_of, operand_of, operands_of, pointer_of, register_of, with_operand};

use crate::name::{Name, name_in};
use crate::number::number_in;
use crate::text::{found_in, trimmed};
use avr_isa::{Base, Ptr};
use text_lines::split_once;

/// A pointer as LD, ST, LPM and ELPM name it.
#[derive(Clone, Copy)]
pub(crate) enum Pointer {
    /// X, or a pointer that the access changes.
    At(Ptr),
    /// Y or Z, which stay.
    Alone(Base),
}

/// An operand.
#[derive(Drop)]
pub(crate) enum Operand {
    /// r0 to r31.
    Register(u8),
    Number(u64),
    Pointer(Pointer),
    /// `Y+q` or `Z+q`.
    Displaced(Base, u64),
    Name(Name),
}

/// The operands of a statement: none of the table has more than two.
#[derive(Drop)]
pub(crate) enum Operands {
    Zero,
    One(Operand),
    Two(Operand, Operand),
    More,
}

/// The registers, and the number of each.
pub(crate) const REGISTERS: [(&str, u8); 32] = [
    ("r0", 0),
    ("r1", 1),
    ("r2", 2),
    ("r3", 3),
    ("r4", 4),
    ("r5", 5),
    ("r6", 6),
    ("r7", 7),
    ("r8", 8),
    ("r9", 9),
    ("r10", 10),
    ("r11", 11),
    ("r12", 12),
    ("r13", 13),
    ("r14", 14),
    ("r15", 15),
    ("r16", 16),
    ("r17", 17),
    ("r18", 18),
    ("r19", 19),
    ("r20", 20),
    ("r21", 21),
    ("r22", 22),
    ("r23", 23),
    ("r24", 24),
    ("r25", 25),
    ("r26", 26),
    ("r27", 27),
    ("r28", 28),
    ("r29", 29),
    ("r30", 30),
    ("r31", 31),
];

/// How each pointer is written.
pub(crate) const POINTERS: [(&str, Pointer); 9] = [
    ("X", Pointer::At(Ptr::X)),
    ("X+", Pointer::At(Ptr::XInc)),
    ("-X", Pointer::At(Ptr::XDec)),
    ("Y", Pointer::Alone(Base::Y)),
    ("Y+", Pointer::At(Ptr::YInc)),
    ("-Y", Pointer::At(Ptr::YDec)),
    ("Z", Pointer::Alone(Base::Z)),
    ("Z+", Pointer::At(Ptr::ZInc)),
    ("-Z", Pointer::At(Ptr::ZDec)),
];

/// The number of the register that a text names.
#[tactic(auto, unfolding(crate::specs::Operands::register_of))]
pub(crate) fn register_in(text: &[u8]) -> Option<u8>
    ensures value { result ≡ register_of text.now }
{
    found_in(&REGISTERS, text)
}

/// The pointer that a text writes.
#[tactic(auto, unfolding(crate::specs::Operands::pointer_of))]
pub(crate) fn pointer_in(text: &[u8]) -> Option<Pointer>
    ensures value { result ≡ pointer_of text.now }
{
    found_in(&POINTERS, text)
}

/// The number behind this front of a text.
fn number_behind(front: &[u8], text: &[u8]) -> Option<u64>
    ensures value { result ≡ number_behind_of front.now text.now }
{
    if !text.starts_with(front) {
        return None;
    }
    number_in(&text[front.len()..])
}

/// The operand that a text writes.
#[tactic(auto, unfolding(crate::specs::Operands::operand_of))]
fn operand_in(text: &[u8]) -> Option<Operand>
    ensures value { result ≡ operand_of text.now }
{
    if let Some(register) = register_in(text) {
        return Some(Operand::Register(register));
    }
    if let Some(pointer) = pointer_in(text) {
        return Some(Operand::Pointer(pointer));
    }
    if let Some(number) = number_in(text) {
        return Some(Operand::Number(number));
    }
    if let Some(q) = number_behind(b"Y+", text) {
        return Some(Operand::Displaced(Base::Y, q));
    }
    if let Some(q) = number_behind(b"Z+", text) {
        return Some(Operand::Displaced(Base::Z, q));
    }
    match name_in(text) {
        Some(name) => Some(Operand::Name(name)),
        None => None,
    }
}

impl Operands {
    /// With one more.
    fn with(self, operand: Operand) -> Operands
        ensures value { result ≡ with_operand self operand }
    {
        match self {
            Operands::Zero => Operands::One(operand),
            Operands::One(first) => Operands::Two(first, operand),
            Operands::Two(..) => Operands::More,
            Operands::More => Operands::More,
        }
    }
}

/// The operands that a text writes, with commas between them and blanks around them; none where a part of
/// the text is no operand.
pub(crate) fn operands_in(text: &[u8]) -> Option<Operands>
    ensures value { result ≡ operands_of text.now }
{
    if text.is_empty() {
        return Some(Operands::Zero);
    }
    let mut operands = Operands::Zero;
    let mut rest = text;
    'operands: while let Some((front, behind)) = split_once(rest, b',') {
        match operand_in(trimmed(front)) {
            Some(operand) => operands = operands.with(operand),
            None => return None,
        }
        rest = behind;
    }
    match operand_in(trimmed(rest)) {
        Some(operand) => Some(operands.with(operand)),
        None => None,
    }
}
