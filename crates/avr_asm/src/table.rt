//! The table of mnemonics.

ghost use Rattle.std.specs.Prelude.{◌≡◌};
ghost use Rattle.avr_asm.specs.Mnemonics.{operation_of};

use crate::mnemonic::{FlagState, Jump, Operation, ProgramAddress};
use crate::text::found_in;
use avr_isa::{ImmOp, OneOp, ProductOp, TwoOp, WordOp};

/// The mnemonics, and what each of them stands for.
pub(crate) const MNEMONICS: [(&str, Operation); 78] = [
    // Without operands; `lpm` and `elpm` may have some.
    ("nop", Operation::Nop),
    ("ret", Operation::Ret),
    ("reti", Operation::Reti),
    ("ijmp", Operation::Ijmp),
    ("icall", Operation::Icall),
    ("sleep", Operation::Sleep),
    ("break", Operation::Break),
    ("wdr", Operation::Wdr),
    ("spm", Operation::Spm),
    ("sei", Operation::OneFlag(FlagState::Set, 7)),
    ("cli", Operation::OneFlag(FlagState::Clear, 7)),
    ("lpm", Operation::LoadProgram(ProgramAddress::Near)),
    ("elpm", Operation::LoadProgram(ProgramAddress::Far)),
    // Of two registers.
    ("movw", Operation::Movw),
    ("add", Operation::Two(TwoOp::Add)),
    ("adc", Operation::Two(TwoOp::Adc)),
    ("sub", Operation::Two(TwoOp::Sub)),
    ("sbc", Operation::Two(TwoOp::Sbc)),
    ("and", Operation::Two(TwoOp::And)),
    ("or", Operation::Two(TwoOp::Or)),
    ("eor", Operation::Two(TwoOp::Eor)),
    ("mov", Operation::Two(TwoOp::Mov)),
    ("cp", Operation::Two(TwoOp::Cp)),
    ("cpc", Operation::Two(TwoOp::Cpc)),
    ("cpse", Operation::Cpse),
    ("mul", Operation::Two(TwoOp::Mul)),
    ("muls", Operation::Muls),
    ("mulsu", Operation::Product(ProductOp::Mulsu)),
    ("fmul", Operation::Product(ProductOp::Fmul)),
    ("fmuls", Operation::Product(ProductOp::Fmuls)),
    ("fmulsu", Operation::Product(ProductOp::Fmulsu)),
    // Of a register and a constant.
    ("ldi", Operation::Imm(ImmOp::Ldi)),
    ("cpi", Operation::Imm(ImmOp::Cpi)),
    ("subi", Operation::Imm(ImmOp::Subi)),
    ("sbci", Operation::Imm(ImmOp::Sbci)),
    ("ori", Operation::Imm(ImmOp::Ori)),
    ("andi", Operation::Imm(ImmOp::Andi)),
    ("adiw", Operation::Word(WordOp::Adiw)),
    ("sbiw", Operation::Word(WordOp::Sbiw)),
    // Of one register.
    ("com", Operation::One(OneOp::Com)),
    ("neg", Operation::One(OneOp::Neg)),
    ("swap", Operation::One(OneOp::Swap)),
    ("inc", Operation::One(OneOp::Inc)),
    ("asr", Operation::One(OneOp::Asr)),
    ("lsr", Operation::One(OneOp::Lsr)),
    ("ror", Operation::One(OneOp::Ror)),
    ("dec", Operation::One(OneOp::Dec)),
    ("push", Operation::Push),
    ("pop", Operation::Pop),
    // Between a register and memory or an I/O register.
    ("ld", Operation::Ld),
    ("st", Operation::St),
    ("ldd", Operation::Ldd),
    ("std", Operation::Std),
    ("lds", Operation::Lds),
    ("sts", Operation::Sts),
    ("in", Operation::In),
    ("out", Operation::Out),
    // Of a bit.
    ("cbi", Operation::Cbi),
    ("sbi", Operation::Sbi),
    ("sbic", Operation::Sbic),
    ("sbis", Operation::Sbis),
    ("bld", Operation::Bld),
    ("bst", Operation::Bst),
    ("sbrc", Operation::Sbrc),
    ("sbrs", Operation::Sbrs),
    ("bset", Operation::Flag(FlagState::Set)),
    ("bclr", Operation::Flag(FlagState::Clear)),
    // Of a target, and the word as it is.
    ("brbs", Operation::Branch(FlagState::Set)),
    ("brbc", Operation::Branch(FlagState::Clear)),
    ("breq", Operation::Jump(Jump::If(FlagState::Set, 1))),
    ("brne", Operation::Jump(Jump::If(FlagState::Clear, 1))),
    ("brlo", Operation::Jump(Jump::If(FlagState::Set, 0))),
    ("brsh", Operation::Jump(Jump::If(FlagState::Clear, 0))),
    ("rjmp", Operation::Jump(Jump::Rjmp)),
    ("rcall", Operation::Jump(Jump::Rcall)),
    ("jmp", Operation::Jump(Jump::Jmp)),
    ("call", Operation::Jump(Jump::Call)),
    (".dw", Operation::Data),
];

/// What the mnemonic with this name stands for.
#[tactic(auto, unfolding(crate::specs::Mnemonics::operation_of))]
pub(crate) fn operation_in(name: &[u8]) -> Option<Operation>
    ensures value { result ≡ operation_of name.now }
{
    found_in(&MNEMONICS, name)
}
