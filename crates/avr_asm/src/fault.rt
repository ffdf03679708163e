//! What can be wrong with a source.
ghost use Rattle.std.specs.Prelude.{◌≡◌, ◌≤◌, length};
ghost use Rattle.avr_asm.specs.AsmText.{asm_word};

/// A fault of a line. A line's faults are tried in this order, and the first is reported.
#[derive(Clone, Copy, Debug)]
pub enum AsmFault {
    /// The line hasn't the shape of a line, or a known mnemonic has operands of other kinds.
    Form,
    /// The mnemonic isn't in the table.
    Mnemonic,
    /// An operand is outside its field or limit, or the instruction is undefined with these registers.
    Range,
    /// The line's name was a label before.
    Twice,
    /// The statement would end above word 24,576.
    TooLarge,
    /// A named target is no label.
    Label,
    /// The target is too far for a relative instruction.
    Reach,
}

impl AsmFault {
    /// The word by which it is told.
    pub fn word(self) -> &'static [u8]
        ensures word { result.now ≡ asm_word self }
        ensures short { length result.now ≤ 8 }
    {
        match self {
            AsmFault::Form => b"form",
            AsmFault::Mnemonic => b"mnemonic",
            AsmFault::Range => b"range",
            AsmFault::Twice => b"twice",
            AsmFault::TooLarge => b"size",
            AsmFault::Label => b"label",
            AsmFault::Reach => b"reach",
        }
    }
}

/// Why a source was not assembled.
#[derive(Clone, Copy, Debug)]
pub enum AsmError {
    /// The first faulty line, counted from 1, and the first of its faults. Labels and reach are looked at only where
    /// no line has another fault.
    Bad { line: u32, fault: AsmFault },
    /// Memory was wanted and not found.
    NoMemory,
}
