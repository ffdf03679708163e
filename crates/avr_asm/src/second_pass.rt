//! The second pass over the lines: their words, and the faults that show once all labels are known.

ghost use Rattle.std.specs.Prelude.{◌≡◌, ◌≤◌, List, length, ◌++◌, ◌∷◌, [], Some, OnOk, IfOk, IfErr};
ghost use Rattle.avr_asm.specs.declared.first_pass.Refusal.TheVariants.{NoMemory};
ghost use Rattle.avr_asm.specs.declared.statement.Statement.TheVariants.{To};
ghost use Rattle.avr_asm.specs.Addresses.{Label};
ghost use Rattle.avr_asm.specs.AsmText.{labels_of};
ghost use Rattle.avr_asm.specs.Labels.{HasLabels};
ghost use Rattle.avr_asm.specs.Passes.{IsAdded, IsAddedInstruction, IsLineAdded, IsLineRefused, IsAssembled, IsSecondRefusal, IsStatementRefused};

use crate::fault::AsmError;
use crate::first_pass::Refusal;
use crate::labels::Labels;
use crate::line::line_in;
use crate::mnemonic::Jump;
use crate::statement::{Statement, Target};
use crate::target::jump_in;
use avr_encode::encode;
use avr_isa::Instr;
use std::alloc::Global;
use text_lines::first_line;

/// Adds a word.
fn add_word(words: &mut Vec<u16>, word: u16) -> Result<(), Refusal>
    ensures added { OnOk result (words.new.items ≡ words.old.items ++ word ∷ []) }
    ensures memory { IfErr result (λ refusal. refusal ≡ NoMemory) }
{
    match words.push(word) {
        Ok(()) => Ok(()),
        Err(_) => Err(Refusal::NoMemory),
    }
}

/// Adds the words of an instruction.
fn add_instruction(words: &mut Vec<u16>, instr: &Instr) -> Result<(), Refusal>
    ensures added { OnOk result (IsAddedInstruction instr.now words.old.items words.new.items) }
    ensures memory { IfErr result (λ refusal. refusal ≡ NoMemory) }
{
    let code = encode(instr);
    add_word(words, code.first)?;
    match code.second {
        Some(second) => add_word(words, second),
        None => Ok(()),
    }
}

/// Adds the words of a jump.
fn add_jump(
    words: &mut Vec<u16>,
    labels: &Labels,
    jump: Jump,
    target: &Target,
) -> Result<(), Refusal>
    requires few { length words.old.items ≤ 4194304 }
    ensures added { OnOk result ((list : List Label) → HasLabels labels.now list → IsAdded list (Some (To jump target.now)) words.old.items words.new.items) }
    ensures refused { IfErr result (IsStatementRefused labels.now (length words.old.items) (Some (To jump target.now))) }
{
    match jump_in(labels, words.len() as u32, jump, target) {
        Ok(instr) => add_instruction(words, &instr),
        Err(fault) => Err(Refusal::Fault(fault)),
    }
}

/// Adds the words of a line's statement.
fn add_statement(
    words: &mut Vec<u16>,
    labels: &Labels,
    statement: &Option<Statement>,
) -> Result<(), Refusal>
    requires few { length words.old.items ≤ 4194304 }
    ensures added { OnOk result ((list : List Label) → HasLabels labels.now list → IsAdded list statement.now words.old.items words.new.items) }
    ensures refused { IfErr result (IsStatementRefused labels.now (length words.old.items) statement.now) }
{
    match statement {
        None => Ok(()),
        Some(Statement::Word(word)) => add_word(words, *word),
        Some(Statement::Ready(instr)) => add_instruction(words, instr),
        Some(Statement::To(jump, target)) => add_jump(words, labels, *jump, target),
    }
}

/// Adds the words of one line.
fn add_line(words: &mut Vec<u16>, labels: &Labels, text: &[u8]) -> Result<(), Refusal>
    requires few { length words.old.items ≤ 4194304 }
    ensures added { OnOk result ((list : List Label) → HasLabels labels.now list → IsLineAdded list text.now words.old.items words.new.items) }
    ensures refused { IfErr result (IsLineRefused labels.now (length words.old.items) text.now) }
{
    match line_in(text) {
        Ok(line) => add_statement(words, labels, &line.statement),
        Err(fault) => Err(Refusal::Fault(fault)),
    }
}

/// The words of a text whose labels are known.
#[tactic(auto, using(crate::proofs::SecondPassLaws::second_part_whole, crate::proofs::SecondPassLaws::second_part_start))]
pub(crate) fn second_pass(alloc: Global, text: &[u8], labels: &Labels) -> Result<Vec<u16>, AsmError>
    requires short { length text.now ≤ 2097152 }
    requires labels { HasLabels labels.now (labels_of text.now) }
    ensures assembled { IfOk result (λ words. IsAssembled text.now words.items) }
    ensures refused { IfErr result (IsSecondRefusal text.now) }
{
    let mut words = Vec::new(alloc);
    let mut rest = text;
    let mut number = 0;
    'lines: while !rest.is_empty() {
        let (line, behind) = first_line(rest);
        number += 1;
        match add_line(&mut words, labels, line) {
            Ok(()) => {}
            Err(Refusal::Fault(fault)) => {
                return Err(AsmError::Bad {
                    line: number,
                    fault,
                });
            }
            Err(Refusal::NoMemory) => return Err(AsmError::NoMemory),
        }
        rest = behind;
    }
    Ok(words)
}
