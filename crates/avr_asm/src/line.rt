//! One line of a source.

ghost use Rattle.std.specs.Prelude.{◌≡◌, IfOk, IfSome};
ghost use Rattle.avr_asm.specs.SourceLines.{behind_label as behind_label_of, is_mnemonic as is_mnemonic_test, line_of, statement_of, IsNamed, with_label as with_label_of};
ghost use Rattle.avr_asm.specs.Operands.{name_of};
ghost use Rattle.std.specs.List.{list_all};
ghost use Rattle.std.specs.Char.{is_ascii_lowercase};

use crate::fault::AsmFault;
use crate::name::{Name, name_in};
use crate::operand::operands_in;
use crate::statement::{Statement, meaning_in};
use crate::table::operation_in;
use crate::text::{front_word, trimmed, up_to};
use text_lines::split_once;

/// What a line says.
#[derive(Drop)]
pub(crate) struct Line {
    /// The name that becomes a label.
    pub(crate) label: Option<Name>,
    pub(crate) statement: Option<Statement>,
}

/// What a line says, or the first of the faults that it has by itself.
pub(crate) fn line_in(line: &[u8]) -> Result<Line, AsmFault>
    ensures value { result ≡ line_of line.now }
    ensures named { IfOk result (λ l. IsNamed line.now l.label) }
{
    let code = trimmed(up_to(line, b';'));
    match split_once(code, b':') {
        Some((front, behind)) => with_label(front, trimmed(behind)),
        None => with_statement(None, code),
    }
}

/// A line with a label.
fn with_label(label: &[u8], text: &[u8]) -> Result<Line, AsmFault>
    ensures value { result ≡ with_label_of (name_of label.now) text.now }
    ensures named { IfOk result (λ l. IfSome l.label (λ name. name.items ≡ label.now)) }
{
    match name_in(label) {
        Some(name) => with_statement(Some(name), text),
        None => Err(AsmFault::Form),
    }
}

/// What stands behind a label, or without one.
fn with_statement(label: Option<Name>, text: &[u8]) -> Result<Line, AsmFault>
    ensures value { result ≡ behind_label_of label text.now }
    ensures label { IfOk result (λ l. l.label ≡ label) }
{
    if text.is_empty() {
        return Ok(Line {
            label,
            statement: None,
        });
    }
    match statement_in(text) {
        Ok(statement) => Ok(Line {
            label,
            statement: Some(statement),
        }),
        Err(fault) => Err(fault),
    }
}

/// What a statement means.
#[tactic(auto, unfolding(crate::specs::SourceLines::statement_of))]
fn statement_in(text: &[u8]) -> Result<Statement, AsmFault>
    ensures value { result ≡ statement_of text.now }
{
    let (mnemonic, rest) = front_word(text);
    if !is_mnemonic(mnemonic) {
        return Err(AsmFault::Form);
    }
    match operands_in(trimmed(rest)) {
        None => Err(AsmFault::Form),
        Some(operands) => match operation_in(mnemonic) {
            None => Err(AsmFault::Mnemonic),
            Some(operation) => meaning_in(operation, operands),
        },
    }
}

/// Whether a text has the shape of a mnemonic: lower-case letters, maybe behind a point.
fn is_mnemonic(text: &[u8]) -> bool
    ensures value { result ≡ is_mnemonic_test text.now }
{
    match text {
        [] => false,
        [b'.', rest @ ..] => !rest.is_empty() && are_small(rest),
        _ => are_small(text),
    }
}

/// Whether all are lower-case letters.
fn are_small(text: &[u8]) -> bool
    ensures value { result ≡ list_all is_ascii_lowercase text.now }
{
    let mut rest = text;
    while let [first, behind @ ..] = rest {
        if !first.is_ascii_lowercase() {
            return false;
        }
        rest = behind;
    }
    true
}
