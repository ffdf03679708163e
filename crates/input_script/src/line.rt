//! One line as a statement.

ghost use Rattle.std.specs.Prelude.{◌≡◌, ◌<◌, ◌≤◌, ◌^◌, ◌∷◌, codes, option_and_then, option_map, bytes_eq, IfSome};
ghost use Rattle.input_script.specs.declared.input.Input.TheVariants.{Pin};
ghost use Rattle.input_script.specs.declared.line.Statement.TheVariants.{At, FailFlash};
ghost use Rattle.input_script.specs.Grammar.{digits_in, number_of, hex_in, input_in, words_of, said_in, statement_of};

use crate::input::Input;
use text_lines::{split_once, value_of};

/// What a line says. Its number is as it was written, of up to 10 digits.
#[derive(Clone, Copy)]
pub(crate) enum Statement {
    /// Nothing: the line is empty or a comment.
    Nothing,
    /// An input comes at the poll of this number.
    At { number: u64, input: Input },
    /// The flash operation of this number fails.
    FailFlash { number: u64 },
}

/// What a line says, where it has one of the forms.
pub(crate) fn statement_in(line: &[u8]) -> Option<Statement>
    ensures value { result ≡ statement_of line.now }
{
    if line.is_empty() || line[0] == b'#' {
        return Some(Statement::Nothing);
    }
    said_in(line)
}

/// What the words of a line say, where they are a fail line or an event.
fn said_in(line: &[u8]) -> Option<Statement>
    ensures value { result ≡ said_in (words_of line.now) }
{
    let (first, rest) = split_once(line, b' ')?;
    let (second, rest) = split_once(rest, b' ')?;
    if is_same(first, b"at") {
        return event_in(second, rest);
    }
    if !is_same(first, b"fail") {
        return None;
    }
    if !is_same(second, b"flash") {
        return None;
    }
    fail_of(rest)
}

/// The event of a number and an input.
fn event_in(number: &[u8], input: &[u8]) -> Option<Statement>
    ensures value { result ≡ said_in (codes "at" ∷ number.now ∷ words_of input.now) }
{
    let (word, value) = split_once(input, b' ')?;
    event_of(number, word, value)
}

/// The event of a number, a kind's word and a value.
fn event_of(number: &[u8], word: &[u8], value: &[u8]) -> Option<Statement>
    ensures value { result ≡ option_and_then (λ n. option_map (At n) (input_in word.now value.now)) (number_of number.now) }
{
    Some(Statement::At {
        number: number_in(number)?,
        input: input_in(word, value)?,
    })
}

/// The fail line of a number.
fn fail_of(number: &[u8]) -> Option<Statement>
    ensures value { result ≡ option_map FailFlash (number_of number.now) }
{
    Some(Statement::FailFlash {
        number: number_in(number)?,
    })
}

/// The input that a kind's word and a value write.
fn input_in(word: &[u8], value: &[u8]) -> Option<Input>
    ensures value { result ≡ input_in word.now value.now }
{
    if is_same(word, b"pina") {
        pin_in(0, value)
    } else if is_same(word, b"pinb") {
        pin_in(1, value)
    } else if is_same(word, b"pinc") {
        pin_in(2, value)
    } else if is_same(word, b"pind") {
        pin_in(3, value)
    } else if is_same(word, b"uart") {
        Some(Input::Uart(byte_in(value)?))
    } else if is_same(word, b"adc") {
        Some(Input::Adc(hex_in(value, 3)?))
    } else if is_same(word, b"int") {
        Some(Input::Int(digits_in(value, 8, 1)? as u8))
    } else {
        None
    }
}

/// The pins of a port that a value writes.
fn pin_in(port: u8, value: &[u8]) -> Option<Input>
    ensures value { result ≡ option_map (Pin port) (hex_in 2 value.now) }
{
    Some(Input::Pin(port, byte_in(value)?))
}

/// The byte that a value writes.
fn byte_in(value: &[u8]) -> Option<u8>
    ensures value { result ≡ hex_in 2 value.now }
{
    Some(hex_in(value, 2)? as u8)
}

/// The number that `0x` and so many hexadecimal digits write.
fn hex_in(text: &[u8], width: usize) -> Option<u16>
    requires width { width ≤ 3 }
    ensures value { result ≡ hex_in width text.now }
    ensures bound { IfSome result (λ n. n < 16 ^ width) }
{
    match text {
        [b'0', b'x', digits @ ..] => digits_in(digits, 16, width),
        _ => None,
    }
}

/// The number that 1 to 10 decimal digits write.
fn number_in(text: &[u8]) -> Option<u64>
    ensures value { result ≡ number_of text.now }
{
    if text.is_empty() || text.len() > 10 {
        return None;
    }
    value_of(text, 10)
}

/// The number that exactly so many digits of a base write.
fn digits_in(text: &[u8], radix: u32, width: usize) -> Option<u16>
    requires base { (8 ≤ radix) × (radix ≤ 16) }
    requires width { width ≤ 3 }
    ensures value { result ≡ digits_in radix width text.now }
    ensures bound { IfSome result (λ n. n < radix ^ width) }
{
    if text.len() != width {
        return None;
    }
    Some(value_of(text, radix)? as u16)
}

/// Whether two words have the same letters.
fn is_same(word: &[u8], other: &[u8]) -> bool
    ensures value { result ≡ bytes_eq word.now other.now }
{
    word == other
}
