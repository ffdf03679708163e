//! Names of labels.

ghost use Rattle.std.specs.Prelude.{◌≡◌, ◌≤◌, length, true, IfSome};
ghost use Rattle.std.specs.List.{list_all};
ghost use Rattle.avr_asm.specs.Operands.{is_first as is_first_test, is_inner as is_inner_test, is_name as is_name_test, is_word as is_word_test, name_of};

use crate::operand::{pointer_in, register_in};
use arrayvec::ArrayVec;

/// A name, of at most 64 bytes.
pub(crate) type Name = ArrayVec<u8, 64>;

/// The name that a text is.
#[tactic(auto, unfolding(crate::specs::Operands::name_of))]
pub(crate) fn name_in(text: &[u8]) -> Option<Name>
    ensures value { result ≡ name_of text.now }
    ensures named { IfSome result (λ name. name.items ≡ text.now) }
{
    if is_name(text) {
        Some(copy_of(text))
    } else {
        None
    }
}

fn copy_of(text: &[u8]) -> Name
    requires short { length text.now ≤ 64 }
    ensures items { result.items ≡ text.now }
{
    let mut name = ArrayVec::new();
    name.try_extend_from_slice(text).unwrap();
    name
}

/// Whether a text is a name: registers and pointers are none.
#[tactic(auto, unfolding(crate::specs::Operands::is_name))]
fn is_name(text: &[u8]) -> bool
    ensures value { result ≡ is_name_test text.now }
    ensures short { result ≡ true → length text.now ≤ 64 }
{
    if !is_word(text) {
        return false;
    }
    if register_in(text).is_some() {
        return false;
    }
    pointer_in(text).is_none()
}

/// Whether a text has the shape of a name.
fn is_word(text: &[u8]) -> bool
    ensures value { result ≡ is_word_test text.now }
    ensures short { result ≡ true → length text.now ≤ 64 }
{
    let [first, rest @ ..] = text else {
        return false;
    };
    if rest.len() >= 64 {
        return false;
    }
    if !is_first(*first) {
        return false;
    }
    are_inner(rest)
}

/// Whether a name may go on with these bytes.
fn are_inner(text: &[u8]) -> bool
    ensures value { result ≡ list_all is_inner_test text.now }
{
    let mut rest = text;
    while let [first, behind @ ..] = rest {
        if !is_inner(*first) {
            return false;
        }
        rest = behind;
    }
    true
}

/// Whether a name may begin with this byte.
fn is_first(byte: u8) -> bool
    ensures value { result ≡ is_first_test byte }
{
    byte.is_ascii_alphabetic() || byte == b'_'
}

/// Whether a name may go on with this byte.
fn is_inner(byte: u8) -> bool
    ensures value { result ≡ is_inner_test byte }
{
    byte.is_ascii_alphanumeric() || byte == b'_'
}
