//! The text of a printed line, built piece by piece.

ghost use Rattle.std.specs.Prelude.{◌≡◌, ◌+◌, ◌≤◌, ◌++◌, decimal, length};
ghost use Rattle.arrayvec.specs.ArrayVec.{array_vec_len};
ghost use Rattle.text_lines.specs.Pieces.{address_text, byte_text, two_digits};

use arrayvec::ArrayVec;
use itoa::Buffer;

/// The text of one line, or a part of it, of at most 160 bytes.
pub type Text = ArrayVec<u8, 160>;

const DIGITS: &[u8; 16] = b"0123456789ABCDEF";

/// A text that stands as it is.
pub fn whole(bytes: &[u8]) -> Text
    requires fits { length bytes.now ≤ 160 }
    ensures text { result.items ≡ bytes.now }
    ensures size { array_vec_len result ≡ length bytes.now }
{
    let mut text = Text::new();
    push(&mut text, bytes);
    text
}

/// Adds bytes.
pub fn push(text: &mut Text, more: &[u8])
    requires { array_vec_len text.old + length more.now ≤ 160 }
    ensures text { text.new.items ≡ text.old.items ++ more.now }
    ensures longer { array_vec_len text.new ≡ array_vec_len text.old + length more.now }
{
    text.try_extend_from_slice(more).unwrap();
}

/// Adds `0x` and two upper-case digits.
pub fn push_byte(text: &mut Text, value: u8)
    requires { array_vec_len text.old + 4 ≤ 160 }
    ensures text { text.new.items ≡ text.old.items ++ byte_text value }
    ensures longer { array_vec_len text.new ≡ array_vec_len text.old + 4 }
{
    push(text, b"0x");
    push_digits(text, value);
}

/// Adds `0x` and four upper-case digits.
pub fn push_address(text: &mut Text, address: u16)
    requires { array_vec_len text.old + 6 ≤ 160 }
    ensures text { text.new.items ≡ text.old.items ++ address_text address }
    ensures longer { array_vec_len text.new ≡ array_vec_len text.old + 6 }
{
    let [high, low] = address.to_be_bytes();
    push(text, b"0x");
    push_digits(text, high);
    push_digits(text, low);
}

/// Adds a number in decimal digits, 20 at most.
pub fn push_number(text: &mut Text, number: u64)
    requires { array_vec_len text.old + 20 ≤ 160 }
    ensures text { text.new.items ≡ text.old.items ++ decimal number }
    ensures longer { array_vec_len text.new ≤ array_vec_len text.old + 20 }
{
    let mut buffer = Buffer::new();
    push(text, buffer.format(number).as_bytes());
}

/// Adds the two upper-case digits of a byte.
#[tactic(auto, unfolding(hex::specs::Hex::encode_with))]
fn push_digits(text: &mut Text, value: u8)
    requires { array_vec_len text.old + 2 ≤ 160 }
    ensures text { text.new.items ≡ text.old.items ++ two_digits value }
    ensures longer { array_vec_len text.new ≡ array_vec_len text.old + 2 }
{
    let digits = [
        DIGITS[(value >> 4) as usize],
        DIGITS[(value & 0xF) as usize],
    ];
    push(text, &digits);
}
