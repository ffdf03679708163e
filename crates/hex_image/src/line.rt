//! What a line says by itself.
ghost use Rattle.std.specs.Prelude.{◌≡◌, ◌<◌, ◌≤◌, ◌%◌, ◌∷◌, true, length, sum, IfErr, IfOk, MatchResult, Some};
ghost use Rattle.std.specs.List.{AllPass, list_all};
ghost use Rattle.hex.specs.Hex.{is_hex_digit};
ghost use Rattle.hex_image.specs.Kinds.{code_of};
ghost use Rattle.hex_image.specs.Lines.{has_right_count, word_in};
ghost use Rattle.hex_image.specs.Reading.{IsRecordOf, IsRecordOfBytes, IsTold, Says, own_fault};

use crate::fault::HexFault;
use crate::kind::Kind;
use arrayvec::ArrayVec;

/// The most bytes of a record: the count, the address, the kind, 255 bytes of content, and the checksum.
const MOST_BYTES: usize = 260;

/// The most bytes of a record's content.
const MOST_CONTENT: usize = 255;

/// What a line says.
#[derive(Drop)]
pub(crate) enum Line {
    /// Nothing: the line is empty.
    Blank,
    /// Bytes at an address, which counts from the base.
    Data {
        address: u16,
        content: ArrayVec<u8, MOST_CONTENT>,
    },
    /// That the text ends.
    EndOfFile,
    /// The base of the addresses behind it, in bytes.
    Base(u32),
    /// A start address, which isn't used.
    StartAddress,
    /// Nothing, since it has a fault.
    Faulty(HexFault),
}

/// What a line says, which stands without its line end.
pub(crate) fn judge(line: &[u8]) -> Line
    ensures told { IsTold line.now result }
{
    if line.is_empty() {
        return Line::Blank;
    }
    match read_record(line) {
        Ok(record) => record,
        Err(fault) => Line::Faulty(fault),
    }
}

/// What the record of a line says, or the first fault of the line.
fn read_record(line: &[u8]) -> Result<Line, HexFault>
    ensures answer { MatchResult result (IsRecordOf line.now) (λ fault. own_fault line.now ≡ Some fault) }
{
    let digits = digits_of(line)?;
    from_digits(digits)
}

/// What stands behind the colon of a line, if there is a colon and all the rest are digits.
fn digits_of(line: &[u8]) -> Result<&[u8], HexFault>
    ensures found { IfOk result (λ digits. (line.now ≡ 58 ∷ digits.now)
        × AllPass is_hex_digit digits.now) }
    ensures fault { IfErr result (λ fault. own_fault line.now ≡ Some fault) }
{
    let [b':', digits @ ..] = line else {
        return Err(HexFault::Start);
    };
    if are_hex_digits(digits) {
        Ok(digits)
    } else {
        Err(HexFault::Digit)
    }
}

/// Whether all the bytes are digits, in either case.
fn are_hex_digits(bytes: &[u8]) -> bool
    ensures value { result ≡ list_all is_hex_digit bytes.now }
{
    bytes.iter().all(|byte| byte.is_ascii_hexdigit())
}

/// What the record says that these digits spell behind a colon.
fn from_digits(digits: &[u8]) -> Result<Line, HexFault>
    requires { AllPass is_hex_digit digits.now }
    ensures answer { MatchResult result (IsRecordOf (58 ∷ digits.now)) (λ fault. own_fault (58 ∷ digits.now) ≡ Some fault) }
{
    let count = digits.len() / 2;
    let mut buffer = [0; MOST_BYTES];
    if count > MOST_BYTES {
        return Err(HexFault::Length);
    }
    if hex::decode_to_slice(digits, &mut buffer[..count]).is_err() {
        return Err(HexFault::Length);
    }
    from_bytes(&buffer[..count])
}

/// What a record of these bytes says.
fn from_bytes(bytes: &[u8]) -> Result<Line, HexFault>
    ensures answer { IsRecordOfBytes bytes.now result }
{
    let [count, high, low, code, content @ .., _checksum] = bytes else {
        return Err(HexFault::Length);
    };
    if content.len() != usize::from(*count) {
        return Err(HexFault::Length);
    }
    if byte_sum(bytes) != 0 {
        return Err(HexFault::Checksum);
    }
    match Kind::with_count(*code, *count) {
        Some(kind) => Ok(meaning(kind, u16::from_be_bytes([*high, *low]), content)),
        None => Err(HexFault::Kind),
    }
}

/// The sum modulo 256.
pub(crate) fn byte_sum(bytes: &[u8]) -> u8
    ensures value { result ≡ sum bytes.now % 256 }
{
    let mut total: u8 = 0;
    for byte in bytes {
        total = total.wrapping_add(*byte);
    }
    total
}

/// What a record of this kind says.
fn meaning(kind: Kind, address: u16, content: &[u8]) -> Line
    requires short { length content.now ≤ 255 }
    requires count { has_right_count (code_of kind) (length content.now) ≡ true }
    ensures says { Says (code_of kind) address content.now result }
{
    match kind {
        Kind::Data => Line::Data {
            address,
            content: copy_of(content),
        },
        Kind::EndOfFile => Line::EndOfFile,
        Kind::ExtendedSegmentAddress => Line::Base(16 * word_in(content)),
        Kind::ExtendedLinearAddress => Line::Base(65_536 * word_in(content)),
        Kind::StartSegmentAddress | Kind::StartLinearAddress => Line::StartAddress,
    }
}

/// The number of two bytes, the high one first.
fn word_in(content: &[u8]) -> u32
    requires { length content.now ≡ 2 }
    ensures value { result ≡ word_in content.now }
    ensures small { result < 65536 }
{
    u32::from(u16::from_be_bytes([content[0], content[1]]))
}

/// The content in a place of its own.
fn copy_of(content: &[u8]) -> ArrayVec<u8, MOST_CONTENT>
    requires { length content.now ≤ 255 }
    ensures items { result.items ≡ content.now }
{
    let mut copy = ArrayVec::new();
    let _fits = copy.try_extend_from_slice(content);
    copy
}
