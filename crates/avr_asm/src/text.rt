//! Parts of a line.

ghost use Rattle.std.specs.Prelude.{◌≡◌, ◌≤◌, length, map};
ghost use Rattle.avr_asm.specs.Cuts.{is_blank as is_blank_test, before, skip_front, skip_end, trimmed as trimmed_of, found_in as found_beside, front_word as front_word_of, behind_word};

use text_lines::split_once;

/// Whether the byte is a space or a tab.
fn is_blank(byte: u8) -> bool
    ensures value { result ≡ is_blank_test byte }
{
    byte == b' ' || byte == b'\t'
}

/// The text before a byte's first position; all of it where the byte doesn't stand in it.
pub(crate) fn up_to(text: &[u8], byte: u8) -> &[u8]
    ensures value { result.now ≡ before byte text.now }
{
    match split_once(text, byte) {
        Some((front, _)) => front,
        None => text,
    }
}

/// The text without blanks around it.
pub(crate) fn trimmed(text: &[u8]) -> &[u8]
    ensures value { result.now ≡ trimmed_of text.now }
{
    without_end(without_front(text))
}

/// The text without blanks at its front.
fn without_front(text: &[u8]) -> &[u8]
    ensures value { result.now ≡ skip_front text.now }
{
    let mut rest = text;
    while let [first, behind @ ..] = rest {
        if !is_blank(*first) {
            return rest;
        }
        rest = behind;
    }
    rest
}

/// The text without blanks at its end.
fn without_end(text: &[u8]) -> &[u8]
    ensures value { result.now ≡ skip_end text.now }
{
    let mut rest = text;
    while let [front @ .., last] = rest {
        if !is_blank(*last) {
            return rest;
        }
        rest = front;
    }
    rest
}

/// What stands beside a text in a table.
pub(crate) fn found_in<A: Copy>(rows: &[(&str, A)], text: &[u8]) -> Option<A>
    ensures value { result ≡ found_beside (map (λ row. (row.0.now, row.1)) rows.now) text.now }
{
    let mut rest = rows;
    while let [(name, meaning), behind @ ..] = rest {
        if name.as_bytes() == text {
            return Some(*meaning);
        }
        rest = behind;
    }
    None
}

/// The text before its first blank, and the text from it on.
#[tactic(auto, using(crate::proofs::CutLaws::taken_word, crate::proofs::CutLaws::dropped_word))]
pub(crate) fn front_word(text: &[u8]) -> (&[u8], &[u8])
    ensures front { result.0.now ≡ front_word_of text.now }
    ensures rest { result.1.now ≡ behind_word text.now }
{
    let n = word_len(text);
    (&text[..n], &text[n..])
}

/// How many bytes stand before the first blank.
fn word_len(text: &[u8]) -> usize
    ensures value { result ≡ length (front_word_of text.now) }
    ensures bound { result ≤ length text.now }
{
    for (i, byte) in text.iter().enumerate() {
        if is_blank(*byte) {
            return i;
        }
    }
    text.len()
}
