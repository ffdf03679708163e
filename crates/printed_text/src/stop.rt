//! The line that tells how a run ended.
ghost use Rattle.std.specs.Prelude.{◌≡◌, ◌+◌, ◌≤◌, ◌++◌, codes, decimal, length};
ghost use Rattle.arrayvec.specs.ArrayVec.{array_vec_len};
ghost use Rattle.text_lines.specs.Pieces.{address_text};
ghost use Rattle.printed_text.specs.StopLines.{end_line, how_text};

use kernel_entry::{End, Stop};
use text_lines::{Text, push, push_address, push_number, whole};

/// The stop line: how the run ended, and after how many steps and checkpoints.
#[tactic(auto, unfolding(crate::specs::StopLines::end_line))]
pub fn stop_line(end: End, steps: u64, checkpoints: u64) -> Text
    ensures text { result.items ≡ end_line end steps checkpoints }
    ensures short { array_vec_len result ≤ 94 }
{
    let mut text = how(end);
    push(&mut text, b" steps ");
    push_number(&mut text, steps);
    push(&mut text, b" checkpoints ");
    push_number(&mut text, checkpoints);
    push(&mut text, b"\n");
    text
}

/// How the run ended.
fn how(end: End) -> Text
    ensures text { result.items ≡ how_text end }
    ensures short { array_vec_len result ≤ 33 }
{
    match end {
        End::Spent => whole(b"spent"),
        End::Wild(at) => at_address(b"fault wild ", at),
        End::Flash(op) => with_number(b"flash fault ", op),
        End::Stopped(Stop::Halted(at)) => at_address(b"halted ", at),
        End::Stopped(Stop::Asleep(at)) => at_address(b"asleep ", at),
        End::Stopped(Stop::Illegal(at)) => at_address(b"fault illegal ", at),
        End::Stopped(Stop::SelfProgram(at)) => at_address(b"fault selfprogram ", at),
        End::Stopped(Stop::Read(at, word)) => with_address(b"fault read ", at, word),
        End::Stopped(Stop::Io(at, address)) => with_address(b"fault io ", at, address),
        End::Stopped(Stop::Stack(at, address)) => with_address(b"fault stack ", at, address),
        End::Stopped(Stop::SwapFull(at, address)) => with_address(b"fault swap ", at, address),
    }
}

/// A word for an end, and a number.
fn with_number(word: &[u8], number: u64) -> Text
    requires word { length word.now ≤ 12 }
    ensures text { result.items ≡ word.now ++ decimal number }
    ensures short { array_vec_len result ≤ length word.now + 20 }
{
    let mut text = whole(word);
    push_number(&mut text, number);
    text
}

/// A word for an end, and the original address of it.
fn at_address(word: &[u8], at: u16) -> Text
    requires word { length word.now ≤ 20 }
    ensures text { result.items ≡ word.now ++ address_text at }
    ensures short { array_vec_len result ≡ length word.now + 6 }
{
    let mut text = whole(word);
    push_address(&mut text, at);
    text
}

/// A word for an end, the original address of it, and the data address, or that of a word, that it is about.
fn with_address(word: &[u8], at: u16, address: u16) -> Text
    requires word { length word.now ≤ 12 }
    ensures text { result.items ≡ word.now ++ address_text at ++ codes " address " ++ address_text address }
    ensures short { array_vec_len result ≡ length word.now + 21 }
{
    let mut text = at_address(word, at);
    push(&mut text, b" address ");
    push_address(&mut text, address);
    text
}
