//! The line of a checker's verdict.
ghost use Rattle.std.specs.Prelude.{◌≡◌, ◌≤◌, ◌++◌, decimal, length};
ghost use Rattle.printed_text.specs.Verdicts.{verdict_text};

use pool_check::Verdict;
use text_lines::{Text, push, push_number, whole};

/// The line of a checker's verdict.
#[tactic(auto, unfolding(crate::specs::Verdicts::verdict_text))]
pub fn verdict_text(verdict: Verdict) -> Text
    ensures text { result.items ≡ verdict_text verdict }
{
    match verdict {
        Verdict::Faithful { pages } => numbered(b"faithful pages ", pages, b"\n"),
        Verdict::Form { page } => numbered(b"not faithful page ", page, b" form\n"),
        Verdict::Links { page } => numbered(b"not faithful page ", page, b" links\n"),
    }
}

/// A line with a number in it.
fn numbered(front: &[u8], number: u16, behind: &[u8]) -> Text
    requires front { length front.now ≤ 20 }
    requires behind { length behind.now ≤ 20 }
    ensures text { result.items ≡ front.now ++ decimal number ++ behind.now }
{
    let mut text = whole(front);
    push_number(&mut text, u64::from(number));
    push(&mut text, behind);
    text
}
