//! The line of a restart.
ghost use Rattle.std.specs.Prelude.{◌≡◌};
ghost use Rattle.printed_text.specs.RestartLines.{restart_text};

use text_lines::{Text, push, push_number};

/// The line of a restart: how many pages were kept, and how many were dropped.
#[tactic(auto, unfolding(crate::specs::RestartLines::restart_text))]
pub fn restart_line(kept: u16, dropped: u16) -> Text
    ensures text { result.items ≡ restart_text kept dropped }
{
    let mut text = Text::new();
    push(&mut text, b"restart kept ");
    push_number(&mut text, u64::from(kept));
    push(&mut text, b" dropped ");
    push_number(&mut text, u64::from(dropped));
    push(&mut text, b"\n");
    text
}
