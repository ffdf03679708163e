//! That the program stands at one of some addresses. Each of them is marked in front of a run, so that one look tells it of a
//! step, however many they are.
ghost use Rattle.std.specs.Prelude.{◌≡◌, ◌<◌, ◌==◌, if◌then◌else◌, ℕ, [], length, slice_index};
ghost use Rattle.byte_streams.specs.Faults.{HasCause};
ghost use Rattle.printed_text.specs.Gathering.{Gathers};
ghost use Rattle.tk_watch.specs.Kept.{AreMarked};
ghost use Rattle.tk_watch.specs.VisitsText.{visit_line as visit_line_of};

use crate::view::Places;
use byte_streams::{Failed, Sink};
use printed_text::{Gathered, add};
use text_lines::{Text, push, push_address, push_number, whole};

/// Marks addresses, where none is marked.
pub(crate) fn mark(places: &Places, marks: &mut [u64])
    requires size { length marks.old ≡ 65536 }
    requires unmarked { (a : ℕ) → a < 65536 → slice_index marks.old a ≡ 0 }
    ensures marked { AreMarked places.now.items marks.new }
    ensures size { length marks.new ≡ 65536 }
{
    let mut rest = places.as_slice();
    'places: while let [place, later @ ..] = rest {
        marks[*place as usize] = 1;
        rest = later;
    }
}

/// Adds that the program stands at an address after so many steps, where that is marked.
#[inline(always)]
pub(crate) fn tell_visit<K: Sink>(
    marks: &[u64],
    step: u64,
    at: u16,
    gathered: &mut Gathered,
    out: &mut K,
) -> Result<(), Failed>
    requires size { length marks.now ≡ 65536 }
    ensures text { Gathers gathered.old.items gathered.new.items (K.taken out.old) (K.taken out.new) result (if slice_index marks.now at == 1 then visit_line_of step at else []) }
    ensures cause { HasCause (K.faults out.old) (K.faults out.new) result }
{
    if marks[at as usize] == 1 {
        add(&visit_line(step, at), gathered, out)
    } else {
        Ok(())
    }
}

/// The program stands at an address after so many steps.
#[tactic(auto, unfolding(crate::specs::VisitsText::visit_line))]
fn visit_line(step: u64, at: u16) -> Text
    ensures text { result.items ≡ visit_line_of step at }
{
    let mut text = whole(b"step ");
    push_number(&mut text, step);
    push(&mut text, b" ");
    push_address(&mut text, at);
    push(&mut text, b"\n");
    text
}
