//! The last line of a run or of several tasks.
ghost use Rattle.std.specs.Prelude.{◌≡◌, ◌≤◌, ◌++◌, codes, decimal};
ghost use Rattle.arrayvec.specs.ArrayVec.{array_vec_len};
ghost use Rattle.printed_text.specs.Counts.{count_text, tasks_count_text};

use text_lines::{Text, push, push_number, whole};

/// The count line of a run: plain steps, kernel services, and pages made.
#[tactic(auto, unfolding(crate::specs::Counts::count_text))]
pub fn counts(natural: u64, entries: u64, pages: u64) -> Text
    ensures text { result.items ≡ count_text natural entries pages }
{
    let mut text = counted(natural, entries, pages);
    push(&mut text, b"\n");
    text
}

/// The counts, without an end of the line.
fn counted(natural: u64, entries: u64, pages: u64) -> Text
    ensures text { result.items ≡ codes "natural " ++ decimal natural ++ codes " entries " ++ decimal entries ++ codes " pages " ++ decimal pages }
    ensures short { array_vec_len result ≤ 90 }
{
    let mut text = whole(b"natural ");
    push_number(&mut text, natural);
    push(&mut text, b" entries ");
    push_number(&mut text, entries);
    push(&mut text, b" pages ");
    push_number(&mut text, pages);
    text
}

/// The last line of several tasks: the counts of all, and the changes of the task.
#[tactic(auto, unfolding(crate::specs::Counts::tasks_count_text))]
pub fn task_counts(natural: u64, entries: u64, pages: u64, switches: u64) -> Text
    ensures text { result.items ≡ tasks_count_text natural entries pages switches }
{
    let mut text = counted(natural, entries, pages);
    push(&mut text, b" switches ");
    push_number(&mut text, switches);
    push(&mut text, b"\n");
    text
}
