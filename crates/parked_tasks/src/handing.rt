//! The mote goes from one task to another.

ghost use Rattle.std.specs.Prelude.{◌≡◌, ◌<◌, ◌≤◌, ℕ, Some, None, map, length, slice_get};
ghost use Rattle.task_turns.specs.Turns.{next_in};
ghost use Rattle.parked_tasks.specs.declared.parked.Parked.{Parked as ParkedOf};
ghost use Rattle.parked_tasks.specs.Ends.{flat_end_of};
ghost use Rattle.parked_tasks.specs.Parking.{taken_up};
ghost use Rattle.parked_tasks.specs.Handing.{parked_by, given_to_task, handed_over};

use crate::next::next_going;
use crate::task::{Task, quarter_of};
use kernel_entry::Kernel;
use mote_core::Mote;

/// Gives the mote to the next task in turn that has not ended, and tells which that is. Where there is no other, the same
/// goes on.
pub fn give_on(kernel: &mut Kernel, tasks: &mut [Task], running: u8) -> Option<u8>
    requires few { length tasks.old ≤ 4 }
    requires one_runs { running < length tasks.old }
    ensures next { result ≡ next_in running (length tasks.old) (map (λ task. flat_end_of task.end) tasks.old) }
    ensures none { result ≡ None → (kernel.new ≡ kernel.old) × (tasks.new ≡ tasks.old) }
    ensures given { (next : ℕ) → (parked : ParkedOf) → result ≡ Some next → parked_by (slice_get tasks.old next) ≡ Some parked
        → (kernel.new ≡ given_to_task kernel.old next parked) × (tasks.new ≡ handed_over tasks.old running next kernel.old.mote) }
{
    let next = next_going(tasks, running);
    if let Some(next) = next {
        hand_over(&mut kernel.mote, tasks, running, next);
        kernel.part = quarter_of(next);
    }
    next
}

/// Parks the task that has the mote, and gives the mote to the next one, of which its parts are parked. Where nothing is
/// parked of that, no task changes.
fn hand_over(mote: &mut Mote, tasks: &mut [Task], running: u8, next: u8)
    requires below { next < length tasks.old }
    requires one_runs { running < length tasks.old }
    ensures none { parked_by (slice_get tasks.old next) ≡ None → (mote.new ≡ mote.old) × (tasks.new ≡ tasks.old) }
    ensures given { (parked : ParkedOf) → parked_by (slice_get tasks.old next) ≡ Some parked
        → (mote.new ≡ taken_up mote.old parked) × (tasks.new ≡ handed_over tasks.old running next mote.old) }
{
    if let Some(mut parked) = tasks[next as usize].parked.take() {
        parked.exchange(mote);
        tasks[running as usize].parked = Some(parked);
    }
}
