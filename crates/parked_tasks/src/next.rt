//! The next task in turn.

ghost use Rattle.std.specs.Prelude.{◌≡◌, ◌-◌, ◌<◌, ◌≤◌, not, map, length};
ghost use Rattle.std.specs.List.{range_with_len, find};
ghost use Rattle.task_turns.specs.Turns.{has_ended, next_in};
ghost use Rattle.parked_tasks.specs.Ends.{flat_end_of};

use crate::task::Task;

/// The next task in turn that has not ended, beside the one that runs.
pub(crate) fn next_going(tasks: &[Task], running: u8) -> Option<u8>
    requires few { length tasks.now ≤ 4 }
    requires one_runs { running < length tasks.now }
    ensures next { result ≡ next_in running (length tasks.now) (map (λ task. flat_end_of task.end) tasks.now) }
{
    let count = tasks.len() as u8;
    match first_going(tasks, running + 1, count) {
        Some(next) => Some(next),
        None => first_going(tasks, 0, running),
    }
}

/// The first of these tasks that has not ended.
fn first_going(tasks: &[Task], from: u8, to: u8) -> Option<u8>
    requires inside { to ≤ length tasks.now }
    ensures first { result ≡ find (λ task. not (has_ended (map (λ task. flat_end_of task.end) tasks.now) task)) (range_with_len from (to - from)) }
{
    'tasks: for task in from..to {
        if tasks[task as usize].end.is_none() {
            return Some(task);
        }
    }
    None
}
