//! What is counted of all tasks.

ghost use Rattle.std.specs.Prelude.{◌≡◌, ◌-◌, ◌<◌, ◌≤◌, ◌^◌, ℕ, Some, length, slice_get, sum_by};
ghost use Rattle.parked_tasks.specs.declared.task.Task.{Task as TaskOf};
ghost use Rattle.parked_tasks.specs.Counting.{arrivals_made};

use crate::task::Task;

/// What the tasks on a mote have done together: their plain steps, and their services.
#[derive(Drop)]
pub struct Counts {
    pub natural: u64,
    pub entries: u64,
}

/// The counts of all tasks.
pub fn counts_of(tasks: &[Task]) -> Counts
    requires few { length tasks.now ≤ 4 }
    requires natural { (i : ℕ) → (task : TaskOf) → slice_get tasks.now i ≡ Some task → task.natural ≤ 10 ^ 14 }
    requires entries { (i : ℕ) → (task : TaskOf) → slice_get tasks.now i ≡ Some task → task.entries ≤ 10 ^ 14 }
    ensures natural { result.natural ≡ sum_by (λ task. task.natural) tasks.now }
    ensures entries { result.entries ≡ sum_by (λ task. task.entries) tasks.now }
{
    let mut natural = 0;
    let mut entries = 0;
    'tasks: for i in 0..tasks.len() {
        natural += tasks[i].natural;
        entries += tasks[i].entries;
    }
    Counts { natural, entries }
}

/// How many arrivals a task may have made.
fn arrivals(task: &Task) -> u64
    requires steps { task.now.steps ≤ 10 ^ 12 }
    ensures value { result ≡ arrivals_made task.now }
{
    if task.owed.is_some() {
        task.steps
    } else {
        task.steps + 1
    }
}

/// How many arrivals all tasks but the running one may have made.
pub fn arrivals_of_others(tasks: &[Task], running: u8) -> u64
    requires few { length tasks.now ≤ 4 }
    requires steps { (i : ℕ) → (task : TaskOf) → slice_get tasks.now i ≡ Some task → task.steps ≤ 10 ^ 12 }
    requires one_runs { running < length tasks.now }
    ensures value { (task : TaskOf) → slice_get tasks.now running ≡ Some task → result ≡ sum_by arrivals_made tasks.now - arrivals_made task }
{
    let mut sum = 0;
    'tasks: for i in 0..tasks.len() {
        sum += arrivals(&tasks[i]);
    }
    sum - arrivals(&tasks[running as usize])
}
