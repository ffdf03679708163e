//! What several programs come to in turn, without a mote.
//!
//! `specs/Turns` is the tasks in turn, each over a flat memory of its own, from one try to the next until all have
//! ended; [`tasks_are_apart`] and [`every_task_ends`] are its laws. `specs/Quarters` is a task's part of the image, and
//! `specs/Reset` the programs of an image's tasks at reset. `proofs/Crossings` is what a step does to a program's
//! crossings, and which steps are checkpoints (`specs/Checkpoints`). docs/TASKS.md tells all of it. How a mote runs
//! several tasks is crate `tk_tasks`.
#![tactic(auto)]

ghost use Rattle.std.specs.Prelude.{◌≡◌, ℕ, slice_get, Some, None};
ghost use Rattle.task_turns.specs.Turns.{Turns, Player, IsApartFromOthers, HaveEnded, turns};

/// What a task tells, when and how it ends, and what it then holds is that of its program's own run, whatever the
/// others are, for any number of tries.
pub fn tasks_are_apart()
    ensures apart { (t : Turns) → (n : ℕ) → IsApartFromOthers t n }
{}

/// Every task ends, where the one that is stepped first has not ended.
pub fn every_task_ends()
    ensures ends { (t : Turns) → (p : Player) → slice_get t.players t.running ≡ Some p → p.end ≡ None → HaveEnded (turns t).turns }
{}
