//! The change of the task that runs.

ghost use Rattle.std.specs.Prelude.{◌≡◌, ℕ, ◌<◌, ◌^◌};
ghost use Rattle.task_turns.specs.Turns.{changed};
ghost use Rattle.tk_tasks.specs.States.{AreSound, turns_of};
ghost use Rattle.tk_tasks.specs.Changes.{changed_tasks, IsFree};

use crate::tasks::Tasks;
use parked_tasks::give_on;

impl Tasks {
    /// Gives the mote to the next task in turn that has not ended. Where there is no other, the same goes on.
    pub(crate) fn change(&mut self)
        requires sound { AreSound self.old }
        requires free { IsFree self.old }
        requires room { self.old.switches < 2 ^ 63 }
        ensures changed { self.new ≡ changed_tasks self.old }
        ensures sound { AreSound self.new }
        ensures turns { (n : ℕ) → turns_of n self.new ≡ changed (turns_of n self.old) }
    {
        if let Some(next) = give_on(&mut self.kernel, &mut self.tasks, self.running) {
            self.running = next;
            self.stub = None;
            self.switches += 1;
        }
    }
}
