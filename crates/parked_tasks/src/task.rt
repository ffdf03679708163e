//! A task, and how it ended.

ghost use Rattle.std.specs.Prelude.{◌≡◌, ◌<◌};
ghost use Rattle.task_turns.specs.Quarters.{quarter_part};
ghost use Rattle.parked_tasks.specs.AtBoot.{at_start};

use crate::parked::Parked;
use flat_machine::Part;
use kernel_entry::Stop;
use task_input::QUARTER;

/// How a task ended.
#[derive(Clone, Copy)]
pub enum TaskEnd {
    /// All steps that it may do are done.
    Spent,
    /// Its program stopped.
    Stopped(Stop),
    /// It went to this address, which is not in its quarter.
    Wild(u16),
    /// The instruction at this address would read this word, which is not in its quarter.
    Read(u16, u16),
}

/// A task: what is parked of it, and how far it has come.
#[derive(Drop)]
pub struct Task {
    /// Its parts of the mote, unless it is the one that has the mote.
    pub parked: Option<Parked>,
    /// The original address where its next step begins, or where it stopped.
    pub at: u16,
    /// The address of the arrival that is to be made before its next step.
    pub owed: Option<u16>,
    /// Whether an interrupt may be taken before that step.
    pub due: bool,
    /// How it ended, once it has.
    pub end: Option<TaskEnd>,
    /// Steps of its program.
    pub steps: u64,
    /// Steps that went backward, stayed, or left their page of 128 words.
    pub crossings: u64,
    /// Plain AVR steps in code pages.
    pub natural: u64,
    /// Kernel services.
    pub entries: u64,
    /// Plain steps after the last service.
    pub since: u64,
    /// The greatest value that `since` had.
    pub longest: u64,
}

/// The words of the image that a task has for its own, and out of which it may not read.
pub fn quarter_of(task: u8) -> Part
    requires { task < 4 }
    ensures value { result ≡ quarter_part task }
{
    Part {
        first: QUARTER * task as u16,
        count: QUARTER,
        shut: true,
    }
}

impl Task {
    /// A task that has done nothing, and owes an arrival at the first word of its quarter.
    pub(crate) fn at_start(task: u8, parked: Option<Parked>) -> Task
        requires { task < 4 }
        ensures value { result ≡ at_start task parked }
    {
        let first = QUARTER * task as u16;
        Task {
            parked,
            at: first,
            owed: Some(first),
            due: false,
            end: None,
            steps: 0,
            crossings: 0,
            natural: 0,
            entries: 0,
            since: 0,
            longest: 0,
        }
    }
}
