//! The tasks, and their boot.

ghost use Rattle.std.specs.Prelude.{◌≡◌, ◌≤◌, ◌∷◌, ℕ, [], List, All, IfOk, length};
ghost use Rattle.input_script.specs.Script.{Schedule};
ghost use Rattle.task_input.specs.Images.{IsMisplaced};
ghost use Rattle.tk_tasks.specs.States.{AreSound, turns_of};
ghost use Rattle.tk_tasks.specs.Booted.{IsUnstarted, booted};
ghost use Rattle.task_turns.specs.Reset.{turns_at_reset};

use base::NoMemory;
use hex_image::Image;
use input_script::Script;
use kernel_entry::Kernel;
use page_cursor::Cursor;
use parked_tasks::{Task, boot_tasks};
use std::alloc::Global;
use std::marker::Model;

/// Up to four tasks that share a mote, its flash and its pool of code pages.
#[derive(Drop)]
pub struct Tasks {
    /// The mote, as the running task has it, the layout of its flash, and the quantum.
    pub kernel: Kernel,
    /// The task that has the mote.
    pub running: u8,
    /// The stub that asked for the arrival that the running task owes, where one did.
    pub stub: Option<u16>,
    pub tasks: Vec<Task>,
    /// Whether a line could not be put: then no task goes further.
    pub broken: bool,
    /// Plain AVR steps in code pages, of all tasks.
    pub natural: u64,
    /// Kernel services, of all tasks.
    pub entries: u64,
    /// Code pages that were made.
    pub pages: u64,
    /// Changes of the running task.
    pub switches: u64,
    /// What is known of places, on the heap. It is right for flash as it is.
    pub(crate) cursor: Box<Cursor>,
}

impl Model for Tasks {
    ghost use Rattle.tk_tasks.specs.States.{Tasks as TasksValue};

    ghost Value = { TasksValue };

    ghost use Rattle.page_cursor.specs.Cursors.{IsCursor};
    ghost use Rattle.tk_tasks.specs.Held.{value_of};

    ghost view = { value_of };

    ghost invariant = { λ t. IsCursor t.kernel.layout t.kernel.mote.flash.words t.cursor.value };
}

impl Tasks {
    /// The tasks of an image, one for each script, of which none has done anything. Each may use this many swap
    /// slots, and its program stands in its quarter of the image. Not inlined, since what it keeps on the stack is large.
    #[inline(never)]
    pub fn boot(
        alloc: Global,
        image: &Image,
        scripts: Vec<Script>,
        quantum: u8,
        swap: u8,
    ) -> Result<Tasks, NoMemory>
        requires tasks { (1 ≤ length scripts.items) × (length scripts.items ≤ 4) }
        requires unfailing { All (λ script. script.failing ≡ []) scripts.items }
        requires image { (address : ℕ) → ¬ IsMisplaced (length scripts.items) image.now address }
        requires quantum { 1 ≤ quantum }
        requires swap { swap ≤ 62 }
        ensures booted { (first : Schedule) → (others : List Schedule) → scripts.items ≡ first ∷ others
            → IfOk result (λ tasks. tasks ≡ booted image.now first others quantum swap) }
        ensures sound { IfOk result (λ tasks. AreSound tasks) }
        ensures unstarted { IfOk result (λ tasks. IsUnstarted tasks) }
        ensures turns { IfOk result (λ tasks. (n : ℕ) → turns_of n tasks ≡ turns_at_reset image.now scripts.items quantum swap n) }
    {
        let cursor = Cursor::boxed(alloc)?;
        let booted = boot_tasks(alloc, image, scripts, quantum, swap)?;
        Ok(Tasks {
            kernel: booted.kernel,
            running: 0,
            stub: None,
            tasks: booted.tasks,
            broken: false,
            natural: 0,
            entries: 0,
            pages: 0,
            switches: 0,
            cursor,
        })
    }
}
