//! The mote and the tasks at boot.

ghost use Rattle.std.specs.Prelude.{◌≡◌, ◌≤◌, ◌∷◌, ◌++◌, [], List, All, None, IfOk, length};
ghost use Rattle.flash_words.specs.Memory.{IsWhole};
ghost use Rattle.input_script.specs.Script.{Schedule};
ghost use Rattle.task_input.specs.Images.{task_words};
ghost use Rattle.parked_tasks.specs.Made.{AreBooted};
ghost use Rattle.parked_tasks.specs.AtBoot.{at_start, kernel_at_boot, waiting_from};

use crate::parked::Parked;
use crate::task::{Task, quarter_of};
use base::NoMemory;
use flash_words::Layout;
use hex_image::Image;
use input_script::Script;
use kernel_entry::Kernel;
use mote_core::Mote;
use std::alloc::Global;
use task_input::task_image;

/// What stands on a mote at boot.
#[derive(Drop)]
pub struct Booted {
    /// The mote, as task 0 has it.
    pub kernel: Kernel,
    pub tasks: Vec<Task>,
}

/// The mote and the tasks of an image at boot, one for each script. Each may use this many swap slots, and its program
/// stands in its quarter of the image.
pub fn boot_tasks(
    alloc: Global,
    image: &Image,
    scripts: Vec<Script>,
    quantum: u8,
    swap: u8,
) -> Result<Booted, NoMemory>
    requires tasks { (1 ≤ length scripts.items) × (length scripts.items ≤ 4) }
    requires unfailing { All (λ script. script.failing ≡ []) scripts.items }
    requires swap { swap ≤ 62 }
    ensures booted { (first : Schedule) → (others : List Schedule) → scripts.items ≡ first ∷ others
        → IfOk result (λ booted. AreBooted image.now first others quantum swap booted.kernel booted.tasks.items) }
    ensures whole { IfOk result (λ booted. IsWhole booted.kernel.mote.flash) }
{
    let mut scripts = scripts;
    let count = scripts.len() as u8;
    let first = scripts.remove(0);
    let tasks = tasks_at_boot(alloc, scripts, quantum, swap)?;
    let kernel = kernel_at_boot(alloc, image, count, first, quantum, swap)?;
    Ok(Booted { kernel, tasks })
}

/// The mote as task 0 has it at boot, with its script and this many swap slots. Flash has the quarters of so many tasks,
/// and no operation on it is to fail.
fn kernel_at_boot(
    alloc: Global,
    image: &Image,
    count: u8,
    script: Script,
    quantum: u8,
    swap: u8,
) -> Result<Kernel, NoMemory>
    requires tasks { count ≤ 4 }
    requires unfailing { script.failing ≡ [] }
    requires swap { swap ≤ 62 }
    ensures booted { IfOk result (λ kernel. kernel ≡ kernel_at_boot (task_words count image.now) script quantum swap) }
    ensures whole { IfOk result (λ kernel. IsWhole kernel.mote.flash) }
{
    let whole = task_image(alloc, image, count)?;
    let mut mote = Mote::new(alloc, whole.words(), script, swap)?;
    mote.sram.set_count(quantum);
    Ok(Kernel {
        mote,
        layout: Layout::of(whole.len_words()),
        part: quarter_of(0),
        quantum,
    })
}

/// The tasks at boot, of which task 0 has the mote, and the others are parked, each with its script of these.
fn tasks_at_boot(
    alloc: Global,
    scripts: Vec<Script>,
    quantum: u8,
    swap: u8,
) -> Result<Vec<Task>, NoMemory>
    requires few { length scripts.items ≤ 3 }
    requires swap { swap ≤ 62 }
    ensures booted { IfOk result (λ tasks. tasks.items ≡ at_start 0 None ∷ waiting_from 1 scripts.items quantum swap) }
{
    let mut scripts = scripts;
    let behind = scripts.len() as u8 + 1;
    let mut tasks = Vec::new(alloc);
    add(Task::at_start(0, None), &mut tasks)?;
    'waiting: for task in 1..behind {
        let parked = Parked::at_boot(alloc, scripts.remove(0), quantum, swap)?;
        add(Task::at_start(task, Some(parked)), &mut tasks)?;
    }
    Ok(tasks)
}

/// Adds a task behind the others.
fn add(task: Task, tasks: &mut Vec<Task>) -> Result<(), NoMemory>
    ensures added { IfOk result (λ done. tasks.new.items ≡ tasks.old.items ++ task ∷ []) }
{
    match tasks.push(task) {
        Ok(()) => Ok(()),
        Err(_) => Err(NoMemory),
    }
}
