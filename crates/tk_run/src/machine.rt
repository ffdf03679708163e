//! The machine: a mote that runs a program, how far it has come, and what was counted.

ghost use Rattle.std.specs.Prelude.{◌≡◌, ◌≤◌, ◌+◌, ◌-◌, ◌^◌, false, length, IfOk};
ghost use Rattle.byte_streams.specs.Faults.{HasCause};
ghost use Rattle.tk_run.specs.InTurn.{GoOutInTurn};
ghost use Rattle.tk_run.specs.Running.{HasAdvanced};
ghost use Rattle.flash_words.specs.Layouts.{layout_of};
ghost use Rattle.nat_page.specs.Faithful.{IsFaithful};
ghost use Rattle.swap_store.specs.Slots.{zero_slots};
ghost use Rattle.program_steps.specs.Ready.{IsKept};
ghost use Rattle.program_steps.specs.Wholes.{whole};
ghost use Rattle.tk_run.specs.Booted.{begun as begun_by, booted, started_over};

use crate::run::run_on;
use crate::{End, Owed};
use branch_bridge::Torn;
use byte_streams::{Failed, NoMemory, Sink};
use flash_model::{Flash, Layout};
use flat_machine::Part;
use hex_image::Image;
use input_script::Script;
use kernel_entry::Kernel;
use mote_core::Mote;
use nat_page::pages_in_use;
use page_cursor::Cursor;
use program_steps::Progress;
use std::alloc::Global;
use std::marker::Model;
use swap_store::Swap;

/// How a machine is to run its program.
#[derive(Clone, Copy)]
pub struct Options {
    /// Every so many crossings is a checkpoint; at least 1.
    pub quantum: u8,
    /// The number of swap slots; at most 251.
    pub swap: u8,
}

/// A mote that runs a program. Its type keeps it sound, and ready to go on where it isn't broken and
/// has no end.
#[derive(Drop)]
pub struct Machine {
    /// The mote, the layout of its flash, the program's part of the image, which is all of it, and the quantum.
    pub kernel: Kernel,
    /// The original address where the next step begins, or where the program stopped.
    pub at: u16,
    /// The arrival that is to be made before the next step.
    pub owed: Option<Owed>,
    /// How the program ended, once it has.
    pub end: Option<End>,
    /// Whether an interrupt may be taken before the next step: the last was a checkpoint, or a SLEEP that an interrupt ended.
    pub due: bool,
    /// The page that a refused operation on flash has left torn: it is blank, and lacks these words.
    pub torn: Option<Torn>,
    /// Whether a device line could not be put: then the machine goes no further.
    pub broken: bool,
    /// Steps of the program.
    pub steps: u64,
    /// Steps that went backward, stayed, or left their page of 128 words.
    pub crossings: u64,
    /// Plain AVR steps in code pages.
    pub natural: u64,
    /// Kernel services.
    pub entries: u64,
    /// Code pages that were made, and those that the pool had when the run began.
    pub pages: u64,
    /// Plain steps after the last service.
    pub since: u64,
    /// The greatest value that `since` had.
    pub longest: u64,
    /// How many of `pages` the pool had when the run began.
    pub began: u64,
    /// What its runs know of places, on the heap. A machine that is made over a flash takes no memory for it: unless it is
    /// given one, each of its runs makes one on the stack.
    cursor: Option<Box<Cursor>>,
}

impl Model for Machine {
    ghost use Rattle.program_steps.specs.Machines.{Machine as MachineValue};
    ghost use Rattle.program_steps.specs.Ready.{IsKept};

    ghost Value = { MachineValue };

    ghost use Rattle.tk_run.specs.Held.{value_of};

    ghost view = { value_of };

    ghost invariant = { λ m. IsKept (value_of m) };
}

impl Machine {
    /// A machine with the image in flash that has done nothing yet, and owes an arrival at 0.
    pub fn boot(
        alloc: Global,
        image: &Image,
        script: Script,
        options: Options,
    ) -> Result<Machine, NoMemory>
        requires quantum { 1 ≤ options.quantum }
        requires swap { options.swap ≤ 251 }
        ensures booted { IfOk result (λ m. m ≡ booted image.now script options.quantum options.swap) }
        ensures kept { IfOk result (λ m. IsKept m) }
    {
        let cursor = Cursor::boxed(alloc)?;
        let mut mote = Mote::new(alloc, image.words(), script, options.swap)?;
        mote.sram.set_count(options.quantum);
        let layout = Layout::of(image.len_words());
        Ok(Machine::begun(mote, layout, options.quantum, 0, Some(cursor)))
    }

    /// A machine over a flash whose pool may have pages, which are counted; it has done nothing yet, and owes an arrival
    /// at 0. Operations on flash are counted from 1, and none is to fail: of the script the events alone are taken.
    pub fn over(flash: Flash, image: &Image, script: Script, swap: Swap, quantum: u8) -> Machine
        requires faithful { IsFaithful (layout_of (length image.now)) image.now flash.words }
        requires quantum { 1 ≤ quantum }
        requires swap { swap ≡ zero_slots (length swap) }
        requires slots { length swap ≤ 251 }
        ensures over { result ≡ started_over image.now flash script quantum (length swap) }
        ensures kept { IsKept result }
    {
        let layout = Layout::of(image.len_words());
        let pages = pages_in_use(&flash, &layout);
        let mut flash = flash;
        flash.renew();
        let mut mote = Mote::over(flash, script, swap);
        mote.sram.set_count(quantum);
        Machine::begun(mote, layout, quantum, u64::from(pages), None)
    }

    /// A machine of this mote that has done nothing yet, whose program has the whole image, and which has these pages in
    /// its pool.
    fn begun(
        mote: Mote,
        layout: Layout,
        quantum: u8,
        pages: u64,
        cursor: Option<Box<Cursor>>,
    ) -> Machine
        requires kept { IsKept (begun_by mote layout quantum pages) }
        ensures begun { result ≡ begun_by mote layout quantum pages }
    {
        let part = Part {
            first: 0,
            count: layout.image_words,
            shut: false,
        };
        Machine {
            kernel: Kernel {
                mote,
                layout,
                part,
                quantum,
            },
            at: 0,
            owed: Some(Owed {
                target: 0,
                stub: None,
            }),
            end: None,
            due: false,
            torn: None,
            broken: false,
            steps: 0,
            crossings: 0,
            natural: 0,
            entries: 0,
            pages,
            since: 0,
            longest: 0,
            began: pages,
            cursor,
        }
    }

    /// All of it but the kernel, as the steps of crate `program_steps` take it.
    pub fn progress(&self) -> Progress
        ensures whole { whole self.now.kernel result ≡ self.now }
    {
        Progress {
            at: self.at,
            owed: self.owed,
            end: self.end,
            due: self.due,
            torn: self.torn,
            broken: self.broken,
            steps: self.steps,
            crossings: self.crossings,
            before: self.natural - self.since,
            entries: self.entries,
            pages: self.pages,
            since: self.since,
            longest: self.longest,
            began: self.began,
            others: 0,
            line: None,
        }
    }

    /// Gives away what its runs know of places, so that another machine may have the room.
    pub fn take_cursor(&mut self) -> Option<Box<Cursor>>
        ensures same { self.new ≡ self.old }
    {
        self.cursor.take()
    }

    /// Keeps this for what its runs know of places.
    pub fn keep_cursor(&mut self, cursor: Option<Box<Cursor>>)
        ensures same { self.new ≡ self.old }
    {
        self.cursor = cursor;
    }

    /// Does up to n further steps, and puts their device lines to `out`: where 4,096 bytes were gathered,
    /// each 65,536 steps, and before it answers.
    ///
    /// An end is kept: a later call answers it again, writes nothing and changes nothing. Where lines
    /// could not be put the machine is broken, and may not be run on.
    pub fn advance<K: Sink>(&mut self, n: u64, out: &mut K) -> Result<End, Failed>
        requires running { self.old.broken ≡ false }
        requires steps { self.old.steps + n ≤ 10 ^ 12 }
        ensures advanced { HasAdvanced self.old self.new n (K.taken out.old) (K.taken out.new) result }
        // At each 65,536 steps there was a value of the sink that had taken the lines of just the steps up to there, and what it
        // has taken at the end begins with these.
        ensures turns { GoOutInTurn K.taken self.old out.old out.new (self.new.steps - self.old.steps) }
        ensures cause { HasCause (K.faults out.old) (K.faults out.new) result }
    {
        let mut p = self.progress();
        let result = run_on(&mut self.kernel, &mut p, &mut self.cursor, n, out);
        self.at = p.at;
        self.owed = p.owed;
        self.end = p.end;
        self.due = p.due;
        self.torn = p.torn;
        self.broken = p.broken;
        self.steps = p.steps;
        self.crossings = p.crossings;
        self.natural = p.before + p.since;
        self.entries = p.entries;
        self.pages = p.pages;
        self.since = p.since;
        self.longest = p.longest.max(p.since);
        self.began = p.began;
        result
    }
}
