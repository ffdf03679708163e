//! What a run counts, apart from the kernel.

use branch_bridge::Torn;
use kernel_entry::{End, Owed};
use mote_devices::Line;

/// All of a machine but its kernel, and the device line of a step. While it runs, `longest` is raised at
/// services alone, so it may be behind `since`; and a plain step raises one counter alone, `since`.
#[derive(Clone, Copy)]
pub struct Progress {
    pub owed: Option<Owed>,
    pub end: Option<End>,
    /// Whether the step that begins here, or has begun, may be an interrupt.
    pub due: bool,
    /// The page that a refused operation on flash has left torn.
    pub torn: Option<Torn>,
    /// The original address where the program stands. It isn't beside `owed`, since a processor that reads both at once waits
    /// for what a service has just stored there.
    pub at: u16,
    pub broken: bool,
    pub steps: u64,
    pub crossings: u64,
    /// Plain steps up to the last service: all but those that `since` counts.
    pub before: u64,
    pub entries: u64,
    pub pages: u64,
    pub since: u64,
    pub longest: u64,
    /// How many of `pages` there were when the run began.
    pub began: u64,
    /// How many arrivals other programs on the same mote may have made.
    pub others: u64,
    /// The device line of the step, once one was written.
    pub line: Option<Line>,
}
