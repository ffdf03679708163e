//! What is asked for, once the words and the input are judged.

use crate::output::Output;
use crate::request::{Request, TaskRequest};
use crate::status::Status;
use input_script::Script;
use text_lines::Text;

/// What is asked for, once the words and the input are judged.
#[derive(Drop)]
pub enum Job {
    /// One line, and the status that comes with it.
    Print(Status, Text),
    /// A run.
    Run(Request),
    /// The dump of the flash that a run leaves.
    Dump(Request),
    /// A run, a loss of power, and a second run with the same events over what is kept of its flash.
    Restart(Request, Script),
    /// A run of several programs on one mote.
    Tasks(TaskRequest),
    /// A text of any length.
    Write(Output),
}
