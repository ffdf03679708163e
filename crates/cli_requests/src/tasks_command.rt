//! The command `tasks`.
ghost use Rattle.std.specs.Prelude.{◌≡◌, ◌⊎◌, ◌≤◌, length};
ghost use Rattle.cli_words.specs.Commands.{AreTaskOptions, IsPossibleJob};
ghost use Rattle.cli_words.specs.Printed.{no_memory};
ghost use Rattle.byte_streams.specs.Streams.{input_of};
ghost use Rattle.cli_requests.specs.Reading.{AsksByText, most_input};
ghost use Rattle.cli_requests.specs.TasksCommand.{TasksAsks};

use crate::printed::bad_image;
use crate::reading::read_input;
use byte_streams::Source;
use cli_words::{Job, Scripts, TaskOptions, TaskRequest, bad_hex, bad_script, no_memory};
use hex_image::HexError;
use input_script::ScriptError;
use std::alloc::Global;
use task_input::{misplaced_word, read_scripts};

/// Reads the input of `tasks`, and judges it.
pub(crate) fn tasks_job<S: Source>(alloc: Global, options: TaskOptions, input: &mut S) -> Job
    requires possible { AreTaskOptions options }
    ensures asks { AsksByText (TasksAsks options)
        (input_of S.left S.given S.faults input.old) (input_of S.left S.given S.faults input.new)
        result }
    ensures possible { IsPossibleJob result }
{
    match read_input(alloc, input) {
        Ok(text) => text_job(alloc, options, &text),
        Err(job) => job,
    }
}

/// What a text asks for, which is a HEX text and a script of the tasks behind it.
fn text_job(alloc: Global, options: TaskOptions, text: &[u8]) -> Job
    requires possible { AreTaskOptions options }
    requires short { length text.now ≤ most_input }
    ensures asks { TasksAsks options text.now result ⊎ (result ≡ no_memory) }
    ensures possible { IsPossibleJob result }
{
    let (image, position) = match hex_image::read(alloc, text) {
        Ok(read) => read,
        Err(HexError::Bad { line, fault }) => return bad_hex(line, fault),
        Err(HexError::NoMemory) => return no_memory(),
    };
    let scripts = match read_scripts(alloc, &text[position..], options.count) {
        Ok(scripts) => scripts,
        Err(ScriptError::Bad { line, fault }) => return bad_script(line, fault),
        Err(ScriptError::NoMemory) => return no_memory(),
    };
    match misplaced_word(&image, options.count) {
        Some(address) => bad_image(address),
        None => Job::Tasks(TaskRequest {
            image,
            scripts: Scripts::new(scripts),
            options,
        }),
    }
}
