//! The lines of a script of several tasks, and the text that each task has of it.

ghost use Rattle.std.specs.Prelude.{◌≡◌, ◌≢◌, ◌<◌, ◌≤◌, ◌||◌, ◌++◌, ℕ, List, length, is_some, option_map, IfOk, OnOk, MatchOption};
ghost use Rattle.text_lines.specs.Lines.{lines_of};
ghost use Rattle.text_lines.specs.Pieces.{task_text};
ghost use Rattle.input_script.specs.declared.fault.ScriptFault.TheVariants.{Form};
ghost use Rattle.input_script.specs.Grammar.{is_skipped};
ghost use Rattle.task_input.specs.Scripts.{at_word, own_line, task_of};
ghost use Rattle.task_input.specs.Reading.{ended, own_lines, first_formless as first_formless_of};

use base::NoMemory;
use std::alloc::Global;
use text_lines::first_line;

/// How many bytes name a line's task.
const NAME_LENGTH: usize = 7;

/// The number of the first line that has no form, from 1.
pub(crate) fn first_formless(text: &[u8], count: u8) -> Option<u32>
    requires text { length text.now ≤ 2097152 }
    requires count { count ≤ 4 }
    ensures value { option_map (λ number. (number, Form)) result ≡ first_formless_of count (lines_of text.now) }
{
    let mut rest = text;
    let mut number = 0;
    'lines: while !rest.is_empty() {
        let (line, after) = first_line(rest);
        number += 1;
        if !has_form(line, count) {
            return Some(number);
        }
        rest = after;
    }
    None
}

/// Whether a line is skipped, or an event of one of the tasks.
fn has_form(line: &[u8], count: u8) -> bool
    requires { count ≤ 4 }
    ensures value { result ≡ (is_skipped line.now || is_some (task_of count line.now)) }
{
    line.is_empty() || line[0] == b'#' || is_named(line, count)
}

/// Whether a line is an event of one of the tasks.
fn is_named(line: &[u8], count: u8) -> bool
    requires { count ≤ 4 }
    ensures value { result ≡ is_some (task_of count line.now) }
{
    'tasks: for task in 0..count {
        if behind_name(line, task).is_some() {
            return true;
        }
    }
    false
}

/// The text that a task has of the whole: its own events, each in a line with the same number.
pub(crate) fn own_text(alloc: Global, text: &[u8], task: u8) -> Result<Vec<u8>, NoMemory>
    requires { task < 4 }
    ensures lines { IfOk result (λ own. lines_of own.items ≡ own_lines task (lines_of text.now)) }
    ensures short { IfOk result (λ own. length own.items ≤ length text.now) }
{
    let mut own = Vec::new(alloc);
    let mut rest = text;
    'lines: while !rest.is_empty() {
        let (line, after) = first_line(rest);
        put_line(&mut own, own_line(line, task))?;
        rest = after;
    }
    Ok(own)
}

/// Adds a line with its end.
fn put_line(own: &mut Vec<u8>, line: &[u8]) -> Result<(), NoMemory>
    ensures items { OnOk result (own.new.items ≡ own.old.items ++ ended line.now) }
{
    let end = if line.is_empty() { "\n" } else { "\r\n" };
    own.extend_from_slice(line)?;
    own.extend_from_slice(end.as_bytes())?;
    Ok(())
}

/// What a line says to a task: the event behind its name, and nothing where the line is not the task's.
fn own_line(line: &[u8], task: u8) -> &[u8]
    requires { task < 4 }
    ensures value { result.now ≡ own_line task line.now }
{
    match behind_name(line, task) {
        Some(_) => &line[NAME_LENGTH..],
        None => &[],
    }
}

/// What stands behind a task's name and `at `, in a line that begins so.
fn behind_name(line: &[u8], task: u8) -> Option<&[u8]>
    requires { task < 4 }
    ensures cases { MatchOption result ((rest : List ℕ) → line.now ≢ task_text task ++ at_word ++ rest) (λ rest. line.now ≡ task_text task ++ at_word ++ rest.now) }
{
    let front = [
        b't',
        b'a',
        b's',
        b'k',
        b' ',
        b'0' + task,
        b' ',
        b'a',
        b't',
        b' ',
    ];
    line.strip_prefix(&front)
}
