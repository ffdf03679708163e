//! The scripts of all tasks.

ghost use Rattle.std.specs.Prelude.{◌≡◌, ◌≤◌, ◌<◌, ◌⊎◌, ℕ, [], List, All, length, IfOk, MatchResult, Some, Err};
ghost use Rattle.text_lines.specs.Lines.{lines_of};
ghost use Rattle.input_script.specs.declared.fault.ScriptFault.{ScriptFault};
ghost use Rattle.input_script.specs.declared.fault.ScriptError.{ScriptError};
ghost use Rattle.input_script.specs.Script.{Schedule};
ghost use Rattle.task_input.specs.Scripts.{Schedules, scripts_fault};
ghost use Rattle.task_input.specs.Reading.{earlier, own_fault, IsOwn, IsFar};

use crate::lines::{first_formless, own_text};
use input_script::{Script, ScriptError, ScriptFault, read};
use std::alloc::Global;

/// A faulty line, counted from 1, and its fault.
#[derive(Clone, Copy)]
pub(crate) struct BadLine {
    line: u32,
    fault: ScriptFault,
}

/// Reads the script of `count` tasks, 1 to 4: a line is empty, begins with `#`, or is `task I ` with an event behind it,
/// I below `count`. Task I has the events of its own lines. Lines are cut as those of `input_script`'s.
///
/// # Errors
///
/// `Bad` names the first faulty line of all, counted from 1, and its first fault. All other lines have the fault
/// `Form`, so those of operations that fail.
pub fn read_scripts(alloc: Global, text: &[u8], count: u8) -> Result<Vec<Script>, ScriptError>
    requires text { length text.now ≤ 2097152 }
    requires count { count ≤ 4 }
    ensures ok { IfOk result (λ scripts. Schedules count text.now scripts.items) }
    ensures bad { (line : ℕ) → (fault : ScriptFault) → result ≡ Err (ScriptError.Bad line fault)
        → scripts_fault count text.now ≡ Some (line, fault) }
    // A text is read as what it schedules, unless memory runs out.
    ensures accepted { (schedules : List Schedule) → Schedules count text.now schedules
        → MatchResult result (λ scripts. scripts.items ≡ schedules) (λ error. error ≡ ScriptError.NoMemory) }
    // A faulty text is refused with its first fault, unless memory runs out.
    ensures refused { (line : ℕ) → (fault : ScriptFault) → scripts_fault count text.now ≡ Some (line, fault)
        → (result ≡ Err (ScriptError.Bad line fault)) ⊎ (result ≡ Err ScriptError.NoMemory) }
    // No operation on flash is to fail.
    ensures unfailing { IfOk result (λ scripts. All (λ script. script.failing ≡ []) scripts.items) }
{
    let mut scripts = Vec::new(alloc);
    let mut first = formless(text, count);
    'tasks: for task in 0..count {
        match read_task(alloc, text, task) {
            Ok(script) => {
                if scripts.push(script).is_err() {
                    return Err(ScriptError::NoMemory);
                }
            }
            Err(ScriptError::Bad { line, fault }) => {
                first = Some(earlier(first, BadLine { line, fault }));
            }
            Err(ScriptError::NoMemory) => return Err(ScriptError::NoMemory),
        }
    }
    match first {
        Some(BadLine { line, fault }) => Err(ScriptError::Bad { line, fault }),
        None => Ok(scripts),
    }
}

/// The first line without a form.
fn formless(text: &[u8], count: u8) -> Option<BadLine>
    requires text { length text.now ≤ 2097152 }
    requires count { count ≤ 4 }
    ensures far { IsFar count text.now 0 result [] }
{
    match first_formless(text, count) {
        Some(line) => Some(BadLine {
            line,
            fault: ScriptFault::Form,
        }),
        None => None,
    }
}

/// Reads the script of one task.
fn read_task(alloc: Global, text: &[u8], task: u8) -> Result<Script, ScriptError>
    requires text { length text.now ≤ 2097152 }
    requires task { task < 4 }
    ensures ok { IfOk result (IsOwn task (lines_of text.now)) }
    ensures bad { (line : ℕ) → (fault : ScriptFault) → result ≡ Err (ScriptError.Bad line fault)
        → own_fault task (lines_of text.now) ≡ Some (line, fault) }
{
    match own_text(alloc, text, task) {
        Ok(own) => read(alloc, own.as_slice()),
        Err(_) => Err(ScriptError::NoMemory),
    }
}

/// The earlier of two faulty lines.
fn earlier(first: Option<BadLine>, other: BadLine) -> BadLine
    ensures value { result ≡ earlier first other }
{
    match first {
        Some(first) if first.line <= other.line => first,
        _ => other,
    }
}
