//! The commands and the numbers that each of them takes, as a table.
ghost use Rattle.std.specs.Prelude.{◌≡◌, ◌≢◌, ◌<◌, MatchOption, option_map};
ghost use Rattle.cli_words.specs.declared.command.Command.{Command};
ghost use Rattle.cli_words.specs.Commands.{entry_of};
ghost use Rattle.cli_words.specs.Options.{name_of, place_of, row_in, shared_rows};

use crate::command::{Command, DEFAULT_OPTIONS, TaskOptions};

/// A number that a command takes.
#[derive(Clone, Copy)]
pub(crate) enum Parameter {
    /// Which test program; it has no name.
    Seed,
    /// How many steps may be done.
    Steps,
    /// How many crossings make a checkpoint.
    Quantum,
    /// How many pages of the heap can be swapped out.
    Swap,
    /// How many tasks there are.
    Count,
}

/// How many parameters there are.
pub(crate) const PARAMETER_COUNT: usize = 5;

/// All parameters.
pub(crate) const PARAMETERS: [Parameter; PARAMETER_COUNT] = [
    Parameter::Seed,
    Parameter::Steps,
    Parameter::Quantum,
    Parameter::Swap,
    Parameter::Count,
];

/// What a command takes for a parameter.
#[derive(Clone, Copy)]
pub(crate) struct Row {
    pub parameter: Parameter,
    pub least: u64,
    pub most: u64,
    /// The value where the words give none; without a default they must.
    pub default: Option<u64>,
}

/// Some options of a run of several programs.
pub(crate) const SOME_TASKS: TaskOptions = TaskOptions {
    count: 1,
    steps: 0,
    quantum: 1,
    swap: 0,
};

impl Command {
    /// The command of this word, with some numbers.
    pub(crate) fn named(word: &str) -> Option<Command>
        ensures named { MatchOption result ((command : Command) → word.now ≢ (entry_of command).0) (λ command. word.now ≡ (entry_of command).0) }
    {
        Some(match word {
            "help" => Command::Help,
            "run" => Command::Run(DEFAULT_OPTIONS),
            "dump" => Command::Dump(DEFAULT_OPTIONS),
            "restart" => Command::Restart(DEFAULT_OPTIONS),
            "tasks" => Command::Tasks(SOME_TASKS),
            "check" => Command::Check,
            "generate" => Command::Generate(0),
            "asm" => Command::Asm,
            _ => return None,
        })
    }

    /// What the command takes for a parameter, if it has it.
    pub(crate) fn row(self, parameter: Parameter) -> Option<Row>
        ensures row { result ≡ row_in (entry_of self).1 parameter }
    {
        match (self, parameter) {
            (Command::Run(_) | Command::Dump(_) | Command::Restart(_), _) => {
                shared_row(parameter, 251, u64::from(DEFAULT_OPTIONS.swap))
            }
            (Command::Tasks(_), Parameter::Count) => Some(Row::new(parameter, 1, 4, None)),
            (Command::Tasks(_), _) => shared_row(parameter, 62, 32),
            (Command::Generate(_), Parameter::Seed) => {
                Some(Row::new(parameter, 0, 4_294_967_295, None))
            }
            _ => None,
        }
    }
}

/// The row of a parameter that `run` and `tasks` have, with so many swap slots at most, and with these by default.
fn shared_row(parameter: Parameter, most_swap: u64, default_swap: u64) -> Option<Row>
    ensures row { result ≡ row_in (shared_rows most_swap default_swap) parameter }
{
    match parameter {
        Parameter::Steps => Some(Row::new(
            parameter,
            0,
            1_000_000_000,
            Some(DEFAULT_OPTIONS.steps),
        )),
        Parameter::Quantum => Some(Row::new(
            parameter,
            1,
            255,
            Some(u64::from(DEFAULT_OPTIONS.quantum)),
        )),
        Parameter::Swap => Some(Row::new(parameter, 0, most_swap, Some(default_swap))),
        _ => None,
    }
}

impl Row {
    fn new(parameter: Parameter, least: u64, most: u64, default: Option<u64>) -> Row
        ensures row { result ≡ record { parameter = parameter; least = least; most = most; default = default } }
    {
        Row {
            parameter,
            least,
            most,
            default,
        }
    }
}

impl Parameter {
    /// The name that stands in front of its value, where it has one.
    pub fn name(self) -> Option<&'static str>
        ensures name { option_map (λ name. name.now) result ≡ name_of self }
    {
        match self {
            Parameter::Seed => None,
            Parameter::Steps => Some("--steps"),
            Parameter::Quantum => Some("--quantum"),
            Parameter::Swap => Some("--swap"),
            Parameter::Count => Some("--tasks"),
        }
    }

    /// Where its value is kept.
    pub fn place(self) -> usize
        ensures place { result ≡ place_of self }
        ensures inside { result < PARAMETER_COUNT }
    {
        match self {
            Parameter::Seed => 0,
            Parameter::Steps => 1,
            Parameter::Quantum => 2,
            Parameter::Swap => 3,
            Parameter::Count => 4,
        }
    }
}
