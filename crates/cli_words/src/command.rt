//! What a command line asks for.
ghost use Rattle.std.specs.Prelude.{◌≡◌, ℕ, List, [], ◌∷◌, codes, map, string_bytes, MatchOption, IfSome};
ghost use Rattle.cli_words.specs.declared.command.Command.TheVariants.{Run, Tasks};
ghost use Rattle.cli_words.specs.declared.command.RunOptions.{RunOptions};
ghost use Rattle.cli_words.specs.Commands.{AreOptions, AreTaskOptions, IsCommand, IsNoCommand, IsPossible, entry_of, run_numbers};
ghost use Rattle.cli_words.specs.Options.{AreValues, run_rows, seed_rows, tasks_rows};

use crate::options::{Chosen, chosen_in};
use crate::table::{Parameter, SOME_TASKS};

/// What a command line asks for.
#[derive(Clone, Copy)]
pub enum Command {
    /// The usage line.
    Help,
    /// A run of the program that the input tells.
    Run(RunOptions),
    /// The dump of the flash that such a run leaves.
    Dump(RunOptions),
    /// A run, a loss of power, and a second run over what is kept of its flash.
    Restart(RunOptions),
    /// A run of several programs on one mote, in turn, which the input tells.
    Tasks(TaskOptions),
    /// Whether a flash holds the program and faithful rewritten code of it, both of which the input tells.
    Check,
    /// A run of the test program of this seed.
    Generate(u32),
    /// The HEX text of the source that the input tells.
    Asm,
}

/// How a program is run.
#[derive(Clone, Copy)]
pub struct RunOptions {
    /// The bound of steps, 0 to 1,000,000,000.
    pub steps: u64,
    /// Crossings of a quantum, 1 to 255.
    pub quantum: u8,
    /// Slots of the swap area, 0 to 251.
    pub swap: u8,
}

/// How a program is run where the words don't say it.
pub const DEFAULT_OPTIONS: RunOptions = RunOptions {
    steps: 1_000_000,
    quantum: 255,
    swap: 128,
};

/// How several programs are run.
#[derive(Clone, Copy)]
pub struct TaskOptions {
    /// How many there are, 1 to 4.
    pub count: u8,
    /// The bound of steps of each, 0 to 1,000,000,000.
    pub steps: u64,
    /// Crossings of a quantum, 1 to 255.
    pub quantum: u8,
    /// Slots of the swap area of each, 0 to 62.
    pub swap: u8,
}

/// The command that the words of a command line are; None where they are none.
pub fn command_of(words: &[String]) -> Option<Command>
    ensures cases { MatchOption result (IsNoCommand (map string_bytes words.now)) (IsCommand (map string_bytes words.now)) }
    ensures possible { IfSome result IsPossible }
{
    let [word, rest @ ..] = words else {
        return None;
    };
    let kind = Command::named(word.as_str())?;
    let chosen = chosen_in(kind, rest)?;
    command_with(kind, chosen)
}

/// The options of a run that these words choose, as they do behind `run`; None where they don't.
pub fn run_options_of(words: &[String]) -> Option<RunOptions>
    ensures cases { MatchOption result
        ((options : RunOptions) → ¬ IsCommand (codes "run" ∷ map string_bytes words.now) (Run options))
        (λ options. IsCommand (codes "run" ∷ map string_bytes words.now) (Run options)) }
    ensures possible { IfSome result AreOptions }
{
    let chosen = chosen_in(Command::Run(DEFAULT_OPTIONS), words)?;
    run_options(chosen)
}

/// The command of a kind with these numbers.
fn command_with(kind: Command, chosen: Chosen) -> Option<Command>
    ensures cases { MatchOption result
        ((values : List ℕ) → ¬ AreValues (entry_of kind).1 chosen.values values)
        (λ command. ((entry_of command).0 ≡ (entry_of kind).0) × AreValues (entry_of command).1 chosen.values (entry_of command).2) }
    ensures possible { IfSome result IsPossible }
{
    Some(match kind {
        Command::Run(_) => Command::Run(run_options(chosen)?),
        Command::Dump(_) => Command::Dump(run_options(chosen)?),
        Command::Restart(_) => Command::Restart(run_options(chosen)?),
        Command::Tasks(_) => Command::Tasks(task_options(chosen)?),
        Command::Generate(_) => Command::Generate(seed_of(chosen)?),
        Command::Help => Command::Help,
        Command::Check => Command::Check,
        Command::Asm => Command::Asm,
    })
}

/// The options of a run, from the numbers of a command that takes those of `run`.
fn run_options(chosen: Chosen) -> Option<RunOptions>
    ensures cases { MatchOption result
        ((values : List ℕ) → ¬ AreValues run_rows chosen.values values)
        (λ options. AreValues run_rows chosen.values (run_numbers options)) }
    ensures possible { IfSome result AreOptions }
{
    let kind = Command::Run(DEFAULT_OPTIONS);
    Some(RunOptions {
        steps: chosen.value(kind, Parameter::Steps)?,
        quantum: chosen.value(kind, Parameter::Quantum)? as u8,
        swap: chosen.value(kind, Parameter::Swap)? as u8,
    })
}

/// The options of a run of several programs.
fn task_options(chosen: Chosen) -> Option<TaskOptions>
    ensures cases { MatchOption result
        ((values : List ℕ) → ¬ AreValues tasks_rows chosen.values values)
        (λ options. AreValues tasks_rows chosen.values (entry_of (Tasks options)).2) }
    ensures possible { IfSome result AreTaskOptions }
{
    let kind = Command::Tasks(SOME_TASKS);
    Some(TaskOptions {
        count: chosen.value(kind, Parameter::Count)? as u8,
        steps: chosen.value(kind, Parameter::Steps)?,
        quantum: chosen.value(kind, Parameter::Quantum)? as u8,
        swap: chosen.value(kind, Parameter::Swap)? as u8,
    })
}

/// Which test program is run.
fn seed_of(chosen: Chosen) -> Option<u32>
    ensures cases { MatchOption result
        ((values : List ℕ) → ¬ AreValues seed_rows chosen.values values)
        (λ seed. AreValues seed_rows chosen.values (seed ∷ [])) }
{
    Some(chosen.value(Command::Generate(0), Parameter::Seed)? as u32)
}
