//! The words of a command line that are accepted. `.ci/shell` tries those that are refused, and `run_words` those of `run`
//! by another reader.
use crate::support::words_of;
use std::test::Fail;
use tkernel_cli::{Command, command_of};

/// Command lines, and what they ask for: the command, and its numbers.
static ACCEPTED: [(&[&str], &str, [u64; 4]); 28] = [
    (&["run"], "run", [1_000_000, 255, 128, 0]),
    (&["run", "--steps", "9"], "run", [9, 255, 128, 0]),
    (&["run", "--steps=5"], "run", [5, 255, 128, 0]),
    (&["run", "--steps", "0"], "run", [0, 255, 128, 0]),
    (&["run", "--steps", "0000000009"], "run", [9, 255, 128, 0]),
    (
        &["run", "--steps=1000000000"],
        "run",
        [1_000_000_000, 255, 128, 0],
    ),
    (&["run", "--quantum", "1"], "run", [1_000_000, 1, 128, 0]),
    (&["run", "--quantum=255"], "run", [1_000_000, 255, 128, 0]),
    (&["run", "--swap", "0"], "run", [1_000_000, 255, 0, 0]),
    (&["run", "--swap=251"], "run", [1_000_000, 255, 251, 0]),
    (
        &["run", "--steps", "1", "--quantum", "2", "--swap", "3"],
        "run",
        [1, 2, 3, 0],
    ),
    (
        &["run", "--swap=3", "--quantum=2", "--steps=1"],
        "run",
        [1, 2, 3, 0],
    ),
    (
        &["run", "--quantum", "2", "--steps=1", "--swap", "3"],
        "run",
        [1, 2, 3, 0],
    ),
    (
        &["run", "--steps=1", "--swap", "3", "--quantum", "2"],
        "run",
        [1, 2, 3, 0],
    ),
    (
        &["run", "--quantum=2", "--swap=3", "--steps", "1"],
        "run",
        [1, 2, 3, 0],
    ),
    (
        &["run", "--swap", "3", "--steps", "1", "--quantum=2"],
        "run",
        [1, 2, 3, 0],
    ),
    (&["help"], "help", [0; 4]),
    (&["asm"], "asm", [0; 4]),
    (&["check"], "check", [0; 4]),
    (&["dump"], "dump", [1_000_000, 255, 128, 0]),
    (
        &["dump", "--swap=3", "--steps", "9"],
        "dump",
        [9, 255, 3, 0],
    ),
    (&["dump", "--quantum=1"], "dump", [1_000_000, 1, 128, 0]),
    (&["tasks", "--tasks", "2"], "tasks", [1_000_000, 255, 32, 2]),
    (
        &[
            "tasks",
            "--swap=62",
            "--quantum",
            "1",
            "--tasks=4",
            "--steps",
            "9",
        ],
        "tasks",
        [9, 1, 62, 4],
    ),
    (&["generate", "7"], "generate", [7, 0, 0, 0]),
    (&["generate", "0"], "generate", [0; 4]),
    (&["generate", "0000000007"], "generate", [7, 0, 0, 0]),
    (
        &["generate", "4294967295"],
        "generate",
        [4_294_967_295, 0, 0, 0],
    ),
];

/// The name of a command, and its numbers: steps, quantum, swap slots and tasks, or a seed.
fn told(command: Option<Command>) -> (&'static str, [u64; 4]) {
    match command {
        Some(Command::Help) => ("help", [0; 4]),
        Some(Command::Asm) => ("asm", [0; 4]),
        Some(Command::Check) => ("check", [0; 4]),
        Some(Command::Run(o)) => ("run", [o.steps, o.quantum.into(), o.swap.into(), 0]),
        Some(Command::Dump(o)) => ("dump", [o.steps, o.quantum.into(), o.swap.into(), 0]),
        Some(Command::Tasks(o)) => (
            "tasks",
            [o.steps, o.quantum.into(), o.swap.into(), o.count.into()],
        ),
        Some(Command::Generate(seed)) => ("generate", [seed.into(), 0, 0, 0]),
        _ => ("another", [0; 4]),
    }
}

#[test]
fn accepted_words_are_their_command(rt: HostRuntime) -> Result<(), Fail> {
    for (words, name, numbers) in &ACCEPTED {
        let owned = words_of(rt.alloc(), words)?;
        assert!(rt; told(command_of(&owned)) == (*name, *numbers));
    }
    Ok(())
}
