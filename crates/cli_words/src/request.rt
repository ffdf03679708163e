//! What is run.
ghost use Rattle.std.specs.Prelude.{◌≡◌, List};
ghost use Rattle.input_script.specs.Script.{Schedule};

use crate::command::{RunOptions, TaskOptions};
use hex_image::Image;
use input_script::Script;
use std::marker::Model;

/// A program that is to be run, with the inputs of its devices, and how.
#[derive(Drop)]
pub struct Request {
    pub image: Image,
    pub script: Script,
    pub options: RunOptions,
}

/// The image of several programs that are to be run in turn, with the inputs of their devices, and how.
#[derive(Drop)]
pub struct TaskRequest {
    pub image: Image,
    pub scripts: Scripts,
    pub options: TaskOptions,
}

/// A script for each program.
#[derive(Drop)]
pub struct Scripts {
    list: Vec<Script>,
}

// Clauses see what they schedule.
impl Model for Scripts {
    ghost Value = { List Schedule };

    ghost view = { λ scripts. scripts.list.items };
}

impl Scripts {
    /// These scripts.
    pub fn new(list: Vec<Script>) -> Scripts
        ensures list { result ≡ list.items }
    {
        Scripts { list }
    }

    /// The scripts, one behind the other.
    pub fn list(self) -> Vec<Script>
        ensures list { result.items ≡ self }
    {
        self.list
    }
}
