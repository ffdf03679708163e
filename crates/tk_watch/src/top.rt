//! The top call: words and input in, what is shown and a status out.
ghost use Rattle.std.specs.Prelude.{◌≡◌, ◌⊎◌, ℕ, map, string_bytes, codes, MatchOption};
ghost use Rattle.cli_words.specs.Commands.{AreOptions};
ghost use Rattle.cli_words.specs.declared.command.RunOptions.{RunOptions};
ghost use Rattle.cli_words.specs.declared.request.Request.{Request as RequestValue};
ghost use Rattle.cli_words.specs.declared.status.Status.TheVariants.{Done, NoMemory, Usage};
ghost use Rattle.byte_streams.specs.Streams.{input_of};
ghost use Rattle.cli_words.specs.Stream.{stream};
ghost use Rattle.tkernel_cli.specs.Runs.{Says, original_of, own_program};
ghost use Rattle.tk_watch.specs.declared.view.View.{View};
ghost use Rattle.tk_watch.specs.declared.view.View.TheVariants.{Lines};
ghost use Rattle.tk_watch.specs.Answer.{IsAnswer, IsExact};
ghost use Rattle.tk_watch.specs.Kept.{IsPossible};
ghost use Rattle.tk_watch.specs.NumberedLines.{TellsNumbered};
ghost use Rattle.tk_watch.specs.StepTexts.{told_text};
ghost use Rattle.tk_watch.specs.Views.{Shows};
ghost use Rattle.tk_watch.specs.Words.{AskForHelp, AskToWatch};

use crate::showing::{show, started};
use crate::state::Bounds;
use crate::view::{USAGE, View};
use crate::words::view_of;
use byte_streams::{Sink, Source};
use cli_requests::run_job;
use cli_words::{Job, Request, RunOptions, Status, run_options_of};
use std::alloc::Global;
use tkernel_cli::say;

/// Answers a command line. `words` are those after the program's name: the word of a view, and behind it the options of
/// `tkernel run`. The program that `input` tells runs as `tkernel run` has it run, and what the view shows of it is put to `out`,
/// and then the run's stop line; the status is the run's. What `run` refuses is refused with its line and its status.
///
/// The word `help` alone prints the usage line; so do other words, with a status of their own.
pub fn tkwatch<S: Source, K: Sink>(
    alloc: Global,
    words: &[String],
    input: &mut S,
    out: &mut K,
) -> Status
    ensures answer { IsAnswer (map string_bytes words.now)
        (input_of S.left S.given S.faults input.old) (input_of S.left S.given S.faults input.new)
        (stream K.taken K.faults out.old) (stream K.taken K.faults out.new)
        result }
    // The words alone decide, and for a view the text of a source that tells it, or keeps what it gave, and doesn't fail; or
    // memory is wanted.
    ensures exact { IsExact (map string_bytes words.now)
        (input_of S.left S.given S.faults input.old) (input_of S.left S.given S.faults input.new)
        (stream K.taken K.faults out.old) (stream K.taken K.faults out.new)
        result }
    // What the lines of a run are told by is each line that `run` prints of it, behind a number.
    ensures lines { (request : RequestValue) (n : ℕ) → TellsNumbered (original_of request n).lines (told_text Lines (own_program request) (original_of request) n) }
{
    match asked(words) {
        Some((view, options)) => match run_job(alloc, options, input) {
            Job::Run(request) => show_run(alloc, &view, request, out),
            Job::Print(status, line) => say(status, &line, out),
            // `run` asks for no other job.
            _ => Status::Usage,
        },
        None => say(usage_status(words), USAGE, out),
    }
}

/// The view that is asked for, and the options of the run.
fn asked(words: &[String]) -> Option<(View, RunOptions)>
    ensures cases { MatchOption result
        ((view : View) (options : RunOptions) → ¬ AskToWatch (map string_bytes words.now) view options)
        (λ found. AskToWatch (map string_bytes words.now) found.0 found.1 × AreOptions found.1 × IsPossible found.0) }
{
    let (view, behind) = view_of(words)?;
    let options = run_options_of(behind)?;
    Some((view, options))
}

/// The status of the usage line: words that ask for it are no fault.
fn usage_status(words: &[String]) -> Status
    ensures status { (AskForHelp (map string_bytes words.now) × (result ≡ Done)) ⊎ ((¬ AskForHelp (map string_bytes words.now)) × (result ≡ Usage)) }
{
    match words {
        [word] if word.as_str() == "help" => Status::Done,
        _ => Status::Usage,
    }
}

/// Runs a request, and puts what a view shows of it.
fn show_run<K: Sink>(alloc: Global, view: &View, request: Request, out: &mut K) -> Status
    requires options { AreOptions request.options }
    requires possible { IsPossible view.now }
    ensures shows { Shows view.now request (stream K.taken K.faults out.old) (stream K.taken K.faults out.new) result
        ⊎ Says NoMemory (codes "no memory\n") (stream K.taken K.faults out.old) (stream K.taken K.faults out.new) result }
{
    let Request {
        image,
        script,
        options,
    } = request;
    let bounds = Bounds {
        slots: options.swap,
        events: script.events().len(),
    };
    let begun = started(alloc, &image, script, options);
    show(view, bounds, begun, options.steps, out)
}
