//! The jobs that print the line of one command.
ghost use Rattle.std.specs.Prelude.{◌≡◌};
ghost use Rattle.printed_text.specs.FaultyLines.{asm_part, dump_part};
ghost use Rattle.avr_asm.specs.AsmText.{asm_word};
ghost use Rattle.flash_dump.specs.DumpLines.{dump_word};
ghost use Rattle.cli_words.specs.Printed.{bad_part};
ghost use Rattle.cli_requests.specs.CheckCommand.{verdict_line};
ghost use Rattle.cli_requests.specs.TasksCommand.{bad_image};

use avr_asm::AsmFault;
use cli_words::{Job, Status};
use flash_dump::DumpFault;
use pool_check::Verdict;
use printed_text::{bad_asm_line, bad_dump_line, bad_image_line, verdict_text};

/// A word stands in the image where no task has one.
pub(crate) fn bad_image(address: u16) -> Job
    ensures job { result ≡ bad_image address }
{
    Job::Print(Status::BadInput, bad_image_line(address))
}

/// The dump is broken.
pub(crate) fn bad_dump(line: u32, fault: DumpFault) -> Job
    ensures job { result ≡ bad_part dump_part line (dump_word fault) }
{
    Job::Print(Status::BadInput, bad_dump_line(line, fault))
}

/// What a checker says.
pub(crate) fn verdict_line(verdict: Verdict) -> Job
    ensures job { result ≡ verdict_line verdict }
{
    let status = match verdict {
        Verdict::Faithful { .. } => Status::Done,
        Verdict::Form { .. } | Verdict::Links { .. } => Status::Fault,
    };
    Job::Print(status, verdict_text(verdict))
}

/// The source is broken.
pub(crate) fn bad_asm(line: u32, fault: AsmFault) -> Job
    ensures job { result ≡ bad_part asm_part line (asm_word fault) }
{
    Job::Print(Status::BadInput, bad_asm_line(line, fault))
}
