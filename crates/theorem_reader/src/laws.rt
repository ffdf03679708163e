//! Laws of what is told, each as the contract of a function that does nothing.
ghost use Rattle.theorem_reader.specs.ByCode.{AreDoneByCode, IsDoneByCode, IsDoneByCodeAgain};
ghost use Rattle.theorem_reader.specs.MoreSteps.{EndsStay, LinesStay};
ghost use Rattle.theorem_reader.specs.RuledOut.{ActsAreNone, AnswersAgree, MachinesAgree};
ghost use Rattle.theorem_reader.specs.Waiting.{WaitsForATurnOfEach};
ghost use Rattle.theorem_reader.specs.Words.{AreReadByTable, AreSizedByTable};

/// More steps only add device lines behind those that were written, and change nothing of a run that has ended.
pub fn more_steps_take_nothing_back()
    ensures lines { LinesStay }
    ensures ends { EndsStay }
{}

/// What two words mean, and how many of them an instruction has, is the manual's table: so the decoder by which the original
/// program and the mote read their words (`the_form`, `size_by_first_word`) needn't be believed.
pub fn words_mean_what_the_table_has()
    ensures read { AreReadByTable }
    ensures sized { AreSizedByTable }
{}

/// A run of no step of rewritten code has no step of the program and no service, nor has one behind a restart, nor has any of
/// several programs that has none of its own. So what interprets the program, and prints `natural 0 entries 1 pages 0`, is no
/// run, whatever machine it keeps.
pub fn no_step_without_rewritten_code()
    ensures done { IsDoneByCode }
    ensures again { IsDoneByCodeAgain }
    ensures tasks { AreDoneByCode }
{}

/// While a program of several that hasn't ended isn't stepped, each other comes to its next checkpoint at most, where its
/// crossings are a multiple of the quantum. So it waits for one turn of each at most, by crossings.
pub fn a_program_waits_for_a_turn_of_each()
    ensures waits { WaitsForATurnOfEach }
{}

/// Two answers to the same agree as far as they must, and so do the machines that they keep; and each definition with cases rules
/// something out. So none of them is so of everything.
pub fn not_everything_is_an_answer()
    ensures answers { AnswersAgree }
    ensures machines { MachinesAgree }
    ensures acts { ActsAreNone }
{}
