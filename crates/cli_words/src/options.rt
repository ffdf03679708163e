//! The numbers that the words behind a command give.
ghost use Rattle.std.specs.Prelude.{◌≡◌, ◌≢◌, ℕ, ◌<◌, ◌≤◌, List, length, map, string_bytes, MatchOption, IfSome, IsSomeAnd, Option, Some, None, option_map, slice_get, slice_set};
ghost use Rattle.input_script.specs.Grammar.{number_of};
ghost use Rattle.cli_words.specs.declared.options.Choice.{Choice};
ghost use Rattle.cli_words.specs.Options.{BeginsWith, Choose, IsValue, name_of, nothing, parameters, place_of, row_in};
ghost use Rattle.cli_words.specs.Commands.{entry_of};
ghost use Rattle.cli_words.specs.OptionReading.{behind, first_named, number_in, value_at};

use crate::command::Command;
use crate::table::{PARAMETER_COUNT, PARAMETERS, Parameter};

/// A parameter with a number for it.
#[derive(Clone, Copy)]
struct Choice {
    parameter: Parameter,
    value: u64,
}

/// The numbers that were chosen so far, each at its parameter's place.
#[derive(Clone, Copy)]
pub(crate) struct Chosen {
    values: [Option<u64>; PARAMETER_COUNT],
}

/// The parameter whose name a word begins with, and the text behind the name.
fn named_parameter(word: &str) -> Option<(Parameter, &str)>
    ensures named { option_map (λ found. (found.0, found.1.now)) result ≡ first_named parameters word.now }
{
    let all = PARAMETERS;
    let mut rest = all.as_slice();
    while let [parameter, others @ ..] = rest {
        if let Some(behind) = behind_name(*parameter, word) {
            return Some((*parameter, behind));
        }
        rest = others;
    }
    None
}

/// The text behind a parameter's name, in a word that begins with it.
fn behind_name(parameter: Parameter, word: &str) -> Option<&str>
    ensures behind { option_map (λ text. text.now) result ≡ behind (name_of parameter) word.now }
{
    word.strip_prefix(parameter.name()?)
}

/// The parameter, the digits and the later words that words begin with. A word that begins with no name is
/// a number without one.
fn first_number(words: &[String]) -> Option<(Parameter, &str, &[String])>
    ensures number { option_map (λ found. (found.0, found.1.now, map string_bytes found.2.now)) result
        ≡ number_in (map string_bytes words.now) }
    ensures shorter { IfSome result (λ found. length found.2.now < length words.now) }
{
    let [word, later @ ..] = words else {
        return None;
    };
    match named_parameter(word.as_str()) {
        Some((parameter, behind)) => value_behind(parameter, behind, later),
        None => Some((Parameter::Seed, word.as_str(), later)),
    }
}

/// The digits behind a parameter's name: behind `=`, or else the next word.
fn value_behind<'a>(
    parameter: Parameter,
    behind: &'a str,
    later: &'a [String],
) -> Option<(Parameter, &'a str, &'a [String])>
    ensures value { option_map (λ found. (found.0, found.1.now, map string_bytes found.2.now)) result
        ≡ value_at parameter behind.now (map string_bytes later.now) }
    ensures shorter { IfSome result (λ found. length found.2.now ≤ length later.now) }
{
    if behind.is_empty() {
        let [digits, rest @ ..] = later else {
            return None;
        };
        return Some((parameter, digits.as_str(), rest));
    }
    let digits = behind.strip_prefix("=")?;
    Some((parameter, digits, later))
}

/// The number that 1 to 10 decimal digits write, and nothing else does.
fn number(text: &str) -> Option<u64>
    ensures value { result ≡ number_of text.now }
{
    if text.len() > 10 || text.starts_with('+') {
        return None;
    }
    text.parse::<u64>().ok()
}

/// The choice that the first words make, of a parameter that the command has, and the words behind it.
fn first_choice(kind: Command, words: &[String]) -> Option<(Choice, &[String])>
    ensures cases { MatchOption result
        ((choice : Choice) (rest : List (List ℕ)) → ¬ BeginsWith (entry_of kind).1 choice (map string_bytes words.now) rest)
        (λ found. BeginsWith (entry_of kind).1 found.0 (map string_bytes words.now) (map string_bytes found.1.now)) }
    ensures shorter { IfSome result (λ found. length found.1.now < length words.now) }
{
    let (parameter, digits, rest) = first_number(words)?;
    let value = number(digits)?;
    kind.row(parameter)?;
    Some((Choice { parameter, value }, rest))
}

/// The numbers that all these words choose for a command.
pub(crate) fn chosen_in(kind: Command, words: &[String]) -> Option<Chosen>
    ensures cases { MatchOption result
        ((after : List (Option ℕ)) → ¬ Choose (entry_of kind).1 (map string_bytes words.now) nothing after)
        (λ chosen. Choose (entry_of kind).1 (map string_bytes words.now) nothing chosen.values) }
{
    let mut chosen = Chosen {
        values: [None; PARAMETER_COUNT],
    };
    let mut rest = words;
    while !rest.is_empty() {
        let (choice, behind) = first_choice(kind, rest)?;
        chosen = chosen.with(choice)?;
        rest = behind;
    }
    Some(chosen)
}

impl Chosen {
    /// With one more choice, unless its parameter has a value.
    fn with(self, choice: Choice) -> Option<Chosen>
        ensures cases { MatchOption result
            (slice_get self.values (place_of choice.parameter) ≢ Some None)
            (λ chosen. (slice_get self.values (place_of choice.parameter) ≡ Some None)
            × (chosen.values ≡ slice_set self.values (place_of choice.parameter) (Some choice.value))) }
    {
        let place = choice.parameter.place();
        let mut values = self.values;
        if values[place].is_some() {
            return None;
        }
        values[place] = Some(choice.value);
        Some(Chosen { values })
    }

    /// The value of a command's parameter: the chosen one, or else the default, and in its range.
    pub fn value(self, kind: Command, parameter: Parameter) -> Option<u64>
        ensures cases { MatchOption result
            ((value : ℕ) → ¬ IsSomeAnd (row_in (entry_of kind).1 parameter) (λ row. IsValue self.values row value))
            (λ value. IsSomeAnd (row_in (entry_of kind).1 parameter) (λ row. IsValue self.values row value)) }
    {
        let row = kind.row(parameter)?;
        let value = self.values[row.parameter.place()].or(row.default)?;
        if row.least <= value && value <= row.most {
            Some(value)
        } else {
            None
        }
    }
}
