//! The words that ask for a view.
ghost use Rattle.std.specs.Prelude.{◌≡◌, ◌≢◌, ◌+◌, ◌<◌, ◌≤◌, ◌&&◌, ◌∷◌, ◌++◌, ℕ, List, IfSome, MatchOption, length, map, nat_le, string_bytes};
ghost use Rattle.input_script.specs.Grammar.{number_of};
ghost use Rattle.tk_watch.specs.Kept.{IsPossible};
ghost use Rattle.tk_watch.specs.ViewWords.{AskForAccesses, AskForBytes, AskForChanges, AskForTrace, AskForVisits, AskWithWords, IsAddress};
ghost use Rattle.tk_watch.specs.Words.{AskForView};
ghost use Rattle.tk_watch.specs.declared.view.View.TheVariants.{Visits};
ghost use Rattle.tk_watch.specs.declared.view.View.{View as ViewValue};

use crate::view::{MOST_BYTES, MOST_PLACES, Places, View};
use text_lines::value_of;

/// How many rows a trace has at most.
const MOST_ROWS: u64 = 65_536;

/// How many data addresses there are.
const ADDRESSES: u64 = 65_536;

/// The first address of memory.
const MEMORY: u16 = 0x0100;

/// The view that words ask for, and the words behind it.
pub(crate) fn view_of(words: &[String]) -> Option<(View, &[String])>
    ensures cases { MatchOption result ((behind : List (List ℕ)) (view : ViewValue) → ¬ AskForView (map string_bytes words.now) behind view)
        (λ found. AskForView (map string_bytes words.now) (map string_bytes found.1.now) found.0) }
    ensures possible { IfSome result (λ found. IsPossible found.0) }
{
    let [word, rest @ ..] = words else {
        return None;
    };
    let text = word.as_str();
    match with_words(text, rest) {
        Some(found) => Some(found),
        None => {
            let view = View::named(text)?;
            Some((view, rest))
        }
    }
}

/// The view of this word, of those that have words of their own behind it, and the words behind those.
fn with_words<'a>(word: &str, words: &'a [String]) -> Option<(View, &'a [String])>
    ensures cases { MatchOption result ((behind : List (List ℕ)) (view : ViewValue) → ¬ AskWithWords word.now (map string_bytes words.now) behind view)
        (λ found. AskWithWords word.now (map string_bytes words.now) (map string_bytes found.1.now) found.0) }
    ensures possible { IfSome result (λ found. IsPossible found.0) }
{
    match word {
        "trace" => trace(words),
        "visits" => visits(words),
        "changes" => changes(words),
        "accesses" => accesses(words),
        _ => None,
    }
}

/// A number of steps, and how many rows.
fn trace(words: &[String]) -> Option<(View, &[String])>
    ensures cases { MatchOption result ((behind : List (List ℕ)) (view : ViewValue) → ¬ AskForTrace (map string_bytes words.now) behind view)
        (λ found. AskForTrace (map string_bytes words.now) (map string_bytes found.1.now) found.0) }
    ensures possible { IfSome result (λ found. IsPossible found.0) }
{
    let (from, rows, rest) = two(words)?;
    let first = number(from)?;
    let count = number(rows)?;
    if count > MOST_ROWS {
        return None;
    }
    Some((View::Trace(first, count), rest))
}

/// The addresses in front.
fn visits(words: &[String]) -> Option<(View, &[String])>
    ensures cases { MatchOption result ((behind : List (List ℕ)) (view : ViewValue) → ¬ AskForVisits (map string_bytes words.now) behind view)
        (λ found. AskForVisits (map string_bytes words.now) (map string_bytes found.1.now) found.0) }
    ensures possible { IfSome result (λ found. IsPossible found.0) }
{
    let mut places = Places::new();
    let mut rest = words;
    'places: while let [word, later @ ..] = rest {
        match address(word.as_str()) {
            None => return some_visits(places, rest),
            Some(place) => {
                if places.len() == MOST_PLACES {
                    return None;
                }
                places.push(place);
            }
        }
        rest = later;
    }
    some_visits(places, rest)
}

/// Addresses, if there are some, and the words behind them.
fn some_visits(places: Places, rest: &[String]) -> Option<(View, &[String])>
    ensures cases { MatchOption result (length places.items ≡ 0) (λ found. (found.0 ≡ Visits places) × (found.1.now ≡ rest.now) × (1 ≤ length places.items)) }
    ensures possible { IfSome result (λ found. IsPossible found.0) }
{
    if places.is_empty() {
        return None;
    }
    Some((View::Visits(places), rest))
}

/// An address of memory, and how many bytes.
fn changes(words: &[String]) -> Option<(View, &[String])>
    ensures cases { MatchOption result ((behind : List (List ℕ)) (view : ViewValue) → ¬ AskForChanges (map string_bytes words.now) behind view)
        (λ found. AskForChanges (map string_bytes words.now) (map string_bytes found.1.now) found.0) }
    ensures possible { IfSome result (λ found. IsPossible found.0) }
{
    let (at, count, rest) = bytes(words, MEMORY, MOST_BYTES as u64)?;
    Some((View::Changes(at, count as u8), rest))
}

/// Any address, and how many bytes.
fn accesses(words: &[String]) -> Option<(View, &[String])>
    ensures cases { MatchOption result ((behind : List (List ℕ)) (view : ViewValue) → ¬ AskForAccesses (map string_bytes words.now) behind view)
        (λ found. AskForAccesses (map string_bytes words.now) (map string_bytes found.1.now) found.0) }
    ensures possible { IfSome result (λ found. IsPossible found.0) }
{
    let (at, count, rest) = bytes(words, 0, ADDRESSES)?;
    Some((View::Accesses(at, count as u32), rest))
}

/// An address, not below one, and how many bytes from there on, at most so many.
fn bytes(words: &[String], lowest: u16, most: u64) -> Option<(u16, u64, &[String])>
    ensures cases { MatchOption result ((behind : List (List ℕ)) (at count : ℕ) → ¬ AskForBytes lowest most (map string_bytes words.now) behind at count)
        (λ found. AskForBytes lowest most (map string_bytes words.now) (map string_bytes found.2.now) found.0 found.1) }
{
    let (first, size, rest) = two(words)?;
    let at = address(first)?;
    let count = number(size)?;
    if at < lowest || !is_range(at, count, most) {
        return None;
    }
    Some((at, count, rest))
}

/// There are so many bytes from an address on, some and not too many.
fn is_range(at: u16, count: u64, most: u64) -> bool
    ensures value { result ≡ (nat_le 1 count && nat_le count most && nat_le (at + count) 65536) }
{
    1 <= count && count <= most && count <= ADDRESSES - u64::from(at)
}

/// The first two words, and those behind.
fn two(words: &[String]) -> Option<(&str, &str, &[String])>
    ensures cases { MatchOption result (length words.now < 2) (λ found. map string_bytes words.now ≡ found.0.now ∷ (found.1.now ∷ map string_bytes found.2.now)) }
{
    let [first, later @ ..] = words else {
        return None;
    };
    let [second, rest @ ..] = later else {
        return None;
    };
    Some((first.as_str(), second.as_str(), rest))
}

/// The address that a word writes.
fn address(word: &str) -> Option<u16>
    ensures cases { MatchOption result ((a : ℕ) → ¬ IsAddress word.now a) (IsAddress word.now) }
{
    address_in(word.as_bytes())
}

/// The address that a text writes.
fn address_in(text: &[u8]) -> Option<u16>
    ensures cases { MatchOption result ((a : ℕ) → ¬ IsAddress text.now a) (IsAddress text.now) }
{
    let digits = after(text, b"0x")?;
    if digits.len() != 4 {
        return None;
    }
    let value = value_of(digits, 16)?;
    Some(value as u16)
}

/// The text after these first bytes, where it begins with them.
fn after<'a>(text: &'a [u8], front: &[u8]) -> Option<&'a [u8]>
    ensures cases { MatchOption result ((rest : List ℕ) → text.now ≢ front.now ++ rest) (λ rest. text.now ≡ front.now ++ rest.now) }
{
    text.strip_prefix(front)
}

/// The number that a word writes.
fn number(word: &str) -> Option<u64>
    ensures value { result ≡ number_of word.now }
{
    number_in(word.as_bytes())
}

/// The number that 1 to 10 decimal digits write.
fn number_in(text: &[u8]) -> Option<u64>
    ensures value { result ≡ number_of text.now }
{
    if text.is_empty() || text.len() > 10 {
        return None;
    }
    value_of(text, 10)
}
