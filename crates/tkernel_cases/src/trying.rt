//! What a case is answered with.
use crate::case::{Case, cut, words_of};
use crate::tally::{Answer, Tally};
use std::alloc::{AllocError, Global};
use std::io;
use tk_io::{FlakySource, MemSink, Sink};
use tkernel_cli::{Exit, tkernel};

/// Tries a case with each of its words and at each of its lengths, and names it where an answer isn't as it wants.
pub(crate) fn try_case(rt: &HostRuntime, case: &Case, tally: &mut Tally) -> io::Result<()> {
    let mut is_same = true;
    for line in &case.words {
        let words = words_of(rt.alloc(), line)?;
        for length in case.shortest..=case.longest {
            let input = case.input.get(..length).unwrap_or(&case.input);
            let answer = answer_of(rt.alloc(), case, &words, input)?;
            is_same &= tally.count(case, &answer);
        }
    }
    if is_same {
        return Ok(());
    }
    println!(rt; "other: {}", text_of(&case.name))
}

/// What these words are answered with over this input: by one call, or by two.
fn answer_of(
    alloc: Global,
    case: &Case,
    words: &[String],
    input: &[u8],
) -> Result<Answer, AllocError> {
    let first = called(alloc, case, words, input)?;
    if case.then.is_empty() {
        return Ok(first);
    }
    let mut both = input.to_vec(alloc)?;
    put_changed(&mut both, text_of(&first.text), text_of(&case.change))?;
    let second = called(alloc, case, &case.then, &both)?;
    Ok(Answer {
        status: second.status,
        text: second.text,
        keeps: first.keeps,
    })
}

/// These bytes as a text; none where they are no text.
fn text_of(bytes: &[u8]) -> &str {
    str::from_utf8(bytes).unwrap_or("")
}

/// Adds a text in which the change is made: where its first word first stands, its second one stands.
fn put_changed(bytes: &mut Vec<u8>, text: &str, change: &str) -> Result<(), AllocError> {
    let (old, new) = cut(change);
    let (before, behind) = text.split_once(old).unwrap_or((text, ""));
    for part in [before, new, behind] {
        bytes.extend_from_slice(part.as_bytes())?;
    }
    Ok(())
}

/// One call over the streams of the case.
fn called(
    alloc: Global,
    case: &Case,
    words: &[String],
    input: &[u8],
) -> Result<Answer, AllocError> {
    let mut source = FlakySource::new(input.to_vec(alloc)?, [case.fails].to_vec(alloc)?);
    let Ok(mut sink) = MemSink::new(alloc, case.room) else {
        return Err(AllocError);
    };
    let exit = tkernel(alloc, words, &mut source, &mut sink);
    Ok(Answer {
        keeps: kept(&exit),
        status: usize::from(exit.into_status().number()),
        text: sink.taken().to_vec(alloc)?,
    })
}

/// What a call keeps.
fn kept(exit: &Exit) -> &'static [u8] {
    match (&exit.kept, &exit.tasks) {
        (Some(_), None) => b"a machine",
        (None, Some(_)) => b"tasks",
        (None, None) => b"nothing",
        (Some(_), Some(_)) => b"both",
    }
}
