//! Cutting a text at a byte, and at its line ends.

ghost use Rattle.std.specs.Prelude.{◌≡◌, ◌<◌, ◌++◌, ◌∷◌, length, position, ◌==◌, MatchOption};
ghost use Rattle.text_lines.specs.Lines.{lines_of, without_last};
ghost use Rattle.text_lines.specs.Cutting.{IsCut, Lacks};

/// The first line of a text, without its line end, and the text behind the line.
pub fn first_line(text: &[u8]) -> (&[u8], &[u8])
    requires { 0 < length text.now }
    ensures cut { IsCut text.now result.0.now result.1.now }
    ensures lines { lines_of text.now ≡ result.0.now ∷ lines_of result.1.now }
    ensures shorter { length result.1.now < length text.now }
{
    match split_once(text, b'\n') {
        Some((line, rest)) => (without_return(line), rest),
        None => (without_return(text), &[]),
    }
}

/// The text before the first position of a byte, and the text behind it.
pub fn split_once(text: &[u8], byte: u8) -> Option<(&[u8], &[u8])>
    ensures cases { MatchOption result (Lacks byte text.now) (λ parts. Lacks byte parts.0.now × (text.now ≡ parts.0.now ++ byte ∷ parts.1.now)) }
{
    let position = position_of(text, byte)?;
    Some((&text[..position], &text[position + 1..]))
}

/// A byte's first position in a text.
fn position_of(text: &[u8], byte: u8) -> Option<usize>
    ensures value { result ≡ position (λ b. b == byte) text.now }
{
    text.iter().position(|b| *b == byte)
}

/// The line without one carriage return at its end.
fn without_return(line: &[u8]) -> &[u8]
    ensures value { result.now ≡ without_last 13 line.now }
{
    match line {
        [line @ .., b'\r'] => line,
        _ => line,
    }
}
