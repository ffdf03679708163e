//! A case, and how its lines say it.
use hex_image::{Image, MOST_WORDS, write};
use std::alloc::{AllocError, Global};

/// Words and an input, and what they are to be answered with.
#[derive(Drop)]
pub(crate) struct Case {
    pub name: Vec<u8>,
    /// Words between spaces: each list of them is to be answered so.
    pub words: Vec<String>,
    pub input: Vec<u8>,
    /// How many bytes of the input there are: each number from the first to the last. More are all of it.
    pub shortest: usize,
    pub longest: usize,
    /// The call of the source that fails. The first is call 1, so none does by 0.
    pub fails: u64,
    /// How many bytes the sink takes.
    pub room: usize,
    /// A text of the first answer, a blank, and what stands there in its place.
    pub change: Vec<u8>,
    /// The words of a second call, over the input and the first answer behind it. There is none without words.
    pub then: Vec<String>,
    /// The status. Where its line has no number, it is one that no call answers with.
    pub status: usize,
    pub text: Vec<u8>,
    /// What the first call keeps, where that is compared.
    pub keeps: Vec<u8>,
}

/// More room than the text of any case needs, a dump of a full pool too.
const ROOM: usize = 300_000;

impl Case {
    /// A case of which no line has come.
    pub(crate) fn new(alloc: Global) -> Case {
        Case {
            name: Vec::new(alloc),
            words: Vec::new(alloc),
            input: Vec::new(alloc),
            shortest: usize::MAX,
            longest: usize::MAX,
            fails: 0,
            room: ROOM,
            change: Vec::new(alloc),
            then: Vec::new(alloc),
            status: usize::MAX,
            text: Vec::new(alloc),
            keeps: Vec::new(alloc),
        }
    }

    /// Takes one of its lines.
    pub(crate) fn take(&mut self, alloc: Global, line: &str) -> Result<(), AllocError> {
        let (kind, rest) = cut(line);
        match kind {
            "words:" => Ok(self.words.push(String::from_str(alloc, rest)?)?),
            "then:" => {
                self.then = words_of(alloc, rest)?;
                Ok(())
            }
            "image:" => put_image(&mut self.input, alloc, rest),
            "lengths:" | "fails:" | "room:" | "status:" => {
                self.take_numbers(kind, rest);
                Ok(())
            }
            _ => self.take_text(kind, rest, line),
        }
    }

    /// Takes a line of one number or two.
    fn take_numbers(&mut self, kind: &str, rest: &str) {
        let (first, second) = cut(rest);
        let (first, second) = (number(first), number(second));
        match kind {
            "lengths:" => {
                self.shortest = first;
                self.longest = second;
            }
            "fails:" => self.fails = first as u64,
            "room:" => self.room = first,
            _ => self.status = first,
        }
    }

    /// Takes a line of text.
    fn take_text(&mut self, kind: &str, rest: &str, line: &str) -> Result<(), AllocError> {
        match kind {
            "#" => Ok(()),
            "input:" => put(&mut self.input, rest, false),
            "script:" => put(&mut self.input, rest, true),
            "times:" => put_times(&mut self.input, rest),
            "change:" => put(&mut self.change, rest, false),
            "keeps:" => put(&mut self.keeps, rest, false),
            ">" => put(&mut self.text, rest, true),
            ">>" => put(&mut self.text, rest, false),
            _ => put(&mut self.name, line, false),
        }
    }
}

/// What stands before a text's first blank, and behind it.
pub(crate) fn cut(text: &str) -> (&str, &str) {
    text.split_once(' ').unwrap_or((text, ""))
}

/// The number of these digits, or else one that is greater than any.
fn number(digits: &str) -> usize {
    digits.parse().unwrap_or(usize::MAX)
}

/// Adds a text, in which \n and \r are a line feed and a carriage return, and a line feed where it is a line.
fn put(bytes: &mut Vec<u8>, text: &str, is_line: bool) -> Result<(), AllocError> {
    let mut escapes = false;
    for byte in text.as_bytes() {
        if !escapes && *byte == b'\\' {
            escapes = true;
        } else {
            bytes.push(meant(*byte, escapes))?;
            escapes = false;
        }
    }
    if is_line {
        bytes.push(b'\n')?;
    }
    Ok(())
}

/// What a byte stands for, behind a backslash or not.
fn meant(byte: u8, escaped: bool) -> u8 {
    match byte {
        b'n' if escaped => b'\n',
        b'r' if escaped => b'\r',
        other => other,
    }
}

/// Adds such a text as often as the number before it says.
fn put_times(bytes: &mut Vec<u8>, line: &str) -> Result<(), AllocError> {
    let (count, text) = cut(line);
    for _ in 0..count.parse::<u32>().unwrap_or(0) {
        put(bytes, text, false)?;
    }
    Ok(())
}

/// The words of a line, between spaces.
pub(crate) fn words_of(alloc: Global, line: &str) -> Result<Vec<String>, AllocError> {
    let mut words = Vec::new(alloc);
    if line.is_empty() {
        return Ok(words);
    }
    for word in line.split(' ') {
        words.push(String::from_str(alloc, word)?)?;
    }
    Ok(words)
}

/// Adds the HEX text of an image, whose words stand between spaces.
fn put_image(bytes: &mut Vec<u8>, alloc: Global, line: &str) -> Result<(), AllocError> {
    let mut words = Vec::new(alloc);
    for part in line.split_whitespace() {
        put_words(&mut words, part)?;
    }
    if words.len() > MOST_WORDS as usize {
        return Err(AllocError);
    }
    let Ok(image) = Image::from_words(alloc, &words) else {
        return Err(AllocError);
    };
    let Ok(text) = write(alloc, &image) else {
        return Err(AllocError);
    };
    bytes.extend_from_slice(&text)
}

/// Adds a word of four digits, so many times as a number behind a star says, or once.
fn put_words(words: &mut Vec<u16>, part: &str) -> Result<(), AllocError> {
    let (digits, count) = part.split_once('*').unwrap_or((part, "1"));
    let word = u16::from_str_radix(digits, 16).unwrap_or(0);
    for _ in 0..count.parse::<u16>().unwrap_or(0) {
        words.push(word)?;
    }
    Ok(())
}
