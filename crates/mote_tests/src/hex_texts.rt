//! Texts of outside tools, each fault and its message, and a text that is written.

use crate::support::ample;
use hex_image::{HexError, Image, image_or_fault, one_fault, one_image, read, write};
use std::alloc::Global;
use std::process::Abort;

/// `ldi r16, 0x0F`, `out 0x1B, r16`, `rjmp .-2`.
const ROW: &[u8] = b":060000000FE00BBBFFCF77\n:00000001FF\n";

/// The words that a text gives, and where the text behind it begins.
fn answer(rt: &impl Abort, alloc: Global, text: &[u8]) -> (Vec<u16>, usize) {
    assert!(rt; text.len() <= 2_097_152);
    match read(alloc, text) {
        Ok((image, position)) => (ample(rt, image.words().to_vec(alloc)), position),
        Err(_) => panic!(rt; "the text is refused"),
    }
}

/// The text is refused with this message.
fn is_refused(rt: &impl Abort, alloc: Global, text: &[u8], message: &str) {
    assert!(rt; text.len() <= 2_097_152);
    match read(alloc, text) {
        Ok(_) => panic!(rt; "the text is read"),
        Err(HexError::Bad { line, fault }) => {
            let told = ample(rt, format!(in alloc; "bad hex line {line} {fault}"));
            assert!(rt; told.as_str() == message);
        }
        Err(HexError::NoMemory) => panic!(rt; "memory is ample"),
    }
}

/// The text of an image of these words.
fn written(rt: &impl Abort, alloc: Global, words: &[u16]) -> Vec<u8> {
    assert!(rt; words.len() <= 24_576);
    let image = ample(rt, Image::from_words(alloc, words));
    assert!(rt; image.words() == words);
    ample(rt, write(alloc, &image))
}

/// Texts of outside tools, the number of their words, and their bytes.
static FILES: [(&[u8], usize); 3] = [
    // avr-objcopy 2.26 -O ihex, of two sections with a gap between them
    (
        b":060000000FE00BBBFFCF77\r\n:03002000010203D7\r\n:00000001FF\r\n",
        18,
    ),
    // srec_cat 1.64 -intel -address-length=3 -execution-start-address=0
    (
        b":020000020000FC\n:060000000FE00BBBFFCF77\n:03001400010203E3\n:0400000300000000F9\n:00000001FF\n",
        12,
    ),
    // srec_cat 1.64 -intel -execution-start-address=0
    (
        b":020000040000FA\n:060000000FE00BBBFFCF77\n:03001400010203E3\n:0400000500000000F7\n:00000001FF\n",
        12,
    ),
];

/// The words of the files: blank up to a number of words, but for the first three and the last two.
const FIRST: [u16; 3] = [0xE00F, 0xBB0B, 0xCFFF];

const LAST: [u16; 2] = [0x0201, 0xFF03];

fn words_of_file(rt: &impl Abort, alloc: Global, count: usize) -> Vec<u16> {
    let mut words = Vec::new(alloc);
    ample(rt, words.extend_from_slice(&FIRST));
    ample(rt, words.resize(count.saturating_sub(2), 0xFFFF));
    ample(rt, words.extend_from_slice(&LAST));
    words
}

#[test]
fn files_of_outside_tools_are_read(rt: HostRuntime) {
    for (text, count) in &FILES {
        let (words, position) = answer(&rt, rt.alloc(), text);
        let wanted = words_of_file(&rt, rt.alloc(), *count);
        assert!(rt; words.as_slice() == wanted.as_slice());
        assert!(rt; position == text.len());
    }
}

/// Texts, the number of their words, and where the text behind them begins.
static GOOD: [(&[u8], usize, usize); 6] = [
    (ROW, 3, 36),
    (
        b":020000040000FA\r\n:060000000fe00bbbffcf77\r\n:0400000300000000F9\r\n:00000001FF\r\nat 5 uart 0x41\r\n",
        3,
        76,
    ),
    (b":00FFFF0002\n:00000001FF", 0, 23),
    (
        b":020000021000EC\n:020000020001FB\n:01000000AA55\n:00000001FF\n\n",
        9,
        58,
    ),
    (b"\n\r\n:00001201ED\n:00000001FF\n", 0, 15),
    // The greatest place is 49,151, so the greatest image has 24,576 words.
    (b":01BFFF000041\n:00000001FF", 24_576, 25),
];

#[test]
fn texts_are_read_up_to_their_end_record(rt: HostRuntime) {
    for (text, count, end) in &GOOD {
        let (words, position) = answer(&rt, rt.alloc(), text);
        assert!(rt; words.len() == *count);
        assert!(rt; position == *end);
    }
}

static FAULTY: [(&[u8], &str); 20] = [
    (b"", "bad hex line 1 end"),
    (b"\r", "bad hex line 2 end"),
    (b":01C00000003F", "bad hex line 1 size"),
    (b";", "bad hex line 1 start"),
    (b":0G", "bad hex line 1 digit"),
    (b"\n\r\n:0", "bad hex line 3 length"),
    (
        b":060000000FE00BBBFFCF78\n:00000001FF\n",
        "bad hex line 1 checksum",
    ),
    (b":00000006FA", "bad hex line 1 kind"),
    (b":0100000100FE", "bad hex line 1 kind"),
    (b":00000006FB", "bad hex line 1 checksum"),
    (b":02FFFF00000000", "bad hex line 1 wrap"),
    (
        b":060000000FE00BBBFFCF77\n:060000000FE00BBBFFCF77\n;",
        "bad hex line 2 twice",
    ),
    (b":01BFFF000041\n:02BFFF00000040", "bad hex line 2 twice"),
    (b":02BFFF00000040", "bad hex line 1 size"),
    (b":02000002FFFFFE\n:0100000000FF", "bad hex line 2 size"),
    (b":020000040001F9\n:0100000000FF", "bad hex line 2 size"),
    (b":0100000000FF\n:0200000208\n", "bad hex line 2 length"),
    (b":01C00000003F\n:00000001FF", "bad hex line 1 size"),
    (b":02BFFF00000040\n:00000001FF", "bad hex line 1 size"),
    (
        b":01BFFF000041\n:01C00000003F\n:00000001FF",
        "bad hex line 2 size",
    ),
];

#[test]
fn the_first_fault_of_the_first_faulty_line_is_told(rt: HostRuntime) {
    for (text, message) in &FAULTY {
        is_refused(&rt, rt.alloc(), text, message);
    }
    one_image();
    one_fault();
    image_or_fault();
}

#[test]
fn a_text_cut_short_is_refused(rt: HostRuntime) {
    for end in 0..35usize {
        let message = match end {
            0 => "bad hex line 1 end",
            1..=22 => "bad hex line 1 length",
            23 | 24 => "bad hex line 2 end",
            _ => "bad hex line 2 length",
        };
        is_refused(&rt, rt.alloc(), &ROW[..end], message);
    }
    for end in [35, 36] {
        let (words, position) = answer(&rt, rt.alloc(), &ROW[..end]);
        assert!(rt; words.len() == 3);
        assert!(rt; position == end);
    }
}

#[test]
fn a_text_of_two_mebibytes_of_line_feeds_has_no_end(rt: HostRuntime) {
    let text = ample(&rt, vec![in rt.alloc(); b'\n'; 2_097_152]);
    is_refused(&rt, rt.alloc(), &text, "bad hex line 2097153 end");
}

/// Words and their text.
const IMAGES: [(&[u16], &[u8]); 2] = [
    (&FIRST, ROW),
    (
        &[0; 9],
        b":1000000000000000000000000000000000000000F0\n:020010000000EE\n:00000001FF\n",
    ),
];

#[test]
fn images_are_written(rt: HostRuntime) {
    for (words, wanted) in &IMAGES {
        let text = written(&rt, rt.alloc(), words);
        assert!(rt; text.as_slice() == *wanted);
    }
    let text = written(&rt, rt.alloc(), &[0x1234; 24_576]);
    let (words, position) = answer(&rt, rt.alloc(), &text);
    assert!(rt; words.len() == 24_576);
    assert!(rt; position == text.len());
}
