//! Texts with line ends of each kind.

use text_lines::{first_line, split_once};

/// Texts, their first lines, and what stands behind: line ends of each kind, and texts that end without one.
static TEXTS: [(&[u8], &[u8], &[u8]); 7] = [
    (b"first\nsecond\n", b"first", b"second\n"),
    (b"first\r\n\r\n", b"first", b"\r\n"),
    (b"first\r\r\n", b"first\r", b""),
    (b"\n\n", b"", b"\n"),
    (b"a\rb", b"a\rb", b""),
    (b"last\r", b"last", b""),
    (b"\r", b"", b""),
];

#[test]
fn texts_are_cut_at_their_line_ends(rt: HostRuntime) {
    for (text, line, rest) in &TEXTS {
        assert!(rt; !text.is_empty());
        let parts = first_line(text);
        assert!(rt; parts.0 == *line);
        assert!(rt; parts.1 == *rest);
    }
}

/// The first of several places counts.
#[test]
fn a_text_is_cut_once(rt: HostRuntime) {
    let (before, behind) = split_once(b"at 5 uart", b' ').expect(&rt, "a space");
    assert!(rt; before == b"at".as_slice());
    assert!(rt; behind == b"5 uart".as_slice());
    assert!(rt; split_once(b"at", b' ').is_none());
}
