//! The views of `tkwatch`, each once: the whole text and the status. `.ci/watch` compares them with runs and with another machine.
use crate::support::{input_of, words_of};
use std::test::Fail;
use tk_io::{MemSink, MemSource, Sink};
use tk_watch::{Status, tkwatch};

/// LDI r16, 0x0F; STS 0x0103, r16; OUT PORTA, r16; RJMP to itself.
const STORE: [u16; 5] = [0xE00F, 0x9300, 0x0103, 0xBB0B, 0xCFFF];

/// More room than any text of these tests needs.
const ROOM: usize = 2000;

/// What each view's words answer for it.
static VIEWS: [(&[&str], &[u8]); 8] = [
    (
        &["lines"],
        b"step 3 PORTA 0x0F\n\
          halted 0x0004 steps 3 checkpoints 0\n",
    ),
    (
        &["state"],
        b"pc 0x0004\n\
          sp 0x0000\n\
          sreg 0x00\n\
          r0 0x00\n\
          r1 0x00\n\
          r2 0x00\n\
          r3 0x00\n\
          r4 0x00\n\
          r5 0x00\n\
          r6 0x00\n\
          r7 0x00\n\
          r8 0x00\n\
          r9 0x00\n\
          r10 0x00\n\
          r11 0x00\n\
          r12 0x00\n\
          r13 0x00\n\
          r14 0x00\n\
          r15 0x00\n\
          r16 0x0F\n\
          r17 0x00\n\
          r18 0x00\n\
          r19 0x00\n\
          r20 0x00\n\
          r21 0x00\n\
          r22 0x00\n\
          r23 0x00\n\
          r24 0x00\n\
          r25 0x00\n\
          r26 0x00\n\
          r27 0x00\n\
          r28 0x00\n\
          r29 0x00\n\
          r30 0x00\n\
          r31 0x00\n\
          polls 0\n\
          events 0 of 0\n\
          slots 1 of 128\n\
          enabled 0x00\n\
          requested 0x00\n\
          operations 1\n\
          halted 0x0004 steps 3 checkpoints 0\n",
    ),
    (
        &["memory"],
        b"0x0100 0x00 0x00 0x00 0x0F 0x00 0x00 0x00 0x00 0x00 0x00 0x00 0x00 0x00 0x00 0x00 0x00\n\
          halted 0x0004 steps 3 checkpoints 0\n",
    ),
    (
        &["profile"],
        b"0x0000 1\n\
          0x0001 1\n\
          0x0003 1\n\
          halted 0x0004 steps 3 checkpoints 0\n",
    ),
    (
        &["trace", "1", "2"],
        b"step 1 0x0001 0x0000 0x00 0x00 0x00 0x00 0x00 0x00 0x00 0x00 0x00 0x00 0x00 0x00 0x00 0x00 0x00 0x00 0x00 0x0F 0x00 0x00 0x00 0x00 0x00 0x00 0x00 0x00 0x00 0x00 0x00 0x00 0x00 0x00 0x00\n\
          step 2 0x0003 0x0000 0x00 0x00 0x00 0x00 0x00 0x00 0x00 0x00 0x00 0x00 0x00 0x00 0x00 0x00 0x00 0x00 0x00 0x0F 0x00 0x00 0x00 0x00 0x00 0x00 0x00 0x00 0x00 0x00 0x00 0x00 0x00 0x00 0x00\n\
          halted 0x0004 steps 3 checkpoints 0\n",
    ),
    (
        &["visits", "0x0000", "0x0003"],
        b"step 0 0x0000\n\
          step 2 0x0003\n\
          halted 0x0004 steps 3 checkpoints 0\n",
    ),
    (
        &["changes", "0x0100", "64"],
        b"step 2 0x0001 0x0103 0x00 0x0F\n\
          halted 0x0004 steps 3 checkpoints 0\n",
    ),
    (
        &["accesses", "0x0100", "64"],
        b"step 2 0x0001 store 0x0103 0x0F 0x00\n\
          halted 0x0004 steps 3 checkpoints 0\n",
    ),
];

#[test]
fn each_view_answers_its_text(rt: HostRuntime) -> Result<(), Fail> {
    for (words, text) in &VIEWS {
        let mut input = MemSource::new(input_of(rt.alloc(), &STORE, b"")?);
        let mut out = MemSink::new(rt.alloc(), ROOM)?;
        let status = tkwatch(
            rt.alloc(),
            &words_of(rt.alloc(), words)?,
            &mut input,
            &mut out,
        );
        assert!(rt; status == Status::Done);
        assert!(rt; out.taken() == *text);
    }
    Ok(())
}
