//! Words of the manual and of small programs.

use avr_encode::{Words, encode};
use avr_isa::{Form, HighReg, ImmOp, Instr, Reg, Rel12, TwoOp};

#[test]
fn instructions_have_their_words(rt: HostRuntime) {
    let r16 = Reg::new(16).unwrap();
    let r24 = Reg::new(24).unwrap();
    for (form, first, second) in [
        (Form::Jmp(0x1234), 0x940C, Some(0x1234)),
        (Form::Sts(0x0101, r24), 0x9380, Some(0x0101)),
        (Form::Two(TwoOp::Mul, r16, r24), 0x9F08, None),
        (
            Form::Imm(ImmOp::Ldi, HighReg::new(24).unwrap(), 200),
            0xEC88,
            None,
        ),
        (Form::Rjmp(Rel12::new(-1).unwrap()), 0xCFFF, None),
    ] {
        let words = Instr::new(form).map(|i| encode(&i));
        assert!(rt; words == Some(Words { first, second }));
    }
}
