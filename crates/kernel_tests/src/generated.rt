//! Words that were computed apart from this crate.

use program_generator::generate;
use std::test::Fail;

/// DEC r24, BREQ, JMP 1, eight times OUT, RJMP to itself.
const ENDING_WORDS: [u16; 13] = [
    0x958A, 0xF011, 0x940C, 0x0001, 0xBB0B, 0xBB1B, 0xBB2B, 0xBB3B, 0xBB4B, 0xBB5B, 0xBB6B, 0xBB7B,
    0xCFFF,
];

#[test]
fn programs_have_their_words(rt: HostRuntime) -> Result<(), Fail> {
    let alloc = rt.alloc();
    // Three seeds, the first seven words and the last that a number chooses. The last seed is the
    // largest number, so the first product goes beyond 32 bits.
    let rows: [(u32, [u16; 7], u16); 3] = [
        (
            7,
            [0xEC88, 0x0F50, 0x9513, 0x1B44, 0x9553, 0x0F41, 0x9533],
            0x1B65,
        ),
        (
            0,
            [0xEC88, 0x0F46, 0x2770, 0x9513, 0x1B21, 0x2722, 0x1B76],
            0x9553,
        ),
        (
            4_294_967_295,
            [0xEC88, 0x0F45, 0x0F07, 0x0F23, 0x1B17, 0x1B75, 0x9573],
            0x0F34,
        ),
    ];
    for (seed, first, last) in rows {
        let image = generate(alloc, seed)?;
        assert!(rt; image.len_words() == 8014, "{seed}");
        assert!(rt; image.words().starts_with(&first), "{seed}");
        assert!(rt; image.word(8000) == last, "{seed}");
        assert!(rt; image.words().ends_with(&ENDING_WORDS), "{seed}");
    }
    Ok(())
}
