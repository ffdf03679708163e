//! Pages of flash that are erased and programmed, and the operations that are refused. Most tests are lists of steps: an operation
//! and its answer, or what is seen then.

use Step::{Erase, Erases, Ops, Program, Renew, Word};
use flash_model::{Flash, FlashStop, Layout};
use std::alloc::Global;
use std::process::Abort;

/// What an operation answers.
type Answer = Result<(), FlashStop>;

/// A step of a test.
#[derive(Clone, Copy)]
enum Step {
    /// The page is erased.
    Erase(u16, Answer),
    /// Each word of the page is programmed to this one.
    Program(u16, u16, Answer),
    Renew,
    /// The word at an address.
    Word(u16, u16),
    /// How often a page was erased.
    Erases(u16, u32),
    /// The number of operations, and the page of the one that was refused last.
    Ops(u64, Option<u16>),
}

/// A flash that holds three words, and whose operations of these numbers fail. It is in a box: where a flash itself is let go,
/// the proof goes through all its parts.
fn loaded(rt: &impl Abort, alloc: Global, failing: &[u32]) -> Box<Flash> {
    let Ok(flash) = Flash::new(alloc, &[0xE00F, 0xBB0B, 0xCFFF], failing) else {
        panic!(rt; "memory is ample")
    };
    match Box::new(alloc, flash) {
        Ok(flash) => flash,
        Err(_) => panic!(rt; "memory is ample"),
    }
}

/// Erases a page, in a test of few operations.
fn erased(rt: &impl Abort, flash: &mut Flash, page: u16) -> Answer {
    assert!(rt; page < 512 && flash.ops() < 1000);
    flash.erase(page)
}

/// Programs each word of a page to this one, in a test of few operations.
fn programmed(rt: &impl Abort, flash: &mut Flash, page: u16, word: u16) -> Answer {
    assert!(rt; page < 512 && flash.ops() < 1000);
    flash.program(page, &[word; 128])
}

/// How often a page was erased.
fn erases(rt: &impl Abort, flash: &Flash, page: u16) -> u32 {
    assert!(rt; page < 512);
    flash.erases(page)
}

/// Makes a step, and says whether its answer, or what is seen, is that of the step.
fn is_so(rt: &impl Abort, flash: &mut Flash, step: Step) -> bool {
    match step {
        Erase(page, answer) => erased(rt, flash, page) == answer,
        Program(page, word, answer) => programmed(rt, flash, page, word) == answer,
        Renew => {
            flash.renew();
            true
        }
        Word(address, word) => flash.word(address) == word,
        Erases(page, number) => erases(rt, flash, page) == number,
        Ops(ops, refused) => (flash.ops(), flash.refused()) == (ops, refused),
    }
}

/// Each step is so.
fn play(rt: &impl Abort, flash: &mut Flash, steps: &[Step]) {
    for (number, step) in steps.iter().enumerate() {
        assert!(rt; is_so(rt, flash, *step), "step {number}");
    }
}

/// Each step is so over a new flash whose operations of these numbers fail.
fn play_anew(rt: &impl Abort, alloc: Global, failing: &[u32], steps: &[Step]) {
    play(rt, &mut loaded(rt, alloc, failing), steps);
}

const NEW: [Step; 8] = [
    Word(0, 0xE00F),
    Word(3, 0xFFFF),
    Word(0x4000, 0xFFFF),
    Word(0xEFFF, 0xFFFF),
    Word(0xF000, 0x9508),
    Word(0xFFFF, 0x9508),
    Erases(511, 0),
    Ops(0, None),
];

#[test]
fn a_new_flash_holds_image_and_kernel(rt: HostRuntime) {
    play_anew(&rt, rt.alloc(), &[], &NEW);
}

const PROGRAMMED: [Step; 12] = [
    Program(0, 0x00FF, Ok(())),
    Word(0, 0x000F),
    Word(1, 0x000B),
    Word(3, 0x00FF),
    Erase(0, Ok(())),
    Program(0, 0x1234, Ok(())),
    Word(0, 0x1234),
    Word(127, 0x1234),
    Word(128, 0xFFFF),
    Erases(0, 1),
    Erases(1, 0),
    Ops(3, None),
];

/// Programming clears bits alone; only an erase sets them.
#[test]
fn a_page_is_programmed_after_an_erase(rt: HostRuntime) {
    play_anew(&rt, rt.alloc(), &[], &PROGRAMMED);
}

/// What the operation of this number answers, where the one of another is refused on this page.
fn answer(number: u32, refused: u32, page: u16) -> Answer {
    if number == refused {
        Err(FlashStop {
            op: u64::from(number),
            page,
        })
    } else {
        Ok(())
    }
}

/// Five operations of which one is refused: page 0 is erased and programmed twice, page 1 is erased and programmed.
fn five_operations(refused: u32, page: u16) -> [Step; 5] {
    [
        Erase(0, answer(1, refused, page)),
        Program(0, 0x0FF0, answer(2, refused, page)),
        Program(0, 0x00FF, answer(3, refused, page)),
        Erase(1, answer(4, refused, page)),
        Program(1, 0x1234, answer(5, refused, page)),
    ]
}

/// The number of the operation that is refused, its page, what then stands in words 0 and 0x0080, and the erases of both pages.
const REFUSED: [(u32, u16, u16, u16, u32, u32); 5] = [
    (1, 0, 0x0000, 0x1234, 0, 1),
    (2, 0, 0x00FF, 0x1234, 1, 1),
    (3, 0, 0x0FF0, 0x1234, 1, 1),
    (4, 1, 0x00F0, 0x1234, 1, 0),
    (5, 1, 0x00F0, 0xFFFF, 1, 1),
];

/// Each of five operations is refused in turn, and then the others are done as if it hadn't been asked for.
#[test]
fn each_operation_may_be_refused(rt: HostRuntime) {
    for (op, page, first, second, erases, erases_of_1) in REFUSED {
        let mut flash = loaded(&rt, rt.alloc(), &[op]);
        play(&rt, &mut flash, &five_operations(op, page));
        let left = [
            Word(0, first),
            Word(0x0080, second),
            Erases(0, erases),
            Erases(1, erases_of_1),
            Ops(5, Some(page)),
        ];
        play(&rt, &mut flash, &left);
    }
}

/// Five operations of which the second and the fourth are refused.
const ANY_ORDER: [Step; 6] = [
    Erase(0, Ok(())),
    Program(0, 0x0FF0, Err(FlashStop { op: 2, page: 0 })),
    Program(0, 0x00FF, Ok(())),
    Erase(1, Err(FlashStop { op: 4, page: 1 })),
    Program(1, 0x1234, Ok(())),
    Ops(5, Some(1)),
];

/// The list may have any order, numbers that no operation has, and the same number twice.
#[test]
fn numbers_of_a_list_in_any_order(rt: HostRuntime) {
    play_anew(&rt, rt.alloc(), &[9, 4, 0, 2, 4, 4294967295], &ANY_ORDER);
}

/// The even numbers from 131,072 down to 2.
fn even_numbers(rt: &impl Abort, alloc: Global) -> Vec<u32> {
    let mut numbers = Vec::new(alloc);
    for number in 0..65536u32 {
        assert!(rt; numbers.push(131072 - 2 * number).is_ok());
    }
    numbers
}

/// Of 200 operations each second one is refused.
#[test]
fn a_list_of_65536_numbers(rt: HostRuntime) {
    let mut flash = loaded(&rt, rt.alloc(), &even_numbers(&rt, rt.alloc()));
    for number in 1..201u32 {
        let refused = number - number % 2;
        play(&rt, &mut flash, &[Erase(130, answer(number, refused, 130))]);
    }
    play(&rt, &mut flash, &[Erases(130, 100), Ops(200, Some(130))]);
}

/// An erase that is refused, and five operations after a renewal.
const RENEWED: [Step; 11] = [
    Erase(2, Err(FlashStop { op: 1, page: 2 })),
    Renew,
    Ops(0, None),
    Erase(0, Ok(())),
    Program(0, 0x0FF0, Ok(())),
    Program(0, 0x00FF, Ok(())),
    Erase(1, Ok(())),
    Program(1, 0x1234, Ok(())),
    Word(0, 0x00F0),
    Word(0x0080, 0x1234),
    Ops(5, None),
];

#[test]
fn a_renewed_flash_refuses_nothing(rt: HostRuntime) {
    play_anew(&rt, rt.alloc(), &[1, 2, 3], &RENEWED);
}

/// The words of an image, and the first page of its pool and how many there are.
const POOLS: [(u16, u16, u16); 4] = [
    (0, 128, 352),
    (16_384, 128, 352),
    (16_385, 192, 288),
    (24_576, 192, 288),
];

#[test]
fn a_long_image_has_a_smaller_pool(rt: HostRuntime) {
    for (image_words, pool_first, pool_pages) in &POOLS {
        assert!(rt; *image_words <= 24_576);
        let layout = Layout::of(*image_words);
        assert!(rt; layout.image_words == *image_words);
        assert!(rt; layout.pool_first == *pool_first);
        assert!(rt; layout.pool_pages == *pool_pages);
    }
}
