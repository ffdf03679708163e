//! Restarts over pools that a loss of power may leave, and machines over the flash that they leave.

ghost use Rattle.std.specs.Prelude.{◌≡◌, ◌≤◌, [], length, IfOk};
ghost use Rattle.flash_words.specs.Layouts.{IsRight, layout_of};
ghost use Rattle.nat_page.specs.Faithful.{IsFaithful};
ghost use Rattle.pool_check.specs.Links.{HaveFormsAround};

use crate::recycling::{ROUND, go_round, small};
use crate::runs::{boot, counts, halted_at, run};
use crate::support::{LOOP, loaded_to_fail, loop_page, sram_at_boot};
use flash_model::{Flash, Layout};
use hex_image::Image;
use input_script::read;
use nat_page::page_words;
use std::test::Fail;
use swap_store::Swap;
use tk_io::MemSink;
use tk_restart::{Kept, restart, tear};
use tk_run::{End, Machine, Options};

/// Scripts that have each operation of the calls fail in turn.
static SCRIPTS: [&[u8]; 9] = [
    b"fail flash 1\n",
    b"fail flash 2\n",
    b"fail flash 3\n",
    b"fail flash 4\n",
    b"fail flash 5\n",
    b"fail flash 6\n",
    b"fail flash 7\n",
    b"fail flash 8\n",
    b"fail flash 9\n",
];

/// A jump into the second word of a JMP: its pages are 128 and 129.
const JUMP: [u16; 5] = [0xC001, 0x940C, 0xE00F, 0xBB0B, 0xCFFF];

/// A loop with calls, as `examples/asm/calls.s`: shows ten sums on port A. It has three pages.
const CALLS: [u16; 17] = [
    0xEF0F, 0xBF0D, 0xE100, 0xBF0E, 0xE040, 0xE051, 0x940E, 0x000D, 0xD006, 0x9553, 0x305B, 0xF7D1,
    0xCFFF, 0x0F45, 0x9508, 0xBB4B, 0x9508,
];

/// What a restart leaves.
#[derive(Drop)]
struct Left {
    told: Kept,
    flash: Flash,
}

/// A flash that holds the image, and an empty pool; no operation is to fail.
fn unfailing(rt: &HostRuntime, layout: &Layout, image: &[u16]) -> Result<Flash, &'static str>
    requires right { IsRight layout.now }
    requires short { length image.now ≤ 24576 }
    requires long { length image.now ≡ layout.now.image_words }
    ensures around { IfOk result (λ flash. HaveFormsAround layout.now image.now flash.words) }
    ensures sound { IfOk result (λ flash. flash.failing ≡ []) }
    ensures fresh { IfOk result (λ flash. flash.ops ≡ 0) }
{
    match Flash::new(rt.alloc(), image, &[]) {
        Ok(flash) => Ok(flash),
        Err(_) => Err("memory is ample"),
    }
}

/// A restart of a pool with these words in its first three pages.
fn restarted(rt: &HostRuntime, image: &[u16], pages: &[[u16; 128]; 3]) -> Result<Left, &'static str>
    requires short { length image.now ≤ 16384 }
    ensures faithful { IfOk result (λ left. IsFaithful (layout_of (length image.now)) image.now left.flash.words) }
{
    let layout = Layout::of(image.len() as u16);
    let mut flash = unfailing(rt, &layout, image)?;
    tear(&mut flash, 128, &pages[0]);
    tear(&mut flash, 129, &pages[1]);
    tear(&mut flash, 130, &pages[2]);
    let told = restart(&mut flash, image, &layout);
    Ok(Left { told, flash })
}

/// The first three pages of the pool.
fn pages_of(machine: &Machine) -> [[u16; 128]; 3] {
    let flash = &machine.kernel.mote.flash;
    [
        page_words(flash, 128),
        page_words(flash, 129),
        page_words(flash, 130),
    ]
}

/// The whole page of the loop.
fn loop_words(way: [u16; 2]) -> [u16; 128] {
    let mut words = [0xFFFF; 128];
    words[..35].copy_from_slice(&loop_page(way));
    words
}

#[test]
fn what_is_kept_of_two_pages(rt: HostRuntime) -> Result<(), Fail> {
    let jumps = loop_words([0x940C, 0x4007]);
    let calls = loop_words([0x940E, 0xF000]);
    let blank = [0xFFFF; 128];
    let zeros = [0x0000; 128];
    let mut torn = jumps;
    torn[127] = 0;
    let cases = [
        // first, second, kept, dropped, first and second afterwards, operations
        (jumps, blank, 1, 0, jumps, blank, 6),
        (jumps, zeros, 1, 1, jumps, blank, 7),
        // it lists addresses of the page before it
        (jumps, jumps, 1, 1, jumps, blank, 7),
        // a stub that leads to an entry that is none stays no jump
        (torn, jumps, 1, 1, blank, calls, 9),
        // code of the image by accident is kept
        (zeros, calls, 1, 1, blank, calls, 7),
        (torn, torn, 0, 2, blank, blank, 8),
    ];
    for (first, second, kept, dropped, one, two, ops) in cases {
        let left = restarted(&rt, &LOOP, &[first, second, blank])?;
        assert!(rt; left.told.kept == kept);
        assert!(rt; left.told.dropped == dropped);
        assert!(rt; page_words(&left.flash, 128) == one);
        assert!(rt; page_words(&left.flash, 129) == two);
        assert!(rt; left.flash.ops() == ops);
    }
    Ok(())
}

/// The first of the two pages that a run of the jump makes. It jumps into the second.
fn first_page_of_the_jump(rt: &HostRuntime) -> Result<[u16; 128], Fail> {
    let mut out = MemSink::new(rt.alloc(), 100)?;
    let mut machine = boot(rt, &JUMP, 255)?;
    match halted_at(run(&mut machine, 1000, &mut out)?) {
        Some(4) => Ok(page_words(&machine.kernel.mote.flash, 128)),
        _ => Err("the jump to itself isn't reached".into()),
    }
}

/// Each jump into page 129 is a call of the bridge.
fn opened(mut words: [u16; 128]) -> [u16; 128] {
    for k in 0..127usize {
        let into = words[k + 1] / 128;
        if words[k] == 0x940C && into == 129 {
            words[k] = 0x940E;
            words[k + 1] = 0xF000;
        }
    }
    words
}

/// Two pages, of which the first jumps into the second, as a run makes them; the second is lost.
#[test]
fn a_jump_into_a_page_that_is_lost_calls_the_bridge_again(rt: HostRuntime) -> Result<(), Fail> {
    let first = first_page_of_the_jump(&rt)?;
    let expected = opened(first);
    assert!(rt; expected != first);
    let left = restarted(&rt, &JUMP, &[first, [0; 128], [0xFFFF; 128]])?;
    assert!(rt; left.told.kept == 1);
    assert!(rt; left.told.dropped == 1);
    assert!(rt; page_words(&left.flash, 128) == expected);
    assert!(rt; page_words(&left.flash, 129) == [0xFFFF; 128]);
    Ok(())
}

/// What a run over what a restart leaves does.
#[derive(Drop)]
struct Second {
    end: End,
    counts: [u64; 5],
    out: MemSink,
}

/// A machine over this flash, which holds the image.
fn machine_over(rt: &HostRuntime, flash: Flash, image: &Image) -> Result<Box<Machine>, Fail>
    requires faithful { IsFaithful (layout_of (length image.now)) image.now flash.words }
{
    let script = read(rt.alloc(), b"")?;
    let swap = Swap::new(rt.alloc(), 128)?;
    let machine = Machine::over(flash, image, script, swap, 255);
    Ok(Box::new(rt.alloc(), machine)?)
}

/// A restart of these three pages, and a machine over what it leaves.
fn machine_again(
    rt: &HostRuntime,
    words: &[u16],
    pages: &[[u16; 128]; 3],
) -> Result<Box<Machine>, Fail>
    requires short { length words.now ≤ 16384 }
{
    let image = Image::from_words(rt.alloc(), words)?;
    let left = restarted(rt, words, pages)?;
    machine_over(rt, left.flash, &image)
}

/// A restart of these three pages, and a run over what it leaves.
fn run_again(rt: &HostRuntime, words: &[u16], pages: &[[u16; 128]; 3]) -> Result<Second, Fail>
    requires short { length words.now ≤ 16384 }
{
    let mut machine = machine_again(rt, words, pages)?;
    let mut out = MemSink::new(rt.alloc(), 1000)?;
    let end = run(&mut machine, 1000, &mut out)?;
    Ok(Second {
        end,
        counts: counts(&machine),
        out,
    })
}

/// A machine over a flash whose pool has the loop's page makes none, and counts that one.
#[test]
fn a_run_over_a_kept_page(rt: HostRuntime) -> Result<(), Fail> {
    let kept = loop_words([0x940C, 0x4007]);
    let second = run_again(&rt, &LOOP, &[kept, [0; 128], [0xFFFF; 128]])?;
    assert!(rt; halted_at(second.end) == Some(3));
    assert!(rt; second.counts == [7, 2, 31, 1, 1]);
    Ok(())
}

/// What a run of the calls leaves: its end, its text, its pages, the operations that it tried, and the place among the
/// pages of the one that was refused.
#[derive(Drop)]
struct Gone {
    end: End,
    out: MemSink,
    pages: [[u16; 128]; 3],
    ops: u64,
    refused: Option<usize>,
}

/// A run of the calls, with the operations of flash failing that the script lists.
fn run_calls(rt: &HostRuntime, script: &[u8]) -> Result<Gone, Fail> {
    if script.len() > 100 {
        return Err("the script is short".into());
    }
    let image = Image::from_words(rt.alloc(), &CALLS)?;
    let script = read(rt.alloc(), script)?;
    let options = Options {
        quantum: 255,
        swap: 128,
    };
    let machine = Machine::boot(rt.alloc(), &image, script, options)?;
    let mut machine = Box::new(rt.alloc(), machine)?;
    let mut out = MemSink::new(rt.alloc(), 1000)?;
    let end = run(&mut machine, 1000, &mut out)?;
    let flash = &machine.kernel.mote.flash;
    Ok(Gone {
        end,
        out,
        pages: pages_of(&machine),
        ops: flash.ops(),
        refused: match flash.refused() {
            Some(page) => Some(usize::from(page.clamp(128, 130) - 128)),
            None => None,
        },
    })
}

/// The calls with each operation refused in turn. Its page then has these words in turn: zeros; blank ones; those that it
/// had before; those of each of the three pages of a whole run, so that they are code of the image by accident, or list an
/// address of another page; and code of the image with a wrong word at its end.
#[test]
fn each_operation_is_lost_with_each_content(rt: HostRuntime) -> Result<(), Fail> {
    let fresh = run_calls(&rt, b"")?;
    assert!(rt; fresh.ops == SCRIPTS.len() as u64);
    assert!(rt; halted_at(fresh.end).is_some());
    for script in &SCRIPTS {
        each_content_is_survived(&rt, &run_calls(&rt, script)?, &fresh)?;
    }
    Ok(())
}

/// What a page may hold where its operation was refused in a run of the calls, beside a whole run of them.
fn contents_of(page: [u16; 128], whole: &[[u16; 128]; 3]) -> [[u16; 128]; 7] {
    let mut wrong = whole[0];
    wrong[127] = 0x1234;
    [
        [0; 128],
        [0xFFFF; 128],
        page,
        whole[0],
        whole[1],
        whole[2],
        wrong,
    ]
}

/// Whichever words the page of the refused operation has, a second run does what a whole one did.
fn each_content_is_survived(rt: &HostRuntime, left: &Gone, whole: &Gone) -> Result<(), Fail> {
    let place = left.refused.ok_or("no operation is refused")?.min(2);
    for words in contents_of(left.pages[place], &whole.pages) {
        let mut lost = left.pages;
        lost[place] = words;
        let second = run_again(rt, &CALLS, &lost)?;
        if halted_at(second.end) != halted_at(whole.end) {
            return Err("a second run ends elsewhere".into());
        }
        if second.out.taken() != whole.out.taken() {
            return Err("a second run shows other lines".into());
        }
    }
    Ok(())
}

/// A restart of a small pool with these words in its two pages.
fn restarted_in(rt: &HostRuntime, layout: &Layout, pages: &[[u16; 128]; 2]) -> Result<Left, Fail>
    requires right { IsRight layout.now }
    requires image { layout.now.image_words ≡ 4 }
    requires first { layout.now.pool_first ≡ 128 }
    requires pool { layout.now.pool_pages ≡ 2 }
{
    let mut flash = unfailing(rt, layout, &ROUND)?;
    tear(&mut flash, 128, &pages[0]);
    tear(&mut flash, 129, &pages[1]);
    let told = restart(&mut flash, &ROUND, layout);
    Ok(Left { told, flash })
}

/// What a restart of a small pool with these words in its two pages tells.
fn told_in(rt: &HostRuntime, layout: &Layout, pages: &[[u16; 128]; 2]) -> Result<Kept, Fail>
    requires right { IsRight layout.now }
    requires image { layout.now.image_words ≡ 4 }
    requires first { layout.now.pool_first ≡ 128 }
    requires pool { layout.now.pool_pages ≡ 2 }
{
    let left = restarted_in(rt, layout, pages)?;
    Ok(left.told)
}

/// What going round leaves: the two pages, and which of them the refused operation was on, if one was refused.
#[derive(Clone, Copy)]
struct Round {
    pages: [[u16; 128]; 2],
    ops: u64,
    refused: Option<usize>,
}

/// Goes round in a small pool whose operations of these numbers are to fail.
fn gone_round(rt: &HostRuntime, layout: &Layout, failing: &[u32]) -> Result<Round, Fail>
    requires right { IsRight layout.now }
    requires image { layout.now.image_words ≡ 4 }
{
    let mut flash = loaded_to_fail(rt, layout, &ROUND, failing)?;
    let mut sram = sram_at_boot(layout);
    let gone = go_round(&mut sram, &mut flash, layout);
    let page = flash.refused().unwrap_or(128).clamp(128, 129);
    Ok(Round {
        pages: [page_words(&flash, 128), page_words(&flash, 129)],
        ops: flash.ops(),
        refused: if gone.is_err() {
            Some(usize::from(page - 128))
        } else {
            None
        },
    })
}

/// A pool of two pages, of which one is used again: each of the eight operations is refused in turn. Its page then has zeros,
/// blank words, the words that it had, or those of the other page; or it is code of the image by accident.
#[test]
fn each_operation_in_a_small_pool_is_lost(rt: HostRuntime) -> Result<(), Fail> {
    let layout = small(4, 2);
    let whole = gone_round(&rt, &layout, &[])?;
    assert!(rt; whole.ops == 8);
    for op in 1..9u32 {
        let left = gone_round(&rt, &layout, &[op])?;
        let place = left.refused.ok_or("no operation is refused")?.min(1);
        let contents = [
            // the words, whether the page is kept beside the other one, and whether it is dropped
            ([0; 128], 0, 1),
            ([0xFFFF; 128], 0, 0),
            (left.pages[1 - place], 0, 1),
            (whole.pages[0], 1, 0),
        ];
        for (words, kept, dropped) in contents {
            let mut lost = left.pages;
            lost[place] = words;
            let others = u16::from(lost[1 - place] != [0xFFFF; 128]);
            let told = told_in(&rt, &layout, &lost)?;
            if others == 1 {
                assert!(rt; told.kept.checked_sub(others) == Some(kept));
                assert!(rt; told.dropped == dropped);
            }
        }
    }
    Ok(())
}
