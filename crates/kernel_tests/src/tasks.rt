//! Several tasks: their scripts, their image, their boot, and a change of the task.

use hex_image::Image;
use input_script::{Input, ScriptError, ScriptFault};
use mote_core::Mote;
use std::alloc::Global;
use std::process::Abort;
use std::test::Fail;
use tk_tasks::{Parked, Tasks, misplaced_word, read_scripts, task_image};

/// The answer to a script of two tasks that is refused.
fn refusal(rt: &impl Abort, alloc: Global, text: &[u8]) -> Option<ScriptError> {
    assert!(rt; text.len() <= 2_097_152);
    read_scripts(alloc, text, 2).err()
}

#[test]
fn each_task_has_its_own_events(rt: HostRuntime) -> Result<(), Fail> {
    let text = b"# inputs\ntask 1 at 5 uart 0x41\r\ntask 0 at 9 int 3\n\ntask 1 at 5 pina 0x00";
    let scripts = read_scripts(rt.alloc(), text, 2)
        .ok()
        .ok_or("the script is good")?;
    assert!(rt; scripts.len() == 2);
    let [first, second] = scripts.as_slice() else {
        return Err("there are two scripts".into());
    };
    let [event] = first.events() else {
        return Err("the first script has one event".into());
    };
    assert!(rt; event.at == 9);
    assert!(rt; event.input == Input::Int(3));
    assert!(rt; second.events().len() == 2);
    Ok(())
}

/// Scripts of two tasks, the line that is refused, and why.
static FAULTY: [(&[u8], u32, ScriptFault); 13] = [
    (b"at 5 int 3", 1, ScriptFault::Form),
    (b"task 2 at 5 int 3", 1, ScriptFault::Form),
    (b"task 4 at 5 int 3", 1, ScriptFault::Form),
    (b"task 0  at 5 int 3", 1, ScriptFault::Form),
    (b"task 0 ", 1, ScriptFault::Form),
    (b"task 0 # no", 1, ScriptFault::Form),
    (b"task 0 at 5 int 3\r\r\n", 1, ScriptFault::Form),
    (b"fail flash 3", 1, ScriptFault::Form),
    (b"\ntask 0 fail flash 3", 2, ScriptFault::Form),
    (
        b"task 0 at 5 int 3\ntask 1 at 2 int 0\ntask 0 at 4 int 0",
        3,
        ScriptFault::Order,
    ),
    (
        b"task 1 at 1 adc 0x400\ntask 0 at no",
        1,
        ScriptFault::Range,
    ),
    (
        b"task 1 at 1 int 0\ntask 0 at no\ntask 1 at 0 int 0",
        2,
        ScriptFault::Form,
    ),
    (b"task 1 at 4294967296 int 0", 1, ScriptFault::Range),
];

#[test]
fn the_first_faulty_line_of_all(rt: HostRuntime) {
    for (text, line, fault) in &FAULTY {
        let (line, fault) = (*line, *fault);
        assert!(rt; refusal(&rt, rt.alloc(), text) == Some(ScriptError::Bad { line, fault }));
    }
}

/// An image of these words.
fn image_of(alloc: Global, words: &[u16]) -> Result<Image, Fail> {
    if words.len() > 24576 {
        return Err("the image is too long".into());
    }
    Ok(Image::from_words(alloc, words)?)
}

/// The first misplaced word, where two words stand from an address on.
fn misplaced(alloc: Global, first: usize, count: u8) -> Result<Option<u16>, Fail> {
    if first > 8194 || count > 4 {
        return Err("the image is too long".into());
    }
    let mut words = [0xFFFF; 8196];
    words[first] = 0xCFFF;
    words[first + 1] = 0xCFFF;
    let image = image_of(alloc, &words)?;
    Ok(misplaced_word(&image, count))
}

#[test]
fn words_that_no_task_has(rt: HostRuntime) -> Result<(), Fail> {
    let places = [
        (0, 1, None),
        (4092, 1, None),
        (4093, 1, Some(4094)),
        (4094, 2, Some(4094)),
        (4095, 2, Some(4095)),
        (4096, 2, None),
        (4096, 1, Some(4096)),
        (8191, 2, Some(8191)),
        (8192, 2, Some(8192)),
        (8192, 3, None),
    ];
    for (first, count, address) in places {
        assert!(rt; misplaced(rt.alloc(), first, count)? == address);
    }
    Ok(())
}

#[test]
fn an_image_is_padded_or_cut(rt: HostRuntime) -> Result<(), Fail> {
    let image = Image::from_words(rt.alloc(), &[0xE00F, 0xCFFF])?;
    let whole = task_image(rt.alloc(), &image, 2)?;
    assert!(rt; whole.len_words() == 8192);
    assert!(rt; whole.word(1) == 0xCFFF);
    assert!(rt; whole.word(2) == 0xFFFF);
    assert!(rt; task_image(rt.alloc(), &whole, 1)?.len_words() == 4096);
    Ok(())
}

/// Two tasks of this image at boot.
fn two_tasks(alloc: Global, words: &[u16]) -> Result<Tasks, Fail> {
    let image = image_of(alloc, words)?;
    let scripts = read_scripts(alloc, b"task 1 at 5 uart 0x41", 2)
        .ok()
        .ok_or("the script is good")?;
    if misplaced_word(&image, 2).is_some() {
        return Err("a word is misplaced".into());
    }
    Ok(Tasks::boot(alloc, &image, scripts, 200, 62)?)
}

/// What the second of two tasks has parked, with the tasks without it.
fn second_parked(tasks: &mut Tasks) -> Result<Parked, Fail> {
    let second = tasks.tasks.pop().ok_or("there are two tasks")?;
    if (second.at, second.owed) != (0x1000, Some(0x1000)) {
        return Err("the second task is at its quarter".into());
    }
    Ok(second.parked.ok_or("the second task is parked")?)
}

/// The parts of a task at boot take the place of those of one that has run, and go back.
fn changes_and_comes_back(rt: &impl Abort, mote: &mut Mote, parked: &mut Parked) {
    mote.cpu.r[0] = 9;
    mote.sram.set(0x0141, 1);
    mote.sram.set(0x0142, 5);
    mote.sram.set(0x0D00, 7);
    parked.exchange(mote);
    assert!(rt; mote.cpu.r[0] == 0);
    assert!(rt; mote.sram.byte(0x0141) == 0);
    assert!(rt; mote.sram.byte(0x0142) == 5);
    assert!(rt; mote.sram.byte(0x0D00) == 0);
    parked.exchange(mote);
}

#[test]
fn a_task_comes_back_as_it_was(rt: HostRuntime) -> Result<(), Fail> {
    let mut tasks = two_tasks(rt.alloc(), &[0xE00F, 0xCFFF])?;
    assert!(rt; tasks.running == 0);
    let mut parked = second_parked(&mut tasks)?;
    assert!(rt; parked.low[0] == 200);
    let mut kernel = tasks.kernel;
    let mote = &mut kernel.mote;
    changes_and_comes_back(&rt, mote, &mut parked);
    assert!(rt; mote.cpu.r[0] == 9);
    assert!(rt; mote.sram.byte(0x0141) == 1);
    assert!(rt; mote.sram.byte(0x0D00) == 7);
    Ok(())
}
