//! The calls of crate `theorem_reader`, each once.
use crate::first_program::LINES;
use crate::support::{ROOM, words_of};
use hex_image::Image;
use std::alloc::Global;
use std::test::Fail;
use theorem_reader::{
    Told, asm_example, bad_dump_example, bad_hex_example, bad_script_example, bad_source_example,
    bad_task_image_example, bad_task_script_example, broken_example, check_example, dump_example,
    generate_example, help_example, long_example, restart_example, run_example, run_image,
    run_twice, tasks_example,
};

/// More bytes than an input may have.
const LONG: usize = 2_097_153;

/// What tests look at of what a call told. Each call stands in a function of its own, so that no test carries its contract, and
/// what it told is let go in one place, since the proof goes through all parts of that.
#[derive(Drop)]
struct Said {
    status: u8,
    text: Vec<u8>,
    keeps: &'static str,
}

fn looked_at<const N: usize>(alloc: Global, told: Told<N>) -> Result<Said, Fail> {
    Ok(Said {
        status: told.status,
        text: told.out.taken().to_vec(alloc)?,
        keeps: match (&told.kept, &told.tasks) {
            (Some(_), None) => "a machine",
            (None, Some(_)) => "tasks",
            (None, None) => "nothing",
            (Some(_), Some(_)) => "both",
        },
    })
}

/// Whether it was this status, this text, and this was kept.
fn is(said: &Said, status: u8, text: &[u8], keeps: &str) -> bool {
    said.status == status && said.text.as_slice() == text && said.keeps == keeps
}

fn run(alloc: Global) -> Result<Said, Fail> {
    looked_at(alloc, run_example::<ROOM>(alloc)?)
}

fn run_alone(alloc: Global) -> Result<Said, Fail> {
    let image = Image::from_words(alloc, &[0xE00F, 0xBB0B, 0xCFFF])?;
    looked_at(alloc, run_image::<ROOM>(alloc, &image)?)
}

/// Two calls for the test program of seed 7, where the second sink has room for ten bytes.
fn twice(alloc: Global) -> Result<(Said, Said), Fail> {
    let words = words_of(alloc, &["generate", "7"])?;
    let (one, other) = run_twice::<ROOM, 10>(alloc, &words, b"")?;
    Ok((looked_at(alloc, one)?, looked_at(alloc, other)?))
}

fn dump(alloc: Global) -> Result<Said, Fail> {
    looked_at(alloc, dump_example::<20_000>(alloc)?)
}

fn restart(alloc: Global) -> Result<Said, Fail> {
    looked_at(alloc, restart_example::<ROOM>(alloc)?)
}

fn tasks(alloc: Global) -> Result<Said, Fail> {
    looked_at(alloc, tasks_example::<ROOM>(alloc)?)
}

fn check(alloc: Global) -> Result<Said, Fail> {
    looked_at(alloc, check_example::<ROOM>(alloc)?)
}

fn asm(alloc: Global) -> Result<Said, Fail> {
    looked_at(alloc, asm_example::<ROOM>(alloc)?)
}

fn generate(alloc: Global) -> Result<Said, Fail> {
    looked_at(alloc, generate_example::<ROOM>(alloc)?)
}

fn help(alloc: Global) -> Result<Said, Fail> {
    looked_at(alloc, help_example::<ROOM>(alloc)?)
}

fn bad_hex(alloc: Global) -> Result<Said, Fail> {
    looked_at(alloc, bad_hex_example::<ROOM>(alloc)?)
}

fn bad_source(alloc: Global) -> Result<Said, Fail> {
    looked_at(alloc, bad_source_example::<ROOM>(alloc)?)
}

fn bad_script(alloc: Global) -> Result<Said, Fail> {
    looked_at(alloc, bad_script_example::<ROOM>(alloc)?)
}

fn bad_task_script(alloc: Global) -> Result<Said, Fail> {
    looked_at(alloc, bad_task_script_example::<ROOM>(alloc)?)
}

fn bad_task_image(alloc: Global) -> Result<Said, Fail> {
    looked_at(alloc, bad_task_image_example::<ROOM>(alloc)?)
}

fn bad_dump(alloc: Global) -> Result<Said, Fail> {
    looked_at(alloc, bad_dump_example::<ROOM>(alloc)?)
}

fn broken(alloc: Global) -> Result<Said, Fail> {
    looked_at(alloc, broken_example::<ROOM>(alloc)?)
}

fn too_long(alloc: Global) -> Result<Said, Fail> {
    let mut text = Vec::new(alloc);
    text.resize(LONG, 0)?;
    looked_at(alloc, long_example::<ROOM>(alloc, &text)?)
}

/// The example is the first program with a script that changes nothing.
#[test]
fn the_reader_runs_the_first_program(rt: HostRuntime) -> Result<(), Fail> {
    assert!(rt; is(&run(rt.alloc())?, 0, LINES, "a machine"));
    assert!(rt; is(&run_alone(rt.alloc())?, 0, LINES, "a machine"));
    assert!(rt;
        is(
            &restart(rt.alloc())?,
            0,
            b"restart kept 1 dropped 0\nPORTA 0x0F\nhalted 0x0002 steps 2 checkpoints 0\nnatural 3 entries 1 pages 1\n",
            "a machine"
        )
    );
    assert!(rt;
        is(
            &tasks(rt.alloc())?,
            0,
            b"task 0 PORTA 0x0F\ntask 0 halted 0x0002 steps 2 checkpoints 0\nnatural 3 entries 1 pages 1 switches 0\n",
            "tasks"
        )
    );
    // A line for the image, one for the page of code, and 32 for the kernel's.
    let dumped = dump(rt.alloc())?;
    assert!(rt; dumped.status == 0);
    assert!(rt; dumped.text.len() == 34 * 522);
    Ok(())
}

#[test]
fn the_reader_runs_the_program_of_a_seed(rt: HostRuntime) -> Result<(), Fail> {
    let ran = generate(rt.alloc())?;
    assert!(rt; ran.status == 0);
    assert!(rt; ran.text.starts_with(b"PORTA 0xFF\nPORTA 0xE2\n"));
    let (one, other) = twice(rt.alloc())?;
    assert!(rt; one.status == 0 && one.text.as_slice() == ran.text.as_slice());
    assert!(rt; is(&other, 6, b"PORTA 0xFF", "a machine"));
    Ok(())
}

#[test]
fn the_reader_answers_what_asks_for_no_run(rt: HostRuntime) -> Result<(), Fail> {
    assert!(rt;
        is(
            &check(rt.alloc())?,
            2,
            b"not faithful page 0 form\n",
            "nothing"
        )
    );
    assert!(rt;
        is(
            &asm(rt.alloc())?,
            0,
            b":060000000FE00BBBFFCF77\n:00000001FF\n",
            "nothing"
        )
    );
    assert!(rt;
        is(
            &help(rt.alloc())?,
            0,
            b"usage: tkernel run [--steps N] [--quantum Q] [--swap S]\n",
            "nothing"
        )
    );
    assert!(rt;
        is(
            &bad_hex(rt.alloc())?,
            3,
            b"bad hex line 1 start\n",
            "nothing"
        )
    );
    assert!(rt;
        is(
            &bad_source(rt.alloc())?,
            3,
            b"bad asm line 1 form\n",
            "nothing"
        )
    );
    assert!(rt; is(&too_long(rt.alloc())?, 3, b"input too long\n", "nothing"));
    Ok(())
}

/// Whether nothing is kept, and this is told with status 3.
fn refuses(said: &Said, line: &[u8]) -> bool {
    is(said, 3, line, "nothing")
}

#[test]
fn the_reader_refuses_what_stands_behind_a_program(rt: HostRuntime) -> Result<(), Fail> {
    assert!(rt; refuses(&bad_script(rt.alloc())?, b"bad script line 1 form\n"));
    assert!(rt; refuses(&bad_task_script(rt.alloc())?, b"bad script line 1 form\n"));
    assert!(rt; refuses(&bad_task_image(rt.alloc())?, b"bad task image 0x0FFE\n"));
    assert!(rt; refuses(&bad_dump(rt.alloc())?, b"bad dump line 1 form\n"));
    Ok(())
}

#[test]
fn the_reader_tells_a_source_that_fails(rt: HostRuntime) -> Result<(), Fail> {
    assert!(rt; is(&broken(rt.alloc())?, 5, b"read fault\n", "nothing"));
    Ok(())
}
