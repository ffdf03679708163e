//! Programs of each group of instructions, with values from the AVR Instruction Set Manual. Each is a list of
//! lines: what is set, the words of an instruction that is executed, and what is seen then.

ghost use Rattle.std.specs.Prelude.{◌≡◌};
ghost use Rattle.avr_exec.specs.Execution.{is_executed as is_executed_form};

use crate::board::{Memory, execute_over};
use Line::{BeforeLong, Do, Is, Set};
use Place::{Byte, Pc, R, Rampz, Sp, Sreg};
use avr_decode::decode;
use avr_exec::{BusStop, Cpu};
use avr_isa::{Form, Instr};
use std::process::Abort;

const PROGRAM: [u8; 4] = [0x10, 0x20, 0x30, 0x40];

/// A register of the core, a byte at a data address, or RAMPZ.
#[derive(Clone, Copy)]
enum Place {
    R(usize),
    Sreg,
    Sp,
    Pc,
    Byte(u16),
    Rampz,
}

/// A line of a test.
#[derive(Clone, Copy)]
enum Line {
    /// The instruction of these words is executed, before one of one word.
    Do(u16, u16),
    /// The instruction of this word is executed, before one of two words.
    BeforeLong(u16),
    Set(Place, u16),
    Is(Place, u16),
}

/// A core and a memory.
#[derive(Drop)]
struct Bench {
    cpu: Cpu,
    memory: Memory,
}

impl Bench {
    fn new() -> Bench {
        Bench {
            cpu: Cpu {
                r: [0; 32],
                sreg: 0,
                sp: 0x0100,
                pc: 0,
            },
            memory: Memory {
                bytes: [0; 320],
                extension: 0,
            },
        }
    }

    fn get(&self, place: Place) -> u16 {
        match place {
            Place::R(number) => self.cpu.r.get(number).copied().map_or(0, u16::from),
            Place::Sreg => u16::from(self.cpu.sreg),
            Place::Sp => self.cpu.sp,
            Place::Pc => self.cpu.pc,
            Place::Byte(a) => u16::from(self.memory.at(a)),
            Place::Rampz => u16::from(self.memory.extension),
        }
    }

    fn set(&mut self, place: Place, value: u16) {
        let byte = (value & 0xFF) as u8;
        match place {
            Place::R(number) if number < 32 => self.cpu.r[number] = byte,
            Place::R(_) => {}
            Place::Sreg => self.cpu.sreg = byte,
            Place::Sp => self.cpu.sp = value,
            Place::Pc => self.cpu.pc = value,
            Place::Byte(a) => self.memory.set(a, byte),
            Place::Rampz => self.memory.extension = byte,
        }
    }

    /// Executes the instruction of these words, before an instruction of one word or of two.
    fn execute(
        &mut self,
        rt: &impl Abort,
        words: (u16, u16),
        next_size: u16,
    ) -> Result<(), BusStop> {
        let instr = decode(words.0, words.1).expect(rt, "an instruction");
        assert!(rt; is_executed(&instr));
        assert!(rt; 1 <= next_size && next_size <= 2);
        execute_over(&instr, &mut self.cpu, &mut self.memory, &PROGRAM, next_size)
    }
}

#[tactic(auto, unfolding(avr_exec::specs::Execution::is_executed))]
fn is_executed(i: &Instr) -> bool
    ensures { result ≡ is_executed_form i.now }
{
    !matches!(i.form(), Form::Sleep | Form::Spm)
}

/// Plays the lines, from a core and a memory of zeros, with the stack pointer at 0x0100.
fn play(rt: &impl Abort, lines: &[Line]) {
    let mut bench = Bench::new();
    for (number, line) in lines.iter().enumerate() {
        match *line {
            Do(first, second) => {
                let done = bench.execute(rt, (first, second), 1);
                assert!(rt; done.is_ok(), "line {number}");
            }
            BeforeLong(word) => {
                let done = bench.execute(rt, (word, 0), 2);
                assert!(rt; done.is_ok(), "line {number}");
            }
            Set(place, value) => bench.set(place, value),
            Is(place, value) => assert!(rt; bench.get(place) == value, "line {number}"),
        }
    }
}

const ARITHMETIC: [Line; 22] = [
    Set(R(1), 0x80),
    Set(R(2), 0x80),
    Do(0x0C12, 0), // ADD r1, r2
    Is(R(1), 0x00),
    Is(Sreg, 0x1B),
    Is(Pc, 1),
    Do(0xE800, 0), // LDI r16, 0x80
    Do(0x9501, 0), // NEG r16
    Is(R(16), 0x80),
    Is(Sreg, 0x0D),
    Is(Pc, 3),
    Do(0x9502, 0), // SWAP r16
    Do(0x1412, 0), // CP r1, r2: 0 - 0x80 sets C, N and V
    Is(R(1), 0x00),
    Is(R(16), 0x08),
    Is(Sreg, 0x0D),
    Do(0xFB03, 0), // BST r16, 3
    Do(0xF817, 0), // BLD r1, 7
    Do(0x9478, 0), // BSET 7
    Is(R(1), 0x80),
    Is(Sreg, 0xCD),
    Is(Pc, 8),
];

#[test]
fn arithmetic_gives_results_and_flags(rt: HostRuntime) {
    play(&rt, &ARITHMETIC);
}

const PAIRS_AND_PRODUCTS: [Line; 20] = [
    Set(R(24), 0xFF),
    Do(0x9601, 0), // ADIW r24, 1
    Do(0x9731, 0), // SBIW r30, 1: a borrow sets C, N and S
    Is(R(24), 0x00),
    Is(R(25), 0x01),
    Is(R(30), 0xFF),
    Is(R(31), 0xFF),
    Is(Sreg, 0x15),
    Set(R(16), 0x80),
    Set(R(17), 0x80),
    Do(0x0381, 0), // FMULS r16, r17
    Is(R(0), 0x00),
    Is(R(1), 0x80),
    Is(Sreg, 0x14),
    Do(0x011C, 0), // MOVW r2, r24
    Do(0x0208, 0), // MULS r16, r24
    Is(R(0), 0x00),
    Is(R(1), 0x00),
    Is(R(2), 0x00),
    Is(R(3), 0x01),
];

#[test]
fn pairs_and_products_take_two_registers(rt: HostRuntime) {
    play(&rt, &PAIRS_AND_PRODUCTS);
}

const BY_X_AND_Y: [Line; 18] = [
    Set(R(16), 0xAA),
    Set(R(27), 0x01),
    Do(0x930D, 0), // ST X+, r16
    Do(0x900C, 0), // LD r0, X
    Do(0x901E, 0), // LD r1, -X
    Is(R(0), 0x00),
    Is(R(1), 0xAA),
    Is(R(26), 0x00),
    Is(R(27), 0x01),
    Set(R(28), 0x10),
    Set(R(29), 0x01),
    Do(0x930A, 0), // ST -Y, r16
    Do(0x9029, 0), // LD r2, Y+
    Do(0x830A, 0), // STD Y+2, r16
    Is(Byte(0x10F), 0xAA),
    Is(Byte(0x112), 0xAA),
    Is(R(2), 0xAA),
    Is(R(28), 0x10),
];

#[test]
fn x_and_y_move_behind_a_load_or_before_it(rt: HostRuntime) {
    play(&rt, &BY_X_AND_Y);
}

const BY_Z: [Line; 12] = [
    Set(Byte(0x100), 0xAA),
    Set(Byte(0x112), 0x55),
    Set(R(2), 0xA2),
    Set(R(31), 0x01),
    Do(0x9001, 0), // LD r0, Z+
    Do(0x9222, 0), // ST -Z, r2
    Do(0x8812, 0), // LDD r1, Z+0x12
    Is(R(0), 0xAA),
    Is(Byte(0x100), 0xA2),
    Is(R(1), 0x55),
    Is(R(30), 0x00),
    Is(R(31), 0x01),
];

#[test]
fn z_moves_and_a_displacement_is_added(rt: HostRuntime) {
    play(&rt, &BY_Z);
}

const DATA_ADDRESSES: [Line; 11] = [
    Set(R(16), 0xAA),
    Do(0x9300, 0x0120), // STS 0x0120, r16
    Do(0x9050, 0x0120), // LDS r5, 0x0120
    Do(0x9060, 0x0010), // LDS r6, 0x0010, which is r16
    Is(R(5), 0xAA),
    Is(R(6), 0xAA),
    Is(Pc, 6),
    Set(R(26), 26),
    Do(0x930D, 0), // ST X+, r16: the pointer receives its new value last
    Is(R(26), 27),
    Is(R(27), 0),
];

#[test]
fn registers_have_data_addresses(rt: HostRuntime) {
    play(&rt, &DATA_ADDRESSES);
}

const STACK: [Line; 34] = [
    Set(R(16), 0xAA),
    Set(Pc, 0x1234),
    Do(0x930F, 0), // PUSH r16
    Is(Byte(0x100), 0xAA),
    Is(Sp, 0x00FF),
    Do(0x903F, 0), // POP r3
    Is(R(3), 0xAA),
    Is(Sp, 0x0100),
    Is(Pc, 0x1236),
    Do(0xDFF9, 0), // RCALL -7
    Is(Byte(0x100), 0x37),
    Is(Byte(0xFF), 0x12),
    Is(Sp, 0x00FE),
    Is(Pc, 0x1230),
    Do(0x940E, 0x4000), // CALL 0x4000
    Is(Byte(0xFE), 0x32),
    Is(Byte(0xFD), 0x12),
    Is(Sp, 0x00FC),
    Is(Pc, 0x4000),
    Do(0x9518, 0), // RETI sets I
    Is(Sp, 0x00FE),
    Is(Pc, 0x1232),
    Is(Sreg, 0x80),
    Set(R(30), 0x78),
    Set(R(31), 0x56),
    Do(0x9509, 0), // ICALL
    Is(Pc, 0x5678),
    Do(0x9508, 0), // RET
    Is(Pc, 0x1233),
    Do(0x9508, 0), // RET
    Is(Sp, 0x0100),
    Is(Pc, 0x1237),
    Do(0x9409, 0), // IJMP
    Is(Pc, 0x5678),
];

#[test]
fn the_stack_grows_downward(rt: HostRuntime) {
    play(&rt, &STACK);
}

const SKIPS_AND_BRANCHES: [Line; 22] = [
    Do(0x1001, 0), // CPSE r0, r1, over one word
    Is(Pc, 2),
    BeforeLong(0x1001), // over two words
    Is(Pc, 5),
    Set(R(1), 0x08),
    Set(Byte(0x36), 0x08),
    Do(0x1001, 0), // CPSE r0, r1
    Do(0xFC13, 0), // SBRC r1, 3
    Do(0x99B3, 0), // SBIC 0x16, 3: none skips
    Is(Pc, 8),
    Do(0xFE13, 0), // SBRS r1, 3
    Do(0x9BB3, 0), // SBIS 0x16, 3: both skip
    Is(Pc, 12),
    Do(0xF3E9, 0), // BRBS 1, -3: Z is clear
    Is(Pc, 13),
    Do(0xF7E9, 0), // BRBC 1, -3
    Is(Pc, 11),
    Do(0x940C, 0xFFFF), // JMP 0xFFFF
    Do(0x0000, 0), // NOP: the pc wraps
    Is(Pc, 0),
    Do(0xCFFF, 0), // RJMP to itself
    Is(Pc, 0),
];

#[test]
fn skips_and_branches_move_the_pc(rt: HostRuntime) {
    play(&rt, &SKIPS_AND_BRANCHES);
}

const PROGRAM_BYTES: [Line; 24] = [
    Set(R(30), 1),
    Do(0x95C8, 0), // LPM
    Do(0x9055, 0), // LPM r5, Z+
    Is(R(0), 0x20),
    Is(R(5), 0x20),
    Is(R(30), 2),
    Is(R(31), 0),
    Set(Rampz, 2),
    Do(0x95D8, 0), // ELPM: bit 0 of RAMPZ alone counts
    Is(R(0), 0x30),
    Set(Rampz, 0),
    Set(R(30), 0xFF),
    Set(R(31), 0xFF),
    Do(0x9057, 0), // ELPM r5, Z+
    Is(R(5), 0xFF),
    Is(R(30), 0),
    Is(R(31), 0),
    Is(Rampz, 1),
    Set(R(5), 0),
    Do(0x9056, 0), // ELPM r5, Z
    Do(0x9064, 0), // LPM r6, Z
    Is(R(5), 0xFF),
    Is(R(6), 0x10),
    Is(R(30), 0),
];

#[test]
fn program_bytes_come_by_z(rt: HostRuntime) {
    play(&rt, &PROGRAM_BYTES);
}

const IO_REGISTERS: [Line; 22] = [
    Set(R(16), 0x0F),
    Do(0xBB0B, 0), // OUT 0x1B, r16
    Do(0x9ADF, 0), // SBI 0x1B, 7
    Do(0x98D8, 0), // CBI 0x1B, 0
    Do(0xB21B, 0), // IN r1, 0x1B
    Is(Byte(0x3B), 0x8E),
    Is(R(1), 0x8E),
    Do(0xBF0D, 0), // OUT SPL, r16
    Do(0xBF0E, 0), // OUT SPH, r16
    Do(0xBF0F, 0), // OUT SREG, r16: the bus isn't asked
    Is(Sp, 0x0F0F),
    Is(Sreg, 0x0F),
    Is(Byte(0x5D), 0),
    Is(Byte(0x5E), 0),
    Is(Byte(0x5F), 0),
    Set(Sp, 0x1234),
    Do(0xB61E, 0), // IN r1, SPH
    Do(0xB62D, 0), // IN r2, SPL
    Do(0xB63F, 0), // IN r3, SREG
    Is(R(1), 0x12),
    Is(R(2), 0x34),
    Is(R(3), 0x0F),
];

#[test]
fn io_registers_and_the_cores_own(rt: HostRuntime) {
    play(&rt, &IO_REGISTERS);
}

/// ST X+, r16; PUSH r16; RET; STS 0x0300, r16.
const STOPS: [(u16, BusStop); 4] = [
    (0x930D, BusStop::Io(0x0300)),
    (0x930F, BusStop::Stack(0x0140)),
    (0x9508, BusStop::Stack(0x0141)),
    (0x9300, BusStop::Io(0x0300)),
];

#[test]
fn a_stop_changes_nothing(rt: HostRuntime) {
    let mut bench = Bench::new();
    bench.set(R(27), 0x03);
    bench.set(Sp, 0x0140);
    let before = bench.cpu;
    for (first, stop) in STOPS {
        assert!(rt; bench.execute(&rt, (first, 0x0300), 1) == Err(stop));
        assert!(rt; bench.cpu == before);
    }
}
