//! Random programs.
//!
//! A program goes round over some pieces of work. Most of them keep the discipline; now and then an
//! instruction of one is left out, and now and then a piece breaks the discipline.
//!
//! r8 holds where the mutexes stand, r9 the guarded lines, r16 the core's own lines, r18 lines without a
//! class, r19 the region that is passed on, r20 the core's timer, r21 the mailboxes, r22 the core's UART,
//! r23 the uncached line; r10 and r11 hold what gives a mutex back and what takes it. r17 counts
//! interrupts, r26 rounds.

ghost use Rattle.std.specs.Prelude.{◌<◌};

use crate::insns::{
    addi, andi, back, beq, bne, br, flushd, flushda, initd, initda, ldw, ldwio, load, movi, orhi,
    ori, over, rdctl, reg, store, store_io, stw, stwio, wrctl,
};
use crate::shapes::{ABSENT, FLAGS, GUARDED, MAILBOXES, MUTEXES, PASSED, Shape, TIMERS, UARTS};
use crate::words::Words;
use n2_insn::{CodeLineOp, Insn, LoadOp, RegOp, ShiftOp, encode};
use n2_word::{NoMemory, Width};
use std::alloc::Global;

/// A program of which once in so many instructions one is left out.
#[derive(Drop)]
struct Code {
    bytes: Vec<u8>,
    left_out: u32,
    ghost some: { 0 < left_out },
}

impl Code {
    fn put(&mut self, insn: &Insn) -> Result<(), NoMemory> {
        if insn.valid() {
            let word = encode(insn);
            self.bytes.extend_from_slice(&word.to_le_bytes())?;
        }
        Ok(())
    }

    /// Instructions of which none is left out.
    fn put_whole(&mut self, insns: &[Insn]) -> Result<(), NoMemory> {
        for insn in insns {
            self.put(insn)?;
        }
        Ok(())
    }

    fn put_most(&mut self, words: &mut Words, insns: &[Insn]) -> Result<(), NoMemory> {
        for insn in insns {
            if !words.once_in(self.left_out) {
                self.put(insn)?;
            }
        }
        Ok(())
    }
}

/// Puts an address into a register.
fn address(to: u8, address: u32) -> [Insn; 2] {
    [
        orhi(to, 0, (address >> 16) as u16),
        ori(to, to, (address & 0xffff) as u16),
    ]
}

/// What stands at the exception address, with a jump over it: it clears the timer, reads the UART and
/// returns; after an interrupt to the instruction that was not made.
fn handler() -> [Insn; 8] {
    [
        br(over(7)),
        rdctl(24, 4),
        beq(24, 0, over(1)),
        addi(29, 29, 0xfffc),
        stwio(0, 0, 20),
        ldwio(25, 0, 22),
        addi(17, 17, 1),
        Insn::Eret,
    ]
}

fn put_start(program: &mut Code, shape: &Shape, core: u32) -> Result<(), NoMemory> {
    let shift = Insn::Shift {
        op: ShiftOp::Slli,
        a: 10,
        c: 10,
        by: 16,
    };
    program.put_whole(&handler())?;
    program.put_whole(&[rdctl(10, 5), shift, ori(11, 10, 1)])?;
    program.put_whole(&address(8, MUTEXES))?;
    program.put_whole(&address(9, GUARDED))?;
    program.put_whole(&address(16, shape.own_at(core)))?;
    program.put_whole(&address(18, ABSENT))?;
    program.put_whole(&address(19, PASSED))?;
    program.put_whole(&address(20, TIMERS[shape.devices_of(core)]))?;
    program.put_whole(&address(21, MAILBOXES[0]))?;
    program.put_whole(&address(22, UARTS[shape.devices_of(core)]))?;
    program.put_whole(&address(23, FLAGS))
}

/// Starts the timer, and lets lines interrupt.
fn timer(lines: u16) -> [Insn; 6] {
    [
        movi(2, 7),
        stwio(2, 4, 20),
        movi(2, lines),
        wrctl(3, 2),
        movi(2, 1),
        wrctl(0, 2),
    ]
}

/// Takes a mutex, or goes on after so many tries; 0 stands for 2^32 of them.
fn take(mutex: u16, tries: u16) -> [Insn; 6] {
    [
        movi(12, tries),
        stwio(11, mutex, 8),
        ldwio(13, mutex, 8),
        beq(13, 11, over(2)),
        addi(12, 12, 0xffff),
        bne(12, 0, back(5)),
    ]
}

/// One more at a word of guarded lines.
fn count(at: u16) -> [Insn; 5] {
    [
        initda(at, 9),
        ldw(14, at, 9),
        addi(14, 14, 1),
        stw(14, at, 9),
        flushda(at, 9),
    ]
}

/// Reads words of guarded lines, of which a copy stays in the cache.
fn read(at: u16, then: u16) -> [Insn; 4] {
    [
        initda(at, 9),
        initda(then, 9),
        ldw(14, at, 9),
        load(LoadOp::Ldbu, 15, then, 9),
    ]
}

/// Reads a word of guarded lines, of which a copy may be in the cache.
fn look(at: u16) -> [Insn; 1] {
    [load(LoadOp::Ldh, 14, at, 9)]
}

/// Narrow loads and stores of two guarded lines.
fn narrow(first: u16, second: u16) -> [Insn; 9] {
    [
        initda(first, 9),
        initda(second, 9),
        load(LoadOp::Ldhu, 14, first, 9),
        load(LoadOp::Ldb, 15, second, 9),
        addi(14, 14, 3),
        store(Width::Half, 14, second, 9),
        store(Width::Byte, 14, first, 9),
        flushd(first, 9),
        flushda(second, 9),
    ]
}

fn put_section(program: &mut Code, words: &mut Words) -> Result<(), NoMemory> {
    let second = words.below(2) as u16;
    let tries = if words.once_in(4) {
        0
    } else {
        3 + words.below(60) as u16
    };
    let at = 512 * second + words.word_at();
    let then = 512 * second + words.word_at();
    program.put_most(words, &take(8 * second, tries))?;
    match words.below(12) {
        0..=3 => program.put_most(words, &count(at))?,
        4..=7 => program.put_most(words, &read(at, then))?,
        8 => program.put_most(words, &look(at))?,
        _ => program.put_most(words, &narrow(at, then))?,
    }
    program.put_most(words, &[stwio(10, 8 * second, 8)])
}

/// Loads and stores of the core's own lines.
fn own_work(at: u16, then: u16) -> [Insn; 7] {
    [
        stw(14, at, 16),
        load(LoadOp::Ldb, 15, at, 16),
        store(Width::Half, 15, then, 16),
        addi(15, 15, 77),
        store(Width::Byte, 15, at, 16),
        load(LoadOp::Ldh, 3, then, 16),
        ldw(14, at, 16),
    ]
}

/// The core's own lines go to memory, and are dropped.
fn own_flushed(at: u16) -> [Insn; 7] {
    [
        stw(15, at, 16),
        flushd(32, 16),
        flushda(0, 16),
        ldw(2, at, 16),
        initd(at, 16),
        ldw(3, at, 16),
        initda(at, 16),
    ]
}

/// Accesses of the uncached line past the cache, the last two by bit 31 of the address.
fn flags(at: u16) -> [Insn; 9] {
    [
        ldwio(2, 0, 23),
        addi(2, 2, 1),
        stwio(2, 4, 23),
        store_io(Width::Byte, 2, 9, 23),
        ldwio(3, 8, 23),
        orhi(7, 23, 0x8000),
        stw(2, at & 28, 7),
        load(LoadOp::Ldhu, 4, 10, 7),
        ldw(5, at & 28, 7),
    ]
}

/// A byte to the UART, and what its registers hold.
fn uart(byte: u16) -> [Insn; 5] {
    [
        movi(2, byte),
        stwio(2, 0, 22),
        ldwio(4, 4, 22),
        ldwio(5, 0, 22),
        stwio(0, 4, 22),
    ]
}

/// The UART interrupts where it has bytes.
fn uart_interrupts() -> [Insn; 2] {
    [movi(2, 1), stwio(2, 4, 22)]
}

fn arithmetic(op: RegOp) -> [Insn; 7] {
    [
        reg(RegOp::Mul, 14, 14, 11),
        addi(15, 15, 13),
        reg(op, 2, 14, 15),
        reg(RegOp::Xor, 3, 2, 15),
        reg(RegOp::Div, 4, 14, 3),
        Insn::Flushp,
        Insn::Sync,
    ]
}

fn any_op(words: &mut Words) -> RegOp {
    match words.below(6) {
        0 => RegOp::Sub,
        1 => RegOp::Mulxss,
        2 => RegOp::Cmpltu,
        3 => RegOp::Rol,
        4 => RegOp::Divu,
        _ => RegOp::Sra,
    }
}

/// A jump over an instruction, lines of the instruction cache dropped, and three exceptions.
fn jumps() -> [Insn; 9] {
    [
        Insn::Nextpc { c: 5 },
        addi(5, 5, 12),
        Insn::Jmp { a: 5 },
        movi(14, 1),
        Insn::Code {
            op: CodeLineOp::Flushi,
            a: 5,
        },
        Insn::Code {
            op: CodeLineOp::Initi,
            a: 9,
        },
        Insn::Trap { imm: 3 },
        reg(RegOp::Div, 2, 14, 0),
        load(LoadOp::Ldh, 2, 1, 16),
    ]
}

/// Waits for a message at the receiving side of a mailbox, and takes it; goes on after so many looks.
fn receive(side: u16, tries: u16) -> [Insn; 7] {
    [
        movi(12, tries),
        ldwio(2, side.wrapping_add(8), 21),
        andi(2, 2, 1),
        bne(2, 0, over(2)),
        addi(12, 12, 0xffff),
        bne(12, 0, back(5)),
        ldwio(5, side, 21),
    ]
}

/// Posts the region that is passed on.
fn send(side: u16) -> [Insn; 2] {
    [stwio(19, side.wrapping_add(4), 21), stwio(14, side, 21)]
}

/// Changes a word of the region that is passed on, and flushes it.
fn change(at: u16) -> [Insn; 6] {
    [
        initda(at, 19),
        ldw(6, at, 19),
        addi(6, 6, 5),
        stw(6, at, 19),
        flushda(at, 19),
        stwio(6, 12, 21),
    ]
}

/// Core 0 passes the region to the other core, and takes it back.
fn put_pass(program: &mut Code, words: &mut Words) -> Result<(), NoMemory> {
    let (before, after) = (words.word_at(), words.word_at());
    let tries = 20 + words.below(90) as u16;
    program.put_most(words, &change(before))?;
    program.put_most(words, &send(0))?;
    program.put_most(words, &receive(160, tries))?;
    program.put_most(words, &change(after))
}

/// The other core takes the region, and passes it back.
fn put_return(program: &mut Code, words: &mut Words) -> Result<(), NoMemory> {
    let tries = 20 + words.below(90) as u16;
    let at = words.word_at();
    program.put_most(words, &receive(32, tries))?;
    program.put_most(words, &[initda(0, 19), initda(32, 19), ldw(6, at, 19)])?;
    program.put_most(words, &[store(Width::Byte, 6, 35, 19), flushd(35, 19)])?;
    program.put_most(words, &send(128))
}

/// Instructions that break the discipline, in most places.
fn breach(which: u32, at: u16) -> [Insn; 2] {
    match which {
        0 => [ldw(2, 0, 23), Insn::Sync],
        1 => [ldwio(2, at, 9), Insn::Sync],
        2 => [stw(2, at, 18), Insn::Sync],
        3 => [orhi(2, 0, 16), ldw(2, at, 2)],
        4 => [store_io(Width::Byte, 2, 0, 22), Insn::Sync],
        5 => [stw(2, at, 0), Insn::Sync],
        6 => [ldw(2, at, 9), Insn::Sync],
        7 => [stw(14, at, 16), initda(at, 16)],
        8 => [stwio(0, 0, 8), Insn::Sync],
        9 => [ldw(2, at.wrapping_add(512), 16), Insn::Sync],
        10 => [Insn::Jmp { a: 9 }, Insn::Sync],
        11 => [Insn::Jmp { a: 8 }, Insn::Sync],
        12 => [ldw(2, at, 19), Insn::Sync],
        13 => [ldw(2, at, 22), Insn::Sync],
        14 => [
            Insn::Code {
                op: CodeLineOp::Flushi,
                a: 9,
            },
            Insn::Jmp { a: 22 },
        ],
        _ => [stwio(19, 4, 21), stwio(0, 0, 21)],
    }
}

/// What core 0 and the other core do with messages, and each core else.
fn put_messages(
    program: &mut Code,
    words: &mut Words,
    shape: &Shape,
    core: u32,
) -> Result<(), NoMemory> {
    if core == 0 {
        put_pass(program, words)
    } else if core == shape.other {
        put_return(program, words)
    } else {
        put_section(program, words)
    }
}

fn put_work(
    program: &mut Code,
    words: &mut Words,
    shape: &Shape,
    core: u32,
) -> Result<(), NoMemory> {
    match words.below(16) {
        0..=3 => put_section(program, words),
        4 | 5 => put_messages(program, words, shape, core),
        6 | 7 => {
            let work = own_work(words.word_at(), words.word_at());
            program.put_most(words, &work)
        }
        8 | 9 => {
            let work = own_flushed(words.word_at());
            program.put_most(words, &work)
        }
        10 | 11 => {
            let work = flags(words.word_at());
            program.put_most(words, &work)
        }
        12 | 13 => {
            let work = uart(words.below(128) as u16);
            program.put_most(words, &work)
        }
        14 => {
            let work = arithmetic(any_op(words));
            program.put_most(words, &work)
        }
        _ => program.put_most(words, &jumps()),
    }
}

fn put_pieces(
    program: &mut Code,
    words: &mut Words,
    shape: &Shape,
    core: u32,
) -> Result<(), NoMemory> {
    for _ in 0..(3 + words.below(14)) {
        if words.once_in(45) {
            let which = words.below(16);
            let work = breach(which, words.word_at());
            program.put_whole(&work)?;
        } else {
            put_work(program, words, shape, core)?;
        }
    }
    Ok(())
}

/// The bytes of the program of a core.
pub fn program(
    alloc: Global,
    words: &mut Words,
    shape: &Shape,
    core: u32,
) -> Result<Vec<u8>, NoMemory> {
    let mut program = Code {
        bytes: Vec::new(alloc),
        left_out: 20 + words.below(500),
    };
    put_start(&mut program, shape, core)?;
    if words.once_in(2) {
        let lines = if words.once_in(8) {
            words.below(256)
        } else {
            24
        };
        program.put_whole(&timer(lines as u16))?;
    }
    if words.once_in(4) {
        program.put_whole(&uart_interrupts())?;
    }
    program.put_whole(&[movi(26, 1 + words.below(6) as u16)])?;
    let top = program.bytes.len();
    put_pieces(&mut program, words, shape, core)?;
    let rounds = program.bytes.len().wrapping_sub(top) / 4;
    let offset = back((rounds & 0xfff) as u16).wrapping_sub(8);
    program.put_whole(&[
        addi(26, 26, 0xffff),
        bne(26, 0, offset),
        Insn::Break { imm: 0 },
    ])?;
    let Code { bytes, left_out: _ } = program;
    Ok(bytes)
}
