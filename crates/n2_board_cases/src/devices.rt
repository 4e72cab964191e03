//! Cases of the devices of a board.

ghost use Rattle.n2_parts.specs.Valid.{IsValid};

use crate::shared;
use n2_cases::{NoAnswer, number_in, put, put_shown, put_word, word_in, words_of};
use n2_devices::Devices;
use n2_parts::{Board, DeviceEvent, Part, PartKind};
use std::alloc::Global;

/// `devices TEXT | STEP | ..`: what the devices of the board of a text answer to one step after
/// another. A step is `read DEVICE NUMBER OFFSET`, `write DEVICE NUMBER OFFSET WORD`, `tick N`,
/// `receive UART`, `drain UART`, or `lines CORE`.
pub fn devices(alloc: Global, board: &Board, steps: &str, out: &mut Vec<u8>) -> Result<(), NoAnswer>
    requires { IsValid board.now }
{
    let mut devices = Devices::open(alloc, board)?;
    put_steps(alloc, &mut devices, steps, out)
}

fn put_steps(
    alloc: Global,
    devices: &mut Devices,
    steps: &str,
    out: &mut Vec<u8>,
) -> Result<(), NoAnswer> {
    shared(devices);
    for step in steps.split('|') {
        put_step(devices, &words_of(alloc, step)?, out)?;
    }
    Ok(())
}

fn put_step(devices: &mut Devices, words: &[&str], out: &mut Vec<u8>) -> Result<(), NoAnswer> {
    match *words {
        ["read", kind, index, offset] => put_read(devices, part_in(kind, index)?, offset, out),
        ["write", kind, index, offset, value] => {
            put_write(devices, part_in(kind, index)?, offset, value, out)
        }
        ["tick", n] => put_event(devices, DeviceEvent::Tick(count_in(n)?), out),
        ["receive", uart] => put_event(devices, DeviceEvent::Receive(count_in(uart)?), out),
        ["drain", uart] => put_event(devices, DeviceEvent::Drain(count_in(uart)?), out),
        ["lines", core] => put_lines(devices, count_in(core)?, out),
        _ => Err(NoAnswer::NoCase),
    }
}

/// A decimal number of 32 bits.
pub fn count_in(text: &str) -> Result<u32, NoAnswer> {
    Ok(number_in(0xffff_ffff, text)? as u32)
}

fn part_in(kind: &str, index: &str) -> Result<Part, NoAnswer> {
    let index = count_in(index)?;
    match kind {
        "mutex" => Ok(part(PartKind::Mutex, index)),
        "mailbox" => Ok(part(PartKind::Mailbox, index)),
        "timer" => Ok(part(PartKind::Timer, index)),
        "uart" => Ok(part(PartKind::Uart, index)),
        "memory" => Ok(part(PartKind::Memory, index)),
        _ => Err(NoAnswer::NoCase),
    }
}

fn part(kind: PartKind, index: u32) -> Part {
    Part { kind, index }
}

/// Appends the value that was read, and of what a read took the Pointer.
fn put_read(
    devices: &mut Devices,
    part: Part,
    offset: &str,
    out: &mut Vec<u8>,
) -> Result<(), NoAnswer> {
    let offset = count_in(offset)?;
    if !devices.has_word(part, offset) {
        return put(out, " none");
    }
    let answer = devices.read(part, offset);
    put_word(out, " ", answer.value)?;
    if answer.took {
        put_word(out, " took ", answer.pointer)?;
    }
    Ok(())
}

/// Appends whether a write took effect.
fn put_write(
    devices: &mut Devices,
    part: Part,
    offset: &str,
    value: &str,
    out: &mut Vec<u8>,
) -> Result<(), NoAnswer> {
    let (offset, value) = (count_in(offset)?, word_in(value)?);
    if !devices.has_word(part, offset) {
        return put(out, " none");
    }
    put_shown(out, " ", &devices.write(part, offset, value))
}

/// Appends whether a byte moved.
fn put_event(devices: &mut Devices, event: DeviceEvent, out: &mut Vec<u8>) -> Result<(), NoAnswer> {
    if !devices.has_event(event) {
        return put(out, " none");
    }
    put_shown(out, " ", &devices.event(event))
}

/// Appends the interrupt lines of a core.
fn put_lines(devices: &Devices, core: u32, out: &mut Vec<u8>) -> Result<(), NoAnswer> {
    if (core as usize) < devices.cores() {
        put_word(out, " ", devices.lines(core))
    } else {
        put(out, " none")
    }
}
