//! Random boards.

ghost use Rattle.std.specs.Prelude.{◌<◌};

use crate::shapes::{
    FLAGS, GUARDED, MAILBOXES, MUTEXES, OWN, PASSED, Shape, TIMERS, UARTS, handler_at, program_at,
};
use crate::words::Words;
use n2_parts::{
    Board, CoreRow, DeviceEvent, MailboxRow, MemoryRow, MutexRow, RegionClass, RegionRow,
    ScriptRow, TimerRow, UartRow,
};
use n2_text::{Items, Text};
use n2_word::NoMemory;
use std::alloc::Global;

fn memories(alloc: Global, shape: &Shape) -> Result<Items<MemoryRow>, NoMemory> {
    let mut rows = Items::new(alloc);
    rows.push(MemoryRow {
        base: 0,
        size: 0x4000,
    })?;
    if shape.own != OWN {
        rows.push(MemoryRow {
            base: shape.own,
            size: 0x800,
        })?;
    }
    Ok(rows)
}

/// Every how many turns one evicts: none does, or some do.
fn evict(words: &mut Words) -> u32 {
    if words.once_in(4) {
        0
    } else {
        2 + words.below(40)
    }
}

fn core(alloc: Global, words: &mut Words, k: u32) -> Result<CoreRow, NoMemory> {
    let second = 100 * words.below(2) as u16;
    Ok(CoreRow {
        cpuid: second + (k & 7) as u16,
        image: Text::from_str(alloc, "")?,
        at: program_at(k),
        reset: None,
        exception: handler_at(k),
        dcache: 512 << words.below(3),
        icache: 512 << words.below(3),
        sample: 2 + words.below(60),
        evict: evict(words),
    })
}

fn cores(alloc: Global, words: &mut Words, count: u32) -> Result<Items<CoreRow>, NoMemory> {
    let mut rows = Items::new(alloc);
    for k in 0..count {
        rows.push(core(alloc, words, k)?)?;
    }
    Ok(rows)
}

fn mutexes(alloc: Global) -> Result<Items<MutexRow>, NoMemory> {
    let mut rows = Items::new(alloc);
    rows.push(MutexRow {
        name: Text::from_str(alloc, "m0")?,
        base: MUTEXES,
    })?;
    rows.push(MutexRow {
        name: Text::from_str(alloc, "m1")?,
        base: MUTEXES + 8,
    })?;
    Ok(rows)
}

/// An interrupt line or none.
fn line(words: &mut Words, n: u32) -> Option<u32> {
    if words.once_in(4) { None } else { Some(n) }
}

/// A mailbox from core 0 to another core, and one back.
fn mailboxes(alloc: Global, words: &mut Words, other: u32) -> Result<Items<MailboxRow>, NoMemory> {
    let mut rows = Items::new(alloc);
    rows.push(MailboxRow {
        name: Text::from_str(alloc, "b0")?,
        send: MAILBOXES[0],
        receive: MAILBOXES[1],
        sender: 0,
        receiver: other,
        send_irq: line(words, 6),
        receive_irq: line(words, 7),
    })?;
    rows.push(MailboxRow {
        name: Text::from_str(alloc, "b1")?,
        send: MAILBOXES[2],
        receive: MAILBOXES[3],
        sender: other,
        receiver: 0,
        send_irq: line(words, 6),
        receive_irq: line(words, 7),
    })?;
    Ok(rows)
}

fn timer(
    alloc: Global,
    words: &mut Words,
    shape: &Shape,
    name: &str,
    i: usize,
) -> Result<TimerRow, NoMemory>
    requires { i < 2 }
{
    Ok(TimerRow {
        name: Text::from_str(alloc, name)?,
        base: TIMERS[i],
        core: shape.interrupted[i],
        irq: line(words, 3),
        period: words.below(12),
    })
}

fn timers(alloc: Global, words: &mut Words, shape: &Shape) -> Result<Items<TimerRow>, NoMemory> {
    let mut rows = Items::new(alloc);
    rows.push(timer(alloc, words, shape, "t0", 0)?)?;
    rows.push(timer(alloc, words, shape, "t1", 1)?)?;
    Ok(rows)
}

fn uart(
    alloc: Global,
    words: &mut Words,
    shape: &Shape,
    name: &str,
    i: usize,
) -> Result<UartRow, NoMemory>
    requires { i < 2 }
{
    Ok(UartRow {
        name: Text::from_str(alloc, name)?,
        base: UARTS[i],
        core: shape.interrupted[i],
        irq: line(words, 4),
        read_depth: 8,
        write_depth: 8 + words.below(9),
        input: Text::from_str(alloc, "What goes in\n")?,
    })
}

fn uarts(alloc: Global, words: &mut Words, shape: &Shape) -> Result<Items<UartRow>, NoMemory> {
    let mut rows = Items::new(alloc);
    rows.push(uart(alloc, words, shape, "u0", 0)?)?;
    rows.push(uart(alloc, words, shape, "u1", 1)?)?;
    Ok(rows)
}

fn put_region(
    alloc: Global,
    rows: &mut Items<RegionRow>,
    name: &str,
    base: u32,
    size: u32,
    class: RegionClass,
) -> Result<(), NoMemory> {
    rows.push(RegionRow {
        name: Text::from_str(alloc, name)?,
        base,
        size,
        class,
    })
}

/// The mailboxes that pass the region on: mostly both.
fn passed(alloc: Global, words: &mut Words, other: u32) -> Result<RegionClass, NoMemory> {
    let mut mailboxes = Items::new(alloc);
    if !words.once_in(12) {
        mailboxes.push(0)?;
    }
    if !words.once_in(12) {
        mailboxes.push(1)?;
    }
    Ok(RegionClass::Passed {
        holder: if words.once_in(12) { other } else { 0 },
        mailboxes,
    })
}

/// The name of a core's own region.
fn own_name(core: u32) -> &'static str {
    match core {
        0 => "own0",
        1 => "own1",
        2 => "own2",
        _ => "own3",
    }
}

/// Two lines or four.
fn some_lines(words: &mut Words) -> u32 {
    if words.once_in(2) { 0x40 } else { 0x80 }
}

fn put_own(
    alloc: Global,
    rows: &mut Items<RegionRow>,
    words: &mut Words,
    shape: &Shape,
) -> Result<(), NoMemory> {
    for k in 0..shape.cores {
        let class = RegionClass::Private(k);
        let size = some_lines(words);
        put_region(alloc, rows, own_name(k), shape.own_at(k), size, class)?;
    }
    Ok(())
}

fn regions(alloc: Global, words: &mut Words, shape: &Shape) -> Result<Items<RegionRow>, NoMemory> {
    let mut rows = Items::new(alloc);
    for (i, name) in ["s0", "s1"].iter().enumerate() {
        let at = GUARDED + 0x200 * i as u32;
        let class = RegionClass::Mutex(i as u32);
        put_region(alloc, &mut rows, name, at, some_lines(words), class)?;
    }
    let class = passed(alloc, words, shape.other)?;
    put_region(alloc, &mut rows, "packet", PASSED, 0x40, class)?;
    put_region(
        alloc,
        &mut rows,
        "flags",
        FLAGS,
        0x20,
        RegionClass::Uncached,
    )?;
    if words.once_in(2) {
        put_region(alloc, &mut rows, "code", 0, 0x2000, RegionClass::Code)?;
    }
    put_own(alloc, &mut rows, words, shape)?;
    Ok(rows)
}

fn event(words: &mut Words) -> DeviceEvent {
    match words.below(4) {
        0 => DeviceEvent::Receive(words.below(2)),
        1 => DeviceEvent::Drain(words.below(2)),
        _ => DeviceEvent::Tick(1 + words.below(9)),
    }
}

fn script(alloc: Global, words: &mut Words) -> Result<Items<ScriptRow>, NoMemory> {
    let mut rows = Items::new(alloc);
    for _ in 0..(4 + words.below(12)) {
        rows.push(ScriptRow {
            event: event(words),
            times: 1 + words.below(30),
        })?;
    }
    Ok(rows)
}

/// A board of a shape. Its turns and its journal end now and then before the programs do.
pub fn board(alloc: Global, words: &mut Words, shape: &Shape) -> Result<Board, NoMemory> {
    Ok(Board {
        turns: u64::from(100 + words.below(3000)),
        journal: 100 + words.below(6000),
        memory: memories(alloc, shape)?,
        core: cores(alloc, words, shape.cores)?,
        mutex: mutexes(alloc)?,
        mailbox: mailboxes(alloc, words, shape.other)?,
        timer: timers(alloc, words, shape)?,
        uart: uarts(alloc, words, shape)?,
        region: regions(alloc, words, shape)?,
        dump: Items::new(alloc),
        script: script(alloc, words)?,
    })
}
