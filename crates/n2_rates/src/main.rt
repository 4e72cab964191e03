//! The program `n2_rates`: `n2_rates KIND N` makes N transfers, judgements or notes of one kind on a small
//! board, and prints the kind, N and the sum of all numbers that were replied, or what was refused; or it
//! makes a journal of N entries, its text, and the journal of that text, and prints how much that is.
//! `n2_rates all N` does so for each kind, each on a bus, a watch or a journal of its own. `bench/rates.py`
//! times it.
#![tactic(auto)]

mod journals;
mod watches;

use crate::journals::Made;
use crate::watches::Work;
use n2_board::Layout;
use n2_bus::{Bus, Reply, Request};
use n2_elf::Image;
use n2_text::numeral_up_to;
use n2_word::Width;
use std::alloc::Global;
use std::env;
use std::io::{self, Print};

/// The core of the board, and the device actor.
const CORE: u32 = 0;

const DEVICES: u32 = 1;

const KINDS: [&str; 22] = [
    "fill",
    "back",
    "read",
    "write",
    "readdevice",
    "writedevice",
    "sample",
    "tick",
    "receive",
    "drain",
    "judge1",
    "judge1000",
    "judge100000",
    "note1",
    "note1000",
    "note100000",
    "pass1",
    "pass1000",
    "pass100000",
    "entries",
    "writetext",
    "readtext",
];

/// Who makes the transfers of a kind, and the request.
fn request_of(kind: &str) -> Option<(u32, Request)> {
    match kind {
        "fill" => Some((CORE, Request::FillData(0))),
        "back" => Some((CORE, Request::WriteBack(0x400, [1, 2, 3, 4, 5, 6, 7, 8]))),
        "read" => Some((CORE, Request::Read(0, Width::Word))),
        "write" => Some((CORE, Request::Write(0x8000, Width::Word, 5))),
        "readdevice" => Some((CORE, Request::Read(0x20104, Width::Word))),
        "writedevice" => Some((CORE, Request::Write(0x20090, Width::Word, 5))),
        "sample" => Some((CORE, Request::Sample)),
        "tick" => Some((DEVICES, Request::Tick(1))),
        "receive" => Some((DEVICES, Request::Receive(0))),
        "drain" => Some((DEVICES, Request::Drain(0))),
        _ => None,
    }
}

/// A memory, a core, a timer and a UART, of which both drive one interrupt line.
fn board_text() -> &'static [u8] {
    b"memory = [{base = 0, size = 0x10000}]
core = [{cpuid = 0, image = 'a.bin'}]
timer = [{name = 't0', base = 0x20080, irq = 1, period = 1000}]
uart = [{name = 'u0', base = 0x20100, irq = 1, input = 'hi'}]
"
}

/// The bus of the board, with the word 0x04030201 at 0.
fn opened(alloc: Global) -> Option<Bus> {
    let Ok(board) = n2_boardtext::read(alloc, board_text()) else {
        return None;
    };
    let Ok(image) = Image::raw(alloc, &[1, 2, 3, 4], 0) else {
        return None;
    };
    let images = [image];
    if board.core.len() != 1 {
        return None;
    }
    let Ok(layout) = Layout::open(alloc, &board, &images) else {
        return None;
    };
    Bus::open(alloc, &board, &images, &layout).ok()
}

/// The sum of the numbers of a reply.
fn sum_of(reply: &Reply) -> u32 {
    let mut sum = u32::from(reply.took);
    for word in reply.words {
        sum = sum.wrapping_add(word);
    }
    sum.wrapping_add(reply.lines).wrapping_add(reply.pointer)
}

/// The sum of what N transfers are replied, where they are proper.
fn transfers(bus: &mut Bus, actor: u32, request: &Request, n: u32) -> Option<u32> {
    if !bus.proper(actor, request) {
        return None;
    }
    let mut sum = 0u32;
    'transfers: for _ in 0..n {
        let reply = bus.transfer(actor, request);
        sum = sum.wrapping_add(sum_of(&reply));
    }
    Some(sum)
}

/// What the judgements or notes of a kind refuse on a new watch, how much a new journal is, or the sum of
/// what its transfers are replied on a new bus.
fn sum_of_kind(alloc: Global, kind: &str, n: u32) -> Option<u32> {
    match kind {
        "judge1" => watches::refused(alloc, 1, Work::Judgements, n),
        "judge1000" => watches::refused(alloc, 1_000, Work::Judgements, n),
        "judge100000" => watches::refused(alloc, 100_000, Work::Judgements, n),
        "note1" => watches::refused(alloc, 1, Work::Notes, n),
        "note1000" => watches::refused(alloc, 1_000, Work::Notes, n),
        "note100000" => watches::refused(alloc, 100_000, Work::Notes, n),
        "pass1" => watches::refused(alloc, 1, Work::Both, n),
        "pass1000" => watches::refused(alloc, 1_000, Work::Both, n),
        "pass100000" => watches::refused(alloc, 100_000, Work::Both, n),
        "entries" => journals::size_of(alloc, Made::Entries, n),
        "writetext" => journals::size_of(alloc, Made::Text, n),
        "readtext" => journals::size_of(alloc, Made::Read, n),
        _ => sum_of_transfers(alloc, kind, n),
    }
}

fn sum_of_transfers(alloc: Global, kind: &str, n: u32) -> Option<u32> {
    let (actor, request) = request_of(kind)?;
    let mut bus = opened(alloc)?;
    transfers(&mut bus, actor, &request, n)
}

fn print_kind<R: Print + AllocGlobal>(rt: &R, kind: &str, n: u32) -> io::Result<()> {
    match sum_of_kind(rt.alloc(), kind, n) {
        Some(sum) => println!(rt; "{kind} {n} {sum:08x}"),
        None => print_usage(rt),
    }
}

fn print_usage<R: Print + AllocGlobal>(rt: &R) -> io::Result<()> {
    println!(rt; "usage: n2_rates KIND N, of which KIND is")?;
    for kind in KINDS {
        println!(rt; "    {kind}")?;
    }
    println!(rt; "    all")
}

/// The number that a word is.
fn count_in(word: &str) -> Option<u32> {
    Some(numeral_up_to(0xffff_ffff, word.as_bytes())? as u32)
}

fn answer<R: Print + AllocGlobal>(rt: &R, kind: &str, n: u32) -> io::Result<()> {
    if kind != "all" {
        return print_kind(rt, kind, n);
    }
    for kind in KINDS {
        print_kind(rt, kind, n)?;
    }
    Ok(())
}

fn main(rt: HostRuntime) -> io::Result<()> {
    let words: Vec<String> = env::args(&rt)?.skip(1).collect(rt.alloc())?;
    match words.as_slice() {
        [kind, n] => match count_in(n.as_str()) {
            Some(n) => answer(&rt, kind.as_str(), n),
            None => print_usage(&rt),
        },
        _ => print_usage(&rt),
    }
}
