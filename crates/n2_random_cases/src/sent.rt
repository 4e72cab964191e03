//! The bytes that UARTs are sent.

use crate::shapes::UARTS;
use n2_bus::Request;
use n2_journal::Entry;
use n2_word::{NoMemory, Width};
use std::alloc::Global;

/// A byte that a UART was sent: by which turn of which core.
#[derive(Clone, Copy, PartialEq, Eq)]
pub struct Sent {
    pub uart: u32,
    pub byte: u8,
    pub core: u32,
    pub turn: u64,
}

/// The UART whose bytes are written at an address.
fn uart_at(address: u32) -> Option<u32> {
    if address == UARTS[0] {
        Some(0)
    } else if address == UARTS[1] {
        Some(1)
    } else {
        None
    }
}

/// The byte that a transfer, which was a turn of that number, sent to a UART.
fn sent_by(entry: &Entry, turn: u64) -> Option<Sent> {
    match entry.request {
        Request::Write(address, Width::Word, value) if entry.reply.took => Some(Sent {
            uart: uart_at(address)?,
            byte: (value & 0xff) as u8,
            core: entry.actor,
            turn,
        }),
        _ => None,
    }
}

/// The bytes that the transfers of a run sent to UARTs, in their order.
pub fn sent_in(alloc: Global, entries: &[Entry]) -> Result<Vec<Sent>, NoMemory> {
    let mut turns = [0u64; 9];
    let mut all = Vec::new(alloc);
    for entry in entries {
        if let Some(made) = turns.get_mut(entry.actor as usize) {
            *made = made.wrapping_add(entry.local).wrapping_add(1);
            if let Some(sent) = sent_by(entry, *made) {
                all.push(sent)?;
            }
        }
    }
    Ok(all)
}
