//! What a report shows.

use n2_exec::Regs;
use n2_parts::Stop;

/// A core: its registers, and why it stopped; None while it runs.
#[derive(Clone, Copy, Debug, PartialEq, Eq)]
pub struct CoreEnd {
    pub regs: Regs,
    pub stop: Option<Stop>,
}

/// A UART: its name, and the bytes that writes to its data register put into its queue.
#[derive(Clone, Copy, Debug)]
pub struct UartEnd<'a> {
    pub name: &'a str,
    pub sent: &'a [u8],
}

/// A line of memory: its first address and its words.
#[derive(Clone, Copy, Debug, PartialEq, Eq)]
pub struct MemoryLine {
    pub at: u32,
    pub words: [u32; 8],
}
