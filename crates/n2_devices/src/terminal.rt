//! A UART with what its host is still to send.

ghost use Rattle.std.specs.Prelude.{◌≡◌, ◌≤◌, IfOk, drop, slice_get};
ghost use Rattle.n2_devices.specs.Devices as spec;

use n2_juart::Uart;
use n2_parts::UartRow;
use n2_text::Items;
use n2_word::NoMemory;
use std::alloc::Global;
use std::marker::Model;

/// Bytes that are still to come, the next one first.
#[derive(Drop)]
pub struct Input {
    bytes: Items<u8>,
    next: usize,
}

impl Model for Input {
    ghost use Rattle.std.specs.Prelude.{List, ℕ, drop};

    ghost Value = { List ℕ };

    ghost view = { λ input. drop input.next input.bytes };
}

impl Input {
    /// A copy of some bytes.
    fn open(alloc: Global, bytes: &[u8]) -> Result<Input, NoMemory>
        ensures { IfOk result (λ input. input ≡ bytes.now) }
    {
        let bytes = Items::from_slice(alloc, bytes)?;
        Ok(Input { bytes, next: 0 })
    }

    /// Takes the next byte, if there is one.
    fn take(&mut self) -> Option<u8>
        ensures byte { result ≡ slice_get self.old 0 }
        ensures after { self.new ≡ drop 1 self.old }
    {
        let bytes = self.bytes.as_slice();
        if self.next < bytes.len() {
            let byte = bytes[self.next];
            self.next += 1;
            Some(byte)
        } else {
            None
        }
    }
}

/// A UART with the bytes of its input that are left.
#[derive(Drop)]
pub struct Terminal {
    pub uart: Uart,
    pub input: Input,
}

impl Terminal {
    /// The UART of a row with the row's input. All memory is taken here.
    pub fn open(alloc: Global, row: &UartRow) -> Result<Terminal, NoMemory>
        requires read { (8 ≤ row.now.read_depth) × (row.now.read_depth ≤ 32768) }
        requires write { (8 ≤ row.now.write_depth) × (row.now.write_depth ≤ 32768) }
        ensures { IfOk result (λ terminal. terminal ≡ spec.started_terminal row.now) }
    {
        let uart = Uart::open(alloc, row.read_depth, row.write_depth)?;
        let input = Input::open(alloc, row.input.as_bytes())?;
        Ok(Terminal { uart, input })
    }

    /// A byte from the host: the next one of the input moves to the read queue where there is one
    /// and room, which the answer tells. AC is set.
    pub fn receive(&mut self) -> bool
        ensures moved { result ≡ (spec.received self.old).answer.took }
        ensures after { self.new ≡ (spec.received self.old).state }
    {
        let moved = self.feed();
        self.uart.host();
        moved
    }

    /// The next byte of the input moves to the read queue where there is one and room.
    fn feed(&mut self) -> bool
        ensures moved { result ≡ (spec.fed self.old).answer.took }
        ensures after { self.new ≡ (spec.fed self.old).state }
    {
        if !self.uart.has_room() {
            return false;
        }
        match self.input.take() {
            Some(byte) => self.uart.receive(byte),
            None => false,
        }
    }

    /// A byte for the host: the oldest one of the write queue goes where there is one, which the
    /// answer tells. AC is set.
    pub fn drain(&mut self) -> bool
        ensures moved { result ≡ (spec.drained self.old).answer.took }
        ensures after { self.new ≡ (spec.drained self.old).state }
    {
        let moved = self.uart.drain().is_some();
        self.uart.host();
        moved
    }
}
