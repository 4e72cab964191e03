//! The JTAG UART: a queue of bytes from the host and one to the host, behind two registers
//! (Embedded Peripherals IP User Guide, JTAG UART Core).
#![tactic(auto)]

ghost use Rattle.std.specs.Prelude.{◌≡◌, ◌<◌, ◌≤◌, [], IfOk};
ghost use Rattle.circular_buffer.specs.Buffer.{buffer};

use circular_buffer::HeapCircularBuffer;
use n2_word::NoMemory;
use std::alloc::Global;
use std::marker::Model;

pub mod laws;

/// The offset of the data register, in words.
const DATA: u32 = 0;

/// A UART with its two queues and the bits of its control register. Contracts see the queues as lists of
/// bytes, the oldest first, with their depths.
#[derive(Drop)]
pub struct Uart {
    read_queue: HeapCircularBuffer<u8>,
    write_queue: HeapCircularBuffer<u8>,
    re: bool,
    we: bool,
    ac: bool,
}

impl Model for Uart {
    ghost use Rattle.std.specs.Prelude.{◌≤◌};
    ghost use Rattle.n2_juart.specs.Uart.{State};

    ghost Value = { State };

    ghost view = { λ uart. record {
      read_queue = uart.read_queue.items;
      read_depth = uart.read_queue.capacity;
      write_queue = uart.write_queue.items;
      write_depth = uart.write_queue.capacity;
      re = uart.re;
      we = uart.we;
      ac = uart.ac;
    } };

    ghost invariant = { λ uart. (uart.read_queue.capacity ≤ 32768) × (uart.write_queue.capacity ≤ 32768) };
}

impl Uart {
    ghost use Rattle.n2_juart.specs.Uart.{started, value_of, after_read, takes, after_write, has_room, after_receive, drained, after_drain, after_host, is_on, ri_of, wi_of, data_of, control_of};

    /// A UART with empty queues of these depths in bytes, and RE, WE and AC 0 (JTAG UART Core, register
    /// map). All memory is taken here. The only error is want of memory.
    pub fn open(alloc: Global, read_depth: u32, write_depth: u32) -> Result<Uart, NoMemory>
        requires read { (8 ≤ read_depth) × (read_depth ≤ 32768) }
        requires write { (8 ≤ write_depth) × (write_depth ≤ 32768) }
        ensures { IfOk result (λ uart. uart ≡ started read_depth write_depth) }
    {
        let read_queue = queue(alloc, read_depth)?;
        let write_queue = queue(alloc, write_depth)?;
        Ok(Uart {
            read_queue,
            write_queue,
            re: false,
            we: false,
            ac: false,
        })
    }

    /// Reads the register at an offset in words: data 0, control 1 (JTAG UART Core, register map). A read
    /// of data takes the oldest byte out of the read queue.
    pub fn read(&mut self, offset: u32) -> u32
        requires { offset < 2 }
        ensures value { result ≡ value_of self.old offset }
        ensures after { self.new ≡ after_read self.old offset }
    {
        if offset == DATA {
            match self.read_queue.pop_front() {
                Some(byte) => u32::from(byte) + 0x8000 + self.read_queue.len() as u32 * 0x1_0000,
                None => 0,
            }
        } else {
            self.control()
        }
    }

    /// Writes a word to the register at an offset in words, and tells whether the write took effect. It is
    /// refused exactly at the data register while the write queue is full (JTAG UART Core, register map).
    pub fn write(&mut self, offset: u32, value: u32) -> bool
        requires { offset < 2 }
        ensures took { result ≡ takes self.old offset value }
        ensures after { self.new ≡ after_write self.old offset value }
    {
        if offset == DATA {
            return self.write_queue.try_push_back((value & 0xff) as u8).is_ok();
        }
        self.re = value & 1 == 1;
        self.we = (value >> 1) & 1 == 1;
        if (value >> 10) & 1 == 1 {
            self.ac = false;
        }
        true
    }

    /// Puts a byte from the host into the read queue, and tells whether it did. It is refused exactly
    /// while that queue is full.
    pub fn receive(&mut self, byte: u8) -> bool
        ensures took { result ≡ has_room self.old }
        ensures after { self.new ≡ after_receive self.old byte }
    {
        self.read_queue.try_push_back(byte).is_ok()
    }

    /// Whether there is room for a byte from the host.
    pub fn has_room(&self) -> bool
        ensures { result ≡ has_room self.now }
    {
        self.read_queue.len() < self.read_queue.capacity()
    }

    /// Takes the oldest byte out of the write queue, for the host. There is none exactly while that queue
    /// is empty.
    pub fn drain(&mut self) -> Option<u8>
        ensures byte { result ≡ drained self.old }
        ensures after { self.new ≡ after_drain self.old }
    {
        self.write_queue.pop_front()
    }

    /// Notes that the host was active: sets AC (JTAG UART Core, control register).
    pub fn host(&mut self)
        ensures { self.new ≡ after_host self.old }
    {
        self.ac = true;
    }

    /// Whether the interrupt line is on: RI or WI.
    pub fn line(&self) -> bool
        ensures { result ≡ is_on self.now }
    {
        self.read_waits() || self.write_waits()
    }

    /// RI: RE is set, and a byte waits to be read.
    fn read_waits(&self) -> bool
        ensures { result ≡ ri_of self.now }
    {
        self.re && !self.read_queue.is_empty()
    }

    /// WI: WE is set, and at most eight bytes wait for the host.
    fn write_waits(&self) -> bool
        ensures { result ≡ wi_of self.now }
    {
        self.we && self.write_queue.len() <= 8
    }

    /// The word of the control register.
    fn control(&self) -> u32
        ensures { result ≡ control_of self.now }
    {
        let enabled = u32::from(self.re) + 2 * u32::from(self.we);
        let pending = 0x100 * u32::from(self.read_waits()) + 0x200 * u32::from(self.write_waits());
        let space = (self.write_queue.capacity() - self.write_queue.len()) as u32;
        enabled + pending + 0x400 * u32::from(self.ac) + 0x1_0000 * space
    }
}

/// An empty queue of so many bytes.
fn queue(alloc: Global, depth: u32) -> Result<HeapCircularBuffer<u8>, NoMemory>
    ensures { IfOk result (λ queue. queue ≡ buffer [] depth) }
{
    match HeapCircularBuffer::with_capacity(alloc, depth as usize) {
        Ok(queue) => Ok(queue),
        Err(_) => Err(NoMemory),
    }
}
