//! The mailbox: one message at a time, from a sending side to a receiving side
//! (Embedded Peripherals IP User Guide, Mailbox core).
#![tactic(auto)]

ghost use Rattle.std.specs.Prelude.{◌≡◌, ◌<◌};

use std::marker::Model;

pub mod laws;

/// The offset of the Command register at each side, in words.
const COMMAND: u32 = 0;

/// The offset of the Pointer register at each side, in words.
const POINTER: u32 = 1;

/// The offset of the Status register at each side, in words.
const STATUS: u32 = 2;

/// The offset of the Mask register at each side, in words.
const MASK: u32 = 3;

/// The two sides of a mailbox, each with its own four registers.
#[derive(Clone, Copy, Debug, PartialEq, Eq)]
pub enum Side {
    /// The side that posts messages.
    Send,
    /// The side that takes messages.
    Receive,
}

/// What a read of a register gives.
#[derive(Clone, Copy, Debug, PartialEq, Eq)]
pub struct Taken {
    /// The word of the register.
    pub value: u32,
    /// Whether the read took the message that waited.
    pub took: bool,
    /// The Pointer of the message that was taken, and 0 where none was.
    pub pointer: u32,
}

/// A mailbox with the registers of its two sides. Contracts see the registers.
#[derive(Debug, Drop)]
pub struct Mailbox {
    command: u32,
    pointer: u32,
    waiting: bool,
    send_mask: bool,
    receive_mask: bool,
}

impl Model for Mailbox {
    ghost use Rattle.n2_mailbox.specs.Mailbox.{State};

    ghost Value = { State };

    ghost view = { λ mailbox. record {
      command = mailbox.command;
      pointer = mailbox.pointer;
      waiting = mailbox.waiting;
      send_mask = mailbox.send_mask;
      receive_mask = mailbox.receive_mask;
    } };
}

impl Mailbox {
    ghost use Rattle.n2_mailbox.specs.Mailbox.{started, value_of, takes_message, pointer_taken, after_read, takes, after_write, is_on};

    /// A mailbox without a message, with all registers 0 (Mailbox core, register map).
    pub fn new() -> Mailbox
        ensures { result ≡ started }
    {
        Mailbox {
            command: 0,
            pointer: 0,
            waiting: false,
            send_mask: false,
            receive_mask: false,
        }
    }

    /// Reads the register of a side at an offset in words: Command 0, Pointer 1, Status 2, Mask 3
    /// (Mailbox core, register map). A read of Command at the receiving side takes the message that
    /// waits.
    pub fn read(&mut self, side: Side, offset: u32) -> Taken
        requires { offset < 4 }
        ensures value { result.value ≡ value_of self.old side offset }
        ensures took { result.took ≡ takes_message self.old side offset }
        ensures pointer { result.pointer ≡ pointer_taken self.old side offset }
        ensures after { self.new ≡ after_read self.old side offset }
    {
        let value = self.register(side, offset);
        if self.waiting && offset == COMMAND && side == Side::Receive {
            self.waiting = false;
            return Taken {
                value,
                took: true,
                pointer: self.pointer,
            };
        }
        Taken {
            value,
            took: false,
            pointer: 0,
        }
    }

    /// Writes a word to the register of a side at an offset in words, and tells whether the write took
    /// effect. It is refused exactly at Command and Pointer of the sending side while a message waits, at
    /// Command and Pointer of the receiving side, and at Status (Mailbox core, register map).
    pub fn write(&mut self, side: Side, offset: u32, value: u32) -> bool
        requires { offset < 4 }
        ensures took { result ≡ takes self.old side offset value }
        ensures after { self.new ≡ after_write self.old side offset value }
    {
        if offset == MASK {
            match side {
                Side::Send => self.send_mask = (value >> 1) & 1 == 1,
                Side::Receive => self.receive_mask = value & 1 == 1,
            }
            return true;
        }
        if side == Side::Receive || offset == STATUS || self.waiting {
            return false;
        }
        if offset == POINTER {
            self.pointer = value;
        } else {
            self.command = value;
            self.waiting = true;
        }
        true
    }

    /// Whether the interrupt line of a side is on: at the sending side while its Mask bit 1 is set and
    /// no message waits, at the receiving side while its Mask bit 0 is set and one waits.
    pub fn line(&self, side: Side) -> bool
        ensures { result ≡ is_on self.now side }
    {
        match side {
            Side::Send => self.send_mask && !self.waiting,
            Side::Receive => self.receive_mask && self.waiting,
        }
    }

    /// The word of a register.
    fn register(&self, side: Side, offset: u32) -> u32
        requires { offset < 4 }
        ensures { result ≡ value_of self.now side offset }
    {
        match (offset, side) {
            (COMMAND, _) => self.command,
            (POINTER, _) => self.pointer,
            (STATUS, _) => 3 * u32::from(self.waiting),
            (_, Side::Send) => 2 * u32::from(self.send_mask),
            (_, Side::Receive) => u32::from(self.receive_mask),
        }
    }
}
