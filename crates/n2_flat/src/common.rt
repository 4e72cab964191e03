//! What all cores share: the bus, what writes put into the queues of UARTs, and who holds each region.

ghost use Rattle.std.specs.Prelude.{◌≡◌, ◌∷◌, ◌++◌, ◌<◌, [], ℕ, List, IsTrue, IfOk, OnOk, OnErr, slice_set, get_or};
ghost use Rattle.n2_word.specs.Words.{is_aligned};
ghost use Rattle.n2_word.specs.Lines.{line as line_number};
ghost use Rattle.n2_parts.specs.MemoryLines.{HasLine};
ghost use Rattle.n2_memory.specs.Memories as memories;
ghost use Rattle.n2_bus.specs.Wiring.{proper};
ghost use Rattle.n2_bus.specs.Transfer.{served};
ghost use Rattle.n2_watch.specs.World.{shared};
ghost use Rattle.n2_watch.specs.Book.{with_holder, sent_written};
ghost use Rattle.n2_parts.specs.declared.board.PartKind.TheVariants as kinds;
ghost use Rattle.n2_flat.specs.State.{common_after, with_holders, with_sent};

use crate::bytes::Bytes;
use n2_board::Holder;
use n2_bus::{Bus, Reply, Request};
use n2_word::{NoMemory, Width};
use std::marker::Model;

/// What all cores share.
#[derive(Drop)]
pub struct Common {
    pub bus: Bus,
    pub sent: Vec<Bytes>,
    pub holders: Vec<Option<Holder>>,
}

impl Model for Common {
    ghost use Rattle.n2_flat.specs.State.{CommonState};

    ghost Value = { CommonState };

    ghost view = { λ c. record { wiring = c.bus.wiring; world = record { memory = c.bus.shared.memory; book = record { devices = c.bus.shared.devices; sent = c.sent.items; holders = c.holders.items } } } };
}

impl Common {
    /// The word of a memory at an address.
    #[inline(always)]
    pub fn word(&self, address: u32) -> u32
        requires inside { HasLine self.now.wiring.memories (line_number address) }
        requires aligned { IsTrue (is_aligned address Width.Word) }
        ensures { result ≡ memories.read_at self.now.world.memory address Width.Word }
    {
        self.bus.word(address)
    }

    /// What a memory has at an address.
    #[inline(always)]
    pub fn read(&self, address: u32, width: Width) -> u32
        requires inside { HasLine self.now.wiring.memories (line_number address) }
        requires aligned { IsTrue (is_aligned address width) }
        ensures { result ≡ memories.read_at self.now.world.memory address width }
    {
        self.bus.read(address, width)
    }

    /// Stores in a memory at an address.
    #[inline(always)]
    pub fn write(&mut self, address: u32, width: Width, value: u32)
        requires inside { HasLine self.old.wiring.memories (line_number address) }
        requires aligned { IsTrue (is_aligned address width) }
        ensures { self.new ≡ record { wiring = self.old.wiring; world = record { memory = memories.written_at self.old.world.memory address width value; book = self.old.world.book } } }
    {
        self.bus.write(address, width, value);
    }

    /// A request that changes neither what was sent nor who holds a region.
    #[inline(always)]
    pub fn transfer(&mut self, actor: u32, request: &Request) -> Reply
        requires { IsTrue (proper self.old.wiring actor request.now) }
        ensures reply { result ≡ (served self.old.wiring actor (shared self.old.world) request.now).reply }
        ensures after { self.new ≡ common_after self.old.wiring actor self.old.world request.now }
    {
        self.bus.transfer(actor, request)
    }

    /// A passed region, if there is one, has another holder.
    pub fn hold(&mut self, region: Option<u32>, holder: Holder)
        ensures { self.new ≡ with_holders self.old (with_holder self.old.world.book.holders region holder) }
    {
        if let Some(region) = region {
            if (region as usize) < self.holders.len() {
                self.holders[region as usize] = Some(holder);
            }
        }
    }

    /// A byte more was sent to a UART. After want of memory nothing has changed.
    pub fn send(&mut self, uart: u32, byte: u8) -> Result<(), NoMemory>
        ensures sent { OnOk result (self.new ≡ with_sent self.old (slice_set self.old.world.book.sent uart (get_or self.old.world.book.sent uart [] ++ byte ∷ []))) }
        ensures same { OnErr result (self.new ≡ self.old) }
    {
        if (uart as usize) < self.sent.len() {
            self.sent[uart as usize].push(byte)?;
        }
        Ok(())
    }

    /// The byte that was sent last to a UART was not taken.
    pub fn unsend(&mut self, uart: u32)
        ensures { (sent : List (List ℕ)) (byte : ℕ) → self.old.world.book.sent ≡ slice_set sent uart (get_or sent uart [] ++ byte ∷ []) → self.new ≡ with_sent self.old sent }
    {
        if (uart as usize) < self.sent.len() {
            self.sent[uart as usize].pop();
        }
    }

    /// A write of a UART: what its queue took was sent. After want of memory nothing has changed.
    pub fn write_uart(
        &mut self,
        actor: u32,
        request: &Request,
        uart: u32,
        offset: u32,
        value: u32,
    ) -> Result<Reply, NoMemory>
        requires { IsTrue (proper self.old.wiring actor request.now) }
        ensures reply { IfOk result (λ reply. reply ≡ (served self.old.wiring actor (shared self.old.world) request.now).reply) }
        ensures after { IfOk result (λ reply. self.new ≡ with_sent (common_after self.old.wiring actor self.old.world request.now) (sent_written self.old.world.book kinds.Uart uart offset value reply)) }
        ensures same { OnErr result (self.new ≡ self.old) }
    {
        if offset != 0 {
            return Ok(self.transfer(actor, request));
        }
        self.send(uart, (value % 256) as u8)?;
        let reply = self.transfer(actor, request);
        if !reply.took {
            self.unsend(uart);
        }
        Ok(reply)
    }
}
