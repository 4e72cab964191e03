//! The flat machine.

ghost use Rattle.std.specs.Prelude.{◌≡◌, ◌↔◌, ◌<◌, IsTrue, OnOk, OnErr, Some, None, [], length, slice_get, reverse, get_or};
ghost use Rattle.n2_word.specs.declared.Width.TheVariants.{Word};
ghost use Rattle.n2_word.specs.Words.{is_aligned};
ghost use Rattle.n2_word.specs.Lines.{line as line_number};
ghost use Rattle.n2_parts.specs.MemoryLines.{HasLine};
ghost use Rattle.n2_parts.specs.Valid.{IsValid};
ghost use Rattle.n2_memory.specs.Memories.{read_at, line_at};
ghost use Rattle.n2_bus.specs.Wiring.{wiring_of, proper};
ghost use Rattle.n2_bus.specs.Transfer.{request_for};
ghost use Rattle.n2_runs.specs.FlatRun.{act as acted_by, sampled_by};
ghost use Rattle.n2_flat.specs.State.{CoreState, IsWhole, IsActOf, IsAt, IsWatched, IsAligned, machine_of, acted_by as with_common};

use crate::common::Common;
use crate::cores::FlatCore;
use n2_board::{Act, Board, DeviceEvent, Layout, Stop};
use n2_bus::Request;
use n2_exec::Regs;
use n2_watch::Past;
use n2_word::NoMemory;
use std::marker::Model;

/// The flat machine: a board's memories and devices without caches, its cores, and the line, bit 31 of
/// an address counted, from which an instruction was fetched last.
#[derive(Drop)]
pub struct Flat {
    pub(crate) board: Board,
    pub(crate) common: Common,
    pub(crate) cores: Vec<FlatCore>,
    pub(crate) recent: u32,
}

impl Model for Flat {
    ghost use Rattle.n2_flat.specs.State.{State};

    ghost Value = { State };

    ghost view = { λ m. record { board = m.board; common = m.common; cores = m.cores.items; recent = m.recent } };
}

/// The request for an event.
fn request_for(event: DeviceEvent) -> Request
    ensures { result ≡ request_for event }
{
    match event {
        DeviceEvent::Tick(n) => Request::Tick(n),
        DeviceEvent::Receive(uart) => Request::Receive(uart),
        DeviceEvent::Drain(uart) => Request::Drain(uart),
    }
}

impl FlatCore {
    /// The core latches its interrupt lines.
    fn sample(&mut self, board: &Board, k: u32, layout: &Layout, common: &mut Common)
        requires { IsAt board.now layout.now k common.old self.old }
        ensures done { with_common self.new common.old ≡ sampled_by board.now layout.now k self.old.front common.old.world }
        ensures common { common.new ≡ common.old }
        ensures past { self.new.front.past ≡ self.old.front.past }
        ensures watched { IsWatched board.now layout.now k common.old.world.book self.new }
        ensures aligned { IsAligned self.old.front.regs → IsAligned self.new.front.regs }
    {
        n2_bus::laws::what_passes_is_proper();
        let reply = common.transfer(k, &Request::Sample);
        self.regs.latch_lines(reply.lines);
    }
}

impl Flat {
    /// A core's interrupt, instruction or stop; a core that stopped stays as it is.
    #[inline(always)]
    fn retire(&mut self, layout: &Layout, k: u32) -> Result<(), NoMemory>
        requires whole { IsWhole layout.now self.old }
        requires core { k < length self.old.board.core }
        ensures done { OnOk result (machine_of self.new ≡ acted_by self.old.board layout.now (machine_of self.old) (Act.Retire k)) }
        ensures same { OnErr result (self.new ≡ self.old) }
        ensures board { self.new.board ≡ self.old.board }
        ensures whole { IsWhole layout.now self.new }
    {
        let core = &mut self.cores[k as usize];
        if core.stop.is_some() {
            return Ok(());
        }
        core.retire(&self.board, k, layout, &mut self.common, &mut self.recent)
    }

    /// A core latches its interrupt lines; a core that stopped stays as it is.
    fn sample(&mut self, layout: &Layout, k: u32)
        requires whole { IsWhole layout.now self.old }
        requires core { k < length self.old.board.core }
        ensures done { machine_of self.new ≡ acted_by self.old.board layout.now (machine_of self.old) (Act.Sample k) }
        ensures board { self.new.board ≡ self.old.board }
        ensures whole { IsWhole layout.now self.new }
    {
        let core = &mut self.cores[k as usize];
        if core.stop.is_some() {
            return;
        }
        core.sample(&self.board, k, layout, &mut self.common);
    }

    /// An event of the devices.
    fn happen(&mut self, layout: &Layout, event: DeviceEvent)
        requires whole { IsWhole layout.now self.old }
        requires proper { IsTrue (proper (wiring_of self.old.board) (length self.old.board.core) (request_for event)) }
        ensures done { machine_of self.new ≡ acted_by self.old.board layout.now (machine_of self.old) (Act.Device event) }
        ensures board { self.new.board ≡ self.old.board }
        ensures whole { IsWhole layout.now self.new }
    {
        let actor = self.board.core.len() as u32;
        let _ = self.common.transfer(actor, &request_for(event));
    }

    /// Whether an act is of a core, a UART or the timers of the board.
    pub fn has_act(&self, act: &Act) -> bool
        requires valid { IsValid self.now.board }
        requires wiring { self.now.common.wiring ≡ wiring_of self.now.board }
        ensures { IsTrue result ↔ IsActOf self.now.board act.now }
    {
        match *act {
            Act::Retire(k) => (k as usize) < self.board.core.len(),
            Act::Sample(k) => (k as usize) < self.board.core.len(),
            Act::Device(event) => self.is_event(event),
        }
    }

    fn is_event(&self, event: DeviceEvent) -> bool
        requires valid { IsValid self.now.board }
        requires wiring { self.now.common.wiring ≡ wiring_of self.now.board }
        ensures { result ≡ proper (wiring_of self.now.board) (length self.now.board.core) (request_for event) }
    {
        n2_parts::laws::valid_boards();
        let actor = self.board.core.len() as u32;
        self.common.bus.proper(actor, &request_for(event))
    }

    /// Makes an act. After want of memory nothing has changed.
    #[inline(always)]
    pub fn act(&mut self, layout: &Layout, act: &Act) -> Result<(), NoMemory>
        requires whole { IsWhole layout.now self.old }
        requires there { IsActOf self.old.board act.now }
        ensures done { OnOk result (machine_of self.new ≡ acted_by self.old.board layout.now (machine_of self.old) act.now) }
        ensures same { OnErr result (self.new ≡ self.old) }
        ensures board { self.new.board ≡ self.old.board }
        ensures whole { IsWhole layout.now self.new }
    {
        match *act {
            Act::Retire(k) => self.retire(layout, k),
            Act::Sample(k) => {
                self.sample(layout, k);
                Ok(())
            }
            Act::Device(event) => {
                self.happen(layout, event);
                Ok(())
            }
        }
    }

    /// How many cores there are.
    pub fn cores(&self) -> usize
        ensures { result ≡ length self.now.cores }
    {
        self.cores.len()
    }

    /// The registers of a core.
    pub fn regs(&self, k: u32) -> Regs
        requires { k < length self.now.cores }
        ensures { (c : CoreState) → slice_get self.now.cores k ≡ Some c → result ≡ c.front.regs }
    {
        self.cores[k as usize].regs
    }

    /// Why a core stopped, if it did.
    pub fn stop(&self, k: u32) -> Option<Stop>
        requires { k < length self.now.cores }
        ensures { (c : CoreState) → slice_get self.now.cores k ≡ Some c → result ≡ c.front.stop }
    {
        self.cores[k as usize].stop
    }

    /// The past events of a core, the oldest first.
    pub fn past(&self, k: u32) -> &[Past]
        requires { k < length self.now.cores }
        ensures { (c : CoreState) → slice_get self.now.cores k ≡ Some c → reverse result.now ≡ c.front.past }
    {
        self.cores[k as usize].past.as_slice()
    }

    /// The word of a memory at an address.
    pub fn word(&self, address: u32) -> u32
        requires inside { HasLine self.now.common.wiring.memories (line_number address) }
        requires aligned { IsTrue (is_aligned address Word) }
        ensures { result ≡ read_at self.now.common.world.memory address Word }
    {
        self.common.word(address)
    }

    /// The eight words of a line of a memory.
    pub fn line(&self, line: u32) -> [u32; 8]
        requires { HasLine self.now.common.wiring.memories line }
        ensures { result ≡ line_at self.now.common.world.memory line }
    {
        self.common.bus.line(line)
    }

    /// The bytes that writes put into the queue of a UART.
    pub fn output(&self, uart: u32) -> &[u8]
        ensures { result.now ≡ get_or self.now.common.world.book.sent uart [] }
    {
        match self.common.sent.get(uart as usize) {
            Some(bytes) => bytes.as_slice(),
            None => &[],
        }
    }
}
