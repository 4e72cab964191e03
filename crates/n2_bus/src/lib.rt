//! The bus: the memories and the devices of a board, one transfer at a time.
#![tactic(auto)]

ghost use Rattle.std.specs.Prelude.{◌≡◌, ◌<◌, ◌&&◌, IsTrue, IfOk, None, length};
ghost use Rattle.std.specs.List.{AllByRecursion};
ghost use Rattle.n2_bus.specs.Wiring as wiring;
ghost use Rattle.n2_bus.specs.Transfer as transfers;

pub mod laws;
mod request;

use n2_board::{Layout, Place, Places};
use n2_devices::Devices;
use n2_elf::Image;
use n2_memory::Memory;
use n2_parts::{Board, DeviceEvent, Part};
use n2_word::{NoMemory, Width, aligned};
pub use request::{Reply, Request};
use std::alloc::Global;
use std::marker::Model;

/// The memories and the devices of a board behind one bus. Contracts see how it is wired, which
/// never changes, and what is shared behind it.
#[derive(Drop)]
pub struct Bus {
    memory: Memory,
    devices: Devices,
    places: Places,
}

impl Model for Bus {
    ghost use Rattle.n2_bus.specs.Transfer.{BusState};
    ghost use Rattle.n2_bus.specs.Opened.{bus_of, IsSound};

    ghost Value = { BusState };

    ghost view = { λ b. bus_of b.memory b.devices b.places };

    ghost invariant = { λ b. IsSound (bus_of b.memory b.devices b.places) };
}

impl Bus {
    ghost use Rattle.n2_word.specs.Words.{is_aligned};
    ghost use Rattle.n2_word.specs.Lines.{line as line_number};
    ghost use Rattle.n2_elf.specs.Reading.{IsSized};
    ghost use Rattle.n2_parts.specs.MemoryLines.{HasLine};
    ghost use Rattle.n2_parts.specs.Rules.{event_has_uart};
    ghost use Rattle.n2_parts.specs.Valid.{IsValid};
    ghost use Rattle.n2_board.specs.AddressMap.{address_map};
    ghost use Rattle.n2_board.specs.Placement.{open_fault};
    ghost use Rattle.n2_board.specs.Places.{place_in};
    ghost use Rattle.n2_memory.specs.Memories as memories;
    ghost use Rattle.n2_bus.specs.Transfer.{StandsFor, served, bus_after, read_served, write_served, event_served, device_served, lines_of};
    ghost use Rattle.n2_devices.specs.Devices.{has_word, read_word, write_word, happened};
    ghost use Rattle.n2_bus.specs.Opened.{opened, shared_at_start, IsSound};

    /// The bus of a valid board at the start: memories of zeros with the segments of the images over
    /// them in order, and the devices as they start. The layout is that of the board with the images,
    /// which fit it. All memory that a bus needs is taken here, and `NoMemory` is the only error.
    pub fn open(
        alloc: Global,
        board: &Board,
        images: &[Image],
        layout: &Layout,
    ) -> Result<Bus, NoMemory>
        requires valid { IsValid board.now }
        requires images { length images.now ≡ length board.now.core }
        requires sized { AllByRecursion IsSized images.now }
        requires fits { open_fault board.now images.now ≡ None }
        requires layout { layout.now ≡ address_map board.now images.now }
        ensures opened { IfOk result (λ bus. bus ≡ opened board.now images.now) }
        ensures stands { IfOk result (λ bus. StandsFor board.now bus (shared_at_start board.now images.now)) }
        ensures sound { IfOk result (λ bus. IsSound bus) }
    {
        let memory = Memory::open(alloc, board, images)?;
        let devices = Devices::open(alloc, board)?;
        let places = Places::open(alloc, board)?;
        Ok(Bus {
            memory,
            devices,
            places,
        })
    }

    /// Whether an actor may make a request: a core a fill or a write-back of a line in a memory, an
    /// aligned access below bit 31 of a memory or of a whole word of a device, and a sample; the device
    /// actor ticks, at least one, and the bytes of a UART that is there. It never depends on what the bus
    /// holds.
    pub fn proper(&self, actor: u32, request: &Request) -> bool
        ensures { result ≡ wiring.proper self.now.wiring actor request.now }
    {
        match request {
            Request::FillCode(line) => self.is_core(actor) && self.has_line(*line),
            Request::FillData(line) => self.is_core(actor) && self.has_line(*line),
            Request::WriteBack(line, _) => self.is_core(actor) && self.has_line(*line),
            Request::Read(address, width) => self.is_core(actor)
                && self.is_access(*address, *width),
            Request::Write(address, width, _) => {
                self.is_core(actor) && self.is_access(*address, *width)
            }
            Request::Sample => self.is_core(actor),
            Request::Tick(n) => self.is_device_actor(actor) && 1 <= *n,
            Request::Receive(uart) => self.is_device_actor(actor) && self.has_uart(*uart),
            Request::Drain(uart) => self.is_device_actor(actor) && self.has_uart(*uart),
        }
    }

    fn is_core(&self, actor: u32) -> bool
        ensures { result ≡ wiring.is_core self.now.wiring actor }
    {
        (actor as usize) < self.devices.cores()
    }

    fn is_device_actor(&self, actor: u32) -> bool
        ensures { result ≡ wiring.is_device_actor self.now.wiring actor }
    {
        actor as usize == self.devices.cores()
    }

    fn has_uart(&self, uart: u32) -> bool
        ensures { result ≡ wiring.has_uart self.now.wiring uart }
    {
        self.devices.has_event(DeviceEvent::Receive(uart))
    }

    fn is_access(&self, address: u32, width: Width) -> bool
        ensures { result ≡ wiring.is_access self.now.wiring address width }
    {
        aligned(address, width)
            && address < 0x8000_0000
            && is_accessed(self.places.find(address), width)
    }

    /// Makes a proper request of an actor, and replies. It takes no memory and copies none but the line
    /// that it moves.
    #[tactic(auto, unfolding(crate::specs::Transfer::served))]
    pub fn transfer(&mut self, actor: u32, request: &Request) -> Reply
        requires { IsTrue (wiring.proper self.old.wiring actor request.now) }
        ensures reply { result ≡ (served self.old.wiring actor self.old.shared request.now).reply }
        ensures after { self.new ≡ bus_after self.old actor request.now }
        ensures sound { IsSound self.new }
    {
        match request {
            Request::FillCode(line) => line_reply(self.memory.line(*line)),
            Request::FillData(line) => line_reply(self.memory.line(*line)),
            Request::WriteBack(line, words) => {
                self.memory.put_line(*line, words);
                line_reply([0; 8])
            }
            Request::Read(address, width) => self.read_past(actor, *address, *width),
            Request::Write(address, width, value) => {
                self.write_past(actor, *address, *width, *value)
            }
            Request::Sample => reply(0, self.devices.lines(actor), false, 0),
            Request::Tick(n) => self.event(DeviceEvent::Tick(*n)),
            Request::Receive(uart) => self.event(DeviceEvent::Receive(*uart)),
            Request::Drain(uart) => self.event(DeviceEvent::Drain(*uart)),
        }
    }

    /// A read of a core past its caches.
    fn read_past(&mut self, core: u32, address: u32, width: Width) -> Reply
        requires core { IsTrue (wiring.is_core self.old.wiring core) }
        requires access { IsTrue (wiring.is_access self.old.wiring address width) }
        ensures reply { result ≡ (read_served self.old.wiring core self.old.shared (place_in self.old.wiring.places address) address width).reply }
        ensures after { self.new ≡ record { wiring = self.old.wiring; shared = (read_served self.old.wiring core self.old.shared (place_in self.old.wiring.places address) address width).shared } }
        ensures sound { IsSound self.new }
    {
        match self.places.find(address) {
            Place::Memory => {
                let value = self.memory.read(address, width);
                reply(value, self.devices.lines(core), false, 0)
            }
            Place::Device { part, offset } => self.read_device(core, part, offset),
            Place::Nothing => line_reply([0; 8]),
        }
    }

    /// A write of a core past its caches.
    fn write_past(&mut self, core: u32, address: u32, width: Width, value: u32) -> Reply
        requires core { IsTrue (wiring.is_core self.old.wiring core) }
        requires access { IsTrue (wiring.is_access self.old.wiring address width) }
        ensures reply { result ≡ (write_served self.old.wiring core self.old.shared (place_in self.old.wiring.places address) address width value).reply }
        ensures after { self.new ≡ record { wiring = self.old.wiring; shared = (write_served self.old.wiring core self.old.shared (place_in self.old.wiring.places address) address width value).shared } }
        ensures sound { IsSound self.new }
    {
        match self.places.find(address) {
            Place::Memory => {
                self.memory.write(address, width, value);
                reply(0, self.devices.lines(core), true, 0)
            }
            Place::Device { part, offset } => self.write_device(core, part, offset, value),
            Place::Nothing => line_reply([0; 8]),
        }
    }

    /// A read of a word of a device.
    fn read_device(&mut self, core: u32, part: Part, offset: u32) -> Reply
        requires core { IsTrue (wiring.is_core self.old.wiring core) }
        requires word { IsTrue (has_word self.old.shared.devices part offset) }
        ensures reply { result ≡ (device_served self.old.wiring core self.old.shared (read_word self.old.shared.devices part offset)).reply }
        ensures after { self.new ≡ record { wiring = self.old.wiring; shared = (device_served self.old.wiring core self.old.shared (read_word self.old.shared.devices part offset)).shared } }
        ensures sound { IsSound self.new }
    {
        let answer = self.devices.read(part, offset);
        let lines = self.devices.lines(core);
        reply(answer.value, lines, answer.took, answer.pointer)
    }

    /// A write of a word of a device.
    fn write_device(&mut self, core: u32, part: Part, offset: u32, value: u32) -> Reply
        requires core { IsTrue (wiring.is_core self.old.wiring core) }
        requires word { IsTrue (has_word self.old.shared.devices part offset) }
        ensures reply { result ≡ (device_served self.old.wiring core self.old.shared (write_word self.old.shared.devices part offset value)).reply }
        ensures after { self.new ≡ record { wiring = self.old.wiring; shared = (device_served self.old.wiring core self.old.shared (write_word self.old.shared.devices part offset value)).shared } }
        ensures sound { IsSound self.new }
    {
        let took = self.devices.write(part, offset, value);
        let lines = self.devices.lines(core);
        reply(0, lines, took, 0)
    }

    /// An event of the devices.
    fn event(&mut self, event: DeviceEvent) -> Reply
        requires { IsTrue (event_has_uart self.old.wiring.uarts event) }
        ensures reply { result ≡ (event_served self.old.shared (happened self.old.shared.devices event)).reply }
        ensures after { self.new ≡ record { wiring = self.old.wiring; shared = (event_served self.old.shared (happened self.old.shared.devices event)).shared } }
        ensures sound { IsSound self.new }
    {
        let took = self.devices.event(event);
        reply(0, 0, took, 0)
    }

    /// Whether one of the memories has a line.
    #[inline(always)]
    pub fn has_line(&self, line: u32) -> bool
        ensures { result ≡ wiring.has_line self.now.wiring line }
    {
        self.memory.has_line(line)
    }

    /// The eight words of a line.
    #[inline(always)]
    pub fn line(&self, line: u32) -> [u32; 8]
        requires { HasLine self.now.wiring.memories line }
        ensures { result ≡ memories.line_at self.now.shared.memory line }
    {
        self.memory.line(line)
    }

    /// The byte, half or word of a memory at an address, zero-extended.
    #[inline(always)]
    pub fn read(&self, address: u32, width: Width) -> u32
        requires inside { HasLine self.now.wiring.memories (line_number address) }
        requires aligned { IsTrue (is_aligned address width) }
        ensures { result ≡ memories.read_at self.now.shared.memory address width }
    {
        self.memory.read(address, width)
    }

    /// The word of a memory at an address.
    #[inline(always)]
    pub fn word(&self, address: u32) -> u32
        requires inside { HasLine self.now.wiring.memories (line_number address) }
        requires aligned { IsTrue (is_aligned address Width.Word) }
        ensures { result ≡ memories.read_at self.now.shared.memory address Width.Word }
    {
        self.memory.word(address)
    }

    /// Stores the low bits of a value in a memory at an address.
    #[inline(always)]
    pub fn write(&mut self, address: u32, width: Width, value: u32)
        requires inside { HasLine self.old.wiring.memories (line_number address) }
        requires aligned { IsTrue (is_aligned address width) }
        ensures stored { self.new ≡ record { wiring = self.old.wiring; shared = record self.old.shared { memory = memories.written_at self.old.shared.memory address width value } } }
        ensures sound { IsSound self.new }
    {
        self.memory.write(address, width, value);
    }
}

/// A memory is accessed in any width, a device by whole words.
fn is_accessed(place: Place, width: Width) -> bool
    ensures { result ≡ wiring.is_accessed place width }
{
    match place {
        Place::Memory => true,
        Place::Device { .. } => width == Width::Word,
        Place::Nothing => false,
    }
}

/// A reply of words alone.
#[inline(always)]
fn line_reply(words: [u32; 8]) -> Reply
    ensures { result ≡ transfers.line_reply words }
{
    Reply {
        words,
        lines: 0,
        took: false,
        pointer: 0,
    }
}

/// A reply of at most one word.
#[inline(always)]
fn reply(value: u32, lines: u32, took: bool, pointer: u32) -> Reply
    ensures { result ≡ record { words = transfers.one_word value; lines = lines; took = took; pointer = pointer } }
{
    Reply {
        words: [value, 0, 0, 0, 0, 0, 0, 0],
        lines,
        took,
        pointer,
    }
}
