//! All devices of a board: what reads, writes and events do to them, and the interrupt lines that they
//! show the cores.
#![tactic(auto)]

ghost use Rattle.std.specs.Prelude.{◌≡◌, ◌<◌, IsTrue, IfOk, length, false, map, get_or, []};
ghost use Rattle.n2_timer.specs.Timer.{ticks};
ghost use Rattle.n2_devices.specs.Devices as spec;

mod answer;
pub mod laws;
mod opening;
mod terminal;
mod wires;

pub use answer::Answer;
use n2_mailbox::{Mailbox, Side};
use n2_mutex::HwMutex;
use n2_parts::{Board, DeviceEvent, Part, PartKind};
use n2_text::Items;
use n2_timer::Timer;
use n2_word::NoMemory;
use std::alloc::Global;
use std::marker::Model;
pub use terminal::{Input, Terminal};
use wires::wires_of;
pub use wires::{Source, Wire};

/// All devices of a board, with the interrupt lines of each core. Contracts see the state of each
/// device and the lines.
#[derive(Drop)]
pub struct Devices {
    mutexes: Vec<HwMutex>,
    mailboxes: Vec<Mailbox>,
    timers: Vec<Timer>,
    uarts: Vec<Terminal>,
    wires: Items<Items<Wire>>,
}

impl Model for Devices {
    ghost use Rattle.n2_devices.specs.Wires.{Wired};

    ghost Value = { Wired };

    ghost view = { λ d. record {
      devices = record {
        mutexes = d.mutexes.items;
        mailboxes = d.mailboxes.items;
        timers = d.timers.items;
        uarts = d.uarts.items;
      };
      wires = d.wires;
    } };
}

impl Devices {
    ghost use Rattle.n2_devices.specs.Devices.{has_word, read_word, write_word, has_event, happened};
    ghost use Rattle.n2_devices.specs.Wires.{opened, shown, bit_shown, is_on};
    ghost use Rattle.n2_parts.specs.Valid.{IsValid};

    /// The devices of a board at the start, which take all their memory here. NoMemory is the only error.
    pub fn open(alloc: Global, board: &Board) -> Result<Devices, NoMemory>
        requires { IsValid board.now }
        ensures { IfOk result (λ devices. devices ≡ opened board.now) }
    {
        let mutexes = opening::mutexes(alloc, board.mutex.as_slice())?;
        let mailboxes = opening::mailboxes(alloc, board.mailbox.as_slice())?;
        let timers = opening::timers(alloc, board.timer.as_slice())?;
        let uarts = opening::uarts(alloc, board.uart.as_slice())?;
        let wires = wires_of(alloc, board)?;
        Ok(Devices {
            mutexes,
            mailboxes,
            timers,
            uarts,
            wires,
        })
    }

    /// Whether a part is a device with a word of that offset.
    pub fn has_word(&self, part: Part, offset: u32) -> bool
        ensures { result ≡ has_word self.now.devices part offset }
    {
        let (count, words) = match part.kind {
            PartKind::Mutex => (self.mutexes.len(), 2),
            PartKind::Mailbox => (self.mailboxes.len(), 8),
            PartKind::Timer => (self.timers.len(), 6),
            PartKind::Uart => (self.uarts.len(), 2),
            _ => (0, 0),
        };
        (part.index as usize) < count && offset < words
    }

    /// Whether the UART that an event names is there.
    pub fn has_event(&self, event: DeviceEvent) -> bool
        ensures { result ≡ has_event self.now.devices event }
    {
        match event {
            DeviceEvent::Tick(_) => true,
            DeviceEvent::Receive(uart) => (uart as usize) < self.uarts.len(),
            DeviceEvent::Drain(uart) => (uart as usize) < self.uarts.len(),
        }
    }

    /// How many cores there are, each with its interrupt lines.
    pub fn cores(&self) -> usize
        ensures { result ≡ length self.now.wires }
    {
        self.wires.len()
    }

    /// Reads a word of a device.
    #[tactic(auto, using(std::proofs::lemmas::Option::gets, crate::proofs::Kept::set_same))]
    pub fn read(&mut self, part: Part, offset: u32) -> Answer
        requires { IsTrue (has_word self.old.devices part offset) }
        ensures answer { result ≡ (read_word self.old.devices part offset).answer }
        ensures after { self.new ≡ record self.old { devices = (read_word self.old.devices part offset).state } }
    {
        let index = part.index as usize;
        match part.kind {
            PartKind::Mutex => answered(self.mutexes[index].read(offset)),
            PartKind::Mailbox => read_mailbox(&mut self.mailboxes[index], offset),
            PartKind::Timer => answered(self.timers[index].read(offset)),
            PartKind::Uart => answered(self.uarts[index].uart.read(offset)),
            _ => answered(0),
        }
    }

    /// Writes a word of a device, and tells whether the write took effect.
    pub fn write(&mut self, part: Part, offset: u32, value: u32) -> bool
        requires { IsTrue (has_word self.old.devices part offset) }
        ensures took { result ≡ (write_word self.old.devices part offset value).answer.took }
        ensures after { self.new ≡ record self.old { devices = (write_word self.old.devices part offset value).state } }
    {
        let index = part.index as usize;
        match part.kind {
            PartKind::Mutex => self.mutexes[index].write(offset, value),
            PartKind::Mailbox => write_mailbox(&mut self.mailboxes[index], offset, value),
            PartKind::Timer => {
                self.timers[index].write(offset, value);
                true
            }
            PartKind::Uart => self.uarts[index].uart.write(offset, value),
            _ => false,
        }
    }

    /// Makes an event of the devices, and tells whether a byte moved: so many ticks of every timer; at a
    /// UART the next byte of its input comes, where there is one and room, or the oldest byte for the
    /// host goes, where there is one, and both set AC.
    pub fn event(&mut self, event: DeviceEvent) -> bool
        requires { IsTrue (has_event self.old.devices event) }
        ensures moved { result ≡ (happened self.old.devices event).answer.took }
        ensures after { self.new ≡ record self.old { devices = (happened self.old.devices event).state } }
    {
        match event {
            DeviceEvent::Tick(n) => {
                tick_all(self.timers.as_mut_slice(), n);
                false
            }
            DeviceEvent::Receive(uart) => self.uarts[uart as usize].receive(),
            DeviceEvent::Drain(uart) => self.uarts[uart as usize].drain(),
        }
    }

    /// The interrupt lines of a core: the bit of each number with a device that is wired to the core and
    /// whose line is on.
    pub fn lines(&self, core: u32) -> u32
        requires { core < length self.now.wires }
        ensures { result ≡ shown self.now.devices (get_or self.now.wires core []) }
    {
        self.shown(self.wires.as_slice()[core as usize].as_slice())
    }

    /// The bits of all wires of some.
    #[tactic(auto, using(crate::proofs::Shown::shown_end))]
    fn shown(&self, wires: &[Wire]) -> u32
        ensures { result ≡ shown self.now.devices wires.now }
    {
        let mut lines = 0;
        for wire in wires {
            lines |= self.bit(wire);
        }
        lines
    }

    /// The bit of a wire while its line is on, else 0.
    fn bit(&self, wire: &Wire) -> u32
        ensures { result ≡ bit_shown self.now.devices wire.now }
    {
        if self.is_on(wire.source) { wire.bit } else { 0 }
    }

    /// Whether the interrupt line of a side of a device is on.
    fn is_on(&self, source: Source) -> bool
        ensures { result ≡ is_on self.now.devices source }
    {
        match source {
            Source::Sender(i) => match self.mailboxes.get(i as usize) {
                Some(mailbox) => mailbox.line(Side::Send),
                None => false,
            },
            Source::Receiver(i) => match self.mailboxes.get(i as usize) {
                Some(mailbox) => mailbox.line(Side::Receive),
                None => false,
            },
            Source::Timer(i) => match self.timers.get(i as usize) {
                Some(timer) => timer.line(),
                None => false,
            },
            Source::Uart(i) => match self.uarts.get(i as usize) {
                Some(terminal) => terminal.uart.line(),
                None => false,
            },
        }
    }
}

/// So many ticks of every timer.
#[tactic(auto, using(crate::proofs::Kept::ticked_more))]
fn tick_all(timers: &mut [Timer], n: u32)
    ensures { timers.new ≡ map (ticks n) timers.old }
{
    for timer in timers.iter_mut() {
        timer.ticks(n);
    }
}

/// The answer of a read that takes nothing.
fn answered(value: u32) -> Answer
    ensures { result ≡ record { value = value; took = false; pointer = 0 } }
{
    Answer {
        value,
        took: false,
        pointer: 0,
    }
}

/// Reads a word of a mailbox: 0 to 3 at the sending side, 4 to 7 at the receiving side.
fn read_mailbox(mailbox: &mut Mailbox, offset: u32) -> Answer
    requires { offset < 8 }
    ensures answer { result ≡ (spec.read_mailbox offset mailbox.old).answer }
    ensures after { mailbox.new ≡ (spec.read_mailbox offset mailbox.old).state }
{
    let taken = if offset < 4 {
        mailbox.read(Side::Send, offset)
    } else {
        mailbox.read(Side::Receive, offset - 4)
    };
    Answer {
        value: taken.value,
        took: taken.took,
        pointer: taken.pointer,
    }
}

/// Writes a word of a mailbox.
fn write_mailbox(mailbox: &mut Mailbox, offset: u32, value: u32) -> bool
    requires { offset < 8 }
    ensures took { result ≡ (spec.write_mailbox offset value mailbox.old).answer.took }
    ensures after { mailbox.new ≡ (spec.write_mailbox offset value mailbox.old).state }
{
    if offset < 4 {
        mailbox.write(Side::Send, offset, value)
    } else {
        mailbox.write(Side::Receive, offset - 4, value)
    }
}
