//! A board: its rows, and the names of its parts and keys.

use n2_text::{Items, Text};

/// A system of cores. Turns is how many turns a core makes at most, `journal` how many transfers
/// are recorded at most; the other fields are lists of parts in the order in which they are given.
#[derive(Debug, Drop)]
pub struct Board {
    pub turns: u64,
    pub journal: u32,
    pub memory: Items<MemoryRow>,
    pub core: Items<CoreRow>,
    pub mutex: Items<MutexRow>,
    pub mailbox: Items<MailboxRow>,
    pub timer: Items<TimerRow>,
    pub uart: Items<UartRow>,
    pub region: Items<RegionRow>,
    pub dump: Items<DumpRow>,
    pub script: Items<ScriptRow>,
}

/// A memory of `size` bytes from `base` on.
#[derive(Debug, Drop)]
pub struct MemoryRow {
    pub base: u32,
    pub size: u32,
}

/// A core: its cpuid, the name of its image's file and where a raw image lies, its first program
/// counter if that is not the image's entry, the exception address, the bytes of its data and
/// instruction cache, and of how many turns one samples the interrupt lines or evicts a set (`evict`
/// 0: none does).
#[derive(Debug, Drop)]
pub struct CoreRow {
    pub cpuid: u16,
    pub image: Text,
    pub at: u32,
    pub reset: Option<u32>,
    pub exception: u32,
    pub dcache: u32,
    pub icache: u32,
    pub sample: u32,
    pub evict: u32,
}

/// A hardware mutex of two words (Embedded Peripherals IP User Guide, Mutex Core).
#[derive(Debug, Drop)]
pub struct MutexRow {
    pub name: Text,
    pub base: u32,
}

/// A mailbox of four words at each side: where the sides stand, which core has each, and their
/// interrupt lines, if they have one (Embedded Peripherals IP User Guide, Mailbox Core).
#[derive(Debug, Drop)]
pub struct MailboxRow {
    pub name: Text,
    pub send: u32,
    pub receive: u32,
    pub sender: u32,
    pub receiver: u32,
    pub send_irq: Option<u32>,
    pub receive_irq: Option<u32>,
}

/// A timer of six words, the core that it interrupts, and the period at the start (Embedded
/// Peripherals IP User Guide, Interval Timer Core).
#[derive(Debug, Drop)]
pub struct TimerRow {
    pub name: Text,
    pub base: u32,
    pub core: u32,
    pub irq: Option<u32>,
    pub period: u32,
}

/// A UART of two words, the core that it interrupts, the lengths of its queues, and the text that
/// arrives at it (Embedded Peripherals IP User Guide, JTAG UART Core).
#[derive(Debug, Drop)]
pub struct UartRow {
    pub name: Text,
    pub base: u32,
    pub core: u32,
    pub irq: Option<u32>,
    pub read_depth: u32,
    pub write_depth: u32,
    pub input: Text,
}

/// Memory with a class of its own.
#[derive(Debug, Drop)]
pub struct RegionRow {
    pub name: Text,
    pub base: u32,
    pub size: u32,
    pub class: RegionClass,
}

/// Who may touch a region: everyone as code; one core; the owner of a mutex; who holds it, at first
/// a core, after that who got it by one of the mailboxes; or everyone, but past the caches. Parts are
/// named by their number in the board.
#[derive(Debug, Drop)]
pub enum RegionClass {
    Code,
    Private(u32),
    Mutex(u32),
    Passed { holder: u32, mailboxes: Items<u32> },
    Uncached,
}

/// Lines whose words a report has.
#[derive(Debug, Drop)]
pub struct DumpRow {
    pub at: u32,
    pub lines: u32,
}

/// An event of the devices that comes so many times.
#[derive(Debug, Drop)]
pub struct ScriptRow {
    pub event: DeviceEvent,
    pub times: u32,
}

/// An event of the devices: so many ticks of every timer, a byte that arrives at a UART, a byte that
/// leaves it.
#[derive(Clone, Copy, Debug, PartialEq, Eq)]
pub enum DeviceEvent {
    Tick(u32),
    Receive(u32),
    Drain(u32),
}

/// The arrays of a board; `Top` is the board itself.
#[derive(Clone, Copy, Debug, PartialEq, Eq)]
pub enum PartKind {
    Top,
    Memory,
    Core,
    Mutex,
    Mailbox,
    Timer,
    Uart,
    Region,
    Dump,
    Script,
}

/// A part of a board: its array and its number there.
#[derive(Clone, Copy, Debug, PartialEq, Eq)]
pub struct Part {
    pub kind: PartKind,
    pub index: u32,
}

/// The keys of a board's text.
#[derive(Clone, Copy, Debug, PartialEq, Eq)]
pub enum Key {
    Turns,
    Journal,
    Base,
    Size,
    Cpuid,
    Image,
    At,
    Reset,
    Exception,
    Dcache,
    Icache,
    Sample,
    Evict,
    Name,
    Send,
    Receive,
    Sender,
    Receiver,
    SendIrq,
    ReceiveIrq,
    Core,
    Irq,
    Period,
    ReadDepth,
    WriteDepth,
    Input,
    Class,
    Mutex,
    Holder,
    Mailboxes,
    Lines,
    Do,
    N,
    Uart,
    Times,
}

/// The first rule that a board breaks, with the lowest part or pair that breaks it.
#[derive(Clone, Copy, Debug, PartialEq, Eq)]
pub enum BoardFault {
    /// Too few or too many parts of an array.
    Count { kind: PartKind, n: u64 },
    /// A number that is out of its range.
    Number { part: Part, key: Key },
    /// A name that is not 1 to 16 of a-z, 0-9 and _.
    Name(Part),
    /// Two devices or two regions of one name.
    SameName(Part, Part),
    /// Two cores of one cpuid.
    SameCpuid(u32, u32),
    /// A core that is not there.
    NoCore(Part),
    /// A mutex, mailbox or UART that is not there.
    NoPart(Part),
    /// Two memories or devices, or two regions, that share a byte; or the two sides of one mailbox.
    Overlap(Part, Part),
    /// A region or dump that is not inside one memory.
    Inside(Part),
    /// Too many bytes of memory, dumped lines or events of the script in all.
    Total(PartKind, u64),
}
