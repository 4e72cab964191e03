//! What actors ask of the bus, and what it replies.

use n2_word::Width;

/// What an actor asks for. A core fills a line of its instruction or its data cache, writes a line
/// back, reads or writes past its caches, or samples its interrupt lines; the device actor gives
/// ticks, or moves a byte to or from a UART. Lines go by their numbers, and addresses have bit 31
/// clear.
#[derive(Clone, Copy, Debug, PartialEq, Eq)]
pub enum Request {
    FillCode(u32),
    FillData(u32),
    WriteBack(u32, [u32; 8]),
    Read(u32, Width),
    Write(u32, Width, u32),
    Sample,
    Tick(u32),
    Receive(u32),
    Drain(u32),
}

/// What the bus replies. A fill has the line in `words`, a read its value in the first of them: of a
/// memory zero-extended, of a device its register. `lines` are the interrupt lines of the acting
/// core after a read, a write or a sample. `took` tells whether a write took effect, whether a read
/// took a mailbox's message, whose Pointer is `pointer`, and whether a byte moved. What is not named
/// is 0 or false.
#[derive(Clone, Copy, Debug, PartialEq, Eq)]
pub struct Reply {
    pub words: [u32; 8],
    pub lines: u32,
    pub took: bool,
    pub pointer: u32,
}
