//! The words of a board's text: its arrays and their keys.

ghost use Rattle.std.specs.Prelude.{◌≡◌};
ghost use Rattle.n2_boardtext.specs.Words as spec;

use n2_parts::{Key, PartKind};

/// The name of an array of parts; `top` for the board itself.
pub fn kind_name(kind: PartKind) -> &'static str
    ensures { result.now ≡ spec.kind_name kind }
{
    match kind {
        PartKind::Top => "top",
        PartKind::Memory => "memory",
        PartKind::Core => "core",
        PartKind::Mutex => "mutex",
        PartKind::Mailbox => "mailbox",
        PartKind::Timer => "timer",
        PartKind::Uart => "uart",
        PartKind::Region => "region",
        PartKind::Dump => "dump",
        PartKind::Script => "script",
    }
}

/// The name of a key.
pub fn key_name(key: Key) -> &'static str
    ensures { result.now ≡ spec.key_name key }
{
    match key {
        Key::Turns => "turns",
        Key::Journal => "journal",
        Key::Base => "base",
        Key::Size => "size",
        Key::Cpuid => "cpuid",
        Key::Image => "image",
        Key::At => "at",
        Key::Reset => "reset",
        Key::Exception => "exception",
        Key::Dcache => "dcache",
        Key::Icache => "icache",
        Key::Sample => "sample",
        Key::Evict => "evict",
        Key::Name => "name",
        Key::Send => "send",
        Key::Receive => "receive",
        Key::Sender => "sender",
        Key::Receiver => "receiver",
        Key::SendIrq => "send_irq",
        Key::ReceiveIrq => "receive_irq",
        Key::Core => "core",
        Key::Irq => "irq",
        Key::Period => "period",
        Key::ReadDepth => "read_depth",
        Key::WriteDepth => "write_depth",
        Key::Input => "input",
        Key::Class => "class",
        Key::Mutex => "mutex",
        Key::Holder => "holder",
        Key::Mailboxes => "mailboxes",
        Key::Lines => "lines",
        Key::Do => "do",
        Key::N => "n",
        Key::Uart => "uart",
        Key::Times => "times",
    }
}
