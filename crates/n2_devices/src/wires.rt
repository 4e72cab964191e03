//! The interrupt lines that are wired to each core.

ghost use Rattle.std.specs.Prelude.{◌≡◌, ℕ, ◌+◌, ◌<◌, ◌^◌, ◌++◌, [], length, map, IsTrue, OnOk, IfOk, Some, slice_get};
ghost use Rattle.std.specs.List.{range_with_len};
ghost use Rattle.n2_parts.specs.declared.board.MailboxRow.{MailboxRow as MailboxValue};
ghost use Rattle.n2_parts.specs.declared.board.TimerRow.{TimerRow as TimerValue};
ghost use Rattle.n2_parts.specs.declared.board.UartRow.{UartRow as UartValue};
ghost use Rattle.n2_parts.specs.Numbers.{is_irq};
ghost use Rattle.n2_parts.specs.Valid.{IsValid};
ghost use Rattle.n2_devices.specs.Wires as spec;

use n2_parts::{Board, MailboxRow, TimerRow, UartRow};
use n2_text::Items;
use n2_word::NoMemory;
use std::alloc::Global;

/// What drives an interrupt line: the sending or the receiving side of a mailbox, a timer or a UART,
/// by its number in the board.
#[derive(Clone, Copy, Debug, PartialEq, Eq)]
pub enum Source {
    Sender(u32),
    Receiver(u32),
    Timer(u32),
    Uart(u32),
}

/// A line to a core: what drives it, and the bit of its interrupt number.
#[derive(Clone, Copy, Debug, PartialEq, Eq)]
pub struct Wire {
    pub source: Source,
    pub bit: u32,
}

/// Adds the wire of a side of a device, where the side is the core's and has an interrupt number.
fn put_wire(
    wires: &mut Items<Wire>,
    own: bool,
    source: Source,
    irq: Option<u32>,
) -> Result<(), NoMemory>
    requires { IsTrue (is_irq irq) }
    ensures { OnOk result (wires.new ≡ wires.old ++ spec.wired own source irq) }
{
    match irq {
        Some(irq) if own => {
            let bit = 1 << irq;
            wires.push(Wire { source, bit })
        }
        _ => Ok(()),
    }
}

/// Adds the wires of mailboxes to a core.
fn put_mailboxes(wires: &mut Items<Wire>, core: u32, rows: &[MailboxRow]) -> Result<(), NoMemory>
    requires few { length rows.now < 2 ^ 32 }
    requires send { (i : ℕ) (row : MailboxValue) → slice_get rows.now i ≡ Some row → IsTrue (is_irq row.send_irq) }
    requires receive { (i : ℕ) (row : MailboxValue) → slice_get rows.now i ≡ Some row → IsTrue (is_irq row.receive_irq) }
    ensures { OnOk result (wires.new ≡ wires.old ++ spec.mailbox_wires core 0 rows.now) }
{
    for (i, row) in rows.iter().enumerate() {
        let i = i as u32;
        put_wire(wires, row.sender == core, Source::Sender(i), row.send_irq)?;
        let own = row.receiver == core;
        put_wire(wires, own, Source::Receiver(i), row.receive_irq)?;
    }
    Ok(())
}

/// Adds the wires of timers to a core.
fn put_timers(wires: &mut Items<Wire>, core: u32, rows: &[TimerRow]) -> Result<(), NoMemory>
    requires few { length rows.now < 2 ^ 32 }
    requires irqs { (i : ℕ) (row : TimerValue) → slice_get rows.now i ≡ Some row → IsTrue (is_irq row.irq) }
    ensures { OnOk result (wires.new ≡ wires.old ++ spec.timer_wires core 0 rows.now) }
{
    for (i, row) in rows.iter().enumerate() {
        let source = Source::Timer(i as u32);
        put_wire(wires, row.core == core, source, row.irq)?;
    }
    Ok(())
}

/// Adds the wires of UARTs to a core.
fn put_uarts(wires: &mut Items<Wire>, core: u32, rows: &[UartRow]) -> Result<(), NoMemory>
    requires few { length rows.now < 2 ^ 32 }
    requires irqs { (i : ℕ) (row : UartValue) → slice_get rows.now i ≡ Some row → IsTrue (is_irq row.irq) }
    ensures { OnOk result (wires.new ≡ wires.old ++ spec.uart_wires core 0 rows.now) }
{
    for (i, row) in rows.iter().enumerate() {
        let source = Source::Uart(i as u32);
        put_wire(wires, row.core == core, source, row.irq)?;
    }
    Ok(())
}

/// All wires to a core.
fn wires_to(alloc: Global, board: &Board, core: u32) -> Result<Items<Wire>, NoMemory>
    requires { IsValid board.now }
    ensures { IfOk result (λ wires. wires ≡ spec.wires_to board.now core) }
{
    let mut wires = Items::new(alloc);
    put_mailboxes(&mut wires, core, board.mailbox.as_slice())?;
    put_timers(&mut wires, core, board.timer.as_slice())?;
    put_uarts(&mut wires, core, board.uart.as_slice())?;
    Ok(wires)
}

/// The wires of each core of a board.
pub fn wires_of(alloc: Global, board: &Board) -> Result<Items<Items<Wire>>, NoMemory>
    requires { IsValid board.now }
    ensures { IfOk result (λ wires. wires ≡ spec.wires_of board.now) }
{
    let mut wires = Items::new(alloc);
    for core in 0..board.core.len() as u32 {
        wires.push(wires_to(alloc, board, core)?)?;
    }
    Ok(wires)
}
