//! The devices of each kind at the start.

ghost use Rattle.std.specs.Prelude.{◌≡◌, ℕ, ◌≤◌, IfOk, Some, map, slice_get};
ghost use Rattle.n2_mutex.specs.Mutex as mutex;
ghost use Rattle.n2_mailbox.specs.Mailbox as mailbox;
ghost use Rattle.n2_timer.specs.Timer as timer;
ghost use Rattle.n2_parts.specs.declared.board.UartRow.{UartRow as UartValue};
ghost use Rattle.n2_devices.specs.Devices.{started_terminal};

use crate::terminal::Terminal;
use n2_mailbox::Mailbox;
use n2_mutex::HwMutex;
use n2_parts::{MailboxRow, MutexRow, TimerRow, UartRow};
use n2_timer::Timer;
use n2_word::NoMemory;
use std::alloc::Global;

/// A mutex for each row.
pub fn mutexes(alloc: Global, rows: &[MutexRow]) -> Result<Vec<HwMutex>, NoMemory>
    ensures { IfOk result (λ mutexes. mutexes.items ≡ map (λ row. mutex.started) rows.now) }
{
    match rows.iter().map(|_| HwMutex::new()).collect(alloc) {
        Ok(mutexes) => Ok(mutexes),
        Err(_) => Err(NoMemory),
    }
}

/// A mailbox for each row.
pub fn mailboxes(alloc: Global, rows: &[MailboxRow]) -> Result<Vec<Mailbox>, NoMemory>
    ensures { IfOk result (λ mailboxes. mailboxes.items ≡ map (λ row. mailbox.started) rows.now) }
{
    match rows.iter().map(|_| Mailbox::new()).collect(alloc) {
        Ok(mailboxes) => Ok(mailboxes),
        Err(_) => Err(NoMemory),
    }
}

/// A timer for each row, with the row's period.
pub fn timers(alloc: Global, rows: &[TimerRow]) -> Result<Vec<Timer>, NoMemory>
    ensures { IfOk result (λ timers. timers.items ≡ map (λ row. timer.started row.period) rows.now) }
{
    match rows.iter().map(|row| Timer::new(row.period)).collect(alloc) {
        Ok(timers) => Ok(timers),
        Err(_) => Err(NoMemory),
    }
}

/// A UART for each row, with the row's depths and input.
pub fn uarts(alloc: Global, rows: &[UartRow]) -> Result<Vec<Terminal>, NoMemory>
    requires { (i : ℕ) (row : UartValue) → slice_get rows.now i ≡ Some row → (8 ≤ row.read_depth) × (row.read_depth ≤ 32768) × (8 ≤ row.write_depth) × (row.write_depth ≤ 32768) }
    ensures { IfOk result (λ uarts. uarts.items ≡ map started_terminal rows.now) }
{
    let mut uarts = Vec::new(alloc);
    for row in rows {
        uarts.push(Terminal::open(alloc, row)?)?;
    }
    Ok(uarts)
}
