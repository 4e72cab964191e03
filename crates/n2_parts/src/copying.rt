//! Copies of boards.

ghost use Rattle.std.specs.Prelude.{◌≡◌, IfOk};

use crate::board::{
    Board, CoreRow, DumpRow, MailboxRow, MemoryRow, MutexRow, RegionClass, RegionRow, ScriptRow,
    TimerRow, UartRow,
};
use n2_text::Items;
use n2_word::NoMemory;
use std::alloc::Global;

/// What can be copied where memory is left.
pub trait Copied: Sized {
    /// An equal value.
    fn copied(&self, alloc: Global) -> Result<Self, NoMemory>
        ensures { IfOk result (λ copy. copy ≡ self.now) };
}

/// An equal list.
fn all<T: Copied + Drop>(alloc: Global, items: &[T]) -> Result<Items<T>, NoMemory>
    ensures { IfOk result (λ copies. copies ≡ items.now) }
{
    let mut copies = Items::new(alloc);
    for item in items {
        copies.push(item.copied(alloc)?)?;
    }
    Ok(copies)
}

impl Copied for u32 {
    fn copied(&self, _alloc: Global) -> Result<u32, NoMemory> {
        Ok(*self)
    }
}

impl Copied for MemoryRow {
    fn copied(&self, _alloc: Global) -> Result<MemoryRow, NoMemory> {
        Ok(MemoryRow {
            base: self.base,
            size: self.size,
        })
    }
}

impl Copied for CoreRow {
    fn copied(&self, alloc: Global) -> Result<CoreRow, NoMemory> {
        Ok(CoreRow {
            cpuid: self.cpuid,
            image: self.image.copy(alloc)?,
            at: self.at,
            reset: self.reset,
            exception: self.exception,
            dcache: self.dcache,
            icache: self.icache,
            sample: self.sample,
            evict: self.evict,
        })
    }
}

impl Copied for MutexRow {
    fn copied(&self, alloc: Global) -> Result<MutexRow, NoMemory> {
        Ok(MutexRow {
            name: self.name.copy(alloc)?,
            base: self.base,
        })
    }
}

impl Copied for MailboxRow {
    fn copied(&self, alloc: Global) -> Result<MailboxRow, NoMemory> {
        Ok(MailboxRow {
            name: self.name.copy(alloc)?,
            send: self.send,
            receive: self.receive,
            sender: self.sender,
            receiver: self.receiver,
            send_irq: self.send_irq,
            receive_irq: self.receive_irq,
        })
    }
}

impl Copied for TimerRow {
    fn copied(&self, alloc: Global) -> Result<TimerRow, NoMemory> {
        Ok(TimerRow {
            name: self.name.copy(alloc)?,
            base: self.base,
            core: self.core,
            irq: self.irq,
            period: self.period,
        })
    }
}

impl Copied for UartRow {
    fn copied(&self, alloc: Global) -> Result<UartRow, NoMemory> {
        Ok(UartRow {
            name: self.name.copy(alloc)?,
            base: self.base,
            core: self.core,
            irq: self.irq,
            read_depth: self.read_depth,
            write_depth: self.write_depth,
            input: self.input.copy(alloc)?,
        })
    }
}

impl Copied for RegionClass {
    fn copied(&self, alloc: Global) -> Result<RegionClass, NoMemory> {
        match self {
            RegionClass::Code => Ok(RegionClass::Code),
            RegionClass::Private(core) => Ok(RegionClass::Private(*core)),
            RegionClass::Mutex(mutex) => Ok(RegionClass::Mutex(*mutex)),
            RegionClass::Passed { holder, mailboxes } => Ok(RegionClass::Passed {
                holder: *holder,
                mailboxes: all(alloc, mailboxes.as_slice())?,
            }),
            RegionClass::Uncached => Ok(RegionClass::Uncached),
        }
    }
}

impl Copied for RegionRow {
    fn copied(&self, alloc: Global) -> Result<RegionRow, NoMemory> {
        Ok(RegionRow {
            name: self.name.copy(alloc)?,
            base: self.base,
            size: self.size,
            class: self.class.copied(alloc)?,
        })
    }
}

impl Copied for DumpRow {
    fn copied(&self, _alloc: Global) -> Result<DumpRow, NoMemory> {
        Ok(DumpRow {
            at: self.at,
            lines: self.lines,
        })
    }
}

impl Copied for ScriptRow {
    fn copied(&self, _alloc: Global) -> Result<ScriptRow, NoMemory> {
        Ok(ScriptRow {
            event: self.event,
            times: self.times,
        })
    }
}

/// An equal list of memories.
pub fn copy_memories(alloc: Global, memories: &[MemoryRow]) -> Result<Items<MemoryRow>, NoMemory>
    ensures { IfOk result (λ copies. copies ≡ memories.now) }
{
    all(alloc, memories)
}

impl Board {
    /// An equal board.
    pub fn copy(&self, alloc: Global) -> Result<Board, NoMemory>
        ensures { IfOk result (λ board. board ≡ self.now) }
    {
        Ok(Board {
            turns: self.turns,
            journal: self.journal,
            memory: all(alloc, self.memory.as_slice())?,
            core: all(alloc, self.core.as_slice())?,
            mutex: all(alloc, self.mutex.as_slice())?,
            mailbox: all(alloc, self.mailbox.as_slice())?,
            timer: all(alloc, self.timer.as_slice())?,
            uart: all(alloc, self.uart.as_slice())?,
            region: all(alloc, self.region.as_slice())?,
            dump: all(alloc, self.dump.as_slice())?,
            script: all(alloc, self.script.as_slice())?,
        })
    }
}
