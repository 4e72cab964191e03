//! The plain board.

ghost use Rattle.std.specs.Prelude.{◌≡◌, ◌∷◌, [], length, IfOk};
ghost use Rattle.n2_parts.specs.Valid.{IsValid};
ghost use Rattle.n2_flat.specs.PlainBoard as spec;

use n2_board::{Board, CoreRow, MemoryRow, RegionClass, RegionRow, UartRow};
use n2_text::{Items, Text};
use n2_word::NoMemory;
use std::alloc::Global;

/// The plain board's memory is 64 KiB from address 0 on.
pub const MEMORY_BYTES: u32 = 0x1_0000;
/// Where exceptions go.
pub const EXCEPTION: u32 = 0x20;
/// How many bytes the UART's write queue holds.
pub const WRITE_DEPTH: u32 = 64;

/// A list of one item.
fn one<T: Drop>(alloc: Global, item: T) -> Result<Items<T>, NoMemory>
    ensures { IfOk result (λ items. items ≡ item ∷ []) }
{
    let mut items = Items::new(alloc);
    items.push(item)?;
    Ok(items)
}

fn core(alloc: Global) -> Result<CoreRow, NoMemory>
    ensures { IfOk result (λ row. row ≡ spec.plain_core) }
{
    Ok(CoreRow {
        cpuid: 0,
        image: Text::from_str(alloc, "")?,
        at: 0,
        reset: None,
        exception: EXCEPTION,
        dcache: 2048,
        icache: 4096,
        sample: 64,
        evict: 0,
    })
}

fn uart(alloc: Global) -> Result<UartRow, NoMemory>
    ensures { IfOk result (λ row. row ≡ spec.plain_uart) }
{
    Ok(UartRow {
        name: Text::from_str(alloc, "u0")?,
        base: MEMORY_BYTES,
        core: 0,
        irq: None,
        read_depth: 64,
        write_depth: WRITE_DEPTH,
        input: Text::from_str(alloc, "")?,
    })
}

fn regions(alloc: Global) -> Result<Items<RegionRow>, NoMemory>
    ensures { IfOk result (λ rows. rows ≡ spec.plain_code ∷ spec.plain_own ∷ []) }
{
    let mut rows = Items::new(alloc);
    rows.push(RegionRow {
        name: Text::from_str(alloc, "code")?,
        base: 0,
        size: MEMORY_BYTES / 2,
        class: RegionClass::Code,
    })?;
    rows.push(RegionRow {
        name: Text::from_str(alloc, "own")?,
        base: MEMORY_BYTES / 2,
        size: MEMORY_BYTES / 2,
        class: RegionClass::Private(0),
    })?;
    Ok(rows)
}

/// The plain board: one core, 64 KiB of memory from address 0 on, of which the lower half is code
/// and the upper half the core's own, and the UART `u0` behind the memory.
#[tactic(auto, using(crate::proofs::PlainBoard::plain_valid), unfolding(crate::specs::PlainBoard::plain_board))]
pub fn plain_board(alloc: Global) -> Result<Board, NoMemory>
    ensures board { IfOk result (λ board. board ≡ spec.plain_board) }
    ensures valid { IfOk result (λ board. IsValid board) }
    ensures one_core { IfOk result (λ board. length board.core ≡ 1) }
{
    let memory = MemoryRow {
        base: 0,
        size: MEMORY_BYTES,
    };
    Ok(Board {
        turns: 1_000_000,
        journal: 100_000,
        memory: one(alloc, memory)?,
        core: one(alloc, core(alloc)?)?,
        mutex: Items::new(alloc),
        mailbox: Items::new(alloc),
        timer: Items::new(alloc),
        uart: one(alloc, uart(alloc)?)?,
        region: regions(alloc)?,
        dump: Items::new(alloc),
        script: Items::new(alloc),
    })
}
