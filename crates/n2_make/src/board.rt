//! The board of a workload.

ghost use Rattle.std.specs.Prelude.{◌≡◌, ◌∷◌, [], ◌<◌, length, IfOk};
ghost use Rattle.n2_parts.specs.Valid.{IsValid};
ghost use Rattle.n2_make.specs.Boards as spec;

use n2_parts::{Board, CoreRow, DumpRow, MemoryRow, MutexRow, RegionClass, RegionRow};
use n2_text::{Items, Text};
use n2_word::NoMemory;
use std::alloc::Global;

/// Where the program of a core lies.
pub fn program_at(k: u32) -> u32
    requires { k < 4 }
    ensures { result ≡ spec.program_at k }
{
    0x8000 * (k + 1)
}

/// Where a mutex lies.
pub fn mutex_at(i: u32) -> u32
    requires { i < 4 }
    ensures { result ≡ spec.mutex_at i }
{
    0x8_0000 + 8 * i
}

/// Where the eight lines lie that a mutex guards.
pub fn region_at(i: u32) -> u32
    requires { i < 4 }
    ensures { result ≡ spec.region_at i }
{
    0x3_0000 + 0x100 * i
}

fn core(alloc: Global, k: u16) -> Result<CoreRow, NoMemory>
    requires { k < 4 }
    ensures { IfOk result (λ row. row ≡ spec.core_row k) }
{
    Ok(CoreRow {
        cpuid: k,
        image: Text::from_str(alloc, "")?,
        at: 0,
        reset: None,
        exception: 0x8020 + 0x8000 * u32::from(k),
        dcache: 2048,
        icache: 4096,
        sample: 64,
        evict: 97,
    })
}

fn mutex(alloc: Global, name: &str, i: u32) -> Result<MutexRow, NoMemory>
    requires { i < 4 }
    ensures { IfOk result (λ row. row ≡ spec.mutex_row name.now i) }
{
    Ok(MutexRow {
        name: Text::from_str(alloc, name)?,
        base: mutex_at(i),
    })
}

fn region(alloc: Global, name: &str, i: u32) -> Result<RegionRow, NoMemory>
    requires { i < 4 }
    ensures { IfOk result (λ row. row ≡ spec.region_row name.now i) }
{
    Ok(RegionRow {
        name: Text::from_str(alloc, name)?,
        base: region_at(i),
        size: 0x100,
        class: RegionClass::Mutex(i),
    })
}

fn cores(alloc: Global) -> Result<Items<CoreRow>, NoMemory>
    ensures { IfOk result (λ rows. rows ≡ spec.core_rows) }
{
    let mut rows = Items::new(alloc);
    rows.push(core(alloc, 0)?)?;
    rows.push(core(alloc, 1)?)?;
    rows.push(core(alloc, 2)?)?;
    rows.push(core(alloc, 3)?)?;
    Ok(rows)
}

fn mutexes(alloc: Global) -> Result<Items<MutexRow>, NoMemory>
    ensures { IfOk result (λ rows. rows ≡ spec.mutex_rows) }
{
    let mut rows = Items::new(alloc);
    rows.push(mutex(alloc, "m0", 0)?)?;
    rows.push(mutex(alloc, "m1", 1)?)?;
    rows.push(mutex(alloc, "m2", 2)?)?;
    rows.push(mutex(alloc, "m3", 3)?)?;
    Ok(rows)
}

fn regions(alloc: Global) -> Result<Items<RegionRow>, NoMemory>
    ensures { IfOk result (λ rows. rows ≡ spec.region_rows) }
{
    let mut rows = Items::new(alloc);
    rows.push(region(alloc, "s0", 0)?)?;
    rows.push(region(alloc, "s1", 1)?)?;
    rows.push(region(alloc, "s2", 2)?)?;
    rows.push(region(alloc, "s3", 3)?)?;
    Ok(rows)
}

fn memory(alloc: Global) -> Result<Items<MemoryRow>, NoMemory>
    ensures { IfOk result (λ rows. rows ≡ spec.memory_row ∷ []) }
{
    let mut rows = Items::new(alloc);
    rows.push(MemoryRow {
        base: 0,
        size: 0x4_0000,
    })?;
    Ok(rows)
}

fn dump(alloc: Global) -> Result<Items<DumpRow>, NoMemory>
    ensures { IfOk result (λ rows. rows ≡ spec.dump_row ∷ []) }
{
    let mut rows = Items::new(alloc);
    rows.push(DumpRow {
        at: region_at(0),
        lines: 32,
    })?;
    Ok(rows)
}

/// The board of every workload.
#[tactic(auto, using(crate::proofs::WorkBoard::work_valid), unfolding(crate::specs::Boards::work_board))]
pub fn work_board(alloc: Global) -> Result<Board, NoMemory>
    ensures board { IfOk result (λ board. board ≡ spec.work_board) }
    ensures valid { IfOk result (λ board. IsValid board) }
    ensures cores { IfOk result (λ board. length board.core ≡ 4) }
{
    Ok(Board {
        turns: 4_000_000,
        journal: 1_000_000,
        memory: memory(alloc)?,
        core: cores(alloc)?,
        mutex: mutexes(alloc)?,
        mailbox: Items::new(alloc),
        timer: Items::new(alloc),
        uart: Items::new(alloc),
        region: regions(alloc)?,
        dump: dump(alloc)?,
        script: Items::new(alloc),
    })
}
