//! Workloads.

ghost use Rattle.std.specs.Prelude.{◌≡◌, ◌≢◌, ◌<◌, ◌+◌, ◌++◌, ◌∷◌, [], Ok, Err, IfOk, IfErr, OnOk, length};
ghost use Rattle.std.specs.List.{AllByRecursion};
ghost use Rattle.n2_elf.specs.Reading.{IsSized};
ghost use Rattle.n2_parts.specs.Valid.{IsValid};
ghost use Rattle.n2_make.specs.Programs.{before};
ghost use Rattle.n2_make.specs.Works as spec;

use crate::board::work_board;
use crate::programs::program;
use n2_asm::{AsmFault, assemble};
use n2_elf::Image;
use n2_parts::Board;
use n2_text::Items;
use rand_core::SeedableRng;
use rand_pcg::Lcg64Xsh32;
use std::alloc::Global;

/// A board, an image for each of its cores, and the seed of the order in which they take turns.
#[derive(Drop)]
pub struct Work {
    pub board: Board,
    pub images: Items<Image>,
    pub seed: u64,
}

/// The image of a core's program, whose words are the generator's next.
#[tactic(auto, unfolding(crate::specs::Works::image_of))]
fn image(alloc: Global, k: u32, n: u32, generator: &mut Lcg64Xsh32) -> Result<Image, AsmFault>
    requires core { k < 4 }
    requires words { generator.old ≡ before n k }
    ensures ok { IfOk result (λ image. spec.image_of n k ≡ Ok image) }
    ensures sized { IfOk result IsSized }
    ensures words { OnOk result (generator.new ≡ before n (k + 1)) }
    ensures fault { IfErr result (λ e. e ≢ AsmFault.NoMemory → spec.image_of n k ≡ Err e) }
{
    let source = program(alloc, k, n, generator)?;
    let object = assemble(alloc, &source)?;
    Ok(object.image)
}

/// The workload of n critical sections a core; for n from 1 to 400 the programs lie apart. Each core
/// takes n words of the generator of seed n, PCG XSH RR 64/32, core 0 the first. A fault of the assembler
/// comes exactly where it has one for a program, and none is known.
#[tactic(auto, unfolding(crate::specs::Works::work_of))]
pub fn workload(alloc: Global, n: u32) -> Result<Work, AsmFault>
    ensures work { IfOk result (λ work. spec.work_of n ≡ Ok work) }
    ensures valid { IfOk result (λ work. IsValid work.board) }
    ensures cores { IfOk result (λ work. length work.images ≡ length work.board.core) }
    ensures sized { IfOk result (λ work. AllByRecursion IsSized work.images) }
    ensures fault { IfErr result (λ e. e ≢ AsmFault.NoMemory → spec.work_of n ≡ Err e) }
{
    let mut generator = Lcg64Xsh32::seed_from_u64(u64::from(n));
    let first = image(alloc, 0, n, &mut generator)?;
    let second = image(alloc, 1, n, &mut generator)?;
    let third = image(alloc, 2, n, &mut generator)?;
    let fourth = image(alloc, 3, n, &mut generator)?;
    let mut images = Items::new(alloc);
    images.push(first)?;
    images.push(second)?;
    images.push(third)?;
    images.push(fourth)?;
    Ok(Work {
        board: work_board(alloc)?,
        images,
        seed: u64::from(n),
    })
}
