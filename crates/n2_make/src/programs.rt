//! The programs of a workload.

ghost use Rattle.std.specs.Prelude.{◌≡◌, ◌++◌, ◌<◌, IfOk, OnOk};
ghost use Rattle.rand_pcg.specs.Lcg.{Lcg};
ghost use Rattle.n2_order.specs.Choices.{words_of};
ghost use Rattle.n2_make.specs.Programs as spec;

use crate::board::{mutex_at, program_at, region_at};
use n2_hal::with_hal;
use n2_text::{put_number, put_text, put_word};
use n2_word::NoMemory;
use rand_core::utils::NextWord;
use rand_pcg::Lcg64Xsh32;
use std::alloc::Global;

/// Appends a word as eight digits between two texts.
#[tactic(auto, unfolding(crate::specs::Programs::with_word))]
fn put_with_word(out: &mut Vec<u8>, text: &[u8], word: u32, rest: &[u8]) -> Result<(), NoMemory>
    ensures { OnOk result (out.new.items ≡ out.old.items ++ spec.with_word text.now word rest.now) }
{
    put_text(out, text)?;
    put_word(out, word)?;
    put_text(out, rest)
}

/// Appends a number in decimal between two texts.
#[tactic(auto, unfolding(crate::specs::Programs::with_number))]
fn put_with_number(out: &mut Vec<u8>, text: &[u8], number: u32, rest: &[u8]) -> Result<(), NoMemory>
    ensures { OnOk result (out.new.items ≡ out.old.items ++ spec.with_number text.now number rest.now) }
{
    put_text(out, text)?;
    put_number(out, u64::from(number))?;
    put_text(out, rest)
}

/// Appends what takes a mutex.
#[tactic(auto, unfolding(crate::specs::Programs::lock_text))]
fn put_lock(out: &mut Vec<u8>, mutex: u32) -> Result<(), NoMemory>
    ensures { OnOk result (out.new.items ≡ out.old.items ++ spec.lock_text mutex) }
{
    let rest = b"\nmovi r5, 1\ncall altera_avalon_mutex_lock\n";
    put_with_word(out, b"movia r4, 0x", mutex, rest)
}

/// Appends what drops a line from the cache, and loads its first word.
#[tactic(auto, unfolding(crate::specs::Programs::load_text))]
fn put_load(out: &mut Vec<u8>, line: u32) -> Result<(), NoMemory>
    ensures { OnOk result (out.new.items ≡ out.old.items ++ spec.load_text line) }
{
    let rest = b"\ninitda 0(r16)\nldw r17, 0(r16)\n";
    put_with_word(out, b"movia r16, 0x", line, rest)
}

/// Appends what adds a number to the word, stores it, and flushes the line.
#[tactic(auto, unfolding(crate::specs::Programs::add_text))]
fn put_add(out: &mut Vec<u8>, addend: u32) -> Result<(), NoMemory>
    ensures { OnOk result (out.new.items ≡ out.old.items ++ spec.add_text addend) }
{
    let rest = b"\nstw r17, 0(r16)\nmov r4, r16\nmovi r5, 4\ncall alt_dcache_flush\n";
    put_with_number(out, b"addi r17, r17, ", addend, rest)
}

/// Appends what gives a mutex back.
#[tactic(auto, unfolding(crate::specs::Programs::unlock_text))]
fn put_unlock(out: &mut Vec<u8>, mutex: u32) -> Result<(), NoMemory>
    ensures { OnOk result (out.new.items ≡ out.old.items ++ spec.unlock_text mutex) }
{
    let rest = b"\ncall altera_avalon_mutex_unlock\n";
    put_with_word(out, b"movia r4, 0x", mutex, rest)
}

/// Appends the critical section of a word.
#[tactic(auto, unfolding(crate::specs::Programs::section))]
fn put_section(out: &mut Vec<u8>, word: u32) -> Result<(), NoMemory>
    ensures { OnOk result (out.new.items ≡ out.old.items ++ spec.section word) }
{
    let mutex = mutex_at(word % 4);
    put_lock(out, mutex)?;
    put_load(out, region_at(word % 4) + 32 * (word / 4 % 8))?;
    put_add(out, word / 32 % 1000)?;
    put_unlock(out, mutex)
}

/// Appends the critical sections of the next words of a generator.
#[tactic(auto, using(crate::proofs::Words::no_sections, crate::proofs::Words::behind_none))]
fn put_sections(out: &mut Vec<u8>, n: u32, generator: &mut Lcg64Xsh32) -> Result<(), NoMemory>
    ensures text { OnOk result (out.new.items ≡ out.old.items ++ spec.sections (words_of n generator.old)) }
    ensures words { OnOk result (generator.new ≡ spec.behind n generator.old) }
{
    for _i in 0..n {
        put_section(out, generator.next_word())?;
    }
    Ok(())
}

/// The program of a core: the critical sections of the next words of a generator, a break, and the
/// routines that they call.
pub fn program(
    alloc: Global,
    k: u32,
    n: u32,
    generator: &mut Lcg64Xsh32,
) -> Result<Vec<u8>, NoMemory>
    requires { k < 4 }
    ensures text { IfOk result (λ text. text.items ≡ spec.program_of (spec.source_of k (words_of n generator.old))) }
    ensures words { OnOk result (generator.new ≡ spec.behind n generator.old) }
{
    let mut source = Vec::new(alloc);
    put_with_word(&mut source, b".text 0x", program_at(k), b"\n")?;
    put_sections(&mut source, n, generator)?;
    put_text(&mut source, b"break\n")?;
    with_hal(alloc, &source)
}
