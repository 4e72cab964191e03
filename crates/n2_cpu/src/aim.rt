//! What a core is about to do.

ghost use Rattle.std.specs.Prelude.{◌≡◌, ℕ, ◌%◌, ◌<◌, ◌^◌};
ghost use Rattle.n2_word.specs.declared.Width.{Width as WidthValue};
ghost use Rattle.n2_word.specs.Words.{extracted};
ghost use Rattle.n2_exec.specs.Effect.{effect_of_word};
ghost use Rattle.n2_parts.specs.declared.board.Board.{Board as BoardValue};
ghost use Rattle.n2_watch.specs.Book.{Book};
ghost use Rattle.n2_watch.specs.Watched.{StandsFor};
ghost use Rattle.n2_front.specs.Front.{Front};
ghost use Rattle.n2_front.specs.Core.{Core};
ghost use Rattle.n2_front.specs.Turn as spec;
ghost use Rattle.n2_cpu.specs.Aims.{intent_of, IsFit, Keeps, AreCode, held_word};

use crate::judging::{judge_asked, judge_fetch};
use n2_board::{Layout, Stop};
use n2_exec::{Asked, Regs, act_word, waiting};
use n2_icache::ICache;
use n2_watch::Watch;
use n2_word::line_of;

/// What the next turn of a core is about: it latches its interrupt lines; it empties a set of its
/// data cache; it takes an interrupt; it stops, since a fetch or a task breaks the discipline; it
/// fills a code line; it does what an instruction left to do, with the place where the watch looks
/// first for the record of the line that it loads or stores.
#[derive(Clone, Copy, Debug, PartialEq, Eq)]
pub enum Aim {
    Sample,
    Evict(u32),
    Interrupt,
    Stop(Stop),
    FillCode(u32),
    Do(Asked, u32),
}

/// What an instruction's word is about, with the registers as it leaves them.
#[inline(always)]
fn execute(regs: &mut Regs, word: u32, watch: &Watch, core: u32, layout: &Layout) -> Aim
    ensures intent { (b : BoardValue) (book : Book) (f : Front) → f.regs ≡ regs.old → StandsFor b layout.now core watch.now book f.past → spec.executes b layout.now core book f word (effect_of_word regs.old word) ≡ intent_of f regs.new result }
    ensures fit { (sets : ℕ) → IsFit sets result }
    ensures kept { Keeps result regs.old regs.new }
{
    let asked = act_word(regs, word);
    match judge_asked(watch, layout, core, &asked, regs.pc, word) {
        Ok(place) => Aim::Do(asked, place),
        Err(stop) => Aim::Stop(stop),
    }
}

/// The word from a lane of a word on.
#[inline(always)]
fn word_from(word: u32, lane: u32) -> u32
    requires { lane < 4 }
    ensures { result ≡ extracted word lane WidthValue.Word }
{
    match lane {
        0 => word,
        1 => word >> 8,
        2 => word >> 16,
        _ => word >> 24,
    }
}

/// The word at a program counter, where its line is held.
#[inline(always)]
fn held_word(code: &ICache, pc: u32) -> Option<u32>
    ensures { result ≡ held_word code.now pc }
{
    if pc >= 0x8000_0000 {
        return None;
    }
    match code.find(pc) {
        Some(word) => Some(word_from(word, pc % 4)),
        None => None,
    }
}

/// What a step is about: a waiting interrupt, else the next instruction. The fetch of a line that is
/// held asks no judge, since that line is code in a memory.
#[inline(always)]
pub fn step(regs: &mut Regs, code: &ICache, watch: &Watch, core: u32, layout: &Layout) -> Aim
    ensures intent { (b : BoardValue) (book : Book) (c : Core) → c.front.regs ≡ regs.old → c.code_slots ≡ code.now → AreCode b layout.now code.now → StandsFor b layout.now core watch.now book c.front.past → spec.steps b layout.now core book c ≡ intent_of c.front regs.new result }
    ensures fit { (sets : ℕ) → IsFit sets result }
    ensures kept { Keeps result regs.old regs.new }
{
    if waiting(regs) {
        return Aim::Interrupt;
    }
    let pc = regs.pc;
    match held_word(code, pc) {
        Some(word) => execute(regs, word, watch, core, layout),
        None => match judge_fetch(layout, pc) {
            Some(stop) => Aim::Stop(stop),
            None => Aim::FillCode(line_of(pc)),
        },
    }
}
