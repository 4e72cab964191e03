//! What a core is, and what it is about to do.

ghost use Rattle.std.specs.Prelude.{◌≡◌, ℕ, ◌<◌, ◌+◌, ◌/◌, ◌%◌, length};
ghost use Rattle.n2_parts.specs.declared.board.Board.{Board as BoardValue};
ghost use Rattle.n2_parts.specs.declared.board.CoreRow.{CoreRow as CoreRowValue};
ghost use Rattle.n2_watch.specs.Book.{Book};
ghost use Rattle.n2_watch.specs.Watched.{StandsFor};
ghost use Rattle.n2_front.specs.Core.{Core, turn_kind};
ghost use Rattle.n2_front.specs.Turn as spec;
ghost use Rattle.n2_cpu.specs.Aims.{kind_of, intent_of, IsFit, Keeps, AreCode};
ghost use Rattle.n2_cpu.specs.Stands.{AreQuiet, IsQuiet, HasRow};

use crate::aim::{Aim, step};
use n2_board::{Layout, Stop};
use n2_dcache::DCache;
use n2_exec::Regs;
use n2_icache::ICache;
use n2_watch::Watch;

/// The number of a core, of its next turn, and of its turns since its last transfer; how many turns
/// the board gives it, and every how many turns it samples and evicts; and so many turns from the
/// next on that are quiet: they neither sample nor evict, and none of them is the last.
#[derive(Clone, Copy, Debug, PartialEq, Eq)]
pub struct Clock {
    pub number: u32,
    pub turns: u64,
    pub local: u64,
    pub limit: u64,
    pub sample: u64,
    pub evict: u64,
    pub quiet: u64,
}

/// The kind of a turn, by its number.
#[derive(Clone, Copy, Debug, PartialEq, Eq)]
pub enum TurnKind {
    Sample,
    Evict,
    Step,
}

/// A core: its counts, its registers, why it stopped, its caches and its watch.
#[derive(Debug, Drop)]
pub struct State {
    pub clock: Clock,
    pub regs: Regs,
    pub stop: Option<Stop>,
    pub dcache: DCache,
    pub icache: ICache,
    pub watch: Watch,
}

/// The kind of the next turn, by its number alone.
#[cold]
fn numbered_kind(clock: &Clock) -> TurnKind
    requires { 0 < clock.now.sample }
    ensures kind { (row : CoreRowValue) → row.sample ≡ clock.now.sample → row.evict ≡ clock.now.evict → turn_kind row clock.now.turns ≡ kind_of result }
    ensures evicts { result ≡ TurnKind.Evict → 0 < clock.now.evict }
{
    if clock.turns % clock.sample == clock.sample - 1 {
        return TurnKind::Sample;
    }
    if clock.evict != 0 && clock.turns % clock.evict == clock.evict - 1 {
        return TurnKind::Evict;
    }
    TurnKind::Step
}

/// The kind of the next turn: a step where it is quiet.
#[inline(always)]
fn next_kind(clock: &Clock) -> TurnKind
    requires { IsQuiet clock.now }
    ensures kind { (row : CoreRowValue) → row.sample ≡ clock.now.sample → row.evict ≡ clock.now.evict → turn_kind row clock.now.turns ≡ kind_of result }
    ensures evicts { result ≡ TurnKind.Evict → 0 < clock.now.evict }
{
    if clock.quiet > 0 {
        return TurnKind::Step;
    }
    numbered_kind(clock)
}

/// The set that the next turn looks at where it evicts.
fn evicted_set(clock: &Clock, sets: u32) -> u32
    requires evicts { 0 < clock.now.evict }
    requires some { 0 < sets }
    ensures set { result ≡ clock.now.turns / clock.now.evict % sets }
    ensures below { result < sets }
{
    ((clock.turns / clock.evict) % u64::from(sets)) as u32
}

/// How many turns from the next on are quiet.
#[cold]
pub fn quiet_turns(clock: &Clock) -> u64
    requires { 0 < clock.now.sample }
    ensures quiet { AreQuiet clock.now.sample clock.now.evict clock.now.turns result }
    ensures end { clock.now.turns < clock.now.limit → result + clock.now.turns < clock.now.limit }
{
    if clock.turns >= clock.limit {
        return 0;
    }
    let to_end = clock.limit - 1 - clock.turns;
    let to_sample = clock.sample - 1 - clock.turns % clock.sample;
    let quiet = if to_sample < to_end {
        to_sample
    } else {
        to_end
    };
    if clock.evict == 0 {
        return quiet;
    }
    let to_evict = clock.evict - 1 - clock.turns % clock.evict;
    if to_evict < quiet { to_evict } else { quiet }
}

/// What the next turn of a running core is about, with the registers as an instruction leaves them.
#[inline(never)]
pub fn aim(
    clock: &Clock,
    regs: &mut Regs,
    dcache: &DCache,
    code: &ICache,
    watch: &Watch,
    layout: &Layout,
) -> Aim
    requires { IsQuiet clock.now }
    ensures intent { (b : BoardValue) (book : Book) (row : CoreRowValue) (c : Core) → HasRow clock.now row c → c.front.regs ≡ regs.old → c.data_slots ≡ dcache.now → c.code_slots ≡ code.now → AreCode b layout.now code.now → StandsFor b layout.now clock.now.number watch.now book c.front.past → spec.intent b layout.now clock.now.number row book c ≡ intent_of c.front regs.new result }
    ensures fit { IsFit (length dcache.now) result }
    ensures kept { Keeps result regs.old regs.new }
{
    match next_kind(clock) {
        TurnKind::Sample => Aim::Sample,
        TurnKind::Evict => Aim::Evict(evicted_set(clock, dcache.sets())),
        TurnKind::Step => step(regs, code, watch, clock.number, layout),
    }
}
