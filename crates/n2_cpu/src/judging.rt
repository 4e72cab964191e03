//! How what a core is about to do breaks the discipline, if it does.

ghost use Rattle.std.specs.Prelude.{◌≡◌, ◌≢◌, ℕ, List, Some, None, option_map, if◌then◌else◌};
ghost use Rattle.n2_word.specs.declared.Width.{Width as WidthValue};
ghost use Rattle.n2_parts.specs.declared.board.Board.{Board as BoardValue};
ghost use Rattle.n2_board.specs.Access.{data_target};
ghost use Rattle.n2_watch.specs.declared.past.Past.{Past as PastEvent};
ghost use Rattle.n2_watch.specs.declared.access.Access.TheVariants as accesses;
ghost use Rattle.n2_watch.specs.Book.{Book, knowledge};
ghost use Rattle.n2_watch.specs.Discipline as rules;
ghost use Rattle.n2_watch.specs.Watched.{StandsFor, address_of};
ghost use Rattle.n2_front.specs.Tasks.{task_of, task_breach, task_address, stop_for};
ghost use Rattle.n2_cpu.specs.Judged.{is_stray, is_cut, stop_in};

use n2_board::{Direction, Kind, Layout, Refusal, Route, Stop, Violation};
use n2_exec::Asked;
use n2_watch::{Access, Broken, Judged, Watch};
use n2_word::{Width, line_of};

/// The stop for a refusal, at the program counter and with the instruction's word.
fn refused(broken: Broken, pc: u32, word: u32) -> Stop
    ensures { result ≡ stop_for (rules.Breaks broken.kind broken.line) pc word broken.address }
{
    Stop::Refused(Refusal {
        kind: broken.kind,
        pc,
        insn: word,
        address: broken.address,
        line: broken.line,
    })
}

#[inline(always)]
fn direction(store: bool) -> Direction
    ensures { result ≡ rules.direction store }
{
    if store {
        Direction::Store
    } else {
        Direction::Load
    }
}

/// Whether a load or store strays.
#[inline(always)]
fn cut_off(
    layout: &Layout,
    core: u32,
    address: u32,
    width: Width,
    route: Route,
    store: bool,
) -> bool
    ensures { result ≡ is_cut (data_target layout.now core address width route (rules.direction store)) }
{
    match layout.data_target(core, address, width, route, direction(store)) {
        Err(Violation::Stray) => true,
        Err(Violation::Separate) => false,
        Ok(_) => false,
    }
}

/// The refusal of an access that does not stray.
fn refusal(watch: &Watch, layout: &Layout, access: &Access, pc: u32, word: u32) -> Option<Stop>
    ensures { (b : BoardValue) (book : Book) (past : List PastEvent) (width : WidthValue) → StandsFor b layout.now watch.now.core watch.now book past → rules.breach b layout.now (knowledge b book watch.now.core past) access.now width ≢ Some rules.Strays → result ≡ option_map (λ why. stop_for why pc word (address_of access.now)) (rules.breach b layout.now (knowledge b book watch.now.core past) access.now width) }
{
    match watch.judge(layout, access) {
        Some(broken) => Some(refused(broken, pc, word)),
        None => None,
    }
}

/// How a load or store through the cache stops the core, if it breaks the discipline; else the place
/// where its note looks for the record of its line first.
#[inline(always)]
fn judge_cached(
    watch: &Watch,
    layout: &Layout,
    address: u32,
    width: Width,
    store: bool,
    pc: u32,
    word: u32,
) -> Result<u32, Stop>
    ensures { (b : BoardValue) (book : Book) (core : ℕ) (past : List PastEvent) → StandsFor b layout.now core watch.now book past → stop_in result ≡ option_map (λ why. stop_for why pc word address) (rules.breach b layout.now (knowledge b book core past) (accesses.Cached address store) width) }
{
    match watch.judge_cached(layout, address, width, store) {
        Judged::Passed(place) => Ok(place),
        Judged::Refused(broken) => Err(refused(broken, pc, word)),
        Judged::Stray => Err(Stop::Stray(address)),
    }
}

/// How an access that does not go through the cache stops the core, if it breaks the discipline.
/// `strays` says whether it does.
#[inline(never)]
fn judge(
    watch: &Watch,
    layout: &Layout,
    access: &Access,
    strays: bool,
    address: u32,
    pc: u32,
    word: u32,
) -> Result<u32, Stop>
    requires { address ≡ address_of access.now }
    ensures { (b : BoardValue) (book : Book) (core : ℕ) (past : List PastEvent) (width : WidthValue) → StandsFor b layout.now core watch.now book past → strays ≡ is_stray (rules.breach b layout.now (knowledge b book core past) access.now width) → stop_in result ≡ option_map (λ why. stop_for why pc word (address_of access.now)) (rules.breach b layout.now (knowledge b book core past) access.now width) }
{
    if strays {
        return Err(Stop::Stray(address));
    }
    match refusal(watch, layout, access, pc, word) {
        Some(stop) => Err(stop),
        None => Ok(0),
    }
}

/// How a load or store past the cache stops the core, if it breaks the discipline.
#[inline(never)]
fn judge_past(
    watch: &Watch,
    layout: &Layout,
    core: u32,
    address: u32,
    width: Width,
    store: bool,
    value: u32,
    pc: u32,
    word: u32,
) -> Result<u32, Stop>
    ensures { (b : BoardValue) (book : Book) (past : List PastEvent) → StandsFor b layout.now core watch.now book past → stop_in result ≡ option_map (λ why. stop_for why pc word address) (rules.breach b layout.now (knowledge b book core past) (accesses.Bypass address store value) width) }
{
    let strays = cut_off(layout, core, address, width, Route::Bypassing, store);
    let access = Access::Bypass {
        address,
        store,
        value,
    };
    judge(watch, layout, &access, strays, address, pc, word)
}

/// How what an instruction leaves to do stops the core, if it breaks the discipline; else the place
/// where a load or store through the cache looks for the record of its line first.
#[inline(always)]
pub fn judge_asked(
    watch: &Watch,
    layout: &Layout,
    core: u32,
    asked: &Asked,
    pc: u32,
    word: u32,
) -> Result<u32, Stop>
    ensures done { asked.now ≡ Asked.Done → stop_in result ≡ None }
    ensures judged { (b : BoardValue) (book : Book) (past : List PastEvent) → StandsFor b layout.now core watch.now book past → stop_in result ≡ option_map (λ why. stop_for why pc word (task_address (task_of asked.now))) (task_breach b layout.now (knowledge b book core past) (task_of asked.now)) }
{
    match asked {
        Asked::Load {
            address,
            width,
            io,
            ..
        } => match Route::of(*address, *io) {
            Route::Cached => judge_cached(watch, layout, *address, *width, false, pc, word),
            Route::Bypassing => {
                judge_past(watch, layout, core, *address, *width, false, 0, pc, word)
            }
        },
        Asked::Store {
            address,
            width,
            value,
            io,
        } => match Route::of(*address, *io) {
            Route::Cached => judge_cached(watch, layout, *address, *width, true, pc, word),
            Route::Bypassing => {
                judge_past(
                    watch, layout, core, *address, *width, true, *value, pc, word,
                )
            }
        },
        Asked::LineOp { op, address } => {
            let access = Access::Op {
                op: *op,
                address: *address,
            };
            judge(watch, layout, &access, false, *address, pc, word)
        }
        Asked::Done => Ok(0),
        Asked::CodeOp { .. } => Ok(0),
        Asked::Raise(_) => Ok(0),
        Asked::Broke => Ok(0),
    }
}

/// How the fetch at a program counter stops the core, if it is cut off.
#[inline(always)]
#[tactic(auto, unfolding(n2_watch::specs::Discipline::breach))]
pub fn judge_fetch(layout: &Layout, pc: u32) -> Option<Stop>
    ensures { (b : BoardValue) (who : rules.Knowledge) (width : WidthValue) → result ≡ option_map (λ why. stop_for why pc 0 pc) (rules.breach b layout.now who (accesses.Fetch pc) width) }
{
    match layout.fetch_violation(pc) {
        Some(Violation::Stray) => Some(Stop::Stray(pc)),
        Some(Violation::Separate) => Some(Stop::Refused(Refusal {
            kind: Kind::Separate,
            pc,
            insn: 0,
            address: pc,
            line: line_of(pc),
        })),
        None => None,
    }
}
