//! One turn of one actor, over the parts of a machine that it uses.

ghost use Rattle.std.specs.Prelude.{◌≡◌, ℕ, nat_lt, false, length, IsTrue};
ghost use Rattle.n2_parts.specs.declared.board.Board.{Board as BoardValue};
ghost use Rattle.n2_parts.specs.Valid.{IsValid};
ghost use Rattle.n2_board.specs.AddressMap.{AddressMap};
ghost use Rattle.n2_bus.specs.Transfer as transfers;
ghost use Rattle.n2_bus.specs.Wiring.{wiring_of, proper};
ghost use Rattle.n2_runs.specs.Machine.{Machine};
ghost use Rattle.n2_runs.specs.Knows.{IsBookKept};
ghost use Rattle.n2_smp.specs.Rows.{FitRows};
ghost use Rattle.n2_smp.specs.Scripts.{IsReached};
ghost use Rattle.n2_smp.specs.Standing.{StandsAt, IsReady, IsWanted, IsMadeAt, IsTurnedAt, EventsStandFor, AreTurned, answer_of};

use crate::entries::have_types;
use crate::script::Script;
use n2_board::{Act, Board, DeviceEvent, Layout};
use n2_bus::{Bus, Request};
use n2_cpu::{Core, Step};
use n2_journal::{Entry, Journal};

/// What a turn came to: a turn that was made, without an act or with one; or none, as its actor is
/// over.
#[derive(Clone, Copy, Debug, PartialEq, Eq)]
pub enum Turned {
    Local,
    Acted(Act),
    Over,
}

/// Whether a journal has room for an entry.
#[inline(always)]
pub fn has_room(journal: &Journal) -> bool
    ensures { result ≡ nat_lt (length journal.now.content.entries) journal.now.limit }
{
    journal.entries().len() < journal.limit() as usize
}

#[inline(always)]
fn made(act: Option<Act>) -> Turned
    ensures { result ≡ answer_of false act }
{
    match act {
        None => Turned::Local,
        Some(act) => Turned::Acted(act),
    }
}

/// A turn that wants a transfer: it is made and entered, or the core stops where the journal is full.
fn transfer(
    core: &mut Core,
    layout: &Layout,
    bus: &mut Bus,
    journal: &mut Journal,
    actor: u32,
    request: Request,
) -> Option<Act>
    requires ready { IsReady layout.now actor core.old bus.old journal.old }
    requires proper { IsTrue (proper bus.old.wiring actor request) }
    requires wanted { (b : BoardValue) (m : Machine) → StandsAt b layout.now actor core.old bus.old journal.old m → IsBookKept b layout.now m → IsWanted b layout.now actor m request }
    ensures made { (b : BoardValue) (m : Machine) → StandsAt b layout.now actor core.old bus.old journal.old m → IsBookKept b layout.now m → IsMadeAt b layout.now actor core.new bus.new journal.new m result }
    ensures tails { journal.new.content.tails ≡ journal.old.content.tails }
    ensures rows { FitRows journal.old.content.entries → FitRows journal.new.content.entries }
{
    if !has_room(journal) {
        core.full();
        return None;
    }
    let local = core.since_transfer();
    let reply = bus.transfer(actor, &request);
    let act = core.answer(layout, &request, &reply);
    have_types(&request, &reply);
    journal.add(Entry {
        local,
        actor,
        request,
        reply,
    });
    act
}

/// A turn of a core.
#[inline(always)]
pub fn turn_of_core(
    core: &mut Core,
    layout: &Layout,
    bus: &mut Bus,
    journal: &mut Journal,
    actor: u32,
) -> Turned
    requires { IsReady layout.now actor core.old bus.old journal.old }
    ensures turned { (b : BoardValue) (m : Machine) → StandsAt b layout.now actor core.old bus.old journal.old m → IsBookKept b layout.now m → IsTurnedAt b layout.now actor core.new bus.new journal.new m result }
    ensures over { result ≡ Turned.Over → (core.new ≡ core.old) × (bus.new ≡ bus.old) × (journal.new ≡ journal.old) }
    ensures tails { journal.new.content.tails ≡ journal.old.content.tails }
    ensures rows { FitRows journal.old.content.entries → FitRows journal.new.content.entries }
{
    match core.step(layout) {
        Step::Made(act) => made(act),
        Step::Wants(request) => made(transfer(core, layout, bus, journal, actor, request)),
        Step::Over => Turned::Over,
    }
}

/// What the device actor asks of the bus for an event.
pub fn request_of(event: DeviceEvent) -> Request
    ensures { result ≡ transfers.request_for event }
{
    match event {
        DeviceEvent::Tick(n) => Request::Tick(n),
        DeviceEvent::Receive(uart) => Request::Receive(uart),
        DeviceEvent::Drain(uart) => Request::Drain(uart),
    }
}

/// A turn of the device actor.
pub fn turn_of_devices(
    board: &Board,
    bus: &mut Bus,
    journal: &mut Journal,
    script: &mut Script,
    actor: u32,
) -> Turned
    requires valid { IsValid board.now }
    requires reached { IsReached board.now script.old }
    requires wiring { bus.old.wiring ≡ wiring_of board.now }
    requires actor { actor ≡ length board.now.core }
    ensures turned { (map : AddressMap) (m : Machine) → EventsStandFor board.now bus.old journal.old script.old m → AreTurned board.now map bus.new journal.new script.new m result }
    ensures reached { IsReached board.now script.new }
    ensures over { result ≡ Turned.Over → (bus.new ≡ bus.old) × (journal.new ≡ journal.old) × (script.new ≡ script.old) }
    ensures tails { journal.new.content.tails ≡ journal.old.content.tails }
    ensures rows { FitRows journal.old.content.entries → FitRows journal.new.content.entries }
{
    if !has_room(journal) {
        return Turned::Over;
    }
    let Some(event) = script.event(board) else {
        return Turned::Over;
    };
    let request = request_of(event);
    let reply = bus.transfer(actor, &request);
    have_types(&request, &reply);
    journal.add(Entry {
        local: 0,
        actor,
        request,
        reply,
    });
    script.pass(board);
    Turned::Acted(Act::Device(event))
}
