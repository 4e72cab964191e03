//! Laws on turns: what an actor leaves of a core that is another's, and of what cores share.

ghost use Rattle.std.specs.Prelude.{◌≡◌, ◌≢◌, ℕ, ◌<◌, List, length, false};
ghost use Rattle.n2_elf.specs.declared.image.Image.{Image};
ghost use Rattle.n2_parts.specs.declared.board.Board.{Board};
ghost use Rattle.n2_parts.specs.declared.board.CoreRow.{CoreRow};
ghost use Rattle.n2_board.specs.AddressMap.{AddressMap};
ghost use Rattle.n2_bus.specs.declared.request.Request.{Request};
ghost use Rattle.n2_watch.specs.declared.past.Past.{Past};
ghost use Rattle.n2_watch.specs.Shapes.{BypassAccess, IsLetPast, accessed, is_access};
ghost use Rattle.n2_watch.specs.Watched.{IsMapOf};
ghost use Rattle.n2_watch.specs.World.{World, start_world, transferred};
ghost use Rattle.n2_front.specs.Core.{Core};
ghost use Rattle.n2_front.specs.Turn.{core_turn};
ghost use Rattle.n2_cpu.specs.declared.state.State.{State};
ghost use Rattle.n2_cpu.specs.Stands.{StandsFor, IsShared};

/// A core that a value stands for is what it stands for after a turn of another core, after a load
/// or store past the caches by another core that breaks nothing, and after each other request of
/// whatever actor, as a device event.
pub fn other_actors()
    ensures turn { (b : Board) (map : AddressMap) (j k : ℕ) (row : CoreRow) (s : State) (c d : Core) (w : World) → StandsFor b map k s c w → IsShared b map w → j < length b.core → k ≢ j → StandsFor b map k s c (core_turn b map j row d w).world }
    ensures access { (b : Board) (images : List Image) (map : AddressMap) (k : ℕ) (s : State) (c : Core) (w : World) (j : ℕ) (past : List Past) (access : BypassAccess) → IsLetPast b images map j w past access → k ≢ j → StandsFor b map k s c w → StandsFor b map k s c (accessed b map j w access).world }
    ensures request { (b : Board) (map : AddressMap) (k : ℕ) (s : State) (c : Core) (w : World) (actor : ℕ) (request : Request) → is_access request ≡ false → StandsFor b map k s c w → StandsFor b map k s c (transferred b map actor w request).world }
{}

/// What cores share is so at the start, and after each turn of a core and each device event.
pub fn shared()
    ensures start { (b : Board) (map : AddressMap) (images : List Image) → IsShared b map (start_world b images) }
    ensures turn { (b : Board) (map : AddressMap) (j : ℕ) (row : CoreRow) (d : Core) (w : World) → IsMapOf b map → IsShared b map w → j < length b.core → IsShared b map (core_turn b map j row d w).world }
    ensures request { (b : Board) (map : AddressMap) (w : World) (actor : ℕ) (request : Request) → is_access request ≡ false → IsShared b map w → IsShared b map (transferred b map actor w request).world }
{}
