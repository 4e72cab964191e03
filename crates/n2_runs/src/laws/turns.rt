//! Laws on turns: what each turn of an actor leaves as it was.

ghost use Rattle.std.specs.Prelude.{◌≡◌, ◌≢◌, ℕ, ◌<◌, List, length, Some, None, slice_get};
ghost use Rattle.n2_word.specs.declared.Width.{Width};
ghost use Rattle.n2_elf.specs.declared.image.Image.{Image};
ghost use Rattle.n2_parts.specs.declared.board.Board.{Board};
ghost use Rattle.n2_parts.specs.declared.board.CoreRow.{CoreRow};
ghost use Rattle.n2_parts.specs.declared.stops.Stop.{Stop};
ghost use Rattle.n2_parts.specs.Valid.{IsValid};
ghost use Rattle.n2_board.specs.AddressMap.{AddressMap, address_map};
ghost use Rattle.n2_watch.specs.declared.access.Access.{Access};
ghost use Rattle.n2_watch.specs.declared.past.Past.{Past as PastEvent};
ghost use Rattle.n2_watch.specs.Book.{knowledge};
ghost use Rattle.n2_watch.specs.Discipline.{breach};
ghost use Rattle.n2_watch.specs.World.{World};
ghost use Rattle.n2_front.specs.Core.{Core, stop_of};
ghost use Rattle.n2_front.specs.Turn.{wants, core_turn};
ghost use Rattle.n2_runs.specs.Machine.{Machine, start, turn, run};
ghost use Rattle.n2_runs.specs.Knows.{KnowsSame, IsBookKept, with_stopped};

/// What the book and the past events of all cores keep by themselves holds at the start, and is kept by
/// each turn of each actor, so it holds along every list of actors.
pub fn books()
    ensures start { (b : Board) (images : List Image) (map : AddressMap) → length images ≡ length b.core → IsBookKept b map (start b images) }
    ensures turn { (b : Board) (images : List Image) (map : AddressMap) (m : Machine) (actor : ℕ) → IsValid b → map ≡ address_map b images → IsBookKept b map m → IsBookKept b map (turn b map m actor).machine }
    ensures run { (b : Board) (images : List Image) (map : AddressMap) (order : List ℕ) → IsValid b → map ≡ address_map b images → length images ≡ length b.core → IsBookKept b map (run b map (start b images) order) }
{}

/// A turn of one actor changes nothing of another core: not its registers, its stop, its caches, its past
/// events or its counts, no guard that it owns, no Pointer register of a mailbox that it sends to, and so
/// nothing of what the discipline says of its accesses.
pub fn other_cores()
    ensures core { (b : Board) (map : AddressMap) (m : Machine) (actor j : ℕ) → j ≢ actor → slice_get (turn b map m actor).machine.cores j ≡ slice_get m.cores j }
    ensures known { (b : Board) (images : List Image) (map : AddressMap) (m : Machine) (actor j : ℕ) → IsValid b → map ≡ address_map b images → IsBookKept b map m → j < length b.core → j ≢ actor → KnowsSame b j m.world.book (turn b map m actor).machine.world.book }
    ensures judgement { (b : Board) (images : List Image) (map : AddressMap) (m : Machine) (actor j : ℕ) → IsValid b → map ≡ address_map b images → IsBookKept b map m → j < length b.core → j ≢ actor → (past : List PastEvent) (access : Access) (width : Width) → breach b map (knowledge b (turn b map m actor).machine.world.book j past) access width ≡ breach b map (knowledge b m.world.book j past) access width }
{}

/// A turn that stops its core, by a refusal, by a stray access or by `break`, changes nothing else: no
/// register, no held line, nothing of a device, of memory or of past events, its own or another's, and no
/// entry. It counts as a turn, and as one since the last transfer.
pub fn only_the_stop()
    ensures { (b : Board) (map : AddressMap) (m : Machine) (k : ℕ) (row : CoreRow) (c d : Core) (stop : Stop) → slice_get b.core k ≡ Some row → slice_get m.cores k ≡ Some c → stop_of c ≡ None → slice_get (turn b map m k).machine.cores k ≡ Some d → d.front.stop ≡ Some stop → (turn b map m k).machine ≡ with_stopped m k c stop }
{}

/// A local turn, which is one that wants no transfer, reads and writes nothing that cores share: the
/// world is as it was, and in each world of which its core knows the same, it wants the same, and a
/// local turn leaves its core the same and makes the same act.
pub fn local_turns()
    ensures world { (b : Board) (map : AddressMap) (k : ℕ) (row : CoreRow) (c : Core) (w : World) → wants b map k row w.book c ≡ None → (core_turn b map k row c w).world ≡ w }
    ensures wants { (b : Board) (map : AddressMap) (k : ℕ) (row : CoreRow) (c : Core) (w v : World) → KnowsSame b k w.book v.book → wants b map k row v.book c ≡ wants b map k row w.book c }
    ensures core { (b : Board) (map : AddressMap) (k : ℕ) (row : CoreRow) (c : Core) (w v : World) → KnowsSame b k w.book v.book → wants b map k row w.book c ≡ None → (core_turn b map k row c v).core ≡ (core_turn b map k row c w).core }
    ensures act { (b : Board) (map : AddressMap) (k : ℕ) (row : CoreRow) (c : Core) (w v : World) → KnowsSame b k w.book v.book → wants b map k row w.book c ≡ None → (core_turn b map k row c v).act ≡ (core_turn b map k row c w).act }
{}
