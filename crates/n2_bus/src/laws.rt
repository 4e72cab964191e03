//! Laws on buses and transfers.

ghost use Rattle.std.specs.Prelude.{◌≡◌, ◌≢◌, ℕ, ◌<◌, ◌^◌, List, length, IsTrue, None, Ok, Some, slice_get};
ghost use Rattle.std.specs.List.{AllByRecursion};
ghost use Rattle.n2_word.specs.declared.Width.{Width};
ghost use Rattle.n2_word.specs.Words.{is_aligned};
ghost use Rattle.n2_word.specs.Lines.{line, without_bypass};
ghost use Rattle.n2_elf.specs.Reading.{IsSized};
ghost use Rattle.n2_elf.specs.declared.image.Image.{Image};
ghost use Rattle.n2_parts.specs.declared.board.Board.{Board};
ghost use Rattle.n2_parts.specs.declared.board.Part.{Part};
ghost use Rattle.n2_parts.specs.declared.board.ScriptRow.{ScriptRow};
ghost use Rattle.n2_parts.specs.MemoryLines.{HasLine};
ghost use Rattle.n2_parts.specs.Valid.{IsValid};
ghost use Rattle.n2_board.specs.declared.access.Direction.{Direction};
ghost use Rattle.n2_board.specs.declared.access.Route.TheVariants.{Cached, Bypassing};
ghost use Rattle.n2_board.specs.declared.access.Target.{Target};
ghost use Rattle.n2_board.specs.declared.places.Place.TheVariants.{Memory, Device};
ghost use Rattle.n2_board.specs.Access.{data_target, fetch_violation};
ghost use Rattle.n2_board.specs.AddressMap.{address_map};
ghost use Rattle.n2_board.specs.Placement.{open_fault};
ghost use Rattle.n2_board.specs.Places.{place_in};
ghost use Rattle.n2_memory.specs.Memories.{IsFull, line_at, written_at};
ghost use Rattle.n2_devices.specs.Devices.{Devices};
ghost use Rattle.n2_bus.specs.declared.request.Request.{Request as Asked};
ghost use Rattle.n2_bus.specs.declared.request.Request.TheVariants.{FillCode, FillData, WriteBack, Read, Write, Sample, Tick, Receive, Drain};
ghost use Rattle.n2_bus.specs.Wiring.{Wiring, wiring_of, proper};
ghost use Rattle.n2_bus.specs.Transfer.{Shared, BusState, served, bus_after, lines_of, FitsFields, request_for, StandsFor};
ghost use Rattle.n2_bus.specs.Ranges.{FitsItsFields, HoldsWords, FitsReply};
ghost use Rattle.n2_bus.specs.Opened.{opened, shared_at_start, IsSound};

/// A fill, a sample and a read of memory change nothing.
#[tactic(auto, unfolding(crate::specs::Transfer::served))]
pub fn reads_change_nothing()
    ensures code { (w : Wiring) (actor l : ℕ) (s : Shared) → (served w actor s (FillCode l)).shared ≡ s }
    ensures data { (w : Wiring) (actor l : ℕ) (s : Shared) → (served w actor s (FillData l)).shared ≡ s }
    ensures sample { (w : Wiring) (actor : ℕ) (s : Shared) → (served w actor s Sample).shared ≡ s }
    ensures read { (w : Wiring) (actor : ℕ) (s : Shared) (address : ℕ) (width : Width) → place_in w.places address ≡ Memory → (served w actor s (Read address width)).shared ≡ s }
{}

/// A write-back puts its line, and changes no other line and no device. A write of memory stores its
/// value, and changes no other line and no device.
#[tactic(auto, unfolding(crate::specs::Transfer::served))]
pub fn stores_change_one_line()
    ensures line { (w : Wiring) (actor l : ℕ) (s : Shared) (words : List ℕ) → IsFull s.memory → HasLine s.memory.memories l → length words ≡ 8 → line_at (served w actor s (WriteBack l words)).shared.memory l ≡ words }
    ensures other_lines { (w : Wiring) (actor l k : ℕ) (s : Shared) (words : List ℕ) → IsFull s.memory → HasLine s.memory.memories l → HasLine s.memory.memories k → k ≢ l → length words ≡ 8 → line_at (served w actor s (WriteBack l words)).shared.memory k ≡ line_at s.memory k }
    ensures devices { (w : Wiring) (actor l : ℕ) (s : Shared) (words : List ℕ) → (served w actor s (WriteBack l words)).shared.devices ≡ s.devices }
    ensures written { (w : Wiring) (actor : ℕ) (s : Shared) (address : ℕ) (width : Width) (value : ℕ) → place_in w.places address ≡ Memory → (served w actor s (Write address width value)).shared ≡ record { memory = written_at s.memory address width value; devices = s.devices } }
    ensures beside { (w : Wiring) (actor : ℕ) (s : Shared) (address : ℕ) (width : Width) (value k : ℕ) → IsFull s.memory → HasLine s.memory.memories (line address) → HasLine s.memory.memories k → k ≢ line address → place_in w.places address ≡ Memory → line_at (served w actor s (Write address width value)).shared.memory k ≡ line_at s.memory k }
{}

/// An access of a device and an event leave the memories as they were.
#[tactic(auto, unfolding(crate::specs::Transfer::served))]
pub fn devices_leave_memory()
    ensures read { (w : Wiring) (actor : ℕ) (s : Shared) (address : ℕ) (width : Width) (part : Part) (offset : ℕ) → place_in w.places address ≡ Device part offset → (served w actor s (Read address width)).shared.memory ≡ s.memory }
    ensures write { (w : Wiring) (actor : ℕ) (s : Shared) (address : ℕ) (width : Width) (value : ℕ) (part : Part) (offset : ℕ) → place_in w.places address ≡ Device part offset → (served w actor s (Write address width value)).shared.memory ≡ s.memory }
    ensures tick { (w : Wiring) (actor n : ℕ) (s : Shared) → (served w actor s (Tick n)).shared.memory ≡ s.memory }
    ensures receive { (w : Wiring) (actor uart : ℕ) (s : Shared) → (served w actor s (Receive uart)).shared.memory ≡ s.memory }
    ensures drain { (w : Wiring) (actor uart : ℕ) (s : Shared) → (served w actor s (Drain uart)).shared.memory ≡ s.memory }
{}

/// What is proper depends on the board alone, and so does what is served: a bus that stands for what is
/// shared stands for it again after each transfer, and replies the same. A bus stands for the start when
/// it is opened.
pub fn stands()
    ensures start { (b : Board) (images : List Image) → StandsFor b (opened b images) (shared_at_start b images) }
    ensures proper { (b : Board) (bus : BusState) (shared : Shared) (actor : ℕ) (request : Asked) → StandsFor b bus shared → proper bus.wiring actor request ≡ proper (wiring_of b) actor request }
    ensures next { (b : Board) (bus : BusState) (shared : Shared) (actor : ℕ) (request : Asked) → StandsFor b bus shared → StandsFor b (bus_after bus actor request) (served (wiring_of b) actor shared request).shared }
    ensures reply { (b : Board) (bus : BusState) (shared : Shared) (actor : ℕ) (request : Asked) → StandsFor b bus shared → (served bus.wiring actor bus.shared request).reply ≡ (served (wiring_of b) actor shared request).reply }
{}

/// A bus holds what it is wired to when it is opened, and after each proper request.
pub fn sound()
    ensures start { (b : Board) (images : List Image) → IsValid b → AllByRecursion IsSized images → open_fault b images ≡ None → IsSound (opened b images) }
    ensures next { (bus : BusState) (actor : ℕ) (request : Asked) → IsSound bus → IsTrue (proper bus.wiring actor request) → FitsFields request → IsSound (bus_after bus actor request) }
{}

/// What the layout lets pass is proper for a core on a bus of the board: a read or a write past the
/// caches, a fill or a write-back of a line that a cached access reaches, a fill of a line that is
/// fetched. So are a sample of a core and each event of the script.
pub fn what_passes_is_proper()
    ensures read { (b : Board) (images : List Image) (core address : ℕ) (width : Width) (direction : Direction) (target : Target) → core < length b.core → IsTrue (is_aligned address width) → data_target (address_map b images) core address width Bypassing direction ≡ Ok target → IsTrue (proper (wiring_of b) core (Read (without_bypass address) width)) }
    ensures write { (b : Board) (images : List Image) (core address : ℕ) (width : Width) (value : ℕ) (direction : Direction) (target : Target) → core < length b.core → IsTrue (is_aligned address width) → data_target (address_map b images) core address width Bypassing direction ≡ Ok target → IsTrue (proper (wiring_of b) core (Write (without_bypass address) width value)) }
    ensures cached { (b : Board) (images : List Image) (core address : ℕ) (width : Width) (direction : Direction) (target : Target) → IsValid b → core < length b.core → data_target (address_map b images) core address width Cached direction ≡ Ok target → IsTrue (proper (wiring_of b) core (FillData (line address))) }
    ensures fetched { (b : Board) (images : List Image) (core address : ℕ) → IsValid b → core < length b.core → fetch_violation (address_map b images) address ≡ None → IsTrue (proper (wiring_of b) core (FillCode (line address))) }
    ensures filled { (b : Board) (core l : ℕ) → core < length b.core → HasLine b.memory l → IsTrue (proper (wiring_of b) core (FillData l)) × IsTrue (proper (wiring_of b) core (FillCode l)) }
    ensures written_back { (b : Board) (core l : ℕ) (words : List ℕ) → core < length b.core → HasLine b.memory l → IsTrue (proper (wiring_of b) core (WriteBack l words)) }
    ensures sample { (b : Board) (core : ℕ) → core < length b.core → IsTrue (proper (wiring_of b) core Sample) }
    ensures script { (b : Board) (i : ℕ) (row : ScriptRow) → IsValid b → slice_get b.script i ≡ Some row → IsTrue (proper (wiring_of b) (length b.core) (request_for row.event)) }
{}

/// Memories and devices that hold words hold words after each proper request, and a reply has words.
/// They do so at the start, where the board's numbers fit its fields. The interrupt lines of a core
/// are a word whatever the devices hold.
pub fn words()
    ensures start { (b : Board) (images : List Image) → IsValid b → FitsItsFields b → HoldsWords (shared_at_start b images) }
    ensures next { (w : Wiring) (actor : ℕ) (s : Shared) (request : Asked) → HoldsWords s → IsTrue (proper w actor request) → FitsFields request → HoldsWords (served w actor s request).shared }
    ensures reply { (w : Wiring) (actor : ℕ) (s : Shared) (request : Asked) → HoldsWords s → IsTrue (proper w actor request) → FitsFields request → FitsReply (served w actor s request).reply }
    ensures lines { (b : Board) (d : Devices) (core : ℕ) → IsValid b → core < length b.core → lines_of (wiring_of b) d core < 2 ^ 32 }
{}
