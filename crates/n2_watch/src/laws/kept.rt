//! Laws on what the book and the past events of cores keep by themselves.

ghost use Rattle.std.specs.Prelude.{◌≡◌, ◌≢◌, ℕ, List, [], ◌∷◌, map, length, Bool, false, IsTrue, Some, None, slice_get, slice_set};
ghost use Rattle.std.specs.List.{AllByRecursion};
ghost use Rattle.n2_word.specs.declared.Width.{Width};
ghost use Rattle.n2_word.specs.Lines.{line};
ghost use Rattle.n2_insn.specs.declared.DataOp.{DataOp as DataOpValue};
ghost use Rattle.n2_elf.specs.declared.image.Image.{Image};
ghost use Rattle.n2_parts.specs.declared.board.Board.{Board};
ghost use Rattle.n2_parts.specs.MemoryLines.{HasLine};
ghost use Rattle.n2_parts.specs.Valid.{IsValid};
ghost use Rattle.n2_elf.specs.Reading.{IsSized};
ghost use Rattle.n2_memory.specs.Memories.{line_at};
ghost use Rattle.n2_memory.specs.Start.{AreInside};
ghost use Rattle.n2_board.specs.declared.classes.Class.TheVariants as classes;
ghost use Rattle.n2_board.specs.AddressMap.{AddressMap, address_map, class_of};
ghost use Rattle.n2_bus.specs.declared.request.Request.{Request};
ghost use Rattle.n2_bus.specs.Wiring.{wiring_of, proper};
ghost use Rattle.n2_watch.specs.declared.access.Access.TheVariants.{Cached};
ghost use Rattle.n2_watch.specs.declared.past.Past.{Past as PastEvent};
ghost use Rattle.n2_watch.specs.declared.past.Past.TheVariants.{Touch, Clean};
ghost use Rattle.n2_watch.specs.Past.{may, dirty, stale};
ghost use Rattle.n2_watch.specs.Discipline.{breach};
ghost use Rattle.n2_watch.specs.Book.{Book, start_book, knowledge};
ghost use Rattle.n2_watch.specs.World.{World, start_world, transferred};
ghost use Rattle.n2_watch.specs.Kept.{IsKept};
ghost use Rattle.n2_watch.specs.Shapes.{HasBoardShape, HasWorldShape, HasWords, BypassAccess, IsLetPast, accessed, past_accessed, is_access};

/// A line that is dirty or stale is one that the cache may hold.
pub fn held_lines()
    ensures dirty { (sets : ℕ) (past : List PastEvent) (number : ℕ) → IsTrue (dirty sets past number) → IsTrue (may sets past number) }
    ensures stale { (map : AddressMap) (sets : ℕ) (past : List PastEvent) (number : ℕ) → IsTrue (stale map sets past number) → IsTrue (may sets past number) }
{}

/// The book at the start is one of its board, with no past events.
pub fn start()
    ensures kept { (b : Board) (map' : AddressMap) → IsKept b map' (start_book b) (map (λ core. []) b.core) }
    ensures shape { (b : Board) → HasBoardShape b (start_book b) }
    ensures world { (b : Board) (images : List Image) → IsValid b → AreInside b.memory images → AllByRecursion IsSized images → HasWorldShape b (start_world b images) }
{}

/// What a core does keeps it, with the event that tells of it: a load or store through the cache that
/// breaks nothing, which is of a line in a memory of the board; an operation on the data cache; a load
/// or store past the caches that breaks nothing, which changes no line of memory but uncached ones.
pub fn accesses()
    ensures cached { (b : Board) (map : AddressMap) (book : Book) (pasts : List (List PastEvent)) (k : ℕ) (past : List PastEvent) (address : ℕ) (store : Bool) (width : Width) → length pasts ≡ length b.core → slice_get pasts k ≡ Some past → breach b map (knowledge b book k past) (Cached address store) width ≡ None → IsKept b map book pasts → IsKept b map book (slice_set pasts k (Touch (line address) store ∷ past)) }
    ensures in_memory { (b : Board) (images : List Image) (map : AddressMap) (book : Book) (k : ℕ) (past : List PastEvent) (address : ℕ) (store : Bool) (width : Width) → IsValid b → map ≡ address_map b images → breach b map (knowledge b book k past) (Cached address store) width ≡ None → HasLine b.memory (line address) }
    ensures operation { (b : Board) (map : AddressMap) (book : Book) (pasts : List (List PastEvent)) (k : ℕ) (past : List PastEvent) (op : DataOpValue) (address : ℕ) → length pasts ≡ length b.core → slice_get pasts k ≡ Some past → IsKept b map book pasts → IsKept b map book (slice_set pasts k (Clean op address ∷ past)) }
    ensures bypass { (b : Board) (images : List Image) (map : AddressMap) (k : ℕ) (w : World) (pasts : List (List PastEvent)) (past : List PastEvent) (access : BypassAccess) → IsLetPast b images map k w past access → length pasts ≡ length b.core → slice_get pasts k ≡ Some past → IsKept b map w.book pasts → IsKept b map (accessed b map k w access).world.book (slice_set pasts k (past_accessed b map k w past access)) }
    ensures lines { (b : Board) (images : List Image) (map : AddressMap) (k : ℕ) (w : World) (past : List PastEvent) (access : BypassAccess) (number : ℕ) → IsLetPast b images map k w past access → HasWorldShape b w → HasLine b.memory number → class_of map number ≢ classes.Uncached → line_at (accessed b map k w access).world.memory number ≡ line_at w.memory number }
{}

/// Every other request keeps it too, and every request keeps the book one of its board, and the memories
/// whole where it is proper.
pub fn requests()
    ensures kept { (b : Board) (map : AddressMap) (actor : ℕ) (w : World) (pasts : List (List PastEvent)) (request : Request) → is_access request ≡ false → IsKept b map w.book pasts → IsKept b map (transferred b map actor w request).world.book pasts }
    ensures shape { (b : Board) (map : AddressMap) (actor : ℕ) (w : World) (request : Request) → HasBoardShape b w.book → HasBoardShape b (transferred b map actor w request).world.book }
    ensures world { (b : Board) (map : AddressMap) (actor : ℕ) (w : World) (request : Request) → IsValid b → IsTrue (proper (wiring_of b) actor request) → HasWords request → HasWorldShape b w → HasWorldShape b (transferred b map actor w request).world }
{}
