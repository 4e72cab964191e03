//! Laws on acts: what an act of a core does to the book and to past events.

ghost use Rattle.std.specs.Prelude.{◌≡◌, ◌≢◌, ℕ, ◌<◌, List, length, false, Some, None, slice_get, slice_set};
ghost use Rattle.n2_word.specs.declared.Width.{Width};
ghost use Rattle.n2_elf.specs.declared.image.Image.{Image};
ghost use Rattle.n2_parts.specs.declared.board.Board.{Board};
ghost use Rattle.n2_parts.specs.declared.stops.Stop.{Stop};
ghost use Rattle.n2_parts.specs.Valid.{IsValid};
ghost use Rattle.n2_parts.specs.declared.board.MailboxRow.{MailboxRow};
ghost use Rattle.n2_parts.specs.MemoryLines.{HasLine};
ghost use Rattle.n2_board.specs.declared.classes.Class.TheVariants as classes;
ghost use Rattle.n2_board.specs.declared.guards.Guard.{Guard};
ghost use Rattle.n2_board.specs.AddressMap.{AddressMap, address_map, class_of};
ghost use Rattle.n2_memory.specs.Memories.{line_at};
ghost use Rattle.n2_watch.specs.declared.access.Access.{Access};
ghost use Rattle.n2_watch.specs.Discipline.{breach};
ghost use Rattle.n2_watch.specs.Book.{owned_by, pointer_of, knowledge};
ghost use Rattle.n2_watch.specs.declared.past.Past.{Past as PastEvent};
ghost use Rattle.n2_watch.specs.World.{World};
ghost use Rattle.n2_watch.specs.Kept.{IsKept, IsPosted, may_write};
ghost use Rattle.n2_watch.specs.Shapes.{HasBoardShape, HasWorldShape};
ghost use Rattle.n2_front.specs.Front.{Front, stopped};
ghost use Rattle.n2_front.specs.Tasks.{Task, task_breach};
ghost use Rattle.n2_front.specs.Retire.{acted, who, done, retired};

/// What the book and the past events of all cores keep by themselves is kept by each act of a core on
/// a valid board, and by what is done for each task that breaks nothing; and each act keeps the shape
/// of what the cores share.
pub fn kept()
    ensures kept { (b : Board) (images : List Image) (map : AddressMap) (k : ℕ) (f : Front) (w : World) (pasts : List (List PastEvent)) → IsValid b → map ≡ address_map b images → HasBoardShape b w.book → length pasts ≡ length b.core → slice_get pasts k ≡ Some f.past → IsKept b map w.book pasts → IsKept b map (retired b map k f w).world.book (slice_set pasts k (retired b map k f w).front.past) }
    ensures done { (b : Board) (images : List Image) (map : AddressMap) (k : ℕ) (f : Front) (w : World) (pasts : List (List PastEvent)) (task : Task) → IsValid b → map ≡ address_map b images → HasBoardShape b w.book → length pasts ≡ length b.core → slice_get pasts k ≡ Some f.past → IsKept b map w.book pasts → task_breach b map (who b k f w.book) task ≡ None → IsKept b map (done b map k f w task).world.book (slice_set pasts k (done b map k f w task).front.past) }
    ensures shape { (b : Board) (images : List Image) (map : AddressMap) (k : ℕ) (f : Front) (w : World) → IsValid b → map ≡ address_map b images → HasWorldShape b w → HasWorldShape b (retired b map k f w).world }
{}

/// An act changes nothing that another core owns, no Pointer register of a mailbox that another core
/// sends to, and so nothing of what the discipline says of another core's accesses.
pub fn other_cores()
    ensures guards { (b : Board) (images : List Image) (map : AddressMap) (k : ℕ) (f : Front) (w : World) → IsValid b → map ≡ address_map b images → k < length b.core → HasBoardShape b w.book → IsPosted map w.book → (j : ℕ) → j < length b.core → j ≢ k → (guard : Guard) → owned_by b (retired b map k f w).world.book j guard ≡ owned_by b w.book j guard }
    ensures pointers { (b : Board) (images : List Image) (map : AddressMap) (k : ℕ) (f : Front) (w : World) → IsValid b → map ≡ address_map b images → k < length b.core → HasBoardShape b w.book → IsPosted map w.book → (index : ℕ) (row : MailboxRow) → slice_get b.mailbox index ≡ Some row → row.sender ≢ k → pointer_of (retired b map k f w).world.book index ≡ pointer_of w.book index }
    ensures judgement { (b : Board) (images : List Image) (map : AddressMap) (k : ℕ) (f : Front) (w : World) → IsValid b → map ≡ address_map b images → k < length b.core → HasBoardShape b w.book → IsPosted map w.book → (j : ℕ) → j < length b.core → j ≢ k → (past : List PastEvent) (access : Access) (width : Width) → breach b map (knowledge b (retired b map k f w).world.book j past) access width ≡ breach b map (knowledge b w.book j past) access width }
{}

/// An act changes no line of memory but uncached ones and those that its core may write: no line of
/// code, none of another core's own, and none whose guard it does not own.
pub fn lines()
    ensures { (b : Board) (images : List Image) (map : AddressMap) (k : ℕ) (f : Front) (w : World) (number : ℕ) → IsValid b → map ≡ address_map b images → HasWorldShape b w → HasLine b.memory number → class_of map number ≢ classes.Uncached → may_write (class_of map number) k (owned_by b w.book k) ≡ false → line_at (retired b map k f w).world.memory number ≡ line_at w.memory number }
{}

/// An act that stops its core, by a refusal, by a stray access or by `break`, changes nothing else: no
/// register, no past event, and nothing that cores share.
pub fn only_the_stop()
    ensures { (b : Board) (map : AddressMap) (k : ℕ) (f : Front) (w : World) (stop : Stop) → f.stop ≡ None → (retired b map k f w).front.stop ≡ Some stop → retired b map k f w ≡ acted (stopped f stop) w }
{}
