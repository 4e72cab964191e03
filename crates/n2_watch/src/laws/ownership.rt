//! Laws on ownership: who owns a guard, and what a load or a store past the caches changes of it.

ghost use Rattle.std.specs.Prelude.{◌≡◌, ◌≢◌, ℕ, ◌<◌, List, length, Bool, IsTrue, false, Some, None, slice_get};
ghost use Rattle.std.specs.List.{Contains};
ghost use Rattle.n2_word.specs.declared.Width.{Width};
ghost use Rattle.n2_word.specs.Lines.{line};
ghost use Rattle.n2_elf.specs.declared.image.Image.{Image};
ghost use Rattle.n2_parts.specs.declared.board.Board.{Board};
ghost use Rattle.n2_parts.specs.declared.board.MailboxRow.{MailboxRow};
ghost use Rattle.n2_parts.specs.Valid.{IsValid};
ghost use Rattle.n2_board.specs.declared.guards.Guard.{Guard};
ghost use Rattle.n2_board.specs.AddressMap.{AddressMap, class_of};
ghost use Rattle.n2_bus.specs.declared.request.Request.{Request};
ghost use Rattle.n2_watch.specs.declared.past.Past.{Past as PastEvent};
ghost use Rattle.n2_watch.specs.declared.access.Access.{Access};
ghost use Rattle.n2_watch.specs.declared.access.Access.TheVariants.{Cached};
ghost use Rattle.n2_watch.specs.Past.{dirty};
ghost use Rattle.n2_watch.specs.Discipline.{breach};
ghost use Rattle.n2_watch.specs.Kept.{may_write, IsKept};
ghost use Rattle.n2_watch.specs.Book.{Book, owned_by, sets_of, knowledge, pointer_of, guards_touched};
ghost use Rattle.n2_watch.specs.World.{World, transferred};
ghost use Rattle.n2_watch.specs.Shapes.{Change, IsNoted, BypassAccess, IsLetPast, request_of, accessed, past_accessed, is_access};

/// Two cores of a valid board never own one guard.
pub fn one_owner()
    ensures { (b : Board) → IsValid b → (book : Book) (guard : Guard) (j k : ℕ) → j < length b.core → k < length b.core → IsTrue (owned_by b book j guard) → IsTrue (owned_by b book k guard) → j ≡ k }
{}

/// Two cores of a valid board may never write one line through their caches, and a load or store through
/// the cache that breaks nothing is of no line that is dirty for another core.
pub fn one_writer()
    ensures writers { (b : Board) (map : AddressMap) (book : Book) (number j k : ℕ) → IsValid b → j < length b.core → k < length b.core → IsTrue (may_write (class_of map number) j (owned_by b book j)) → IsTrue (may_write (class_of map number) k (owned_by b book k)) → j ≡ k }
    ensures dirty { (b : Board) (map : AddressMap) (book : Book) (pasts : List (List PastEvent)) (j k : ℕ) (dirtied past : List PastEvent) (address : ℕ) (store : Bool) (width : Width) → IsValid b → length pasts ≡ length b.core → IsKept b map book pasts → slice_get pasts j ≡ Some dirtied → slice_get pasts k ≡ Some past → IsTrue (dirty (sets_of b j) dirtied (line address)) → breach b map (knowledge b book k past) (Cached address store) width ≡ None → j ≡ k }
{}

/// A Got or a Gave stands exactly where a core's load or store past the caches changed what it owns: at
/// most one guard changes, the event that tells of it is added to the past events, and no other event
/// is. What changes is among the guards that the access touches.
pub fn got_and_gave()
    ensures events { (b : Board) (images : List Image) (map : AddressMap) (k : ℕ) (w : World) (past : List PastEvent) (access : BypassAccess) → IsLetPast b images map k w past access → (change : Change) × IsNoted (owned_by b w.book k) (owned_by b (accessed b map k w access).world.book k) past (past_accessed b map k w past access) change }
    ensures touched { (b : Board) (images : List Image) (map : AddressMap) (k : ℕ) (w : World) (past : List PastEvent) (access : BypassAccess) → IsLetPast b images map k w past access → (guard : Guard) → owned_by b (accessed b map k w access).world.book k guard ≢ owned_by b w.book k guard → Contains (guards_touched map w.book (request_of access) (accessed b map k w access).reply) guard }
{}

/// A load or store past the caches that breaks nothing changes nothing that another core owns, and no
/// Pointer register of a mailbox that another core sends to. Other requests change no mutex, no mailbox
/// and no holder. So nothing of what the discipline says of a core's accesses changes by what others do.
pub fn other_cores()
    ensures guards { (b : Board) (images : List Image) (map : AddressMap) (k : ℕ) (w : World) (past : List PastEvent) (access : BypassAccess) → IsLetPast b images map k w past access → (j : ℕ) → j < length b.core → j ≢ k → (guard : Guard) → owned_by b (accessed b map k w access).world.book j guard ≡ owned_by b w.book j guard }
    ensures pointers { (b : Board) (images : List Image) (map : AddressMap) (k : ℕ) (w : World) (past : List PastEvent) (access : BypassAccess) → IsLetPast b images map k w past access → (index : ℕ) (row : MailboxRow) → slice_get b.mailbox index ≡ Some row → row.sender ≢ k → pointer_of (accessed b map k w access).world.book index ≡ pointer_of w.book index }
    ensures mutexes { (b : Board) (map : AddressMap) (actor : ℕ) (w : World) (request : Request) → is_access request ≡ false → (transferred b map actor w request).world.book.devices.mutexes ≡ w.book.devices.mutexes }
    ensures mailboxes { (b : Board) (map : AddressMap) (actor : ℕ) (w : World) (request : Request) → is_access request ≡ false → (transferred b map actor w request).world.book.devices.mailboxes ≡ w.book.devices.mailboxes }
    ensures holders { (b : Board) (map : AddressMap) (actor : ℕ) (w : World) (request : Request) → is_access request ≡ false → (transferred b map actor w request).world.book.holders ≡ w.book.holders }
    ensures judgement { (b : Board) (images : List Image) (map : AddressMap) (k : ℕ) (w : World) (past : List PastEvent) (access : BypassAccess) → IsLetPast b images map k w past access → (j : ℕ) → j < length b.core → j ≢ k → (own : List PastEvent) (asked : Access) (width : Width) → breach b map (knowledge b (accessed b map k w access).world.book j own) asked width ≡ breach b map (knowledge b w.book j own) asked width }
    ensures other_judgement { (b : Board) (map : AddressMap) (actor : ℕ) (w : World) (request : Request) → is_access request ≡ false → (j : ℕ) (own : List PastEvent) (asked : Access) (width : Width) → breach b map (knowledge b (transferred b map actor w request).world.book j own) asked width ≡ breach b map (knowledge b w.book j own) asked width }
{}
