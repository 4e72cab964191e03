//! Laws on past events.

pub mod examples;
pub mod kept;
pub mod ownership;

ghost use Rattle.std.specs.Prelude.{◌≡◌, ◌↔◌, ℕ, Bool, true, List, IsTrue, ◌&&◌, IfNone, IfSome, ◌≤◌, ◌==◌, Some, slice_get, false};
ghost use Rattle.n2_parts.specs.declared.board.Board.{Board};
ghost use Rattle.n2_parts.specs.declared.board.MailboxRow.{MailboxRow as MailboxValue};
ghost use Rattle.n2_board.specs.declared.guards.Guard.{Guard as GuardValue};
ghost use Rattle.n2_board.specs.AddressMap.{AddressMap};
ghost use Rattle.n2_watch.specs.Book.{Book, owned_by, pointer_of};
ghost use Rattle.n2_watch.specs.Watched.{Watched, StandsFor};
ghost use Rattle.n2_watch.specs.declared.past.Past.{Past as PastEvent};
ghost use Rattle.n2_watch.specs.Past.{may, dirty, stale, lowest};
ghost use Rattle.n2_watch.specs.InWords.{IsTouched, IsTouchedBeforeGot};

/// What past events say of a line, in words: some Touch of it, no later Clean, and for a stale line a later Got of its guard.
pub fn past_events_in_words()
    ensures may { (sets : ℕ) (past : List PastEvent) (number : ℕ) → IsTrue (may sets past number) ↔ ((store : Bool) × IsTouched sets past number store) }
    ensures dirty { (sets : ℕ) (past : List PastEvent) (number : ℕ) → IsTrue (dirty sets past number) ↔ IsTouched sets past number true }
    ensures stale { (map : AddressMap) (sets : ℕ) (past : List PastEvent) (number : ℕ) → IsTrue (stale map sets past number) ↔ IsTouchedBeforeGot map sets past number }
{}

/// The named line of a flush is the lowest of those that are dirty and meant.
pub fn lowest_dirty_line()
    ensures none { (sets : ℕ) (test : ℕ → Bool) (past : List PastEvent) → IfNone (lowest (λ l. dirty sets past l && test l) past) ((number : ℕ) → IsTrue (dirty sets past number) → test number ≡ false) }
    ensures some { (sets : ℕ) (test : ℕ → Bool) (past : List PastEvent) → IfSome (lowest (λ l. dirty sets past l && test l) past) (λ found. IsTrue (dirty sets past found) × IsTrue (test found) × ((number : ℕ) → IsTrue (dirty sets past number) → IsTrue (test number) → found ≤ number)) }
{}

/// A watch that stands for a book stands for each book in which its core owns the same guards and the
/// mailboxes that it sends to have the same Pointer registers: what others do to the rest is nothing
/// to it.
pub fn other_transfers()
    ensures { (b : Board) (map : AddressMap) (core : ℕ) (w : Watched) (book other : Book) (past : List PastEvent) → StandsFor b map core w book past → ((guard : GuardValue) → owned_by b book core guard ≡ owned_by b other core guard) → ((index : ℕ) (row : MailboxValue) → slice_get b.mailbox index ≡ Some row → IsTrue (row.sender == core) → pointer_of book index ≡ pointer_of other index) → StandsFor b map core w other past }
{}
