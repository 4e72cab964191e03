//! Laws of the mailbox, over all states, sides, offsets and words.

ghost use Rattle.std.specs.Prelude.{◌≡◌, ◌<◌, ◌^◌, ℕ, IsTrue, IsFalse, true, false};
ghost use Rattle.n2_mailbox.specs.declared.Side.{Side};
ghost use Rattle.n2_mailbox.specs.Mailbox.{State, IsInRange, started, value_of, takes_message, pointer_taken, after_read, takes, after_write, is_on};

/// A message that was posted waits with its Pointer, and the first read of Command at the receiving side
/// takes it, after which there is room again.
pub fn a_posted_message_is_taken_once()
    ensures taken { (state : State) (word : ℕ) → IsFalse state.waiting
        → let posted = after_write state Side.Send 0 word in
        IsTrue (takes_message posted Side.Receive 0)
        × (value_of posted Side.Receive 0 ≡ word)
        × (pointer_taken posted Side.Receive 0 ≡ state.pointer) }
    ensures once { (state : State) → IsFalse (takes_message (after_read state Side.Receive 0) Side.Receive 0) }
{}

/// While a message waits, no write changes the message or takes it away.
pub fn a_waiting_message_stays()
    ensures { (state : State) (side : Side) (offset word : ℕ) → IsTrue state.waiting
        → let after = after_write state side offset word in
        (after.waiting ≡ true) × (after.command ≡ state.command) × (after.pointer ≡ state.pointer) }
{}

/// A refused write changes nothing.
pub fn a_refused_write_changes_nothing()
    ensures { (state : State) (side : Side) (offset word : ℕ) → IsFalse (takes state side offset word)
        → after_write state side offset word ≡ state }
{}

/// The two interrupt lines are never on together.
pub fn one_line_at_most()
    ensures { (state : State) → IsTrue (is_on state Side.Send) → IsFalse (is_on state Side.Receive) }
{}

/// Command and Pointer keep the widths of the register map.
pub fn fields_keep_their_widths()
    ensures start { IsInRange started }
    ensures read { (state : State) (side : Side) (offset : ℕ) → IsInRange state
        → IsInRange (after_read state side offset) }
    ensures write { (state : State) (side : Side) (offset word : ℕ) → IsInRange state → word < 2 ^ 32
        → IsInRange (after_write state side offset word) }
{}

/// What a read answers is a word, and so is a Pointer that it takes.
pub fn a_read_answers_words()
    ensures value { (state : State) (side : Side) (offset : ℕ) → IsInRange state
        → value_of state side offset < 2 ^ 32 }
    ensures pointer { (state : State) (side : Side) (offset : ℕ) → IsInRange state
        → pointer_taken state side offset < 2 ^ 32 }
{}
