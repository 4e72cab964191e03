//! Laws of the mutex's registers, over all states, offsets and words.

ghost use Rattle.std.specs.Prelude.{◌≡◌, ◌≢◌, ◌<◌, ◌^◌, ◌↔◌, ℕ, IsTrue, IsFalse};
ghost use Rattle.n2_mutex.specs.Mutex.{State, IsInRange, started, owner_in, value_in, value_of, takes, after_write};

/// A write is refused exactly at the mutex register while VALUE isn't 0 and the written OWNER is another.
pub fn a_held_mutex_refuses_other_owners()
    ensures { (state : State) (offset word : ℕ) → IsFalse (takes state offset word)
        ↔ ((offset ≡ 0) × (state.value ≢ 0) × (state.owner ≢ owner_in word)) }
{}

/// What a write of the mutex register put there is what a read answers.
pub fn a_written_owner_and_value_are_read()
    ensures { (state : State) (word : ℕ) → IsTrue (takes state 0 word)
        → value_of (after_write state 0 word) 0 ≡ word }
{}

/// A refused write changes nothing.
pub fn a_refused_write_changes_nothing()
    ensures { (state : State) (offset word : ℕ) → IsFalse (takes state offset word)
        → after_write state offset word ≡ state }
{}

/// The fields keep the widths of the register map.
pub fn fields_keep_their_widths()
    ensures start { IsInRange started }
    ensures write { (state : State) (offset word : ℕ) → IsInRange state → word < 2 ^ 32
        → IsInRange (after_write state offset word) }
{}

/// What a read answers is a word.
pub fn a_read_answers_a_word()
    ensures { (state : State) (offset : ℕ) → IsInRange state → value_of state offset < 2 ^ 32 }
{}
