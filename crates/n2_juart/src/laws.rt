//! Laws of the UART, over all states, offsets, words and bytes.

ghost use Rattle.std.specs.Prelude.{◌≡◌, ◌<◌, ◌≤◌, ◌+◌, ◌^◌, ℕ, [], Some, IsTrue, IsFalse};
ghost use Rattle.n2_juart.specs.Uart.{State, IsInRange, started, byte_in, value_of, after_read, takes, after_write, has_room, after_receive, drained, after_drain, after_host};

/// A byte that the host sends to an empty read queue is what the next read of data answers, with RVALID set and
/// RAVAIL 0, and that read takes it out again.
pub fn a_received_byte_is_read()
    ensures { (state : State) (byte : ℕ) → state.read_queue ≡ [] → IsTrue (has_room state)
        → (value_of (after_receive state byte) 0 ≡ byte + 2 ^ 15)
        × (after_read (after_receive state byte) 0 ≡ state) }
{}

/// A byte that is written to an empty write queue is what the host takes next, and it is taken out then.
pub fn a_written_byte_is_drained()
    ensures { (state : State) (word : ℕ) → state.write_queue ≡ [] → IsTrue (takes state 0 word)
        → (drained (after_write state 0 word) ≡ Some (byte_in word))
        × (after_drain (after_write state 0 word) ≡ state) }
{}

/// A refused write changes nothing, and neither does a byte from the host for which there is no room.
pub fn a_refused_byte_changes_nothing()
    ensures write { (state : State) (offset word : ℕ) → IsFalse (takes state offset word)
        → after_write state offset word ≡ state }
    ensures receive { (state : State) (byte : ℕ) → IsFalse (has_room state) → after_receive state byte ≡ state }
{}

/// The queues keep holding bytes, at most as many as their depths.
pub fn queues_keep_their_depths()
    ensures start { (read_depth write_depth : ℕ) → read_depth ≤ 32768 → write_depth ≤ 32768
        → IsInRange (started read_depth write_depth) }
    ensures read { (state : State) (offset : ℕ) → IsInRange state → IsInRange (after_read state offset) }
    ensures write { (state : State) (offset word : ℕ) → IsInRange state
        → IsInRange (after_write state offset word) }
    ensures receive { (state : State) (byte : ℕ) → IsInRange state → byte < 2 ^ 8
        → IsInRange (after_receive state byte) }
    ensures drain { (state : State) → IsInRange state → IsInRange (after_drain state) }
    ensures host { (state : State) → IsInRange state → IsInRange (after_host state) }
{}

/// What a read answers is a word.
pub fn a_read_answers_a_word()
    ensures { (state : State) (offset : ℕ) → IsInRange state → value_of state offset < 2 ^ 32 }
{}
