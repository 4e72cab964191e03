//! Laws of the timer: what its ticks come to, over all numbers of ticks and all states.

ghost use Rattle.std.specs.Prelude.{◌≡◌, ◌≤◌, ◌<◌, ◌+◌, ◌-◌, ◌^◌, ℕ, IsTrue, IsFalse, true};
ghost use Rattle.n2_timer.specs.Timer.{State, IsInRange, started, value_of, after_write, tick, ticks};

/// One tick is the step of the definition.
pub fn one_tick_is_a_tick()
    ensures { (state : State) → ticks 1 state ≡ tick state }
{}

/// Some ticks and then some more are as many as both together.
pub fn ticks_add_up()
    ensures { (m n : ℕ) (state : State) → ticks (m + n) state ≡ ticks n (ticks m state) }
{}

/// While RUN is 0 ticks change nothing.
pub fn a_stopped_timer_stands()
    ensures { (n : ℕ) (state : State) → IsFalse state.run → ticks n state ≡ state }
{}

/// While RUN is 1 each tick takes one from the counter, down to 0, and changes nothing else.
pub fn a_running_timer_counts_down()
    ensures { (n : ℕ) (state : State) → IsTrue state.run → n ≤ state.counter
        → ticks n state ≡ record state { counter = state.counter - n } }
{}

/// The tick after the counter came to 0 sets TO and loads the period, and the timer runs on where CONT is 1.
pub fn a_round_ends()
    ensures { (state : State) → IsTrue state.run
        → ticks (state.counter + 1) state ≡ record state { to = true; counter = state.period; run = state.cont } }
{}

/// With CONT and RUN, as many ticks as the period and one more set TO and bring the counter back to the period.
pub fn a_whole_round_comes_back()
    ensures { (state : State) → IsTrue state.run → IsTrue state.cont → state.counter ≡ state.period
        → ticks (state.period + 1) state ≡ record state { to = true } }
{}

/// The period, the snapshot and the counter keep the widths of the register map.
pub fn fields_keep_their_widths()
    ensures start { (period : ℕ) → period < 2 ^ 32 → IsInRange (started period) }
    ensures write { (state : State) (offset word : ℕ) → IsInRange state → word < 2 ^ 32
        → IsInRange (after_write state offset word) }
    ensures ticks { (n : ℕ) (state : State) → IsInRange state → IsInRange (ticks n state) }
{}

/// What a read answers has 16 bits.
pub fn a_read_answers_a_half()
    ensures { (state : State) (offset : ℕ) → IsInRange state → value_of state offset < 2 ^ 16 }
{}
