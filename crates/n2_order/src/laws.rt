//! Laws on the chosen order.

ghost use Rattle.std.specs.Prelude.{◌≡◌, ◌↔◌, ℕ, ◌/◌, ◌%◌, ◌<◌, List, Bool, true, false, All, Some, None, length, map, replicate, slice_get, slice_index};
ghost use Rattle.rand_core.specs.Pcg32Seed.{pcg32_seed};
ghost use Rattle.rand_pcg.specs.Pcg.{pcg32_of_seed};
ghost use Rattle.n2_order.specs.Orders.{ByRounds, BySeed, ByList};
ghost use Rattle.n2_order.specs.Choices.{State, start_of, next_of, chosen, words_of};

/// Wherever an order stands, the actor that it picks is not over, and it picks none exactly where all
/// are over.
pub fn picked_actors()
    ensures running { (state after : State) (over : List Bool) (actor : ℕ) → next_of state over ≡ Some (actor, after) → slice_get over actor ≡ Some false }
    ensures none { (state : State) (over : List Bool) → (next_of state over ≡ None) ↔ All (λ o. o ≡ true) over }
{}

/// While nobody is over, turn number k of rounds is that of actor k / Q in the cycle; a turn of a seed
/// is that of its word modulo the number of actors; and a list is gone through actor by actor.
pub fn while_nobody_is_over()
    ensures rounds { (turns actors n k : ℕ) (list : List ℕ) → 0 < turns → 0 < actors → k < n → slice_index (chosen (replicate n (replicate actors false)) (start_of (ByRounds turns) list)) k ≡ k / turns % actors }
    ensures seed { (seed actors n : ℕ) (list : List ℕ) → 0 < actors → chosen (replicate n (replicate actors false)) (start_of (BySeed seed) list) ≡ map (λ word. word % actors) (words_of n (pcg32_of_seed (pcg32_seed 16 seed))) }
    ensures list { (file list : List ℕ) (actors : ℕ) → All (λ actor. actor < actors) list → chosen (replicate (length list) (replicate actors false)) (start_of (ByList file) list) ≡ list }
{}
