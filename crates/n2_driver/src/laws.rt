//! Laws on chosen orders.

ghost use Rattle.std.specs.Prelude.{◌≡◌, ℕ, List, length, IsTrue};
ghost use Rattle.n2_elf.specs.declared.image.Image.{Image};
ghost use Rattle.n2_parts.specs.declared.board.Board.{Board};
ghost use Rattle.n2_parts.specs.Valid.{IsValid};
ghost use Rattle.n2_board.specs.AddressMap.{AddressMap, address_map};
ghost use Rattle.n2_order.specs.Choices.{State};
ghost use Rattle.n2_runs.specs.Machine.{Machine, start, run, is_finished};
ghost use Rattle.n2_runs.specs.Recorded.{Records, journal_of};
ghost use Rattle.n2_driver.specs.Chosen.{chosen_order};
ghost use Rattle.n2_driver.specs.Bounded.{IsBounded};

/// Whatever the order, the run along the chosen order is finished on a valid board with one image for each
/// core: every core has stopped, and the device actor is over. So the run's journal is that of a finished
/// run, by its own order alone.
pub fn chosen_runs()
    ensures finished { (b : Board) (images : List Image) (map : AddressMap) (order : State) → IsValid b → length images ≡ length b.core → IsTrue (is_finished b (run b map (start b images) (chosen_order b map (start b images) order))) }
    ensures records { (b : Board) (images : List Image) (map : AddressMap) (order : State) → IsValid b → map ≡ address_map b images → length images ≡ length b.core → Records b map (start b images) (journal_of (run b map (start b images) (chosen_order b map (start b images) order))) }
{}

/// No run of a valid board has more turns of actors that are not over than `most_turns` says, along whatever
/// list of actors. So what makes such a turn again and again comes to the end of a run.
pub fn runs_are_bounded()
    ensures { (b : Board) (images : List Image) (map : AddressMap) → IsValid b → length images ≡ length b.core → IsBounded b map (start b images) }
{}
