//! Laws on journals: what a run wrote replays.

ghost use Rattle.std.specs.Prelude.{◌≡◌, ◌≢◌, ◌↔◌, ℕ, ◌+◌, ◌≤◌, List, [], ◌∷◌, ◌++◌, length, true, IsTrue, None, Ok, Err};
ghost use Rattle.std.specs.List.{AllByRecursion};
ghost use Rattle.n2_elf.specs.declared.image.Image.{Image};
ghost use Rattle.n2_elf.specs.Reading.{IsSized};
ghost use Rattle.n2_parts.specs.declared.board.Board.{Board};
ghost use Rattle.n2_parts.specs.Valid.{IsValid};
ghost use Rattle.n2_board.specs.AddressMap.{AddressMap, address_map};
ghost use Rattle.n2_board.specs.Placement.{open_fault};
ghost use Rattle.n2_journal.specs.declared.entry.Entry.{Entry as EntryValue};
ghost use Rattle.n2_journal.specs.Journals.{Content, HasOrder};
ghost use Rattle.n2_runs.specs.Machine.{Machine, start, run, acts, is_finished};
ghost use Rattle.n2_runs.specs.FlatRun.{flat_start, flat};
ghost use Rattle.n2_runs.specs.Recorded.{journal_of, actors_of, acts_by, HasCounts, Records};
ghost use Rattle.n2_runs.specs.Same.{same_entry};
ghost use Rattle.n2_runs.specs.Replay.{Differs, quiet_turns, replayed};

/// What a run wrote replays. The run along the order that its journal tells comes to the same state of
/// the machine: what cores share, the cores, the entries and the script that is left. So the journal of
/// each finished run is that of a finished run, by its own order alone; and a journal determines the state:
/// two runs that wrote the same journal came to the same one.
pub fn finished_runs()
    ensures state { (b : Board) (images : List Image) (map : AddressMap) (order : List ℕ) → IsValid b → map ≡ address_map b images → length images ≡ length b.core → run b map (start b images) (actors_of (journal_of (run b map (start b images) order))) ≡ run b map (start b images) order }
    ensures one_state { (b : Board) (images : List Image) (map : AddressMap) (order other : List ℕ) → IsValid b → map ≡ address_map b images → length images ≡ length b.core → journal_of (run b map (start b images) order) ≡ journal_of (run b map (start b images) other) → run b map (start b images) order ≡ run b map (start b images) other }
    ensures records { (b : Board) (images : List Image) (map : AddressMap) (order : List ℕ) → IsValid b → map ≡ address_map b images → length images ≡ length b.core → IsTrue (is_finished b (run b map (start b images) order)) → Records b map (start b images) (journal_of (run b map (start b images) order)) }
{}

/// A run and the run along its journal's order differ in how turns of different actors stand to each other
/// alone: each actor makes the same acts in the same order.
pub fn same_acts()
    ensures { (b : Board) (images : List Image) (map : AddressMap) (order : List ℕ) (actor : ℕ) → IsValid b → map ≡ address_map b images → length images ≡ length b.core → acts_by b actor (acts b map (start b images) (actors_of (journal_of (run b map (start b images) order)))) ≡ acts_by b actor (acts b map (start b images) order) }
{}

/// A run and the run along its journal's order have the same flat part: the flat machine over the acts
/// of either comes to the same registers, stops and past events of every core, and to the same book of
/// devices, bytes of UARTs and holders.
pub fn same_flat_part()
    ensures fronts { (b : Board) (images : List Image) (map : AddressMap) (order : List ℕ) → IsValid b → map ≡ address_map b images → length images ≡ length b.core → open_fault b images ≡ None → AllByRecursion IsSized images → (flat b map (flat_start b images) (acts b map (start b images) (actors_of (journal_of (run b map (start b images) order))))).cores ≡ (flat b map (flat_start b images) (acts b map (start b images) order)).cores }
    ensures book { (b : Board) (images : List Image) (map : AddressMap) (order : List ℕ) → IsValid b → map ≡ address_map b images → length images ≡ length b.core → open_fault b images ≡ None → AllByRecursion IsSized images → (flat b map (flat_start b images) (acts b map (start b images) (actors_of (journal_of (run b map (start b images) order))))).world.book ≡ (flat b map (flat_start b images) (acts b map (start b images) order)).world.book }
{}

/// The counts of the journal of every run are within the limits of one that has a text: at most 1,000,000
/// entries, a tail for each core, at most 1,000,000,000 turns in each count, and each event by the device
/// actor alone. So its order can be told.
pub fn counts()
    ensures limits { (b : Board) (images : List Image) (map : AddressMap) (order : List ℕ) → IsValid b → length images ≡ length b.core → HasCounts (length b.core) (journal_of (run b map (start b images) order)) }
    ensures order { (b : Board) (images : List Image) (map : AddressMap) (order : List ℕ) → IsValid b → length images ≡ length b.core → HasOrder (journal_of (run b map (start b images) order)) }
{}

/// The test of two entries tells whether they are equal.
pub fn same_entries()
    ensures { (entry other : EntryValue) → same_entry entry other ≡ true ↔ entry ≡ other }
{}

/// Replay finds what is no journal of a finished run. It comes to the end exactly where the journal is
/// that of a finished run, and then the machine is the one after the run along the journal's order; so
/// the journal of each finished run replays to that run's end.
pub fn replays()
    ensures records { (b : Board) (images : List Image) (map : AddressMap) (j : Content) (m : Machine) → length images ≡ length b.core → replayed b map (start b images) j ≡ Ok m ↔ (Records b map (start b images) j × (m ≡ run b map (start b images) (actors_of j))) }
    ensures finished { (b : Board) (images : List Image) (map : AddressMap) (order : List ℕ) → IsValid b → map ≡ address_map b images → length images ≡ length b.core → IsTrue (is_finished b (run b map (start b images) order)) → replayed b map (start b images) (journal_of (run b map (start b images) order)) ≡ Ok (run b map (start b images) order) }
{}

/// The row that a replay names is the first that differs. Where it is an entry's, the entries before it
/// are those of a run, and no run along any list of actors has them and this one too. Where it is a tail's,
/// no journal of a finished run has these entries, the tails before it and this one too.
pub fn first_row()
    ensures before { (b : Board) (images : List Image) (map : AddressMap) (j : Content) (why : Differs) (before after : List EntryValue) (entry : EntryValue) → length images ≡ length b.core → replayed b map (start b images) j ≡ Err why → j.entries ≡ before ++ entry ∷ after → why.row ≡ length before + 2 → (run b map (start b images) (actors_of (record { entries = before; tails = [] }))).entries ≡ before }
    ensures entry { (b : Board) (images : List Image) (map : AddressMap) (j : Content) (why : Differs) (before after : List EntryValue) (entry : EntryValue) → length images ≡ length b.core → replayed b map (start b images) j ≡ Err why → j.entries ≡ before ++ entry ∷ after → why.row ≡ length before + 2 → IsValid b → map ≡ address_map b images → (order : List ℕ) (more : List EntryValue) → (run b map (start b images) order).entries ≢ before ++ entry ∷ more }
    ensures tail { (b : Board) (images : List Image) (map : AddressMap) (j : Content) (why : Differs) (before after : List ℕ) (tail : ℕ) → length images ≡ length b.core → replayed b map (start b images) j ≡ Err why → j.tails ≡ before ++ tail ∷ after → why.row ≡ length j.entries + 2 + length before → (k : Content) → Records b map (start b images) k → (more : List ℕ) → k ≢ record { entries = j.entries; tails = before ++ tail ∷ more } }
{}

/// No row of a replay makes more turns without a transfer than the board allows, whatever it claims: of
/// those that an entry or a tail counts at most the board's number agree, and the first that does not is
/// the last one that is looked at.
pub fn replay_is_bounded()
    ensures { (b : Board) (images : List Image) (map : AddressMap) (order : List ℕ) (actor n : ℕ) (m : Machine) → IsValid b → length images ≡ length b.core → quiet_turns b map actor n (run b map (start b images) order) ≡ Ok m → n ≤ b.turns }
{}
