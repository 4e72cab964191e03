//! Laws on runs.

pub mod examples;
pub mod journals;
pub mod turns;

ghost use Rattle.std.specs.Prelude.{◌≡◌, ℕ, List, length, None};
ghost use Rattle.std.specs.List.{AllByRecursion};
ghost use Rattle.n2_elf.specs.declared.image.Image.{Image};
ghost use Rattle.n2_elf.specs.Reading.{IsSized};
ghost use Rattle.n2_parts.specs.declared.board.Board.{Board};
ghost use Rattle.n2_parts.specs.Valid.{IsValid};
ghost use Rattle.n2_board.specs.AddressMap.{AddressMap, address_map};
ghost use Rattle.n2_board.specs.Placement.{open_fault};
ghost use Rattle.n2_memory.specs.Start as first;
ghost use Rattle.n2_memory.specs.Memories.{Contents};
ghost use Rattle.n2_runs.specs.Machine.{Machine, start, turn, run, acts};
ghost use Rattle.n2_runs.specs.FlatRun.{Flat, flat_start, flat};
ghost use Rattle.n2_runs.specs.Agree.{Agree};
ghost use Rattle.n2_runs.specs.Along.{IsAlong, after};

/// Caches are sequential: on a valid board with images that load, and along every list of actors, the
/// machine with caches agrees with the flat machine that makes the acts of its turns. A list that goes on
/// is a list too, so they agree after each turn.
pub fn caches_are_sequential()
    ensures { (b : Board) (images : List Image) (map : AddressMap) (order : List ℕ) → IsValid b → length images ≡ length b.core → open_fault b images ≡ None → AllByRecursion IsSized images → map ≡ address_map b images → Agree b map (first.start b.memory images) (run b map (start b images) order) (flat b map (flat_start b images) (acts b map (start b images) order)) }
{}

/// What each turn keeps: it holds at the start, it holds after a turn of any actor beside the act of that
/// turn where it held before, and where it holds the machines agree.
pub fn along_a_run()
    ensures start { (b : Board) (images : List Image) (map : AddressMap) → IsValid b → length images ≡ length b.core → open_fault b images ≡ None → AllByRecursion IsSized images → IsAlong b map (first.start b.memory images) (start b images) (flat_start b images) }
    ensures turn { (b : Board) (images : List Image) (map : AddressMap) (first : Contents) (m : Machine) (f : Flat) (actor : ℕ) → IsValid b → map ≡ address_map b images → IsAlong b map first m f → IsAlong b map first (turn b map m actor).machine (after b map f (turn b map m actor).act) }
    ensures agrees { (b : Board) (map : AddressMap) (first : Contents) (m : Machine) (f : Flat) → IsAlong b map first m f → Agree b map first m f }
{}
