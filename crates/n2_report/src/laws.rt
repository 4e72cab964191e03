//! Laws on reports.

ghost use Rattle.std.specs.Prelude.{◌≡◌, ℕ, List, length, None};
ghost use Rattle.std.specs.List.{AllByRecursion};
ghost use Rattle.n2_elf.specs.declared.image.Image.{Image};
ghost use Rattle.n2_elf.specs.Reading.{IsSized};
ghost use Rattle.n2_parts.specs.declared.board.Board.{Board};
ghost use Rattle.n2_parts.specs.Valid.{IsValid};
ghost use Rattle.n2_board.specs.AddressMap.{AddressMap, address_map};
ghost use Rattle.n2_board.specs.Placement.{open_fault};
ghost use Rattle.n2_runs.specs.Machine.{start, run, acts};
ghost use Rattle.n2_runs.specs.FlatRun.{flat_start, flat};
ghost use Rattle.n2_report.specs.OfFlat.{flat_flat_part};
ghost use Rattle.n2_report.specs.OfRun.{run_flat_part};

/// The flat part of a run's report is that of the flat machine without caches that makes the acts of the
/// run's turns: its registers, its stops and refusals, and the bytes of its UARTs.
pub fn flat_parts()
    ensures { (b : Board) (images : List Image) (map : AddressMap) (order : List ℕ) → IsValid b → map ≡ address_map b images → length images ≡ length b.core → open_fault b images ≡ None → AllByRecursion IsSized images → run_flat_part b map (run b map (start b images) order) ≡ flat_flat_part b (flat b map (flat_start b images) (acts b map (start b images) order)) }
{}
