//! Laws on valid boards.

ghost use Rattle.std.specs.Prelude.{◌≡◌, ℕ, ◌+◌, ◌<◌, ◌≤◌, ◌^◌, ◌↔◌, List, IsTrue, Some, slice_get};
ghost use Rattle.n2_word.specs.Lines.{is_cache_size, line};
ghost use Rattle.n2_parts.specs.declared.board.Board.{Board};
ghost use Rattle.n2_parts.specs.declared.board.CoreRow.{CoreRow as CoreValue};
ghost use Rattle.n2_parts.specs.declared.board.MemoryRow.{MemoryRow as MemoryValue};
ghost use Rattle.n2_parts.specs.declared.board.UartRow.{UartRow as UartValue};
ghost use Rattle.n2_parts.specs.declared.board.PartKind.{PartKind as KindValue};
ghost use Rattle.n2_parts.specs.Parts.{count_of, part_of, rank};
ghost use Rattle.n2_parts.specs.Rules.{bytes_from, is_inside};
ghost use Rattle.n2_parts.specs.MemoryLines.{AreWholeLines, HasLine, line_count, line_place};
ghost use Rattle.n2_parts.specs.Valid.{IsValid, IsSmall, KeepsRules};

/// A valid board has no more parts than the limits say, each of its parts keeps the rules on one
/// part, and two of its cores have two cpuids.
pub fn valid_boards()
    ensures small { (b : Board) → IsValid b → IsSmall b }
    ensures parts { (b : Board) → IsValid b → (kind : KindValue) (i : ℕ) → 0 < rank kind → i < count_of b kind → KeepsRules b (part_of kind i) }
    ensures cpuids { (b : Board) → IsValid b → (i j : ℕ) (a c : CoreValue) → slice_get b.core i ≡ Some a → slice_get b.core j ≡ Some c → a.cpuid ≡ c.cpuid → i ≡ j }
    ensures depths { (b : Board) → IsValid b → (i : ℕ) (row : UartValue) → slice_get b.uart i ≡ Some row → (8 ≤ row.read_depth) × (row.read_depth ≤ 32768) × (8 ≤ row.write_depth) × (row.write_depth ≤ 32768) }
    ensures caches { (b : Board) → IsValid b → (i : ℕ) (row : CoreValue) → slice_get b.core i ≡ Some row → IsTrue (is_cache_size row.dcache) × IsTrue (is_cache_size row.icache) }
{}

/// The memories of a valid board are whole lines, of which there are at most 2^23. A byte below bit
/// 31 is in a memory exactly where its line is in one, all lines of what is inside of a memory are,
/// and two lines at one place are one.
pub fn memory_lines()
    ensures whole { (b : Board) → IsValid b → AreWholeLines b.memory }
    ensures few { (b : Board) → IsValid b → line_count b.memory ≤ 2 ^ 23 }
    ensures byte { (rows : List MemoryValue) (address : ℕ) → AreWholeLines rows → address < 2 ^ 31 → (IsTrue (is_inside rows (bytes_from address 1)) ↔ HasLine rows (line address)) }
    ensures bytes { (rows : List MemoryValue) (address n i : ℕ) → AreWholeLines rows → IsTrue (is_inside rows (bytes_from address n)) → i < n → HasLine rows (line (address + i)) }
    ensures below { (rows : List MemoryValue) (address n : ℕ) → AreWholeLines rows → IsTrue (is_inside rows (bytes_from address n)) → address + n ≤ 2 ^ 31 }
    ensures apart { (rows : List MemoryValue) (l k : ℕ) → HasLine rows l → HasLine rows k → line_place rows l ≡ line_place rows k → l ≡ k }
{}
