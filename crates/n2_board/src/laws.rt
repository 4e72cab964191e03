//! Laws on layouts, guards and their owners.

ghost use Rattle.std.specs.Prelude.{◌≡◌, ℕ, ◌<◌, ◌^◌, ◌↔◌, List, length, IsTrue, None, Some, Ok, slice_get};
ghost use Rattle.std.specs.List.{AllByRecursion};
ghost use Rattle.n2_word.specs.declared.Width.{Width as WidthValue};
ghost use Rattle.n2_word.specs.Lines.{line};
ghost use Rattle.n2_elf.specs.declared.image.Image.{Image as ImageValue};
ghost use Rattle.n2_parts.specs.declared.board.Board.{Board};
ghost use Rattle.n2_parts.specs.declared.board.CoreRow.{CoreRow as CoreValue};
ghost use Rattle.n2_parts.specs.MemoryLines.{HasLine};
ghost use Rattle.n2_parts.specs.Rules.{bytes_from, is_inside};
ghost use Rattle.n2_parts.specs.Valid.{IsValid};
ghost use Rattle.n2_board.specs.declared.access.Route.{Route as RouteValue};
ghost use Rattle.n2_board.specs.declared.access.Direction.{Direction as DirectionValue};
ghost use Rattle.n2_board.specs.declared.access.Target.TheVariants as targets;
ghost use Rattle.n2_board.specs.declared.classes.Class.TheVariants as classes;
ghost use Rattle.n2_board.specs.declared.places.Place.TheVariants as places;
ghost use Rattle.n2_board.specs.Classes.{NamesParts};
ghost use Rattle.n2_board.specs.AddressMap.{address_map, class_of, place};
ghost use Rattle.n2_board.specs.Placement.{open_fault};
ghost use Rattle.n2_board.specs.Access.{data_target, fetch_violation};
ghost use Rattle.n2_board.specs.declared.guards.Guard.{Guard as GuardValue};
ghost use Rattle.n2_board.specs.declared.guards.Holder.{Holder as HolderValue};
ghost use Rattle.n2_board.specs.Guards.{same_guard, owns_mutex, owns_region};

/// An address below bit 31 is one of memory exactly where a memory of the board has its line. A load or
/// store that reaches memory reaches such a line, and so does a fetch that is not cut off, whose line is
/// code.
pub fn in_memory()
    ensures place { (b : Board) (images : List ImageValue) → IsValid b → (address : ℕ) → address < 2 ^ 31 → ((place (address_map b images) address ≡ places.Memory) ↔ HasLine b.memory (line address)) }
    ensures data { (b : Board) (images : List ImageValue) → IsValid b → (core address : ℕ) (width : WidthValue) (route : RouteValue) (direction : DirectionValue) → data_target (address_map b images) core address width route direction ≡ Ok targets.Memory → HasLine b.memory (line address) }
    ensures fetch { (b : Board) (images : List ImageValue) → IsValid b → (address : ℕ) → fetch_violation (address_map b images) address ≡ None → HasLine b.memory (line address) × (class_of (address_map b images) (line address) ≡ classes.Code) }
{}

/// Where images fit a board, each segment of each is inside one memory.
pub fn fitting_images()
    ensures { (b : Board) (images : List ImageValue) → open_fault b images ≡ None → AllByRecursion (λ image. AllByRecursion (λ s. IsTrue (is_inside b.memory (bytes_from s.at s.size))) image.segments) images }
{}

/// The class of each line names parts of the board.
pub fn classes()
    ensures { (b : Board) (images : List ImageValue) → IsValid b → length images ≡ length b.core → (number : ℕ) → NamesParts b (class_of (address_map b images) number) }
{}

/// Two guards are one exactly where the test says so, and a mutex has at most one owner, by cpuid.
pub fn guards()
    ensures equal { (g h : GuardValue) → IsTrue (same_guard g h) → g ≡ h }
    ensures itself { (g : GuardValue) → IsTrue (same_guard g g) }
    ensures mutex { (register a b : ℕ) → IsTrue (owns_mutex register a) → IsTrue (owns_mutex register b) → a ≡ b }
{}

/// Two cores of a valid board never own one mutex, whatever its register holds, nor one region.
pub fn one_owner()
    ensures mutex { (b : Board) → IsValid b → (i j : ℕ) (a c : CoreValue) → slice_get b.core i ≡ Some a → slice_get b.core j ≡ Some c → (register : ℕ) → IsTrue (owns_mutex register a.cpuid) → IsTrue (owns_mutex register c.cpuid) → i ≡ j }
    ensures region { (holder : HolderValue) (i j : ℕ) → IsTrue (owns_region holder i) → IsTrue (owns_region holder j) → i ≡ j }
{}
