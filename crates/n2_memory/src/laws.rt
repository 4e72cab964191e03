//! Laws on the memories of a board: on their lines, on stores, and on the start. That two lines at one
//! place are one line is a law of `n2_parts`.

ghost use Rattle.std.specs.Prelude.{◌≡◌, ◌≢◌, ℕ, ◌+◌, ◌*◌, ◌^◌, ◌<◌, ◌≤◌, ◌⊎◌, List, IsTrue, length, slice_index};
ghost use Rattle.std.specs.List.{AllByRecursion};
ghost use Rattle.n2_word.specs.declared.Width.{Width};
ghost use Rattle.n2_word.specs.declared.Width.TheVariants.{Byte};
ghost use Rattle.n2_word.specs.Words.{size, is_aligned, low_bits};
ghost use Rattle.n2_word.specs.Lines.{without_bypass, line, read_in_line};
ghost use Rattle.n2_elf.specs.declared.image.Image.{Image};
ghost use Rattle.n2_elf.specs.Reading.{IsSized};
ghost use Rattle.n2_parts.specs.declared.board.Board.{Board};
ghost use Rattle.n2_parts.specs.declared.board.MemoryRow.{MemoryRow as MemoryValue};
ghost use Rattle.n2_parts.specs.Valid.{IsValid};
ghost use Rattle.n2_parts.specs.MemoryLines.{HasLine};
ghost use Rattle.n2_memory.specs.Memories.{Contents, IsFull, AreWords, first_word, line_at, with_line, read_at, written_at};
ghost use Rattle.n2_memory.specs.Start.{AreInside, start, start_byte};

/// A line is eight words that stand together. A line that was put is that line, is read in loads, and
/// leaves every other line.
pub fn lines()
    ensures words { (m : Contents) (l i : ℕ) → i < 8 → slice_index (line_at m l) i ≡ slice_index m.words (first_word m l + i) }
    ensures eight { (m : Contents) (l : ℕ) → IsFull m → HasLine m.memories l → length (line_at m l) ≡ 8 }
    ensures there { (m : Contents) (l : ℕ) (words : List ℕ) → IsFull m → HasLine m.memories l → length words ≡ 8 → line_at (with_line m l words) l ≡ words }
    ensures read { (m : Contents) (address : ℕ) (width : Width) (words : List ℕ) → IsFull m → HasLine m.memories (line address) → length words ≡ 8 → read_at (with_line m (line address) words) address width ≡ read_in_line words address width }
    ensures other { (m : Contents) (l k : ℕ) (words : List ℕ) → IsFull m → HasLine m.memories l → HasLine m.memories k → k ≢ l → length words ≡ 8 → line_at (with_line m l words) k ≡ line_at m k }
    ensures full { (m : Contents) (l : ℕ) (words : List ℕ) → IsFull m → HasLine m.memories l → length words ≡ 8 → IsFull (with_line m l words) }
{}

/// What was stored is read, what is beside it, in whatever width, is as it was, and so is every other
/// line.
pub fn stores()
    ensures there { (m : Contents) (address : ℕ) (width : Width) (value : ℕ) → IsFull m → HasLine m.memories (line address) → IsTrue (is_aligned address width) → read_at (written_at m address width value) address width ≡ low_bits width value }
    ensures beside { (m : Contents) (address : ℕ) (width : Width) (value other : ℕ) (width' : Width) → IsFull m → HasLine m.memories (line address) → HasLine m.memories (line other) → IsTrue (is_aligned address width) → (without_bypass other + size width' ≤ without_bypass address) ⊎ (without_bypass address + size width ≤ without_bypass other) → read_at (written_at m address width value) other width' ≡ read_at m other width' }
    ensures lines { (m : Contents) (address : ℕ) (width : Width) (value k : ℕ) → IsFull m → HasLine m.memories (line address) → HasLine m.memories k → k ≢ line address → line_at (written_at m address width value) k ≡ line_at m k }
    ensures full { (m : Contents) (address : ℕ) (width : Width) (value : ℕ) → IsFull m → HasLine m.memories (line address) → IsFull (written_at m address width value) }
{}

/// Memories that hold words are read in words, and hold words again after words were put or stored.
pub fn words()
    ensures line { (m : Contents) (l : ℕ) → AreWords m.words → AreWords (line_at m l) }
    ensures read { (m : Contents) (address : ℕ) (width : Width) → IsTrue (is_aligned address width) → read_at m address width < 2 ^ (8 * size width) }
    ensures put { (m : Contents) (l : ℕ) (words : List ℕ) → AreWords m.words → AreWords words → AreWords (with_line m l words).words }
    ensures stored { (m : Contents) (address : ℕ) (width : Width) (value : ℕ) → AreWords m.words → IsTrue (is_aligned address width) → AreWords (written_at m address width value).words }
    ensures start { (memories : List MemoryValue) (images : List Image) → AreWords (start memories images).words }
{}

/// The byte at an address at the start is that of the last segment that covers it, and 0 where none
/// does. The memories are those that were asked for.
pub fn starts()
    ensures byte { (b : Board) (images : List Image) (address : ℕ) → IsValid b → AreInside b.memory images → AllByRecursion IsSized images → address < 2 ^ 31 → HasLine b.memory (line address) → read_at (start b.memory images) address Byte ≡ start_byte images address }
    ensures memories { (memories : List MemoryValue) (images : List Image) → (start memories images).memories ≡ memories }
    ensures full { (b : Board) (images : List Image) → IsValid b → AreInside b.memory images → AllByRecursion IsSized images → IsFull (start b.memory images) }
{}
