//! Laws on words, lanes and lines that caches, bus and memories stand on.

ghost use Rattle.std.specs.Prelude.{◌≡◌, ◌≢◌, ℕ, ◌+◌, ◌*◌, ◌/◌, ◌%◌, ◌^◌, ◌<◌, ◌≤◌, ◌⊎◌, [], ◌∷◌, List, IsTrue, length, take, slice_index};
ghost use Rattle.n2_word.specs.declared.Width.{Width};
ghost use Rattle.n2_word.specs.declared.Width.TheVariants.{Byte, Word};
ghost use Rattle.n2_word.specs.Words.{size, is_aligned, lane_of, bytes_of, number_of, put_at, extracted, merged, low_bits};
ghost use Rattle.n2_word.specs.Lines.{without_bypass, line, base_of, set_for, place_in_line, read_in_line, written_in_line};

/// A merged word has the low bytes of the value from the lane on, and the word's own bytes
/// elsewhere. What is read at that place is the value's low bits, and what is read beside it, in
/// whatever width, is as it was. Four bytes merged one by one make their word.
pub fn merged_words()
    ensures bytes { (word lane : ℕ) (width : Width) (value : ℕ) → lane < 4 → IsTrue (is_aligned lane width) → bytes_of (merged word lane width value) ≡ put_at (bytes_of word) lane (take (size width) (bytes_of value)) }
    ensures small { (word lane : ℕ) (width : Width) (value : ℕ) → lane < 4 → IsTrue (is_aligned lane width) → merged word lane width value < 2 ^ 32 }
    ensures there { (word lane : ℕ) (width : Width) (value : ℕ) → lane < 4 → IsTrue (is_aligned lane width) → extracted (merged word lane width value) lane width ≡ low_bits width value }
    ensures beside { (word lane : ℕ) (width : Width) (value lane' : ℕ) (width' : Width) → lane < 4 → IsTrue (is_aligned lane width) → (lane' + size width' ≤ lane) ⊎ (lane + size width ≤ lane') → extracted (merged word lane width value) lane' width' ≡ extracted word lane' width' }
    ensures whole { (word value : ℕ) → value < 2 ^ 32 → merged word 0 Word value ≡ value }
    ensures four { (word a b c d : ℕ) → a < 2 ^ 8 → b < 2 ^ 8 → c < 2 ^ 8 → d < 2 ^ 8 → merged (merged (merged (merged word 0 Byte a) 1 Byte b) 2 Byte c) 3 Byte d ≡ number_of (a ∷ b ∷ c ∷ d ∷ []) }
{}

/// A word is its four bytes, and what is read from it fits its width.
pub fn words_and_bytes()
    ensures bytes { (word : ℕ) → word < 2 ^ 32 → number_of (bytes_of word) ≡ word }
    ensures whole { (word : ℕ) → word < 2 ^ 32 → extracted word 0 Word ≡ word }
    ensures small { (word lane : ℕ) (width : Width) → lane < 4 → IsTrue (is_aligned lane width) → extracted word lane width < 2 ^ (8 * size width) }
{}

/// An address is its line, its place among the words of the line and its lane, and an aligned
/// access stays in its word and so in its line.
pub fn addresses()
    ensures parts { (address : ℕ) → without_bypass address ≡ base_of (line address) + 4 * place_in_line address + lane_of address }
    ensures place { (address : ℕ) → place_in_line address < 8 }
    ensures lane { (address : ℕ) → lane_of address < 4 }
    ensures aligned { (address : ℕ) (width : Width) → is_aligned (lane_of address) width ≡ is_aligned address width }
    ensures within { (address : ℕ) (width : Width) → IsTrue (is_aligned address width) → lane_of address + size width ≤ 4 }
    ensures same_line { (address n : ℕ) (width : Width) → IsTrue (is_aligned address width) → n < size width → line (address + n) ≡ line address }
{}

/// Two lines of one set are one line where they agree in the rest of their numbers.
pub fn lines_of_a_set()
    ensures one { (number other sets : ℕ) → 0 < sets → set_for number sets ≡ set_for other sets → number / sets ≡ other / sets → number ≡ other }
{}

/// A line keeps its eight words, what was stored is loaded again, and what is loaded beside it, in
/// whatever width, is as it was.
pub fn stored_lines()
    ensures words { (words : List ℕ) (address : ℕ) (width : Width) (value : ℕ) → length (written_in_line words address width value) ≡ length words }
    ensures there { (words : List ℕ) (address : ℕ) (width : Width) (value : ℕ) → length words ≡ 8 → IsTrue (is_aligned address width) → read_in_line (written_in_line words address width value) address width ≡ low_bits width value }
    ensures other_word { (words : List ℕ) (address : ℕ) (width : Width) (value other : ℕ) (width' : Width) → place_in_line other ≢ place_in_line address → read_in_line (written_in_line words address width value) other width' ≡ read_in_line words other width' }
    ensures other_lane { (words : List ℕ) (address : ℕ) (width : Width) (value other : ℕ) (width' : Width) → length words ≡ 8 → IsTrue (is_aligned address width) → place_in_line other ≡ place_in_line address → (lane_of other + size width' ≤ lane_of address) ⊎ (lane_of address + size width ≤ lane_of other) → read_in_line (written_in_line words address width value) other width' ≡ read_in_line words other width' }
{}
