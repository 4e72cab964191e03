//! A cache as a finite map from the numbers of lines: what is held after each call.

ghost use Rattle.std.specs.Prelude.{◌≡◌, ◌≢◌, ℕ, ◌<◌, ◌/◌, ◌==◌, if◌then◌else◌, List, Option, Some, None, option_map, is_some, slice_set, IsTrue, length, true, false};
ghost use Rattle.n2_word.specs.declared.Width.{Width};
ghost use Rattle.n2_word.specs.Lines.{line, set_for, read_in_line};
ghost use Rattle.n2_dcache.specs.declared.Held.{Held};
ghost use Rattle.n2_dcache.specs.Cache.{slot_at, own_set, is_line, is_dirty, words_of, has_line, held_line, loaded, found, stored_in, stored, stored_if_held, clean_line, filled, set_dropped, line_dropped, opened, IsPlaced};

/// A line that is held stands in its own set and is found there; it stands in no other set, and two
/// lines of one set are not held together.
pub fn one_line_a_set()
    ensures held { (slots : List (Option Held)) (sets number : ℕ) (held : Held) → length slots ≡ sets → held_line slots number ≡ Some held → slot_at slots (set_for number sets) ≡ Some held }
    ensures its_number { (slots : List (Option Held)) (number : ℕ) (held : Held) → held_line slots number ≡ Some held → held.line ≡ number }
    ensures found { (slots : List (Option Held)) (set : ℕ) (held : Held) → IsPlaced slots → slot_at slots set ≡ Some held → held_line slots held.line ≡ Some held }
    ensures has { (slots : List (Option Held)) (number : ℕ) → is_some (held_line slots number) ≡ has_line slots number }
    ensures one_set { (slots : List (Option Held)) (a b : ℕ) (held other : Held) → IsPlaced slots → slot_at slots a ≡ Some held → slot_at slots b ≡ Some other → held.line ≡ other.line → a ≡ b }
    ensures one_line { (slots : List (Option Held)) (sets number other : ℕ) (held beside : Held) → length slots ≡ sets → held_line slots number ≡ Some held → held_line slots other ≡ Some beside → set_for number sets ≡ set_for other sets → number ≡ other }
{}

/// What each definition says of a cache of so many sets.
pub fn of_so_many_sets()
    ensures own { (slots : List (Option Held)) (sets number : ℕ) → length slots ≡ sets → own_set slots number ≡ set_for number sets }
    ensures placed { (slots : List (Option Held)) (sets set : ℕ) (held : Held) → length slots ≡ sets → IsPlaced slots → slot_at slots set ≡ Some held → set_for held.line sets ≡ set }
    ensures has { (slots : List (Option Held)) (sets number : ℕ) → length slots ≡ sets → has_line slots number ≡ is_line (slot_at slots (set_for number sets)) number }
    ensures loaded { (slots : List (Option Held)) (sets address : ℕ) (width : Width) → length slots ≡ sets → loaded slots address width ≡ read_in_line (words_of (slot_at slots (set_for (line address) sets))) address width }
    ensures stored { (slots : List (Option Held)) (sets address : ℕ) (width : Width) (value : ℕ) → length slots ≡ sets → let set = set_for (line address) sets in stored slots address width value ≡ slice_set slots set (option_map (stored_in address width value) (slot_at slots set)) }
    ensures filled { (slots : List (Option Held)) (sets number : ℕ) (words : List ℕ) → length slots ≡ sets → filled slots number words ≡ slice_set slots (set_for number sets) (Some (clean_line number words)) }
    ensures line_dropped { (slots : List (Option Held)) (sets number : ℕ) → length slots ≡ sets → line_dropped slots number ≡ (if has_line slots number then set_dropped slots (set_for number sets) else slots) }
{}

/// A load that looks for its line finds what a load of a held line gives, and finds nothing exactly
/// where the line is not held. A store that looks for its line is one into a held line, or none.
pub fn one_look()
    ensures found { (slots : List (Option Held)) (address : ℕ) (width : Width) → IsTrue (has_line slots (line address)) → found slots address width ≡ Some (loaded slots address width) }
    ensures none { (slots : List (Option Held)) (address : ℕ) (width : Width) → has_line slots (line address) ≡ false → found slots address width ≡ None }
    ensures stored { (slots : List (Option Held)) (address : ℕ) (width : Width) (value : ℕ) → IsTrue (has_line slots (line address)) → stored_if_held slots address width value ≡ stored slots address width value }
    ensures kept { (slots : List (Option Held)) (address : ℕ) (width : Width) (value : ℕ) → has_line slots (line address) ≡ false → stored_if_held slots address width value ≡ slots }
{}

/// After a fill the line is held, clean and with its words; no other line of its set is held, and
/// lines of other sets are as they were.
pub fn after_fill()
    ensures there { (slots : List (Option Held)) (number : ℕ) (words : List ℕ) → 0 < length slots → held_line (filled slots number words) number ≡ Some (clean_line number words) }
    ensures same_set { (slots : List (Option Held)) (sets number : ℕ) (words : List ℕ) (other : ℕ) → length slots ≡ sets → 0 < sets → other ≢ number → set_for other sets ≡ set_for number sets → held_line (filled slots number words) other ≡ None }
    ensures other_sets { (slots : List (Option Held)) (sets number : ℕ) (words : List ℕ) (other : ℕ) → length slots ≡ sets → set_for other sets ≢ set_for number sets → held_line (filled slots number words) other ≡ held_line slots other }
{}

/// After a store the line is dirty and has the new words, and every other line is as it was.
pub fn after_store()
    ensures there { (slots : List (Option Held)) (address : ℕ) (width : Width) (value : ℕ) → IsTrue (has_line slots (line address)) → held_line (stored slots address width value) (line address) ≡ option_map (stored_in address width value) (held_line slots (line address)) }
    ensures dirty { (slots : List (Option Held)) (address : ℕ) (width : Width) (value : ℕ) → IsTrue (has_line slots (line address)) → is_dirty (held_line (stored slots address width value) (line address)) ≡ true }
    ensures others { (slots : List (Option Held)) (address : ℕ) (width : Width) (value other : ℕ) → IsTrue (has_line slots (line address)) → other ≢ line address → held_line (stored slots address width value) other ≡ held_line slots other }
{}

/// After a set is emptied none of its lines is held, and after a line is dropped that line alone is
/// not held; every other line is as it was.
pub fn after_drop()
    ensures set { (slots : List (Option Held)) (sets set other : ℕ) → length slots ≡ sets → set < sets → held_line (set_dropped slots set) other ≡ (if set_for other sets == set then None else held_line slots other) }
    ensures line { (slots : List (Option Held)) (number other : ℕ) → held_line (line_dropped slots number) other ≡ (if other == number then None else held_line slots other) }
{}

/// An empty cache holds no line.
pub fn after_open()
    ensures sets { (bytes : ℕ) → length (opened bytes) ≡ bytes / 32 }
    ensures nothing { (bytes number : ℕ) → held_line (opened bytes) number ≡ None }
{}

/// Every line stays in its own set with its eight words, from an empty cache on.
pub fn every_line_in_its_set()
    ensures opened_cache { (bytes : ℕ) → IsPlaced (opened bytes) }
    ensures fill { (slots : List (Option Held)) (number : ℕ) (words : List ℕ) → IsPlaced slots → length words ≡ 8 → IsPlaced (filled slots number words) }
    ensures store { (slots : List (Option Held)) (address : ℕ) (width : Width) (value : ℕ) → IsPlaced slots → IsPlaced (stored slots address width value) }
    ensures drop_set { (slots : List (Option Held)) (set : ℕ) → IsPlaced slots → IsPlaced (set_dropped slots set) }
    ensures drop_line { (slots : List (Option Held)) (number : ℕ) → IsPlaced slots → IsPlaced (line_dropped slots number) }
{}

/// A cache keeps its number of sets.
pub fn as_many_sets()
    ensures fill { (slots : List (Option Held)) (number : ℕ) (words : List ℕ) → length (filled slots number words) ≡ length slots }
    ensures store { (slots : List (Option Held)) (address : ℕ) (width : Width) (value : ℕ) → length (stored slots address width value) ≡ length slots }
    ensures drop_set { (slots : List (Option Held)) (set : ℕ) → length (set_dropped slots set) ≡ length slots }
    ensures drop_line { (slots : List (Option Held)) (number : ℕ) → length (line_dropped slots number) ≡ length slots }
{}
