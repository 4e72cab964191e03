//! One run on a small board, and one example of each row that a replay of its journal names, computed from
//! the definitions.

ghost use Rattle.std.specs.Prelude.{◌≡◌, [], ◌∷◌, true, Some, None};
ghost use Rattle.n2_runs.specs.Machine.{is_finished};
ghost use Rattle.n2_runs.specs.Recorded.{journal_of};
ghost use Rattle.n2_runs.specs.Examples.{board, turns, fill, sends, line, entries, with_tails, named};

/// A core that sends two bytes to a UART and meets `break` makes seven turns, of which three make a
/// transfer: its code line and the two bytes.
pub fn run()
    ensures journal { journal_of (turns 7) ≡ with_tails entries (1 ∷ []) }
    ensures finished { is_finished board (turns 7) ≡ true }
    ensures bytes { (turns 7).world.book.sent ≡ (0x68 ∷ 0x69 ∷ []) ∷ [] }
{}

/// Its journal replays. With another word in the line of row 2, row 2 is named; with another count in row 3
/// that row; with another byte in row 4 that row. Row 5 is the tail's: too short, too long, or missing; a
/// surplus tail is row 6. Without the last entry the tail stands in row 4, after which the core goes on.
pub fn replays()
    ensures whole { named entries (1 ∷ []) ≡ None }
    ensures another_word { named (fill (0x02000074 ∷ 0x00801a05 ∷ 0x40800035 ∷ 0x00801a44 ∷ 0x40800035 ∷ 0x003da03a ∷ 0 ∷ 0 ∷ []) ∷ sends 2 0x68 ∷ sends 1 0x69 ∷ []) (1 ∷ []) ≡ Some 2 }
    ensures another_count { named (fill line ∷ sends 1 0x68 ∷ sends 1 0x69 ∷ []) (1 ∷ []) ≡ Some 3 }
    ensures another_byte { named (fill line ∷ sends 2 0x68 ∷ sends 1 0x68 ∷ []) (1 ∷ []) ≡ Some 4 }
    ensures entry_missing { named (fill line ∷ sends 2 0x68 ∷ []) (1 ∷ []) ≡ Some 4 }
    ensures tail_too_short { named entries (0 ∷ []) ≡ Some 5 }
    ensures tail_too_long { named entries (2 ∷ []) ≡ Some 5 }
    ensures tail_missing { named entries [] ≡ Some 5 }
    ensures tail_surplus { named entries (1 ∷ 0 ∷ []) ≡ Some 6 }
{}
