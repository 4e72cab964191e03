//! Laws on the text of words.

ghost use Rattle.std.specs.Prelude.{◌≡◌, ◌<◌, ◌^◌, ℕ, [], ◌∷◌, Ok, Some, IfSome};
ghost use Rattle.n2_insn.specs.declared.Insn.{Insn};
ghost use Rattle.n2_insn.specs.Table.{table_insn, word_of};
ghost use Rattle.n2_statement.specs.Values.{Names, statement_words};
ghost use Rattle.n2_dis.specs.Texts.{line_of, place_of};

/// The text of a word of the instruction table, read by the assembler as a statement at the address
/// that it was printed for, has the word of the table's instruction: bits that are none of its
/// fields are gone. A place that is printed must be below 2^31, since a branch that wraps round
/// the end of memory cannot be written as a statement.
pub fn every_line()
    ensures again { (names : Names) (word : ℕ) (here : ℕ) (insn : Insn) → word < 2 ^ 32 → here < 2 ^ 31 → table_insn word ≡ Some insn → IfSome (place_of here insn) (λ place. place < 2 ^ 31) → statement_words names here (line_of word here) ≡ Ok (word_of insn ∷ []) }
{}
