//! Laws on the instruction table.

ghost use Rattle.std.specs.Prelude.{◌≡◌, ◌<◌, ◌^◌, ℕ, IsTrue, Some};
ghost use Rattle.n2_insn.specs.declared.Insn.{Insn};
ghost use Rattle.n2_insn.specs.Table.{row, word_of, has_number, table_insn, is_valid, has_half};

/// The word of a valid instruction is of 32 bits and stands for that instruction.
#[tactic(auto, unfolding(crate::specs::Table::word_of))]
pub fn every_instruction()
    ensures small { (insn : Insn) → IsTrue (is_valid insn) → IsTrue (has_half insn) → word_of insn < 2 ^ 32 }
    ensures again { (insn : Insn) → IsTrue (is_valid insn) → IsTrue (has_half insn) → table_insn (word_of insn) ≡ Some insn }
{}

/// What a word of the table stands for is valid and has the word's number, and the word that is
/// written of it stands for the same.
pub fn every_word()
    ensures number { (word : ℕ) (insn : Insn) → table_insn word ≡ Some insn → IsTrue (has_number word (row insn)) }
    ensures valid { (word : ℕ) (insn : Insn) → word < 2 ^ 32 → table_insn word ≡ Some insn → IsTrue (is_valid insn) }
    ensures half { (word : ℕ) (insn : Insn) → table_insn word ≡ Some insn → IsTrue (has_half insn) }
    ensures again { (word : ℕ) (insn : Insn) → word < 2 ^ 32 → table_insn word ≡ Some insn → table_insn (word_of insn) ≡ Some insn }
{}
