//! Laws on the text of a journal: what is written is read, and what is read is spelled so.

ghost use Rattle.std.specs.Prelude.{◌≡◌, ℕ, List, Ok};
ghost use Rattle.n2_journal.specs.Journals.{Content, IsWithinLimits, HasOrder};
ghost use Rattle.n2_journal.specs.Texts.{journal_text};
ghost use Rattle.n2_journal.specs.Reading.{read as reading_of};

/// The text of a journal within the limits is read as that journal, and a text that is read as a
/// journal is that journal's text, which is within the limits.
pub fn texts()
    ensures read { (j : Content) → IsWithinLimits j → reading_of (journal_text j) ≡ Ok j }
    ensures spelled { (text : List ℕ) (j : Content) → reading_of text ≡ Ok j → text ≡ journal_text j }
    ensures within { (text : List ℕ) (j : Content) → reading_of text ≡ Ok j → IsWithinLimits j }
{}

/// A journal within the limits has an order.
pub fn orders()
    ensures { (j : Content) → IsWithinLimits j → HasOrder j }
{}
