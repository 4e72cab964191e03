//! Laws on texts and their boards.

ghost use Rattle.std.specs.Prelude.{◌≡◌, ◌≢◌, ◌↔◌, ℕ, List, None, Err};
ghost use Rattle.n2_boardtext.specs.declared.fault.TextFault.TheVariants as faults;
ghost use Rattle.n2_boardtext.specs.Reading.{tree_of, text_board};

/// What is no TOML document, and nothing else, is answered so; and no text stands for want of
/// memory.
pub fn faults_of_texts()
    ensures not_toml { (text : List ℕ) → (text_board text ≡ Err faults.NotToml) ↔ (tree_of text ≡ None) }
    ensures no_memory { (text : List ℕ) → text_board text ≢ Err faults.NoMemory }
{}
