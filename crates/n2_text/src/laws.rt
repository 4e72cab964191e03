//! Laws on words and numbers as text: what is written is read, and what is read is spelled so.

ghost use Rattle.std.specs.Prelude.{◌≡◌, ℕ, ◌<◌, ◌^◌, ◌||◌, List, length, decimal};
ghost use Rattle.std.specs.List.{AllPass};
ghost use Rattle.n2_text.specs.Fields.{word_text, hex_word, numeral, is_digit, is_hex_letter};

/// The text of a word is read as the word, and a text that is read as a word is its text: eight
/// hexadecimal digits.
pub fn words()
    ensures read { (word : ℕ) → word < 2 ^ 32 → hex_word (word_text word) ≡ Some word }
    ensures spelled { (text : List ℕ) (word : ℕ) → hex_word text ≡ Some word → text ≡ word_text word }
    ensures small { (text : List ℕ) (word : ℕ) → hex_word text ≡ Some word → word < 2 ^ 32 }
    ensures length { (word : ℕ) → length (word_text word) ≡ 8 }
    ensures digits { (word : ℕ) → AllPass (λ c. is_digit c || is_hex_letter c) (word_text word) }
{}

/// The decimal of a number is read as the number, and a text that is read as a number is its
/// decimal: digits alone. `decimal` has all digits of a number only below 10^64.
pub fn numbers()
    ensures read { (n : ℕ) → n < 10 ^ 64 → numeral (decimal n) ≡ Some n }
    ensures spelled { (text : List ℕ) (n : ℕ) → n < 10 ^ 64 → numeral text ≡ Some n → text ≡ decimal n }
    ensures digits { (n : ℕ) → n < 10 ^ 64 → AllPass is_digit (decimal n) }
{}
