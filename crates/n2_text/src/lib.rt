//! What texts and lists are made of: text and lists that contracts see as lists, and words and
//! numbers as text.
#![tactic(auto)]

mod fields;
pub mod laws;
mod lists;

pub use fields::{
    digit, hex_word, numeral, numeral_up_to, put_number, put_numbered, put_text, put_word,
    word_digits,
};
pub use lists::{Bounded, Items, Text};
