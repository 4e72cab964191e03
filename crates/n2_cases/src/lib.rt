//! What programs of cases share. A program of cases answers each row of standard input with one row of
//! standard output.
//!
//! Rows that are empty or begin with `#` are written as they are. A row that is no case is answered
//! `no case`. `<PIECE*N>` in a row stands for N copies of PIECE. A WORD has eight hexadecimal digits,
//! other numbers are decimal. A TEXT stands in quotes, with `;` for a line feed, or it is its bytes in
//! hexadecimal digits. A WIDTH is `byte`, `half` or `word`.
#![tactic(auto)]

mod answers;
mod fields;
mod rows;

pub use answers::{put, put_byte, put_shown, put_word};
pub use fields::{bytes_in, number_in, width_in, word_in, words_of};
use hex::FromHexError;
use n2_word::NoMemory;
pub use rows::{Cases, answer_rows};
use std::alloc::AllocError;

/// Why a row has no answer: it is no case, or no memory was left.
#[derive(Clone, Copy, Debug)]
pub enum NoAnswer {
    NoCase,
    NoMemory,
}

impl From<AllocError> for NoAnswer {
    fn from(_: AllocError) -> NoAnswer {
        NoAnswer::NoMemory
    }
}

impl From<NoMemory> for NoAnswer {
    fn from(_: NoMemory) -> NoAnswer {
        NoAnswer::NoMemory
    }
}

impl From<FromHexError> for NoAnswer {
    fn from(error: FromHexError) -> NoAnswer {
        match error {
            FromHexError::OutOfMemory => NoAnswer::NoMemory,
            _ => NoAnswer::NoCase,
        }
    }
}
