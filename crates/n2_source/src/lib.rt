//! What rows of an assembler source are made of: numbers, registers, names, operands, lists, texts in
//! quotes, and the names of statements.
#![tactic(auto)]

mod cursors;
mod lists;
mod mnemonics;
mod numbers;
mod operands;

pub use cursors::{is_end, past, skip, starts_blank, word_at};
pub use lists::{Numbers, Quoted, fits_word, quoted_at, word_of_number};
pub use mnemonics::Mnemonic;
pub use numbers::{Name, Number, capped, name_at, number_at, register_at};
pub use operands::{
    Expression, Immediate, Part, base_at, control_register_at, name_number_at, register_base_at,
    register_control_at, register_expression_at, register_immediate_at, three_registers_at,
    two_registers_at, two_registers_immediate_at, two_registers_place_at, whole_at,
};
