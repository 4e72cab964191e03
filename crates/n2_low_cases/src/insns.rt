//! Cases of instructions by themselves.

use n2_cases::{NoAnswer, number_in, put, put_shown, put_word, width_in, word_in};
use n2_exec::extended;
use n2_insn::{Insn, decode, encode};

/// A case of one of the kinds below.
pub fn answer(kind: &str, words: &[&str], out: &mut Vec<u8>) -> Result<(), NoAnswer> {
    match kind {
        "insn" => insn(words, out),
        "jmp" => jmp(words, out),
        _ => extend(words, out),
    }
}

/// `insn WORD`: the instruction of a word, and the word that it is encoded as, or `none`.
fn insn(words: &[&str], out: &mut Vec<u8>) -> Result<(), NoAnswer> {
    let [word] = *words else {
        return Err(NoAnswer::NoCase);
    };
    match decode(word_in(word)?) {
        Some(insn) => put_insn(&insn, encode(&insn), out),
        None => put(out, "none"),
    }
}

fn put_insn(insn: &Insn, word: u32, out: &mut Vec<u8>) -> Result<(), NoAnswer> {
    put_shown(out, "", insn)?;
    put_word(out, " ", word)
}

/// `jmp N`: whether a jump to register N is an instruction.
fn jmp(words: &[&str], out: &mut Vec<u8>) -> Result<(), NoAnswer> {
    let [n] = *words else {
        return Err(NoAnswer::NoCase);
    };
    let a = number_in(255, n)? as u8;
    put_shown(out, "", &Insn::Jmp { a }.valid())
}

/// `extend WORD WIDTH signed` or `unsigned`: what a load writes of what it read.
fn extend(words: &[&str], out: &mut Vec<u8>) -> Result<(), NoAnswer> {
    let [value, width, sign] = *words else {
        return Err(NoAnswer::NoCase);
    };
    let signed = match sign {
        "signed" => true,
        "unsigned" => false,
        _ => return Err(NoAnswer::NoCase),
    };
    put_word(out, "", extended(word_in(value)?, width_in(width)?, signed))
}
