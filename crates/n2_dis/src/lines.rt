//! The text of a word, and rows of words.

ghost use Rattle.std.specs.Prelude.{◌≡◌, ◌++◌, IfOk, IsTrue, OnOk, take, drop, string_bytes};
ghost use Rattle.n2_word.specs.Words.{number_of};
ghost use Rattle.n2_insn.specs.Table.{is_valid};
ghost use Rattle.n2_dis.specs.Texts as spec;

use crate::operands::{operands_of, put_operands};
use n2_elf::Segment;
use n2_insn::{Insn, decode};
use n2_source::Mnemonic;
use n2_text::{Text, put_text, put_word};
use n2_word::NoMemory;
use std::alloc::Global;

/// The name of an instruction.
fn mnemonic_of(insn: &Insn) -> Mnemonic
    ensures { result ≡ spec.mnemonic_of insn.now }
{
    match *insn {
        Insn::Jump { op, .. } => Mnemonic::Jump(op),
        Insn::Imm { op, .. } => Mnemonic::Imm(op),
        Insn::Br { .. } => Mnemonic::Br,
        Insn::Branch { op, .. } => Mnemonic::Branch(op),
        Insn::Load { op, io, .. } => Mnemonic::Load { op, io },
        Insn::Store { width, io, .. } => Mnemonic::Store { width, io },
        Insn::Data { op, .. } => Mnemonic::Data(op),
        Insn::Code { op, .. } => Mnemonic::Code(op),
        Insn::Reg { op, .. } => Mnemonic::Reg(op),
        Insn::Shift { op, .. } => Mnemonic::Shift(op),
        Insn::Jmp { .. } => Mnemonic::Jmp,
        Insn::Callr { .. } => Mnemonic::Callr,
        Insn::Ret => Mnemonic::Ret,
        Insn::Eret => Mnemonic::Eret,
        Insn::Nextpc { .. } => Mnemonic::Nextpc,
        Insn::Rdctl { .. } => Mnemonic::Rdctl,
        Insn::Wrctl { .. } => Mnemonic::Wrctl,
        Insn::Trap { .. } => Mnemonic::Trap,
        Insn::Break { .. } => Mnemonic::Break,
        Insn::Flushp => Mnemonic::Flushp,
        Insn::Sync => Mnemonic::Sync,
    }
}

#[tactic(auto, unfolding(crate::specs::Texts::insn_text))]
fn put_insn(out: &mut Vec<u8>, here: u32, insn: &Insn) -> Result<(), NoMemory>
    requires { IsTrue (is_valid insn.now) }
    ensures { OnOk result (out.new.items ≡ out.old.items ++ spec.insn_text here insn.now) }
{
    put_text(out, mnemonic_of(insn).text().as_bytes())?;
    put_operands(out, operands_of(here, insn))
}

fn put_outside(out: &mut Vec<u8>, word: u32) -> Result<(), NoMemory>
    ensures { OnOk result (out.new.items ≡ out.old.items ++ spec.outside_text word) }
{
    put_text(out, b".word 0x")?;
    put_word(out, word)
}

/// Appends the text of a word here.
#[tactic(auto, unfolding(crate::specs::Texts::line_of))]
pub fn put_line(out: &mut Vec<u8>, word: u32, here: u32) -> Result<(), NoMemory>
    ensures { OnOk result (out.new.items ≡ out.old.items ++ spec.line_of word here) }
{
    match decode(word) {
        Some(insn) => put_insn(out, here, &insn),
        None => put_outside(out, word),
    }
}

/// The text of a word that stands at an address: a statement of the assembler's without shorthands,
/// with registers as `rN`, immediates in signed decimal where they are sign-extended, places as `0x`
/// and eight digits, and `trap` and `break` with their number. A word outside of the instruction
/// table is `.word 0x` and its eight digits.
pub fn line_text(alloc: Global, word: u32, address: u32) -> Result<Text, NoMemory>
    ensures { IfOk result (λ text. text ≡ spec.line_of word address) }
{
    let mut out = Vec::new(alloc);
    put_line(&mut out, word, address)?;
    match String::from_utf8(out) {
        Ok(text) => Ok(Text::new(text)),
        Err(_) => Err(NoMemory),
    }
}

/// Appends the row of a word that stands at an address.
fn put_row(out: &mut Vec<u8>, at: u32, word: u32) -> Result<(), NoMemory>
    ensures { OnOk result (out.new.items ≡ out.old.items ++ spec.row_text at word) }
{
    put_word(out, at)?;
    put_text(out, b" ")?;
    put_word(out, word)?;
    put_text(out, b" ")?;
    put_line(out, word, at)?;
    put_text(out, b"\n")
}

/// The word that begins some bytes, and what follows it; what is missing of the word is zeros.
fn first_word(bytes: &[u8]) -> (u32, &[u8])
    ensures word { result.0 ≡ number_of (take 4 bytes.now) }
    ensures rest { result.1.now ≡ drop 4 bytes.now }
{
    match bytes {
        [a, b, c, d, rest @ ..] => (u32::from_le_bytes([*a, *b, *c, *d]), rest),
        [a, b, c] => (u32::from_le_bytes([*a, *b, *c, 0]), &bytes[3..]),
        [a, b] => (u32::from_le_bytes([*a, *b, 0, 0]), &bytes[2..]),
        [a] => (u32::from(*a), &bytes[1..]),
        [] => (0, bytes),
    }
}

/// Appends a row for each word of some bytes that stand at an address.
pub fn put_rows(out: &mut Vec<u8>, at: u32, bytes: &[u8]) -> Result<(), NoMemory>
    ensures { OnOk result (out.new.items ≡ out.old.items ++ spec.rows_text at bytes.now) }
{
    let mut rest = bytes;
    let mut here = at;
    while !rest.is_empty() {
        let (word, behind) = first_word(rest);
        put_row(out, here, word)?;
        rest = behind;
        here = here.wrapping_add(4);
    }
    Ok(())
}

/// Appends a row for each word of each segment's bytes, in order: its address, the word and its
/// text, ended by a line feed. What is missing of a segment's last word is zeros.
pub fn put_listing(out: &mut Vec<u8>, segments: &[Segment]) -> Result<(), NoMemory>
    ensures { OnOk result (out.new.items ≡ out.old.items ++ spec.listing segments.now) }
{
    for segment in segments {
        put_rows(out, segment.at, segment.bytes.as_slice())?;
    }
    Ok(())
}
