//! What a statement puts at an address, where names have values.

ghost use Rattle.std.specs.Prelude.{◌≡◌, ◌<◌, ◌≤◌, ◌^◌, ◌+◌, IsTrue, IfOk, not, ◌&&◌};
ghost use Rattle.std.specs.BTreeMap.{get_by_text};
ghost use Rattle.n2_insn.specs.Table.{is_valid, word_of};
ghost use Rattle.n2_statement.specs.Statements.{is_valid_statement, or_fault};
ghost use Rattle.n2_source.specs.Numbers.{plain as plain_of};
ghost use Rattle.n2_statement.specs.Values as spec;

use crate::faults::AsmKind;
use crate::names::find;
use crate::statements::Statement;
use n2_insn::{ImmOp, Insn, encode};
use n2_source::{Expression, Immediate, Number, Numbers, Part, Quoted, fits_word, word_of_number};
use std::collections::BTreeMap;

/// The fields that an immediate may fill: 16 bits with a sign, 16 bits without one, 5 bits, the
/// bytes from behind a branch to its place, and the word of a jump's place.
#[derive(Clone, Copy, Debug, PartialEq, Eq)]
pub enum Field {
    Signed,
    Unsigned,
    Five,
    Offset,
    Target,
}

/// What a statement puts: nothing, the opening of a segment, or bytes.
#[derive(Debug, Drop)]
pub enum Content<'a> {
    Nothing,
    Open(bool, u32),
    Word(u32),
    Pair(u32, u32),
    Words(Numbers<'a>),
    Bytes(Numbers<'a>),
    Zeros(u64),
    Text(Quoted<'a>),
}

fn value(names: &BTreeMap<String, Number>, expression: &Expression<'_>) -> Result<Number, AsmKind>
    ensures { result ≡ spec.value_of (get_by_text names.now) expression.now }
{
    match expression {
        Expression::Number(n) => Ok(*n),
        Expression::Name(name) => match find(names, name.as_str()) {
            Some(n) => Ok(n),
            None => Err(AsmKind::NoLabel),
        },
    }
}

/// The word of a number from -2^31 to 2^32 - 1.
fn word_in(n: Number) -> Result<u32, AsmKind>
    ensures { result ≡ spec.word_in n }
{
    if fits_word(n) {
        Ok(word_of_number(n))
    } else {
        Err(AsmKind::Range)
    }
}

/// The upper half of a word plus its bit 15.
fn high_adjusted(word: u32) -> u32
    ensures value { result ≡ spec.high_adjusted word }
    ensures small { result < 2 ^ 16 }
{
    ((word >> 16) + (word >> 15) % 2) % (1 << 16)
}

fn plain(size: u32) -> Number
    ensures { result ≡ plain_of size }
{
    Number {
        negative: false,
        size: u64::from(size),
    }
}

/// What an immediate takes of a number.
fn part(part: Part, n: Number) -> Result<Number, AsmKind>
    ensures { result ≡ spec.part_of part n }
{
    Ok(match part {
        Part::Whole => n,
        Part::Low => plain(word_in(n)? % (1 << 16)),
        Part::High => plain(word_in(n)? >> 16),
        Part::HighAdjusted => plain(high_adjusted(word_in(n)?)),
    })
}

/// The number that an immediate is.
#[tactic(auto, unfolding(crate::specs::Values::immediate_value))]
fn immediate_value(
    names: &BTreeMap<String, Number>,
    immediate: &Immediate<'_>,
) -> Result<Number, AsmKind>
    ensures { result ≡ spec.immediate_value (get_by_text names.now) immediate.now }
{
    let n = value(names, &immediate.value)?;
    part(immediate.part, n)
}

fn imm_field(op: ImmOp) -> Field
    ensures { result ≡ spec.imm_field op }
{
    match op {
        ImmOp::Addi | ImmOp::Muli | ImmOp::Cmpgei | ImmOp::Cmplti | ImmOp::Cmpnei | ImmOp::Cmpeqi =>
            Field::Signed,
        ImmOp::Andi
        | ImmOp::Ori
        | ImmOp::Xori
        | ImmOp::Andhi
        | ImmOp::Orhi
        | ImmOp::Xorhi
        | ImmOp::Cmpgeui
        | ImmOp::Cmpltui => Field::Unsigned,
    }
}

/// The field of an instruction's immediate.
fn field_of(insn: Insn) -> Field
    ensures { result ≡ spec.field_of insn }
{
    match insn {
        Insn::Jump { .. } => Field::Target,
        Insn::Imm { op, .. } => imm_field(op),
        Insn::Br { .. } | Insn::Branch { .. } => Field::Offset,
        Insn::Shift { .. } | Insn::Trap { .. } | Insn::Break { .. } => Field::Five,
        _ => Field::Signed,
    }
}

/// A number of 16 bits with a sign.
fn signed_bits(n: Number) -> Result<u32, AsmKind>
    ensures value { result ≡ spec.signed_bits n }
    ensures small { IfOk result (λ bits. bits < 2 ^ 16) }
{
    if n.negative {
        if n.size <= 1 << 15 {
            return Ok((((1 << 16) - n.size) % (1 << 16)) as u32);
        }
    } else if n.size < 1 << 15 {
        return Ok(n.size as u32);
    }
    Err(AsmKind::Range)
}

/// A number without a sign below a limit.
fn below(limit: u64, n: Number) -> Result<u64, AsmKind>
    ensures value { result ≡ spec.below limit n }
    ensures small { IfOk result (λ size. size < limit) }
{
    if !n.negative && n.size < limit {
        Ok(n.size)
    } else {
        Err(AsmKind::Range)
    }
}

/// The bytes from behind a branch to its place.
fn offset_bits(here: u64, place: u64) -> Result<u32, AsmKind>
    requires { here < 2 ^ 63 + 2 ^ 32 }
    ensures value { result ≡ spec.offset_bits here place }
    ensures small { IfOk result (λ bits. bits < 2 ^ 16) }
{
    let next = here + 4;
    if next <= place {
        let ahead = place - next;
        if ahead < 1 << 15 {
            return Ok(ahead as u32);
        }
    } else {
        let back = next - place;
        if back <= 1 << 15 {
            return Ok((((1 << 16) - back) % (1 << 16)) as u32);
        }
    }
    Err(AsmKind::Range)
}

/// The word of a jump's place.
fn target_bits(here: u64, place: u64) -> Result<u32, AsmKind>
    ensures value { result ≡ spec.target_bits here place }
    ensures small { IfOk result (λ bits. bits < 2 ^ 26) }
{
    if place % 4 == 0 && place / (1 << 28) == here / (1 << 28) {
        Ok((place / 4 % (1 << 26)) as u32)
    } else {
        Err(AsmKind::Range)
    }
}

fn branch_bits(here: u64, n: Number) -> Result<u32, AsmKind>
    requires { here < 2 ^ 63 + 2 ^ 32 }
    ensures value { result ≡ spec.branch_bits here n }
    ensures small { IfOk result (λ bits. bits < 2 ^ 16) }
{
    let place = below(1 << 32, n)?;
    offset_bits(here, place)
}

fn jump_bits(here: u64, n: Number) -> Result<u32, AsmKind>
    ensures value { result ≡ spec.jump_bits here n }
    ensures small { IfOk result (λ bits. bits < 2 ^ 26) }
{
    let place = below(1 << 32, n)?;
    target_bits(here, place)
}

fn half_bits(part: Part, n: Number) -> Result<u32, AsmKind>
    ensures value { result ≡ spec.half_bits part n }
    ensures small { IfOk result (λ bits. bits < 2 ^ 16) }
{
    if part == Part::Low {
        Ok((n.size % (1 << 16)) as u32)
    } else {
        signed_bits(n)
    }
}

fn small_bits(limit: u32, n: Number) -> Result<u32, AsmKind>
    ensures value { result ≡ spec.below limit n }
    ensures small { IfOk result (λ bits. bits < limit) }
{
    let size = below(u64::from(limit), n)?;
    Ok(size as u32)
}

/// The bits of a field, for a part of a number and an instruction here.
#[tactic(auto, unfolding(crate::specs::Values::field_bits))]
fn field_bits(field: Field, here: u64, part: Part, n: Number) -> Result<u32, AsmKind>
    requires { here < 2 ^ 63 + 2 ^ 32 }
    ensures value { result ≡ spec.field_bits field here part n }
    ensures small { IfOk result (λ bits. bits < spec.field_size field) }
{
    match field {
        Field::Signed => half_bits(part, n),
        Field::Unsigned => small_bits(1 << 16, n),
        Field::Five => small_bits(32, n),
        Field::Offset => branch_bits(here, n),
        Field::Target => jump_bits(here, n),
    }
}

/// An instruction with these bits for its immediate.
#[tactic(auto, using(crate::proofs::Fields::half_field))]
fn filled(insn: Insn, bits: u32) -> Insn
    requires valid { IsTrue (is_valid insn) }
    requires small { bits < spec.field_size (spec.field_of insn) }
    ensures value { result ≡ spec.filled insn bits }
    ensures valid { IsTrue (is_valid result) }
{
    match insn {
        Insn::Jump { op, .. } => Insn::Jump { op, target: bits },
        Insn::Imm { op, a, b, .. } => imm(op, a, b, bits),
        Insn::Br { .. } => Insn::Br { imm: bits as u16 },
        Insn::Branch { op, a, b, .. } => Insn::Branch {
            op,
            a,
            b,
            imm: bits as u16,
        },
        Insn::Load { op, io, a, b, .. } => Insn::Load {
            op,
            io,
            a,
            b,
            imm: bits as u16,
        },
        Insn::Store {
            width,
            io,
            a,
            b,
            ..
        } => Insn::Store {
            width,
            io,
            a,
            b,
            imm: bits as u16,
        },
        Insn::Data { op, a, .. } => Insn::Data {
            op,
            a,
            imm: bits as u16,
        },
        Insn::Shift { op, a, c, .. } => Insn::Shift {
            op,
            a,
            c,
            by: bits as u8,
        },
        Insn::Trap { .. } => Insn::Trap { imm: bits as u8 },
        Insn::Break { .. } => Insn::Break { imm: bits as u8 },
        _ => insn,
    }
}

fn imm(op: ImmOp, a: u8, b: u8, bits: u32) -> Insn
    requires valid { IsTrue (is_valid (Insn.Imm op a b 0)) }
    requires small { bits < 2 ^ 16 }
    ensures value { result ≡ Insn.Imm op a b bits }
    ensures valid { IsTrue (is_valid result) }
{
    Insn::Imm {
        op,
        a,
        b,
        imm: bits as u16,
    }
}

/// The word of an instruction whose immediate is given.
#[tactic(auto, unfolding(crate::specs::Values::filled_insn))]
fn filled_insn(
    names: &BTreeMap<String, Number>,
    here: u64,
    insn: Insn,
    immediate: &Immediate<'_>,
) -> Result<Insn, AsmKind>
    requires near { here < 2 ^ 63 + 2 ^ 32 }
    requires valid { IsTrue (is_valid insn) }
    ensures value { result ≡ spec.filled_insn (get_by_text names.now) here insn immediate.now }
    ensures valid { IfOk result (λ i. IsTrue (is_valid i)) }
{
    let n = immediate_value(names, immediate)?;
    let bits = field_bits(field_of(insn), here, immediate.part, n)?;
    Ok(filled(insn, bits))
}

fn negated(n: Number) -> Number
    ensures { result ≡ spec.negated n }
{
    Number {
        negative: !n.negative && n.size != 0,
        size: n.size,
    }
}

/// The word of an instruction whose immediate is given.
fn filled_word(
    names: &BTreeMap<String, Number>,
    here: u64,
    insn: Insn,
    immediate: &Immediate<'_>,
) -> Result<u32, AsmKind>
    requires near { here < 2 ^ 63 + 2 ^ 32 }
    requires valid { IsTrue (is_valid insn) }
    ensures { result ≡ spec.filled_word (get_by_text names.now) here insn immediate.now }
{
    let whole = filled_insn(names, here, insn, immediate)?;
    Ok(encode(&whole))
}

/// The word of an `addi` whose immediate is given with the other sign.
#[tactic(auto, unfolding(crate::specs::Values::negated_word))]
fn negated_word(
    names: &BTreeMap<String, Number>,
    a: u8,
    b: u8,
    immediate: &Immediate<'_>,
) -> Result<u32, AsmKind>
    requires a { a < 32 }
    requires b { b < 32 }
    ensures { result ≡ spec.negated_word (get_by_text names.now) a b immediate.now }
{
    let n = negated(immediate_value(names, immediate)?);
    let bits = signed_bits(n)?;
    Ok(encode(&imm(ImmOp::Addi, a, b, bits)))
}

/// The word that an address is.
#[tactic(auto, unfolding(crate::specs::Values::address_in))]
fn address_in(names: &BTreeMap<String, Number>, expression: &Expression<'_>) -> Result<u32, AsmKind>
    ensures { result ≡ spec.address_in (get_by_text names.now) expression.now }
{
    word_in(value(names, expression)?)
}

/// The two words that give a register an address.
fn address_words(
    names: &BTreeMap<String, Number>,
    b: u8,
    expression: &Expression<'_>,
) -> Result<Content<'static>, AsmKind>
    requires { b < 32 }
    ensures { result ≡ spec.address_words (get_by_text names.now) b expression.now }
{
    let word = address_in(names, expression)?;
    let upper = encode(&imm(ImmOp::Orhi, 0, b, high_adjusted(word)));
    let lower = encode(&imm(ImmOp::Addi, b, b, word % (1 << 16)));
    Ok(Content::Pair(upper, lower))
}

fn is_alignment(n: Number) -> bool
    ensures { result ≡ spec.is_alignment n }
{
    !n.negative
        && (n.size == 1
            || n.size == 2
            || n.size == 4
            || n.size == 8
            || n.size == 16
            || n.size == 32)
}

/// How many bytes there are from here to a multiple of a number.
pub fn padding(here: u64, to: Number) -> Option<u64>
    ensures { result ≡ spec.padding_to here to }
{
    if is_alignment(to) {
        Some((to.size - here % to.size) % to.size)
    } else {
        None
    }
}

fn words(numbers: Numbers<'_>) -> Result<Content<'_>, AsmKind>
    ensures { result ≡ spec.words_content numbers.entry }
{
    if numbers.all_words() {
        Ok(Content::Words(numbers))
    } else {
        Err(AsmKind::Range)
    }
}

fn bytes(numbers: Numbers<'_>) -> Result<Content<'_>, AsmKind>
    ensures { result ≡ spec.bytes_content numbers.entry }
{
    if numbers.all_bytes() {
        Ok(Content::Bytes(numbers))
    } else {
        Err(AsmKind::Range)
    }
}

fn opening(exec: bool, at: Number) -> Result<Content<'static>, AsmKind>
    ensures { result ≡ spec.opening exec at }
{
    let address = below(1 << 32, at)?;
    Ok(Content::Open(exec, address as u32))
}

fn space(count: Number) -> Result<Content<'static>, AsmKind>
    ensures { result ≡ spec.space count }
{
    Ok(Content::Zeros(below(1 << 32, count)?))
}

fn aligned(here: u64, to: Number) -> Result<Content<'static>, AsmKind>
    ensures { result ≡ spec.aligned here to }
{
    match padding(here, to) {
        Some(n) => Ok(Content::Zeros(n)),
        None => Err(AsmKind::Range),
    }
}

fn constant(n: Number) -> Result<Content<'static>, AsmKind>
    ensures { result ≡ spec.constant n }
{
    if fits_word(n) {
        Ok(Content::Nothing)
    } else {
        Err(AsmKind::Range)
    }
}

/// What a statement here puts.
#[tactic(auto, unfolding(crate::specs::Values::content_of))]
pub fn content_of<'a>(
    names: &BTreeMap<String, Number>,
    here: u64,
    statement: Statement<'a>,
) -> Result<Content<'a>, AsmKind>
    requires near { here < 2 ^ 63 + 2 ^ 32 }
    requires valid { IsTrue (is_valid_statement statement) }
    ensures { result ≡ spec.content_of (get_by_text names.now) here statement.entry }
{
    match statement {
        Statement::Fixed(insn) => Ok(Content::Word(encode(&insn))),
        Statement::Filled(insn, i) => Ok(Content::Word(filled_word(names, here, insn, &i)?)),
        Statement::Negated(a, b, i) => Ok(Content::Word(negated_word(names, a, b, &i)?)),
        Statement::Address(b, e) => address_words(names, b, &e),
        Statement::Segment(exec, at) => opening(exec, at),
        Statement::Words(numbers) => words(numbers),
        Statement::Bytes(numbers) => bytes(numbers),
        Statement::Space(count) => space(count),
        Statement::Align(to) => aligned(here, to),
        Statement::Text(text) => Ok(Content::Text(text)),
        Statement::Constant(_, n) => constant(n),
    }
}
