//! Operands of a statement.

ghost use Rattle.std.specs.Prelude.{◌≡◌, ◌<◌, option_map, IfSome};
ghost use Rattle.n2_source.specs.Operands as spec;

use crate::cursors::{mark_at, word_at};
use crate::numbers::{Name, Number, control_at, name_at, number_at, register_at};

/// A number or a name.
#[derive(Debug, Drop)]
pub enum Expression<'a> {
    Number(Number),
    Name(Name<'a>),
}

/// What an immediate takes of a number: all of it, its lower or its upper 16 bits, or the upper 16
/// bits that go with a signed lower half.
#[derive(Clone, Copy, Debug, PartialEq, Eq)]
pub enum Part {
    Whole,
    Low,
    High,
    HighAdjusted,
}

/// An immediate.
#[derive(Debug, Drop)]
pub struct Immediate<'a> {
    pub part: Part,
    pub value: Expression<'a>,
}

#[tactic(auto, unfolding(crate::specs::Operands::plain_expression_at))]
fn plain_expression_at(bytes: &[u8]) -> Option<(Expression<'_>, &[u8])>
    ensures { option_map (λ x. (x.0, x.1.now)) result ≡ spec.plain_expression_at bytes.now }
{
    let (n, rest) = number_at(bytes)?;
    Some((Expression::Number(n), rest))
}

/// A number or a name, and what stands behind it.
#[tactic(auto, unfolding(crate::specs::Operands::expression_at))]
pub fn expression_at(bytes: &[u8]) -> Option<(Expression<'_>, &[u8])>
    ensures { option_map (λ x. (x.0, x.1.now)) result ≡ spec.expression_at bytes.now }
{
    match name_at(bytes) {
        Some((name, rest)) => Some((Expression::Name(name), rest)),
        None => plain_expression_at(bytes),
    }
}

fn part_named(word: &[u8]) -> Option<Part>
    ensures { result ≡ spec.part_named word.now }
{
    if word == b"hi".as_slice() {
        Some(Part::High)
    } else if word == b"lo".as_slice() {
        Some(Part::Low)
    } else if word == b"hiadj".as_slice() {
        Some(Part::HighAdjusted)
    } else {
        None
    }
}

/// What stands behind a `%`.
#[tactic(auto, unfolding(crate::specs::Operands::part_at))]
fn part_at(bytes: &[u8]) -> Option<(Immediate<'_>, &[u8])>
    ensures { option_map (λ x. (x.0, x.1.now)) result ≡ spec.part_at bytes.now }
{
    let (word, rest) = word_at(bytes);
    let part = part_named(word)?;
    let rest = mark_at(b'(', rest)?;
    let (value, rest) = expression_at(rest)?;
    let rest = mark_at(b')', rest)?;
    Some((Immediate { part, value }, rest))
}

/// A number or a name as a whole, and what stands behind it.
#[tactic(auto, unfolding(crate::specs::Operands::whole_at))]
pub fn whole_at(bytes: &[u8]) -> Option<(Immediate<'_>, &[u8])>
    ensures { option_map (λ x. (x.0, x.1.now)) result ≡ spec.whole_at bytes.now }
{
    let (value, rest) = expression_at(bytes)?;
    let part = Part::Whole;
    Some((Immediate { part, value }, rest))
}

/// An immediate and what stands behind it.
#[tactic(auto, unfolding(crate::specs::Operands::immediate_at))]
pub fn immediate_at(bytes: &[u8]) -> Option<(Immediate<'_>, &[u8])>
    ensures { option_map (λ x. (x.0, x.1.now)) result ≡ spec.immediate_at bytes.now }
{
    match mark_at(b'%', bytes) {
        Some(rest) => part_at(rest),
        None => whole_at(bytes),
    }
}

/// Two registers.
#[tactic(auto, unfolding(crate::specs::Operands::two_registers_at))]
pub fn two_registers_at(bytes: &[u8]) -> Option<((u8, u8), &[u8])>
    ensures value { option_map (λ x. (x.0, x.1.now)) result ≡ spec.two_registers_at bytes.now }
    ensures small { IfSome result (λ x. (x.0.0 < 32) × (x.0.1 < 32)) }
{
    let (x, rest) = register_at(bytes)?;
    let rest = mark_at(b',', rest)?;
    let (y, rest) = register_at(rest)?;
    Some(((x, y), rest))
}

/// Three registers.
#[tactic(auto, unfolding(crate::specs::Operands::three_registers_at))]
pub fn three_registers_at(bytes: &[u8]) -> Option<((u8, u8, u8), &[u8])>
    ensures value { option_map (λ x. (x.0, x.1.now)) result ≡ spec.three_registers_at bytes.now }
    ensures small { IfSome result (λ x. (x.0.0 < 32) × (x.0.1 < 32) × (x.0.2 < 32)) }
{
    let ((x, y), rest) = two_registers_at(bytes)?;
    let rest = mark_at(b',', rest)?;
    let (z, rest) = register_at(rest)?;
    Some(((x, y, z), rest))
}

/// A register and an immediate.
#[tactic(auto, unfolding(crate::specs::Operands::register_immediate_at))]
pub fn register_immediate_at(bytes: &[u8]) -> Option<((u8, Immediate<'_>), &[u8])>
    ensures value { option_map (λ x. (x.0, x.1.now)) result ≡ spec.register_immediate_at bytes.now }
    ensures small { IfSome result (λ x. x.0.0 < 32) }
{
    let (x, rest) = register_at(bytes)?;
    let rest = mark_at(b',', rest)?;
    let (value, rest) = immediate_at(rest)?;
    Some(((x, value), rest))
}

/// A register, and a number or a name.
#[tactic(auto, unfolding(crate::specs::Operands::register_expression_at))]
pub fn register_expression_at(bytes: &[u8]) -> Option<((u8, Expression<'_>), &[u8])>
    ensures value { option_map (λ x. (x.0, x.1.now)) result ≡ spec.register_expression_at bytes.now }
    ensures small { IfSome result (λ x. x.0.0 < 32) }
{
    let (x, rest) = register_at(bytes)?;
    let rest = mark_at(b',', rest)?;
    let (value, rest) = expression_at(rest)?;
    Some(((x, value), rest))
}

/// Two registers and an immediate.
#[tactic(auto, unfolding(crate::specs::Operands::two_registers_immediate_at))]
pub fn two_registers_immediate_at(bytes: &[u8]) -> Option<((u8, u8, Immediate<'_>), &[u8])>
    ensures value { option_map (λ x. (x.0, x.1.now)) result ≡ spec.two_registers_immediate_at bytes.now }
    ensures small { IfSome result (λ x. (x.0.0 < 32) × (x.0.1 < 32)) }
{
    let ((x, y), rest) = two_registers_at(bytes)?;
    let rest = mark_at(b',', rest)?;
    let (value, rest) = immediate_at(rest)?;
    Some(((x, y, value), rest))
}

/// Two registers and a place.
#[tactic(auto, unfolding(crate::specs::Operands::two_registers_place_at))]
pub fn two_registers_place_at(bytes: &[u8]) -> Option<((u8, u8, Immediate<'_>), &[u8])>
    ensures value { option_map (λ x. (x.0, x.1.now)) result ≡ spec.two_registers_place_at bytes.now }
    ensures small { IfSome result (λ x. (x.0.0 < 32) × (x.0.1 < 32)) }
{
    let ((x, y), rest) = two_registers_at(bytes)?;
    let rest = mark_at(b',', rest)?;
    let (value, rest) = whole_at(rest)?;
    Some(((x, y, value), rest))
}

/// The register in the parentheses and the immediate before them.
#[tactic(auto, unfolding(crate::specs::Operands::base_at))]
pub fn base_at(bytes: &[u8]) -> Option<((u8, Immediate<'_>), &[u8])>
    ensures value { option_map (λ x. (x.0, x.1.now)) result ≡ spec.base_at bytes.now }
    ensures small { IfSome result (λ x. x.0.0 < 32) }
{
    let (value, rest) = immediate_at(bytes)?;
    let rest = mark_at(b'(', rest)?;
    let (x, rest) = register_at(rest)?;
    let rest = mark_at(b')', rest)?;
    Some(((x, value), rest))
}

/// The register in the parentheses, the register before the comma, and the immediate between them.
#[tactic(auto, unfolding(crate::specs::Operands::register_base_at))]
pub fn register_base_at(bytes: &[u8]) -> Option<((u8, u8, Immediate<'_>), &[u8])>
    ensures value { option_map (λ x. (x.0, x.1.now)) result ≡ spec.register_base_at bytes.now }
    ensures small { IfSome result (λ x. (x.0.0 < 32) × (x.0.1 < 32)) }
{
    let (b, rest) = register_at(bytes)?;
    let rest = mark_at(b',', rest)?;
    let ((a, value), rest) = base_at(rest)?;
    Some(((a, b, value), rest))
}

/// A register and a control register.
#[tactic(auto, unfolding(crate::specs::Operands::register_control_at))]
pub fn register_control_at(bytes: &[u8]) -> Option<((u8, u8), &[u8])>
    ensures value { option_map (λ x. (x.0, x.1.now)) result ≡ spec.register_control_at bytes.now }
    ensures small { IfSome result (λ x. (x.0.0 < 32) × (x.0.1 < 32)) }
{
    let (x, rest) = register_at(bytes)?;
    let rest = mark_at(b',', rest)?;
    let (y, rest) = control_at(rest)?;
    Some(((x, y), rest))
}

/// A control register and a register.
#[tactic(auto, unfolding(crate::specs::Operands::control_register_at))]
pub fn control_register_at(bytes: &[u8]) -> Option<((u8, u8), &[u8])>
    ensures value { option_map (λ x. (x.0, x.1.now)) result ≡ spec.control_register_at bytes.now }
    ensures small { IfSome result (λ x. (x.0.0 < 32) × (x.0.1 < 32)) }
{
    let (x, rest) = control_at(bytes)?;
    let rest = mark_at(b',', rest)?;
    let (y, rest) = register_at(rest)?;
    Some(((x, y), rest))
}

/// A name and a number.
#[tactic(auto, unfolding(crate::specs::Operands::name_number_at))]
pub fn name_number_at(bytes: &[u8]) -> Option<((Name<'_>, Number), &[u8])>
    ensures { option_map (λ x. (x.0, x.1.now)) result ≡ spec.name_number_at bytes.now }
{
    let (name, rest) = name_at(bytes)?;
    let rest = mark_at(b',', rest)?;
    let (n, rest) = number_at(rest)?;
    Some(((name, n), rest))
}
