//! What the instructions compute.

ghost use Rattle.std.specs.Prelude.{◌≡◌, ◌<◌, IsTrue};
ghost use Rattle.n2_exec.specs.Values as value;

use n2_insn::{BranchOp, ImmOp, RegOp, ShiftOp};
use n2_word::sign16;

#[inline(always)]
fn signed_lt(a: u32, b: u32) -> bool
    ensures { result ≡ value.signed_lt a b }
{
    a.cast_signed() < b.cast_signed()
}

#[inline(always)]
fn signed_le(a: u32, b: u32) -> bool
    ensures { result ≡ value.signed_le a b }
{
    a.cast_signed() <= b.cast_signed()
}

#[inline(always)]
fn shifted_right_signed(a: u32, by: u32) -> u32
    requires { by < 32 }
    ensures { result ≡ value.shifted_right_signed a by }
{
    (a.cast_signed() >> by).cast_unsigned()
}

/// rB by rA and the immediate.
#[inline(always)]
pub fn imm_value(op: ImmOp, a: u32, imm: u16) -> u32
    ensures { result ≡ value.imm_value op a imm }
{
    let s = sign16(imm);
    let z = u32::from(imm);
    match op {
        ImmOp::Addi => a.wrapping_add(s),
        ImmOp::Muli => a.wrapping_mul(s),
        ImmOp::Andi => a & z,
        ImmOp::Ori => a | z,
        ImmOp::Xori => a ^ z,
        ImmOp::Andhi => a & (z << 16),
        ImmOp::Orhi => a | (z << 16),
        ImmOp::Xorhi => a ^ (z << 16),
        ImmOp::Cmpgei => u32::from(signed_le(s, a)),
        ImmOp::Cmplti => u32::from(signed_lt(a, s)),
        ImmOp::Cmpnei => u32::from(a != s),
        ImmOp::Cmpeqi => u32::from(a == s),
        ImmOp::Cmpgeui => u32::from(a >= z),
        ImmOp::Cmpltui => u32::from(a < z),
    }
}

/// Whether a branch is taken.
#[inline(always)]
pub fn is_taken(op: BranchOp, a: u32, b: u32) -> bool
    ensures { result ≡ value.is_taken op a b }
{
    match op {
        BranchOp::Bge => signed_le(b, a),
        BranchOp::Blt => signed_lt(a, b),
        BranchOp::Bne => a != b,
        BranchOp::Beq => a == b,
        BranchOp::Bgeu => a >= b,
        BranchOp::Bltu => a < b,
    }
}

/// Whether it is no division without a quotient.
#[inline(always)]
pub fn has_quotient(op: RegOp, a: u32, b: u32) -> bool
    ensures { result ≡ value.has_quotient op a b }
{
    match op {
        RegOp::Divu => b != 0,
        RegOp::Div => b != 0 && !(a == 0x8000_0000 && b == 0xffff_ffff),
        _ => true,
    }
}

/// rC by rA and rB.
#[inline(always)]
pub fn reg_value(op: RegOp, a: u32, b: u32) -> u32
    requires { IsTrue (value.has_quotient op a b) }
    ensures { result ≡ value.reg_value op a b }
{
    match op {
        RegOp::Add => a.wrapping_add(b),
        RegOp::Sub => a.wrapping_sub(b),
        RegOp::Mul => a.wrapping_mul(b),
        RegOp::Mulxuu => ((u64::from(a) * u64::from(b)) >> 32) as u32,
        RegOp::Mulxsu => mulxsu(a, b),
        RegOp::Mulxss => mulxss(a, b),
        RegOp::Divu => a / b,
        RegOp::Div => (a.cast_signed() / b.cast_signed()).cast_unsigned(),
        RegOp::And => a & b,
        RegOp::Or => a | b,
        RegOp::Xor => a ^ b,
        RegOp::Nor => !(a | b),
        RegOp::Cmpge => u32::from(signed_le(b, a)),
        RegOp::Cmplt => u32::from(signed_lt(a, b)),
        RegOp::Cmpne => u32::from(a != b),
        RegOp::Cmpeq => u32::from(a == b),
        RegOp::Cmpgeu => u32::from(a >= b),
        RegOp::Cmpltu => u32::from(a < b),
        RegOp::Sll => a << (b % 32),
        RegOp::Srl => a >> (b % 32),
        RegOp::Sra => shifted_right_signed(a, b % 32),
        RegOp::Rol => a.rotate_left(b % 32),
        RegOp::Ror => a.rotate_right(b % 32),
    }
}

#[inline(always)]
fn mulxsu(a: u32, b: u32) -> u32
    ensures { result ≡ value.reg_value RegOp.Mulxsu a b }
{
    let product = i64::from(a.cast_signed()) * i64::from(b);
    (product.cast_unsigned() >> 32) as u32
}

#[inline(always)]
fn mulxss(a: u32, b: u32) -> u32
    ensures { result ≡ value.reg_value RegOp.Mulxss a b }
{
    let product = i64::from(a.cast_signed()) * i64::from(b.cast_signed());
    (product.cast_unsigned() >> 32) as u32
}

/// rC by rA and a number of bits.
#[inline(always)]
pub fn shift_value(op: ShiftOp, a: u32, by: u8) -> u32
    requires { by < 32 }
    ensures { result ≡ value.shift_value op a by }
{
    let by = u32::from(by);
    match op {
        ShiftOp::Slli => a << by,
        ShiftOp::Srli => a >> by,
        ShiftOp::Srai => shifted_right_signed(a, by),
        ShiftOp::Roli => a.rotate_left(by),
    }
}
