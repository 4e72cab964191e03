//! The fields of an instruction word.

ghost use Rattle.std.specs.Prelude.{◌≡◌, ◌<◌, ◌^◌};
ghost use Rattle.n2_insn.specs.Fields as form;
ghost use Rattle.n2_insn.specs.Fields.{composed, IType, RType, JType};

/// Bits 31 to 27.
pub fn a_of(word: u32) -> u8
    ensures field { result ≡ form.a_of word }
    ensures small { result < 32 }
{
    (word >> 27) as u8
}

/// Bits 26 to 22.
pub fn b_of(word: u32) -> u8
    ensures field { result ≡ form.b_of word }
    ensures small { result < 32 }
{
    ((word >> 22) % 32) as u8
}

/// Bits 21 to 17.
pub fn c_of(word: u32) -> u8
    ensures field { result ≡ form.c_of word }
    ensures small { result < 32 }
{
    ((word >> 17) % 32) as u8
}

/// Bits 10 to 6.
pub fn imm5_of(word: u32) -> u8
    ensures field { result ≡ form.imm5_of word }
    ensures small { result < 32 }
{
    ((word >> 6) % 32) as u8
}

/// Bits 21 to 6.
pub fn imm16_of(word: u32) -> u16
    ensures { result ≡ form.imm16_of word }
{
    ((word >> 6) % 0x1_0000) as u16
}

/// Bits 31 to 6.
pub fn imm26_of(word: u32) -> u32
    ensures field { result ≡ form.imm26_of word }
    ensures small { result < 2 ^ 26 }
{
    word >> 6
}

/// A word of I-type.
pub fn i_type(a: u8, b: u8, imm16: u16, op: u32) -> u32
    requires a { a < 32 }
    requires b { b < 32 }
    requires op { op < 64 }
    ensures word { result ≡ composed (IType a b imm16 op) }
    ensures half { imm16 < 2 ^ 16 }
{
    (u32::from(a) << 27) + (u32::from(b) << 22) + (u32::from(imm16) << 6) + op
}

/// A word of R-type, whose OP is 3a.
pub fn r_type(a: u8, b: u8, c: u8, opx: u32, imm5: u8) -> u32
    requires a { a < 32 }
    requires b { b < 32 }
    requires c { c < 32 }
    requires opx { opx < 64 }
    requires imm5 { imm5 < 32 }
    ensures { result ≡ composed (RType a b c opx imm5) }
{
    let registers = (u32::from(a) << 27) + (u32::from(b) << 22) + (u32::from(c) << 17);
    registers + (opx << 11) + (u32::from(imm5) << 6) + 0x3a
}

/// A word of J-type.
pub fn j_type(imm26: u32, op: u32) -> u32
    requires target { imm26 < 2 ^ 26 }
    requires op { op < 64 }
    ensures { result ≡ composed (JType imm26 op) }
{
    (imm26 << 6) + op
}
