//! The instructions of Nios II: the table, the decoder and the encoder.
#![tactic(auto)]

ghost use Rattle.std.specs.Prelude.{◌≡◌, ℕ, ◌+◌, ◌*◌, ◌/◌, ◌%◌, ◌^◌, ◌<◌, ◌≤◌, ◌≢◌, IsTrue, IfSome, Option, Some};
ghost use Rattle.n2_insn.specs.Table.{has_half, is_valid, table_insn, word_of};

mod fields;
pub mod laws;
mod numbers;
mod rows;

use fields::{i_type, j_type, r_type};
use n2_word::Width;
use numbers::{
    branch_op, code_opx, data_op, imm_op, jump_op, load_op, reg_opx, shift_opx, store_op,
};
use rows::{
    br_row, branch_row, break_row, callr_row, code_row, data_row, imm_row, jmp_row, jump_row,
    load_row, nextpc_row, rdctl_row, reg_row, shift_row, store_row, trap_row, wrctl_row,
};

/// The jumps to a given place.
#[derive(Clone, Copy, Debug, PartialEq, Eq)]
pub enum JumpOp {
    Call,
    Jmpi,
}

/// What is computed from a register and an immediate.
#[derive(Clone, Copy, Debug, PartialEq, Eq)]
pub enum ImmOp {
    Addi,
    Muli,
    Andi,
    Ori,
    Xori,
    Andhi,
    Orhi,
    Xorhi,
    Cmpgei,
    Cmplti,
    Cmpnei,
    Cmpeqi,
    Cmpgeui,
    Cmpltui,
}

/// The conditional branches.
#[derive(Clone, Copy, Debug, PartialEq, Eq)]
pub enum BranchOp {
    Bge,
    Blt,
    Bne,
    Beq,
    Bgeu,
    Bltu,
}

/// The loads, by width and sign.
#[derive(Clone, Copy, Debug, PartialEq, Eq)]
pub enum LoadOp {
    Ldbu,
    Ldb,
    Ldhu,
    Ldh,
    Ldw,
}

/// The operations on lines of the data cache.
#[derive(Clone, Copy, Debug, PartialEq, Eq)]
pub enum DataOp {
    Initd,
    Initda,
    Flushd,
    Flushda,
}

/// The operations on lines of the instruction cache.
#[derive(Clone, Copy, Debug, PartialEq, Eq)]
pub enum CodeLineOp {
    Flushi,
    Initi,
}

/// What is computed from two registers.
#[derive(Clone, Copy, Debug, PartialEq, Eq)]
pub enum RegOp {
    Add,
    Sub,
    Mul,
    Mulxuu,
    Mulxsu,
    Mulxss,
    Divu,
    Div,
    And,
    Or,
    Xor,
    Nor,
    Cmpge,
    Cmplt,
    Cmpne,
    Cmpeq,
    Cmpgeu,
    Cmpltu,
    Sll,
    Srl,
    Sra,
    Rol,
    Ror,
}

/// The shifts and rotations by a given number of bits.
#[derive(Clone, Copy, Debug, PartialEq, Eq)]
pub enum ShiftOp {
    Slli,
    Srli,
    Srai,
    Roli,
}

/// An instruction with its fields (Nios II Processor Reference Guide, "Instruction Set Reference").
/// `a`, `b` and `c` are the registers of the fields A, B and C, `imm` is the field IMM16 as it
/// stands, `io` says that it is the form that goes past the cache.
#[derive(Clone, Copy, Debug, PartialEq, Eq)]
pub enum Insn {
    Jump {
        op: JumpOp,
        target: u32,
    },
    Imm {
        op: ImmOp,
        a: u8,
        b: u8,
        imm: u16,
    },
    Br {
        imm: u16,
    },
    Branch {
        op: BranchOp,
        a: u8,
        b: u8,
        imm: u16,
    },
    Load {
        op: LoadOp,
        io: bool,
        a: u8,
        b: u8,
        imm: u16,
    },
    Store {
        width: Width,
        io: bool,
        a: u8,
        b: u8,
        imm: u16,
    },
    Data {
        op: DataOp,
        a: u8,
        imm: u16,
    },
    Code {
        op: CodeLineOp,
        a: u8,
    },
    Reg {
        op: RegOp,
        a: u8,
        b: u8,
        c: u8,
    },
    Shift {
        op: ShiftOp,
        a: u8,
        c: u8,
        by: u8,
    },
    Jmp {
        a: u8,
    },
    Callr {
        a: u8,
    },
    Ret,
    Eret,
    Nextpc {
        c: u8,
    },
    Rdctl {
        c: u8,
        n: u8,
    },
    Wrctl {
        n: u8,
        a: u8,
    },
    Trap {
        imm: u8,
    },
    Break {
        imm: u8,
    },
    Flushp,
    Sync,
}

impl Insn {
    /// Whether each field fits its place in a word: registers, shift amounts, control registers
    /// and the numbers of `trap` and `break` are below 32, a jump's target is below 2^26.
    pub fn valid(&self) -> bool
        ensures { result ≡ is_valid self.now }
    {
        match *self {
            Insn::Jump { target, .. } => target < 1 << 26,
            Insn::Imm { a, b, .. } => a < 32 && b < 32,
            Insn::Branch { a, b, .. } => a < 32 && b < 32,
            Insn::Load { a, b, .. } => a < 32 && b < 32,
            Insn::Store { a, b, .. } => a < 32 && b < 32,
            Insn::Data { a, .. } => a < 32,
            Insn::Code { a, .. } => a < 32,
            Insn::Reg { a, b, c, .. } => a < 32 && b < 32 && c < 32,
            Insn::Shift { a, c, by, .. } => a < 32 && c < 32 && by < 32,
            Insn::Jmp { a } => a < 32,
            Insn::Callr { a } => a < 32,
            Insn::Nextpc { c } => c < 32,
            Insn::Rdctl { c, n } => c < 32 && n < 32,
            Insn::Wrctl { n, a } => n < 32 && a < 32,
            Insn::Trap { imm } => imm < 32,
            Insn::Break { imm } => imm < 32,
            Insn::Br { .. } | Insn::Ret | Insn::Eret | Insn::Flushp | Insn::Sync => true,
        }
    }
}

/// The instruction of a word, or nothing for a word outside the table. Bits of the word that are
/// none of the instruction's fields do not count.
#[inline(always)]
pub fn decode(word: u32) -> Option<Insn>
    ensures table { result ≡ table_insn word }
    ensures valid { IfSome result (λ insn. IsTrue (is_valid insn)) }
{
    if word % 64 == 0x3a {
        decode_opx(word)
    } else {
        decode_op(word)
    }
}

#[inline(always)]
#[tactic(auto, unfolding(crate::specs::Table::table_insn))]
fn decode_op(word: u32) -> Option<Insn>
    requires { word % 2 ^ 6 ≢ 0x3a }
    ensures { result ≡ table_insn word }
{
    Some(match word % 64 {
        0x00 => jump_row(word, JumpOp::Call),
        0x01 => jump_row(word, JumpOp::Jmpi),
        0x03 => load_row(word, LoadOp::Ldbu, false),
        0x04 => imm_row(word, ImmOp::Addi),
        0x05 => store_row(word, Width::Byte, false),
        0x06 => br_row(word),
        0x07 => load_row(word, LoadOp::Ldb, false),
        0x08 => imm_row(word, ImmOp::Cmpgei),
        0x0b => load_row(word, LoadOp::Ldhu, false),
        0x0c => imm_row(word, ImmOp::Andi),
        0x0d => store_row(word, Width::Half, false),
        0x0e => branch_row(word, BranchOp::Bge),
        0x0f => load_row(word, LoadOp::Ldh, false),
        0x10 => imm_row(word, ImmOp::Cmplti),
        0x13 => data_row(word, DataOp::Initda),
        0x14 => imm_row(word, ImmOp::Ori),
        0x15 => store_row(word, Width::Word, false),
        0x16 => branch_row(word, BranchOp::Blt),
        0x17 => load_row(word, LoadOp::Ldw, false),
        0x18 => imm_row(word, ImmOp::Cmpnei),
        0x1b => data_row(word, DataOp::Flushda),
        0x1c => imm_row(word, ImmOp::Xori),
        0x1e => branch_row(word, BranchOp::Bne),
        0x20 => imm_row(word, ImmOp::Cmpeqi),
        0x23 => load_row(word, LoadOp::Ldbu, true),
        0x24 => imm_row(word, ImmOp::Muli),
        0x25 => store_row(word, Width::Byte, true),
        0x26 => branch_row(word, BranchOp::Beq),
        0x27 => load_row(word, LoadOp::Ldb, true),
        0x28 => imm_row(word, ImmOp::Cmpgeui),
        0x2b => load_row(word, LoadOp::Ldhu, true),
        0x2c => imm_row(word, ImmOp::Andhi),
        0x2d => store_row(word, Width::Half, true),
        0x2e => branch_row(word, BranchOp::Bgeu),
        0x2f => load_row(word, LoadOp::Ldh, true),
        0x30 => imm_row(word, ImmOp::Cmpltui),
        0x33 => data_row(word, DataOp::Initd),
        0x34 => imm_row(word, ImmOp::Orhi),
        0x35 => store_row(word, Width::Word, true),
        0x36 => branch_row(word, BranchOp::Bltu),
        0x37 => load_row(word, LoadOp::Ldw, true),
        0x3b => data_row(word, DataOp::Flushd),
        0x3c => imm_row(word, ImmOp::Xorhi),
        _ => return None,
    })
}

#[inline(always)]
#[tactic(auto, unfolding(crate::specs::Table::table_insn))]
fn decode_opx(word: u32) -> Option<Insn>
    requires { word % 2 ^ 6 ≡ 0x3a }
    ensures { result ≡ table_insn word }
{
    Some(match (word >> 11) % 64 {
        0x01 => Insn::Eret,
        0x02 => shift_row(word, ShiftOp::Roli),
        0x03 => reg_row(word, RegOp::Rol),
        0x04 => Insn::Flushp,
        0x05 => Insn::Ret,
        0x06 => reg_row(word, RegOp::Nor),
        0x07 => reg_row(word, RegOp::Mulxuu),
        0x08 => reg_row(word, RegOp::Cmpge),
        0x0b => reg_row(word, RegOp::Ror),
        0x0c => code_row(word, CodeLineOp::Flushi),
        0x0d => jmp_row(word),
        0x0e => reg_row(word, RegOp::And),
        0x10 => reg_row(word, RegOp::Cmplt),
        0x12 => shift_row(word, ShiftOp::Slli),
        0x13 => reg_row(word, RegOp::Sll),
        0x16 => reg_row(word, RegOp::Or),
        0x17 => reg_row(word, RegOp::Mulxsu),
        0x18 => reg_row(word, RegOp::Cmpne),
        0x1a => shift_row(word, ShiftOp::Srli),
        0x1b => reg_row(word, RegOp::Srl),
        0x1c => nextpc_row(word),
        0x1d => callr_row(word),
        0x1e => reg_row(word, RegOp::Xor),
        0x1f => reg_row(word, RegOp::Mulxss),
        0x20 => reg_row(word, RegOp::Cmpeq),
        0x24 => reg_row(word, RegOp::Divu),
        0x25 => reg_row(word, RegOp::Div),
        0x26 => rdctl_row(word),
        0x27 => reg_row(word, RegOp::Mul),
        0x28 => reg_row(word, RegOp::Cmpgeu),
        0x29 => code_row(word, CodeLineOp::Initi),
        0x2d => trap_row(word),
        0x2e => wrctl_row(word),
        0x30 => reg_row(word, RegOp::Cmpltu),
        0x31 => reg_row(word, RegOp::Add),
        0x34 => break_row(word),
        0x36 => Insn::Sync,
        0x39 => reg_row(word, RegOp::Sub),
        0x3a => shift_row(word, ShiftOp::Srai),
        0x3b => reg_row(word, RegOp::Sra),
        _ => return None,
    })
}

/// The word of an instruction. Bits that are none of its fields are 0, but for `eret` with A = 29
/// and B = 30, `ret` with A = 31, `callr` with C = 31, `trap` with C = 29 and `break` with C = 30.
pub fn encode(insn: &Insn) -> u32
    requires { IsTrue (is_valid insn.now) }
    ensures word { result ≡ word_of insn.now }
    ensures decoded { table_insn result ≡ Some insn.now }
{
    let insn = *insn;
    composed_word(insn)
}

#[tactic(auto, unfolding(crate::specs::Table::word_of))]
fn composed_word(insn: Insn) -> u32
    requires { IsTrue (is_valid insn) }
    ensures word { result ≡ word_of insn }
    ensures half { IsTrue (has_half insn) }
{
    match insn {
        Insn::Jump { op, target } => j_type(target, jump_op(op)),
        Insn::Imm { op, a, b, imm } => i_type(a, b, imm, imm_op(op)),
        Insn::Br { imm } => i_type(0, 0, imm, 0x06),
        Insn::Branch { op, a, b, imm } => i_type(a, b, imm, branch_op(op)),
        Insn::Load { op, io, a, b, imm } => i_type(a, b, imm, load_op(op, io)),
        Insn::Store {
            width,
            io,
            a,
            b,
            imm,
        } => i_type(a, b, imm, store_op(width, io)),
        Insn::Data { op, a, imm } => i_type(a, 0, imm, data_op(op)),
        Insn::Code { op, a } => r_type(a, 0, 0, code_opx(op), 0),
        Insn::Reg { op, a, b, c } => r_type(a, b, c, reg_opx(op), 0),
        Insn::Shift { op, a, c, by } => r_type(a, 0, c, shift_opx(op), by),
        Insn::Jmp { a } => r_type(a, 0, 0, 0x0d, 0),
        Insn::Callr { a } => r_type(a, 0, 31, 0x1d, 0),
        Insn::Ret => r_type(31, 0, 0, 0x05, 0),
        Insn::Eret => r_type(29, 30, 0, 0x01, 0),
        Insn::Nextpc { c } => r_type(0, 0, c, 0x1c, 0),
        Insn::Rdctl { c, n } => r_type(0, 0, c, 0x26, n),
        Insn::Wrctl { n, a } => r_type(a, 0, 0, 0x2e, n),
        Insn::Trap { imm } => r_type(0, 0, 29, 0x2d, imm),
        Insn::Break { imm } => r_type(0, 0, 30, 0x34, imm),
        Insn::Flushp => r_type(0, 0, 0, 0x04, 0),
        Insn::Sync => r_type(0, 0, 0, 0x36, 0),
    }
}
