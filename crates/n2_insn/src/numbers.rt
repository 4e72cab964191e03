//! The OP and OPX numbers of the names.

ghost use Rattle.std.specs.Prelude.{◌≡◌, ◌<◌, ℕ};
ghost use Rattle.n2_insn.specs.declared.Insn.{Insn};
ghost use Rattle.n2_insn.specs.Fields.{IType, RType, JType};
ghost use Rattle.n2_insn.specs.Table.{row};

use crate::{BranchOp, CodeLineOp, DataOp, ImmOp, JumpOp, LoadOp, RegOp, ShiftOp};
use n2_word::Width;

pub fn jump_op(op: JumpOp) -> u32
    ensures number { (target : ℕ) → row (Insn.Jump op target) ≡ JType target result }
    ensures small { result < 64 }
{
    match op {
        JumpOp::Call => 0x00,
        JumpOp::Jmpi => 0x01,
    }
}

pub fn imm_op(op: ImmOp) -> u32
    ensures number { (a b imm : ℕ) → row (Insn.Imm op a b imm) ≡ IType a b imm result }
    ensures small { result < 64 }
{
    match op {
        ImmOp::Addi => 0x04,
        ImmOp::Muli => 0x24,
        ImmOp::Andi => 0x0c,
        ImmOp::Ori => 0x14,
        ImmOp::Xori => 0x1c,
        ImmOp::Andhi => 0x2c,
        ImmOp::Orhi => 0x34,
        ImmOp::Xorhi => 0x3c,
        ImmOp::Cmpgei => 0x08,
        ImmOp::Cmplti => 0x10,
        ImmOp::Cmpnei => 0x18,
        ImmOp::Cmpeqi => 0x20,
        ImmOp::Cmpgeui => 0x28,
        ImmOp::Cmpltui => 0x30,
    }
}

pub fn branch_op(op: BranchOp) -> u32
    ensures number { (a b imm : ℕ) → row (Insn.Branch op a b imm) ≡ IType a b imm result }
    ensures small { result < 64 }
{
    match op {
        BranchOp::Bge => 0x0e,
        BranchOp::Blt => 0x16,
        BranchOp::Bne => 0x1e,
        BranchOp::Beq => 0x26,
        BranchOp::Bgeu => 0x2e,
        BranchOp::Bltu => 0x36,
    }
}

pub fn load_op(op: LoadOp, io: bool) -> u32
    ensures number { (a b imm : ℕ) → row (Insn.Load op io a b imm) ≡ IType a b imm result }
    ensures small { result < 64 }
{
    match (op, io) {
        (LoadOp::Ldbu, false) => 0x03,
        (LoadOp::Ldbu, true) => 0x23,
        (LoadOp::Ldb, false) => 0x07,
        (LoadOp::Ldb, true) => 0x27,
        (LoadOp::Ldhu, false) => 0x0b,
        (LoadOp::Ldhu, true) => 0x2b,
        (LoadOp::Ldh, false) => 0x0f,
        (LoadOp::Ldh, true) => 0x2f,
        (LoadOp::Ldw, false) => 0x17,
        (LoadOp::Ldw, true) => 0x37,
    }
}

pub fn store_op(width: Width, io: bool) -> u32
    ensures number { (a b imm : ℕ) → row (Insn.Store width io a b imm) ≡ IType a b imm result }
    ensures small { result < 64 }
{
    match (width, io) {
        (Width::Byte, false) => 0x05,
        (Width::Byte, true) => 0x25,
        (Width::Half, false) => 0x0d,
        (Width::Half, true) => 0x2d,
        (Width::Word, false) => 0x15,
        (Width::Word, true) => 0x35,
    }
}

pub fn data_op(op: DataOp) -> u32
    ensures number { (a imm : ℕ) → row (Insn.Data op a imm) ≡ IType a 0 imm result }
    ensures small { result < 64 }
{
    match op {
        DataOp::Initda => 0x13,
        DataOp::Initd => 0x33,
        DataOp::Flushda => 0x1b,
        DataOp::Flushd => 0x3b,
    }
}

pub fn reg_opx(op: RegOp) -> u32
    ensures number { (a b c : ℕ) → row (Insn.Reg op a b c) ≡ RType a b c result 0 }
    ensures small { result < 64 }
{
    match op {
        RegOp::Add => 0x31,
        RegOp::Sub => 0x39,
        RegOp::Mul => 0x27,
        RegOp::Mulxuu => 0x07,
        RegOp::Mulxsu => 0x17,
        RegOp::Mulxss => 0x1f,
        RegOp::Divu => 0x24,
        RegOp::Div => 0x25,
        RegOp::And => 0x0e,
        RegOp::Or => 0x16,
        RegOp::Xor => 0x1e,
        RegOp::Nor => 0x06,
        RegOp::Cmpge => 0x08,
        RegOp::Cmplt => 0x10,
        RegOp::Cmpne => 0x18,
        RegOp::Cmpeq => 0x20,
        RegOp::Cmpgeu => 0x28,
        RegOp::Cmpltu => 0x30,
        RegOp::Sll => 0x13,
        RegOp::Srl => 0x1b,
        RegOp::Sra => 0x3b,
        RegOp::Rol => 0x03,
        RegOp::Ror => 0x0b,
    }
}

pub fn shift_opx(op: ShiftOp) -> u32
    ensures number { (a c by : ℕ) → row (Insn.Shift op a c by) ≡ RType a 0 c result by }
    ensures small { result < 64 }
{
    match op {
        ShiftOp::Slli => 0x12,
        ShiftOp::Srli => 0x1a,
        ShiftOp::Srai => 0x3a,
        ShiftOp::Roli => 0x02,
    }
}

pub fn code_opx(op: CodeLineOp) -> u32
    ensures number { (a : ℕ) → row (Insn.Code op a) ≡ RType a 0 0 result 0 }
    ensures small { result < 64 }
{
    match op {
        CodeLineOp::Flushi => 0x0c,
        CodeLineOp::Initi => 0x29,
    }
}
