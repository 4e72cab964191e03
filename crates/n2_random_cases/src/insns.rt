//! Instructions by the names and the order of operands of the assembler.

use n2_insn::{BranchOp, DataOp, ImmOp, Insn, LoadOp, RegOp};
use n2_word::Width;

pub fn addi(to: u8, from: u8, value: u16) -> Insn {
    Insn::Imm {
        op: ImmOp::Addi,
        a: from,
        b: to,
        imm: value,
    }
}

pub fn movi(to: u8, value: u16) -> Insn {
    addi(to, 0, value)
}

pub fn andi(to: u8, from: u8, value: u16) -> Insn {
    Insn::Imm {
        op: ImmOp::Andi,
        a: from,
        b: to,
        imm: value,
    }
}

pub fn ori(to: u8, from: u8, value: u16) -> Insn {
    Insn::Imm {
        op: ImmOp::Ori,
        a: from,
        b: to,
        imm: value,
    }
}

pub fn orhi(to: u8, from: u8, value: u16) -> Insn {
    Insn::Imm {
        op: ImmOp::Orhi,
        a: from,
        b: to,
        imm: value,
    }
}

/// What is computed from two registers.
pub fn reg(op: RegOp, to: u8, a: u8, b: u8) -> Insn {
    Insn::Reg { op, a, b, c: to }
}

/// A load through the cache.
pub fn load(op: LoadOp, to: u8, at: u16, base: u8) -> Insn {
    Insn::Load {
        op,
        io: false,
        a: base,
        b: to,
        imm: at,
    }
}

pub fn ldw(to: u8, at: u16, base: u8) -> Insn {
    load(LoadOp::Ldw, to, at, base)
}

pub fn ldwio(to: u8, at: u16, base: u8) -> Insn {
    Insn::Load {
        op: LoadOp::Ldw,
        io: true,
        a: base,
        b: to,
        imm: at,
    }
}

/// A store through the cache.
pub fn store(width: Width, from: u8, at: u16, base: u8) -> Insn {
    Insn::Store {
        width,
        io: false,
        a: base,
        b: from,
        imm: at,
    }
}

pub fn stw(from: u8, at: u16, base: u8) -> Insn {
    store(Width::Word, from, at, base)
}

/// A store past the cache.
pub fn store_io(width: Width, from: u8, at: u16, base: u8) -> Insn {
    Insn::Store {
        width,
        io: true,
        a: base,
        b: from,
        imm: at,
    }
}

pub fn stwio(from: u8, at: u16, base: u8) -> Insn {
    store_io(Width::Word, from, at, base)
}

fn data(op: DataOp, at: u16, base: u8) -> Insn {
    Insn::Data {
        op,
        a: base,
        imm: at,
    }
}

pub fn initd(at: u16, base: u8) -> Insn {
    data(DataOp::Initd, at, base)
}

pub fn initda(at: u16, base: u8) -> Insn {
    data(DataOp::Initda, at, base)
}

pub fn flushd(at: u16, base: u8) -> Insn {
    data(DataOp::Flushd, at, base)
}

pub fn flushda(at: u16, base: u8) -> Insn {
    data(DataOp::Flushda, at, base)
}

pub fn rdctl(to: u8, n: u8) -> Insn {
    Insn::Rdctl { c: to, n }
}

pub fn wrctl(n: u8, from: u8) -> Insn {
    Insn::Wrctl { n, a: from }
}

fn branch(op: BranchOp, a: u8, b: u8, offset: u16) -> Insn {
    Insn::Branch {
        op,
        a,
        b,
        imm: offset,
    }
}

pub fn beq(a: u8, b: u8, offset: u16) -> Insn {
    branch(BranchOp::Beq, a, b, offset)
}

pub fn bne(a: u8, b: u8, offset: u16) -> Insn {
    branch(BranchOp::Bne, a, b, offset)
}

pub fn br(offset: u16) -> Insn {
    Insn::Br { imm: offset }
}

/// The offset of a branch over so many instructions.
pub fn over(count: u16) -> u16 {
    count.wrapping_mul(4)
}

/// The offset of a branch to the instruction that stands so many before the next one.
pub fn back(count: u16) -> u16 {
    0u16.wrapping_sub(over(count))
}
