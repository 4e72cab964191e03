//! The instructions of a word, with the fields that they take from it.

ghost use Rattle.std.specs.Prelude.{◌≡◌};
ghost use Rattle.n2_insn.specs.declared.Insn.{Insn};
ghost use Rattle.n2_insn.specs.Fields as field;

use crate::fields::{a_of, b_of, c_of, imm5_of, imm16_of, imm26_of};
use crate::{BranchOp, CodeLineOp, DataOp, ImmOp, Insn, JumpOp, LoadOp, RegOp, ShiftOp};
use n2_word::Width;

pub fn jump_row(word: u32, op: JumpOp) -> Insn
    ensures { result ≡ Insn.Jump op (field.imm26_of word) }
{
    Insn::Jump {
        op,
        target: imm26_of(word),
    }
}

pub fn imm_row(word: u32, op: ImmOp) -> Insn
    ensures { result ≡ Insn.Imm op (field.a_of word) (field.b_of word) (field.imm16_of word) }
{
    Insn::Imm {
        op,
        a: a_of(word),
        b: b_of(word),
        imm: imm16_of(word),
    }
}

pub fn br_row(word: u32) -> Insn
    ensures { result ≡ Insn.Br (field.imm16_of word) }
{
    Insn::Br {
        imm: imm16_of(word),
    }
}

pub fn branch_row(word: u32, op: BranchOp) -> Insn
    ensures { result ≡ Insn.Branch op (field.a_of word) (field.b_of word) (field.imm16_of word) }
{
    Insn::Branch {
        op,
        a: a_of(word),
        b: b_of(word),
        imm: imm16_of(word),
    }
}

pub fn load_row(word: u32, op: LoadOp, io: bool) -> Insn
    ensures { result ≡ Insn.Load op io (field.a_of word) (field.b_of word) (field.imm16_of word) }
{
    Insn::Load {
        op,
        io,
        a: a_of(word),
        b: b_of(word),
        imm: imm16_of(word),
    }
}

pub fn store_row(word: u32, width: Width, io: bool) -> Insn
    ensures { result ≡ Insn.Store width io (field.a_of word) (field.b_of word) (field.imm16_of word) }
{
    Insn::Store {
        width,
        io,
        a: a_of(word),
        b: b_of(word),
        imm: imm16_of(word),
    }
}

pub fn data_row(word: u32, op: DataOp) -> Insn
    ensures { result ≡ Insn.Data op (field.a_of word) (field.imm16_of word) }
{
    Insn::Data {
        op,
        a: a_of(word),
        imm: imm16_of(word),
    }
}

pub fn code_row(word: u32, op: CodeLineOp) -> Insn
    ensures { result ≡ Insn.Code op (field.a_of word) }
{
    Insn::Code { op, a: a_of(word) }
}

pub fn reg_row(word: u32, op: RegOp) -> Insn
    ensures { result ≡ Insn.Reg op (field.a_of word) (field.b_of word) (field.c_of word) }
{
    Insn::Reg {
        op,
        a: a_of(word),
        b: b_of(word),
        c: c_of(word),
    }
}

pub fn shift_row(word: u32, op: ShiftOp) -> Insn
    ensures { result ≡ Insn.Shift op (field.a_of word) (field.c_of word) (field.imm5_of word) }
{
    Insn::Shift {
        op,
        a: a_of(word),
        c: c_of(word),
        by: imm5_of(word),
    }
}

pub fn jmp_row(word: u32) -> Insn
    ensures { result ≡ Insn.Jmp (field.a_of word) }
{
    Insn::Jmp { a: a_of(word) }
}

pub fn callr_row(word: u32) -> Insn
    ensures { result ≡ Insn.Callr (field.a_of word) }
{
    Insn::Callr { a: a_of(word) }
}

pub fn nextpc_row(word: u32) -> Insn
    ensures { result ≡ Insn.Nextpc (field.c_of word) }
{
    Insn::Nextpc { c: c_of(word) }
}

pub fn rdctl_row(word: u32) -> Insn
    ensures { result ≡ Insn.Rdctl (field.c_of word) (field.imm5_of word) }
{
    Insn::Rdctl {
        c: c_of(word),
        n: imm5_of(word),
    }
}

pub fn wrctl_row(word: u32) -> Insn
    ensures { result ≡ Insn.Wrctl (field.imm5_of word) (field.a_of word) }
{
    Insn::Wrctl {
        n: imm5_of(word),
        a: a_of(word),
    }
}

pub fn trap_row(word: u32) -> Insn
    ensures { result ≡ Insn.Trap (field.imm5_of word) }
{
    Insn::Trap { imm: imm5_of(word) }
}

pub fn break_row(word: u32) -> Insn
    ensures { result ≡ Insn.Break (field.imm5_of word) }
{
    Insn::Break { imm: imm5_of(word) }
}
