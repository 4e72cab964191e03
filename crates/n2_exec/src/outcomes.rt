//! What the kinds of instructions do to the registers, and what they ask for.

ghost use Rattle.std.specs.Prelude.{◌≡◌, ◌*◌, ◌<◌, ◌^◌};
ghost use Rattle.n2_word.specs.Words as words;
ghost use Rattle.n2_exec.specs.Registers as registers;
ghost use Rattle.n2_exec.specs.Outcomes as outcome;
ghost use Rattle.n2_exec.specs.Outcomes.{regs_of, asked_of, IsProper};

use crate::registers::Regs;
use crate::values::{has_quotient, is_taken, reg_value};
use crate::{Asked, Cause};
use n2_insn::{BranchOp, JumpOp, LoadOp, RegOp};
use n2_word::{Width, aligned, sign16};

/// A register is written and the next instruction follows.
#[inline(always)]
pub fn computed(regs: &mut Regs, to: u8, value: u32) -> Asked
    requires { to < 32 }
    ensures registers { regs.new ≡ regs_of regs.old (outcome.computed regs.old to value) }
    ensures asked { result ≡ asked_of (outcome.computed regs.old to value) }
{
    regs.put_loaded(to, value);
    Asked::Done
}

/// The next instruction follows.
#[inline(always)]
pub fn next(regs: &mut Regs) -> Asked
    ensures registers { regs.new ≡ registers.passed_regs regs.old }
    ensures asked { result ≡ Asked.Done }
{
    regs.advance();
    Asked::Done
}

/// On at an address.
#[inline(always)]
pub fn jumped(regs: &mut Regs, address: u32) -> Asked
    ensures registers { regs.new ≡ regs_of regs.old (outcome.jumped regs.old address) }
    ensures asked { result ≡ asked_of (outcome.jumped regs.old address) }
{
    if address % 4 != 0 {
        return Asked::Raise(Cause::MisalignedTarget);
    }
    regs.pc = address;
    Asked::Done
}

/// On at an address, with the address of the next instruction in r31.
#[inline(always)]
pub fn called(regs: &mut Regs, address: u32) -> Asked
    ensures registers { regs.new ≡ regs_of regs.old (outcome.jumped (registers.linked regs.old) address) }
    ensures asked { result ≡ asked_of (outcome.jumped (registers.linked regs.old) address) }
{
    if address % 4 != 0 {
        return Asked::Raise(Cause::MisalignedTarget);
    }
    regs.link();
    regs.pc = address;
    Asked::Done
}

/// On at an address, with status as it was before the exception.
#[inline(always)]
pub fn returned(regs: &mut Regs, address: u32) -> Asked
    ensures registers { regs.new ≡ regs_of regs.old (outcome.jumped (registers.restored regs.old) address) }
    ensures asked { result ≡ asked_of (outcome.jumped (registers.restored regs.old) address) }
{
    if address % 4 != 0 {
        return Asked::Raise(Cause::MisalignedTarget);
    }
    regs.status = regs.estatus;
    regs.pc = address;
    Asked::Done
}

/// A jump to a given place.
#[inline(always)]
pub fn jump(regs: &mut Regs, op: JumpOp, target: u32) -> Asked
    requires { target < 2 ^ 26 }
    ensures registers { regs.new ≡ regs_of regs.old (outcome.jump regs.old op target) }
    ensures asked { result ≡ asked_of (outcome.jump regs.old op target) }
{
    let pc = (regs.pc >> 28 << 28) + target * 4;
    match op {
        JumpOp::Call => regs.link(),
        JumpOp::Jmpi => {}
    }
    regs.pc = pc;
    Asked::Done
}

/// Past the next instruction by the immediate.
#[inline(always)]
pub fn branched(regs: &mut Regs, imm: u16) -> Asked
    ensures registers { regs.new ≡ regs_of regs.old (outcome.branched regs.old imm) }
    ensures asked { result ≡ asked_of (outcome.branched regs.old imm) }
{
    let address = regs.pc.wrapping_add(4).wrapping_add(sign16(imm));
    jumped(regs, address)
}

/// A conditional branch, by what its registers read.
#[inline(always)]
pub fn branch(regs: &mut Regs, op: BranchOp, a: u32, b: u32, imm: u16) -> Asked
    ensures registers { regs.new ≡ regs_of regs.old (outcome.branch regs.old op a b imm) }
    ensures asked { result ≡ asked_of (outcome.branch regs.old op a b imm) }
{
    if is_taken(op, a, b) {
        branched(regs, imm)
    } else {
        next(regs)
    }
}

/// A value of two registers, where it is no division without a quotient.
#[inline(always)]
pub fn reg_outcome(regs: &mut Regs, op: RegOp, a: u32, b: u32, to: u8) -> Asked
    requires { to < 32 }
    ensures registers { regs.new ≡ regs_of regs.old (outcome.reg_outcome regs.old op a b to) }
    ensures asked { result ≡ asked_of (outcome.reg_outcome regs.old op a b to) }
{
    if has_quotient(op, a, b) {
        computed(regs, to, reg_value(op, a, b))
    } else {
        Asked::Raise(Cause::Division)
    }
}

/// The address of an access.
#[inline(always)]
pub fn data_address(regs: &Regs, a: u8, imm: u16) -> u32
    requires { a < 32 }
    ensures { result ≡ outcome.data_address regs.now a imm }
{
    regs.reg(a).wrapping_add(sign16(imm))
}

/// A load, if its address is aligned.
#[inline(always)]
pub fn loads(address: u32, op: LoadOp, io: bool, to: u8) -> Asked
    requires { to < 32 }
    ensures asked { result ≡ asked_of (outcome.loads address op io to) }
    ensures proper { IsProper result }
{
    let (width, signed) = match op {
        LoadOp::Ldbu => (Width::Byte, false),
        LoadOp::Ldb => (Width::Byte, true),
        LoadOp::Ldhu => (Width::Half, false),
        LoadOp::Ldh => (Width::Half, true),
        LoadOp::Ldw => (Width::Word, false),
    };
    if aligned(address, width) {
        Asked::Load {
            address,
            width,
            signed,
            io,
            to,
        }
    } else {
        Asked::Raise(Cause::MisalignedData)
    }
}

/// A store, if its address is aligned.
#[inline(always)]
pub fn stores(address: u32, width: Width, value: u32, io: bool) -> Asked
    ensures asked { result ≡ asked_of (outcome.stores address width value io) }
    ensures proper { IsProper result }
{
    if aligned(address, width) {
        let value = low_bits(value, width);
        Asked::Store {
            address,
            width,
            value,
            io,
        }
    } else {
        Asked::Raise(Cause::MisalignedData)
    }
}

/// The low bits of a value, as many as the width has.
#[inline(always)]
pub fn low_bits(value: u32, width: Width) -> u32
    ensures low { result ≡ words.low_bits width value }
    ensures fits { result < 2 ^ (8 * words.size width) }
{
    match width {
        Width::Byte => value % 0x100,
        Width::Half => value % 0x1_0000,
        Width::Word => value,
    }
}
