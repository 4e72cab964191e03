//! What the instructions of Nios II do to the registers of a core, and what they ask of memory.
#![tactic(auto)]

ghost use Rattle.std.specs.Prelude.{◌≡◌, IsTrue};
ghost use Rattle.n2_insn.specs.Table.{is_valid};
ghost use Rattle.n2_exec.specs.Outcomes.{regs_of, asked_of, outcome_of, IsProper, HasAddress, loaded_value};
ghost use Rattle.n2_exec.specs.Effect.{effect_of, effect_of_word};

pub mod laws;
mod outcomes;
mod registers;
mod values;

use n2_insn::{DataOp, Insn, decode};
use n2_word::{Width, sign8, sign16};
use outcomes::{
    branch, branched, called, computed, data_address, jump, jumped, loads, low_bits, next,
    reg_outcome, returned, stores,
};
pub use registers::{Regs, interrupt, loaded, passed, raise, waiting};
use values::{imm_value, shift_value};

/// Why an exception is raised.
#[derive(Clone, Copy, Debug, PartialEq, Eq)]
pub enum Cause {
    Illegal,
    MisalignedData,
    MisalignedTarget,
    Division,
    Trap,
}

/// What an instruction comes to. `Next` has the registers after it. A load, a store or an operation
/// on a line is asked of the memory: `io` says that it goes past the cache whatever the address,
/// `to` is the register that a load writes, `signed` that a narrow load extends its sign, and
/// `value` is the register's low bits of the store's width.
#[derive(Clone, Copy, Debug, PartialEq, Eq)]
pub enum Outcome {
    Next(Regs),
    Load {
        address: u32,
        width: Width,
        signed: bool,
        io: bool,
        to: u8,
    },
    Store {
        address: u32,
        width: Width,
        value: u32,
        io: bool,
    },
    LineOp {
        op: DataOp,
        address: u32,
    },
    CodeOp {
        address: u32,
    },
    Raise(Cause),
    Broke,
}

/// What an instruction that was done in place leaves to do: nothing where the registers are those
/// after it. Else they are as before it, the fields are those of `Outcome`, and what is asked for
/// moves them on: `Regs::put_loaded` after a load, `Regs::advance` after a store or an operation on
/// a line, `Regs::take_exception` where a cause is raised.
#[derive(Clone, Copy, Debug, PartialEq, Eq)]
pub enum Asked {
    Done,
    Load {
        address: u32,
        width: Width,
        signed: bool,
        io: bool,
        to: u8,
    },
    Store {
        address: u32,
        width: Width,
        value: u32,
        io: bool,
    },
    LineOp {
        op: DataOp,
        address: u32,
    },
    CodeOp {
        address: u32,
    },
    Raise(Cause),
    Broke,
}

/// Does an instruction to the registers, and answers what it leaves to do (Nios II Processor
/// Reference Guide, "Instruction Set Reference"). Nothing of it happens where it raises.
#[inline(always)]
#[tactic(auto, unfolding(crate::specs::Effect::effect_of))]
pub fn act(regs: &mut Regs, insn: &Insn) -> Asked
    requires { IsTrue (is_valid insn.now) }
    ensures registers { regs.new ≡ regs_of regs.old (effect_of regs.old insn.now) }
    ensures asked { result ≡ asked_of (effect_of regs.old insn.now) }
    ensures proper { IsProper result }
    ensures address { HasAddress result }
{
    match *insn {
        Insn::Jump { op, target } => jump(regs, op, target),
        Insn::Imm { op, a, b, imm } => {
            let value = imm_value(op, regs.reg(a), imm);
            computed(regs, b, value)
        }
        Insn::Br { imm } => branched(regs, imm),
        Insn::Branch { op, a, b, imm } => {
            let (a, b) = (regs.reg(a), regs.reg(b));
            branch(regs, op, a, b, imm)
        }
        Insn::Load { op, io, a, b, imm } => loads(data_address(regs, a, imm), op, io, b),
        Insn::Store {
            width,
            io,
            a,
            b,
            imm,
        } => stores(data_address(regs, a, imm), width, regs.reg(b), io),
        Insn::Data { op, a, imm } => Asked::LineOp {
            op,
            address: data_address(regs, a, imm),
        },
        Insn::Code { a, .. } => Asked::CodeOp {
            address: regs.reg(a),
        },
        Insn::Reg { op, a, b, c } => {
            let (a, b) = (regs.reg(a), regs.reg(b));
            reg_outcome(regs, op, a, b, c)
        }
        Insn::Shift { op, a, c, by } => {
            let value = shift_value(op, regs.reg(a), by);
            computed(regs, c, value)
        }
        Insn::Jmp { a } => {
            let address = regs.reg(a);
            jumped(regs, address)
        }
        Insn::Callr { a } => {
            let address = regs.reg(a);
            called(regs, address)
        }
        Insn::Ret => {
            let address = regs.reg(31);
            jumped(regs, address)
        }
        Insn::Eret => {
            let address = regs.reg(29);
            returned(regs, address)
        }
        Insn::Nextpc { c } => {
            let value = regs.pc.wrapping_add(4);
            computed(regs, c, value)
        }
        Insn::Rdctl { c, n } => {
            let value = regs.control(n);
            computed(regs, c, value)
        }
        Insn::Wrctl { n, a } => {
            let value = regs.reg(a);
            regs.set_control(n, value);
            next(regs)
        }
        Insn::Trap { .. } => Asked::Raise(Cause::Trap),
        Insn::Break { .. } => Asked::Broke,
        Insn::Flushp | Insn::Sync => next(regs),
    }
}

/// Does the instruction of a word to the registers, and answers what it leaves to do; a word
/// outside of the instruction table raises.
#[inline(always)]
#[tactic(auto, unfolding(crate::specs::Effect::effect_of_word))]
pub fn act_word(regs: &mut Regs, word: u32) -> Asked
    ensures registers { regs.new ≡ regs_of regs.old (effect_of_word regs.old word) }
    ensures asked { result ≡ asked_of (effect_of_word regs.old word) }
    ensures proper { IsProper result }
    ensures address { HasAddress result }
{
    match decode(word) {
        Some(insn) => act(regs, &insn),
        None => Asked::Raise(Cause::Illegal),
    }
}

/// What an instruction does, with the registers by value: `act` on a copy of them.
pub fn effect(regs: &Regs, insn: &Insn) -> Outcome
    requires { IsTrue (is_valid insn.now) }
    ensures row { result ≡ effect_of regs.now insn.now }
    ensures proper { IsProper (asked_of result) }
{
    let mut next = *regs;
    let asked = act(&mut next, insn);
    whole(next, asked)
}

/// The outcome of registers and of what is left to do.
fn whole(regs: Regs, asked: Asked) -> Outcome
    ensures { result ≡ outcome_of regs asked }
{
    match asked {
        Asked::Done => Outcome::Next(regs),
        Asked::Load {
            address,
            width,
            signed,
            io,
            to,
        } => Outcome::Load {
            address,
            width,
            signed,
            io,
            to,
        },
        Asked::Store {
            address,
            width,
            value,
            io,
        } => Outcome::Store {
            address,
            width,
            value,
            io,
        },
        Asked::LineOp { op, address } => Outcome::LineOp { op, address },
        Asked::CodeOp { address } => Outcome::CodeOp { address },
        Asked::Raise(cause) => Outcome::Raise(cause),
        Asked::Broke => Outcome::Broke,
    }
}

/// What a load writes, by the byte, half or word that it read: its sign is extended where `signed`
/// says so.
#[inline(always)]
pub fn extended(value: u32, width: Width, signed: bool) -> u32
    ensures { result ≡ loaded_value width signed value }
{
    match width {
        Width::Byte if signed => sign8((value % 0x100) as u8),
        Width::Half if signed => sign16((value % 0x1_0000) as u16),
        _ => low_bits(value, width),
    }
}
