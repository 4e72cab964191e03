//! What a core wants of the bus for what it is about to do.

ghost use Rattle.std.specs.Prelude.{◌≡◌, ◌<◌, length};
ghost use Rattle.n2_exec.specs.declared.registers.Regs.{Regs as RegsValue};
ghost use Rattle.n2_front.specs.Front.{Front};
ghost use Rattle.n2_front.specs.Tasks.{task_of};
ghost use Rattle.n2_dcache.specs.Cache.{slot_at};
ghost use Rattle.n2_front.specs.Turn as spec;
ghost use Rattle.n2_cpu.specs.Aims.{intent_of, IsFit};

use crate::aim::Aim;
use n2_bus::Request;
use n2_dcache::DCache;
use n2_exec::Asked;
use n2_insn::DataOp;
use n2_word::{line_of, set_of};

/// The write-back of what a set holds, where it is dirty.
fn back(dcache: &DCache, set: u32) -> Option<Request>
    requires { set < length dcache.now }
    ensures { result ≡ spec.back (slot_at dcache.now set) }
{
    if !dcache.is_dirty(set) {
        return None;
    }
    match dcache.held(set) {
        Some(held) => Some(Request::WriteBack(held.line, held.words)),
        None => None,
    }
}

/// What a load or store of a line wants: nothing where it is held; else what is dirty in its set goes
/// first, and then the line is filled.
#[inline(always)]
fn wants_line(dcache: &DCache, line: u32) -> Option<Request>
    ensures { result ≡ spec.wants_line dcache.now line }
{
    if dcache.has(line) {
        return None;
    }
    match back(dcache, set_of(line, dcache.sets())) {
        Some(request) => Some(request),
        None => Some(Request::FillData(line)),
    }
}

/// What an operation on the data cache wants.
fn wants_op(dcache: &DCache, op: DataOp, address: u32) -> Option<Request>
    ensures { result ≡ spec.wants_op dcache.now op address }
{
    let line = line_of(address);
    match op {
        DataOp::Initd => None,
        DataOp::Initda => None,
        DataOp::Flushd => back(dcache, set_of(line, dcache.sets())),
        DataOp::Flushda => {
            if dcache.has(line) {
                back(dcache, set_of(line, dcache.sets()))
            } else {
                None
            }
        }
    }
}

/// What an instruction's task wants.
#[inline(always)]
fn wants_asked(dcache: &DCache, asked: &Asked) -> Option<Request>
    ensures { result ≡ spec.wants_task dcache.now (task_of asked.now) }
{
    match asked {
        Asked::Load {
            address,
            width,
            io,
            ..
        } => {
            if *io || *address >= 0x8000_0000 {
                Some(Request::Read(*address & 0x7fff_ffff, *width))
            } else {
                wants_line(dcache, line_of(*address))
            }
        }
        Asked::Store {
            address,
            width,
            value,
            io,
        } => {
            if *io || *address >= 0x8000_0000 {
                Some(Request::Write(*address & 0x7fff_ffff, *width, *value))
            } else {
                wants_line(dcache, line_of(*address))
            }
        }
        Asked::LineOp { op, address } => wants_op(dcache, *op, *address),
        Asked::Done => None,
        Asked::CodeOp { .. } => None,
        Asked::Raise(_) => None,
        Asked::Broke => None,
    }
}

/// What a core wants of the bus.
#[inline(never)]
pub fn wants(dcache: &DCache, aim: &Aim) -> Option<Request>
    requires { IsFit (length dcache.now) aim.now }
    ensures { (f : Front) (regs : RegsValue) → result ≡ spec.wants_by dcache.now (intent_of f regs aim.now) }
{
    match aim {
        Aim::Sample => Some(Request::Sample),
        Aim::Evict(set) => back(dcache, *set),
        Aim::Interrupt => None,
        Aim::Stop(_) => None,
        Aim::FillCode(line) => Some(Request::FillCode(*line)),
        Aim::Do(asked, _) => wants_asked(dcache, asked),
    }
}
