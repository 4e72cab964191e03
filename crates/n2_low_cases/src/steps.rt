//! Cases of what instructions and exceptions do to registers. Registers are given by names and words, as
//! in `pc 00000040 r4 00000001`; those that are not given are 0.

use n2_cases::{NoAnswer, number_in, put, put_shown, put_word, word_in};
use n2_exec::{Outcome, Regs, act, act_word, effect, interrupt, loaded, passed, raise, waiting};
use n2_insn::decode;
use n2_word::Width;

/// `effect REGISTERS insn WORD`: what an instruction comes to, by the kind of its outcome; of `next`
/// the program counter and the registers that changed. `act REGISTERS insn WORD` and `acts REGISTERS
/// insn WORD ..`: what an instruction, or one word after another, leaves to do, and the changes.
/// `raise REGISTERS`, `interrupt REGISTERS`, `passed REGISTERS` and `loaded N WORD REGISTERS`: the
/// changes. `lines WORD REGISTERS`: ipending where these lines are latched. `controls REGISTERS`: the
/// control registers. `waiting REGISTERS`: whether an interrupt is to be taken. `reset PC CPUID
/// VECTOR`: the registers that are not 0.
pub fn answer(kind: &str, words: &[&str], out: &mut Vec<u8>) -> Result<(), NoAnswer> {
    match kind {
        "effect" => put_effect(words, out),
        "act" => put_act(words, out),
        "acts" => put_acts(words, out),
        "loaded" => put_loaded(words, out),
        "lines" => put_latched(words, out),
        "reset" => put_reset(words, out),
        _ => put_step(kind, &regs_in(words)?, out),
    }
}

fn put_step(kind: &str, regs: &Regs, out: &mut Vec<u8>) -> Result<(), NoAnswer> {
    match kind {
        "raise" => put_changes(regs, &raise(regs), out),
        "interrupt" => put_changes(regs, &interrupt(regs), out),
        "passed" => put_changes(regs, &passed(regs), out),
        "controls" => put_controls(regs, out),
        "waiting" => put_shown(out, "", &waiting(regs)),
        _ => Err(NoAnswer::NoCase),
    }
}

/// Registers by their names.
fn regs_in(words: &[&str]) -> Result<Regs, NoAnswer> {
    let mut regs = Regs::at_reset(0, 0, 0);
    for pair in words.chunks(2) {
        match *pair {
            [name, word] => put_in(&mut regs, name, word_in(word)?)?,
            _ => return Err(NoAnswer::NoCase),
        }
    }
    Ok(regs)
}

fn put_in(regs: &mut Regs, name: &str, value: u32) -> Result<(), NoAnswer> {
    match name {
        "pc" => regs.pc = value,
        "status" => regs.status = value,
        "estatus" => regs.estatus = value,
        "bstatus" => regs.bstatus = value,
        "ienable" => regs.ienable = value,
        "latch" => regs.latch = value,
        "cpuid" => regs.cpuid = value,
        "vector" => regs.vector = value,
        _ => return put_in_gpr(regs, name, value),
    }
    Ok(())
}

fn put_in_gpr(regs: &mut Regs, name: &str, value: u32) -> Result<(), NoAnswer> {
    let n = number_in(31, name.strip_prefix('r').ok_or(NoAnswer::NoCase)?)?;
    regs.gpr[n as usize] = value;
    Ok(())
}

fn put_effect(words: &[&str], out: &mut Vec<u8>) -> Result<(), NoAnswer> {
    let [given @ .., "insn", word] = words else {
        return Err(NoAnswer::NoCase);
    };
    let regs = regs_in(given)?;
    match effect_of(&regs, word_in(word)?)? {
        Outcome::Next(next) => {
            put(out, "next ")?;
            put_changes(&regs, &next, out)
        }
        other => put_outcome(other, out),
    }
}

fn effect_of(regs: &Regs, word: u32) -> Result<Outcome, NoAnswer> {
    match decode(word) {
        Some(insn) => Ok(effect(regs, &insn)),
        None => Err(NoAnswer::NoCase),
    }
}

fn put_outcome(outcome: Outcome, out: &mut Vec<u8>) -> Result<(), NoAnswer> {
    match outcome {
        Outcome::Next(_) => Ok(()),
        Outcome::Load {
            address,
            width,
            signed,
            io,
            to,
        } => {
            put(out, "load")?;
            put_access(address, width, out)?;
            put_shown(out, " signed ", &signed)?;
            put_shown(out, " io ", &io)?;
            put_shown(out, " to r", &to)
        }
        Outcome::Store {
            address,
            width,
            value,
            io,
        } => {
            put(out, "store")?;
            put_access(address, width, out)?;
            put_word(out, " ", value)?;
            put_shown(out, " io ", &io)
        }
        Outcome::LineOp { op, address } => {
            put_shown(out, "line ", &op)?;
            put_word(out, " ", address)
        }
        Outcome::CodeOp { address } => { put_word(out, "code ", address) }
        Outcome::Raise(cause) => { put_shown(out, "raise ", &cause) }
        Outcome::Broke => put(out, "broke"),
    }
}

fn put_access(address: u32, width: Width, out: &mut Vec<u8>) -> Result<(), NoAnswer> {
    put_word(out, " ", address)?;
    put_shown(out, " ", &width)
}

fn put_act(words: &[&str], out: &mut Vec<u8>) -> Result<(), NoAnswer> {
    let [given @ .., "insn", word] = words else {
        return Err(NoAnswer::NoCase);
    };
    let before = regs_in(given)?;
    let mut regs = before;
    acted(&mut regs, word_in(word)?, out)?;
    put_changes(&before, &regs, out)
}

/// Appends what an instruction leaves to do.
fn acted(regs: &mut Regs, word: u32, out: &mut Vec<u8>) -> Result<(), NoAnswer> {
    match decode(word) {
        Some(insn) => {
            put_shown(out, "", &act(regs, &insn))?;
            put(out, " ")
        }
        None => Err(NoAnswer::NoCase),
    }
}

fn put_acts(words: &[&str], out: &mut Vec<u8>) -> Result<(), NoAnswer> {
    let Some(at) = words.iter().position(|word| *word == "insn") else {
        return Err(NoAnswer::NoCase);
    };
    let before = regs_in(&words[..at])?;
    let mut regs = before;
    all_acted(&mut regs, &words[at + 1..], out)?;
    put_changes(&before, &regs, out)
}

/// Appends what one word after another leaves to do.
fn all_acted(regs: &mut Regs, words: &[&str], out: &mut Vec<u8>) -> Result<(), NoAnswer> {
    for word in words {
        put_shown(out, "", &act_word(regs, word_in(word)?))?;
        put(out, " ")?;
    }
    Ok(())
}

fn put_loaded(words: &[&str], out: &mut Vec<u8>) -> Result<(), NoAnswer> {
    let [n, value, given @ ..] = words else {
        return Err(NoAnswer::NoCase);
    };
    let to = number_in(31, n)? as u8;
    let regs = regs_in(given)?;
    put_changes(&regs, &loaded(&regs, to, word_in(value)?), out)
}

fn put_latched(words: &[&str], out: &mut Vec<u8>) -> Result<(), NoAnswer> {
    let [lines, given @ ..] = words else {
        return Err(NoAnswer::NoCase);
    };
    let mut regs = regs_in(given)?;
    regs.latch_lines(word_in(lines)?);
    put_word(out, "", regs.control(4))
}

fn put_controls(regs: &Regs, out: &mut Vec<u8>) -> Result<(), NoAnswer> {
    for n in 0..7u8 {
        put_word(out, " ", regs.control(n))?;
    }
    Ok(())
}

fn put_reset(words: &[&str], out: &mut Vec<u8>) -> Result<(), NoAnswer> {
    let [pc, cpuid, vector] = words else {
        return Err(NoAnswer::NoCase);
    };
    let regs = Regs::at_reset(word_in(pc)?, word_in(cpuid)?, word_in(vector)?);
    put_changes(&Regs::at_reset(0, 0, 0), &regs, out)
}

/// Appends the program counter after a step, and the other registers that it changed.
fn put_changes(old: &Regs, new: &Regs, out: &mut Vec<u8>) -> Result<(), NoAnswer> {
    put_word(out, "pc ", new.pc)?;
    for n in 0..32 {
        put_change_of(n, old.gpr[n], new.gpr[n], out)?;
    }
    for (name, before, after) in [
        (" status ", old.status, new.status),
        (" estatus ", old.estatus, new.estatus),
        (" bstatus ", old.bstatus, new.bstatus),
        (" ienable ", old.ienable, new.ienable),
        (" latch ", old.latch, new.latch),
        (" cpuid ", old.cpuid, new.cpuid),
        (" vector ", old.vector, new.vector),
    ] {
        put_change(name, before, after, out)?;
    }
    Ok(())
}

fn put_change_of(n: usize, before: u32, after: u32, out: &mut Vec<u8>) -> Result<(), NoAnswer> {
    if before == after {
        return Ok(());
    }
    put_shown(out, " r", &n)?;
    put_word(out, " ", after)
}

fn put_change(name: &str, before: u32, after: u32, out: &mut Vec<u8>) -> Result<(), NoAnswer> {
    if before == after {
        return Ok(());
    }
    put_word(out, name, after)
}
