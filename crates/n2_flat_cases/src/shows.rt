//! What the flat machine shows.

use n2_board::{Kind, Refusal, Stop};
use n2_cases::{NoAnswer, number_in, put, put_byte, put_shown, put_word, words_of};
use n2_exec::Regs;
use n2_flat::Flat;
use std::alloc::Global;

fn kind_name(kind: Kind) -> &'static str {
    match kind {
        Kind::Separate => "separate",
        Kind::Lock => "lock",
        Kind::Invalidate => "invalidate",
        Kind::Flush => "flush",
    }
}

fn put_refusal(refusal: &Refusal, out: &mut Vec<u8>) -> Result<(), NoAnswer> {
    put(out, " refused ")?;
    put(out, kind_name(refusal.kind))?;
    put_word(out, " insn ", refusal.insn)?;
    put_word(out, " address ", refusal.address)?;
    put_word(out, " line ", refusal.line.wrapping_mul(32))
}

/// How a core stands: why it stopped, if it did, and its program counter.
fn put_stop(flat: &Flat, k: u32, out: &mut Vec<u8>) -> Result<(), NoAnswer> {
    if k as usize >= flat.cores() {
        return Err(NoAnswer::NoCase);
    }
    match flat.stop(k) {
        None => put(out, " running")?,
        Some(Stop::Broke) => put(out, " broke")?,
        Some(Stop::Refused(refusal)) => put_refusal(&refusal, out)?,
        Some(Stop::Stray(address)) => put_word(out, " stray ", address)?,
        Some(Stop::Spent) => put(out, " spent")?,
        Some(Stop::LogFull) => put(out, " logfull")?,
    }
    put_word(out, " pc ", flat.regs(k).pc)
}

/// status, estatus, ienable and the latched lines of a core.
fn put_control(regs: &Regs, out: &mut Vec<u8>) -> Result<(), NoAnswer> {
    put_word(out, " ", regs.status)?;
    put_word(out, " ", regs.estatus)?;
    put_word(out, " ", regs.ienable)?;
    put_word(out, " ", regs.latch)
}

fn put_register(regs: &Regs, n: &str, out: &mut Vec<u8>) -> Result<(), NoAnswer> {
    let n = number_in(31, n)? as u8;
    put_word(out, " ", regs.reg(n))
}

fn put_registers(flat: &Flat, k: u32, numbers: &[&str], out: &mut Vec<u8>) -> Result<(), NoAnswer> {
    if k as usize >= flat.cores() {
        return Err(NoAnswer::NoCase);
    }
    let regs = flat.regs(k);
    if numbers.is_empty() {
        return put_control(&regs, out);
    }
    for n in numbers {
        put_register(&regs, n, out)?;
    }
    Ok(())
}

fn put_past(flat: &Flat, k: u32, out: &mut Vec<u8>) -> Result<(), NoAnswer> {
    if k as usize >= flat.cores() {
        return Err(NoAnswer::NoCase);
    }
    for event in flat.past(k) {
        put_shown(out, " ", event)?;
    }
    Ok(())
}

fn put_sent(flat: &Flat, uart: u32, out: &mut Vec<u8>) -> Result<(), NoAnswer> {
    for byte in flat.output(uart) {
        put_byte(out, *byte)?;
    }
    Ok(())
}

/// `stop K`, `regs K N ..`, `ctl K`, `past K` of a core, and `sent U` of a UART.
fn put_show(flat: &Flat, words: &[&str], out: &mut Vec<u8>) -> Result<(), NoAnswer> {
    let [kind, number, rest @ ..] = words else {
        return Err(NoAnswer::NoCase);
    };
    let number = number_in(7, number)? as u32;
    put(out, kind)?;
    match *kind {
        "stop" => put_stop(flat, number, out),
        "regs" => put_registers(flat, number, rest, out),
        "ctl" => put_registers(flat, number, &[], out),
        "past" => put_past(flat, number, out),
        "sent" => put_sent(flat, number, out),
        _ => Err(NoAnswer::NoCase),
    }
}

/// Appends what each field shows.
pub fn put_shows(
    alloc: Global,
    flat: &Flat,
    fields: &str,
    out: &mut Vec<u8>,
) -> Result<(), NoAnswer> {
    for (i, field) in fields.split('|').enumerate() {
        if i > 0 {
            put(out, "; ")?;
        }
        put_show(flat, &words_of(alloc, field)?, out)?;
    }
    Ok(())
}
