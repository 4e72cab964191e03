//! The flat part of a report, and the flat report.

ghost use Rattle.std.specs.Prelude.{◌≡◌, ◌<◌, ◌*◌, ◌++◌, map, IfOk, OnOk};
ghost use Rattle.std.specs.List.{flat_map, list_any};
ghost use Rattle.n2_report.specs.Stops.{is_refused as has_refusal};
ghost use Rattle.n2_report.specs.Flat as spec;

use crate::ends::{CoreEnd, MemoryLine, UartEnd};
use crate::stops::{is_refused, put_stop};
use n2_exec::Regs;
use n2_text::{digit, put_number, put_text, put_word};
use n2_word::NoMemory;
use std::alloc::Global;

fn put_words(out: &mut Vec<u8>, words: &[u32]) -> Result<(), NoMemory>
    ensures { OnOk result (out.new.items ≡ out.old.items ++ spec.words_text words.now) }
{
    for word in words {
        put_text(out, b" ")?;
        put_word(out, *word)?;
    }
    Ok(())
}

/// Eight registers from this number on.
fn put_row(out: &mut Vec<u8>, n: usize, values: &[u32; 32]) -> Result<(), NoMemory>
    requires { n < 25 }
    ensures { OnOk result (out.new.items ≡ out.old.items ++ spec.registers_row n values.now) }
{
    put_text(out, b"r")?;
    put_number(out, n as u64)?;
    put_words(out, &values[n..n + 8])?;
    put_text(out, b"\n")
}

fn put_rows(out: &mut Vec<u8>, values: &[u32; 32]) -> Result<(), NoMemory>
    ensures { OnOk result (out.new.items ≡ out.old.items ++ spec.registers_text values.now) }
{
    put_row(out, 0, values)?;
    put_row(out, 8, values)?;
    put_row(out, 16, values)?;
    put_row(out, 24, values)
}

/// The registers as they read.
fn registers(regs: &Regs) -> [u32; 32]
    ensures { result ≡ spec.read_registers regs.now.gpr }
{
    let mut values = regs.gpr;
    values[0] = 0;
    values
}

fn control_values(regs: &Regs) -> [u32; 5]
    ensures { result ≡ spec.controls regs.now }
{
    [
        regs.status,
        regs.estatus,
        regs.bstatus,
        regs.ienable,
        regs.latch,
    ]
}

#[tactic(auto, unfolding(crate::specs::Flat::core_text))]
fn put_core(out: &mut Vec<u8>, k: usize, core: &CoreEnd) -> Result<(), NoMemory>
    ensures { OnOk result (out.new.items ≡ out.old.items ++ spec.core_text k core.now) }
{
    put_text(out, b"core ")?;
    put_number(out, k as u64)?;
    put_text(out, b" ")?;
    put_stop(out, core.regs.pc, &core.stop)?;
    put_text(out, b"\n")?;
    put_rows(out, &registers(&core.regs))?;
    put_text(out, b"ctl")?;
    put_words(out, &control_values(&core.regs))?;
    put_text(out, b"\n")
}

fn put_cores(out: &mut Vec<u8>, cores: &[CoreEnd]) -> Result<(), NoMemory>
    ensures { OnOk result (out.new.items ≡ out.old.items ++ spec.cores_text 0 cores.now) }
{
    for (k, core) in cores.iter().enumerate() {
        put_core(out, k, core)?;
    }
    Ok(())
}

fn put_bytes(out: &mut Vec<u8>, bytes: &[u8]) -> Result<(), NoMemory>
    ensures { OnOk result (out.new.items ≡ out.old.items ++ flat_map spec.byte_text bytes.now) }
{
    for byte in bytes {
        let digits = [digit(u32::from(*byte / 16)), digit(u32::from(*byte % 16))];
        put_text(out, &digits)?;
    }
    Ok(())
}

fn put_all_bytes(out: &mut Vec<u8>, bytes: &[u8]) -> Result<(), NoMemory>
    ensures { OnOk result (out.new.items ≡ out.old.items ++ spec.bytes_text bytes.now) }
{
    if bytes.is_empty() {
        return Ok(());
    }
    put_text(out, b" ")?;
    put_bytes(out, bytes)
}

#[tactic(auto, unfolding(crate::specs::Flat::uart_text))]
fn put_uart(out: &mut Vec<u8>, uart: &UartEnd<'_>) -> Result<(), NoMemory>
    ensures { OnOk result (out.new.items ≡ out.old.items ++ spec.uart_text (spec.uart_of uart.now)) }
{
    put_text(out, b"uart ")?;
    put_text(out, uart.name.as_bytes())?;
    put_text(out, b" ")?;
    put_number(out, uart.sent.len() as u64)?;
    put_all_bytes(out, uart.sent)?;
    put_text(out, b"\n")
}

fn put_uarts(out: &mut Vec<u8>, uarts: &[UartEnd<'_>]) -> Result<(), NoMemory>
    ensures { OnOk result (out.new.items ≡ out.old.items ++ flat_map spec.uart_text (map spec.uart_of uarts.now)) }
{
    for uart in uarts {
        put_uart(out, uart)?;
    }
    Ok(())
}

fn some_refused(cores: &[CoreEnd]) -> bool
    ensures { result ≡ list_any (λ core. has_refusal core.stop) cores.now }
{
    cores.iter().any(|core| is_refused(&core.stop))
}

fn put_verdict(out: &mut Vec<u8>, refused: bool) -> Result<(), NoMemory>
    ensures { OnOk result (out.new.items ≡ out.old.items ++ spec.verdict_text refused) }
{
    if refused {
        put_text(out, b"verdict refused\n")
    } else {
        put_text(out, b"verdict certified\n")
    }
}

/// Appends the flat part of a report: each core with its registers, each UART, and the verdict.
#[tactic(auto, unfolding(crate::specs::Flat::flat_part))]
pub fn put_flat_part(
    out: &mut Vec<u8>,
    cores: &[CoreEnd],
    uarts: &[UartEnd<'_>],
) -> Result<(), NoMemory>
    ensures { OnOk result (out.new.items ≡ out.old.items ++ spec.flat_part cores.now (map spec.uart_of uarts.now)) }
{
    put_cores(out, cores)?;
    put_uarts(out, uarts)?;
    put_verdict(out, some_refused(cores))
}

fn put_line(out: &mut Vec<u8>, line: &MemoryLine) -> Result<(), NoMemory>
    ensures { OnOk result (out.new.items ≡ out.old.items ++ spec.memory_row line.now) }
{
    put_text(out, b"memory ")?;
    put_word(out, line.at)?;
    put_words(out, &line.words)?;
    put_text(out, b"\n")
}

/// Appends a row for each line of memory.
pub fn put_lines(out: &mut Vec<u8>, lines: &[MemoryLine]) -> Result<(), NoMemory>
    ensures { OnOk result (out.new.items ≡ out.old.items ++ flat_map spec.memory_row lines.now) }
{
    for line in lines {
        put_line(out, line)?;
    }
    Ok(())
}

/// The flat report of cores and UARTs in the board's order, with lines of the flat memory.
#[tactic(auto, unfolding(crate::specs::Flat::flat_text))]
pub fn flat_text(
    alloc: Global,
    cores: &[CoreEnd],
    uarts: &[UartEnd<'_>],
    lines: &[MemoryLine],
) -> Result<Vec<u8>, NoMemory>
    ensures { IfOk result (λ text. text.items ≡ spec.flat_text cores.now (map spec.uart_of uarts.now) lines.now) }
{
    let mut out = Vec::new(alloc);
    put_text(&mut out, b"nios2 flat 1\n")?;
    put_flat_part(&mut out, cores, uarts)?;
    put_lines(&mut out, lines)?;
    Ok(out)
}
