//! The report of a run.

ghost use Rattle.std.specs.Prelude.{◌≡◌, ◌++◌, length, map, IfOk, OnOk};
ghost use Rattle.n2_report.specs.Flat.{uart_of};
ghost use Rattle.n2_report.specs.Report as spec;

use crate::ends::{CoreEnd, MemoryLine, UartEnd};
use crate::flat::{put_flat_part, put_lines};
use crate::transfers::Transfers;
use n2_parts::Stop;
use n2_text::{put_number, put_text};
use n2_word::NoMemory;
use std::alloc::Global;

fn put_why(out: &mut Vec<u8>, stop: &Option<Stop>) -> Result<(), NoMemory>
    ensures { OnOk result (out.new.items ≡ out.old.items ++ spec.why_text stop.now) }
{
    match stop {
        Some(Stop::Spent) => put_text(out, b"spent"),
        Some(Stop::LogFull) => put_text(out, b"logfull"),
        Some(_) => put_text(out, b"stopped"),
        None => put_text(out, b"running"),
    }
}

#[tactic(auto, unfolding(crate::specs::Report::end_row))]
fn put_end(out: &mut Vec<u8>, k: usize, stop: &Option<Stop>, turns: u64) -> Result<(), NoMemory>
    ensures { OnOk result (out.new.items ≡ out.old.items ++ spec.end_row k stop.now turns) }
{
    put_text(out, b"end ")?;
    put_number(out, k as u64)?;
    put_text(out, b" ")?;
    put_why(out, stop)?;
    put_text(out, b" ")?;
    put_number(out, turns)?;
    put_text(out, b"\n")
}

fn put_ends(out: &mut Vec<u8>, cores: &[CoreEnd], turns: &[u64]) -> Result<(), NoMemory>
    requires { length turns.now ≡ length cores.now }
    ensures { OnOk result (out.new.items ≡ out.old.items ++ spec.ends_text 0 cores.now turns.now) }
{
    for k in 0..cores.len() {
        put_end(out, k, &cores[k].stop, turns[k])?;
    }
    Ok(())
}

fn put_numbers(out: &mut Vec<u8>, numbers: &[u64]) -> Result<(), NoMemory>
    ensures { OnOk result (out.new.items ≡ out.old.items ++ spec.numbers_text numbers.now) }
{
    for number in numbers {
        put_text(out, b" ")?;
        put_number(out, *number)?;
    }
    Ok(())
}

fn put_transfers(out: &mut Vec<u8>, transfers: &Transfers) -> Result<(), NoMemory>
    ensures { OnOk result (out.new.items ≡ out.old.items ++ spec.transfers_row transfers.now) }
{
    let numbers = [
        transfers.code,
        transfers.fill,
        transfers.back,
        transfers.read,
        transfers.write,
        transfers.sample,
        transfers.device,
    ];
    put_text(out, b"transfers")?;
    put_numbers(out, &numbers)?;
    put_text(out, b"\n")
}

/// The report of a run: cores and UARTs in the board's order, the turns of each core, the transfers
/// of the run, and lines of main memory. A core of a finished run has stopped; of one that has not
/// the row is `end K running TURNS`.
#[tactic(auto, unfolding(crate::specs::Report::report_text))]
pub fn report_text(
    alloc: Global,
    cores: &[CoreEnd],
    turns: &[u64],
    uarts: &[UartEnd<'_>],
    transfers: &Transfers,
    lines: &[MemoryLine],
) -> Result<Vec<u8>, NoMemory>
    requires { length turns.now ≡ length cores.now }
    ensures { IfOk result (λ text. text.items ≡ spec.report_text cores.now turns.now (map uart_of uarts.now) transfers.now lines.now) }
{
    let mut out = Vec::new(alloc);
    put_text(&mut out, b"nios2 report 1\n")?;
    put_flat_part(&mut out, cores, uarts)?;
    put_ends(&mut out, cores, turns)?;
    put_transfers(&mut out, transfers)?;
    put_lines(&mut out, lines)?;
    Ok(out)
}
