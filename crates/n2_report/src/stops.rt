//! Why a core stopped, as text and as a status.

ghost use Rattle.std.specs.Prelude.{◌≡◌, ◌++◌, codes, OnOk};
ghost use Rattle.std.specs.List.{list_all, list_any};
ghost use Rattle.n2_report.specs.Stops as spec;

use n2_parts::{Kind, Refusal, Stop};
use n2_text::{put_text, put_word};
use n2_word::NoMemory;

fn put_kind(out: &mut Vec<u8>, kind: Kind) -> Result<(), NoMemory>
    ensures { OnOk result (out.new.items ≡ out.old.items ++ spec.kind_text kind) }
{
    match kind {
        Kind::Separate => put_text(out, b"separate"),
        Kind::Lock => put_text(out, b"lock"),
        Kind::Invalidate => put_text(out, b"invalidate"),
        Kind::Flush => put_text(out, b"flush"),
    }
}

#[tactic(auto, unfolding(crate::specs::Stops::refusal_text))]
fn put_refusal(out: &mut Vec<u8>, refusal: &Refusal) -> Result<(), NoMemory>
    ensures { OnOk result (out.new.items ≡ out.old.items ++ spec.refusal_text refusal.now) }
{
    put_text(out, b"refused ")?;
    put_kind(out, refusal.kind)?;
    put_text(out, b" pc ")?;
    put_word(out, refusal.pc)?;
    put_text(out, b" insn ")?;
    put_word(out, refusal.insn)?;
    put_text(out, b" address ")?;
    put_word(out, refusal.address)?;
    put_text(out, b" line ")?;
    put_word(out, refusal.line.wrapping_mul(32))
}

fn put_named(out: &mut Vec<u8>, name: &[u8], word: u32) -> Result<(), NoMemory>
    ensures { OnOk result (out.new.items ≡ out.old.items ++ spec.named name.now word) }
{
    put_text(out, name)?;
    put_word(out, word)
}

fn put_stray(out: &mut Vec<u8>, pc: u32, address: u32) -> Result<(), NoMemory>
    ensures { OnOk result (out.new.items ≡ out.old.items ++ (spec.named (codes "stray ") pc ++ spec.named (codes " ") address)) }
{
    put_named(out, b"stray ", pc)?;
    put_named(out, b" ", address)
}

/// Appends how a core stopped or that it runs, with its program counter.
#[tactic(auto, unfolding(crate::specs::Stops::stop_text))]
pub fn put_stop(out: &mut Vec<u8>, pc: u32, stop: &Option<Stop>) -> Result<(), NoMemory>
    ensures { OnOk result (out.new.items ≡ out.old.items ++ spec.stop_text pc stop.now) }
{
    match stop {
        Some(Stop::Broke) => put_named(out, b"broke ", pc),
        Some(Stop::Refused(refusal)) => put_refusal(out, refusal),
        Some(Stop::Stray(address)) => put_stray(out, pc, *address),
        None | Some(Stop::Spent) | Some(Stop::LogFull) => put_named(out, b"running ", pc),
    }
}

/// Whether an access of a core was refused, or strayed.
pub fn is_refused(stop: &Option<Stop>) -> bool
    ensures { result ≡ spec.is_refused stop.now }
{
    matches!(stop, Some(Stop::Refused(_)) | Some(Stop::Stray(_)))
}

fn has_broken(stop: &Option<Stop>) -> bool
    ensures { result ≡ spec.has_broken stop.now }
{
    matches!(stop, Some(Stop::Broke))
}

fn all_broke(stops: &[Option<Stop>]) -> bool
    ensures { result ≡ list_all spec.has_broken stops.now }
{
    stops.iter().all(|stop| has_broken(stop))
}

fn some_refused(stops: &[Option<Stop>]) -> bool
    ensures { result ≡ list_any spec.is_refused stops.now }
{
    stops.iter().any(|stop| is_refused(stop))
}

/// The status of a run, by why its cores stopped: 0 where every core came to `break`, 1 where an
/// access of one was refused or strayed, else 2.
pub fn status(stops: &[Option<Stop>]) -> u8
    ensures { result ≡ spec.status_of stops.now }
{
    if all_broke(stops) {
        0
    } else if some_refused(stops) {
        1
    } else {
        2
    }
}
