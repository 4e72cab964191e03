//! The image of a source.

ghost use Rattle.std.specs.Prelude.{◌≡◌, ◌≢◌, IfOk, IfErr, Ok, Err};
ghost use Rattle.std.specs.BTreeMap.{get_by_text};
ghost use Rattle.n2_elf.specs.Reading.{IsSized};
ghost use Rattle.n2_elf.specs.Writing.{IsWritable};
ghost use Rattle.n2_asm.specs.Seen.{object_seen, survey_seen, output_seen};
ghost use Rattle.n2_asm.specs.Sources as spec;

use crate::faults::AsmFault;
use crate::output::{Builder, close, put_rows};
use crate::survey::survey_rows;
use n2_elf::{Image, Segment};
use n2_source::{Number, word_of_number};
use n2_statement::{AsmKind, find};
use std::alloc::Global;
use std::collections::BTreeMap;

/// An image, and the addresses of its source's labels.
#[derive(Drop)]
pub struct Object {
    pub image: Image,
    pub labels: BTreeMap<String, u32>,
}

/// The address of the first executable segment.
fn first_code(segments: &[Segment]) -> Option<u32>
    ensures { result ≡ spec.first_code segments.now }
{
    for segment in segments {
        if segment.exec {
            return Some(segment.at);
        }
    }
    None
}

fn entry(start: Option<Number>, first: u32) -> u32
    ensures { result ≡ spec.entry_of start first }
{
    match start {
        Some(n) => word_of_number(n),
        None => first,
    }
}

/// The image of an output whose last segment is closed.
fn image(start: Option<Number>, out: Builder) -> Result<Object, AsmFault>
    ensures ok { IfOk result (λ o. spec.image_of start (spec.first_code out.closed) out.closed (get_by_text out.labels) ≡ Ok (object_seen o)) }
    ensures err { IfErr result (λ e. spec.image_of start (spec.first_code out.closed) out.closed (get_by_text out.labels) ≡ Err e) }
{
    let Builder {
        closed,
        opened: _,
        at: _,
        exec: _,
        bytes: _,
        room: _,
        labels,
    } = out;
    match first_code(closed.as_slice()) {
        Some(first) => Ok(Object {
            image: Image {
                entry: entry(start, first),
                segments: closed,
            },
            labels,
        }),
        None => Err(AsmFault::Row {
            row: 0,
            kind: AsmKind::Place,
        }),
    }
}

#[tactic(auto, unfolding(crate::specs::Sources::assembled))]
fn assembled(alloc: Global, source: &[u8]) -> Result<Object, AsmFault>
    ensures ok { IfOk result (λ o. spec.assembled source.now ≡ Ok (object_seen o)) }
    ensures fault { IfErr result (λ e. e ≢ AsmFault.NoMemory → spec.assembled source.now ≡ Err e) }
{
    let survey = survey_rows(alloc, source)?;
    let mut out = put_rows(alloc, &survey, source)?;
    close(alloc, &mut out)?;
    image(find(&survey.names, "_start"), out)
}

/// The image of a source with the addresses of its labels, or its first faulty row. The image can be
/// written by `Image::write` of `n2_elf`, and each of its segments holds its bytes.
pub fn assemble(alloc: Global, source: &[u8]) -> Result<Object, AsmFault>
    ensures ok { IfOk result (λ o. spec.assembled source.now ≡ Ok (object_seen o)) }
    ensures writable { IfOk result (λ o. IsWritable o.image) }
    ensures sized { IfOk result (λ o. IsSized o.image) }
    ensures fault { IfErr result (λ e. e ≢ AsmFault.NoMemory → spec.assembled source.now ≡ Err e) }
{
    assembled(alloc, source)
}
