//! The second walk over a source: the bytes of its segments.

ghost use Rattle.std.specs.Prelude.{◌≡◌, ◌+◌, ◌≤◌, ◌<◌, ◌^◌, ◌++◌, OnOk, IfOk, IfErr, Ok, Err, ◌≢◌, IfSome, IsTrue, length, replicate};
ghost use Rattle.std.specs.List.{list_any};
ghost use Rattle.std.specs.BTreeMap.{get_by_text};
ghost use Rattle.n2_statement.specs.Statements.{is_valid_statement, labels_of};
ghost use Rattle.n2_statement.specs.Values.{bytes_in, content_of_row as content_of_row_of};
ghost use Rattle.n2_asm.specs.Seen.{survey_seen, output_seen};
ghost use Rattle.n2_asm.specs.Sources as spec;

use crate::faults::AsmFault;
use crate::rows::first_row;
use crate::survey::{Survey, words_len};
use n2_elf::Segment;
use n2_source::{Number, capped};
use n2_statement::{AsmKind, Content, Statement, content_of, define, label_at, read_row};
use n2_text::{Items, put_text};
use n2_word::{NoMemory, bytes_of};
use std::alloc::Global;
use std::collections::BTreeMap;
use std::mem;

/// The segments that were closed, how many were opened, the open one, how many bytes there is room
/// for, and the addresses of labels.
#[derive(Drop)]
pub struct Builder {
    pub closed: Items<Segment>,
    pub opened: u32,
    pub at: u32,
    pub exec: bool,
    pub bytes: Vec<u8>,
    pub room: u64,
    pub labels: BTreeMap<String, u32>,
}

/// How many bytes a content has.
fn len(content: &Content<'_>) -> u64
    ensures { result ≡ spec.len_of content.now }
{
    match content {
        Content::Nothing | Content::Open(_, _) => 0,
        Content::Word(_) => 4,
        Content::Pair(_, _) => 8,
        Content::Words(numbers) => words_len(numbers.count()),
        Content::Bytes(numbers) => capped(numbers.count()),
        Content::Zeros(n) => *n,
        Content::Text(text) => capped(text.len()) + 1,
    }
}

/// Whether a content is made of words.
fn is_words(content: &Content<'_>) -> bool
    ensures { result ≡ spec.is_words content.now }
{
    matches!(
        content,
        Content::Word(_) | Content::Pair(_, _) | Content::Words(_)
    )
}

/// Whether a segment has a byte in so many bytes from here on.
fn meets(here: u64, n: u64, segment: &Segment) -> bool
    requires { here + n < 2 ^ 64 }
    ensures { result ≡ spec.meets here n segment.now }
{
    let at = u64::from(segment.at);
    at < here + n && (here < at || here - at < segment.bytes.len() as u64)
}

/// Whether some segment has a byte in so many bytes from here on.
fn any_meets(here: u64, n: u64, segments: &[Segment]) -> bool
    requires { here + n < 2 ^ 64 }
    ensures { result ≡ list_any (spec.meets here n) segments.now }
{
    for segment in segments {
        if meets(here, n, segment) {
            return true;
        }
    }
    false
}

/// Where the next byte goes.
fn here(out: &Builder) -> u64
    ensures value { result ≡ spec.here_of (output_seen out.now) }
    ensures small { result < 2 ^ 63 + 2 ^ 32 }
{
    u64::from(out.at) + out.bytes.len() as u64
}

/// Whether there is place for so many bytes.
fn has_place(n: u64, out: &Builder) -> bool
    ensures { result ≡ spec.has_place n (output_seen out.now) }
{
    let here = here(out);
    if out.opened == 0 || n > 1 << 32 || here > (1 << 32) - n || n > out.room {
        return false;
    }
    n == 0 || !any_meets(here, n, out.closed.as_slice())
}

/// Whether there is place for what a row puts.
fn is_placed(content: &Content<'_>, out: &Builder) -> bool
    ensures { result ≡ spec.is_placed content.now (output_seen out.now) }
{
    match content {
        Content::Nothing => true,
        Content::Open(_, at) => *at % 32 == 0 && out.opened < 64,
        _ => has_place(len(content), out) && (!is_words(content) || here(out) % 4 == 0),
    }
}

/// Whether the labels of a row have a place.
fn are_placed(row: &[u8], out: &Builder) -> bool
    ensures { result ≡ spec.are_placed row.now (output_seen out.now) }
{
    label_at(row).is_none() || (out.opened > 0 && here(out) < 1 << 32)
}

/// What the statement of a row puts.
fn content_of_row<'a>(
    names: &BTreeMap<String, Number>,
    here: u64,
    statement: Option<Statement<'a>>,
) -> Result<Content<'a>, AsmKind>
    requires near { here < 2 ^ 63 + 2 ^ 32 }
    requires valid { IfSome statement (λ s. IsTrue (is_valid_statement s)) }
    ensures { result ≡ content_of_row_of (get_by_text names.now) here statement.entry }
{
    match statement {
        Some(statement) => content_of(names, here, statement),
        None => Ok(Content::Nothing),
    }
}

fn placed<'a>(row: &[u8], out: &Builder, content: Content<'a>) -> Result<Content<'a>, AsmKind>
    ensures value { result ≡ spec.placed row.now (output_seen out.now) content.entry }
    ensures labels { IfOk result (λ c. IsTrue (spec.are_placed row.now (output_seen out.now))) }
    ensures place { IfOk result (λ c. IsTrue (spec.is_placed c (output_seen out.now))) }
{
    if are_placed(row, out) && is_placed(&content, out) {
        Ok(content)
    } else {
        Err(AsmKind::Place)
    }
}

fn is_row(n: u64, repeated: Option<u64>) -> bool
    ensures { result ≡ spec.is_row n repeated }
{
    match repeated {
        Some(row) => row == n,
        None => false,
    }
}

/// What a row puts, or the first kind of its faults.
#[tactic(auto, unfolding(crate::specs::Sources::content_at))]
pub fn content_at<'a>(
    survey: &Survey,
    n: u64,
    row: &'a [u8],
    out: &Builder,
) -> Result<Content<'a>, AsmKind>
    ensures value { result ≡ spec.content_at (survey_seen survey.now) n row.now (output_seen out.now) }
    ensures labels { IfOk result (λ c. IsTrue (spec.are_placed row.now (output_seen out.now))) }
    ensures place { IfOk result (λ c. IsTrue (spec.is_placed c (output_seen out.now))) }
{
    let statement = read_row(row)?;
    if is_row(n, survey.repeated) {
        return Err(AsmKind::Label);
    }
    let content = content_of_row(&survey.names, here(out), statement)?;
    placed(row, out, content)
}

/// Appends zeros.
fn put_zeros(out: &mut Vec<u8>, n: u64) -> Result<(), NoMemory>
    ensures { OnOk result (out.new.items ≡ out.old.items ++ replicate n 0) }
{
    for _i in 0..n {
        put_text(out, &[0])?;
    }
    Ok(())
}

/// Appends the bytes of a content.
pub fn put_content(out: &mut Vec<u8>, content: &Content<'_>) -> Result<(), NoMemory>
    ensures { OnOk result (out.new.items ≡ out.old.items ++ bytes_in content.now) }
{
    match content {
        Content::Nothing | Content::Open(_, _) => Ok(()),
        Content::Word(word) => put_text(out, &bytes_of(*word)),
        Content::Pair(upper, lower) => put_pair(out, *upper, *lower),
        Content::Words(numbers) => numbers.put_words(out),
        Content::Bytes(numbers) => numbers.put_bytes(out),
        Content::Zeros(n) => put_zeros(out, *n),
        Content::Text(text) => text.put_closed(out),
    }
}

fn put_pair(out: &mut Vec<u8>, upper: u32, lower: u32) -> Result<(), NoMemory>
    ensures { OnOk result (out.new.items ≡ out.old.items ++ bytes_in (Content.Pair upper lower)) }
{
    put_text(out, &bytes_of(upper))?;
    put_text(out, &bytes_of(lower))
}

/// The labels of a row have an address.
#[tactic(auto, unfolding(n2_statement::specs::Statements::labels_of), using(n2_statement::proofs::LabelSteps::names_step, n2_statement::proofs::LabelSteps::names_none))]
fn label_rows(
    alloc: Global,
    labels: &mut BTreeMap<String, u32>,
    here: u32,
    row: &[u8],
) -> Result<(), NoMemory>
    ensures { OnOk result (get_by_text labels.new ≡ spec.labelled (labels_of row.now) here (get_by_text labels.old)) }
{
    let mut rest = row;
    for _i in 0..row.len() {
        let Some((name, behind)) = label_at(rest) else {
            return Ok(());
        };
        define(alloc, labels, name.as_str(), here)?;
        rest = behind;
    }
    Ok(())
}

/// The labels of a row have the address here.
#[tactic(auto, using(n2_statement::proofs::LabelSteps::no_labels))]
fn put_labels(alloc: Global, out: &mut Builder, row: &[u8]) -> Result<(), NoMemory>
    requires { IsTrue (spec.are_placed row.now (output_seen out.old)) }
    ensures { OnOk result (output_seen out.new ≡ spec.with_labels_here (labels_of row.now) (output_seen out.old)) }
{
    if label_at(row).is_none() {
        return Ok(());
    }
    let here = here(out) as u32;
    label_rows(alloc, &mut out.labels, here, row)
}

/// Closes the open segment. One without bytes is left out.
pub fn close(alloc: Global, out: &mut Builder) -> Result<(), NoMemory>
    ensures { OnOk result (output_seen out.new ≡ spec.closed_now (output_seen out.old)) }
{
    if out.bytes.is_empty() {
        return Ok(());
    }
    let Ok(size) = u32::try_from(out.bytes.len()) else {
        return Err(NoMemory);
    };
    let bytes = mem::replace(&mut out.bytes, Vec::new(alloc));
    out.closed.push(Segment {
        at: out.at,
        bytes: Items::from_vec(bytes),
        size,
        exec: out.exec,
        write: !out.exec,
    })
}

/// Opens a segment.
fn open(alloc: Global, out: &mut Builder, exec: bool, at: u32) -> Result<(), NoMemory>
    requires { out.old.opened < 64 }
    ensures { OnOk result (output_seen out.new ≡ spec.opened_at exec at (output_seen out.old)) }
{
    close(alloc, out)?;
    out.opened += 1;
    out.at = at;
    out.exec = exec;
    Ok(())
}

/// Appends the bytes of a content to the open segment.
fn append(out: &mut Builder, content: &Content<'_>) -> Result<(), NoMemory>
    requires { spec.len_of content.now ≤ out.old.room }
    ensures { OnOk result (output_seen out.new ≡ spec.with_bytes content.now (output_seen out.old)) }
{
    put_content(&mut out.bytes, content)?;
    out.room -= len(content);
    Ok(())
}

/// Puts what a row puts.
fn put(alloc: Global, out: &mut Builder, content: &Content<'_>) -> Result<(), NoMemory>
    requires { IsTrue (spec.is_placed content.now (output_seen out.old)) }
    ensures { OnOk result (output_seen out.new ≡ spec.put content.now (output_seen out.old)) }
{
    match content {
        Content::Nothing => Ok(()),
        Content::Open(exec, at) => open(alloc, out, *exec, *at),
        _ => append(out, content),
    }
}

/// Puts a row that is not faulty.
fn put_row(
    alloc: Global,
    out: &mut Builder,
    row: &[u8],
    content: &Content<'_>,
) -> Result<(), NoMemory>
    requires labels { IsTrue (spec.are_placed row.now (output_seen out.old)) }
    requires place { IsTrue (spec.is_placed content.now (output_seen out.old)) }
    ensures { OnOk result (output_seen out.new ≡ spec.put content.now (spec.with_labels_here (labels_of row.now) (output_seen out.old))) }
{
    put_labels(alloc, out, row)?;
    put(alloc, out, content)
}

/// The output behind a row.
#[tactic(auto, unfolding(crate::specs::Sources::row_put))]
fn take_row(
    alloc: Global,
    survey: &Survey,
    n: u64,
    row: &[u8],
    out: &mut Builder,
) -> Result<(), AsmFault>
    ensures ok { OnOk result (spec.row_put (survey_seen survey.now) n row.now (output_seen out.old) ≡ Ok (output_seen out.new)) }
    ensures err { IfErr result (λ e. e ≢ AsmFault.NoMemory → spec.row_put (survey_seen survey.now) n row.now (output_seen out.old) ≡ Err e) }
{
    match content_at(survey, n, row, out) {
        Ok(content) => match put_row(alloc, out, row, &content) {
            Ok(()) => Ok(()),
            Err(NoMemory) => Err(AsmFault::NoMemory),
        },
        Err(kind) => Err(AsmFault::Row { row: n, kind }),
    }
}

/// The output of a source, or its first faulty row.
pub fn put_rows(alloc: Global, survey: &Survey, source: &[u8]) -> Result<Builder, AsmFault>
    ensures ok { IfOk result (λ b. spec.output_of (survey_seen survey.now) source.now ≡ Ok (output_seen b)) }
    ensures err { IfErr result (λ e. e ≢ AsmFault.NoMemory → spec.output_of (survey_seen survey.now) source.now ≡ Err e) }
{
    let mut out = Builder {
        closed: Items::new(alloc),
        opened: 0,
        at: 0,
        exec: true,
        bytes: Vec::new(alloc),
        room: 1 << 24,
        labels: BTreeMap::new(alloc),
    };
    let mut rest = source;
    let mut n = 1;
    while !rest.is_empty() {
        let (row, behind) = first_row(rest);
        match take_row(alloc, survey, n, row, &mut out) {
            Ok(()) => (),
            Err(fault) => return Err(fault),
        }
        rest = behind;
        n += 1;
    }
    Ok(out)
}
