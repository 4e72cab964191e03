//! The first walk over a source: the addresses of labels.

ghost use Rattle.std.specs.Prelude.{◌*◌, ◌≡◌, ◌+◌, ◌≤◌, ◌^◌, OnOk, IfOk};
ghost use Rattle.std.specs.BTreeMap.{get_by_text};
ghost use Rattle.n2_statement.specs.Statements.{labels_of};
ghost use Rattle.n2_asm.specs.Seen.{survey_seen};
ghost use Rattle.n2_source.specs.Numbers.{capped as capped_of};
ghost use Rattle.n2_asm.specs.Survey as spec;

use crate::rows::first_row;
use n2_source::{Name, Number, capped};
use n2_statement::{Statement, define, label_at, padding, read_row};
use n2_word::NoMemory;
use std::alloc::Global;
use std::collections::BTreeMap;

/// Where the next byte goes, the values of names, and the first row that names something again.
#[derive(Drop)]
pub struct Survey {
    pub here: Option<u64>,
    pub names: BTreeMap<String, Number>,
    pub repeated: Option<u64>,
}

/// How many bytes a statement here puts.
fn size_of(here: u64, statement: &Statement<'_>) -> u64
    ensures { result ≡ spec.size_of here statement.now }
{
    match statement {
        Statement::Fixed(_) | Statement::Filled(_, _) | Statement::Negated(_, _, _) => 4,
        Statement::Address(_, _) => 8,
        Statement::Words(numbers) => words_len(numbers.count()),
        Statement::Bytes(numbers) => capped(numbers.count()),
        Statement::Space(count) => { if count.negative { 0 } else { count.size } }
        Statement::Align(to) => padding(here, *to).unwrap_or(0),
        Statement::Text(text) => capped(text.len()) + 1,
        Statement::Segment(_, _) | Statement::Constant(_, _) => 0,
    }
}

/// How many bytes so many words have; what is above 2^40 stands as 2^40.
pub fn words_len(n: u64) -> u64
    ensures { result ≡ capped_of (4 * n) }
{
    if n < 1 << 38 { 4 * n } else { 1 << 40 }
}

/// Here behind so many bytes, which end at 2^32 at the latest.
fn advanced(here: u64, n: u64) -> u64
    ensures { result ≡ spec.advanced here n }
{
    if n <= 1 << 32 && here <= (1 << 32) - n {
        here + n
    } else {
        here
    }
}

/// The row gives a name a value.
fn name_value(
    alloc: Global,
    survey: &mut Survey,
    row: u64,
    name: &Name<'_>,
    value: Number,
) -> Result<(), NoMemory>
    ensures { OnOk result (survey_seen survey.new ≡ spec.with_name row name.now value (survey_seen survey.old)) }
{
    let known = define(alloc, &mut survey.names, name.as_str(), value)?;
    if known && survey.repeated.is_none() {
        survey.repeated = Some(row);
    }
    Ok(())
}

/// The value of a label here.
fn label_value(here: Option<u64>) -> Number
    ensures { result ≡ spec.label_value here }
{
    Number {
        negative: false,
        size: here.unwrap_or(0),
    }
}

/// The row's labels have a value.
#[tactic(auto, unfolding(n2_statement::specs::Statements::labels_of), using(n2_statement::proofs::LabelSteps::names_step, n2_statement::proofs::LabelSteps::names_none))]
fn name_labels(
    alloc: Global,
    survey: &mut Survey,
    row: u64,
    bytes: &[u8],
    value: Number,
) -> Result<(), NoMemory>
    ensures { OnOk result (survey_seen survey.new ≡ spec.with_labels row (labels_of bytes.now) value (survey_seen survey.old)) }
{
    let mut rest = bytes;
    for _i in 0..bytes.len() {
        let Some((name, behind)) = label_at(rest) else {
            return Ok(());
        };
        name_value(alloc, survey, row, &name, value)?;
        rest = behind;
    }
    Ok(())
}

/// Where a segment opens.
fn opened(at: Number, here: Option<u64>) -> Option<u64>
    ensures { result ≡ spec.opened at here }
{
    if !at.negative && at.size < 1 << 32 {
        Some(at.size)
    } else {
        here
    }
}

/// Here behind a statement.
fn here_behind(statement: &Statement<'_>, here: Option<u64>) -> Option<u64>
    ensures { result ≡ spec.here_behind statement.now here }
{
    match statement {
        Statement::Segment(_, at) => opened(*at, here),
        _ => match here {
            Some(here) => Some(advanced(here, size_of(here, statement))),
            None => None,
        },
    }
}

/// The survey behind a statement.
fn survey_statement(
    alloc: Global,
    survey: &mut Survey,
    row: u64,
    statement: &Statement<'_>,
) -> Result<(), NoMemory>
    ensures { OnOk result (survey_seen survey.new ≡ spec.with_statement row statement.now (survey_seen survey.old)) }
{
    match statement {
        Statement::Constant(name, value) => name_value(alloc, survey, row, name, *value),
        _ => {
            survey.here = here_behind(statement, survey.here);
            Ok(())
        }
    }
}

/// The survey behind a row.
#[tactic(auto, unfolding(crate::specs::Survey::with_row))]
fn survey_row(alloc: Global, survey: &mut Survey, row: u64, bytes: &[u8]) -> Result<(), NoMemory>
    ensures { OnOk result (survey_seen survey.new ≡ spec.with_row row bytes.now (survey_seen survey.old)) }
{
    let value = label_value(survey.here);
    name_labels(alloc, survey, row, bytes, value)?;
    match read_row(bytes) {
        Ok(Some(statement)) => survey_statement(alloc, survey, row, &statement),
        Ok(None) => Ok(()),
        Err(_) => Ok(()),
    }
}

/// The survey of a source.
pub fn survey_rows(alloc: Global, source: &[u8]) -> Result<Survey, NoMemory>
    ensures { IfOk result (λ s. survey_seen s ≡ spec.survey_of source.now) }
{
    let mut survey = Survey {
        here: None,
        names: BTreeMap::new(alloc),
        repeated: None,
    };
    let mut rest = source;
    let mut row = 1;
    while !rest.is_empty() {
        let (bytes, behind) = first_row(rest);
        survey_row(alloc, &mut survey, row, bytes)?;
        rest = behind;
        row += 1;
    }
    Ok(survey)
}
