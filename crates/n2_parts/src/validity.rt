//! Whether a board keeps its rules.

ghost use Rattle.std.specs.Prelude.{◌≡◌, ◌≤◌, ◌<◌, ◌^◌, List, Option, Some, None, OnOk, IfErr, IfNone, sum, map, length};
ghost use Rattle.n2_parts.specs.declared.board.Part.{Part as PartValue};
ghost use Rattle.n2_parts.specs.declared.board.BoardFault.{BoardFault as FaultValue};
ghost use Rattle.n2_parts.specs.Parts as parts;
ghost use Rattle.n2_parts.specs.Numbers as numbers;
ghost use Rattle.n2_parts.specs.Rules as rules;
ghost use Rattle.n2_parts.specs.Valid as spec;
ghost use Rattle.n2_parts.specs.Valid.{IsSmall, IsValid};

use crate::board::{Board, BoardFault, DumpRow, MemoryRow, Part, PartKind, ScriptRow};
use crate::numbers::{is_between, number_fault, top_numbers};
use crate::parts::{ARRAYS, DEVICES, Rule, count_of, first_part};
use crate::rules::{core_fault, name_fault, part_fault, same_cpuid, same_name};
use crate::spans::{IN_PLACES, inside_fault, overlap};

/// The numbers of the parts.
#[derive(Drop)]
struct Numbers<'a> {
    board: &'a Board,
}

impl Rule for Numbers<'_> {
    ghost finds = { λ rule part. numbers.number_fault rule.board.now part };

    fn look(&self, part: Part) -> Option<BoardFault> {
        number_fault(self.board, part)
    }
}

/// The names of the parts.
#[derive(Drop)]
struct Names<'a> {
    board: &'a Board,
}

impl Rule for Names<'_> {
    ghost finds = { λ rule part. rules.name_fault rule.board.now part };

    fn look(&self, part: Part) -> Option<BoardFault> {
        name_fault(self.board, part)
    }
}

/// The cores that parts name.
#[derive(Drop)]
struct Cores<'a> {
    board: &'a Board,
}

impl Rule for Cores<'_> {
    ghost finds = { λ rule part. rules.core_fault rule.board.now part };

    fn look(&self, part: Part) -> Option<BoardFault> {
        core_fault(self.board, part)
    }
}

/// The other parts that parts name.
#[derive(Drop)]
struct Others<'a> {
    board: &'a Board,
}

impl Rule for Others<'_> {
    ghost finds = { λ rule part. rules.part_fault rule.board.now part };

    fn look(&self, part: Part) -> Option<BoardFault> {
        part_fault(self.board, part)
    }
}

/// Regions and dumps inside memories.
#[derive(Drop)]
struct Insides<'a> {
    board: &'a Board,
}

impl Rule for Insides<'_> {
    ghost finds = { λ rule part. rules.inside_fault rule.board.now part };

    fn look(&self, part: Part) -> Option<BoardFault> {
        inside_fault(self.board, part)
    }
}

/// A rule on pairs.
#[derive(Clone, Copy)]
pub enum PairRule {
    SameName,
    SameCpuid,
    Overlap,
}

fn pair_fault(board: &Board, rule: PairRule, p: Part, q: Part) -> Option<BoardFault>
    ensures { result ≡ spec.pair_fault board.now rule p q }
{
    match rule {
        PairRule::SameName => same_name(board, p, q),
        PairRule::SameCpuid => same_cpuid(board, p, q),
        PairRule::Overlap => overlap(board, p, q),
    }
}

/// A part beside a first one.
#[derive(Drop)]
struct Beside<'a> {
    board: &'a Board,
    rule: PairRule,
    first: Part,
}

impl Rule for Beside<'_> {
    ghost finds = { λ r part. spec.pair_fault r.board.now r.rule r.first part };

    fn look(&self, part: Part) -> Option<BoardFault> {
        pair_fault(self.board, self.rule, self.first, part)
    }
}

/// A part beside those of some arrays.
#[derive(Drop)]
struct Pairs<'a> {
    board: &'a Board,
    rule: PairRule,
    kinds: &'a [PartKind],
    ghost small: { IsSmall board.now },
}

impl Rule for Pairs<'_> {
    ghost finds = { λ r part. parts.first_part r.board.now r.kinds.now (λ q. spec.pair_fault r.board.now r.rule part q) };

    fn look(&self, part: Part) -> Option<BoardFault> {
        let beside = Beside {
            board: self.board,
            rule: self.rule,
            first: part,
        };
        first_part(self.board, self.kinds, &beside)
    }
}

/// An array that has fewer or more parts than it may.
fn count_fault(board: &Board, kind: PartKind, least: u64, most: u64) -> Option<BoardFault>
    ensures value { result ≡ spec.count_fault board.now kind least most }
    ensures small { IfNone result (parts.count_of board.now kind ≤ most) }
{
    let n = count_of(board, kind) as u64;
    if is_between(least, most, n) {
        None
    } else {
        Some(BoardFault::Count { kind, n })
    }
}

/// The first array that has fewer or more parts than it may.
#[tactic(auto, unfolding(crate::specs::Valid::counts))]
fn counts(board: &Board) -> Option<BoardFault>
    ensures value { result ≡ spec.counts board.now }
    ensures small { IfNone result (IsSmall board.now) }
{
    match count_fault(board, PartKind::Memory, 1, 4) {
        Some(fault) => return Some(fault),
        None => (),
    }
    match count_fault(board, PartKind::Core, 1, 8) {
        Some(fault) => return Some(fault),
        None => (),
    }
    match count_fault(board, PartKind::Mutex, 0, 32) {
        Some(fault) => return Some(fault),
        None => (),
    }
    match count_fault(board, PartKind::Mailbox, 0, 32) {
        Some(fault) => return Some(fault),
        None => (),
    }
    match count_fault(board, PartKind::Timer, 0, 8) {
        Some(fault) => return Some(fault),
        None => (),
    }
    match count_fault(board, PartKind::Uart, 0, 8) {
        Some(fault) => return Some(fault),
        None => (),
    }
    match count_fault(board, PartKind::Region, 0, 64) {
        Some(fault) => return Some(fault),
        None => (),
    }
    match count_fault(board, PartKind::Dump, 0, 16) {
        Some(fault) => return Some(fault),
        None => (),
    }
    count_fault(board, PartKind::Script, 0, 1024)
}

fn memory_total(rows: &[MemoryRow]) -> u64
    requires { length rows.now ≤ 1024 }
    ensures { result ≡ sum (map (λ row. row.size) rows.now) }
{
    rows.iter().map(|row| u64::from(row.size)).sum()
}

fn dump_total(rows: &[DumpRow]) -> u64
    requires { length rows.now ≤ 1024 }
    ensures { result ≡ sum (map (λ row. row.lines) rows.now) }
{
    rows.iter().map(|row| u64::from(row.lines)).sum()
}

fn script_total(rows: &[ScriptRow]) -> u64
    requires { length rows.now ≤ 1024 }
    ensures { result ≡ sum (map (λ row. row.times) rows.now) }
{
    rows.iter().map(|row| u64::from(row.times)).sum()
}

fn total_fault(kind: PartKind, most: u64, n: u64) -> Option<BoardFault>
    ensures { result ≡ spec.total_fault kind most n }
{
    if n <= most {
        None
    } else {
        Some(BoardFault::Total(kind, n))
    }
}

/// The first total that is too great.
#[tactic(auto, unfolding(crate::specs::Valid::totals))]
fn totals(board: &Board) -> Option<BoardFault>
    requires { IsSmall board.now }
    ensures { result ≡ spec.totals board.now }
{
    let bytes = memory_total(board.memory.as_slice());
    match total_fault(PartKind::Memory, 268_435_456, bytes) {
        Some(fault) => return Some(fault),
        None => (),
    }
    let lines = dump_total(board.dump.as_slice());
    match total_fault(PartKind::Dump, 4096, lines) {
        Some(fault) => return Some(fault),
        None => (),
    }
    let events = script_total(board.script.as_slice());
    total_fault(PartKind::Script, 1_000_000, events)
}

/// The first pair of parts of some arrays that breaks a rule on pairs.
fn first_pair(board: &Board, rule: PairRule, kinds: &[PartKind]) -> Option<BoardFault>
    requires { IsSmall board.now }
    ensures { result ≡ parts.first_pair board.now kinds.now (λ p q. spec.pair_fault board.now rule p q) }
{
    let pairs = Pairs { board, rule, kinds };
    first_part(board, kinds, &pairs)
}

/// The rules on numbers and names.
#[tactic(auto, unfolding(crate::specs::Valid::early_faults))]
fn early_faults(board: &Board) -> Option<BoardFault>
    requires { IsSmall board.now }
    ensures { result ≡ spec.early_faults board.now }
{
    let top = Part {
        kind: PartKind::Top,
        index: 0,
    };
    match top_numbers(board, top) {
        Some(fault) => return Some(fault),
        None => (),
    }
    match first_part(board, &ARRAYS, &Numbers { board }) {
        Some(fault) => return Some(fault),
        None => (),
    }
    match name_faults(board) {
        Some(fault) => return Some(fault),
        None => (),
    }
    first_pair(board, PairRule::SameCpuid, &[PartKind::Core])
}

/// The rules on parts that others name, on places and on totals.
#[tactic(auto, unfolding(crate::specs::Valid::late_faults))]
fn late_faults(board: &Board) -> Option<BoardFault>
    requires { IsSmall board.now }
    ensures { result ≡ spec.late_faults board.now }
{
    match first_part(board, &ARRAYS, &Cores { board }) {
        Some(fault) => return Some(fault),
        None => (),
    }
    match first_part(board, &ARRAYS, &Others { board }) {
        Some(fault) => return Some(fault),
        None => (),
    }
    match place_faults(board) {
        Some(fault) => return Some(fault),
        None => (),
    }
    totals(board)
}

#[tactic(auto, unfolding(crate::specs::Valid::name_faults))]
fn name_faults(board: &Board) -> Option<BoardFault>
    requires { IsSmall board.now }
    ensures { result ≡ spec.name_faults board.now }
{
    match first_part(board, &ARRAYS, &Names { board }) {
        Some(fault) => return Some(fault),
        None => (),
    }
    match first_pair(board, PairRule::SameName, &DEVICES) {
        Some(fault) => return Some(fault),
        None => (),
    }
    first_pair(board, PairRule::SameName, &[PartKind::Region])
}

#[tactic(auto, unfolding(crate::specs::Valid::place_faults))]
fn place_faults(board: &Board) -> Option<BoardFault>
    requires { IsSmall board.now }
    ensures { result ≡ spec.place_faults board.now }
{
    match first_pair(board, PairRule::Overlap, &IN_PLACES) {
        Some(fault) => return Some(fault),
        None => (),
    }
    match first_pair(board, PairRule::Overlap, &[PartKind::Region]) {
        Some(fault) => return Some(fault),
        None => (),
    }
    first_part(board, &ARRAYS, &Insides { board })
}

/// Whether a board keeps its rules: Ok, or the first rule that it breaks, in the order of
/// `BoardFault`, with the lowest part or pair that breaks it.
#[tactic(auto, unfolding(crate::specs::Valid::first_fault))]
pub fn valid(board: &Board) -> Result<(), BoardFault>
    ensures ok { OnOk result (IsValid board.now) }
    ensures fault { IfErr result (λ fault. spec.first_fault board.now ≡ Some fault) }
{
    match counts(board) {
        Some(fault) => return Err(fault),
        None => (),
    }
    match early_faults(board) {
        Some(fault) => return Err(fault),
        None => (),
    }
    match late_faults(board) {
        Some(fault) => Err(fault),
        None => Ok(()),
    }
}
