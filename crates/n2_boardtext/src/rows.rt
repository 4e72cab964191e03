//! Faults of a board's text as rows.

ghost use Rattle.std.specs.Prelude.{◌≡◌, ◌++◌, OnOk, OnErr};
ghost use Rattle.n2_boardtext.specs.Rows.{cause_text, fault_text, key_text, kind_text, numbers_text, pair_text, part_text, rule_text};

use crate::fault::TextFault;
use crate::words::{key_name, kind_name};
use n2_parts::{BoardFault, Key, Part, PartKind};
use n2_text::{put_number, put_text};
use n2_word::NoMemory;

/// Appends a word, the name of an array and a number.
fn put_kind(out: &mut Vec<u8>, word: &[u8], kind: PartKind, n: u64) -> Result<(), NoMemory>
    ensures { OnOk result (out.new.items ≡ out.old.items ++ (word.now ++ kind_text kind n)) }
{
    put_text(out, word)?;
    put_text(out, kind_name(kind).as_bytes())?;
    put_text(out, b" ")?;
    put_number(out, n)
}

/// Appends a word and a part.
fn put_part(out: &mut Vec<u8>, word: &[u8], part: Part) -> Result<(), NoMemory>
    ensures { OnOk result (out.new.items ≡ out.old.items ++ (word.now ++ part_text part)) }
{
    put_kind(out, word, part.kind, u64::from(part.index))
}

/// Appends a word and two parts.
fn put_pair(out: &mut Vec<u8>, word: &[u8], first: Part, second: Part) -> Result<(), NoMemory>
    ensures { OnOk result (out.new.items ≡ out.old.items ++ (word.now ++ pair_text first second)) }
{
    put_part(out, word, first)?;
    put_part(out, b" ", second)
}

/// Appends a word, a part and a key.
fn put_key(out: &mut Vec<u8>, word: &[u8], part: Part, key: Key) -> Result<(), NoMemory>
    ensures { OnOk result (out.new.items ≡ out.old.items ++ (word.now ++ key_text part key)) }
{
    put_part(out, word, part)?;
    put_text(out, b" ")?;
    put_text(out, key_name(key).as_bytes())
}

/// Appends a word and two numbers.
fn put_numbers(out: &mut Vec<u8>, word: &[u8], i: u32, j: u32) -> Result<(), NoMemory>
    ensures { OnOk result (out.new.items ≡ out.old.items ++ (word.now ++ numbers_text i j)) }
{
    put_text(out, word)?;
    put_number(out, u64::from(i))?;
    put_text(out, b" ")?;
    put_number(out, u64::from(j))
}

/// Appends a broken rule of boards, and which parts break it.
#[tactic(auto, unfolding(crate::specs::Rows::rule_text))]
fn put_rule(out: &mut Vec<u8>, rule: &BoardFault) -> Result<(), NoMemory>
    ensures { OnOk result (out.new.items ≡ out.old.items ++ rule_text rule.now) }
{
    match rule {
        BoardFault::Count { kind, n } => put_kind(out, b"count ", *kind, *n),
        BoardFault::Number { part, key } => put_key(out, b"number ", *part, *key),
        BoardFault::Name(part) => put_part(out, b"name ", *part),
        BoardFault::SameName(first, second) => put_pair(out, b"samename ", *first, *second),
        BoardFault::SameCpuid(i, j) => put_numbers(out, b"samecpuid ", *i, *j),
        BoardFault::NoCore(part) => put_part(out, b"nocore ", *part),
        BoardFault::NoPart(part) => put_part(out, b"nopart ", *part),
        BoardFault::Overlap(first, second) => put_pair(out, b"overlap ", *first, *second),
        BoardFault::Inside(part) => put_part(out, b"inside ", *part),
        BoardFault::Total(kind, n) => put_kind(out, b"total ", *kind, *n),
    }
}

/// Appends what is wrong with a board's text, and where.
#[tactic(auto, unfolding(crate::specs::Rows::cause_text))]
fn put_cause(out: &mut Vec<u8>, fault: &TextFault) -> Result<(), NoMemory>
    ensures { OnOk result (out.new.items ≡ out.old.items ++ cause_text fault.now) }
{
    match fault {
        TextFault::NotToml => put_text(out, b"not toml"),
        TextFault::Unknown(part) => put_part(out, b"unknown ", *part),
        TextFault::Missing(part, key) => put_key(out, b"missing ", *part, *key),
        TextFault::Kind(part, key) => put_key(out, b"kind ", *part, *key),
        TextFault::Range(part, key) => put_key(out, b"range ", *part, *key),
        TextFault::NoPart(part, key) => put_key(out, b"nopart ", *part, *key),
        TextFault::Board(rule) => put_rule(out, rule),
        TextFault::NoMemory => put_text(out, b"nomemory"),
    }
}

/// Appends the row of a fault without its line feed: `board`, what is wrong in lower-case letters,
/// and where, as `board not toml`, `board missing core 0 image` or `board samename mutex 0 uart 1`.
/// A part is its array's name and its number there, the board itself `top 0`. After want of memory
/// `out` is as it was.
#[tactic(auto, unfolding(crate::specs::Rows::fault_text))]
pub fn put_fault(out: &mut Vec<u8>, fault: &TextFault) -> Result<(), NoMemory>
    ensures ok { OnOk result (out.new.items ≡ out.old.items ++ fault_text fault.now) }
    ensures err { OnErr result (out.new.items ≡ out.old.items) }
{
    let mut row = Vec::from_slice(*out.allocator(), b"board ").map_err(|_| NoMemory)?;
    put_cause(&mut row, fault)?;
    out.extend_from_slice(row.as_slice()).map_err(|_| NoMemory)
}
