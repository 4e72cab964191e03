//! The rows that are written where something is refused.

ghost use Rattle.std.specs.Prelude.{◌≡◌, ◌++◌, OnOk};
ghost use Rattle.n2_elf.specs.Names.{fault_text};
ghost use Rattle.n2_asm.specs.FaultTexts.{fault_text as source_fault};
ghost use Rattle.n2_inputs.specs.Refusals as spec;

use crate::refusal::{Refusal, Role};
use n2_asm::AsmKind;
use n2_board::OpenFault;
use n2_elf::{ElfFault, put_fault};
use n2_journal::JournalFault;
use n2_text::{put_number, put_text};
use n2_word::NoMemory;

fn put_image(out: &mut Vec<u8>, core: u32) -> Result<(), NoMemory>
    ensures { OnOk result (out.new.items ≡ out.old.items ++ spec.role_text (Role.Image core)) }
{
    put_text(out, b"image ")?;
    put_number(out, u64::from(core))
}

fn put_role(out: &mut Vec<u8>, role: Role) -> Result<(), NoMemory>
    ensures { OnOk result (out.new.items ≡ out.old.items ++ spec.role_text role) }
{
    match role {
        Role::Board => put_text(out, b"board"),
        Role::Image(core) => put_image(out, core),
        Role::Journal => put_text(out, b"journal"),
        Role::Source => put_text(out, b"source"),
        Role::Order => put_text(out, b"order"),
    }
}

/// Appends what is wrong with a file, as `image 0 absent`.
fn put_file(out: &mut Vec<u8>, role: Role, cause: &[u8]) -> Result<(), NoMemory>
    ensures { OnOk result (out.new.items ≡ out.old.items ++ spec.file_text role cause.now) }
{
    put_role(out, role)?;
    put_text(out, b" ")?;
    put_text(out, cause)
}

/// Appends the first fault of an image's file, as `image 0 wrongmachine 243`.
fn put_image_fault(out: &mut Vec<u8>, core: u32, fault: &ElfFault) -> Result<(), NoMemory>
    ensures { OnOk result (out.new.items ≡ out.old.items ++ spec.file_text (Role.Image core) (fault_text fault.now)) }
{
    put_image(out, core)?;
    put_text(out, b" ")?;
    put_fault(out, fault)
}

fn put_entry(out: &mut Vec<u8>, core: u32) -> Result<(), NoMemory>
    ensures { OnOk result (out.new.items ≡ out.old.items ++ spec.entry_text core) }
{
    put_text(out, b"entry ")?;
    put_number(out, u64::from(core))?;
    put_text(out, b" outside")
}

fn put_pair(out: &mut Vec<u8>, name: &[u8], a: u32, b: u32) -> Result<(), NoMemory>
    ensures { OnOk result (out.new.items ≡ out.old.items ++ spec.pair_text name.now a b) }
{
    put_text(out, name)?;
    put_number(out, u64::from(a))?;
    put_text(out, b" ")?;
    put_number(out, u64::from(b))
}

/// Appends the first thing in which images do not fit a board, as `image 0 outside`,
/// `entry 0 outside` or `images overlap 0 1`.
#[tactic(auto, unfolding(crate::specs::Refusals::misfit_text))]
fn put_misfit(out: &mut Vec<u8>, fault: OpenFault) -> Result<(), NoMemory>
    ensures { OnOk result (out.new.items ≡ out.old.items ++ spec.misfit_text fault) }
{
    match fault {
        OpenFault::Outside(core) => put_file(out, Role::Image(core), b"outside"),
        OpenFault::EntryOutside(core) => put_entry(out, core),
        OpenFault::Overlap(a, b) => put_pair(out, b"images overlap ", a, b),
        OpenFault::NoMemory => put_text(out, b"images nomemory"),
    }
}

#[tactic(auto, unfolding(crate::specs::Refusals::usage))]
fn put_usage(out: &mut Vec<u8>) -> Result<(), NoMemory>
    ensures { OnOk result (out.new.items ≡ out.old.items ++ spec.usage) }
{
    put_text(
        out,
        b"usage: n2_tool plain FILE STEPS | step BOARD ORDER | replay BOARD JOURNAL | flat BOARD JOURNAL | asm FILE | asmhal FILE | dis FILE | bench N",
    )
}

/// Appends a row of a file, as `order row 3`.
fn put_file_row(out: &mut Vec<u8>, role: Role, name: &[u8], row: u64) -> Result<(), NoMemory>
    ensures { OnOk result (out.new.items ≡ out.old.items ++ spec.row_text role name.now row) }
{
    put_role(out, role)?;
    put_text(out, name)?;
    put_number(out, row)
}

/// Appends why a text is no journal, as `journal row 7` or `journal cut`.
fn put_journal_fault(out: &mut Vec<u8>, fault: JournalFault) -> Result<(), NoMemory>
    ensures { OnOk result (out.new.items ≡ out.old.items ++ spec.journal_text fault) }
{
    match fault {
        JournalFault::NotJournal(row) => put_file_row(out, Role::Journal, b" row ", row),
        JournalFault::Cut => put_file(out, Role::Journal, b"cut"),
        JournalFault::NoMemory => put_file(out, Role::Journal, b"nomemory"),
    }
}

/// Appends the faulty row of a source, as `source row 2 range`.
fn put_source_fault(out: &mut Vec<u8>, row: u64, kind: AsmKind) -> Result<(), NoMemory>
    ensures { OnOk result (out.new.items ≡ out.old.items ++ spec.file_text Role.Source (source_fault row kind)) }
{
    put_text(out, b"source")?;
    put_text(out, b" ")?;
    n2_asm::put_fault(out, row, kind)
}

#[tactic(auto, unfolding(crate::specs::Refusals::text_of))]
fn put_refusal(out: &mut Vec<u8>, refusal: &Refusal) -> Result<(), NoMemory>
    ensures { OnOk result (out.new.items ≡ out.old.items ++ spec.text_of refusal.now) }
{
    match refusal {
        Refusal::Usage => put_usage(out),
        Refusal::RunUsage => put_text(out, b"usage: n2_mp run BOARD"),
        Refusal::Absent(role) => put_file(out, *role, b"absent"),
        Refusal::TooLong(role) => put_file(out, *role, b"too long"),
        Refusal::BoardText(fault) => n2_boardtext::put_fault(out, fault),
        Refusal::Image(core, fault) => put_image_fault(out, *core, fault),
        Refusal::Misfit(fault) => put_misfit(out, *fault),
        Refusal::OrderRow(row) => put_file_row(out, Role::Order, b" row ", *row),
        Refusal::JournalText(fault) => put_journal_fault(out, *fault),
        Refusal::JournalWrong(row) => put_file_row(out, Role::Journal, b" wrong ", *row),
        Refusal::SourceRow(row, kind) => put_source_fault(out, *row, *kind),
    }
}

/// Appends the row of a refusal.
pub fn put_row(out: &mut Vec<u8>, refusal: &Refusal) -> Result<(), NoMemory>
    ensures { OnOk result (out.new.items ≡ out.old.items ++ spec.row_of refusal.now) }
{
    put_refusal(out, refusal)?;
    put_text(out, b"\n")
}
