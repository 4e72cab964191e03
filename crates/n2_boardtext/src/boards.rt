//! The board that a text's tree stands for, where nothing is wrong with the tree.

ghost use Rattle.std.specs.Prelude.{◌≡◌, ◌<◌, ◌≤◌, ◌^◌, [], ◌∷◌, ◌++◌, IfOk, IfSome, OnOk, map, option_copied};
ghost use Rattle.toml.specs.Data.{Members};
ghost use Rattle.toml.specs.View.{view, table_view};
ghost use Rattle.n2_boardtext.specs.Keys as keys;
ghost use Rattle.n2_boardtext.specs.Boards as spec;

use crate::document::Document;
use crate::keys::{Named, Sort, Word, default_of, sort_of};
use crate::values::{items_at, number_in, text_at, value_at, values_of, word_at};
use n2_parts::{
    Board, CoreRow, DeviceEvent, DumpRow, Key, MailboxRow, MemoryRow, MutexRow, PartKind,
    RegionClass, RegionRow, ScriptRow, TimerRow, UartRow,
};
use n2_text::{Items, Text};
use n2_word::NoMemory;
use std::alloc::Global;
use toml::{Table, Value};

/// The greatest number of a sort.
fn most_of(sort: Sort) -> u64
    ensures { result ≡ spec.most_of sort }
{
    match sort {
        Sort::Number(most) => most,
        _ => 0,
    }
}

/// The number of a key, if it is given.
fn given_number(table: &Table, key: Key) -> Option<u64>
    ensures value { result ≡ spec.given_number key (table_view table.now) }
    ensures small { IfSome result (λ n. n ≤ spec.most_of (keys.sort_of key)) }
{
    number_in(most_of(sort_of(key)), value_at(table, key)?)
}

/// The number of a key, or else its default.
fn number_at(table: &Table, key: Key) -> u32
    requires { spec.most_of (keys.sort_of key) < 2 ^ 32 }
    ensures { result ≡ spec.number_at key (table_view table.now) }
{
    match given_number(table, key) {
        Some(n) => n as u32,
        None => default_of(key),
    }
}

/// The number of a key, if it is given.
fn optional_at(table: &Table, key: Key) -> Option<u32>
    requires { spec.most_of (keys.sort_of key) < 2 ^ 32 }
    ensures { result ≡ spec.given_number key (table_view table.now) }
{
    Some(given_number(table, key)? as u32)
}

/// The number of turns.
fn turns_at(tree: &Table) -> u64
    ensures { result ≡ spec.number_at Key.Turns (table_view tree.now) }
{
    given_number(tree, Key::Turns).unwrap_or(u64::from(default_of(Key::Turns)))
}

/// The cpuid of a core.
fn cpuid_at(table: &Table) -> u16
    ensures { result ≡ spec.number_at Key.Cpuid (table_view table.now) }
{
    match given_number(table, Key::Cpuid) {
        Some(n) => n as u16,
        None => 0,
    }
}

/// The text of a key, or else the empty one.
fn text_of(alloc: Global, table: &Table, key: Key) -> Result<Text, NoMemory>
    ensures { IfOk result (λ text. text ≡ spec.text_or_empty key (table_view table.now)) }
{
    Text::from_str(alloc, text_at(table, key).unwrap_or(""))
}

/// The number of the part of a name.
fn part_in(document: &Document<'_>, array: Named, name: Option<&str>) -> u32
    ensures { result ≡ spec.part_in array (table_view document.now.tree.now) (option_copied name.entry) }
{
    match name {
        Some(name) => document.index_of(array, name).unwrap_or(0),
        None => 0,
    }
}

/// The numbers of the parts of some names.
fn parts_in(
    alloc: Global,
    document: &Document<'_>,
    array: Named,
    items: &[Value],
) -> Result<Items<u32>, NoMemory>
    ensures { IfOk result (λ parts. parts ≡ spec.parts_in array (table_view document.now.tree.now) (map view items.now)) }
{
    let mut parts = Items::new(alloc);
    for item in items {
        parts.push(part_in(document, array, item.as_str()))?;
    }
    Ok(parts)
}

/// A row of a board that a table of a tree gives.
trait Row: Sized {
    /// The row of a tree and of a table of it.
    ghost made: { Members → Members → Self };

    /// The row of a table.
    fn read(alloc: Global, document: &Document<'_>, table: &Table) -> Result<Self, NoMemory>
        ensures { IfOk result (λ read. read ≡ made (table_view document.now.tree.now) (table_view table.now)) };
}

impl Row for MemoryRow {
    ghost made = { spec.memory_row };

    fn read(
        _alloc: Global,
        _document: &Document<'_>,
        table: &Table,
    ) -> Result<MemoryRow, NoMemory> {
        Ok(MemoryRow {
            base: number_at(table, Key::Base),
            size: number_at(table, Key::Size),
        })
    }
}

impl Row for CoreRow {
    ghost made = { spec.core_row };

    fn read(alloc: Global, _document: &Document<'_>, table: &Table) -> Result<CoreRow, NoMemory> {
        Ok(CoreRow {
            cpuid: cpuid_at(table),
            image: text_of(alloc, table, Key::Image)?,
            at: number_at(table, Key::At),
            reset: optional_at(table, Key::Reset),
            exception: number_at(table, Key::Exception),
            dcache: number_at(table, Key::Dcache),
            icache: number_at(table, Key::Icache),
            sample: number_at(table, Key::Sample),
            evict: number_at(table, Key::Evict),
        })
    }
}

impl Row for MutexRow {
    ghost made = { spec.mutex_row };

    fn read(alloc: Global, _document: &Document<'_>, table: &Table) -> Result<MutexRow, NoMemory> {
        Ok(MutexRow {
            name: text_of(alloc, table, Key::Name)?,
            base: number_at(table, Key::Base),
        })
    }
}

impl Row for MailboxRow {
    ghost made = { spec.mailbox_row };

    fn read(
        alloc: Global,
        _document: &Document<'_>,
        table: &Table,
    ) -> Result<MailboxRow, NoMemory> {
        Ok(MailboxRow {
            name: text_of(alloc, table, Key::Name)?,
            send: number_at(table, Key::Send),
            receive: number_at(table, Key::Receive),
            sender: number_at(table, Key::Sender),
            receiver: number_at(table, Key::Receiver),
            send_irq: optional_at(table, Key::SendIrq),
            receive_irq: optional_at(table, Key::ReceiveIrq),
        })
    }
}

impl Row for TimerRow {
    ghost made = { spec.timer_row };

    fn read(alloc: Global, _document: &Document<'_>, table: &Table) -> Result<TimerRow, NoMemory> {
        Ok(TimerRow {
            name: text_of(alloc, table, Key::Name)?,
            base: number_at(table, Key::Base),
            core: number_at(table, Key::Core),
            irq: optional_at(table, Key::Irq),
            period: number_at(table, Key::Period),
        })
    }
}

impl Row for UartRow {
    ghost made = { spec.uart_row };

    fn read(alloc: Global, _document: &Document<'_>, table: &Table) -> Result<UartRow, NoMemory> {
        Ok(UartRow {
            name: text_of(alloc, table, Key::Name)?,
            base: number_at(table, Key::Base),
            core: number_at(table, Key::Core),
            irq: optional_at(table, Key::Irq),
            read_depth: number_at(table, Key::ReadDepth),
            write_depth: number_at(table, Key::WriteDepth),
            input: text_of(alloc, table, Key::Input)?,
        })
    }
}

/// The class of a region, by its word.
fn class_by(
    alloc: Global,
    document: &Document<'_>,
    table: &Table,
    word: Option<Word>,
) -> Result<RegionClass, NoMemory>
    ensures { IfOk result (λ class. class ≡ spec.class_by (table_view document.now.tree.now) (table_view table.now) word) }
{
    match word {
        Some(Word::Private) => Ok(RegionClass::Private(number_at(table, Key::Core))),
        Some(Word::Mutex) => Ok(RegionClass::Mutex(part_in(
            document,
            Named::Mutex,
            text_at(table, Key::Mutex),
        ))),
        Some(Word::Passed) => Ok(RegionClass::Passed {
            holder: number_at(table, Key::Holder),
            mailboxes: parts_in(
                alloc,
                document,
                Named::Mailbox,
                values_of(value_at(table, Key::Mailboxes)),
            )?,
        }),
        Some(Word::Uncached) => Ok(RegionClass::Uncached),
        _ => Ok(RegionClass::Code),
    }
}

impl Row for RegionRow {
    ghost made = { spec.region_row };

    fn read(alloc: Global, document: &Document<'_>, table: &Table) -> Result<RegionRow, NoMemory> {
        Ok(RegionRow {
            name: text_of(alloc, table, Key::Name)?,
            base: number_at(table, Key::Base),
            size: number_at(table, Key::Size),
            class: class_by(alloc, document, table, word_at(table, Key::Class))?,
        })
    }
}

impl Row for DumpRow {
    ghost made = { spec.dump_row };

    fn read(_alloc: Global, _document: &Document<'_>, table: &Table) -> Result<DumpRow, NoMemory> {
        Ok(DumpRow {
            at: number_at(table, Key::At),
            lines: number_at(table, Key::Lines),
        })
    }
}

/// The event of a row of the script, by its word.
fn event_by(document: &Document<'_>, table: &Table, word: Option<Word>) -> DeviceEvent
    ensures { result ≡ spec.event_by (table_view document.now.tree.now) (table_view table.now) word }
{
    match word {
        Some(Word::Receive) => DeviceEvent::Receive(part_in(
            document,
            Named::Uart,
            text_at(table, Key::Uart),
        )),
        Some(Word::Drain) => DeviceEvent::Drain(part_in(
            document,
            Named::Uart,
            text_at(table, Key::Uart),
        )),
        _ => DeviceEvent::Tick(number_at(table, Key::N)),
    }
}

impl Row for ScriptRow {
    ghost made = { spec.script_row };

    fn read(_alloc: Global, document: &Document<'_>, table: &Table) -> Result<ScriptRow, NoMemory> {
        Ok(ScriptRow {
            event: event_by(document, table, word_at(table, Key::Do)),
            times: number_at(table, Key::Times),
        })
    }
}

/// Appends the row of a value, if it is a table.
fn put_row<R: Row + Drop>(
    alloc: Global,
    document: &Document<'_>,
    value: &Value,
    rows: &mut Items<R>,
) -> Result<(), NoMemory>
    ensures { OnOk result (rows.new ≡ rows.old ++ spec.rows_in (R.made (table_view document.now.tree.now)) (view value.now ∷ [])) }
{
    match value.as_table() {
        Some(table) => rows.push(R::read(alloc, document, table)?),
        None => Ok(()),
    }
}

/// The rows of an array.
fn rows_at<R: Row + Drop>(
    alloc: Global,
    document: &Document<'_>,
    kind: PartKind,
) -> Result<Items<R>, NoMemory>
    ensures { IfOk result (λ rows. rows ≡ spec.rows_at kind R.made (table_view document.now.tree.now)) }
{
    let items = items_at(document.tree, kind);
    let mut rows = Items::new(alloc);
    for item in items {
        put_row(alloc, document, item, &mut rows)?;
    }
    Ok(rows)
}

/// The board that a tree stands for.
#[tactic(auto, unfolding(crate::specs::Boards::board_of))]
pub fn board_of(alloc: Global, document: &Document<'_>) -> Result<Board, NoMemory>
    ensures { IfOk result (λ board. board ≡ spec.board_of (table_view document.now.tree.now)) }
{
    Ok(Board {
        turns: turns_at(document.tree),
        journal: number_at(document.tree, Key::Journal),
        memory: rows_at(alloc, document, PartKind::Memory)?,
        core: rows_at(alloc, document, PartKind::Core)?,
        mutex: rows_at(alloc, document, PartKind::Mutex)?,
        mailbox: rows_at(alloc, document, PartKind::Mailbox)?,
        timer: rows_at(alloc, document, PartKind::Timer)?,
        uart: rows_at(alloc, document, PartKind::Uart)?,
        region: rows_at(alloc, document, PartKind::Region)?,
        dump: rows_at(alloc, document, PartKind::Dump)?,
        script: rows_at(alloc, document, PartKind::Script)?,
    })
}
