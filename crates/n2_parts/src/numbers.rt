//! The ranges of a board's numbers.

ghost use Rattle.std.specs.Prelude.{◌≡◌, ◌+◌, ◌*◌, ◌<◌, ◌^◌};
ghost use Rattle.n2_word.specs.Lines.{is_cache_size};
ghost use Rattle.n2_parts.specs.Numbers as spec;

use crate::board::{
    Board, BoardFault, CoreRow, DeviceEvent, DumpRow, Key, MailboxRow, MemoryRow, MutexRow, Part,
    PartKind, RegionRow, ScriptRow, TimerRow, UartRow,
};
use crate::parts::row;

/// Whether a number is from `low` to `high`.
pub fn is_between(low: u64, high: u64, n: u64) -> bool
    ensures { result ≡ spec.is_between low high n }
{
    low <= n && n <= high
}

fn is_place(of: u32, n: u32) -> bool
    requires { 0 < of }
    ensures { result ≡ spec.is_place of n }
{
    n % of == 0 && n < 0x8000_0000
}

fn is_base(words: u32, n: u32) -> bool
    requires { words < 1000 }
    ensures { result ≡ spec.is_base words n }
{
    n % 4 == 0 && u64::from(n) + 4 * u64::from(words) <= 0x8000_0000
}

fn is_size(n: u32) -> bool
    ensures { result ≡ spec.is_size n }
{
    n % 32 == 0 && 0 < n
}

fn is_irq(irq: Option<u32>) -> bool
    ensures { result ≡ spec.is_irq irq }
{
    match irq {
        None => true,
        Some(n) => n < 32,
    }
}

fn is_cache_size(n: u32) -> bool
    ensures { result ≡ is_cache_size n }
{
    n.is_power_of_two() && 512 <= n && n <= 65536
}

fn is_event(event: DeviceEvent) -> bool
    ensures { result ≡ spec.is_event event }
{
    match event {
        DeviceEvent::Tick(n) => 0 < n,
        DeviceEvent::Receive(_) => true,
        DeviceEvent::Drain(_) => true,
    }
}

/// The first key whose number is out of its range.
fn numbers(part: Part, keys: &[(Key, bool)]) -> Option<BoardFault>
    ensures { result ≡ spec.numbers part keys.now }
{
    for (key, is_good) in keys {
        if !*is_good {
            return Some(BoardFault::Number { part, key: *key });
        }
    }
    None
}

/// The numbers of the board itself.
#[tactic(auto, unfolding(crate::specs::Numbers::top_numbers))]
pub fn top_numbers(board: &Board, part: Part) -> Option<BoardFault>
    ensures { result ≡ spec.top_numbers board.now part }
{
    numbers(
        part,
        &[
            (Key::Turns, is_between(1, 1_000_000_000, board.turns)),
            (
                Key::Journal,
                is_between(1, 1_000_000, u64::from(board.journal)),
            ),
        ],
    )
}

#[tactic(auto, unfolding(crate::specs::Numbers::memory_numbers))]
fn memory_numbers(part: Part, row: &MemoryRow) -> Option<BoardFault>
    ensures { result ≡ spec.memory_numbers part row.now }
{
    let end = u64::from(row.base) + u64::from(row.size);
    numbers(
        part,
        &[
            (Key::Base, row.base % 32 == 0),
            (Key::Size, is_size(row.size) && end <= 0x8000_0000),
        ],
    )
}

#[tactic(auto, unfolding(crate::specs::Numbers::core_numbers))]
fn core_numbers(part: Part, row: &CoreRow) -> Option<BoardFault>
    ensures { result ≡ spec.core_numbers part row.now }
{
    numbers(
        part,
        &[
            (Key::At, is_place(32, row.at)),
            (Key::Exception, is_place(4, row.exception)),
            (Key::Dcache, is_cache_size(row.dcache)),
            (Key::Icache, is_cache_size(row.icache)),
            (Key::Sample, 2 <= row.sample),
            (Key::Evict, row.evict != 1),
        ],
    )
}

#[tactic(auto, unfolding(crate::specs::Numbers::mutex_numbers))]
fn mutex_numbers(part: Part, row: &MutexRow) -> Option<BoardFault>
    ensures { result ≡ spec.mutex_numbers part row.now }
{
    numbers(part, &[(Key::Base, is_base(2, row.base))])
}

#[tactic(auto, unfolding(crate::specs::Numbers::mailbox_numbers))]
fn mailbox_numbers(part: Part, row: &MailboxRow) -> Option<BoardFault>
    ensures { result ≡ spec.mailbox_numbers part row.now }
{
    numbers(
        part,
        &[
            (Key::Send, is_base(4, row.send)),
            (Key::Receive, is_base(4, row.receive)),
            (Key::SendIrq, is_irq(row.send_irq)),
            (Key::ReceiveIrq, is_irq(row.receive_irq)),
        ],
    )
}

#[tactic(auto, unfolding(crate::specs::Numbers::timer_numbers))]
fn timer_numbers(part: Part, row: &TimerRow) -> Option<BoardFault>
    ensures { result ≡ spec.timer_numbers part row.now }
{
    numbers(
        part,
        &[
            (Key::Base, is_base(6, row.base)),
            (Key::Irq, is_irq(row.irq)),
        ],
    )
}

#[tactic(auto, unfolding(crate::specs::Numbers::uart_numbers))]
fn uart_numbers(part: Part, row: &UartRow) -> Option<BoardFault>
    ensures { result ≡ spec.uart_numbers part row.now }
{
    let read_depth = u64::from(row.read_depth);
    let write_depth = u64::from(row.write_depth);
    numbers(
        part,
        &[
            (Key::Base, is_base(2, row.base)),
            (Key::Irq, is_irq(row.irq)),
            (Key::ReadDepth, is_between(8, 32768, read_depth)),
            (Key::WriteDepth, is_between(8, 32768, write_depth)),
            (Key::Input, row.input.as_bytes().len() <= 65536),
        ],
    )
}

#[tactic(auto, unfolding(crate::specs::Numbers::region_numbers))]
fn region_numbers(part: Part, row: &RegionRow) -> Option<BoardFault>
    ensures { result ≡ spec.region_numbers part row.now }
{
    numbers(
        part,
        &[
            (Key::Base, row.base % 32 == 0),
            (Key::Size, is_size(row.size)),
        ],
    )
}

#[tactic(auto, unfolding(crate::specs::Numbers::dump_numbers))]
fn dump_numbers(part: Part, row: &DumpRow) -> Option<BoardFault>
    ensures { result ≡ spec.dump_numbers part row.now }
{
    numbers(
        part,
        &[
            (Key::At, row.at % 32 == 0),
            (Key::Lines, is_between(1, 4096, u64::from(row.lines))),
        ],
    )
}

#[tactic(auto, unfolding(crate::specs::Numbers::script_numbers))]
fn script_numbers(part: Part, row: &ScriptRow) -> Option<BoardFault>
    ensures { result ≡ spec.script_numbers part row.now }
{
    numbers(
        part,
        &[
            (Key::N, is_event(row.event)),
            (Key::Times, is_between(1, 1_000_000, u64::from(row.times))),
        ],
    )
}

/// The first number of a part that is out of its range.
#[tactic(auto, unfolding(crate::specs::Numbers::number_fault))]
pub fn number_fault(board: &Board, part: Part) -> Option<BoardFault>
    ensures { result ≡ spec.number_fault board.now part }
{
    let i = part.index;
    match part.kind {
        PartKind::Top => top_numbers(board, part),
        PartKind::Memory => memory_numbers(part, row(board.memory.as_slice(), i)?),
        PartKind::Core => core_numbers(part, row(board.core.as_slice(), i)?),
        PartKind::Mutex => mutex_numbers(part, row(board.mutex.as_slice(), i)?),
        PartKind::Mailbox => mailbox_numbers(part, row(board.mailbox.as_slice(), i)?),
        PartKind::Timer => timer_numbers(part, row(board.timer.as_slice(), i)?),
        PartKind::Uart => uart_numbers(part, row(board.uart.as_slice(), i)?),
        PartKind::Region => region_numbers(part, row(board.region.as_slice(), i)?),
        PartKind::Dump => dump_numbers(part, row(board.dump.as_slice(), i)?),
        PartKind::Script => script_numbers(part, row(board.script.as_slice(), i)?),
    }
}
