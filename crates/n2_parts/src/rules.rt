//! The rules on names and on parts that others name.

ghost use Rattle.std.specs.Prelude.{◌≡◌, ◌<◌, ◌^◌, option_map};
ghost use Rattle.n2_text.specs.Firsts as firsts;
ghost use Rattle.n2_parts.specs.Rules as spec;

use crate::board::{Board, BoardFault, DeviceEvent, Part, PartKind, RegionClass};
use crate::parts::{row, same_part};

fn is_letter(c: u8) -> bool
    ensures { result ≡ spec.is_letter c }
{
    97 <= c && c <= 122 || 48 <= c && c <= 57 || c == 95
}

fn are_letters(name: &[u8]) -> bool
    ensures { result ≡ spec.are_letters name.now }
{
    for c in name {
        if !is_letter(*c) {
            return false;
        }
    }
    true
}

fn is_name(name: &[u8]) -> bool
    ensures { result ≡ spec.is_name name.now }
{
    1 <= name.len() && name.len() <= 16 && are_letters(name)
}

/// The name of a part, if its kind has one.
fn name_of(board: &Board, part: Part) -> Option<&[u8]>
    ensures { option_map (λ name. name.now) result ≡ spec.name_of board.now part }
{
    let i = part.index;
    match part.kind {
        PartKind::Mutex => Some(row(board.mutex.as_slice(), i)?.name.as_bytes()),
        PartKind::Mailbox => Some(row(board.mailbox.as_slice(), i)?.name.as_bytes()),
        PartKind::Timer => Some(row(board.timer.as_slice(), i)?.name.as_bytes()),
        PartKind::Uart => Some(row(board.uart.as_slice(), i)?.name.as_bytes()),
        PartKind::Region => Some(row(board.region.as_slice(), i)?.name.as_bytes()),
        _ => None,
    }
}

/// A name that is none.
#[tactic(auto, unfolding(crate::specs::Rules::name_fault))]
pub fn name_fault(board: &Board, part: Part) -> Option<BoardFault>
    ensures { result ≡ spec.name_fault board.now part }
{
    let name = name_of(board, part)?;
    if is_name(name) {
        None
    } else {
        Some(BoardFault::Name(part))
    }
}

/// Two parts of one name.
#[tactic(auto, unfolding(crate::specs::Rules::same_name))]
pub fn same_name(board: &Board, p: Part, q: Part) -> Option<BoardFault>
    ensures { result ≡ spec.same_name board.now p q }
{
    if same_part(p, q) {
        return None;
    }
    let name = name_of(board, p)?;
    let other = name_of(board, q)?;
    if name == other {
        Some(BoardFault::SameName(p, q))
    } else {
        None
    }
}

/// Two cores of one cpuid.
#[tactic(auto, unfolding(crate::specs::Rules::same_cpuid))]
pub fn same_cpuid(board: &Board, p: Part, q: Part) -> Option<BoardFault>
    ensures { result ≡ spec.same_cpuid board.now p q }
{
    if same_part(p, q) {
        return None;
    }
    let core = row(board.core.as_slice(), p.index)?;
    let other = row(board.core.as_slice(), q.index)?;
    if core.cpuid == other.cpuid {
        Some(BoardFault::SameCpuid(p.index, q.index))
    } else {
        None
    }
}

fn class_has_cores(cores: usize, class: &RegionClass) -> bool
    ensures { result ≡ spec.class_has_cores cores class.now }
{
    match class {
        RegionClass::Private(core) => (*core as usize) < cores,
        RegionClass::Passed { holder, .. } => (*holder as usize) < cores,
        RegionClass::Code | RegionClass::Mutex(_) | RegionClass::Uncached => true,
    }
}

fn unless(is_good: bool, fault: BoardFault) -> Option<BoardFault>
    ensures { result ≡ firsts.unless is_good fault }
{
    if is_good { None } else { Some(fault) }
}

/// A core that a part names and that is not there.
#[tactic(auto, unfolding(crate::specs::Rules::core_fault))]
pub fn core_fault(board: &Board, part: Part) -> Option<BoardFault>
    ensures { result ≡ spec.core_fault board.now part }
{
    let i = part.index;
    let cores = board.core.len();
    match part.kind {
        PartKind::Mailbox => {
            let m = row(board.mailbox.as_slice(), i)?;
            unless(
                (m.sender as usize) < cores && (m.receiver as usize) < cores,
                BoardFault::NoCore(part),
            )
        }
        PartKind::Timer => {
            let t = row(board.timer.as_slice(), i)?;
            unless((t.core as usize) < cores, BoardFault::NoCore(part))
        }
        PartKind::Uart => {
            let u = row(board.uart.as_slice(), i)?;
            unless((u.core as usize) < cores, BoardFault::NoCore(part))
        }
        PartKind::Region => {
            let r = row(board.region.as_slice(), i)?;
            unless(class_has_cores(cores, &r.class), BoardFault::NoCore(part))
        }
        _ => None,
    }
}

fn are_below(n: usize, numbers: &[u32]) -> bool
    ensures { result ≡ spec.are_below n numbers.now }
{
    for i in numbers {
        if *i as usize >= n {
            return false;
        }
    }
    true
}

fn class_has_parts(board: &Board, class: &RegionClass) -> bool
    ensures { result ≡ spec.class_has_parts board.now class.now }
{
    match class {
        RegionClass::Mutex(mutex) => (*mutex as usize) < board.mutex.len(),
        RegionClass::Passed { mailboxes, .. } => {
            are_below(board.mailbox.len(), mailboxes.as_slice())
        }
        RegionClass::Code | RegionClass::Private(_) | RegionClass::Uncached => true,
    }
}

fn event_has_uart(uarts: usize, event: DeviceEvent) -> bool
    ensures { result ≡ spec.event_has_uart uarts event }
{
    match event {
        DeviceEvent::Tick(_) => true,
        DeviceEvent::Receive(uart) => (uart as usize) < uarts,
        DeviceEvent::Drain(uart) => (uart as usize) < uarts,
    }
}

/// A mutex, mailbox or UART that a part names and that is not there.
#[tactic(auto, unfolding(crate::specs::Rules::part_fault))]
pub fn part_fault(board: &Board, part: Part) -> Option<BoardFault>
    ensures { result ≡ spec.part_fault board.now part }
{
    let i = part.index;
    match part.kind {
        PartKind::Region => {
            let r = row(board.region.as_slice(), i)?;
            unless(class_has_parts(board, &r.class), BoardFault::NoPart(part))
        }
        PartKind::Script => {
            let s = row(board.script.as_slice(), i)?;
            unless(
                event_has_uart(board.uart.len(), s.event),
                BoardFault::NoPart(part),
            )
        }
        _ => None,
    }
}
