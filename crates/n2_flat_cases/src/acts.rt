//! Acts of rows.

ghost use Rattle.n2_flat.specs.State.{IsWhole};

use n2_board::{Act, DeviceEvent, Layout};
use n2_cases::{NoAnswer, number_in, words_of};
use n2_flat::Flat;
use std::alloc::Global;

/// An act: `rK` for an instruction of core K, `sK` for a sample of its interrupt lines, `tN` for N ticks
/// of the timers, `iU` for a byte from the input of UART U, and `oU` for one out of its write queue.
fn act_in(word: &str) -> Result<Act, NoAnswer> {
    let (kind, number) = word.split_at_checked(1).ok_or(NoAnswer::NoCase)?;
    let n = number_in(1_000_000, number)? as u32;
    match kind {
        "r" => Ok(Act::Retire(n)),
        "s" => Ok(Act::Sample(n)),
        "t" => Ok(Act::Device(DeviceEvent::Tick(n))),
        "i" => Ok(Act::Device(DeviceEvent::Receive(n))),
        "o" => Ok(Act::Device(DeviceEvent::Drain(n))),
        _ => Err(NoAnswer::NoCase),
    }
}

fn make(flat: &mut Flat, layout: &Layout, word: &str) -> Result<(), NoAnswer>
    requires { IsWhole layout.now flat.old }
    ensures { IsWhole layout.now flat.new }
{
    let act = act_in(word)?;
    if !flat.has_act(&act) {
        return Err(NoAnswer::NoCase);
    }
    Ok(flat.act(layout, &act)?)
}

/// Makes the acts of a field.
pub fn make_all(
    alloc: Global,
    flat: &mut Flat,
    layout: &Layout,
    field: &str,
) -> Result<(), NoAnswer>
    requires { IsWhole layout.now flat.old }
    ensures { IsWhole layout.now flat.new }
{
    let words = words_of(alloc, field)?;
    for word in words.as_slice() {
        make(flat, layout, word)?;
    }
    Ok(())
}
