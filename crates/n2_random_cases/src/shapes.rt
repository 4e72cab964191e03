//! What the board and the programs of a run have in common.

ghost use Rattle.std.specs.Prelude.{◌<◌, ◌≤◌};

use crate::words::Words;

/// Where the mutexes stand, of which each has two words.
pub const MUTEXES: u32 = 0x2_0000;

/// Where the sides of the mailboxes stand: each has four words.
pub const MAILBOXES: [u32; 4] = [0x2_0040, 0x2_0060, 0x2_00c0, 0x2_00e0];

/// Where the timers stand.
pub const TIMERS: [u32; 2] = [0x2_0080, 0x2_00a0];

/// Where the UARTs stand.
pub const UARTS: [u32; 2] = [0x2_0100, 0x2_0110];

/// Where the lines of the first mutex stand; those of the second stand 0x200 bytes behind them.
pub const GUARDED: u32 = 0x2000;

/// Where the region stands that is passed on.
pub const PASSED: u32 = 0x2400;

/// Where the uncached line stands.
pub const FLAGS: u32 = 0x2600;

/// Where the lines of core 0 alone stand, if they are in the memory of all others.
pub const OWN: u32 = 0x2800;

/// Where lines without a class begin.
pub const ABSENT: u32 = 0x3000;

/// How many cores a run has, with which of them core 0 exchanges messages, the cores that the first timer
/// and UART and that the second ones interrupt, and where the lines of core 0 alone stand; those of the
/// next stand 0x200 bytes behind them. All regions begin in one set of a cache of 512 bytes.
#[derive(Drop)]
pub struct Shape {
    pub cores: u32,
    pub other: u32,
    pub interrupted: [u32; 2],
    pub own: u32,
    ghost some: { 0 < cores },
    ghost few: { cores ≤ 4 },
}

impl Shape {
    /// A random shape.
    pub fn random(words: &mut Words) -> Shape {
        let cores = 1 + words.below(4);
        let other = words.below(cores);
        let first = words.below(cores);
        let own = match words.below(3) {
            0 => OWN,
            1 => 0x4000,
            _ => 0x8000,
        };
        Shape {
            cores,
            other: if other == 0 && cores > 1 { 1 } else { other },
            interrupted: [first, (first + 1) % cores],
            own,
        }
    }

    /// Where the lines of a core alone stand.
    pub fn own_at(&self, core: u32) -> u32 {
        self.own.wrapping_add(core.wrapping_mul(0x200))
    }

    /// The number of the timer and the UART of a core: those that interrupt it, else the first.
    pub fn devices_of(&self, core: u32) -> usize
        ensures { result < 2 }
    {
        if self.interrupted[1] == core { 1 } else { 0 }
    }
}

/// Where the program of a core stands; it has at most 0x800 bytes.
pub fn program_at(core: u32) -> u32 {
    core.wrapping_mul(0x800)
}

/// Where the handler of a core's exceptions stands: behind the first instruction.
pub fn handler_at(core: u32) -> u32 {
    program_at(core).wrapping_add(4)
}
