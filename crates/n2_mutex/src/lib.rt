//! The hardware mutex: two registers, one that names an owner and one that tells of a reset
//! (Embedded Peripherals IP User Guide, Mutex Core).
#![tactic(auto)]

ghost use Rattle.std.specs.Prelude.{◌≡◌, ◌<◌};

use std::marker::Model;

pub mod laws;

/// The offset of the mutex register, in words.
const MUTEX: u32 = 0;

/// A mutex with its two registers. Contracts see the fields of the registers.
#[derive(Debug, Drop)]
pub struct HwMutex {
    owner: u16,
    value: u16,
    reset: bool,
}

impl Model for HwMutex {
    ghost use Rattle.n2_mutex.specs.Mutex.{State};

    ghost Value = { State };

    ghost view = { λ mutex. record { owner = mutex.owner; value = mutex.value; reset = mutex.reset } };
}

impl HwMutex {
    ghost use Rattle.n2_mutex.specs.Mutex.{started, value_of, takes, after_write};

    /// A mutex as it is after power-up: free, with RESET set (Mutex Core, register map).
    pub fn new() -> HwMutex
        ensures { result ≡ started }
    {
        HwMutex {
            owner: 0,
            value: 0,
            reset: true,
        }
    }

    /// The word of the register at an offset in words: 0 is the mutex register with OWNER above VALUE,
    /// 1 the reset register (Mutex Core, register map).
    pub fn read(&self, offset: u32) -> u32
        requires { offset < 2 }
        ensures { result ≡ value_of self.now offset }
    {
        if offset == MUTEX {
            u32::from(self.owner) * 0x1_0000 + u32::from(self.value)
        } else {
            u32::from(self.reset)
        }
    }

    /// Writes a word to the register at an offset in words, and tells whether the write took effect. It
    /// is refused exactly at the mutex register while VALUE isn't 0 and the written OWNER is another
    /// (Mutex Core, register map).
    pub fn write(&mut self, offset: u32, value: u32) -> bool
        requires { offset < 2 }
        ensures took { result ≡ takes self.old offset value }
        ensures after { self.new ≡ after_write self.old offset value }
    {
        if offset != MUTEX {
            if value & 1 == 1 {
                self.reset = false;
            }
            return true;
        }
        let owner = (value >> 16) as u16;
        if self.value != 0 && self.owner != owner {
            return false;
        }
        self.owner = owner;
        self.value = (value & 0xffff) as u16;
        true
    }
}
