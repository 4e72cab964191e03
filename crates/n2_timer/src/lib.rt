//! The interval timer, which counts ticks down from its period
//! (Embedded Peripherals IP User Guide, Interval Timer Core).
#![tactic(auto)]

ghost use Rattle.std.specs.Prelude.{◌≡◌, ◌+◌, ◌%◌, ◌<◌};

use std::marker::Model;

pub mod laws;

/// The offset of the status register, in words.
const STATUS: u32 = 0;

/// The offset of the control register, in words.
const CONTROL: u32 = 1;

/// The offset of the low half of the period, in words.
const PERIODL: u32 = 2;

/// The offset of the high half of the period, in words.
const PERIODH: u32 = 3;

/// The offset of the low half of the snapshot, in words.
const SNAPL: u32 = 4;

/// A timer with its registers and its counter. Contracts see the fields of the registers and the counter.
#[derive(Debug, Drop)]
pub struct Timer {
    to: bool,
    run: bool,
    ito: bool,
    cont: bool,
    period: u32,
    snapshot: u32,
    counter: u32,
}

impl Model for Timer {
    ghost use Rattle.n2_timer.specs.Timer.{State};

    ghost Value = { State };

    ghost view = { λ timer. record {
      to = timer.to;
      run = timer.run;
      ito = timer.ito;
      cont = timer.cont;
      period = timer.period;
      snapshot = timer.snapshot;
      counter = timer.counter;
    } };
}

impl Timer {
    ghost use Rattle.n2_timer.specs.Timer.{started, value_of, after_write, ticks, is_on, low_half, high_half, with_control, with_period};

    /// A timer that stands, with the period in its period registers and its counter, and all else 0
    /// (Interval Timer Core, register map). The period is one less than the number of ticks of a round.
    pub fn new(period: u32) -> Timer
        ensures { result ≡ started period }
    {
        Timer {
            to: false,
            run: false,
            ito: false,
            cont: false,
            period,
            snapshot: 0,
            counter: period,
        }
    }

    /// The word of the register at an offset in words: status 0, control 1, periodl 2, periodh 3, snapl 4,
    /// snaph 5 (Interval Timer Core, register map). START and STOP read 0.
    pub fn read(&self, offset: u32) -> u32
        requires { offset < 6 }
        ensures { result ≡ value_of self.now offset }
    {
        match offset {
            STATUS => u32::from(self.to) + 2 * u32::from(self.run),
            CONTROL => u32::from(self.ito) + 2 * u32::from(self.cont),
            PERIODL => self.period & 0xffff,
            PERIODH => self.period >> 16,
            SNAPL => self.snapshot & 0xffff,
            _ => self.snapshot >> 16,
        }
    }

    /// Writes a word to the register at an offset in words (Interval Timer Core, register map). Every
    /// write takes effect: of status it clears TO, of control it keeps ITO and CONT and obeys STOP before
    /// START, of a half of the period it stops the timer and loads the counter, and of a snap register it
    /// copies the counter to the snapshot.
    pub fn write(&mut self, offset: u32, value: u32)
        requires { offset < 6 }
        ensures { self.new ≡ after_write self.old offset value }
    {
        match offset {
            STATUS => self.to = false,
            CONTROL => self.set_control(value),
            PERIODL => self.set_period((self.period >> 16) * 0x1_0000 + (value & 0xffff)),
            PERIODH => self.set_period((value & 0xffff) * 0x1_0000 + (self.period & 0xffff)),
            _ => self.snapshot = self.counter,
        }
    }

    /// Gives the timer a number of ticks, one after another. It takes the same time for any number.
    #[tactic(auto, using(crate::proofs::Rounds::ticks_at_once))]
    pub fn ticks(&mut self, n: u32)
        ensures { self.new ≡ ticks n self.old }
    {
        if !self.run {
            return;
        }
        if n <= self.counter {
            self.counter -= n;
            return;
        }
        let after_zero = n - self.counter - 1;
        self.to = true;
        self.run = self.cont;
        self.counter = self.period;
        if self.cont {
            self.counter -= past_rounds(after_zero, self.period);
        }
    }

    /// Whether the interrupt line is on: TO and ITO are both set.
    pub fn line(&self) -> bool
        ensures { result ≡ is_on self.now }
    {
        self.to && self.ito
    }

    /// Takes a word for the control register: ITO, CONT, START and STOP.
    fn set_control(&mut self, value: u32)
        ensures { self.new ≡ with_control self.old value }
    {
        self.ito = value & 1 == 1;
        self.cont = (value >> 1) & 1 == 1;
        if (value >> 3) & 1 == 1 {
            self.run = false;
        } else if (value >> 2) & 1 == 1 {
            self.run = true;
        }
    }

    /// Takes a new period, which stops the timer.
    fn set_period(&mut self, period: u32)
        ensures { self.new ≡ with_period self.old period }
    {
        self.period = period;
        self.counter = period;
        self.run = false;
    }
}

/// What is left of some ticks after whole rounds, each of a period and one tick.
fn past_rounds(ticks: u32, period: u32) -> u32
    ensures { result ≡ ticks % (period + 1) }
{
    (u64::from(ticks) % (u64::from(period) + 1)) as u32
}
