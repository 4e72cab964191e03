//! What happened in some runs.

use n2_board::{Act, Kind, Stop};
use n2_cases::{NoAnswer, put, put_shown};
use n2_smp::Turned;

/// How often each thing happened: runs, turns and acts; cores that broke off, that had all their turns, that
/// stood where the journal was full, that strayed, and that were refused by each rule; interrupts, messages that
/// were taken, lines that evictions wrote back, bytes that UARTs were sent, and lines of memory that were
/// compared and that were not, as a core held them dirty.
#[derive(Clone, Copy, Default)]
pub struct Counts {
    pub runs: u64,
    pub turns: u64,
    pub acts: u64,
    pub broke: u64,
    pub spent: u64,
    pub full: u64,
    pub stray: u64,
    pub separate: u64,
    pub lock: u64,
    pub invalidate: u64,
    pub flush: u64,
    pub interrupts: u64,
    pub messages: u64,
    pub evictions: u64,
    pub bytes: u64,
    pub lines: u64,
    pub dirty: u64,
}

/// One more.
pub fn add(count: &mut u64) {
    add_all(count, 1);
}

/// So many more.
pub fn add_all(count: &mut u64, number: u64) {
    *count = count.wrapping_add(number);
}

impl Counts {
    /// A turn that an actor made. An act of a core that waited is an interrupt.
    pub fn add_turn(&mut self, turned: &Turned, waits: bool) {
        add(&mut self.turns);
        if let Turned::Acted(act) = turned {
            add(&mut self.acts);
            if waits && matches!(act, Act::Retire(_)) {
                add(&mut self.interrupts);
            }
        }
    }

    /// Why a core stopped, if it did.
    pub fn add_stop(&mut self, stop: &Option<Stop>) {
        match stop {
            None => {}
            Some(Stop::Broke) => add(&mut self.broke),
            Some(Stop::Spent) => add(&mut self.spent),
            Some(Stop::LogFull) => add(&mut self.full),
            Some(Stop::Stray(_)) => add(&mut self.stray),
            Some(Stop::Refused(refusal)) => self.add_kind(refusal.kind),
        }
    }

    fn add_kind(&mut self, kind: Kind) {
        match kind {
            Kind::Separate => add(&mut self.separate),
            Kind::Lock => add(&mut self.lock),
            Kind::Invalidate => add(&mut self.invalidate),
            Kind::Flush => add(&mut self.flush),
        }
    }

    /// Appends the counts.
    pub fn put(&self, out: &mut Vec<u8>) -> Result<(), NoAnswer> {
        self.put_work(out)?;
        self.put_stops(out)?;
        self.put_refusals(out)?;
        self.put_ends(out)
    }

    fn put_work(&self, out: &mut Vec<u8>) -> Result<(), NoAnswer> {
        put_shown(out, "runs ", &self.runs)?;
        put_shown(out, " turns ", &self.turns)?;
        put_shown(out, " acts ", &self.acts)?;
        put_shown(out, " interrupts ", &self.interrupts)?;
        put_shown(out, " messages ", &self.messages)?;
        put_shown(out, " evictions ", &self.evictions)
    }

    fn put_stops(&self, out: &mut Vec<u8>) -> Result<(), NoAnswer> {
        put_shown(out, " broke ", &self.broke)?;
        put_shown(out, " spent ", &self.spent)?;
        put_shown(out, " logfull ", &self.full)
    }

    fn put_refusals(&self, out: &mut Vec<u8>) -> Result<(), NoAnswer> {
        put_shown(out, " stray ", &self.stray)?;
        put_shown(out, " separate ", &self.separate)?;
        put_shown(out, " lock ", &self.lock)?;
        put_shown(out, " invalidate ", &self.invalidate)?;
        put_shown(out, " flush ", &self.flush)
    }

    fn put_ends(&self, out: &mut Vec<u8>) -> Result<(), NoAnswer> {
        put_shown(out, " bytes ", &self.bytes)?;
        put_shown(out, " lines ", &self.lines)?;
        put_shown(out, " dirty ", &self.dirty)?;
        put(out, " none differ")
    }
}
