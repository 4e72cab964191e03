//! How many transfers of each kind a run made.

ghost use Rattle.std.specs.Prelude.{◌≡◌, ◌-◌, ◌^◌, ◌<◌};

use n2_bus::Request;
use n2_journal::Entry;

/// Numbers of transfers: fills of instruction and data caches, lines written back, reads and writes
/// past the caches, samples of interrupt lines, and events of the devices.
#[derive(Clone, Copy, Debug, PartialEq, Eq)]
pub struct Transfers {
    pub code: u64,
    pub fill: u64,
    pub back: u64,
    pub read: u64,
    pub write: u64,
    pub sample: u64,
    pub device: u64,
}

impl Transfers {
    ghost use Rattle.std.specs.Prelude.{List, [], ◌∷◌, ◌++◌, length};
    ghost use Rattle.n2_journal.specs.declared.entry.Entry.{Entry as EntryValue};
    ghost use Rattle.n2_report.specs.Transfers.{transfers_of};

    fn none() -> Transfers
        ensures { result ≡ transfers_of [] }
    {
        Transfers {
            code: 0,
            fill: 0,
            back: 0,
            read: 0,
            write: 0,
            sample: 0,
            device: 0,
        }
    }

    /// One transfer more.
    fn add(&mut self, entry: &Entry)
        requires { (before : List EntryValue) × (length before < 2 ^ 64 - 1) × (self.old ≡ transfers_of before) }
        ensures { (before : List EntryValue) → self.old ≡ transfers_of before → self.new ≡ transfers_of (before ++ entry.now ∷ []) }
    {
        match entry.request {
            Request::FillCode(_) => self.code += 1,
            Request::FillData(_) => self.fill += 1,
            Request::WriteBack(_, _) => self.back += 1,
            Request::Read(_, _) => self.read += 1,
            Request::Write(_, _, _) => self.write += 1,
            Request::Sample => self.sample += 1,
            Request::Tick(_) | Request::Receive(_) | Request::Drain(_) => self.device += 1,
        }
    }

    /// The transfers of a journal, counted in one pass.
    pub fn of_entries(entries: &[Entry]) -> Transfers
        ensures { result ≡ transfers_of entries.now }
    {
        let mut transfers = Transfers::none();
        for entry in entries {
            transfers.add(entry);
        }
        transfers
    }
}
