//! Why a command gives no answer: what is refused, and what the outside did.

ghost use Rattle.std.specs.Prelude.{◌≡◌};
ghost use Rattle.n2_inputs.specs.Refusals as spec;

use n2_asm::AsmKind;
use n2_board::OpenFault;
use n2_boardtext::TextFault;
use n2_elf::ElfFault;
use n2_journal::JournalFault;
use n2_order::ListFault;
use n2_word::NoMemory;

/// What a file is read for. An image has the number of its core.
#[derive(Clone, Copy, Debug, PartialEq, Eq)]
pub enum Role {
    Board,
    Image(u32),
    Journal,
    Source,
    Order,
}

impl Role {
    /// The greatest number of bytes of such a file.
    pub fn limit(self) -> usize
        ensures { result ≡ spec.limit_of self }
    {
        match self {
            Role::Board => 256 << 10,
            Role::Image(_) => 16 << 20,
            Role::Journal => 256 << 20,
            Role::Source => 1 << 20,
            Role::Order => 4 << 20,
        }
    }

    /// The status where such a file is refused.
    pub fn status(self) -> u8
        ensures { result ≡ spec.role_status self }
    {
        match self {
            Role::Board => 4,
            Role::Image(_) => 5,
            Role::Journal => 9,
            Role::Source => 10,
            Role::Order => 11,
        }
    }
}

/// The first thing for which what is asked is refused.
#[derive(Clone, Copy, Debug, PartialEq, Eq)]
pub enum Refusal {
    /// The words are none of the tool's table.
    Usage,
    /// The words are none of those that run a board by threads.
    RunUsage,
    /// No file has the name.
    Absent(Role),
    /// The file is longer than its limit.
    TooLong(Role),
    /// The text of the board has a fault.
    BoardText(TextFault),
    /// The image of a core is no sound ELF file, though it begins as one.
    Image(u32, ElfFault),
    /// The images do not fit the board.
    Misfit(OpenFault),
    /// This row of the order's file, counted from 1, is no actor's.
    OrderRow(u64),
    /// The text of the journal is none.
    JournalText(JournalFault),
    /// The journal is not that of a finished run: its first row, counted from 1, that differs.
    JournalWrong(u64),
    /// This row of the source, counted from 1, is faulty; row 0 where the source has no executable
    /// segment.
    SourceRow(u64, AsmKind),
}

impl Refusal {
    /// The status that a program ends with.
    pub fn status(&self) -> u8
        ensures { result ≡ spec.status_of self.now }
    {
        match self {
            Refusal::Usage | Refusal::RunUsage => 3,
            Refusal::Absent(role) | Refusal::TooLong(role) => role.status(),
            Refusal::BoardText(_) => 4,
            Refusal::Image(_, _) | Refusal::Misfit(_) => 5,
            Refusal::JournalText(_) | Refusal::JournalWrong(_) => 9,
            Refusal::SourceRow(_, _) => 10,
            Refusal::OrderRow(_) => 11,
        }
    }
}

/// Why there is neither an answer nor a refusal.
#[derive(Clone, Copy, Debug, PartialEq, Eq)]
pub enum NoAnswer {
    /// A file could not be fetched.
    ReadFault,
    /// No memory was left.
    NoMemory,
}

/// Why a command has no answer of its own.
#[derive(Clone, Copy, Debug, PartialEq, Eq)]
pub enum Failure {
    Refused(Refusal),
    NoAnswer(NoAnswer),
}

impl From<NoMemory> for NoAnswer {
    ghost use Rattle.n2_inputs.specs.declared.refusal.NoAnswer.TheVariants.{NoMemory as WantOfMemory};

    ghost from_gives = { λ _ e. e ≡ WantOfMemory };

    fn from(_: NoMemory) -> NoAnswer {
        NoAnswer::NoMemory
    }
}

impl From<NoMemory> for Failure {
    ghost use Rattle.n2_inputs.specs.declared.refusal.NoAnswer.TheVariants.{NoMemory as WantOfMemory};
    ghost use Rattle.n2_inputs.specs.declared.refusal.Failure.TheVariants.{NoAnswer as Unanswered};

    ghost from_gives = { λ _ e. e ≡ Unanswered WantOfMemory };

    fn from(_: NoMemory) -> Failure {
        Failure::NoAnswer(NoAnswer::NoMemory)
    }
}

impl From<OpenFault> for Failure {
    ghost use Rattle.n2_inputs.specs.Calls.{misfit_of};

    ghost from_gives = { λ fault e. e ≡ misfit_of fault };

    fn from(fault: OpenFault) -> Failure {
        match fault {
            OpenFault::NoMemory => Failure::NoAnswer(NoAnswer::NoMemory),
            _ => Failure::Refused(Refusal::Misfit(fault)),
        }
    }
}

impl From<TextFault> for Failure {
    ghost use Rattle.n2_inputs.specs.Calls.{text_failure};

    ghost from_gives = { λ fault e. e ≡ text_failure fault };

    fn from(fault: TextFault) -> Failure {
        match fault {
            TextFault::NoMemory => Failure::NoAnswer(NoAnswer::NoMemory),
            _ => Failure::Refused(Refusal::BoardText(fault)),
        }
    }
}

impl From<ListFault> for Failure {
    ghost use Rattle.n2_inputs.specs.Calls.{list_failure};

    ghost from_gives = { λ fault e. e ≡ list_failure fault };

    fn from(fault: ListFault) -> Failure {
        match fault {
            ListFault::Row(row) => Failure::Refused(Refusal::OrderRow(row)),
            ListFault::NoMemory => Failure::NoAnswer(NoAnswer::NoMemory),
        }
    }
}

impl From<JournalFault> for Failure {
    ghost use Rattle.n2_inputs.specs.Calls.{journal_failure};

    ghost from_gives = { λ fault e. e ≡ journal_failure fault };

    fn from(fault: JournalFault) -> Failure {
        match fault {
            JournalFault::NoMemory => Failure::NoAnswer(NoAnswer::NoMemory),
            _ => Failure::Refused(Refusal::JournalText(fault)),
        }
    }
}
