//! Guards: what must be owned to touch a line.

/// A mutex, or a region that mailboxes pass on, by its number in the board.
#[derive(Clone, Copy, Debug, PartialEq, Eq)]
pub enum Guard {
    Mutex(u32),
    Passed(u32),
}

/// Who holds a region that is passed on: a core, or a mailbox that a message about it waits in.
#[derive(Clone, Copy, Debug, PartialEq, Eq)]
pub enum Holder {
    ByCore(u32),
    ByMailbox(u32),
}
