//! What an access of a device answers.

/// What a read or a write of a word of a device answers: the value that was read; whether a read took
/// a mailbox's message, or a write took effect; and the Pointer of a message that was taken. What is
/// not named is 0 or false.
#[derive(Clone, Copy, Debug, PartialEq, Eq)]
pub struct Answer {
    pub value: u32,
    pub took: bool,
    pub pointer: u32,
}
