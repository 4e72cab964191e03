//! The keys that each part has in a board's text: the table that a text is read by.

ghost use Rattle.std.specs.Prelude.{◌≡◌};
ghost use Rattle.n2_boardtext.specs.Keys as spec;

use n2_parts::{Key, PartKind};

/// What a key holds: a number from 0 to this one, a text, one of the key's words, the name of a
/// part of an array, or a list of such names.
#[derive(Clone, Copy)]
pub enum Sort {
    Number(u64),
    Text,
    Choice,
    Name(Named),
    Names(Named),
}

/// The arrays whose parts are named elsewhere: by regions and by the script.
#[derive(Clone, Copy)]
pub enum Named {
    Mutex,
    Mailbox,
    Uart,
}

/// The words of `class` and of `do`.
#[derive(Clone, Copy)]
pub enum Word {
    Code,
    Private,
    Mutex,
    Passed,
    Uncached,
    Tick,
    Receive,
    Drain,
}

/// A key that a part must have, or one that it may have.
#[derive(Clone, Copy)]
pub enum Entry {
    Must(Key),
    May(Key),
}

/// The key of an entry.
pub fn key_of(entry: Entry) -> Key
    ensures { result ≡ spec.key_of entry }
{
    match entry {
        Entry::Must(key) => key,
        Entry::May(key) => key,
    }
}

/// What a key holds.
pub fn sort_of(key: Key) -> Sort
    ensures { result ≡ spec.sort_of key }
{
    match key {
        Key::Turns => Sort::Number(18_446_744_073_709_551_615),
        Key::Cpuid => Sort::Number(65_535),
        Key::Image => Sort::Text,
        Key::Name => Sort::Text,
        Key::Input => Sort::Text,
        Key::Class => Sort::Choice,
        Key::Do => Sort::Choice,
        Key::Mutex => Sort::Name(Named::Mutex),
        Key::Mailboxes => Sort::Names(Named::Mailbox),
        Key::Uart => Sort::Name(Named::Uart),
        _ => Sort::Number(4_294_967_295),
    }
}

/// The array whose parts are named.
pub fn kind_of(array: Named) -> PartKind
    ensures { result ≡ spec.kind_of array }
{
    match array {
        Named::Mutex => PartKind::Mutex,
        Named::Mailbox => PartKind::Mailbox,
        Named::Uart => PartKind::Uart,
    }
}

/// The number of a key that is not given.
pub fn default_of(key: Key) -> u32
    ensures { result ≡ spec.default_of key }
{
    match key {
        Key::Turns => 1_000_000,
        Key::Journal => 100_000,
        Key::Exception => 32,
        Key::Dcache => 2048,
        Key::Icache => 4096,
        Key::Sample => 64,
        Key::ReadDepth => 64,
        Key::WriteDepth => 64,
        Key::Times => 1,
        _ => 0,
    }
}

/// The words of a key.
fn words_of(key: Key) -> &'static [Word]
    ensures { result.now ≡ spec.words_of key }
{
    match key {
        Key::Class => &[
            Word::Code,
            Word::Private,
            Word::Mutex,
            Word::Passed,
            Word::Uncached,
        ],
        Key::Do => &[Word::Tick, Word::Receive, Word::Drain],
        _ => &[],
    }
}

fn word_name(word: Word) -> &'static str
    ensures { result.now ≡ spec.word_name word }
{
    match word {
        Word::Code => "code",
        Word::Private => "private",
        Word::Mutex => "mutex",
        Word::Passed => "passed",
        Word::Uncached => "uncached",
        Word::Tick => "tick",
        Word::Receive => "receive",
        Word::Drain => "drain",
    }
}

/// The word of a key that a text is, if it is one.
pub fn word_of(key: Key, text: &str) -> Option<Word>
    ensures { result ≡ spec.word_of key text.now }
{
    let words = words_of(key);
    words.iter().copied().find(|word| text == word_name(*word))
}

/// The key that a part has first.
pub fn first_key(kind: PartKind) -> Key
    ensures { result ≡ spec.first_key kind }
{
    match kind {
        PartKind::Top => Key::Turns,
        PartKind::Memory => Key::Base,
        PartKind::Core => Key::Cpuid,
        PartKind::Dump => Key::At,
        PartKind::Script => Key::Do,
        _ => Key::Name,
    }
}

/// The keys of a part of an array that stand before those of its word, in order.
pub fn first_entries(kind: PartKind) -> &'static [Entry]
    ensures { result.now ≡ spec.first_entries kind }
{
    match kind {
        PartKind::Top => &[Entry::May(Key::Turns), Entry::May(Key::Journal)],
        PartKind::Memory => &[Entry::Must(Key::Base), Entry::Must(Key::Size)],
        PartKind::Core => &[
            Entry::Must(Key::Cpuid),
            Entry::Must(Key::Image),
            Entry::May(Key::At),
            Entry::May(Key::Reset),
            Entry::May(Key::Exception),
            Entry::May(Key::Dcache),
            Entry::May(Key::Icache),
            Entry::May(Key::Sample),
            Entry::May(Key::Evict),
        ],
        PartKind::Mutex => &[Entry::Must(Key::Name), Entry::Must(Key::Base)],
        PartKind::Mailbox => &[
            Entry::Must(Key::Name),
            Entry::Must(Key::Send),
            Entry::Must(Key::Receive),
            Entry::Must(Key::Sender),
            Entry::Must(Key::Receiver),
            Entry::May(Key::SendIrq),
            Entry::May(Key::ReceiveIrq),
        ],
        PartKind::Timer => &[
            Entry::Must(Key::Name),
            Entry::Must(Key::Base),
            Entry::May(Key::Core),
            Entry::May(Key::Irq),
            Entry::May(Key::Period),
        ],
        PartKind::Uart => &[
            Entry::Must(Key::Name),
            Entry::Must(Key::Base),
            Entry::May(Key::Core),
            Entry::May(Key::Irq),
            Entry::May(Key::ReadDepth),
            Entry::May(Key::WriteDepth),
            Entry::May(Key::Input),
        ],
        PartKind::Region => &[
            Entry::Must(Key::Name),
            Entry::Must(Key::Base),
            Entry::Must(Key::Size),
            Entry::Must(Key::Class),
        ],
        PartKind::Dump => &[Entry::Must(Key::At), Entry::Must(Key::Lines)],
        PartKind::Script => &[Entry::Must(Key::Do)],
    }
}

/// The keys of a word, in order.
fn word_entries(word: Word) -> &'static [Entry]
    ensures { result.now ≡ spec.word_entries word }
{
    match word {
        Word::Private => &[Entry::Must(Key::Core)],
        Word::Mutex => &[Entry::Must(Key::Mutex)],
        Word::Passed => &[Entry::Must(Key::Holder), Entry::Must(Key::Mailboxes)],
        Word::Tick => &[Entry::Must(Key::N)],
        Word::Receive => &[Entry::Must(Key::Uart)],
        Word::Drain => &[Entry::Must(Key::Uart)],
        _ => &[],
    }
}

/// The keys of a part of an array that stand after those of its word.
pub fn last_entries(kind: PartKind) -> &'static [Entry]
    ensures { result.now ≡ spec.last_entries kind }
{
    match kind {
        PartKind::Script => &[Entry::May(Key::Times)],
        _ => &[],
    }
}

/// The keys that some word of a part has.
pub fn any_entries(kind: PartKind) -> &'static [Entry]
    ensures { result.now ≡ spec.any_entries kind }
{
    match kind {
        PartKind::Region => &[
            Entry::Must(Key::Core),
            Entry::Must(Key::Mutex),
            Entry::Must(Key::Holder),
            Entry::Must(Key::Mailboxes),
        ],
        PartKind::Script => &[Entry::Must(Key::N), Entry::Must(Key::Uart)],
        _ => &[],
    }
}

/// The keys of a word, or these where the word is not known.
pub fn entries_by(word: Option<Word>, others: &'static [Entry]) -> &'static [Entry]
    ensures { result.now ≡ spec.entries_by word others.now }
{
    match word {
        Some(word) => word_entries(word),
        None => others,
    }
}
