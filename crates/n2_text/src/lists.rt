//! Small types over `Vec` and `String`, which contracts see as lists, so that a copy is equal.

ghost use Rattle.std.specs.Prelude.{◌≡◌, ◌<◌, [], ◌∷◌, ◌++◌, length, IfOk, OnOk, OnErr, string_bytes};

use n2_word::NoMemory;
use std::alloc::Global;
use std::marker::Model;

/// A text, by its bytes in UTF-8.
#[derive(Debug, Drop)]
pub struct Text {
    inner: String,
}

impl Model for Text {
    ghost use Rattle.std.specs.Prelude.{List, ℕ, string_bytes};

    ghost Value = { List ℕ };

    ghost view = { λ t. string_bytes t.inner };
}

impl Text {
    /// The text of a string.
    pub fn new(inner: String) -> Text
        ensures { result ≡ string_bytes inner }
    {
        Text { inner }
    }

    /// A copy of a text.
    pub fn from_str(alloc: Global, text: &str) -> Result<Text, NoMemory>
        ensures { IfOk result (λ t. t ≡ text.now) }
    {
        match String::from_str(alloc, text) {
            Ok(inner) => Ok(Text { inner }),
            Err(_) => Err(NoMemory),
        }
    }

    /// The text.
    pub fn as_str(&self) -> &str
        ensures { result.now ≡ self.now }
    {
        self.inner.as_str()
    }

    /// The bytes of the text.
    pub fn as_bytes(&self) -> &[u8]
        ensures { result.now ≡ self.now }
    {
        self.inner.as_bytes()
    }

    /// The string of the text, which is not copied.
    pub fn into_string(self) -> String
        ensures { string_bytes result ≡ self }
    {
        let Text { inner } = self;
        inner
    }

    /// An equal text.
    pub fn copy(&self, alloc: Global) -> Result<Text, NoMemory>
        ensures { IfOk result (λ t. t ≡ self.now) }
    {
        Text::from_str(alloc, self.inner.as_str())
    }
}

/// A list.
#[derive(Debug, Drop)]
pub struct Items<T> {
    inner: Vec<T>,
}

impl<T> Model for Items<T> {
    ghost use Rattle.std.specs.Prelude.{List};

    ghost Value = { List T };

    ghost view = { λ v. v.inner.items };
}

impl<T> Items<T> {
    /// No items.
    pub fn new(alloc: Global) -> Items<T>
        ensures { result ≡ [] }
    {
        Items {
            inner: Vec::new(alloc),
        }
    }

    /// The items of a `Vec`, which are not copied.
    pub fn from_vec(inner: Vec<T>) -> Items<T>
        ensures { result ≡ inner.items }
    {
        Items { inner }
    }

    /// The items as a `Vec`, which are not copied.
    pub fn into_vec(self) -> Vec<T>
        ensures { result.items ≡ self }
    {
        let Items { inner } = self;
        inner
    }

    /// The items.
    pub fn as_slice(&self) -> &[T]
        ensures { result.now ≡ self.now }
    {
        self.inner.as_slice()
    }

    /// How many items there are.
    pub fn len(&self) -> usize
        ensures { result ≡ length self.now }
    {
        self.inner.len()
    }

    /// One more item at the end. After want of memory the list is as it was.
    pub fn push(&mut self, item: T) -> Result<(), NoMemory>
    where
        T: Drop,
        ensures ok { OnOk result (self.new ≡ self.old ++ item ∷ []) }
        ensures err { OnErr result (self.new ≡ self.old) }
    {
        match self.inner.push(item) {
            Ok(()) => Ok(()),
            Err(_) => Err(NoMemory),
        }
    }
}

impl<T: Copy> Items<T> {
    /// A copy of some items.
    pub fn from_slice(alloc: Global, items: &[T]) -> Result<Items<T>, NoMemory>
        ensures { IfOk result (λ v. v ≡ items.now) }
    {
        match Vec::from_slice(alloc, items) {
            Ok(inner) => Ok(Items { inner }),
            Err(_) => Err(NoMemory),
        }
    }

    /// An equal list.
    pub fn copy(&self, alloc: Global) -> Result<Items<T>, NoMemory>
        ensures { IfOk result (λ v. v ≡ self.now) }
    {
        Items::from_slice(alloc, self.inner.as_slice())
    }
}

/// A list with memory taken for so many items, which is its room: a push within it takes none.
#[derive(Debug, Drop)]
pub struct Bounded<T> {
    inner: Vec<T>,
    room: usize,
}

impl<T> Model for Bounded<T> {
    ghost use Rattle.std.specs.Prelude.{◌≤◌, vec_capacity};
    ghost use Rattle.n2_text.specs.Rooms.{WithRoom};

    ghost Value = { WithRoom T };

    ghost view = { λ b. record { items = b.inner.items; room = b.room } };

    ghost invariant = { λ b. b.room ≤ vec_capacity b.inner };
}

impl<T> Bounded<T> {
    /// No items yet, with room for so many.
    pub fn with_room(alloc: Global, room: usize) -> Result<Bounded<T>, NoMemory>
        ensures { IfOk result (λ b. b ≡ record { items = []; room = room }) }
    {
        match Vec::with_capacity(alloc, room) {
            Ok(inner) => Ok(Bounded { inner, room }),
            Err(_) => Err(NoMemory),
        }
    }

    /// One more item at the end, where there is room.
    pub fn push(&mut self, item: T)
    where
        T: Drop,
        requires { length self.old.items < self.old.room }
        ensures { self.new ≡ record { items = self.old.items ++ item ∷ []; room = self.old.room } }
    {
        match self.inner.push(item) {
            Ok(()) => (),
            Err(_) => unreachable!(),
        }
    }

    /// The items.
    pub fn as_slice(&self) -> &[T]
        ensures { result.now ≡ self.now.items }
    {
        self.inner.as_slice()
    }

    /// How many items there are.
    pub fn len(&self) -> usize
        ensures { result ≡ length self.now.items }
    {
        self.inner.len()
    }

    /// How many items there can be.
    pub fn room(&self) -> usize
        ensures { result ≡ self.now.room }
    {
        self.room
    }

    /// The items as a list, which are not copied.
    pub fn into_items(self) -> Items<T>
        ensures { result ≡ self.items }
    {
        let Bounded { inner, room: _ } = self;
        Items { inner }
    }
}
