//! The bytes that writes put into the queue of a UART.

ghost use Rattle.std.specs.Prelude.{◌≡◌, ◌∷◌, ◌++◌, [], ℕ, List, OnOk, OnErr};

use n2_word::NoMemory;
use std::alloc::Global;
use std::marker::Model;

/// A list of bytes that grows at its end.
#[derive(Debug, Drop)]
pub struct Bytes {
    inner: Vec<u8>,
}

impl Model for Bytes {
    ghost use Rattle.std.specs.Prelude.{List, ℕ};

    ghost Value = { List ℕ };

    ghost view = { λ b. b.inner.items };
}

impl Bytes {
    /// No bytes.
    pub fn new(alloc: Global) -> Bytes
        ensures { result ≡ [] }
    {
        Bytes {
            inner: Vec::new(alloc),
        }
    }

    /// One more byte. After want of memory the bytes are as they were.
    pub fn push(&mut self, byte: u8) -> Result<(), NoMemory>
        ensures ok { OnOk result (self.new ≡ self.old ++ byte ∷ []) }
        ensures err { OnErr result (self.new ≡ self.old) }
    {
        match self.inner.push(byte) {
            Ok(()) => Ok(()),
            Err(_) => Err(NoMemory),
        }
    }

    /// Takes the last byte back.
    pub fn pop(&mut self)
        ensures { (bytes : List ℕ) (byte : ℕ) → self.old ≡ bytes ++ byte ∷ [] → self.new ≡ bytes }
    {
        let _ = self.inner.pop();
    }

    /// The bytes, in their order.
    pub fn as_slice(&self) -> &[u8]
        ensures { result.now ≡ self.now }
    {
        self.inner.as_slice()
    }
}
