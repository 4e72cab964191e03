//! The past events of a core as a list that grows.

ghost use Rattle.std.specs.Prelude.{◌≡◌, ◌∷◌, ◌<◌, [], List, reverse, OnOk, OnErr};
ghost use Rattle.n2_watch.specs.declared.past.Past.{Past as PastEvent};
ghost use Rattle.n2_flat.specs.State.{event_noted, with_event};

use n2_board::Guard;
use n2_watch::Past;
use n2_word::NoMemory;
use std::alloc::Global;
use std::marker::Model;

/// The event of a guard that a core owned before or not, and owns now or not.
fn event_noted(guard: Option<Guard>, before: bool, after: bool) -> Option<Past>
    ensures { result ≡ event_noted guard before after }
{
    match guard {
        None => None,
        Some(guard) => {
            if before {
                if after { None } else { Some(Past::Gave(guard)) }
            } else if after {
                Some(Past::Got(guard))
            } else {
                None
            }
        }
    }
}

/// Past events. Contracts see the newest first.
#[derive(Debug, Drop)]
pub struct Events {
    inner: Vec<Past>,
}

impl Model for Events {
    ghost use Rattle.std.specs.Prelude.{List, reverse};
    ghost use Rattle.n2_watch.specs.declared.past.Past.{Past as PastEvent};

    ghost Value = { List PastEvent };

    ghost view = { λ e. reverse e.inner.items };
}

impl Events {
    /// No events.
    pub fn new(alloc: Global) -> Events
        ensures { result ≡ [] }
    {
        Events {
            inner: Vec::new(alloc),
        }
    }

    /// One more event. After want of memory the events are as they were.
    #[inline(always)]
    pub fn push(&mut self, event: Past) -> Result<(), NoMemory>
        ensures ok { OnOk result (self.new ≡ event ∷ self.old) }
        ensures err { OnErr result (self.new ≡ self.old) }
    {
        if self.inner.reserve(1).is_err() {
            return Err(NoMemory);
        }
        self.inner.push_reserved(event);
        Ok(())
    }

    /// Takes the newest event back.
    #[inline(always)]
    pub fn pop(&mut self)
        ensures { (event : PastEvent) (past : List PastEvent) → self.old ≡ event ∷ past → self.new ≡ past }
    {
        let _ = self.inner.pop();
    }

    /// Puts another event in place of the newest.
    #[inline(always)]
    pub fn put_last(&mut self, event: Past)
        ensures { (newest : PastEvent) (past : List PastEvent) → self.old ≡ newest ∷ past → self.new ≡ event ∷ past }
    {
        let count = self.inner.len();
        if count > 0 {
            self.inner[count - 1] = event;
        }
    }

    /// Puts the event of a guard in place of the newest: Got where ownership began, Gave where it ended,
    /// and none where it stayed.
    pub fn settle(&mut self, guard: Option<Guard>, before: bool, after: bool)
        ensures { (newest : PastEvent) (past : List PastEvent) → self.old ≡ newest ∷ past → self.new ≡ with_event (event_noted guard before after) past }
    {
        match event_noted(guard, before, after) {
            Some(event) => self.put_last(event),
            None => self.pop(),
        }
    }

    /// The events, the oldest first.
    pub fn as_slice(&self) -> &[Past]
        ensures { reverse result.now ≡ self.now }
    {
        self.inner.as_slice()
    }
}
