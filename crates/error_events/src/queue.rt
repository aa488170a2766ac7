ghost use Rattle.std.specs.Prelude.{◌≡◌, ◌+◌, ◌<◌, ◌≤◌, ◌↔◌, [], ◌∷◌, ◌++◌, IsNone, IsOk, OnErr, OnOk, drop, if◌then◌else◌, is_some, slice_get};
ghost use Rattle.std.specs.Option.{option_map};
ghost use Rattle.error_events.specs.Events.{event_of};

use crate::Event;
use std::alloc::{AllocError, Global};
use std::collections::VecDeque;
use std::marker::Model;

/// Events, the oldest first. Contracts see them as the machine has them, and how many more come in without asking for memory.
#[derive(Debug, Drop)]
pub struct Events {
    queue: VecDeque<Event>,
}

impl Model for Events {
    ghost use Rattle.std.specs.Prelude.{◌-◌, map};
    ghost use Rattle.std.specs.VecDeque.{deque_capacity, deque_len};
    ghost use Rattle.nvm_base.specs.Stock.{Stock};
    ghost use Rattle.nvm_model.specs.Storage.{Event};
    ghost use Rattle.error_events.specs.Events.{event_of};

    ghost Value = { Stock Event };

    ghost view = { λ e. record { items = map event_of e.queue.items; spare = deque_capacity e.queue - deque_len e.queue } };
}

impl Events {
    /// No events, which takes no memory.
    pub fn new(alloc: Global) -> Self
        ensures { result.items ≡ [] }
    {
        Events {
            queue: VecDeque::new(alloc),
        }
    }

    /// Makes room for that many more events.
    pub fn reserve(&mut self, n: u64) -> Result<(), AllocError>
        ensures items { self.new.items ≡ self.old.items }
        ensures ok { OnOk result (n ≤ self.new.spare) }
        ensures err { OnErr result (self.new ≡ self.old) }
        ensures succeeds { n ≤ self.old.spare → IsOk result }
        ensures spare { self.old.spare ≤ self.new.spare }
    {
        let n = n as usize;
        let len = self.queue.len();
        if n <= self.queue.capacity() - len {
            return Ok(());
        }
        // At least twice the room: events that come one by one are seldom moved.
        self.queue.reserve_exact(n.max(len))
    }

    /// Adds an event as the youngest.
    pub fn push(&mut self, event: Event)
        requires { 0 < self.old.spare }
        ensures items { self.new.items ≡ self.old.items ++ event_of event ∷ [] }
        ensures spare { self.new.spare + 1 ≡ self.old.spare }
    {
        self.queue.push_back_reserved(event);
    }

    /// Takes the oldest event.
    pub fn next(&mut self) -> Option<Event>
        ensures oldest { option_map event_of result ≡ slice_get self.old.items 0 }
        ensures none { IsNone result ↔ (self.old.items ≡ []) }
        ensures rest { self.new.items ≡ drop 1 self.old.items }
        ensures spare { self.new.spare ≡ self.old.spare + (if is_some result then 1 else 0) }
    {
        self.queue.pop_front()
    }
}
