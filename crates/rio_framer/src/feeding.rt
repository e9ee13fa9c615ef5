//! Many characters at once.
ghost use Rattle.std.specs.Prelude.{◌≡◌, ◌≤◌, ◌<◌, ◌++◌, [], ◌∷◌, length, IfOk, OnOk, OnErr};
ghost use Rattle.link_model.specs.Reading.{placed, IsReading};
ghost use Rattle.link_model.specs.Places.{place_start, run, place_after};
ghost use Rattle.rio_framer.specs.Giving.{listed};

use crate::{Events, Framer};
use link_model::Event;
use rio_chars::{Char, NoMemory};
use std::alloc::Global;

impl Framer {
    /// Takes characters, at most 4,194,304, and tells each event with the place of the character
    /// that completed it, counted from 0 in each call: `link_model::reading_in_pieces` says how the
    /// events of calls join. `NoMemory` comes where memory for the events was not given; the framer
    /// is then as before.
    pub fn feed_all(&mut self, alloc: Global, chars: &[Char]) -> Result<Vec<(u32, Event)>, NoMemory>
        requires { length chars.now ≤ 4194304 }
        ensures events { IfOk result (λ found. found.items ≡ run self.old.place 0 chars.now) }
        ensures reads { self.old.place ≡ place_start
            → IfOk result (λ found. IsReading chars.now found.items) }
        ensures place { OnOk result (self.new.place ≡ place_after self.old.place chars.now) }
        ensures unchanged { OnErr result (self.new ≡ self.old) }
    {
        let mut framer = self.copy();
        let mut found = Vec::new(alloc);
        for (place, c) in chars.iter().enumerate() {
            push_events(&mut found, place as u32, framer.feed(*c))?;
        }
        *self = framer;
        Ok(found)
    }
}

/// Appends the events of one character at its place.
fn push_events(found: &mut Vec<(u32, Event)>, place: u32, events: Events) -> Result<(), NoMemory>
    ensures { OnOk result
        (found.new.items ≡ found.old.items ++ placed place (listed events.first events.second)) }
{
    let Events { first, second } = events;
    if let Some(event) = first {
        push_event(found, place, event)?;
    }
    if let Some(symbol) = second {
        push_event(found, place, Event::Ctl(symbol))?;
    }
    Ok(())
}

/// Appends one event at its place.
fn push_event(found: &mut Vec<(u32, Event)>, place: u32, event: Event) -> Result<(), NoMemory>
    ensures { OnOk result (found.new.items ≡ found.old.items ++ (place, event) ∷ []) }
{
    match found.push((place, event)) {
        Ok(()) => Ok(()),
        Err(_) => Err(NoMemory),
    }
}
