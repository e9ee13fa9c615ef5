//! What is put on a wire.
ghost use Rattle.std.specs.Prelude.{◌≡◌, ◌++◌, OnOk};
ghost use Rattle.link_port.specs.Turns.{tell_sends};
ghost use Rattle.link_wires.specs.Wires.{with_sent, port_turned, bursts, answers};

use crate::kept::Kept;
use crate::sends::{put_sending, put_symbol};
use crate::wire::Wire;
use link_port::{Port, Sending};
use rio_chars::{Char, NoMemory};
use rio_symbols::Symbol;

impl Wire {
    /// Has a port take turns, and puts what it sends at the end of its wire. The characters are put
    /// into `sent`, and what was there goes. A turn that sends nothing changes nothing, so it is
    /// the last. `NoMemory` is the only other answer, and after it the wire and the port are of no
    /// use.
    pub fn pump(
        &mut self,
        turns: u32,
        port: &mut Port,
        sent: &mut Vec<Char>,
    ) -> Result<(), NoMemory>
        ensures port { OnOk result (port.new ≡ port_turned turns port.old) }
        ensures wire { OnOk result (self.new ≡ with_sent self.old (bursts turns port.old)) }
        ensures sent { OnOk result (sent.new.items ≡ (bursts turns port.old).chars) }
    {
        sent.clear();
        put_turns(turns, port, &mut self.kept, sent)?;
        self.chars.put(sent.as_slice())?;
        Ok(())
    }

    /// Has a port tell its free buffers, if it does, and puts what it sends at the end of its wire.
    /// The characters are put into `sent`, and what was there goes. `NoMemory` is the only other
    /// answer, and after it the wire is of no use.
    pub fn tell(&mut self, port: &Port, sent: &mut Vec<Char>) -> Result<(), NoMemory>
        ensures wire { OnOk result (self.new ≡ with_sent self.old (tell_sends port.now)) }
        ensures sent { OnOk result (sent.new.items ≡ (tell_sends port.now).chars) }
    {
        sent.clear();
        put_sending(port.told(), port, &mut self.kept, sent)?;
        self.chars.put(sent.as_slice())?;
        Ok(())
    }

    /// Puts symbols that answer at the end. Their characters are put into `sent`, and what was
    /// there goes. `NoMemory` is the only other answer, and after it the wire is of no use.
    pub fn reply(&mut self, replies: &[Symbol], sent: &mut Vec<Char>) -> Result<(), NoMemory>
        ensures wire { OnOk result (self.new ≡ with_sent self.old (answers replies.now)) }
        ensures sent { OnOk result (sent.new.items ≡ (answers replies.now).chars) }
    {
        sent.clear();
        put_answers(replies, &mut self.kept, sent)?;
        self.chars.put(sent.as_slice())?;
        Ok(())
    }
}

/// Has a port take turns, and puts what it sends behind the events that are kept, and its
/// characters behind others.
fn put_turns(
    turns: u32,
    port: &mut Port,
    kept: &mut Kept,
    chars: &mut Vec<Char>,
) -> Result<(), NoMemory>
    ensures port { OnOk result (port.new ≡ port_turned turns port.old) }
    ensures kept { OnOk result (kept.new ≡ kept.old ++ (bursts turns port.old).sent) }
    ensures chars { OnOk result (chars.new.items
        ≡ chars.old.items ++ (bursts turns port.old).chars) }
{
    let mut left = turns;
    while left > 0 {
        left -= 1;
        let sending = port.start_turn();
        if let Sending::Nothing = sending {
            return Ok(());
        }
        put_sending(sending, port, kept, chars)?;
    }
    Ok(())
}

/// Puts symbols that answer behind the events that are kept, and their characters behind others.
fn put_answers(replies: &[Symbol], kept: &mut Kept, chars: &mut Vec<Char>) -> Result<(), NoMemory>
    ensures kept { OnOk result (kept.new ≡ kept.old ++ (answers replies.now).sent) }
    ensures chars { OnOk result (chars.new.items ≡ chars.old.items ++ (answers replies.now).chars) }
{
    for symbol in replies {
        put_symbol(*symbol, kept, chars)?;
    }
    Ok(())
}
