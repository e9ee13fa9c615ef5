//! What a port does with characters of a wire.
ghost use Rattle.std.specs.Prelude.{◌≡◌, ◌≤◌, ℕ, suc, List, [], ◌∷◌, Some, None, length, take, drop, IfOk, OnOk, IsTrue, IsFalse};
ghost use Rattle.link_port.specs.Prelude.{Event, Ctl, Pkt, Bad, completed_events};
ghost use Rattle.link_model.specs.Reading.{placed};
ghost use Rattle.link_wires.specs.Deliveries.{delivered, told_of, undetected, come, comes, flows, flow_of, kept_after, Shows, IsLeft};

use crate::came::Delivery;
use crate::kept::Kept;
use crate::undetected_event::UndetectedEvent;
use crate::wire::Wire;
use link_port::{Completed, Port};
use rio_chars::{Char, NoMemory};
use rio_packets::{Cause, Packet};
use rio_symbols::Symbol;
use std::alloc::Global;
use std::mem;

impl Wire {
    /// Has the port at the end of the wire take characters from the front. Each event that is acted
    /// on must equal one that was sent and that no acted event has met: the first that equals it is
    /// taken away, and all before it. If none does, the delivery ends with the character that
    /// completed the event, which is returned; nothing that it did is told. What came of the
    /// characters is put into `came`, and what was there goes. `NoMemory` is the only other answer;
    /// after it, and after an event that was not sent, the wire and the port are of no use.
    pub fn deliver(
        &mut self,
        alloc: Global,
        count: usize,
        port: &mut Port,
        came: &mut Delivery,
    ) -> Result<Option<UndetectedEvent>, NoMemory>
        requires { count ≤ length self.old.chars }
        ensures got { OnOk result (came.new.got.items
            ≡ take (told_of (delivered port.old self.old.kept (take count self.old.chars))).count
            (take count self.old.chars)) }
        ensures moves { OnOk result (came.new.moves.items
            ≡ (told_of (delivered port.old self.old.kept (take count self.old.chars))).moves) }
        ensures replies { OnOk result (came.new.replies.items
            ≡ (told_of (delivered port.old self.old.kept (take count self.old.chars))).replies) }
        ensures undetected { IfOk result (λ event. event
            ≡ undetected (delivered port.old self.old.kept (take count self.old.chars))) }
        ensures left { OnOk result (IsLeft (delivered port.old self.old.kept
            (take count self.old.chars)) count self.old port.new self.new) }
    {
        came.moves.clear();
        came.replies.clear();
        let mut got = mem::replace(&mut came.got, Vec::new(alloc));
        self.chars.take_front(count, &mut got)?;
        let (read, undetected) = lead(alloc, port, &mut self.kept, got.as_slice(), came)?;
        got.truncate(read);
        came.got = got;
        Ok(undetected)
    }
}

/// Leads characters through a port, up to an event that was not sent. Returns how many it took, and
/// that event.
fn lead(
    alloc: Global,
    port: &mut Port,
    kept: &mut Kept,
    chars: &[Char],
    came: &mut Delivery,
) -> Result<(usize, Option<UndetectedEvent>), NoMemory>
    ensures shows { IfOk result (λ end. Shows (flows chars.now
        (flow_of port.old kept.old came.old.moves.items came.old.replies.items [] 0)) end.1
        end.0 port.new kept.new came.new.moves.items came.new.replies.items) }
    ensures within { IfOk result (λ end. end.0 ≤ length chars.now) }
{
    let mut taken = 0;
    while taken < chars.len() {
        let (count, completed) = port.read(rest(chars, taken), &mut came.packet);
        taken += count;
        if let Some(undetected) = act_all(alloc, port, kept, completed, came)? {
            return Ok((taken, Some(undetected)));
        }
    }
    Ok((taken, None))
}

/// The characters from a place on.
fn rest(chars: &[Char], taken: usize) -> &[Char]
    requires { taken ≤ length chars.now }
    ensures { result.now ≡ drop taken chars.now }
{
    &chars[taken..]
}

/// Leads the events of a run of characters through a port, up to one that was not sent, which it
/// returns.
fn act_all(
    alloc: Global,
    port: &mut Port,
    kept: &mut Kept,
    completed: Completed,
    came: &mut Delivery,
) -> Result<Option<UndetectedEvent>, NoMemory>
    ensures shows { IfOk result (λ found. (acted : List Event) (at : ℕ)
        → Shows (come (placed at (completed_events completed came.old.packet))
        (flow_of port.old kept.old came.old.moves.items came.old.replies.items acted
        (suc at))) found (suc at) port.new kept.new came.new.moves.items
        came.new.replies.items) }
    ensures place { OnOk result (port.new.place ≡ port.old.place) }
{
    match completed {
        Completed::Nothing => Ok(None),
        Completed::Symbol(symbol) => lone_symbol(alloc, port, kept, symbol, came),
        Completed::Bad(cause) => lone_bad(port, kept, cause, came),
        Completed::Packet(ack, symbol) => {
            packet_and_symbol(alloc, port, kept, ack, symbol, came)
        }
        Completed::NoPacket(cause, symbol) => {
            bad_and_symbol(alloc, port, kept, cause, symbol, came)
        }
    }
}

/// Leads a symbol through a port that is all that a run says.
fn lone_symbol(
    alloc: Global,
    port: &mut Port,
    kept: &mut Kept,
    symbol: Symbol,
    came: &mut Delivery,
) -> Result<Option<UndetectedEvent>, NoMemory>
    ensures shows { IfOk result (λ found. (acted : List Event) (at : ℕ)
        → Shows (come (placed at (Ctl symbol ∷ [])) (flow_of port.old kept.old came.old.moves.items
        came.old.replies.items acted (suc at))) found (suc at) port.new kept.new
        came.new.moves.items came.new.replies.items) }
    ensures place { OnOk result (port.new.place ≡ port.old.place) }
{
    let found = act_symbol(alloc, port, kept, symbol, came)?;
    Ok(found)
}

/// Leads what is neither a packet nor a symbol through a port, and is all that a run says.
fn lone_bad(
    port: &mut Port,
    kept: &Kept,
    cause: Cause,
    came: &mut Delivery,
) -> Result<Option<UndetectedEvent>, NoMemory>
    ensures shows { IfOk result (λ found. (acted : List Event) (at : ℕ)
        → Shows (come (placed at (Bad cause ∷ [])) (flow_of port.old kept.now came.old.moves.items
        came.old.replies.items acted (suc at))) found (suc at) port.new kept.now
        came.new.moves.items came.new.replies.items) }
    ensures place { OnOk result (port.new.place ≡ port.old.place) }
{
    act_bad(port, cause, came)?;
    Ok(None)
}

/// Leads a packet through a port, and then the symbol that ended it.
fn packet_and_symbol(
    alloc: Global,
    port: &mut Port,
    kept: &mut Kept,
    ack: u8,
    symbol: Symbol,
    came: &mut Delivery,
) -> Result<Option<UndetectedEvent>, NoMemory>
    ensures shows { IfOk result (λ found. (acted : List Event) (at : ℕ)
        → Shows (come (placed at (Pkt ack came.old.packet ∷ Ctl symbol ∷ []))
        (flow_of port.old kept.old came.old.moves.items came.old.replies.items acted
        (suc at))) found (suc at) port.new kept.new came.new.moves.items
        came.new.replies.items) }
    ensures place { OnOk result (port.new.place ≡ port.old.place) }
{
    if let Some(undetected) = act_packet(alloc, port, kept, ack, came)? {
        return Ok(Some(undetected));
    }
    let found = act_symbol(alloc, port, kept, symbol, came)?;
    Ok(found)
}

/// Leads what is no packet through a port, and then the symbol that ended it.
fn bad_and_symbol(
    alloc: Global,
    port: &mut Port,
    kept: &mut Kept,
    cause: Cause,
    symbol: Symbol,
    came: &mut Delivery,
) -> Result<Option<UndetectedEvent>, NoMemory>
    ensures shows { IfOk result (λ found. (acted : List Event) (at : ℕ)
        → Shows (come (placed at (Bad cause ∷ Ctl symbol ∷ []))
        (flow_of port.old kept.old came.old.moves.items came.old.replies.items acted
        (suc at))) found (suc at) port.new kept.new came.new.moves.items
        came.new.replies.items) }
    ensures place { OnOk result (port.new.place ≡ port.old.place) }
{
    act_bad(port, cause, came)?;
    let found = act_symbol(alloc, port, kept, symbol, came)?;
    Ok(found)
}

/// Leads a symbol through a port, unless it was not sent: then it is returned.
fn act_symbol(
    alloc: Global,
    port: &mut Port,
    kept: &mut Kept,
    symbol: Symbol,
    came: &mut Delivery,
) -> Result<Option<UndetectedEvent>, NoMemory>
    ensures shows { IfOk result (λ found. (acted : List Event) (at : ℕ)
        → Shows (comes (flow_of port.old kept.old came.old.moves.items came.old.replies.items
        acted (suc at)) (at, Ctl symbol)) found (suc at) port.new kept.new came.new.moves.items
        came.new.replies.items) }
    ensures place { OnOk result (port.new.place ≡ port.old.place) }
{
    if !kept.find_symbol(symbol) {
        let undetected = UndetectedEvent::symbol(alloc, symbol)?;
        return Ok(Some(undetected));
    }
    let mut freed = came.list(alloc)?;
    let reply = port.act_symbol(symbol, freed.as_mut());
    came.free(freed)?;
    came.reply(reply)?;
    Ok(None)
}

/// Leads a packet through a port, unless it is acted on and was not sent: then it is returned.
fn act_packet(
    alloc: Global,
    port: &mut Port,
    kept: &mut Kept,
    ack: u8,
    came: &mut Delivery,
) -> Result<Option<UndetectedEvent>, NoMemory>
    ensures shows { IfOk result (λ found. (acted : List Event) (at : ℕ)
        → Shows (comes (flow_of port.old kept.old came.old.moves.items came.old.replies.items
        acted (suc at)) (at, Pkt ack came.old.packet)) found (suc at) port.new kept.new
        came.new.moves.items came.new.replies.items) }
    ensures place { OnOk result (port.new.place ≡ port.old.place) }
{
    if !meet(port, kept, ack, &came.packet) {
        let undetected = UndetectedEvent::packet(alloc, ack, &came.packet)?;
        return Ok(Some(undetected));
    }
    let done = port.act_packet(ack, &came.packet);
    came.hold(done.held)?;
    came.reply(done.reply)?;
    Ok(None)
}

/// Leads what is neither a packet nor a symbol through a port, which never acts on it.
fn act_bad(port: &mut Port, cause: Cause, came: &mut Delivery) -> Result<(), NoMemory>
    ensures shows { OnOk result ((kept acted : List Event) (at : ℕ)
        → Shows (comes (flow_of port.old kept came.old.moves.items came.old.replies.items acted
        (suc at)) (at, Bad cause)) None (suc at) port.new kept came.new.moves.items
        came.new.replies.items) }
    ensures place { OnOk result (port.new.place ≡ port.old.place) }
{
    let reply = port.act_bad(cause);
    came.reply(reply)?;
    Ok(())
}

/// Looks for a packet that is acted on among what was sent, and takes it away and all before it.
/// Returns whether it is there, or is not acted on.
fn meet(port: &Port, kept: &mut Kept, ack: u8, packet: &Packet) -> bool
    ensures met { IsTrue result
        → kept_after port.now (Pkt ack packet.now) kept.old ≡ Some kept.new }
    ensures missed { IsFalse result → kept_after port.now (Pkt ack packet.now) kept.old ≡ None }
{
    if !port.expects(ack) {
        return true;
    }
    kept.find_packet(ack, packet)
}
