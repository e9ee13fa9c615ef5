//! Which need of a step is not met, in words.
ghost use Rattle.std.specs.Prelude.{◌≡◌, ◌++◌, OnOk};
ghost use Rattle.rio_chars.specs.HexText.{hex_of};
ghost use Rattle.check_words.specs.Needs.{first_text, unmet_text, way_text};
ghost use Rattle.trace_check.specs.declared.unmet.Unmet.TheVariants as U;

use maint_packets::Next;
use rio_chars::{Char, char_text};
use rio_packets::Packet;
use std::alloc::{AllocError, Global};
use trace_check::Unmet;

/// Adds the need of a step that is not met.
pub(crate) fn push_unmet(
    alloc: Global,
    message: &mut Vec<u8>,
    unmet: &Unmet,
) -> Result<(), AllocError>
    ensures { OnOk result (message.new.items ≡ message.old.items ++ unmet_text unmet.now) }
{
    match unmet {
        Unmet::Buffers {
            free,
            all,
            prio,
            needed,
        } => {
            let text = format!(in alloc;
                "; {free} of {all} buffers of the port are free, and a packet of priority {prio} needs {needed}"
            )?;
            message.extend_from_slice(text.as_bytes())
        }
        Unmet::Waiting { prio, first } => push_waiting_there(alloc, message, *prio, first),
        Unmet::Lent(first) => push_first(
            message,
            b"; the first packet that the peer held and the port did not free is ",
            b"; the peer never held a packet that the port did not free",
            first,
        ),
        Unmet::Held { prio, first } => push_held(alloc, message, *prio, first),
        Unmet::Place(prio) => {
            let text = format!(in alloc;
                "; 16 packets of priority {prio} are to be sent there already"
            )?;
            message.extend_from_slice(text.as_bytes())
        }
        Unmet::Endpoint => message.extend_from_slice(b"; the node is no endpoint"),
        Unmet::NoRequest => message.extend_from_slice(
            b"; the registers of the endpoint answer this packet, a request",
        ),
        Unmet::Request => message.extend_from_slice(b"; the packet is no request"),
        Unmet::Way(way) => push_way(alloc, message, way),
        Unmet::Response => {
            message.extend_from_slice(b"; the registers answer with another packet")
        }
    }
}

/// Adds the first packet of a priority that waits at the peer.
fn push_waiting_there(
    alloc: Global,
    message: &mut Vec<u8>,
    prio: u8,
    first: &Option<Packet>,
) -> Result<(), AllocError>
    ensures { OnOk result (message.new.items
        ≡ message.old.items ++ unmet_text (U.Waiting prio first.now)) }
{
    let some = format!(in alloc;
        "; the first packet of priority {prio} that waits at the peer is "
    )?;
    let none = format!(in alloc; "; no packet of priority {prio} waits at the peer")?;
    push_first(message, some.as_bytes(), none.as_bytes(), first)
}

/// Adds the first packet of a priority that is held.
fn push_held(
    alloc: Global,
    message: &mut Vec<u8>,
    prio: u8,
    first: &Option<Packet>,
) -> Result<(), AllocError>
    ensures { OnOk result (message.new.items
        ≡ message.old.items ++ unmet_text (U.Held prio first.now)) }
{
    let some = format!(in alloc; "; the first packet of priority {prio} that is held there is ")?;
    let none = format!(in alloc; "; no packet of priority {prio} is held there")?;
    push_first(message, some.as_bytes(), none.as_bytes(), first)
}

/// Adds the first packet behind one text, or the other if there is none.
fn push_first(
    message: &mut Vec<u8>,
    some: &[u8],
    none: &[u8],
    first: &Option<Packet>,
) -> Result<(), AllocError>
    ensures { OnOk result (message.new.items
        ≡ message.old.items ++ first_text some.now none.now first.now) }
{
    match first {
        Some(packet) => {
            message.extend_from_slice(some)?;
            push_hex(message, packet.bytes())
        }
        None => message.extend_from_slice(none),
    }
}

/// Adds which way a packet goes.
fn push_way(alloc: Global, message: &mut Vec<u8>, way: &Option<Next>) -> Result<(), AllocError>
    ensures { OnOk result (message.new.items ≡ message.old.items ++ way_text way.now) }
{
    match way {
        None => message.extend_from_slice(b"; the node is no switch"),
        Some(Next::Nowhere) => message.extend_from_slice(b"; the switch drops this packet"),
        Some(Next::RegisterUnit) => {
            message.extend_from_slice(b"; the registers of the switch answer this packet")
        }
        Some(Next::Port(port)) => {
            let text = format!(in alloc; "; the switch sends this packet to its port {port}")?;
            message.extend_from_slice(text.as_bytes())
        }
    }
}

/// Adds bytes in hexadecimal digits.
pub(crate) fn push_hex(message: &mut Vec<u8>, bytes: &[u8]) -> Result<(), AllocError>
    ensures { OnOk result (message.new.items ≡ message.old.items ++ hex_of bytes.now) }
{
    for byte in bytes {
        let [_, high, low] = char_text(Char::Data(*byte));
        message.extend_from_slice(&[high, low])?;
    }
    Ok(())
}
