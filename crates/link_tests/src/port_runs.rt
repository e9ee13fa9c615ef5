//! Runs of characters against the same characters one by one: both do the same, and the ports
//! answer alike afterwards. Nothing is compared with a table here; the other tests do that.
ghost use Rattle.std.specs.Prelude.{◌<◌};

use arrayvec::ArrayVec;
use link_model::{
    UNTOLD, end_of_packet, link_request, packet_accepted, packet_retry, start_of_packet,
};
use link_port::{OutKind, Port, PortFace, Taken};
use rio_chars::{Char, NoMemory};
use rio_framer::{packet_chars, symbol_chars};
use rio_packets::Packet;
use std::alloc::Global;
use std::test::*;

/// What comes to a port that has sent two packets: the first is acknowledged, a packet comes, and
/// one with another ackID; the far port asks; a packet comes for which there is no room, and the
/// second is to be sent again; characters come that are out of place, and the far port asks once
/// more.
fn scenario(alloc: Global) -> Result<Vec<Char>, NoMemory> {
    let mut chars = Vec::new(alloc);
    append(
        &mut chars,
        symbol_chars(&packet_accepted(0, UNTOLD)).as_slice(),
    )?;
    append(&mut chars, packet(0).as_slice())?;
    append(&mut chars, packet(5).as_slice())?;
    append(
        &mut chars,
        symbol_chars(&link_request(1, UNTOLD)).as_slice(),
    )?;
    append(&mut chars, packet(1).as_slice())?;
    append(
        &mut chars,
        symbol_chars(&packet_retry(1, UNTOLD)).as_slice(),
    )?;
    append(
        &mut chars,
        &[
            Char::Invalid,
            Char::Data(7),
            Char::Special(0xbc),
            Char::Data(9),
        ],
    )?;
    append(
        &mut chars,
        symbol_chars(&link_request(1, UNTOLD)).as_slice(),
    )?;
    Ok(chars)
}

#[test]
fn a_run_does_what_its_characters_do_wherever_it_is_cut(rt: HostRuntime) {
    let Ok(chars) = scenario(rt.alloc()) else {
        panic!(rt; "no memory");
    };
    for cut in 0..=chars.len() {
        let (Ok(mut by_run), Ok(mut by_one)) = (sender(rt.alloc()), sender(rt.alloc())) else {
            panic!(rt; "no memory");
        };
        let (front, back) = chars.as_slice().split_at(cut);
        assert!(rt; agree(&mut by_run, &mut by_one, front), "front of {cut}");
        assert!(rt; answer_alike(&by_run, &by_one), "between at {cut}");
        assert!(rt; agree(&mut by_run, &mut by_one, back), "behind {cut}");
        assert!(rt; answer_alike(&by_run, &by_one), "after {cut}");
        assert_eq!(rt; by_run.out_kind(), OutKind::RetryStopped);
        assert!(rt; by_run.in_head(0).is_some());
        let (run, one) = (by_run.turn(), by_one.turn());
        assert!(rt;
            run.sent.as_slice() == one.sent.as_slice(),
            "sent after {cut}"
        );
    }
}

/// A packet is to be sent.
fn put(port: &mut Port) {
    let packet = Packet::default();
    if port.out_room(packet.prio()) {
        port.out_put(packet);
    }
}

/// A port that has sent two packets.
fn sender(alloc: Global) -> Result<Port, NoMemory> {
    let mut port = Port::new(alloc, 4)?;
    put(&mut port);
    port.turn();
    put(&mut port);
    port.turn();
    Ok(port)
}

/// The characters of a packet with this ackID.
fn packet(ack: u8) -> ArrayVec<Char, 284>
    requires { ack < 32 }
{
    packet_chars(
        &start_of_packet(1, UNTOLD),
        ack,
        &Packet::default(),
        &end_of_packet(1, UNTOLD),
    )
}

/// Appends characters.
fn append(chars: &mut Vec<Char>, more: &[Char]) -> Result<(), NoMemory> {
    for c in more {
        if chars.push(*c).is_err() {
            return Err(NoMemory);
        }
    }
    Ok(())
}

/// Whether a port that takes runs does what a port does that takes one character after another.
fn agree(by_run: &mut Port, by_one: &mut Port, chars: &[Char]) -> bool {
    let mut rest = chars;
    for _ in 0..chars.len() {
        if rest.is_empty() || rest.len() > 4096 {
            break;
        }
        let mut freed = ArrayVec::new();
        let (count, taken) = by_run.take_run(rest, &mut freed);
        let (Some(run), Some(behind)) = (
            rest.get(..usize::from(count)),
            rest.get(usize::from(count)..),
        ) else {
            return false;
        };
        if !does(by_one, run, &taken, &freed) {
            return false;
        }
        rest = behind;
    }
    rest.is_empty()
}

/// Whether the last of these characters does this, and those before it complete nothing.
fn does(port: &mut Port, run: &[Char], taken: &Taken, freed: &ArrayVec<Packet, 31>) -> bool {
    let Some((last, before)) = run.split_last() else {
        return false;
    };
    let mut own = ArrayVec::new();
    for c in before {
        own.clear();
        if port.take(*c, &mut own).first.is_some() {
            return false;
        }
    }
    own.clear();
    let one = port.take(*last, &mut own);
    one.first == taken.first
        && one.first_acted == taken.first_acted
        && one.second == taken.second
        && one.held == taken.held
        && one.reply == taken.reply
        && own.as_slice() == freed.as_slice()
}

/// Whether two ports answer alike.
fn answer_alike(port: &Port, other: &Port) -> bool {
    (port.out_kind(), port.in_kind(), port.at_rest())
        == (other.out_kind(), other.in_kind(), other.at_rest())
        && (port.waiting(), port.outstanding(), port.asked())
            == (other.waiting(), other.outstanding(), other.asked())
        && (0..4u8).all(|prio| port.in_head(prio) == other.in_head(prio))
}
