//! What is kept of each endpoint besides the fabric.
ghost use Rattle.std.specs.Prelude.{◌≡◌, ◌<◌, ◌+◌, ◌%◌, length, replicate, Some, None, IfOk, IfSome};
ghost use Rattle.io_packets.specs.Forms.{IsGood};
ghost use Rattle.io_rounds.specs.Stations.{met_at_node, answer_at_node, stations_met, new_station, kept_of_node, with_memory, with_kept, counted_on, next_tid_of};

use fabric_script::Line;
use io_memory::{Meeting, meet, meet_without};
use rio_chars::NoMemory;
use rio_packets::Packet;
use std::alloc::{AllocError, Global};
use std::marker::Model;

/// The memory of an endpoint, which begins at the address 0.
#[derive(Drop)]
pub(crate) struct Memory {
    pub(crate) bytes: Vec<u8>,
}

impl Model for Memory {
    ghost use Rattle.std.specs.Prelude.{List, ℕ};

    ghost Value = { List ℕ };

    ghost view = { λ memory. memory.bytes.items };
}

impl Memory {
    /// A memory of so many bytes, which are all 0.
    pub(crate) fn new(alloc: Global, bytes: u32) -> Result<Memory, AllocError>
        ensures { IfOk result (λ memory. memory ≡ replicate bytes 0) }
    {
        Ok(Memory {
            bytes: vec![in alloc; 0u8; bytes as usize]?,
        })
    }
}

/// What is kept of a node: its memory, if it has one; the reply that had no room yet, if there is
/// one; and the transaction number of its next request.
#[derive(Drop)]
pub(crate) struct Station {
    pub(crate) memory: Option<Memory>,
    pub(crate) kept: Option<Line>,
    pub(crate) next_tid: u8,
}

/// What is kept of so many nodes before anything is done.
pub(crate) fn new_stations(alloc: Global, count: usize) -> Result<Vec<Station>, NoMemory>
    ensures { IfOk result (λ stations. stations.items ≡ replicate count new_station) }
{
    let mut stations = Vec::new(alloc);
    for _ in 0..count {
        let new = Station {
            memory: None,
            kept: None,
            next_tid: 0,
        };
        let Ok(()) = stations.push(new) else {
            return Err(NoMemory);
        };
    }
    Ok(stations)
}

/// Gives a node a memory. One that it had is dropped.
pub(crate) fn put_memory(stations: &mut Vec<Station>, node: u8, memory: Memory)
    requires { node < length stations.old.items }
    ensures { stations.new.items ≡ with_memory stations.old.items node memory }
{
    stations[usize::from(node)].memory = Some(memory);
}

/// Keeps a reply that has no room.
pub(crate) fn keep(stations: &mut Vec<Station>, node: u8, line: Line)
    requires { node < length stations.old.items }
    ensures { stations.new.items ≡ with_kept stations.old.items node (Some line) }
{
    stations[usize::from(node)].kept = Some(line);
}

/// Takes the reply that is kept, if there is one.
pub(crate) fn take_kept(stations: &mut Vec<Station>, node: u8) -> Option<Line>
    requires { node < length stations.old.items }
    ensures kept { result ≡ kept_of_node stations.old.items node }
    ensures left { stations.new.items ≡ with_kept stations.old.items node None }
{
    stations[usize::from(node)].kept.take()
}

/// Counts a request that was taken.
pub(crate) fn count_on(stations: &mut Vec<Station>, node: u8, tid: Option<u8>)
    requires { node < length stations.old.items }
    ensures { stations.new.items ≡ counted_on stations.old.items node tid }
{
    if let Some(tid) = tid {
        stations[usize::from(node)].next_tid = tid.wrapping_add(1);
    }
}

/// The number of the next request of a node.
pub(crate) fn next_tid(stations: &[Station], node: u8) -> u8
    requires { node < length stations.now }
    ensures { result ≡ next_tid_of stations.now node }
{
    stations[usize::from(node)].next_tid
}

/// Meets a packet at a node, with memory or without.
pub(crate) fn meet_at(stations: &mut Vec<Station>, node: u8, packet: &Packet) -> Meeting
    requires { node < length stations.old.items }
    ensures met { result.met ≡ met_at_node stations.old.items node packet.now }
    ensures answer { result.answer ≡ answer_at_node stations.old.items node packet.now }
    ensures stations { stations.new.items ≡ stations_met stations.old.items node packet.now }
    ensures good { IfSome result.answer IsGood }
{
    match &mut stations[usize::from(node)].memory {
        Some(memory) => meet(&mut memory.bytes, packet),
        None => Meeting {
            met: meet_without(packet),
            answer: None,
        },
    }
}
