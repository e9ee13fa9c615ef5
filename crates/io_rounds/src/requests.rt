//! What is sent: requests, and replies to packets.
ghost use Rattle.std.specs.Prelude.{◌≡◌, ◌<◌, ◌∷◌, [], ℕ, List, length, IfOk};
ghost use Rattle.io_packets.specs.Forms.{IsGood};
ghost use Rattle.io_rounds.specs.Tasks.{Ask, sends_io, reply_line, tasks_of};
ghost use Rattle.io_rounds.specs.Drives.{AsksWithin, AsksNoAnswer};
ghost use Rattle.io_rounds.specs.declared.stations.Station.{Station as StationModel};

use crate::stations::{Station, next_tid};
use fabric_script::{Hex, Line};
use io_packets::{Io, Load};
use io_script::IoLine;
use maint_packets::response_prio;
use rio_chars::NoMemory;
use rio_packets::Packet;
use std::alloc::Global;

/// The priority of a request.
const ASK_PRIO: u8 = 1;

/// A request that an endpoint is to send.
#[derive(Drop)]
pub(crate) struct Asking {
    pub(crate) node: u8,
    /// Its transaction number, if it is to be answered.
    pub(crate) tid: Option<u8>,
    /// The event that sends it.
    pub(crate) line: Line,
}

/// The request of a line. One that is to be answered has the next number of its node.
pub(crate) fn request_of(
    alloc: Global,
    stations: &[Station],
    line: &IoLine,
) -> Result<Asking, NoMemory>
    requires { AsksWithin (length stations.now) line.now }
    ensures { IfOk result (λ asked. (endpoints : List ℕ)
        → tasks_of endpoints stations.now line.now ≡ Ask asked.node asked.tid asked.line ∷ []) }
{
    match line {
        IoLine::NRead {
            node,
            dest,
            addr,
            size,
        } => {
            let tid = next_tid(stations, *node);
            let (addr, size) = (*addr, *size);
            asked(
                alloc,
                *node,
                *dest,
                Some(tid),
                &Io::NRead { tid, addr, size },
            )
        }
        IoLine::NWriteR {
            node,
            dest,
            addr,
            load,
        } => {
            let tid = next_tid(stations, *node);
            let (addr, load) = (*addr, copy_of(load));
            asked(
                alloc,
                *node,
                *dest,
                Some(tid),
                &Io::NWriteR { tid, addr, load },
            )
        }
        _ => write_of(alloc, line),
    }
}

/// The request of a line that asks for no answer.
fn write_of(alloc: Global, line: &IoLine) -> Result<Asking, NoMemory>
    requires { AsksNoAnswer line.now }
    ensures { IfOk result (λ asked. (endpoints : List ℕ) (stations : List StationModel)
        → tasks_of endpoints stations line.now ≡ Ask asked.node asked.tid asked.line ∷ []) }
{
    match line {
        IoLine::NWrite {
            node,
            dest,
            addr,
            load,
        } => {
            let (addr, load) = (*addr, copy_of(load));
            asked(alloc, *node, *dest, None, &Io::NWrite { addr, load })
        }
        IoLine::SWrite {
            node,
            dest,
            addr,
            load,
        } => {
            let (addr, load) = (*addr, copy_of(load));
            asked(alloc, *node, *dest, None, &Io::SWrite { addr, load })
        }
        _ => unreachable!(),
    }
}

/// A request to a device.
fn asked(alloc: Global, node: u8, dest: u8, tid: Option<u8>, io: &Io) -> Result<Asking, NoMemory>
    requires { IsGood io.now }
    ensures { IfOk result (λ asked. asked ≡ record {
      node = node;
      tid = tid;
      line = sends_io node 1 dest io.now;
    }) }
{
    Ok(Asking {
        node,
        tid,
        line: send_of(alloc, node, ASK_PRIO, dest, io)?,
    })
}

/// The event that sends the reply to a packet: back to its source, at the priority above.
pub(crate) fn reply_of(alloc: Global, node: u8, packet: &Packet, io: &Io) -> Result<Line, NoMemory>
    requires { IsGood io.now }
    ensures { IfOk result (λ line. line ≡ reply_line node packet.now io.now) }
{
    // A packet that is answered has IDs of eight bits.
    let dest = packet.bytes()[3];
    send_of(alloc, node, response_prio(packet.prio()), dest, io)
}

/// The event that sends a read, a write or a response.
fn send_of(alloc: Global, node: u8, prio: u8, dest: u8, io: &Io) -> Result<Line, NoMemory>
    requires { IsGood io.now }
    ensures { IfOk result (λ line. line ≡ sends_io node prio dest io.now) }
{
    let rest = io.behind_ids();
    Ok(Line::Send {
        node,
        prio,
        ftype: io.ftype(),
        dest,
        hex: Hex::new(Vec::from_slice(alloc, rest.as_slice())?),
    })
}

/// The same data once more.
fn copy_of(load: &Load) -> Load
    ensures { result ≡ load.now }
{
    Load::of_bytes(load.as_slice())
}
