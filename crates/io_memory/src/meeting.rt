//! What becomes of a packet.
ghost use Rattle.std.specs.Prelude.{◌≡◌, ◌≤◌, IfSome};
ghost use Rattle.io_packets.specs.Forms.{IsGood, IsSized};
ghost use Rattle.io_packets.specs.Reading.{io_of};
ghost use Rattle.io_packets.specs.Serving.{answer_to, memory_after};
ghost use Rattle.rio_packets.specs.Fields.{ftype_of};
ghost use Rattle.io_memory.specs.Meeting.{met_of, met_at, met_read, met_write, met_without};

use io_packets::{Io, Load, read_io, serve};
use rio_packets::Packet;

/// What became of a packet that came to an endpoint. Addresses are those of bytes.
#[derive(Debug, Drop, PartialEq, Eq)]
pub enum Met {
    /// A read within the memory: where the first byte stands, and the bytes.
    Read {
        addr: u32,
        load: Load,
    },
    /// A write within the memory: where the first byte went, and the bytes.
    Written {
        addr: u32,
        load: Load,
    },
    /// A request that could not be done, and its format type.
    Failed {
        ftype: u8,
    },
    /// A response: the transaction number of its request, its status, and its data if it has any.
    Done {
        tid: u8,
        status: u8,
        load: Option<Load>,
    },
    /// Any other packet, and its format type; at an endpoint without memory each that is no
    /// response.
    Other {
        ftype: u8,
    },
}

/// What became of a packet, and what is answered.
#[derive(Debug, Drop)]
pub struct Meeting {
    pub met: Met,
    pub answer: Option<Io>,
}

/// Meets a packet at an endpoint with memory, which begins at the address 0. A request is served,
/// and the answer to it comes back, if it is to be answered (RapidIO Interconnect Specification
/// 1.3, Part 1, input and output operations).
pub fn meet(memory: &mut Vec<u8>, packet: &Packet) -> Meeting
    ensures met { result.met ≡ met_of memory.old.items packet.now }
    ensures answer { result.answer ≡ answer_to memory.old.items (io_of packet.now) }
    ensures memory { memory.new.items ≡ memory_after memory.old.items (io_of packet.now) }
    ensures good { IfSome result.answer IsGood }
{
    let io = read_io(packet);
    let met = met_at(memory.as_slice(), packet.ftype(), &io);
    Meeting {
        met,
        answer: serve(memory, &io),
    }
}

/// Meets a packet at an endpoint without memory, which serves nothing.
pub fn meet_without(packet: &Packet) -> Met
    ensures { result ≡ met_without (ftype_of packet.now) (io_of packet.now) }
{
    met_without(packet.ftype(), &read_io(packet))
}

/// What becomes of what a packet carries, at a memory.
fn met_at(memory: &[u8], ftype: u8, io: &Io) -> Met
    requires { IsSized io.now }
    ensures { result ≡ met_at memory.now ftype io.now }
{
    match io {
        Io::NRead { addr, size, .. } => met_read(memory, ftype, *addr, *size),
        Io::NWrite { addr, load } | Io::NWriteR { addr, load, .. } | Io::SWrite { addr, load } => {
            met_write(memory, ftype, *addr, load)
        }
        Io::BadRead { .. } | Io::BadWriteR { .. } | Io::BadWrite => Met::Failed { ftype },
        Io::Reply { .. } | Io::Other => met_without(ftype, io),
    }
}

/// A read, at a memory.
fn met_read(memory: &[u8], ftype: u8, addr: u32, size: u8) -> Met
    requires { size ≤ 64 }
    ensures { result ≡ met_read memory.now ftype addr size }
{
    let begin = addr as usize;
    let end = begin + usize::from(size);
    if end > memory.len() {
        return Met::Failed { ftype };
    }
    Met::Read {
        addr,
        load: Load::of_bytes(&memory[begin..end]),
    }
}

/// A write, at a memory.
fn met_write(memory: &[u8], ftype: u8, addr: u32, load: &Load) -> Met
    ensures { result ≡ met_write memory.now ftype addr load.now }
{
    let bytes = load.as_slice();
    if addr as usize + bytes.len() > memory.len() {
        return Met::Failed { ftype };
    }
    Met::Written {
        addr,
        load: Load::of_bytes(bytes),
    }
}

/// What becomes of what a packet carries, without memory.
fn met_without(ftype: u8, io: &Io) -> Met
    ensures { result ≡ met_without ftype io.now }
{
    match io {
        Io::Reply { status, tid, load } => Met::Done {
            tid: *tid,
            status: *status,
            load: load.as_ref().map(|load| Load::of_bytes(load.as_slice())),
        },
        _ => Met::Other { ftype },
    }
}
