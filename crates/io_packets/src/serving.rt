//! What an endpoint does with its memory.
ghost use Rattle.std.specs.Prelude.{◌≡◌, ◌+◌, ◌≤◌, length, Some, None, IfSome};
ghost use Rattle.io_packets.specs.Forms.{IsGood, IsSized};
ghost use Rattle.io_packets.specs.Serving.{is_within, written, memory_after, answer_to};

use crate::classes::{DONE, ERROR};
use crate::io::{Io, Load};

/// Serves a read or a write at a memory whose first byte has the address 0, and returns the answer,
/// if there is one. A read and a write of bytes that are all within the memory are done. What is
/// out of range, and a request that is not of the right form, is answered with status 7 if it is to
/// be answered, and leaves the memory as it was. NWRITE and SWRITE are not to be answered (RapidIO
/// Interconnect Specification 1.3, Part 1, input and output operations).
pub fn serve(memory: &mut Vec<u8>, io: &Io) -> Option<Io>
    requires { IsSized io.now }
    ensures answer { result ≡ answer_to memory.old.items io.now }
    ensures memory { memory.new.items ≡ memory_after memory.old.items io.now }
    ensures good { IfSome result IsGood }
{
    match io {
        Io::NRead { tid, addr, size } => Some(read(memory, *tid, *addr, *size)),
        Io::NWriteR { tid, addr, load } => Some(if write(memory, *addr, load.as_slice()) {
            reply(DONE, *tid)
        } else {
            reply(ERROR, *tid)
        }),
        Io::NWrite { addr, load } | Io::SWrite { addr, load } => {
            write(memory, *addr, load.as_slice());
            None
        }
        Io::BadRead { tid } | Io::BadWriteR { tid } => Some(reply(ERROR, *tid)),
        Io::Reply { .. } | Io::BadWrite | Io::Other => None,
    }
}

/// The answer to a read.
fn read(memory: &[u8], tid: u8, addr: u32, size: u8) -> Io
    requires { size ≤ 64 }
    ensures { answer_to memory.now (Io.NRead tid addr size) ≡ Some result }
{
    let begin = addr as usize;
    let end = begin + usize::from(size);
    if end > memory.len() {
        return reply(ERROR, tid);
    }
    Io::Reply {
        status: DONE,
        tid,
        load: Some(Load::of_bytes(&memory[begin..end])),
    }
}

/// Writes bytes that are all within the memory, and returns whether they are.
fn write(memory: &mut Vec<u8>, addr: u32, load: &[u8]) -> bool
    requires { length load.now ≤ 64 }
    ensures within { result ≡ is_within memory.old.items addr (length load.now) }
    ensures memory { memory.new.items ≡ written memory.old.items addr load.now }
{
    let begin = addr as usize;
    let end = begin + load.len();
    if end > memory.len() {
        return false;
    }
    memory[begin..end].copy_from_slice(load);
    true
}

/// A response without data.
fn reply(status: u8, tid: u8) -> Io
    ensures { result ≡ Io.Reply status tid None }
{
    Io::Reply {
        status,
        tid,
        load: None,
    }
}
