//! Events: what a line of a script does to a fabric.
ghost use Rattle.std.specs.Prelude.{◌≡◌, ◌<◌, false, length, IfOk, IfErr, Ok, Err};
ghost use Rattle.rio_packets.specs.LinkForm.{LinkForm};
ghost use Rattle.rio_packets.specs.Fields.{body_of};
ghost use Rattle.maint_packets.specs.Requests.{IsGoodOp, request_body};
ghost use Rattle.fabric_script.specs.GivenPackets.{line_giving};
ghost use Rattle.fabric_model.specs.Network.{sender_id};
ghost use Rattle.fabric_trace.specs.Events.{IsInRange, IsDataLength};
ghost use Rattle.fabric_ports.specs.Events.{MayFollow, FabricEvented, IsAnsweredBlock, IsOwnBlock, request_by, body_in};

use crate::answers::{FabricEnd, Happened};
use crate::fabric::Fabric;
use fabric_script::{Contents, GivenPacket, Line, Operation, RequestHead};
use maint_packets::{Op, Request, write_request};
use maint_registers::Registers;
use rio_chars::Sink;
use rio_packets::{Header, Packet, build};
use std::alloc::Global;
use trace_lines::TraceWriter;

impl Fabric {
    /// Carries out an event, and writes its block of the trace: the line with which it begins, and
    /// the lines of what was done. The event may follow the lines for which the fabric stands, as
    /// each event line of the script does of which the fabric was made.
    ///
    /// `Undetected` comes exactly if a port acted on an event that was not sent, and names that
    /// port and the first such event; the block up to it was written. With `NoMemory` a front of
    /// the block was written, and so with `Failed`, which comes only if a write has failed. The
    /// fabric is of no use after each of them. Where a write fails, a `run` ends with `Failed`
    /// behind the next link that settles; any other event goes on to its end, so ask the writer
    /// behind an `Ok`.
    pub fn event<K: Sink>(
        &mut self,
        alloc: Global,
        line: &Line,
        writer: &mut TraceWriter<K>,
    ) -> Result<Happened, FabricEnd>
        requires may { MayFollow self.old writer.old.names.now line.now }
        ensures done { IfOk result (λ answer. FabricEvented line.now
            (IsAnsweredBlock line.now answer) self.old writer.old writer.new (Ok self.new)) }
        ensures ended { IfErr result (λ end. FabricEvented line.now (IsOwnBlock line.now)
            self.old writer.old writer.new (Err end)) }
    {
        writer.write_begun(line);
        match line.operation() {
            Operation::SetUp => unreachable!(),
            Operation::Give(given) => {
                let packet = packet_of(&given, &self.devices[usize::from(given.node)]);
                Ok(self.send(given.node, packet, writer))
            }
            Operation::AtLink(port, action) => {
                self.act(alloc, port, action, writer)?;
                Ok(Happened::Other)
            }
            Operation::Edit(port, edit) => {
                self.edit(alloc, port, &edit, writer)?;
                Ok(Happened::Other)
            }
            Operation::Move(node) => {
                self.step_or_none(node, writer);
                Ok(Happened::Other)
            }
            Operation::Collect(node) => Ok(self.collect(node, writer)),
            Operation::Run(n) => {
                self.run(alloc, n, writer)?;
                Ok(Happened::Other)
            }
        }
    }
}

/// The packet that a line gives, from the device with these registers.
fn packet_of(given: &GivenPacket, device: &Registers) -> Packet
    requires range { IsInRange (line_giving given.now) }
    requires dest { given.now.large ≡ false → given.now.dest < 256 }
    ensures { LinkForm (body_in (line_giving given.now) (sender_id device.now)) result }
{
    let source = sender_id(device, given.large);
    match given.contents {
        Contents::Data(ftype, hex) => {
            let header = Header {
                prio: given.prio,
                ftype,
                dest: given.dest,
                source,
                large: given.large,
            };
            sent(&header, hex.as_slice())
        }
        Contents::Read(head) => asked(given, source, head, Op::Read),
        Contents::Write(head, value) => asked(given, source, head, Op::Write { value }),
    }
}

/// The ID of a size from which a device sends.
fn sender_id(device: &Registers, large: bool) -> u16
    ensures value { result ≡ sender_id device.now large }
    ensures small { large ≡ false → result < 256 }
{
    if large {
        device.large_id()
    } else {
        u16::from(device.base_id())
    }
}

/// The packet of this header and data of a length that a packet may have.
fn sent(header: &Header, hex: &[u8]) -> Packet
    requires prio { header.now.prio < 4 }
    requires ftype { header.now.ftype < 16 }
    requires dest { header.now.large ≡ false → header.now.dest < 256 }
    requires source { header.now.large ≡ false → header.now.source < 256 }
    requires length { IsDataLength header.now.large header.now.ftype (length hex.now) }
    ensures { LinkForm (body_of header.now.prio header.now.ftype header.now.large header.now.dest
        header.now.source hex.now) result }
{
    match build(header, hex) {
        Ok(packet) => packet,
        Err(_) => unreachable!(),
    }
}

/// The packet of a request to read or write a register, from a source ID.
fn asked(given: &GivenPacket, source: u16, head: RequestHead, op: Op) -> Packet
    requires op { IsGoodOp op }
    requires prio { given.now.prio < 4 }
    requires dest { given.now.large ≡ false → given.now.dest < 256 }
    requires source { given.now.large ≡ false → source < 256 }
    requires offset { head.offset < 0x1000000 }
    ensures { LinkForm (request_body (request_by source given.now.prio given.now.large
        given.now.dest head.hop head.tid head.offset op)) result }
{
    write_request(&Request {
        prio: given.prio,
        dest: given.dest,
        source,
        large: given.large,
        op,
        tid: head.tid,
        hop: head.hop,
        offset: head.offset,
    })
}
