//! A host asks a device over the fabric.
ghost use Rattle.std.specs.Prelude.{◌≡◌, ◌≤◌, ◌<◌, ℕ, [], false, List, length, IfOk, IfErr, IsErrOf, Ok, Err};
ghost use Rattle.rio_chars.specs.Faults.{Rose};
ghost use Rattle.rio_packets.specs.LinkForm.{LinkForm};
ghost use Rattle.maint_packets.specs.Requests.{IsGoodOp, request_body};
ghost use Rattle.fabric_trace.specs.Known.{Seen};
ghost use Rattle.trace_lines.specs.Lines.{TraceLine};
ghost use Rattle.fabric_ports.specs.Asking.{CanAsk, MayAsk, Replied, AskEnds};
ghost use Rattle.fabric_ports.specs.Fetching.{left_of, RoundsLeave, AskLeaves, response_in, ask_answer};
ghost use Rattle.fabric_ports.specs.Places.{IsEndpointAt};
ghost use Rattle.fabric_ports.specs.Ran.{Ran, FabricRan, end_with};
ghost use Rattle.fabric_ports.specs.Standing.{StandsForLines};
ghost use Rattle.fabric_ports.specs.declared.asking.AskEnd.TheVariants.{NoMemory};

use crate::answers::{FabricEnd, Happened};
use crate::fabric::Fabric;
use crate::noise::Noise;
use fabric_script::{Name, PortRef};
use link_model::Event;
use maint_packets::{Request, Response, read_response, write_request};
use rio_chars::{Outbox, Sink, TextBuffer};
use rio_packets::Packet;
use std::alloc::Global;
use trace_lines::{PacketCounts, TraceWriter};

/// The most rounds that an ask makes: 256 for a request, which has a hop count below 256, as many
/// for its response, and some to spare.
const MOST_ROUNDS: u32 = 520;

/// Why an ask has no answer. The fabric is of no use then.
#[derive(Debug, Drop)]
pub enum AskEnd {
    /// No response came: by the tables the request goes to no other device, or its response does
    /// not come back.
    Unanswered,
    /// The port acted on an event that was not sent: a corruption that no check has found.
    Undetected { port: PortRef, event: Event },
    /// A write failed.
    WriteFault,
    /// Memory was wanted and not given.
    NoMemory,
}

impl From<rio_chars::NoMemory> for AskEnd {
    ghost from_gives = { λ _ end. end ≡ NoMemory };

    fn from(_: rio_chars::NoMemory) -> Self {
        AskEnd::NoMemory
    }
}

impl Fabric {
    /// A host, which is an endpoint, sends a request and answers with the response that comes back.
    /// The priority of the request is below 4, its offset below 2^24, and it reads or writes. The
    /// lines of the ask are written to the sink: the request is taken, and rounds are made until
    /// the host holds a packet, at most 520. In a round each link takes a turn at both ends, the
    /// noise makes its edits of the wires that have characters, the link settles; then each switch
    /// makes its steps, and each endpoint but the host collects.
    ///
    /// With a response the noise still gives the edits that no wire met, and no others.
    ///
    /// If every event that was acted on was sent, `Unanswered` comes exactly if by the route tables
    /// the request goes to no other device, or the response of that device does not come back to
    /// the host. `Undetected` comes exactly if a port acted on an event that was not sent, and
    /// names that port and the first such event; the lines up to it were written. With `NoMemory`
    /// the first lines were written. `WriteFault` comes before all of these, exactly if a write
    /// failed; a front of the text was written. The next link that settles is the last one then.
    pub fn ask<N: Noise, K: Sink>(
        &mut self,
        alloc: Global,
        names: &[Name],
        host: u8,
        request: &Request,
        noise: &mut N,
        sink: &mut K,
    ) -> Result<Response, AskEnd>
        requires can { MayAsk host self.old }
        requires named { length self.old.devices.items ≤ length names.now }
        requires few { length names.now ≤ 256 }
        requires op { IsGoodOp request.now.op }
        requires prio { request.now.prio < 4 }
        requires offset { request.now.offset < 0x1000000 }
        requires dest { request.now.large ≡ false → request.now.dest < 256 }
        requires source { request.now.large ≡ false → request.now.source < 256 }
        ensures replied { IfOk result (λ response. (from : Seen) (lines : List TraceLine)
            → CanAsk host from lines self.old → Replied names.now
            (K.written sink.old) (K.written sink.new) host request.now (N.edits noise.old)
            (N.edits noise.new) from lines self.new response) }
        ensures ended { IfErr result (λ end. (from : Seen) (lines : List TraceLine)
            → CanAsk host from lines self.old → AskEnds names.now
            (K.written sink.old) (K.written sink.new) host request.now (N.edits noise.old)
            from lines end) }
        ensures write_fault { IsErrOf result AskEnd.WriteFault
            → Rose (K.faults sink.old) (K.faults sink.new) }
        ensures counts { ¬ IsErrOf result AskEnd.WriteFault
            → K.faults sink.new ≡ K.faults sink.old }
        ensures never_falls { K.faults sink.old ≤ K.faults sink.new }
    {
        show_request(request);
        let mut buffer = TextBuffer::new(alloc)?;
        let mut outbox = Outbox::new(&mut buffer, sink);
        let answered = self.ask_through(alloc, names, host, request, noise, &mut outbox);
        outbox.into_sink();
        answered
    }

    /// Asks through an outbox, and writes all that was told.
    fn ask_through<N: Noise, K: Sink>(
        &mut self,
        alloc: Global,
        names: &[Name],
        host: u8,
        request: &Request,
        noise: &mut N,
        outbox: &mut Outbox<K>,
    ) -> Result<Response, AskEnd>
        requires can { MayAsk host self.old }
        requires named { length self.old.devices.items ≤ length names.now }
        requires few { length names.now ≤ 256 }
        requires op { IsGoodOp request.now.op }
        requires prio { request.now.prio < 4 }
        requires offset { request.now.offset < 0x1000000 }
        requires dest { request.now.large ≡ false → request.now.dest < 256 }
        requires source { request.now.large ≡ false → request.now.source < 256 }
        requires fine { outbox.old.failed ≡ false }
        requires empty { outbox.old.waiting ≡ [] }
        ensures same { outbox.new.sink ≡ outbox.old.sink }
        ensures replied { IfOk result (λ response. (from : Seen) (lines : List TraceLine)
            → CanAsk host from lines self.old → Replied names.now
            outbox.old.written outbox.new.written host request.now
            (N.edits noise.old) (N.edits noise.new) from lines self.new response) }
        ensures ended { IfErr result (λ end. (from : Seen) (lines : List TraceLine)
            → CanAsk host from lines self.old → AskEnds names.now
            outbox.old.written outbox.new.written host request.now
            (N.edits noise.old) from lines end) }
        ensures write_fault { IsErrOf result AskEnd.WriteFault
            → Rose outbox.old.faults outbox.new.faults }
        ensures counts { ¬ IsErrOf result AskEnd.WriteFault
            → outbox.new.faults ≡ outbox.old.faults }
        ensures never_falls { outbox.old.faults ≤ outbox.new.faults }
    {
        let mut writer = TraceWriter {
            outbox,
            names,
            counts: PacketCounts::new(),
        };
        let told = self.tell_ask(alloc, host, request, noise, &mut writer);
        outbox.flush();
        if outbox.failed() {
            return Err(AskEnd::WriteFault);
        }
        answer(told)
    }

    /// Tells the lines of an ask. Answers the packet that leaves at the host in the end.
    fn tell_ask<N: Noise, K: Sink>(
        &mut self,
        alloc: Global,
        host: u8,
        request: &Request,
        noise: &mut N,
        writer: &mut TraceWriter<K>,
    ) -> Result<Option<Packet>, FabricEnd>
        requires can { MayAsk host self.old }
        requires named { length self.old.devices.items ≤ length writer.old.names.now }
        requires few { length writer.old.names.now ≤ 256 }
        requires op { IsGoodOp request.now.op }
        requires prio { request.now.prio < 4 }
        requires offset { request.now.offset < 0x1000000 }
        requires dest { request.now.large ≡ false → request.now.dest < 256 }
        requires source { request.now.large ≡ false → request.now.source < 256 }
        ensures { (from : Seen) (lines : List TraceLine) → CanAsk host from lines self.old
            → Ran (AskLeaves host request.now (N.edits noise.old) (N.edits noise.new) result)
            writer.old writer.new from lines (end_with self.new result) }
    {
        self.send(host, write_request(request), writer);
        self.fetch(alloc, MOST_ROUNDS, host, noise, writer)
    }

    /// Makes rounds until the host holds a packet, at most so many, and collects it. Answers the
    /// packet if it leaves there.
    fn fetch<N: Noise, K: Sink>(
        &mut self,
        alloc: Global,
        rounds: u32,
        host: u8,
        noise: &mut N,
        writer: &mut TraceWriter<K>,
    ) -> Result<Option<Packet>, FabricEnd>
        requires stands { StandsForLines self.old }
        requires named { length self.old.devices.items ≤ length writer.old.names.now }
        requires few { length writer.old.names.now ≤ 256 }
        requires endpoint { IsEndpointAt self.old.devices.items host }
        ensures { FabricRan
            (RoundsLeave host rounds (N.edits noise.old) (N.edits noise.new) result)
            self.old writer.old writer.new (end_with self.new result) }
    {
        for _ in 0..rounds {
            self.ask_round(alloc, host, noise, writer)?;
            if self.holds(host) {
                return Ok(left_of(self.collect(host, writer)));
            }
        }
        Ok(None)
    }
}

/// Says of a request that may be sent what is true of every one: a packet carries it.
fn show_request(request: &Request)
    requires op { IsGoodOp request.now.op }
    requires prio { request.now.prio < 4 }
    requires offset { request.now.offset < 0x1000000 }
    requires dest { request.now.large ≡ false → request.now.dest < 256 }
    requires source { request.now.large ≡ false → request.now.source < 256 }
    ensures { (packet : List ℕ) × LinkForm (request_body request.now) packet }
{
    let _ = write_request(request);
}

/// The packet that left, if one did.
fn left_of(happened: Happened) -> Option<Packet>
    ensures { result ≡ left_of happened }
{
    match happened {
        Happened::Left(packet) => Some(packet),
        _ => None,
    }
}

/// What is answered: the response that left at the host. Its own registers answer a request that
/// came home, and then none left.
fn answer(told: Result<Option<Packet>, FabricEnd>) -> Result<Response, AskEnd>
    ensures { result ≡ ask_answer told }
{
    match told {
        Ok(left) => response_in(left).ok_or(AskEnd::Unanswered),
        Err(FabricEnd::Undetected { port, event }) => {
            let event = event.event().copy();
            Err(AskEnd::Undetected { port, event })
        }
        Err(FabricEnd::Failed) => Err(AskEnd::WriteFault),
        Err(FabricEnd::NoMemory) => Err(AskEnd::NoMemory),
    }
}

/// The response that a packet carries.
fn response_in(left: Option<Packet>) -> Option<Response>
    ensures { result ≡ response_in left }
{
    read_response(&left?)
}
