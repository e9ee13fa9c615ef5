//! `FabricMaint`: accesses over the links of a fabric.
ghost use Rattle.std.specs.Prelude.{◌≡◌, ◌<◌, length, Some, []};
ghost use Rattle.fabric_script.specs.Scripts.{ScriptPasses};
ghost use Rattle.fabric_map.specs.Plain.{topology_of, registers_of};
ghost use Rattle.fabric_trace.specs.Runs.{start};
ghost use Rattle.fabric_ports.specs.Standing.{Stands};
ghost use Rattle.host_enumerate.specs.Devised.{IsHost, devices_of, links_of};
ghost use Rattle.host_enumerate.specs.Underway.{AreUntagged};
ghost use Rattle.fabric_maint.specs.Going.{topology_in, registers_in, MaintRestsAt, StandsFor, StandsWhole, HasMet, Followed, FollowedFront};

use crate::ends::{count_after, end_for};
use crate::requests::{answer_in, request_for};
use fabric_ports::{Fabric, Noise};
use fabric_script::{PortRef, Script};
use host_enumerate::{Access, Answer, Maint, MaintEnd};
use rio_chars::Sink;
use std::alloc::Global;

/// The offset of the register that has the ID of an endpoint (RapidIO Interconnect Specification
/// 1.3, Part 3, base device ID).
const BASE_ID: u32 = 0x00_0060;

/// The answer to an access that was not done.
const FAILED: Answer = Answer {
    status: 7,
    value: 0,
};

/// A fabric, and the host that asks its devices. What is on the wires meets the edits of a noise,
/// and the lines of each ask go to a sink.
#[derive(Drop)]
pub struct FabricMaint<'a, N, K> {
    fabric: &'a mut Fabric,
    script: &'a Script,
    host: u8,
    noise: &'a mut N,
    sink: &'a mut K,
    /// The transaction number of the next request.
    tid: u8,
    /// How many undetected events were met.
    undetected: u64,
}

impl<'a, N: Noise, K: Sink> FabricMaint<'a, N, K> {
    /// A new fabric of a script that passes, and a host of it, which is an endpoint with a link and
    /// an ID below 255. It can be asked, and no device has a tag. The first request has the
    /// transaction number 0.
    pub fn new(
        fabric: &'a mut Fabric,
        script: &'a Script,
        host: u8,
        noise: &'a mut N,
        sink: &'a mut K,
    ) -> FabricMaint<'a, N, K>
        requires passes { ScriptPasses script.now.names.items script.now.lines.items }
        requires host { IsHost (devices_of script.now.lines.items) (links_of script.now.lines.items)
            host }
        requires stands { Stands (start script.now.lines.items) [] fabric.old }
        requires named { length fabric.old.devices.items ≡ length script.now.names.items }
        ensures topology { ⟦<FabricMaint<'a, N, K> as Maint>⟧.topology result
            ≡ topology_of (devices_of script.now.lines.items) (links_of script.now.lines.items)
            host }
        ensures registers { ⟦<FabricMaint<'a, N, K> as Maint>⟧.registers result
            ≡ registers_of (devices_of script.now.lines.items) }
        ensures whole { ⟦<FabricMaint<'a, N, K> as Maint>⟧.IsWhole result }
        ensures untagged { AreUntagged (⟦<FabricMaint<'a, N, K> as Maint>⟧.topology result)
            (⟦<FabricMaint<'a, N, K> as Maint>⟧.registers result) }
        ensures host_has_id { (⟦<FabricMaint<'a, N, K> as Maint>⟧.registers result
            (⟦<FabricMaint<'a, N, K> as Maint>⟧.topology result).host).base_id < 255 }
        ensures rests { MaintRestsAt host (start script.now.lines.items) result.fabric.now }
        ensures follows { ⟦<FabricMaint<'a, N, K> as Maint>⟧.Follows result result }
        ensures script { result.script.now ≡ script.now }
        ensures host_is { result.host ≡ host }
        ensures fabric { result.fabric.ghost_name ≡ fabric.entry.ghost_name }
        ensures noise { result.noise.ghost_name ≡ noise.entry.ghost_name }
        ensures noise_is { result.noise.now ≡ noise.old }
        ensures sink { result.sink.ghost_name ≡ sink.entry.ghost_name }
        ensures sink_is { result.sink.now ≡ sink.old }
        ensures first { result.tid ≡ 0 }
        ensures none { result.undetected ≡ 0 }
    {
        FabricMaint::resting(fabric, script, host, noise, sink)
    }

    /// A fabric of a script that rests, as one that was asked, and a host of it. It can be asked.
    /// The first request has the transaction number 0.
    pub fn resting(
        fabric: &'a mut Fabric,
        script: &'a Script,
        host: u8,
        noise: &'a mut N,
        sink: &'a mut K,
    ) -> FabricMaint<'a, N, K>
        requires stands { StandsFor script.now.names.items script.now.lines.items host fabric.old }
        ensures topology { ⟦<FabricMaint<'a, N, K> as Maint>⟧.topology result
            ≡ topology_of (devices_of script.now.lines.items) (links_of script.now.lines.items)
            host }
        ensures registers { ⟦<FabricMaint<'a, N, K> as Maint>⟧.registers result
            ≡ registers_of fabric.old.devices.items }
        ensures whole { ⟦<FabricMaint<'a, N, K> as Maint>⟧.IsWhole result }
        ensures follows { ⟦<FabricMaint<'a, N, K> as Maint>⟧.Follows result result }
        ensures script { result.script.now ≡ script.now }
        ensures host_is { result.host ≡ host }
        ensures fabric { result.fabric.ghost_name ≡ fabric.entry.ghost_name }
        ensures fabric_is { result.fabric.now ≡ fabric.old }
        ensures noise { result.noise.ghost_name ≡ noise.entry.ghost_name }
        ensures noise_is { result.noise.now ≡ noise.old }
        ensures sink { result.sink.ghost_name ≡ sink.entry.ghost_name }
        ensures sink_is { result.sink.now ≡ sink.old }
        ensures first { result.tid ≡ 0 }
        ensures none { result.undetected ≡ 0 }
    {
        FabricMaint {
            fabric,
            script,
            host,
            noise,
            sink,
            tid: 0,
            undetected: 0,
        }
    }

    /// The ID of the host.
    pub fn host_id(&self) -> u8
        requires { StandsWhole self.now }
        ensures { result ≡ (registers_in self.now self.now.host).base_id }
    {
        match self.fabric.register_read(self.host, BASE_ID) {
            Some(value) => (value >> 16) as u8,
            // An endpoint has an ID.
            None => unreachable!(),
        }
    }
}

/// The answer to an access that was done.
fn done(value: u32) -> Answer
    ensures { result ≡ record { status = 0; value = value } }
{
    Answer { status: 0, value }
}

impl<'a, N: Noise, K: Sink> Maint for FabricMaint<'a, N, K> {
    ghost use Rattle.fabric_maint.specs.GoingLaws.{has_topology, shows_kinds, abandons};

    ghost topology = { topology_in };

    ghost registers = { registers_in };

    ghost undetected = { λ maint. maint.undetected };

    ghost faults = { λ maint. K.faults maint.sink.now };

    ghost IsMet = { HasMet N.edits K.written };

    ghost IsWhole = { StandsWhole };

    ghost Follows = { Followed N.edits K.written K.faults };

    ghost Leaves = { FollowedFront N.edits K.written K.faults };

    ghost follows_leaves = { abandons N.edits K.written K.faults };

    ghost whole_is_proper = { has_topology };

    ghost whole_fits = { shows_kinds };

    fn ask(
        &mut self,
        alloc: Global,
        dest: u8,
        hops: u8,
        access: Access,
    ) -> Result<Answer, MaintEnd> {
        let request = request_for(self.host_id(), self.tid, dest, hops, access);
        self.tid = self.tid.wrapping_add(1);
        let asked = self.fabric.ask(
            alloc,
            self.script.names.as_slice(),
            self.host,
            &request,
            self.noise,
            self.sink,
        );
        match asked {
            Ok(response) => Ok(answer_in(&response, request.offset)),
            Err(end) => {
                self.undetected = count_after(self.undetected, &end);
                Err(end_for(end))
            }
        }
    }

    fn own(&mut self, access: Access) -> Answer {
        match access {
            Access::Read(offset) => match self.fabric.register_read(self.host, offset) {
                Some(value) => done(value),
                None => FAILED,
            },
            Access::Write(offset, value) => {
                if self.fabric.register_write(self.host, offset, value) {
                    done(0)
                } else {
                    FAILED
                }
            }
        }
    }
}
