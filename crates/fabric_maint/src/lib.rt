//! `FabricMaint`: a host reads and writes the registers of devices by packets over the links of a
//! fabric.
//!
//! Promised: an access is one request and its response, which links, switches and registers carry
//! and answer, whatever edits the wires meet; and the sink is told the lines of all asks in order.
//! These lines may stand in a trace, behind the state that the fabric stood in.
//!
//! Left out: which accesses are made, and when.
//!
//! - [`FabricMaint`] is a `Maint` of `host_enumerate` over a `Fabric`, a noise and a sink.
//! - [`ListNoise`] gives the edits of a list, one after another.
//! - [`noise_leaves_answers`] and [`without_edits_nothing_is_met`] are laws.
#![tactic(auto)]

mod ends;
mod laws;
mod list_noise;
mod maint;
mod requests;

pub use laws::{noise_leaves_answers, without_edits_nothing_is_met};
pub use list_noise::ListNoise;
pub use maint::FabricMaint;
