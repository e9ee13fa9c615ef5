//! The request that carries an access, and the answer that its response brings.
ghost use Rattle.std.specs.Prelude.{◌≡◌, ◌<◌, ◌^◌};
ghost use Rattle.maint_packets.specs.Requests.{IsGoodOp};
ghost use Rattle.host_enumerate.specs.Accesses.{access_offset};
ghost use Rattle.fabric_maint.specs.Requests.{request_for, word_named, answer_in};

use host_enumerate::{Access, Answer};
use maint_packets::{Op, Request, Response};

/// The request for an access, with priority 0 and IDs of eight bits.
pub(crate) fn request_for(source: u8, tid: u8, dest: u8, hops: u8, access: Access) -> Request
    requires { access_offset access < 2 ^ 24 }
    ensures value { result ≡ request_for source tid dest hops access }
    ensures good { IsGoodOp result.op }
    ensures dest { result.dest < 256 }
    ensures source { result.source < 256 }
{
    let (op, offset) = match access {
        Access::Read(offset) => (Op::Read, offset),
        Access::Write(offset, value) => (Op::Write { value }, offset),
    };
    Request {
        prio: 0,
        dest: u16::from(dest),
        source: u16::from(source),
        large: false,
        op,
        tid,
        hop: hops,
        offset,
    }
}

/// The answer that a response brings to a request for the register at an offset.
pub(crate) fn answer_in(response: &Response, offset: u32) -> Answer
    ensures { result ≡ answer_in response.now offset }
{
    Answer {
        status: response.status,
        value: word_named(offset, response.words),
    }
}

/// The word of a double-word that an offset names by its bit 2, or 0 if there are none.
fn word_named(offset: u32, words: Option<(u32, u32)>) -> u32
    ensures { result ≡ word_named offset words }
{
    match words {
        Some((_, second)) if offset >> 2 & 1 == 1 => second,
        Some((first, _)) => first,
        None => 0,
    }
}
