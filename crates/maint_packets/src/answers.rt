//! How a device answers a request.
ghost use Rattle.std.specs.Prelude.{◌≡◌, ◌<◌, ◌+◌, min};
ghost use Rattle.maint_registers.specs.Devices.{IsSameDevice};
ghost use Rattle.maint_packets.specs.Responses.{IsResponseForm};
ghost use Rattle.maint_packets.specs.Answers.{request_answered, back};

use crate::request::{Op, Request, in_half};
use crate::response::{DONE, ERROR, Response};
use maint_registers::Registers;

/// Answers a request that came to a port, at the registers of a device. A read is done if a
/// register stands at the offset, and a write if it can be written; else, and for a request that is
/// not of the right form, the status is 7 and the registers stay as they were. The response goes
/// back with IDs of the same size, the next higher priority, if there is one, and a hop count of
/// 255 (RapidIO Interconnect Specification 1.3, Part 1, maintenance responses; Part 3, hop count).
pub fn answer(registers: &mut Registers, request: &Request, port: u8) -> Response
    ensures response { result ≡ (request_answered registers.old request.now port).response }
    ensures registers { registers.new ≡ (request_answered registers.old request.now port).device }
    ensures device { IsSameDevice registers.old registers.new }
    ensures form { IsResponseForm result.write result.status result.words }
    ensures prio { result.prio < 4 }
    ensures dest { result.dest ≡ request.now.source }
    ensures source { result.source ≡ request.now.dest }
    ensures large { result.large ≡ request.now.large }
{
    match request.op {
        Op::Read => match registers.read(request.offset, port) {
            Some(value) => back(request, false, DONE, Some(in_half(request.offset, value))),
            None => back(request, false, ERROR, None),
        },
        Op::Write { value } => {
            let status = if registers.write(request.offset, value) {
                DONE
            } else {
                ERROR
            };
            back(request, true, status, None)
        }
        Op::BadRead => back(request, false, ERROR, None),
        Op::BadWrite => back(request, true, ERROR, None),
    }
}

/// The response to a request, with a status and data.
fn back(request: &Request, write: bool, status: u8, words: Option<(u32, u32)>) -> Response
    ensures { result ≡ back request.now write status words }
{
    Response {
        prio: response_prio(request.prio),
        dest: request.source,
        source: request.dest,
        large: request.large,
        write,
        status,
        tid: request.tid,
        hop: 255,
        words,
    }
}

/// Returns the priority of the response to a request of a priority: the next higher one, if there
/// is one (RapidIO Interconnect Specification 1.3, Part 1, maintenance responses).
pub fn response_prio(prio: u8) -> u8
    ensures value { result ≡ min (prio + 1) 3 }
    ensures range { result < 4 }
{
    prio.saturating_add(1).min(3)
}
