//! The numbers of the types and requests. The call does nothing: its clauses are the laws.
ghost use Rattle.std.specs.Prelude.{◌≡◌};

use crate::cmd::{INPUT_STATUS, RESET_DEVICE};
use crate::stype0::{LINK_RESPONSE, PACKET_ACCEPTED, PACKET_NOT_ACCEPTED, PACKET_RETRY, STATUS};
use crate::stype1::{
    END_OF_PACKET, LINK_REQUEST, MULTICAST_EVENT, NOP, RESTART_FROM_RETRY, START_OF_PACKET, STOMP,
};

/// The types of symbols and the requests have the numbers of RapidIO Interconnect Specification
/// 1.3, Part 6, "Stype0 Control Symbols", "Stype1 Control Symbols" and "Link-Request Control
/// Symbol". Definitions above cite the constants by name.
pub fn types_and_requests_have_their_numbers()
    ensures stype0 { (PACKET_ACCEPTED ≡ 0) × (PACKET_RETRY ≡ 1) × (PACKET_NOT_ACCEPTED ≡ 2)
        × (STATUS ≡ 4) × (LINK_RESPONSE ≡ 6) }
    ensures stype1 { (START_OF_PACKET ≡ 0) × (STOMP ≡ 1) × (END_OF_PACKET ≡ 2)
        × (RESTART_FROM_RETRY ≡ 3) × (LINK_REQUEST ≡ 4) × (MULTICAST_EVENT ≡ 5) × (NOP ≡ 7) }
    ensures cmd { (RESET_DEVICE ≡ 3) × (INPUT_STATUS ≡ 4) }
{}
